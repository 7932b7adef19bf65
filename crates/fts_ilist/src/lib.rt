//! Position lists: the documents that have a word, each with the places at which it has it, as
//! bytes.
//!
//! The format stands in `docs/FORMATS.md`, "Position lists". Each list has one spelling. An
//! [`Ilist`] is its bytes: `list.push(7, &[0, 4])?` appends a document, and `list.cursor()` reads
//! the list in place and skips to an id. [`parse`] takes exactly the spellings, and [`pack`] cuts
//! documents into the nodes of a word.
//!
//! A byte is written once and read once.
#![tactic(auto)]

mod block;
mod cursor;
mod documents;
mod list;
mod node;
mod node_list;
mod number;
mod packing;
mod queue;
mod reading;
mod writing;

pub use cursor::Cursor;
pub use documents::{Document, Positions};
pub use list::{Ilist, ParseError, lists_have_one_spelling, parse};
pub use node::{Node, NodeGroup, Nodes, WordNodes};
pub use node_list::{NodeList, NodeRef, NodeSlice, are_loose, bytes_of};
pub use number::{Bad, NUMBER_ROOM, numbers_have_one_spelling, put_number, take_number};
pub use packing::{NODE_LIMIT, Packing, loose_nodes_are_told_by_their_ends, pack, pack_until};
pub use queue::PostingQueue;
pub use reading::{LAST_ID, LAST_POSITION};
