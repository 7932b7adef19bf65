//! Rows and commits: the definitions that each layer above is proved against.
//!
//! A commit is a list of changes, as `Change::Delete { key: 7 }`, and a [`Refusal`] says why one
//! cannot be made, as `Refusal::DuplicateKey { key: 7, change: 2 }`. The definitions stand in
//! `specs/`: `Commit.antt` has what a commit makes of the rows, `Turn.antt` who is born and who
//! dies in it. No index appears in them.
//!
//! To hold a change costs its texts.
#![tactic(auto)]

mod change;
mod changes;
mod laws;
mod refusal;
mod text;

pub use change::{Change, NewTexts};
pub use changes::Changes;
pub use laws::{are_turns, ids_ascend};
pub use refusal::Refusal;
pub use text::is_text_byte;
