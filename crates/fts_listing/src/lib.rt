//! What the views of an index list: the words of its tables and of its cache, and its numbers.
//!
//! The definitions stand in `specs/Listing.antt`: what a view lists is a relation between the
//! commits, the state of the index and a [`Listing`], which has one solution. A listing keeps each
//! word once, with the position lists of its documents; `fts_schema` prints it row by row. Of a
//! document that died the tables list its own words until a pass takes it out
//! (`tables_list_what_was_born`).
//!
//! `engine.listing(ListingKind::Deleted)?` gives a `NumberedListing`, whose listing is
//! `Listing::Ids` of the documents in DELETED. A listing holds a copy of what it lists, and costs
//! that.
#![tactic(auto)]

mod kind;
mod laws;
mod listing;

pub use kind::ListingKind;
pub use laws::{a_view_lists_one_thing, tables_list_what_was_born};
pub use listing::{Config, ListedWords, Listing, NumberedListing};
