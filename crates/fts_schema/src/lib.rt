//! The replies to the lines of a script, and the text of each.
//!
//! `reply_text(alloc, &Reply::Committed { number: 1 })?` is `OK commit 1` and a line's end.
//! `docs/LANGUAGE.md`, "Replies", has them all.
//!
//! [`listing_text`] is that of what a view lists, row by row.
//!
//! [`summary_text`] is the line that tells what a script from a number comes to.
//!
//! A text costs its bytes.
#![tactic(auto)]

mod ids;
mod listing;
mod reply;
mod rows;
mod summary;

pub use listing::listing_text;
pub use reply::{Reply, created_text, fixed_text, put_reply_text, reply_text};
pub use summary::{Summary, Sums, is_error, summary_text};
