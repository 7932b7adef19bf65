//! What the headline says of the index and of views, of several sessions at one engine.
//!
//! Where the index was right at first it is right behind each entry of their history
//! ([`indexes_stay_right`]), so that each search finds exactly the rows of the commits before it in
//! which its query holds ([`found_is_scan`]). The crate has these two laws alone, which stand on
//! the lemmas of `fts_core`, so that neither `fts_core` nor `fts_shared` stands on the other.
#![tactic(auto)]

mod laws;

pub use laws::{found_is_scan, indexes_stay_right};
