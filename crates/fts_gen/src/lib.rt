//! Scripts from a number: large valid inputs that are the same each time.
//!
//! `script(alloc, &settings, 7, 1_000)?` has 1,000 statements about the table of these settings,
//! INSERTs for the most part, with a SYNC behind each hundredth and an OPTIMIZE behind each two
//! hundred and fiftieth. `next_line` gives one line after another. `docs/LANGUAGE.md`, "The
//! generator", has the rule.
//!
//! A line costs its bytes.
#![tactic(auto)]

mod draws;
mod generator;
mod table;

pub use generator::{ScriptLines, script};
