//! A script as a whole: its lines, which session each is of, and replies in the order of the lines.
//!
//! [`read_script`] reads all lines before any is executed. [`group_lines`] tells for each session
//! at which places its lines stand, so that the sessions can be executed beside one another, and
//! [`merge_replies`] puts what they answered into the order of the script:
//! `let script = read_script(alloc, &mut input)?; let groups = group_lines(alloc, &script)?; ..;
//! let all = merge_replies(alloc, &script, &groups, replies)?`.
//!
//! A line costs its bytes, and a look at 16 sessions at most.
#![tactic(auto)]

mod error;
mod grouping;
mod laws;
mod lines;
mod merging;
mod reading;

pub use error::{GroupError, ScriptError};
pub use grouping::{Group, MOST_SESSIONS, group_lines};
pub use laws::not_crowded;
pub use lines::{Script, ScriptLine};
pub use merging::merge_replies;
pub use reading::{MOST_LINES, read_script};
