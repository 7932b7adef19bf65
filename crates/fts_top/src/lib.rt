//! The whole program but for its outside: words and a script come in, replies and a status come
//! out.
//!
//! [`fts_top`] does what the words of a command line ask for: `let (status, rows, index) =
//! fts_top(alloc, &threads, &words, &mut input, &mut out, rows, index, &gate)`. [`fts_once`] is all
//! of it but `serve`, for whom makes no threads. [`run`] executes the lines of a source over any
//! engine. `docs/PROOF.md`, "The theorem of the program", says what is proved of them.
//!
//! A run costs what its lines cost, one write for each reply, and the opening.
#![tactic(auto)]

mod answers;
mod ends;
mod generate;
mod laws;
mod once;
mod script;
mod serve;
mod sessions;
mod status;
mod top;

pub use ends::{CreateEnd, RunEnd};
pub use fts_args::{Command, command_of};
pub use fts_engine::Device;
pub use laws::{one_text, served_scripts_leave_none_due, short_scripts_met_no_fault, sight_rises};
pub use once::{fts_once, run_script};
pub use script::run;
pub use serve::serve_script;
pub use status::Status;
pub use top::fts_top;
