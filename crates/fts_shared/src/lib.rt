//! One engine that several threads use in turn, and sessions in threads over it.
//!
//! [`AtTurn`] is an engine under the turn of `fts_turn`, and [`Shared`] the steps of one thread at
//! its seat there: each takes the engine, makes one step and gives the engine back, with what the
//! step added. [`serve_sessions`] executes the lines of several sessions, each in a thread, beside
//! the two workers.
//!
//! What all of them added is one history, which tells each step: [`steps_have_their_place`] and
//! the laws behind it say what follows from that.
//!
//! `let works = works_of(alloc, group_lines(alloc, &script)?)?;` is the work of a script's
//! sessions, `serve_sessions(alloc, &rt, engine, &OpenGate, &script, works)` gives the engine back
//! with what they were told, and `replies_in_order(alloc, &script, works)?` puts that into the
//! order of the lines. A step costs what the engine's costs, and a turn.
#![tactic(auto)]

mod at_seat;
mod at_turn;
mod at_work;
mod context;
mod ends;
mod historied;
mod in_turn;
mod joined;
mod laws;
mod noted;
mod placed;
mod served;
mod settings;
mod shared;
mod steps;
mod talking;
mod told;
mod work;
mod works;

pub use at_turn::AtTurn;
pub use laws::{
    calm_scripts_stop_nothing, commits_have_their_places, engines_hold_what_was_told,
    entries_have_their_steps, faults_are_counted, first_commits_stay, last_rounds_leave_none_due,
    no_number_is_told_twice, numbers_never_fall, refusals_have_their_cause, searches_are_scans,
    steps_have_their_place,
};
pub use noted::Noted;
pub use served::{Served, serve_sessions};
pub use shared::Shared;
pub use work::Work;
pub use works::{replies_in_order, works_of};
