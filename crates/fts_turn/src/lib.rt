//! The turn: one value that many threads use, one at a time, in the order in which they asked for
//! it.
//!
//! Each thread has a [`Seat`] at the [`Turns`]. `take` draws a ticket, waits until that ticket is
//! served, and hands out the value; `give` puts the value back and serves the next ticket. All
//! changes of the value form one history, of which each seat knows a beginning: what it had seen
//! when it last had the turn. A seat takes no bytes, and may be sent to another thread.
//!
//! No proof claims waiting, fairness or wake-ups: `take` may wait for ever, and what it promises
//! holds if it returns.
//!
//! `let mut value = turn.take(&rt, &mut seat);` and, once it was changed, `turn.give(&mut seat,
//! value, 1)`. A turn that nobody waits for costs one call that wakes sleepers.
#![tactic(auto)]

mod historied;
mod rule;
mod seat;
mod turn;
mod view;

pub use historied::{Adds, Historied};
pub use seat::Seat;
pub use turn::Turns;

/// The most seats that a turn may have.
pub const MOST_SEATS: usize = 18;

#[cfg(test)]
mod tests;
