//! What the seats at a turn know. No value of these types is made.
use std::collections::LinkedList;

/// What a seat does.
pub enum Stage {
    Rests,
    /// It waits with this ticket.
    Waits(u64),
    /// It has the turn, with this ticket.
    HasTurn(u64),
}

/// The account of one seat: its number, what it gave, and what it has seen of the history.
pub struct Account<T, E> {
    /// The value that the turn was made with.
    pub origin: T,
    pub number: u64,
    pub gave: LinkedList<E>,
    pub seen: LinkedList<E>,
}

/// What a seat knows. It has its own account; one that took in others has theirs too, and a spent
/// one has none.
pub struct View<T, E> {
    pub accounts: LinkedList<Account<T, E>>,
    pub stage: Stage,
    /// The number of the next seat, if this one makes it, and otherwise 0.
    pub next_number: u64,
    /// How many more seats this one can make.
    pub seats_left: u64,
    /// How many tickets it drew.
    pub turns: u64,
}
