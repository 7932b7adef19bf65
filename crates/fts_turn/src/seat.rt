//! Seats at a turn.
use crate::historied::Historied;
use crate::view::View;

/// A seat at a turn. It takes no bytes, and another thread may have it.
///
/// Contracts see its number, from 0, the entries that it gave, the beginning of the history that it
/// has seen, and how often it asked for the turn. A seat that is dropped keeps its number, and its
/// turn can't be closed any more.
#[derive(Drop)]
pub struct Seat<T: Historied> {
    pub(crate) inside: atomic_table::Seat<Option<T>, View<T, T::Entry>>,
}
