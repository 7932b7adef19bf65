//! Values that stand for a history.
ghost use Rattle.std.specs.Prelude.{◌≡◌, ℕ, ◌+◌, ◌^◌, ◌<◌, List, length};

use std::marker::Brand;

/// A value that stands for a history: the list of all changes that were made under the turn.
///
/// What a value stands for is a relation between the value that the turn was made with, the value
/// now and the entries made since. So the value itself keeps no list.
pub trait Historied {
    /// A change: the number of the seat that made it, and what it was. No value of it need ever be
    /// made.
    type Entry;

    /// From the first value, the value now came by these entries, in their order.
    ghost stands_for: { Self → Self → List Self.Entry → Type 0 };

    /// How many entries a value counts that were made before.
    ghost at_first: { Self → ℕ };

    /// The number of the seat that made an entry.
    ghost by: { Self.Entry → ℕ };

    /// How many entries this value counts that were made before, if a turn is made with it.
    fn count_at_first(&self) -> u64
        ensures { result ≡ at_first self.now };

    /// All entries together are fewer than 2^63.
    ghost few: { (first now : Self) (entries : List Self.Entry) → stands_for first now entries
        → at_first first + length entries < 2 ^ 63 };
}

/// The entries by which a seat changed the value. A call of `give` names them.
pub trait Adds<E> {
    ghost added: { List E };
}

impl<E> Adds<E> for Brand {
    ghost use Rattle.std.specs.Prelude.{[]};

    ghost added = { [] };
}
