ghost use Rattle.std.specs.Prelude.{◌≡◌, ◌++◌, ◌≤◌, ◌<◌, ℕ, Bool, List, length, take, IsTrue, IfOk};
ghost use Rattle.std.specs.Prelude.{OnErr};
ghost use Rattle.fts_faults.specs.Count.{HasCause};

use fts_faults::Failed;

/// Where bytes go.
///
/// A sink may tell what it holds. Then its contract says which bytes each call appends. One that
/// doesn't, as standard output, claims of its calls only that each failure raised the count of
/// faults.
pub trait Sink {
    /// Whether sinks of this type tell what they hold.
    ghost tells: { Bool };

    /// The bytes that it holds: all that it took.
    ghost holds: { Self → List ℕ };

    /// How many faults there were.
    ghost faults: { Self → ℕ };

    /// Takes bytes from the front of the piece, which isn't empty, and returns how many: at least
    /// one. A call that fails takes nothing.
    fn write(&mut self, bytes: &[u8]) -> Result<usize, Failed>
        requires { 0 < length bytes.now }
        ensures bound { IfOk result (λ n. n ≤ length bytes.now) }
        ensures some { IfOk result (λ n. 0 < n) }
        ensures appends { IfOk result
            (λ n. IsTrue tells → holds self.new ≡ holds self.old ++ take n bytes.now) }
        ensures kept { OnErr result (IsTrue tells → holds self.new ≡ holds self.old) }
        ensures cause { HasCause (faults self.old) (faults self.new) result };
}
