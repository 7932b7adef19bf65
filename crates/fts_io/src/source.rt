ghost use Rattle.std.specs.Prelude.{◌≡◌, ◌++◌, ◌≤◌, ◌<◌, ℕ, Bool, List, [], length, take, IsTrue};
ghost use Rattle.std.specs.Prelude.{IfOk, OnErr};
ghost use Rattle.fts_faults.specs.Count.{HasCause};

use fts_faults::Failed;

/// Where bytes come from.
///
/// A source may tell what it has left. Then its contract says which bytes each call takes. One that
/// doesn't, as standard input, claims of its calls only that each failure raised the count of
/// faults.
pub trait Source {
    /// Whether sources of this type tell what they have left.
    ghost tells: { Bool };

    /// The bytes that are left.
    ghost left: { Self → List ℕ };

    /// How many faults there were.
    ghost faults: { Self → ℕ };

    /// Takes bytes into the front of the buffer, and returns how many: at most the buffer's length.
    /// 0 into a buffer that isn't empty means that none are left. A call that fails takes nothing.
    fn read(&mut self, buf: &mut [u8]) -> Result<usize, Failed>
        ensures bound { IfOk result (λ n. n ≤ length buf.new) }
        ensures takes { IfOk result
            (λ n. IsTrue tells → left self.old ≡ take n buf.new ++ left self.new) }
        ensures end { IfOk result (λ n. IsTrue tells → n ≡ 0 → 0 < length buf.new
            → left self.new ≡ []) }
        ensures kept { OnErr result (IsTrue tells → left self.new ≡ left self.old) }
        ensures cause { HasCause (faults self.old) (faults self.new) result };
}
