//! What holds of each script.
ghost use Rattle.std.specs.Prelude.{◌≤◌, ℕ, List, length};
ghost use Rattle.fts_io.specs.Text.{Line};
ghost use Rattle.fts_script.specs.Sessions.{IsCrowded};
ghost use Rattle.fts_script.specs.Group.{IsGrouping, Share};

/// Lines that were grouped by 16 sessions at most have none of a 17th. It does nothing: its
/// contract is the theorem.
pub fn not_crowded()
    ensures { (lines : List Line) → (shares : List Share) → (number : ℕ) → IsGrouping lines shares
        → length shares ≤ 16 → IsCrowded lines number → ⊥ }
{}
