//! What holds of the files of a database.
ghost use Rattle.std.specs.Prelude.{◌≡◌, ℕ, List};
ghost use Rattle.fts_disk.specs.Device.{Files};
ghost use Rattle.fts_steps.specs.State.{State, IsDatabase};

/// Files are the two logs of one state alone. It does nothing: its contract is the theorem.
pub fn one_database()
    ensures { (state other : State) → (rows : List ℕ) → (index : Files)
        → IsDatabase state rows index → IsDatabase other rows index → state ≡ other }
{}
