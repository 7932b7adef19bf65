//! What holds of the rows of each database.
ghost use Rattle.std.specs.Prelude.{◌≡◌, ◌<◌, Bool, List, map, filter, fold, nat_eq};
ghost use Rattle.std.specs.List.{AllPairs, IsDistinct};
ghost use Rattle.fts_types.specs.Row.{Row};
ghost use Rattle.fts_commits.specs.Commit.{Commit, replay, no_rows};
ghost use Rattle.fts_commits.specs.Turn.{AreTurns, turns_from, rows_by, deaths_of};

/// Whichever of a database's rows a test takes, their document ids ascend: those of a scan do. It
/// does nothing: its contract is the theorem.
pub fn ids_ascend()
    ensures { (commits : List Commit) → (test : Row → Bool) → AllPairs (λ a b. a < b)
        (map (λ row. row.doc) (filter test (replay commits).list)) }
{}

/// Of a database's commits each bears documents with ids above all that were used, ascending, and
/// what dies in it had one of those. Their births and deaths say what the rows are, and no id dies
/// twice. It does nothing: its contract is the theorem.
pub fn are_turns()
    ensures ascend { (commits : List Commit) → AreTurns 0 (turns_from no_rows commits) }
    ensures rows { (commits : List Commit)
        → fold rows_by no_rows (turns_from no_rows commits) ≡ replay commits }
    ensures once { (commits : List Commit)
        → IsDistinct nat_eq (deaths_of (turns_from no_rows commits)) }
{}
