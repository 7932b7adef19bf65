//! The laws. Each does nothing but call a law of rows: its contract is the theorem.
ghost use Rattle.std.specs.Prelude.{◌≡◌, ◌++◌, ℕ, List, length};
ghost use Rattle.fts_types.specs.Rules.{rules_of};
ghost use Rattle.fts_commits.specs.Commit.{replay};
ghost use Rattle.fts_io.specs.Text.{Line};
ghost use Rattle.fts_meaning.specs.Scan.{scan};
ghost use Rattle.fts_meaning.specs.Tree.{Terms};
ghost use Rattle.fts_steps.specs.Right.{HasRightIndex};
ghost use Rattle.fts_steps.specs.Running.{Running, Entry, grown, opened};
ghost use Rattle.fts_steps.specs.State.{State, IsRight};
ghost use Rattle.fts_steps.specs.Step.{Call, to_find, found};
ghost use Rattle.fts_engine.specs.Stands.{Holds};
ghost use Rattle.fts_engine.specs.declared.engine.Engine.{Engine};
ghost use Rattle.fts_shared.specs.Laws.{IsStep, before_step};
ghost use Rattle.fts_shared.specs.Served.{AreServed, by_number};
ghost use Rattle.fts_shared.specs.declared.served.Served.{Served};
ghost use Rattle.fts_shared.specs.declared.work.Work.{Work};

use fts_commits::are_turns;
use fts_disk::Disk;

/// Beside others the index stays right: where it was at first, it is behind each entry of the
/// history.
pub fn indexes_stay_right<D: Disk, E: Disk>()
    ensures { (lines : List Line) → (first : Engine D E D.Disk E.Disk)
        → (works : List Work) → (served : Served D E D.Disk E.Disk)
        → (are : AreServed lines first works served)
        → (start : State) → Holds (opened start) first → IsRight start
        → (front : List Entry) → (rest : List Entry) → are.history ≡ front ++ rest
        → HasRightIndex (grown (opened start) front) }
{
    are_turns();
}

/// So each search beside others tells of the commits before it, and finds exactly the rows of these
/// in which its query holds.
pub fn found_is_scan<D: Disk, E: Disk>()
    ensures { (lines : List Line) → (first : Engine D E D.Disk E.Disk)
        → (works : List Work) → (served : Served D E D.Disk E.Disk)
        → (are : AreServed lines first works served)
        → (start : State) → Holds (opened start) first → IsRight start
        → (by : ℕ) → (earlier : List Call) → (call : Call)
        → IsStep (by_number are.calls) by earlier call
        → (terms : Terms) → call.ask ≡ to_find terms
        → (number : ℕ) → (docs : List ℕ) → call.answer ≡ found number docs
        → (met : Running) → met ≡ grown (opened start) (before_step by earlier call)
        → (number ≡ length met.state.commits)
        × (docs ≡ scan (rules_of met.state.settings) (replay met.state.commits).list terms) }
{
    are_turns();
}
