//! What holds of a run that is killed.
ghost use Rattle.std.specs.Prelude.{List, IsTrue};
ghost use Rattle.fts_types.specs.declared.limits.Limits.{Limits};
ghost use Rattle.fts_types.specs.declared.settings.Settings.{Settings};
ghost use Rattle.fts_steps.specs.State.{State, IsRight};
ghost use Rattle.fts_steps.specs.Running.{opened};
ghost use Rattle.fts_steps.specs.Step.{Call, Runs};
ghost use Rattle.fts_engine.specs.Devices.{Devices, disks_of, device_sight};
ghost use Rattle.fts_core.specs.Killed.{AllOpen};

use fts_commits::are_turns;
use fts_disk::Disk;

/// A run that is killed at any moment leaves a database, where it began on one whose index was
/// right: of each of its steps, a crash at any moment within it leaves the two devices so that
/// their files are a database's, whose index is right, with each commit that was answered before
/// the step, and the step's own or not. It does nothing: its contract is the theorem.
pub fn killed_runs_open<D: Disk, E: Disk>()
    ensures { IsTrue D.tells → IsTrue E.tells → (settings : Settings) → (limits : Limits)
        → (start : State) → (calls : List Call) → (before after : Devices D E) → IsRight start
        → Runs (device_sight (disks_of D.Disk E.Disk) settings limits) (opened start) calls
        before after
        → (began : Devices D E) × AllOpen (disks_of D.Disk E.Disk) settings limits
        (opened start) calls began after }
{
    are_turns();
}
