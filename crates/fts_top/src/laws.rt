//! What holds of each script.
ghost use Rattle.std.specs.Prelude.{◌≡◌, ◌≤◌, ◌-◌, ◌^◌, ℕ, List, length, None};
ghost use Rattle.fts_types.specs.declared.limits.Limits.{Limits};
ghost use Rattle.fts_io.specs.Text.{Line};
ghost use Rattle.fts_schema.specs.declared.reply.Reply.{Reply};
ghost use Rattle.fts_steps.specs.Running.{Running};
ghost use Rattle.fts_steps.specs.Step.{Call};
ghost use Rattle.fts_top.specs.Talk.{texts_of};
ghost use Rattle.fts_top.specs.Laws.{Converse, Talked};
ghost use Rattle.fts_sessions.specs.Seen.{Rise};
ghost use Rattle.fts_top.specs.Sight.{AreOwn};
ghost use Rattle.fts_steps.specs.Running.{grown};
ghost use Rattle.fts_engine.specs.declared.engine.Engine.{Engine};
ghost use Rattle.fts_engine.specs.Stands.{Holds, engine_limits};
ghost use Rattle.fts_shared.specs.Served.{LeavesNoneDue, behind_last, met_by};
ghost use Rattle.fts_top.specs.declared.ends.RunEnd.TheVariants.{Done, ShortOfMemory};
ghost use Rattle.fts_top.specs.Once.{Outside};
ghost use Rattle.fts_top.specs.Serve.{WasServed, Serves};
ghost use Rattle.fts_steps.specs.FaultCounts.{together};
ghost use Rattle.fts_engine.specs.Devices.{disks_of, disk_faults};
ghost use Rattle.fts_workers.specs.declared.health.Health.TheVariants.{Failed};
ghost use Rattle.fts_workers.specs.Health.{worse};

use fts_disk::Disk;

/// The lines of a script, executed to their end on an engine under some limits, with nobody else
/// and without a fault or want of memory, make one list of steps and have one text. It does
/// nothing: its contract is the theorem.
pub fn one_text()
    ensures { (limits : Limits) → (start : Running) → (lines : List Line)
        → (calls others : List Call) → (replies told : List Reply)
        → Converse limits start lines calls replies → Converse limits start lines others told
        → (calls ≡ others) × (texts_of replies ≡ texts_of told) }
{}

/// Along a run with nobody else the numbers of commits that replies tell never fall, and those of
/// commits rise: of all replies, and so of those of each session. A search or a listing behind a
/// commit tells of that commit, or of more. It does nothing: its contract is the theorem.
pub fn sight_rises()
    ensures all { (limits : Limits) → (start : Running) → (lines : List Line)
        → (calls : List Call) → (replies : List Reply)
        → Talked limits start lines calls replies
        → Rise (length start.state.commits) replies }
    ensures own { (limits : Limits) → (start : Running) → (lines : List Line)
        → (calls : List Call) → (replies own : List Reply) → (session : ℕ)
        → Talked limits start lines calls replies → AreOwn session lines replies own
        → Rise (length start.state.commits) own }
{}

/// A script that was served to its end, without want of memory or a fault, leaves no batch due, the
/// last OPTIMIZE ended whole, and no fault stopped the engine. It does nothing: its contract is the
/// theorem.
pub fn served_scripts_leave_none_due<D: Disk, E: Disk>()
    ensures due { (first : Engine D E D.Disk E.Disk) → (before after : Outside D E)
        → (was : WasServed D.Disk E.Disk Done first before after)
        → (running : Running) → Holds running first
        → LeavesNoneDue (engine_limits first) (grown running was.are.history) was.are.ends }
    ensures going { (first : Engine D E D.Disk E.Disk) → (before after : Outside D E)
        → (was : WasServed D.Disk E.Disk Done first before after)
        → (running : Running) → Holds running first → running.stopped ≡ None
        → (behind_last (grown running was.are.history) was.are.ends).stopped ≡ None }
{}

/// A script that ends short of memory met no fault, unless the devices' counts of faults stand at
/// their last value. It does nothing: its contract is the theorem.
pub fn short_scripts_met_no_fault<D: Disk, E: Disk>()
    ensures { (limits : Limits) → (before after : Outside D E)
        → (serves : Serves D.Disk E.Disk limits ShortOfMemory before after)
        → (was : WasServed D.Disk E.Disk ShortOfMemory serves.first before after)
        → worse was.served.met (met_by was.served.works.items) ≡ Failed
        → 2 ^ 64 - 1 ≤ together (disk_faults (disks_of D.Disk E.Disk) after.devices) }
{}
