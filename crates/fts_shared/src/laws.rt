//! What follows from one history of all steps. Each does nothing: its contract is the theorem.
ghost use Rattle.std.specs.Prelude.{◌≡◌, ◌+◌, ℕ, List, length, ◌++◌, ◌∷◌, Some, None};
ghost use Rattle.std.specs.List.{AllByRecursion};
ghost use Rattle.fts_types.specs.Rules.{rules_of};
ghost use Rattle.fts_types.specs.declared.limits.Limits.{Limits};
ghost use Rattle.fts_types.specs.declared.settings.Settings.{Settings};
ghost use Rattle.fts_commits.specs.Commit.{Commit, replay};
ghost use Rattle.fts_commits.specs.declared.refusal.Refusal.{Refusal};
ghost use Rattle.fts_io.specs.Text.{Line};
ghost use Rattle.fts_meaning.specs.Scan.{scan};
ghost use Rattle.fts_meaning.specs.Tree.{Terms};
ghost use Rattle.fts_schema.specs.declared.reply.Reply.{Reply};
ghost use Rattle.fts_sessions.specs.Seen.{Rise};
ghost use Rattle.fts_sessions.specs.Transaction.{Transaction};
ghost use Rattle.fts_steps.specs.Running.{Running, Entry, grown};
ghost use Rattle.fts_steps.specs.State.{IsRight};
ghost use Rattle.fts_steps.specs.Step.{Call, Follows, to_commit, to_find, committed, refused};
ghost use Rattle.fts_steps.specs.Step.{full, found, plain_answer};
ghost use Rattle.fts_turn.specs.Histories.{Begins};
ghost use Rattle.fts_shared.specs.Laws.{IsStep, HasItsPlace, AddedBy, IsNumber, before_step};
ghost use Rattle.fts_engine.specs.Stands.{Holds, engine_limits, engine_faults};
ghost use Rattle.fts_engine.specs.declared.engine.Engine.{Engine};
ghost use Rattle.fts_shared.specs.declared.served.Served.{Served};
ghost use Rattle.fts_shared.specs.declared.work.Work.{Work};
ghost use Rattle.fts_shared.specs.Served.{TellsAll, AreServed, AreCalm, LeavesNoneDue};
ghost use Rattle.fts_shared.specs.Served.{behind_last, met_by};
ghost use Rattle.fts_faults.specs.Count.{Rose};
ghost use Rattle.fts_steps.specs.FaultCounts.{together};
ghost use Rattle.fts_workers.specs.Health.{worse};
ghost use Rattle.fts_shared.specs.Work.{replies_in};
ghost use Rattle.fts_shared.specs.Talk.{Talks};
ghost use Rattle.fts_workers.specs.declared.health.Health.TheVariants.{Sound, Failed};

use fts_disk::Disk;

/// Each step answered as it may on what the entries before it made of what ran at first, and what
/// it added follows them in the history.
pub fn steps_have_their_place()
    ensures { (limits : Limits) → (running : Running) → (history : List Entry)
        → (all : List (List Call)) → TellsAll limits running history all
        → (number : ℕ) → (earlier : List Call) → (call : Call) → IsStep all number earlier call
        → HasItsPlace limits running history number earlier call }
{}

/// Each entry of the history was added by a step, which stands at that place.
pub fn entries_have_their_steps()
    ensures { (limits : Limits) → (running : Running) → (history : List Entry)
        → (all : List (List Call)) → TellsAll limits running history all
        → (front : List Entry) → (entry : Entry) → (behind : List Entry)
        → history ≡ front ++ (entry ∷ behind) → AddedBy all front entry }
{}

/// The list of commits begins with those that were there at first.
pub fn first_commits_stay()
    ensures { (running : Running) → (history : List Entry)
        → Begins running.state.commits (grown running history).state.commits }
{}

/// A commit that was told its number has that place, from 1, in the list of all commits.
pub fn commits_have_their_places()
    ensures { (limits : Limits) → (running : Running) → (history : List Entry)
        → (by : ℕ) → (earlier : List Call) → (call : Call)
        → HasItsPlace limits running history by earlier call
        → (commit : Commit) → call.ask ≡ to_commit commit
        → (number : ℕ) → call.answer ≡ committed number
        → (place : ℕ) × (number ≡ place + 1)
        × IsNumber (grown running history).state.commits place commit }
{}

/// No two commits are told one number.
pub fn no_number_is_told_twice()
    ensures { (limits : Limits) → (running : Running) → (history : List Entry)
        → (all : List (List Call)) → TellsAll limits running history all
        → (a : ℕ) → (first : List Call) → (call : Call) → IsStep all a first call
        → (b : ℕ) → (others : List Call) → (other : Call) → IsStep all b others other
        → (commit : Commit) → call.ask ≡ to_commit commit
        → (commit' : Commit) → other.ask ≡ to_commit commit'
        → (number : ℕ) → call.answer ≡ committed number → other.answer ≡ committed number
        → (a ≡ b) × (length first ≡ length others) }
{}

/// A search has the number of the commits before it, and finds the rows of these in which its query
/// holds.
pub fn searches_are_scans()
    ensures { (limits : Limits) → (running : Running) → (history : List Entry)
        → (by : ℕ) → (earlier : List Call) → (call : Call)
        → HasItsPlace limits running history by earlier call
        → (terms : Terms) → call.ask ≡ to_find terms
        → (number : ℕ) → (docs : List ℕ) → call.answer ≡ found number docs
        → (now : Running) → now ≡ grown running (before_step by earlier call)
        → (number ≡ length now.state.commits) × (IsRight now.state
        → docs ≡ scan (rules_of now.state.settings) (replay now.state.commits).list terms) }
{}

/// A commit that the rows refuse, or the log's limit, is so refused on the commits before it.
pub fn refusals_have_their_cause()
    ensures { (limits : Limits) → (running : Running) → (history : List Entry)
        → (by : ℕ) → (earlier : List Call) → (call : Call)
        → HasItsPlace limits running history by earlier call
        → (now : Running) → now ≡ grown running (before_step by earlier call)
        → ((why : Refusal) → call.answer ≡ refused why
        → plain_answer limits now call.ask ≡ Some (refused why))
        × ((place : ℕ) → call.answer ≡ full place
        → plain_answer limits now call.ask ≡ Some (full place)) }
{}

/// The numbers of commits that a session is told never fall, and its own commits have larger ones.
/// None is less than how many commits there were at first.
pub fn numbers_never_fall()
    ensures { (settings : Settings) → (limits : Limits) → (running : Running)
        → (transaction : Transaction) → (lines : List Line) → (calls : List Call)
        → (replies : List Reply) → (left : Transaction)
        → Follows limits running calls → Talks settings transaction lines calls replies left
        → Rise (length running.state.commits) replies }
{}

/// The engine behind the last rounds holds what the first one held, grown by the history and by
/// what these rounds added.
pub fn engines_hold_what_was_told<D: Disk, E: Disk>()
    ensures { (lines : List Line) → (first : Engine D E D.Disk E.Disk) → (works : List Work)
        → (served : Served D E D.Disk E.Disk) → (are : AreServed lines first works served)
        → (running : Running) → Holds running first
        → Holds (behind_last (grown running are.history) are.ends) served.engine }
{}

/// Where the last rounds met neither want of memory nor a fault, no batch is due behind that of the
/// sync worker, and the OPTIMIZE of the other ended whole.
pub fn last_rounds_leave_none_due<D: Disk, E: Disk>()
    ensures { (lines : List Line) → (first : Engine D E D.Disk E.Disk) → (works : List Work)
        → (served : Served D E D.Disk E.Disk) → (are : AreServed lines first works served)
        → (running : Running) → Holds running first → are.last ≡ Sound
        → LeavesNoneDue (engine_limits first) (grown running are.history) are.ends }
{}

/// Where no session is told a fault of a device and no worker met one, none stopped the engine.
pub fn calm_scripts_stop_nothing<D: Disk, E: Disk>()
    ensures { (lines : List Line) → (first : Engine D E D.Disk E.Disk) → (works : List Work)
        → (served : Served D E D.Disk E.Disk) → (are : AreServed lines first works served)
        → (running : Running) → Holds running first → running.stopped ≡ None
        → AllByRecursion AreCalm (replies_in served.works.items) → (served.met ≡ Failed → ⊥)
        → (behind_last (grown running are.history) are.ends).stopped ≡ None }
{}

/// Where a session is told a fault of a device, or a worker met one, the devices' counts of faults
/// rose together, or stand at their last value.
pub fn faults_are_counted<D: Disk, E: Disk>()
    ensures { (lines : List Line) → (first : Engine D E D.Disk E.Disk) → (works : List Work)
        → (served : Served D E D.Disk E.Disk) → AreServed lines first works served
        → worse served.met (met_by served.works.items) ≡ Failed
        → Rose (together (engine_faults first)) (together (engine_faults served.engine)) }
{}
