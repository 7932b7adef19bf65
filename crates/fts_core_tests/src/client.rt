//! A client of the headline.
ghost use Rattle.std.specs.Prelude.{◌≡◌, ℕ, [], ◌∷◌, length, Ok, IfSome, IsTrue};
ghost use Rattle.fts_types.specs.declared.settings.Settings.{Settings};
ghost use Rattle.fts_core.specs.World.{Moments};
ghost use Rattle.fts_core.specs.Core.{Fits};
ghost use Rattle.fts_core.specs.Lists.{created_core};
ghost use Rattle.fts_query.specs.declared.view.View.{View};
ghost use Rattle.fts_core_tests.specs.Client.{Stands, CanCrash, IsSynced, AreCommitted, IsViewed};

use fts_commits::Changes;
use fts_core::{Event, Last, Outcome, Place, World, steps};
use fts_disk::{Disk, MemDisk};
use fts_engine::create_engine;
use fts_query::Leaf;
use fts_types::{Limits, Settings};
use std::alloc::Global;

/// The devices are in memory: they tell what they hold, and which images a crash may leave.
type Database = World<MemDisk, MemDisk>;

/// Creates a database, opens it and makes two commits; closes it, and crashes while both devices
/// are synced; opens it again and asks for a view. Where all of this was answered `Ok`, the number
/// of the view, which the headline says: 2, the commits that were acknowledged before the crash.
pub fn number_behind_crash(
    alloc: Global,
    settings: &Settings,
    devices: (MemDisk, MemDisk),
    commits: (Changes, Changes),
    leaves: Vec<Leaf>,
    choice: u64,
) -> Option<u64>
    ensures { IfSome result (λ number. number ≡ 2) }
{
    if settings.check().is_err() {
        return None;
    }
    let Ok((rows, index)) = create_engine(alloc, settings, devices.0, devices.1) else {
        return None;
    };
    let Some(world) = two_commits(alloc, World::new(alloc, rows, index), commits) else {
        return None;
    };
    let Some((world, crash)) = crashing(world, choice) else {
        return None;
    };
    let Some(number) = viewed_behind(alloc, world, crash, leaves) else {
        return None;
    };
    Some(number)
}

/// The world behind an opening and two commits.
fn two_commits(alloc: Global, world: Database, commits: (Changes, Changes)) -> Option<Database>
    ensures { IfSome result (λ now. (settings : Settings) (began : Moments)
        → Fits (created_core settings began) world → Stands 2 now) }
{
    let limits = Limits::standard();
    let first = Event::Commit { changes: commits.0 };
    let second = Event::Commit { changes: commits.1 };
    let Some(events) = three_events(alloc, Event::Opening { limits }, first, second) else {
        drop(world);
        return None;
    };
    match steps(alloc, world, events) {
        Ok((world, outcomes)) => {
            if are_committed(outcomes) {
                return Some(world);
            }
            drop(world);
            None
        }
        Err((world, events)) => {
            drop(world);
            drop(events);
            None
        }
    }
}

/// Whether an opening and two commits answered `Ok`.
fn are_committed(outcomes: Vec<Outcome>) -> bool
    ensures { IsTrue result → length outcomes.items ≡ 3 → AreCommitted outcomes.items }
{
    let Some((opened, first, second)) = three(outcomes) else {
        return false;
    };
    if is_opened(&opened) && is_committed(&first) && is_committed(&second) {
        return true;
    }
    false
}

type Step = Event<MemDisk, MemDisk>;

/// A list of three events.
fn three_events(alloc: Global, first: Step, second: Step, third: Step) -> Option<Vec<Step>>
    ensures { IfSome result (λ all. all.items ≡ first ∷ second ∷ third ∷ []) }
{
    let Ok(mut events) = Vec::with_capacity(alloc, 3) else {
        return None;
    };
    events.push(first).unwrap();
    events.push(second).unwrap();
    events.push(third).unwrap();
    Some(events)
}

/// Three outcomes.
fn three(outcomes: Vec<Outcome>) -> Option<(Outcome, Outcome, Outcome)>
    ensures { IfSome result (λ all. length outcomes.items ≡ 3
        → outcomes.items ≡ all.0 ∷ all.1 ∷ all.2 ∷ []) }
{
    let mut outcomes = outcomes;
    let third = outcomes.pop()?;
    let second = outcomes.pop()?;
    let first = outcomes.pop()?;
    Some((first, second, third))
}

/// Whether an opening answered `Ok`.
fn is_opened(outcome: &Outcome) -> bool
    ensures { IsTrue result → outcome.now ≡ Outcome.Opened (Ok tt) }
{
    matches!(outcome, Outcome::Opened { result: Ok(()) })
}

/// Whether a commit answered `Ok`.
fn is_committed(outcome: &Outcome) -> bool
    ensures { IsTrue result → (number : ℕ) × (outcome.now ≡ Outcome.Committed (Ok number)) }
{
    matches!(outcome, Outcome::Committed { result: Ok(_) })
}

/// The world with its devices closed and synced, and a crash within these syncs.
fn crashing(world: Database, choice: u64) -> Option<(Database, Event<MemDisk, MemDisk>)>
    ensures { IfSome result (λ now. (commits : ℕ) → Stands commits world
        → CanCrash commits now.0 now.1) }
{
    let World {
        place,
        acknowledged,
        doubt,
        last: _,
    } = world;
    let (rows, index) = place.close();
    let (rows, left_rows) = synced(rows, choice)?;
    let (index, left_index) = synced(index, choice)?;
    let world = World {
        place: Place::Closed { rows, index },
        acknowledged,
        doubt,
        last: Last::Other,
    };
    let crash = Event::Crash {
        rows: left_rows,
        index: left_index,
        within: true,
    };
    Some((world, crash))
}

/// A device behind a sync, and one as a crash within it leaves it.
fn synced(disk: MemDisk, choice: u64) -> Option<(MemDisk, MemDisk)>
    ensures { IfSome result (λ now. IsSynced ⟦<MemDisk as Disk>⟧ disk now.0 now.1) }
{
    let mut disk = disk;
    let Ok(()) = disk.sync() else {
        return None;
    };
    let last = disk.calls().len() - 1;
    let Ok(left) = disk.pick_image(last, choice) else {
        return None;
    };
    Some((disk, left))
}

/// The number of a view behind a crash and an opening.
fn viewed_behind(
    alloc: Global,
    world: Database,
    crash: Event<MemDisk, MemDisk>,
    leaves: Vec<Leaf>,
) -> Option<u64>
    ensures { IfSome result (λ number. (commits : ℕ) → CanCrash commits world crash
        → number ≡ commits) }
{
    let limits = Limits::standard();
    let view = Event::View { leaves };
    let Some(events) = three_events(alloc, crash, Event::Opening { limits }, view) else {
        drop(world);
        return None;
    };
    match steps(alloc, world, events) {
        Ok((world, outcomes)) => {
            drop(world);
            number_in(outcomes)
        }
        Err((world, events)) => {
            drop(world);
            drop(events);
            None
        }
    }
}

/// The number of the view behind a crash and an opening, if both answered `Ok`.
fn number_in(outcomes: Vec<Outcome>) -> Option<u64>
    ensures { IfSome result (λ number. length outcomes.items ≡ 3 → IsViewed outcomes.items number) }
{
    let Some((crashed, opened, viewed)) = three(outcomes) else {
        return None;
    };
    let Some(number) = number_of(viewed) else {
        return None;
    };
    if is_crashed(&crashed) && is_opened(&opened) {
        return Some(number);
    }
    None
}

/// The number of a view, if that is what came.
fn number_of(outcome: Outcome) -> Option<u64>
    ensures { IfSome result (λ number. (view : View) × (outcome ≡ Outcome.Viewed (Ok view))
        × (number ≡ view.number)) }
{
    match outcome {
        Outcome::Viewed { result: Ok(view) } => Some(view.number),
        _ => None,
    }
}

/// Whether a crash came.
fn is_crashed(outcome: &Outcome) -> bool
    ensures { IsTrue result → outcome.now ≡ Outcome.Crashed }
{
    matches!(outcome, Outcome::Crashed)
}
