//! Random lists of events, each world compared with a plain model.
use super::{Do, is_found, settings, stopped, told};
use fts_commits::Refusal;
use fts_core::{Event, Outcome, Place, World, step};
use fts_disk::{Kind, MemDisk};
use fts_engine::{Device, OpenError, create_engine};
use fts_steps::{CommitError, IndexError, OptimizeStep, SyncBatch};
use fts_types::{DocId, Key};
use std::alloc::Global;

type Devices = World<MemDisk, MemDisk>;

/// A row of the model: its document id, 0 where no row has the key, and its text.
#[derive(Clone, Copy)]
struct Slot {
    doc: DocId,
    text: &'static str,
}

/// The rows of the model by their keys, from 0, and the largest document id that was used.
#[derive(Clone, Copy)]
struct Table {
    slots: [Slot; 6],
    largest: DocId,
}

/// What a database is, plainly.
#[derive(Drop)]
struct Plain {
    /// The changes that were acknowledged, one a commit, and the one in doubt.
    changes: Vec<Do>,
    doubt: Option<Do>,
    /// How many were, and what is in doubt, if the last answer counts as not given.
    before: usize,
    undone: Option<Do>,
    /// An engine is open.
    open: bool,
    /// The device that failed in a step of this engine.
    stopped: Option<Device>,
    /// The device of which a sync is still to fail.
    fails: Option<Device>,
    /// How many calls of each device the last event surely made last.
    made: (usize, usize),
}

/// The next number of a generator, by a multiplication and a sum.
fn next(number: u64) -> u64 {
    number
        .wrapping_mul(6_364_136_223_846_793_005)
        .wrapping_add(1_442_695_040_888_963_407)
}

/// A part of a number's upper bits, below a bound.
fn below(number: u64, shift: u32, bound: u64) -> u64 {
    let upper = number.checked_shr(shift).unwrap_or(0);
    upper.checked_rem(bound).unwrap_or(0)
}

/// One of three words.
fn word(number: u64) -> &'static str {
    match number {
        0 => "apple",
        1 => "pear",
        _ => "plum",
    }
}

/// One of four texts of these words.
fn text(number: u64) -> &'static str {
    match number {
        0 => "apple",
        1 => "pear",
        2 => "apple pear",
        _ => "pear plum",
    }
}

/// Whether a text has a word.
fn has_word(text: &str, word: &str) -> bool {
    match word {
        "apple" => text == "apple" || text == "apple pear",
        "pear" => text == "pear" || text == "apple pear" || text == "pear plum",
        _ => text == "pear plum",
    }
}

/// What is done next.
fn drawn(open: bool, number: u64) -> Do {
    let key = below(number, 40, 6);
    let text = text(below(number, 44, 4));
    if !open && below(number, 50, 2) == 0 {
        return Do::Open;
    }
    match below(number, 54, 16) {
        0 => Do::Open,
        1..=5 => Do::Insert(key, text),
        6..=8 => Do::Update(key, text),
        9 | 10 => Do::Delete(key),
        11 | 12 => Do::Sync,
        13 | 14 => Do::Optimize,
        _ => Do::View(word(below(number, 33, 3))),
    }
}

/// The rows without that of a key, or with another one in its place.
fn with_slot(table: Table, key: Key, slot: Slot) -> Table {
    let mut slots = table.slots;
    slots[(key % 6) as usize] = slot;
    let largest = table.largest.max(slot.doc);
    Table { slots, largest }
}

/// The document id of the row of a key, 0 where there is none.
fn doc_of(table: &Table, key: Key) -> DocId {
    table.slots[(key % 6) as usize].doc
}

/// The rows with a new one.
fn with_new(table: Table, key: Key, text: &'static str) -> Table {
    let doc = table.largest.wrapping_add(1);
    with_slot(table, key, Slot { doc, text })
}

/// The rows behind a change.
fn changed(table: Table, what: Do) -> Table {
    match what {
        Do::Insert(key, text) => with_new(table, key, text),
        Do::Update(key, text) if doc_of(&table, key) != 0 => with_new(table, key, text),
        Do::Delete(key) => with_slot(table, key, Slot { doc: 0, text: "" }),
        _ => table,
    }
}

/// The rows that changes leave.
fn replayed(changes: &[Do]) -> Table {
    let empty = Slot { doc: 0, text: "" };
    let mut table = Table {
        slots: [empty; 6],
        largest: 0,
    };
    for what in changes {
        table = changed(table, *what);
    }
    table
}

/// Whether the row of a document id has a word.
fn row_has(table: &Table, doc: DocId, word: &str) -> bool {
    for slot in table.slots.iter() {
        if slot.doc == doc && has_word(slot.text, word) {
            return true;
        }
    }
    false
}

/// The document ids of the rows that have a word, ascending.
fn docs_with(alloc: Global, changes: &[Do], word: &str) -> Option<Vec<DocId>> {
    let table = replayed(changes);
    let mut docs = Vec::new(alloc);
    for doc in 1..=table.largest {
        if row_has(&table, doc, word) {
            docs.push(doc).ok()?;
        }
    }
    Some(docs)
}

/// The key that a change inserts though a row has it.
fn taken_key(changes: &[Do], what: Do) -> Option<Key> {
    match what {
        Do::Insert(key, _) if doc_of(&replayed(changes), key) != 0 => Some(key),
        _ => None,
    }
}

/// Whether a commit was refused for this key.
fn is_duplicate(outcome: &Outcome, taken: Key) -> bool {
    match outcome {
        Outcome::Committed {
            result: Err(CommitError::Refused { refusal }),
        } => {
            *refusal
                == Refusal::DuplicateKey {
                    change: 1,
                    key: taken,
                }
        }
        _ => false,
    }
}

/// What an opening, a batch or a step of OPTIMIZE came to, and the number that it has.
fn plainly(outcome: &Outcome) -> (&'static str, u64) {
    match outcome {
        Outcome::NoEngine => ("no engine", 0),
        Outcome::Opened { result: Ok(()) } => ("opened", 0),
        Outcome::Opened {
            result: Err(OpenError::DiskFault),
        } => ("disk fault", 0),
        Outcome::Synced { result: Ok(batch) } => of_batch(batch),
        Outcome::Optimized {
            result: Ok(OptimizeStep::Nothing),
        } => ("nothing", 0),
        Outcome::Optimized { result: Ok(_) } => ("written", 0),
        Outcome::Synced { result: Err(error) } => of_error(error),
        Outcome::Optimized { result: Err(error) } => of_error(error),
        _ => ("other", 0),
    }
}

fn of_batch(batch: &SyncBatch) -> (&'static str, u64) {
    match batch {
        SyncBatch::Flushed { through, .. } => ("written", *through),
        SyncBatch::Nothing { commits } => ("nothing", *commits),
    }
}

fn of_error(error: &IndexError) -> (&'static str, u64) {
    match error {
        IndexError::DiskFault { .. } => ("disk fault", 0),
        IndexError::Stopped { .. } => ("stopped", 0),
        _ => ("other", 0),
    }
}

impl Plain {
    /// A new database, of which a sync of this device is to fail.
    fn new(alloc: Global, fails: Option<Device>) -> Plain {
        Plain {
            changes: Vec::new(alloc),
            doubt: None,
            before: 0,
            undone: None,
            open: false,
            stopped: None,
            fails,
            made: (0, 0),
        }
    }

    /// An event begins.
    fn begin(&mut self) {
        self.before = self.changes.len();
        self.undone = self.doubt;
        self.made = (0, 0);
    }

    /// A device may fail now, if a sync of it is to fail: then the engine stops.
    fn may_fail(&mut self, on: Device) -> bool {
        if self.fails != Some(on) {
            return false;
        }
        self.fails = None;
        self.stopped = Some(on);
        true
    }

    /// Whether an opening comes so, where so many commits are acknowledged then.
    fn open(&mut self, outcome: &Outcome, found: usize) -> bool {
        self.begin();
        self.open = false;
        self.stopped = None;
        match plainly(outcome).0 {
            "opened" => {
                self.made = (3, 3);
                self.open = true;
                self.find(found)
            }
            "disk fault" => {
                self.made = (1, 0);
                self.fails.take().is_some()
            }
            _ => false,
        }
    }

    /// Whether an opening may find so many commits: those that were acknowledged, or these and the
    /// one in doubt.
    fn find(&mut self, found: usize) -> bool {
        let doubt = self.doubt.take();
        if found == self.changes.len() {
            return true;
        }
        match doubt {
            None => false,
            Some(what) => self.acknowledge(what) && found == self.changes.len(),
        }
    }

    fn acknowledge(&mut self, what: Do) -> bool {
        self.changes.push(what).is_ok()
    }

    /// Whether a commit comes so.
    fn commit(&mut self, what: Do, outcome: &Outcome) -> bool {
        self.begin();
        if !self.open {
            return told(outcome).0 == "no engine";
        }
        if self.stopped.is_some() {
            return told(outcome).0 == "stopped";
        }
        match taken_key(&self.changes, what) {
            Some(key) => is_duplicate(outcome, key),
            None => self.make(what, told(outcome)),
        }
    }

    /// Whether a commit that is not refused comes so.
    fn make(&mut self, what: Do, told: (&'static str, u64)) -> bool {
        self.undone = Some(what);
        if told.0 == "committed" {
            self.made = (4, 0);
            return self.acknowledge(what) && told.1 == self.changes.len() as u64;
        }
        self.doubt = Some(what);
        self.made = (2, 0);
        told.0 == "disk fault" && self.may_fail(Device::Rows)
    }

    /// Whether a batch or a step of OPTIMIZE comes so; the number of one is this, of one that was
    /// done.
    fn index(&mut self, outcome: &Outcome, number: u64) -> bool {
        self.begin();
        let told = plainly(outcome);
        if !self.open {
            return told.0 == "no engine";
        }
        if self.stopped.is_some() {
            return told.0 == "stopped";
        }
        if told.0 == "disk fault" {
            self.made = (0, 2);
            return self.may_fail(Device::Index);
        }
        if told.0 == "written" {
            self.made = (0, 4);
            return told.1 == number;
        }
        told == ("nothing", number)
    }

    /// Whether a view of a word comes so.
    fn view(&mut self, alloc: Global, word: &str, outcome: &Outcome) -> bool {
        self.begin();
        if !self.open {
            return told(outcome).0 == "no engine";
        }
        match docs_with(alloc, &self.changes, word) {
            None => false,
            Some(docs) => {
                let number = self.changes.len() as u64;
                is_found(alloc, outcome, word, &(number, &docs))
            }
        }
    }

    /// Whether an event comes so, where so many commits are acknowledged then.
    fn take(&mut self, alloc: Global, what: Do, outcome: &Outcome, found: usize) -> bool {
        let commits = self.changes.len() as u64;
        match what {
            Do::Open => self.open(outcome, found),
            Do::Sync => self.index(outcome, commits),
            Do::Optimize => self.index(outcome, 0),
            Do::View(word) => self.view(alloc, word, outcome),
            _ => self.commit(what, outcome),
        }
    }

    /// A crash came: within the last event, or after it. A sync of this device is to fail now.
    fn crash(&mut self, within: bool, fails: Option<Device>) {
        if within {
            self.changes.truncate(self.before);
            self.doubt = self.undone;
        }
        self.open = false;
        self.stopped = None;
        self.fails = fails;
        self.begin();
    }

    /// How many calls of each device, from the last, a crash may fall in.
    fn calls(&self, within: bool) -> (usize, usize) {
        let pending = match self.stopped {
            None => (0, 0),
            Some(Device::Rows) => (1, 0),
            Some(Device::Index) => (0, 1),
        };
        if !within {
            return pending;
        }
        (self.made.0.max(pending.0), self.made.1.max(pending.1))
    }

    /// Whether a world is so.
    fn is_of(&self, world: &Devices) -> bool {
        self.changes.len() == world.acknowledged.len()
            && self.doubt.is_some() == world.doubt.is_some()
    }
}

/// The device of which a sync is to fail, if one is.
fn failing(number: u64) -> Option<Device> {
    match below(number, 36, 6) {
        0 => Some(Device::Rows),
        1 => Some(Device::Index),
        _ => None,
    }
}

/// A device with these bytes in file 0, whose sync of this number fails if it is the one to fail.
fn device(alloc: Global, bytes: Vec<u8>, fails: bool, number: u64) -> Option<MemDisk> {
    let mut named = Vec::new(alloc);
    if fails {
        named.push((Kind::Sync, number)).ok()?;
    }
    let mut files = Vec::new(alloc);
    files.push(bytes).ok()?;
    MemDisk::from_files(alloc, files, named).ok()
}

/// A device with these bytes whose sync fails so, in one of its first ten syncs.
fn faulty(
    alloc: Global,
    bytes: Vec<u8>,
    on: Device,
    fails: Option<Device>,
    number: u64,
) -> Option<MemDisk> {
    let number = below(number, 45, 10).wrapping_add(1);
    device(alloc, bytes, fails == Some(on), number)
}

/// A device on which nothing is, one of whose syncs behind its creation fails, if it is to fail.
fn unwritten(alloc: Global, on: Device, fails: Option<Device>, number: u64) -> Option<MemDisk> {
    let number = below(number, 45, 10).wrapping_add(4);
    device(alloc, Vec::new(alloc), fails == Some(on), number)
}

/// A world of devices on which a database was just created.
fn created(alloc: Global, fails: Option<Device>, number: u64) -> Option<Devices> {
    let settings = settings(alloc).ok()?;
    if settings.check().is_err() {
        return None;
    }
    let rows = unwritten(alloc, Device::Rows, fails, number)?;
    let index = unwritten(alloc, Device::Index, fails, number)?;
    match create_engine(alloc, &settings, rows, index) {
        Ok((rows, index)) => Some(World::new(alloc, rows, index)),
        Err(_) => None,
    }
}

/// A world whose engine is closed.
fn closed(world: Devices) -> Devices {
    let World {
        place,
        acknowledged,
        doubt,
        last,
    } = world;
    let (rows, index) = place.close();
    let place = Place::Closed { rows, index };
    World {
        place,
        acknowledged,
        doubt,
        last,
    }
}

/// The crash that a number chooses.
#[derive(Clone, Copy)]
struct Crash {
    within: bool,
    rows: usize,
    index: usize,
    choice: u64,
    fails: Option<Device>,
    number: u64,
}

/// A crash where these calls of the devices are the last ones that it may fall in.
fn drawn_crash(plain: &Plain, number: u64) -> Crash {
    let within = below(number, 48, 3) > 0;
    let (rows, index) = plain.calls(within);
    Crash {
        within,
        rows: below(number, 50, (rows as u64).wrapping_add(1)) as usize,
        index: below(number, 50, (index as u64).wrapping_add(1)) as usize,
        choice: below(next(number), 40, 65_536),
        fails: failing(next(number)),
        number: next(number),
    }
}

/// What a crash leaves of a device.
fn left(alloc: Global, disk: &MemDisk, back: usize, on: Device, crash: Crash) -> Option<MemDisk> {
    let bytes = stopped(alloc, disk, back, crash.choice)?;
    faulty(alloc, bytes, on, crash.fails, crash.number)
}

/// The event of a crash.
fn crash_event(
    alloc: Global,
    place: &Place<MemDisk, MemDisk>,
    crash: Crash,
) -> Option<Event<MemDisk, MemDisk>> {
    match place {
        Place::Open { .. } => None,
        Place::Closed { rows, index } => {
            let rows = left(alloc, rows, crash.rows, Device::Rows, crash)?;
            let index = left(alloc, index, crash.index, Device::Index, crash)?;
            let within = crash.within;
            Some(Event::Crash {
                rows,
                index,
                within,
            })
        }
    }
}

/// The world behind a crash, if it is as the model says.
fn behind_crash(alloc: Global, world: Devices, plain: &mut Plain, number: u64) -> Option<Devices> {
    let crash = drawn_crash(plain, number);
    let world = closed(world);
    match crash_event(alloc, &world.place, crash) {
        None => None,
        Some(event) => {
            let (world, _) = step(alloc, world, event);
            plain.crash(crash.within, crash.fails);
            agreed(world, plain)
        }
    }
}

/// The world, if it is as the model says.
fn agreed(world: Devices, plain: &Plain) -> Option<Devices> {
    let is_so = plain.is_of(&world);
    kept(world, is_so)
}

/// The world, or none.
fn kept(world: Devices, is_so: bool) -> Option<Devices> {
    if is_so {
        return Some(world);
    }
    None
}

/// The world, if it and the outcome of what was done are as the model says.
fn judged(
    alloc: Global,
    world: Devices,
    outcome: &Outcome,
    plain: &mut Plain,
    what: Do,
) -> Option<Devices> {
    let found = world.acknowledged.len();
    let comes_so = plain.take(alloc, what, outcome, found);
    let is_so = plain.is_of(&world);
    kept(world, comes_so && is_so)
}

/// The world behind the event of what is done, if both are as the model says.
fn behind_event(
    alloc: Global,
    world: Devices,
    event: Event<MemDisk, MemDisk>,
    plain: &mut Plain,
    what: Do,
) -> Option<Devices> {
    let (world, outcome) = step(alloc, world, event);
    judged(alloc, world, &outcome, plain, what)
}

/// The world behind what is done, if both are as the model says.
fn behind(alloc: Global, world: Devices, plain: &mut Plain, what: Do) -> Option<Devices> {
    match super::event(alloc, what) {
        None => None,
        Some(event) => behind_event(alloc, world, event, plain, what),
    }
}

/// The world behind the next event, which a number draws.
fn behind_next(alloc: Global, world: Devices, plain: &mut Plain, number: u64) -> Option<Devices> {
    if below(number, 58, 10) == 0 {
        return behind_crash(alloc, world, plain, number);
    }
    let what = drawn(plain.open, number);
    behind(alloc, world, plain, what)
}

/// The world behind an opening and a view of each word.
fn behind_views(alloc: Global, world: Devices, plain: &mut Plain) -> Option<Devices> {
    let mut world = behind(alloc, world, plain, Do::Open)?;
    for number in 0..3 {
        world = behind(alloc, world, plain, Do::View(word(number)))?;
    }
    Some(world)
}

/// The world behind events that a number draws, with an opening and views at the end.
fn behind_list(alloc: Global, world: Devices, plain: &mut Plain, number: u64) -> Option<Devices> {
    let mut world = world;
    let mut number = number;
    for _ in 0..below(number, 35, 37) {
        number = next(number);
        world = behind_next(alloc, world, plain, number)?;
    }
    behind_views(alloc, world, plain)
}

/// Whether a list of up to 40 events goes as the model says.
fn goes_so(alloc: Global, number: u64) -> bool {
    let fails = failing(number);
    let mut plain = Plain::new(alloc, fails);
    match created(alloc, fails, number) {
        None => false,
        Some(world) => behind_list(alloc, world, &mut plain, next(number)).is_some(),
    }
}

/// The number that draws the first of so many lists that does not go as the model says.
fn first_wrong(alloc: Global, seed: u64, lists: u64) -> Option<u64> {
    let mut number = seed;
    for _ in 0..lists {
        number = next(number);
        if !goes_so(alloc, number) {
            return Some(number);
        }
    }
    None
}

#[test]
fn random_lists_go_as_the_model_says(rt: HostRuntime) {
    assert_eq!(rt; first_wrong(rt.alloc(), 1, 2_500), None);
}

#[test]
fn more_random_lists_do(rt: HostRuntime) {
    assert_eq!(rt; first_wrong(rt.alloc(), 2, 2_500), None);
}

#[test]
fn a_third_part_of_them_does(rt: HostRuntime) {
    assert_eq!(rt; first_wrong(rt.alloc(), 3, 2_500), None);
}

#[test]
fn a_fourth_part_of_them_does(rt: HostRuntime) {
    assert_eq!(rt; first_wrong(rt.alloc(), 4, 2_500), None);
}
