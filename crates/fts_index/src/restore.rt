//! Batches that are read again from an index log.
ghost use Rattle.std.specs.Prelude.{◌≡◌, ◌+◌, ◌≤◌, ◌∷◌, ◌++◌, [], List, length, map};
ghost use Rattle.std.specs.Prelude.{◌&&◌, nat_le, IfOk, IsErr, IsErrOf, OnOk, OnErr, Ok, true};
ghost use Rattle.std.specs.List.{list_all};
ghost use Rattle.std.specs.List.Sorted.{IsStrictlySortedBy};
ghost use Rattle.std.specs.Map.{keys_of};
ghost use Rattle.fts_words.specs.Order.{byte_order};
ghost use Rattle.fts_types.specs.Row.{row_of};
ghost use Rattle.fts_ids.specs.Ids.{has, Ascend};
ghost use Rattle.fts_aux.specs.Tables as tables;
ghost use Rattle.fts_lists.specs.State.{room_of};
ghost use Rattle.fts_lists.specs.declared.lists.DeleteList.TheVariants.{Deleted};
ghost use Rattle.fts_index.specs.Restore.{are_born, is_new, is_next, can_restore, IsAdded};
ghost use Rattle.fts_index.specs.Parts.{HasSame};
ghost use Rattle.fts_index.specs.declared.restore.RestoreError.TheVariants.{NoMemory};

use crate::index::{Index, make_batch_room};
use crate::sync::{ascending, move_dead};
use fts_aux::Tables;
use fts_ilist::{Cursor, Node, WordNodes, are_loose};
use fts_types::{DocId, Row};
use std::alloc::{AllocError, Global};

/// Why a batch was not installed.
#[derive(Debug, Clone, Copy, PartialEq, Eq, Drop)]
pub enum RestoreError {
    /// There is no memory.
    NoMemory,
    /// It can't come behind what is installed.
    Bad,
}

impl From<AllocError> for RestoreError {
    ghost from_gives = { λ _ e. e ≡ NoMemory };

    fn from(_e: AllocError) -> RestoreError {
        RestoreError::NoMemory
    }
}

/// The commits that the next batch covers: who was born in them and who died.
#[derive(Drop)]
pub struct Covered {
    pub(crate) births: Vec<DocId>,
    pub(crate) deaths: Vec<DocId>,
    pub(crate) count: u64,
    pub(crate) largest: DocId,
}

/// The ids of rows.
fn ids_of(alloc: Global, rows: &[Row]) -> Result<Vec<DocId>, AllocError>
    ensures { IfOk result (λ ids. ids.items ≡ map (λ row. row.doc) rows.now) }
{
    rows.iter().map(|row| row.doc).collect(alloc)
}

impl Covered {
    ghost use Rattle.fts_commits.specs.Turn.{Turn};
    ghost use Rattle.fts_index.specs.Births.{turn_of};
    ghost use Rattle.fts_index.specs.Restore.{Covers};

    /// No commits. What is noted later lies in this allocator.
    pub fn new(alloc: Global) -> Self
        ensures { Covers [] result }
    {
        Covered {
            births: Vec::new(alloc),
            deaths: Vec::new(alloc),
            count: 0,
            largest: 0,
        }
    }

    /// How many commits they are.
    pub fn count(&self) -> u64
        ensures { (turns : List Turn) → Covers turns self.now → result ≡ length turns }
    {
        self.count
    }

    /// One commit more: the rows that are born in it, the ids that die, and the largest id that is
    /// used after it. Where there is no memory, nothing changes.
    pub fn note(
        &mut self,
        births: &[Row],
        deaths: &[DocId],
        largest: DocId,
    ) -> Result<(), AllocError>
        ensures noted { OnOk result ((turns : List Turn) → Covers turns self.old
            → Covers (turns ++ turn_of (map row_of births.now) deaths.now largest ∷ []) self.new) }
        ensures stays { OnErr result ((turns : List Turn) → Covers turns self.old
            → Covers turns self.new) }
    {
        let count = self.count.checked_add(1).ok_or(AllocError)?;
        let born = ids_of(*self.births.allocator(), births)?;
        self.births.reserve(born.len())?;
        self.deaths.reserve(deaths.len())?;
        self.births.extend_from_slice(&born).unwrap();
        self.deaths.extend_from_slice(deaths).unwrap();
        self.count = count;
        self.largest = largest;
        Ok(())
    }

    /// Nothing is covered any more.
    pub fn clear(&mut self)
        ensures { Covers [] self.new }
    {
        self.births.clear();
        self.deaths.clear();
        self.count = 0;
        self.largest = 0;
    }
}

/// Whether an id lies between two others, or is one of them.
fn is_between(first: DocId, last: DocId, id: DocId) -> bool
    ensures { result ≡ (nat_le first id && nat_le id last) }
{
    if id < first {
        return false;
    }
    id <= last
}

/// Whether an id is among those that were born. They mostly have no gap, and then it takes constant
/// time.
fn is_born(births: &[DocId], id: DocId) -> bool
    requires { Ascend births.now }
    ensures { result ≡ has births.now id }
{
    if births.is_empty() {
        return false;
    }
    let (first, last) = (births[0], births[births.len() - 1]);
    if last.saturating_sub(first) == births.len() as u64 - 1 {
        return is_between(first, last, id);
    }
    births.binary_search(&id).is_ok()
}

/// Whether all documents of a list were born.
fn all_born(births: &[DocId], mut documents: Cursor<'_>) -> bool
    requires { Ascend births.now }
    ensures { result ≡ list_all (λ p. has births.now p.id) documents.entry }
{
    while let Some(id) = documents.doc() {
        if !is_born(births, id) {
            return false;
        }
        documents.advance();
    }
    true
}

/// Whether all documents of nodes were born.
fn are_born(births: &[DocId], nodes: &[Node]) -> bool
    requires { Ascend births.now }
    ensures { result ≡ are_born (has births.now) nodes.now }
{
    let mut rest = nodes;
    while let [first, behind @ ..] = rest {
        if !all_born(births, first.as_ref().cursor()) {
            return false;
        }
        rest = behind;
    }
    true
}

/// Whether packing leaves the nodes of a word as they are, and all their documents were born.
fn is_new(births: &[DocId], word: &WordNodes) -> bool
    requires { Ascend births.now }
    ensures { result ≡ is_new (has births.now) word.now }
{
    if are_loose(word.nodes()) {
        return false;
    }
    are_born(births, word.nodes())
}

/// Whether this holds of each word.
fn are_new(births: &[DocId], nodes: &[WordNodes]) -> bool
    requires { Ascend births.now }
    ensures { result ≡ list_all (is_new (has births.now)) nodes.now }
{
    let mut rest = nodes;
    while let [first, behind @ ..] = rest {
        if !is_new(births, first) {
            return false;
        }
        rest = behind;
    }
    true
}

/// Whether a batch flushes the commits covered, which are some.
fn is_next(index: &Index, covered: &Covered, through: u64, synced: DocId) -> bool
    ensures { result ≡ is_next index.now covered.now through synced }
{
    if covered.count == 0 {
        return false;
    }
    if index.lists.flushed().checked_add(covered.count) != Some(through) {
        return false;
    }
    synced == covered.largest
}

/// Whether a batch can be installed behind what the index has, with the room for it and for what
/// died in its commits.
fn make_room_if_fit(
    index: &mut Index,
    covered: &Covered,
    through: u64,
    synced: DocId,
    nodes: &[WordNodes],
    dead: usize,
) -> Result<bool, AllocError>
    ensures same { HasSame index.old index.new }
    ensures can { IfOk result (λ can. can
        ≡ can_restore index.old covered.now through synced nodes.now) }
    ensures nodes { result ≡ Ok true → tables.HasRoomOf index.new.tables nodes.now }
    ensures dead { result ≡ Ok true → dead ≤ room_of Deleted index.new.lists }
{
    if !is_next(index, covered, through, synced) {
        return Ok(false);
    }
    let births = ascending(covered.births.to_vec(index.alloc)?);
    if !are_new(&births, nodes) {
        return Ok(false);
    }
    make_batch_room(index, nodes, dead)
}

/// Adds what a batch does to each part of an index that has nothing in its cache.
fn add_batch(index: &mut Index, through: u64, synced: DocId, nodes: &[WordNodes], dead: &[DocId])
    requires words { IsStrictlySortedBy byte_order (keys_of nodes.now) }
    requires room { tables.HasRoom index.old.tables nodes.now }
    requires after { tables.ComesAfter index.old.tables nodes.now }
    requires ascend { Ascend dead.now }
    requires dead { length dead.now ≤ room_of Deleted index.old.lists }
    ensures { IsAdded index.old through synced nodes.now dead.now index.new }
{
    index.tables.install_batch(nodes);
    move_dead(&mut index.lists, dead);
    index.lists.set_flushed(through, synced);
}

impl Index {
    ghost use Rattle.fts_words.specs.Indexed.{Rules};
    ghost use Rattle.fts_commits.specs.Turn.{Turn};
    ghost use Rattle.fts_entries.specs.Entry.{IndexState};
    ghost use Rattle.fts_entries.specs.Coming.{CanSeal};
    ghost use Rattle.fts_index.specs.Stands.{StandsFor};
    ghost use Rattle.fts_index.specs.Restore.{AreRead, Covers, Restores, IsRestored};
    ghost use Rattle.fts_index.specs.declared.restore.RestoreError.TheVariants.{Bad};

    /// Installs a batch that was read from the index log, which flushes the commits covered;
    /// nothing is covered then. All commits before them are flushed. It is refused where no batch
    /// of an index can be this one, as of a document that was not born in these commits. Where it
    /// is refused, the index has what it had, and so have the commits covered.
    ///
    /// It costs the documents of the batch, and a sort of the ids that were born and that died.
    #[tactic(auto, unfolding(crate::specs::Stands::StandsFor))]
    pub fn restore(
        &mut self,
        covered: &mut Covered,
        through: u64,
        synced: DocId,
        nodes: &[WordNodes],
    ) -> Result<(), RestoreError>
        requires { AreRead nodes.now }
        ensures restored { OnOk result ((rules : Rules) (turns more : List Turn) (s : IndexState)
            → Restores rules turns more s self.old covered.old
            → IsRestored rules (turns ++ more) s through synced nodes.now self.new) }
        ensures none { OnOk result (Covers [] covered.new) }
        ensures bad { IsErrOf result Bad → (rules : Rules) (turns more : List Turn)
            (s : IndexState) → Restores rules turns more s self.old covered.old
            → length (turns ++ more) ≤ through
            → CanSeal (turns ++ more) s through synced nodes.now → ⊥ }
        ensures stays { IsErr result → (rules : Rules) (turns : List Turn) (s : IndexState)
            → StandsFor rules turns s self.old → StandsFor rules turns s self.new }
        ensures covered { OnErr result (covered.new ≡ covered.old) }
    {
        let dead = ascending(covered.deaths.to_vec(self.alloc)?);
        if !make_room_if_fit(self, covered, through, synced, nodes, dead.len())? {
            return Err(RestoreError::Bad);
        }
        add_batch(self, through, synced, nodes, &dead);
        covered.clear();
        Ok(())
    }
}
