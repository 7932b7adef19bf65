ghost use Rattle.std.specs.Prelude.{◌≡◌, ◌++◌, ◌∷◌, [], ℕ, List, map, IfOk};
ghost use Rattle.fts_types.specs.Rules.{rules_of};
ghost use Rattle.fts_types.specs.Row.{row_of};
ghost use Rattle.fts_ids.specs.Ids.{Ascend};
ghost use Rattle.fts_cache.specs.Cache.{HasRoom};
ghost use Rattle.fts_index.specs.Births.{AreBirths};
ghost use Rattle.fts_index.specs.Document.{HaveWordsOf};
ghost use Rattle.fts_index.specs.Index.{IdsAscendFrom, FitsIndex, FitsSync};
ghost use Rattle.fts_index.specs.Parts.{AddsDocuments, HasSame, IsCommitted, IsFlushed};
ghost use Rattle.std.specs.Prelude.{◌<◌, ◌≤◌, OnOk};
ghost use Rattle.std.specs.VecDeque.{deque_len, deque_capacity};
ghost use Rattle.fts_aux.specs.Tables as tables;
ghost use Rattle.fts_lists.specs.State.{room_of};
ghost use Rattle.fts_lists.specs.declared.lists.DeleteList.TheVariants.{Deleted, DeletedCache};

use crate::document::document_words;
use crate::gather::{Gathered, needed, told};
use crate::listing::listed;
use crate::pending::Pending;
use crate::sync::{SyncPlan, covered_deaths, covers, move_dead, pop_covered, through_of};
use fts_aux::Tables;
use fts_cache::{Cache, DocWords};
use fts_ilist::WordNodes;
use fts_listing::{Listing, ListingKind};
use fts_lists::{DeleteList, Lists};
use fts_query::Leaf;
use fts_sync::batch;
use fts_types::{DocId, Row, Settings};
use std::alloc::{AllocError, Global};
use std::collections::VecDeque;

/// The words of a table's rows, each with its documents and their positions: those of flushed
/// commits in the auxiliary tables, those of later ones in the cache; which documents died, in the
/// delete lists; and the commits that are not flushed.
#[derive(Drop)]
pub struct Index {
    pub(crate) alloc: Global,
    pub(crate) tables: Tables,
    pub(crate) cache: Cache,
    pub(crate) lists: Lists,
    pub(crate) pending: VecDeque<Pending>,
}

/// What a commit does to the index. Its room is made.
#[derive(Drop)]
pub struct CommitPlan {
    documents: Vec<DocWords>,
    pending: Pending,
}

/// The words of new rows, in their order.
fn documents_of(
    alloc: Global,
    settings: &Settings,
    births: &[Row],
) -> Result<Vec<DocWords>, AllocError>
    requires { (last : ℕ) × (largest : ℕ) × AreBirths last largest (map row_of births.now) }
    ensures { IfOk result (λ documents. HaveWordsOf (rules_of settings.now) (map row_of births.now)
        documents.items) }
{
    let mut documents = Vec::new(alloc);
    for birth in births {
        documents.push(document_words(alloc, settings, birth)?)?;
    }
    Ok(documents)
}

/// Adds documents to a cache that has room for them.
fn add_documents(cache: &mut Cache, documents: &[DocWords])
    requires ids { IdsAscendFrom cache.old.last documents.now }
    requires room { HasRoom cache.old documents.now }
    ensures { AddsDocuments cache.old documents.now cache.new }
{
    for document in documents {
        cache.add(document);
    }
}

/// Makes room for a commit with these documents and so many deaths.
fn make_room(index: &mut Index, documents: &[DocWords], deaths: usize) -> Result<(), AllocError>
    ensures same { HasSame index.old index.new }
    ensures documents { OnOk result (HasRoom index.new.cache documents.now) }
    ensures deaths { OnOk result (deaths ≤ room_of DeletedCache index.new.lists) }
    ensures queue { OnOk result (deque_len index.new.pending < deque_capacity index.new.pending) }
{
    index.pending.reserve(1)?;
    index.lists.reserve(DeleteList::DeletedCache, deaths)?;
    index.cache.reserve(documents)?;
    Ok(())
}

/// Makes room for a batch of these nodes, in whose commits so many died. It tells whether the nodes
/// of each word begin behind those of the tables.
pub(crate) fn make_batch_room(
    index: &mut Index,
    nodes: &[WordNodes],
    dead: usize,
) -> Result<bool, AllocError>
    ensures same { HasSame index.old index.new }
    ensures nodes { OnOk result (tables.HasRoomOf index.new.tables nodes.now) }
    ensures dead { OnOk result (dead ≤ room_of Deleted index.new.lists) }
    ensures told { IfOk result (λ behind. behind
        ≡ tables.begin_behind index.old.tables nodes.now) }
{
    index.lists.reserve(DeleteList::Deleted, dead)?;
    // No id above those that were flushed before is deleted by a batch.
    index.lists.mark_deleted(dead)?;
    index.tables.reserve(nodes)
}

/// Adds what a commit does to each part of an index.
fn add_commit(index: &mut Index, plan: CommitPlan)
    requires { FitsIndex index.old plan }
    ensures { IsCommitted index.old plan index.new }
{
    let CommitPlan { documents, pending } = plan;
    add_documents(&mut index.cache, &documents);
    index
        .lists
        .add_all(DeleteList::DeletedCache, &pending.deaths);
    index.pending.push_back(pending).unwrap();
}

/// Makes a batch in each part of an index.
fn flush(index: &mut Index, plan: SyncPlan)
    requires { FitsSync index.old plan }
    ensures { IsFlushed index.old plan index.new }
{
    let SyncPlan {
        count,
        through,
        synced,
        nodes,
        dead,
    } = plan;
    index.tables.install_batch(&nodes);
    index.cache.drop_until(synced);
    move_dead(&mut index.lists, &dead);
    pop_covered(&mut index.pending, count);
    index.lists.set_flushed(through, synced);
}

impl Index {
    ghost use Rattle.fts_words.specs.Indexed.{Rules};
    ghost use Rattle.fts_commits.specs.Commit.{Rows};
    ghost use Rattle.fts_commits.specs.Turn.{Turn, births_of};
    ghost use Rattle.fts_entries.specs.Entry.{IndexState, no_entries, unflushed};
    ghost use Rattle.fts_entries.specs.Batch.{IsBatch, after_batch};
    ghost use Rattle.fts_entries.specs.Exact.{FitsTurns};
    ghost use Rattle.fts_entries.specs.Words.{rows_size};
    ghost use Rattle.fts_listing.specs.Listing.{IsListed};
    ghost use Rattle.fts_query.specs.Seen.{leaves_seen};
    ghost use Rattle.fts_index.specs.Births.{turn_of};
    ghost use Rattle.fts_index.specs.Gathered.{IsGathered};
    ghost use Rattle.fts_index.specs.Stands.{StandsFor, Indexes, AreCommits};
    ghost use Rattle.fts_index.specs.Index.{CanTurn, CanAdd};
    ghost use Rattle.fts_index.specs.Index.{WillTurn, PlansBatch};

    /// An index of no commits. What it holds later lies in this allocator.
    pub fn new(alloc: Global) -> Self
        ensures { (rules : Rules) → StandsFor rules [] no_entries result }
    {
        Index {
            alloc,
            tables: Tables::new(alloc),
            cache: Cache::new(alloc),
            lists: Lists::new(alloc),
            pending: VecDeque::new(alloc),
        }
    }

    /// What a commit does to the index, with the room for it: the rows that are born in it, the ids
    /// that die, ascending, and the largest id that is used after it. It costs the rows' own words
    /// and the deaths. Where there is no memory, the index has what it had.
    #[tactic(auto, unfolding(crate::specs::Stands::StandsFor))]
    pub fn plan_commit(
        &mut self,
        settings: &Settings,
        births: &[Row],
        deaths: &[DocId],
        largest: DocId,
    ) -> Result<CommitPlan, AllocError>
        requires births { CanAdd self.old (turn_of (map row_of births.now) deaths.now largest) }
        requires ascending { Ascend deaths.now }
        ensures planned { IfOk result (λ plan. WillTurn (rules_of settings.now)
            (turn_of (map row_of births.now) deaths.now largest) self.new plan) }
        ensures stays { (rules : Rules) (turns : List Turn) (s : IndexState)
            → StandsFor rules turns s self.old → StandsFor rules turns s self.new }
    {
        let documents = documents_of(self.alloc, settings, births)?;
        let deaths = deaths.to_vec(self.alloc)?;
        make_room(self, &documents, deaths.len())?;
        let pending = Pending {
            births: births.len(),
            deaths,
            largest,
        };
        Ok(CommitPlan { documents, pending })
    }

    /// Does what was planned. It takes no memory, and for each word, occurrence and death constant
    /// time.
    pub fn install_commit(&mut self, plan: CommitPlan)
        requires { FitsIndex self.old plan }
        ensures { (rules : Rules) (turns : List Turn) (s : IndexState) (turn : Turn)
            → StandsFor rules turns s self.old → WillTurn rules turn self.old plan
            → CanTurn turns turn → StandsFor rules (turns ++ turn ∷ []) s self.new }
    {
        add_commit(self, plan);
    }

    /// The next batch, which flushes the first commits that are not flushed: as many as have at
    /// most `batch_docs` documents together, and at least one. It is None where all are flushed.
    ///
    /// It costs the documents of these commits and their words, and the ids that died in them.
    /// Where there is no memory, the index has what it had.
    #[tactic(auto, unfolding(crate::specs::Stands::StandsFor))]
    pub fn plan_sync(&mut self, batch_docs: u32) -> Result<Option<SyncPlan>, AllocError>
        ensures planned { IfOk result (λ plan. (rules : Rules) (turns : List Turn) (s : IndexState)
            → StandsFor rules turns s self.old → AreCommits turns → FitsTurns turns s
            → PlansBatch rules batch_docs turns s self.new plan) }
        ensures stays { (rules : Rules) (turns : List Turn) (s : IndexState)
            → StandsFor rules turns s self.old → StandsFor rules turns s self.new }
    {
        if self.pending.is_empty() {
            return Ok(None);
        }
        let count = covers(batch_docs, &self.pending);
        let synced = self.pending[count - 1].largest;
        let through = through_of(self.lists.flushed(), count)?;
        let dead = covered_deaths(self.alloc, &self.pending, count)?;
        let nodes = batch(self.alloc, &self.cache, synced, &self.lists)?;
        make_batch_room(self, &nodes, dead.len())?;
        Ok(Some(SyncPlan {
            count,
            through,
            synced,
            nodes,
            dead,
        }))
    }

    /// Makes the batch. It takes no memory. It costs the words of the batch, the documents that
    /// leave the cache with their words, and what of DELETED stands above the least id that enters.
    pub fn install_sync(&mut self, plan: SyncPlan)
        requires { FitsSync self.old plan }
        ensures { (rules : Rules) (limit : ℕ) (turns : List Turn) (s : IndexState)
            → StandsFor rules turns s self.old → AreCommits turns → FitsTurns turns s
            → IsBatch rules limit turns s plan.through plan.synced plan.nodes.items
            → StandsFor rules turns (after_batch rules limit turns s) self.new }
    {
        flush(self, plan);
    }

    /// What the index tells of these leaves. It costs the documents of their words; for a prefix,
    /// those of each word that begins so. Where documents died, their ids are tested too.
    pub fn gather(&self, leaves: &[Leaf]) -> Result<Gathered, AllocError>
        ensures { IfOk result (λ gathered. (rules : Rules) (rows : Rows) (turns : List Turn)
            (s : IndexState) → Indexes rules rows turns s self.now
            → IsGathered rules rows.list (leaves_seen leaves.now) gathered) }
    {
        let lists = told(self, leaves)?;
        let looked_into = needed(self.alloc, leaves, &lists)?;
        Ok(Gathered { lists, looked_into })
    }

    /// What a view of the index lists. It costs what it gives; of words, a look-up for each.
    #[tactic(auto, unfolding(crate::specs::Stands::StandsFor))]
    pub fn listing(&self, settings: &Settings, kind: ListingKind) -> Result<Listing, AllocError>
        ensures { IfOk result (λ listing. (turns : List Turn) (s : IndexState)
            → StandsFor (rules_of settings.now) turns s self.now
            → IsListed settings.now turns s kind listing) }
    {
        listed(self, settings, kind)
    }

    /// How many commits are flushed, from the first on.
    #[tactic(auto, unfolding(crate::specs::Stands::StandsFor))]
    pub fn flushed(&self) -> u64
        ensures { (rules : Rules) (turns : List Turn) (s : IndexState)
            → StandsFor rules turns s self.now → result ≡ s.flushed }
    {
        self.lists.flushed()
    }

    /// The size of the cache in the bytes that `cache_bytes` counts. Constant time.
    pub fn cache_size(&self) -> u64
        ensures { (rules : Rules) (turns : List Turn) (s : IndexState)
            → StandsFor rules turns s self.now
            → result ≡ rows_size rules (births_of (unflushed turns s)) }
    {
        self.cache.size()
    }
}
