//! What steps keep of an index.
ghost use Rattle.std.specs.Prelude.{◌≡◌, ◌<◌, ◌≤◌, ℕ, List, [], ◌∷◌, ◌++◌, length, take, fold};
ghost use Rattle.fts_ilist.specs.Node.{NodesAfter, last_of, nodes_for};
ghost use Rattle.fts_words.specs.Indexed.{Rules};
ghost use Rattle.fts_types.specs.Row.{Row};
ghost use Rattle.fts_commits.specs.Commit.{Rows, no_rows};
ghost use Rattle.fts_commits.specs.Turn.{Turn, AreTurns, deaths_of, has_doc, rows_by};
ghost use Rattle.fts_entries.specs.Entry.{Batch, IndexEntry, IndexState, sealed, after_entry};
ghost use Rattle.fts_entries.specs.Entry.{begun, worked, finished};
ghost use Rattle.fts_entries.specs.Pass.{IsWord, CanFinish, IsStep, IsIdle, next_steps};
ghost use Rattle.fts_entries.specs.Coming.{CanSeal, AreEntries};
ghost use Rattle.fts_ids.specs.Ids.{has};
ghost use Rattle.fts_ilist.specs.Node.{Docs};
ghost use Rattle.fts_ilist.specs.Packing.{joined};
ghost use Rattle.std.specs.List.{All, Contains};
ghost use Rattle.std.specs.Prelude.{true, false};
ghost use Rattle.fts_entries.specs.Entry.{no_entries, index_of, unflushed_through, AreThrough};
ghost use Rattle.fts_entries.specs.Batch.{IsBatch, after_batch, next_through, next_entry};
ghost use Rattle.fts_entries.specs.Batch.{largest_after, packed_words, alive_of};
ghost use Rattle.fts_entries.specs.Exact.{FitsTurns, IsExact, is_deleted, all_postings};

/// A batch keeps an index right. It does nothing: its contract is the theorem.
pub fn batches_keep()
    ensures exact { (rules : Rules) (limit : ℕ) (turns : List Turn) (s : IndexState)
        (through synced : ℕ) (batch : Batch)
        → IsBatch rules limit turns s through synced batch → (rows : List Row)
        → AreTurns 0 turns → FitsTurns turns s → IsExact rules rows turns s
        → IsExact rules rows turns (after_entry turns s (sealed through synced batch)) }
    ensures fits { (rules : Rules) (limit : ℕ) (turns : List Turn) (s : IndexState)
        (through synced : ℕ) (batch : Batch)
        → IsBatch rules limit turns s through synced batch → 0 < rules.min → AreTurns 0 turns
        → FitsTurns turns s → FitsTurns turns (after_entry turns s (sealed through synced batch)) }
    ensures behind { (rules : Rules) (limit : ℕ) (turns : List Turn) (s : IndexState)
        (through synced : ℕ) (batch : Batch)
        → IsBatch rules limit turns s through synced batch → AreTurns 0 turns → FitsTurns turns s
        → (word : List ℕ) → NodesAfter (last_of 0 (s.nodes word)) (nodes_for word batch) }
    ensures state { (rules : Rules) (limit : ℕ) (turns : List Turn) (s : IndexState)
        (through synced : ℕ) (batch : Batch)
        → IsBatch rules limit turns s through synced batch
        → after_entry turns s (sealed through synced batch) ≡ after_batch rules limit turns s }
{}

/// A commit keeps an index right, whose entries leave the same state as before it. It does nothing:
/// its contract is the theorem.
pub fn commits_keep()
    ensures exact { (rules : Rules) (rows : Rows) (turns : List Turn) (turn : Turn)
        (s : IndexState) → AreTurns 0 (turns ++ turn ∷ []) → FitsTurns turns s
        → IsExact rules rows.list turns s
        → IsExact rules (rows_by rows turn).list (turns ++ turn ∷ []) s }
    ensures fits { (turns : List Turn) (turn : Turn) (s : IndexState) → FitsTurns turns s
        → FitsTurns (turns ++ turn ∷ []) s }
    ensures same { (turns more : List Turn) (entries : List IndexEntry)
        → AreThrough (length turns) entries
        → index_of (turns ++ more) entries ≡ index_of turns entries }
{}

/// An index without entries is right, whatever its commits: they are all in its cache. It does
/// nothing: its contract is the theorem.
pub fn no_entries_are_right()
    ensures exact { (rules : Rules) (turns : List Turn) → AreTurns 0 turns
        → IsExact rules (fold rows_by no_rows turns).list turns no_entries }
    ensures fits { (turns : List Turn) → FitsTurns turns no_entries }
{}

/// The steps of a pass keep an index right, and behind its last word no word has a document of it.
/// It does nothing: its contract is the theorem.
pub fn passes_keep()
    ensures begin_exact { (rules : Rules) (rows : List Row) (turns : List Turn) (s : IndexState)
        → IsExact rules rows turns s → IsExact rules rows turns (after_entry turns s begun) }
    ensures begin_fits { (turns : List Turn) (s : IndexState) → FitsTurns turns s
        → FitsTurns turns (after_entry turns s begun) }
    ensures word_exact { (turns : List Turn) (s : IndexState) (word : List ℕ) (new : List Docs)
        → FitsTurns turns s → IsWord s word new → (rules : Rules) (rows : List Row)
        → IsExact rules rows turns s
        → IsExact rules rows turns (after_entry turns s (worked word new)) }
    ensures word_fits { (turns : List Turn) (s : IndexState) (word : List ℕ) (new : List Docs)
        → FitsTurns turns s → IsWord s word new
        → FitsTurns turns (after_entry turns s (worked word new)) }
    ensures finish_exact { (turns : List Turn) (s : IndexState) → FitsTurns turns s
        → CanFinish s → (rules : Rules) (rows : List Row) → AreTurns 0 turns
        → IsExact rules rows turns s → IsExact rules rows turns (after_entry turns s finished) }
    ensures finish_fits { (turns : List Turn) (s : IndexState) → FitsTurns turns s
        → CanFinish s → FitsTurns turns (after_entry turns s finished) }
    ensures gone { (turns : List Turn) (s : IndexState) → FitsTurns turns s → CanFinish s
        → (word : List ℕ) → All (λ p. has s.being_deleted p.id ≡ false) (joined (s.nodes word)) }
{}

/// Where some commit is not flushed there is a next batch, and it is one. It does nothing: its
/// contract is the theorem.
pub fn one_batch_is_next()
    ensures is { (rules : Rules) (limit : ℕ) (turns : List Turn) (s : IndexState)
        → s.flushed < length turns → IsBatch rules limit turns s (next_through limit turns s)
        (largest_after 0 (take (next_through limit turns s) turns)) (packed_words rules
        (alive_of turns (unflushed_through (next_through limit turns s) turns s))) }
    ensures one { (rules : Rules) (limit : ℕ) (turns : List Turn) (s : IndexState)
        (through synced : ℕ) (batch : Batch) → IsBatch rules limit turns s through synced batch
        → sealed through synced batch ≡ next_entry rules limit turns s }
{}

/// The next step of OPTIMIZE is one entry alone, and none where there is nothing to do. It does
/// nothing: its contract is the theorem.
pub fn one_step_is_next()
    ensures one { (turns : List Turn) (entries : List IndexEntry) (entry : IndexEntry)
        → IsStep (index_of turns entries) entry
        → next_steps entries (index_of turns entries) ≡ entry ∷ [] }
    ensures none { (turns : List Turn) (entries : List IndexEntry)
        → IsIdle (index_of turns entries) → next_steps entries (index_of turns entries) ≡ [] }
{}

/// The next batch can come as an entry; entries that could come can over more commits too; and
/// the state that they leave fits the commits. It does nothing: its contract is the theorem.
pub fn entries_can_come()
    ensures batch { (rules : Rules) (limit : ℕ) (turns : List Turn) (s : IndexState)
        (through synced : ℕ) (batch : Batch) → IsBatch rules limit turns s through synced batch
        → 0 < rules.min → AreTurns 0 turns → FitsTurns turns s
        → CanSeal turns s through synced batch }
    ensures more { (turns more : List Turn) (entries : List IndexEntry)
        → AreEntries turns entries → AreEntries (turns ++ more) entries }
    ensures less { (turns more : List Turn) (s : IndexState) (through synced : ℕ)
        (batch : Batch) → through ≤ length turns
        → CanSeal (turns ++ more) s through synced batch → CanSeal turns s through synced batch }
    ensures through { (turns : List Turn) (entries : List IndexEntry)
        → AreEntries turns entries → AreThrough (length turns) entries }
    ensures fits { (turns : List Turn) (entries : List IndexEntry) → AreTurns 0 turns
        → AreEntries turns entries → FitsTurns turns (index_of turns entries) }
{}

/// What stands in DELETED, or in BEING_DELETED, died in some commit, and what died is no row. Of an
/// index that is right, a document that tables or cache have and that is no row is in DELETED, or
/// died in a commit that is not flushed. It does nothing: its contract is the theorem.
pub fn deleted_are_dead()
    ensures died { (turns : List Turn) (entries : List IndexEntry) (id : ℕ)
        → has (index_of turns entries).deleted id ≡ true → has (deaths_of turns) id ≡ true }
    ensures being { (turns : List Turn) (entries : List IndexEntry) (id : ℕ)
        → has (index_of turns entries).being_deleted id ≡ true → has (deaths_of turns) id ≡ true }
    ensures gone { (turns : List Turn) → AreTurns 0 turns → (id : ℕ)
        → has (deaths_of turns) id ≡ true
        → has_doc id (fold rows_by no_rows turns).list ≡ false }
    ensures deleted { (rules : Rules) (rows : List Row) (turns : List Turn) (s : IndexState)
        → IsExact rules rows turns s → (word : List ℕ)
        → All (λ p. has_doc p.id rows ≡ false → is_deleted turns s p.id ≡ true)
        (all_postings rules turns s word) }
{}

/// Each row of a batch is a row of the table. It does nothing: its contract is the theorem.
pub fn alive_are_rows()
    ensures { (turns : List Turn) (s : IndexState) (through : ℕ)
        → All (Contains (fold rows_by no_rows turns).list)
        (alive_of turns (unflushed_through through turns s)) }
{}
