//! What the index log can hold.
ghost use Rattle.std.specs.Prelude.{◌≡◌, ◌≢◌, ℕ, ◌<◌, ◌^◌, List, [], All, fold};
ghost use Rattle.std.specs.List.Sorted.{IsStrictlySortedBy};
ghost use Rattle.std.specs.Map.{keys_of};
ghost use Rattle.fts_words.specs.Indexed.{Rules};
ghost use Rattle.fts_words.specs.Order.{byte_order};
ghost use Rattle.fts_types.specs.Row.{Row};
ghost use Rattle.fts_commits.specs.Commit.{no_rows};
ghost use Rattle.fts_commits.specs.Turn.{Turn, RowsAscend, AreTurns, rows_by};
ghost use Rattle.fts_ilist.specs.Node.{nodes_for};
ghost use Rattle.fts_ilist.specs.Packing.{packed};
ghost use Rattle.fts_entries.specs.Batch.{IsBatch};
ghost use Rattle.fts_entries.specs.Entry.{Batch, IndexState, sealed};
ghost use Rattle.fts_entries.specs.Rows.{CanIndex};
ghost use Rattle.fts_entries.specs.Words.{rows_postings};
ghost use Rattle.fts_ixcodec.specs.Grammar.{IsEntryFault};
ghost use Rattle.fts_ixcodec.specs.Payload.{FitsRecord, IsEntry};

/// The index log can hold a batch of the words of rows that can be indexed, where a record of the
/// log can have as many bytes; so it can the next batch of an index over commits that left such
/// rows. It does nothing: its contract is the theorem.
pub fn batches_are_entries()
    ensures rows { (rules : Rules) (rows : List Row) (low high : ℕ) (through synced : ℕ)
        (batch : Batch) → RowsAscend low high rows → All CanIndex rows
        → IsStrictlySortedBy byte_order (keys_of batch) → All (λ g. g.1 ≢ []) batch
        → ((word : List ℕ) → nodes_for word batch ≡ packed (rows_postings rules word rows))
        → through < 2 ^ 64 → synced < 2 ^ 64 → FitsRecord (sealed through synced batch)
        → IsEntry rules (sealed through synced batch) }
    ensures next { (rules : Rules) (limit : ℕ) (turns : List Turn) (s : IndexState)
        (through synced : ℕ) (batch : Batch)
        → IsBatch rules limit turns s through synced batch → AreTurns 0 turns
        → All CanIndex (fold rows_by no_rows turns).list
        → through < 2 ^ 64 → synced < 2 ^ 64 → FitsRecord (sealed through synced batch)
        → IsEntry rules (sealed through synced batch) }
{}

/// Bytes that are no payload are at fault at one place. It does nothing: its contract is the
/// theorem.
pub fn faults_have_one_place()
    ensures entries { (rules : Rules) (bytes : List ℕ) (a b : ℕ)
        → IsEntryFault rules bytes a → IsEntryFault rules bytes b → a ≡ b }
{}
