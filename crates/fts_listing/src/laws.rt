//! What a view lists is one listing, and what the tables list was born.
ghost use Rattle.std.specs.Prelude.{◌≡◌, ℕ, List, take};
ghost use Rattle.std.specs.List.{All, Contains};
ghost use Rattle.fts_types.specs.declared.settings.Settings.{Settings};
ghost use Rattle.fts_types.specs.Rules.{rules_of};
ghost use Rattle.fts_types.specs.Row.{Row};
ghost use Rattle.fts_commits.specs.Turn.{Turn, births_of};
ghost use Rattle.fts_ilist.specs.Node.{Docs};
ghost use Rattle.fts_ilist.specs.Packing.{joined};
ghost use Rattle.fts_aux.specs.Words.{nodes_at};
ghost use Rattle.fts_entries.specs.Entry.{IndexState};
ghost use Rattle.fts_entries.specs.Exact.{IsExact};
ghost use Rattle.fts_entries.specs.Words.{rows_postings};
ghost use Rattle.fts_listing.specs.declared.kind.ListingKind.{ListingKind};
ghost use Rattle.fts_listing.specs.declared.kind.ListingKind.TheVariants.{IndexTable};
ghost use Rattle.fts_listing.specs.declared.listing.Listing.{Listing};
ghost use Rattle.fts_listing.specs.declared.listing.Listing.TheVariants.{Words};
ghost use Rattle.fts_listing.specs.Listing.{IsListed};

/// What a view lists is one listing alone. It does nothing: its contract is the theorem.
pub fn a_view_lists_one_thing()
    ensures { (settings : Settings) (turns : List Turn) (s : IndexState) (kind : ListingKind)
        (a b : Listing) → IsListed settings turns s kind a → IsListed settings turns s kind b
        → a ≡ b }
{}

/// Where the index is right, each document that `INNODB_FT_INDEX_TABLE` lists with a word, a dead
/// one too, was born in a flushed commit, with just these positions of the word. It does nothing:
/// its contract is the theorem.
pub fn tables_list_what_was_born()
    ensures { (settings : Settings) (rows : List Row) (turns : List Turn) (s : IndexState)
        (words : List (List ℕ × List Docs)) → IsExact (rules_of settings) rows turns s
        → IsListed settings turns s IndexTable (Words words) → (word : List ℕ)
        → All (Contains (rows_postings (rules_of settings) word
        (births_of (take s.flushed turns)))) (joined (nodes_at word words)) }
{}
