ghost use Rattle.std.specs.Prelude.{◌≡◌, ◌↔◌, ℕ, List, [], true, false};
ghost use Rattle.std.specs.List.{list_any};
ghost use Rattle.fts_words.specs.Indexed.{Rules};
ghost use Rattle.fts_types.specs.Row.{Row};
ghost use Rattle.fts_meaning.specs.Tree.{Terms, Operand};
ghost use Rattle.fts_meaning.specs.Token.{IsTreeOf};
ghost use Rattle.fts_meaning.specs.Fault.{IsFaultless};
ghost use Rattle.fts_meaning.specs.Holds.{operand_holds};
ghost use Rattle.fts_meaning.specs.Leaf.{Leaf, leaf_of};
ghost use Rattle.fts_meaning.specs.View.{is_candidate, needs_texts, view_of};

/// A query's text has a tree exactly where none of its bytes is at fault, and then one.
pub fn faultless_queries_have_one_tree(query: &[u8])
    ensures some { ((terms : Terms) × IsTreeOf query.now terms) ↔ IsFaultless query.now }
    ensures one { (v w : Terms) → IsTreeOf query.now v → IsTreeOf query.now w → v ≡ w }
{}

/// An operand holds only in rows that are candidates of its leaf: for a phrase or a distance, rows
/// that have each of its indexable words. So a search looks into no other texts, and a view that
/// no phrase or distance asked for has none.
pub fn candidates_are_enough()
    ensures candidates { (rules : Rules) (columns : List (List ℕ)) (operand : Operand)
        → operand_holds rules columns operand ≡ true
        → is_candidate rules columns (leaf_of rules operand) ≡ true }
    ensures texts { (rules : Rules) (rows : List Row) (number : ℕ) (asked : List Leaf)
        → list_any needs_texts asked ≡ false → (view_of rules rows number asked).texts ≡ [] }
{}
