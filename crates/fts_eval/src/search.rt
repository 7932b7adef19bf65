ghost use Rattle.std.specs.Prelude.{◌≡◌, ℕ, List, true, false, map, IfOk};
ghost use Rattle.fts_ids.specs.Ids.{has, Ascend};
ghost use Rattle.fts_words.specs.Indexed.{Rules};
ghost use Rattle.fts_types.specs.Row.{Row};
ghost use Rattle.fts_meaning.specs.Scan.{scan};
ghost use Rattle.fts_meaning.specs.View.{StandsFor};
ghost use Rattle.fts_query.specs.View.{tree_of};
ghost use Rattle.fts_query.specs.Seen.{candidate_seen, view_seen};
ghost use Rattle.fts_eval.specs.Means.{part_says};
ghost use Rattle.fts_eval.specs.Says.{docs_of};

use crate::eval::found;
use crate::found::into_list;
use crate::part::Part;
use crate::resolve::parts_of;
use fts_ids::IdList;
use fts_query::{Candidate, Query, View};
use fts_types::DocIds;
use std::alloc::{AllocError, Global};

/// Whether the rows' ids ascend.
fn ascend(rows: &[Candidate]) -> bool
    ensures yes { result ≡ true → Ascend (docs_of rows.now) }
    ensures no { result ≡ false → Ascend (docs_of rows.now) → ⊥ }
{
    for place in 1..rows.len() {
        if rows[place].doc <= rows[place - 1].doc {
            return false;
        }
    }
    true
}

/// The ids for which a part asks; none where there is none.
fn ids_for(alloc: Global, texts: &[Candidate], part: Option<Part<'_>>) -> Result<IdList, AllocError>
    requires { Ascend (docs_of texts.now) }
    ensures { IfOk result (λ ids. (id : ℕ)
        → has ids id ≡ part_says (map candidate_seen texts.now) part.entry id) }
{
    match part {
        None => Ok(IdList::new(Vec::new(alloc))),
        Some(part) => into_list(alloc, found(alloc, texts, &part)?),
    }
}

/// The ids that a query finds in a view: those of the rows in which it holds, ascending, wherever
/// the view stands for the rows. The only refusal is for want of memory.
///
/// Of a view that the index did not make for the query's leaves nothing is said but that there is
/// an answer.
///
/// Source: MySQL 8.0 Reference Manual, "Boolean Full-Text Searches".
pub fn answer(alloc: Global, view: &View, query: &Query) -> Result<DocIds, AllocError>
    ensures { IfOk result (λ docs. (rules : Rules) (rows : List Row)
        → Ascend (map (λ row. row.doc) rows)
        → StandsFor rules rows (tree_of query.now) (view_seen view.now)
        → docs ≡ scan rules rows (tree_of query.now)) }
{
    let texts = view.texts.as_slice();
    if !ascend(texts) {
        return Ok(DocIds::new(Vec::new(alloc)));
    }
    let (parts, _) = parts_of(alloc, query.terms.as_slice(), view.postings.as_slice())?;
    let ids = ids_for(alloc, texts, parts.into_group())?;
    Ok(DocIds::new(ids.into_vec()))
}
