ghost use Rattle.std.specs.Prelude.{◌≡◌, [], ◌∷◌, ◌++◌, map, All, IfOk, OnOk};
ghost use Rattle.fts_types.specs.Row.{IsRow, row_of};
ghost use Rattle.fts_types.specs.Rules.{rules_of};
ghost use Rattle.fts_query.specs.View.{tree_of};
ghost use Rattle.fts_meaning.specs.Scan.{scan};

use crate::terms::list_holds;
use fts_query::Query;
use fts_types::{DocId, DocIds, Row, Settings};
use std::alloc::{AllocError, Global};

/// Adds a row's id to those that were found, if the query holds in it.
#[tactic(auto, using(crate::proofs::Scanning::found_one, crate::proofs::Scanning::found_none))]
fn look_at(
    alloc: Global,
    settings: &Settings,
    row: &Row,
    query: &Query,
    ids: &mut Vec<DocId>,
) -> Result<(), AllocError>
    requires { IsRow (row_of row.now).texts }
    ensures { OnOk result (ids.new.items
        ≡ ids.old.items ++ scan (rules_of settings.now) (row_of row.now ∷ [])
        (tree_of query.now)) }
{
    if !list_holds(alloc, settings, &row.texts, query.terms.as_slice())? {
        return Ok(());
    }
    ids.push(row.doc)?;
    Ok(())
}

/// The document ids of the rows of a table in which a query holds under the settings, in the order
/// of the rows.
///
/// The texts of each row are 1 to 8, of at most 65,535 bytes together. The only refusal is for want
/// of memory.
///
/// Source: MySQL 8.0 Reference Manual, "Boolean Full-Text Searches".
pub fn scan(
    alloc: Global,
    settings: &Settings,
    rows: &[Row],
    query: &Query,
) -> Result<DocIds, AllocError>
    requires { All (λ row. IsRow (row_of row).texts) rows.now }
    ensures { IfOk result (λ docs. docs
        ≡ scan (rules_of settings.now) (map row_of rows.now) (tree_of query.now)) }
{
    let mut ids = Vec::new(alloc);
    for row in rows {
        look_at(alloc, settings, row, query, &mut ids)?;
    }
    Ok(DocIds::new(ids))
}
