//! What a view is made of: the rows whose texts a search looks into, and each leaf with its rows.
ghost use Rattle.std.specs.Prelude.{◌≡◌, IfOk, IfErr, map};
ghost use Rattle.fts_rows.specs.Rows.{rows_of};
ghost use Rattle.fts_query.specs.Seen.{candidate_seen, leaves_seen, postings_seen};
ghost use Rattle.fts_engine.specs.Looking.{rows_at, with_ids};

use fts_ids::IdList;
use fts_query::{Candidate, Leaf, Postings};
use fts_rows::Rows;
use fts_types::DocId;
use std::alloc::{AllocError, Global};

/// The rows with these ids, which share their texts.
pub(crate) fn candidates(
    alloc: Global,
    rows: &Rows,
    docs: &[DocId],
) -> Result<Vec<Candidate>, AllocError>
    ensures { IfOk result (λ all. map candidate_seen all.items
        ≡ rows_at (rows_of rows.now).list docs.now) }
{
    let mut all = Vec::new(alloc);
    for doc in docs {
        match rows.text_of(*doc) {
            Some(texts) => all.push(Candidate {
                doc: *doc,
                texts: texts.clone()?,
            })?,
            None => {}
        }
    }
    Ok(all)
}

/// Each leaf with the ids of the rows that it asks for. Where there is no memory, the leaves come
/// back.
pub(crate) fn paired(
    alloc: Global,
    leaves: Vec<Leaf>,
    lists: Vec<IdList>,
) -> Result<Vec<Postings>, Vec<Leaf>>
    ensures paired { IfOk result (λ all. map postings_seen all.items
        ≡ with_ids (leaves_seen leaves.items) lists.items) }
    ensures back { IfErr result (λ back. back ≡ leaves) }
{
    let mut all = match Vec::with_capacity(alloc, leaves.len()) {
        Ok(all) => all,
        Err(AllocError) => return Err(leaves),
    };
    for (leaf, ids) in leaves.into_iter().zip(lists.into_iter()) {
        all.push(Postings { leaf, ids }).unwrap();
    }
    Ok(all)
}
