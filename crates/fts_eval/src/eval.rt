ghost use Rattle.std.specs.Prelude.{◌≡◌, ◌<◌, ◌&&◌, not, ℕ, true, map, length, IfOk};
ghost use Rattle.std.specs.Prelude.{slice_index_or};
ghost use Rattle.fts_ids.specs.Ids.{has, Ascend};
ghost use Rattle.fts_query.specs.Seen.{candidate_seen};
ghost use Rattle.fts_eval.specs.Found.{ids_of};
ghost use Rattle.fts_eval.specs.declared.part.Part.{Part as AnyPart};
ghost use Rattle.fts_eval.specs.Says.{docs_of, says, each_says, some_says};

use crate::found::{Found, any_listed, any_of, into_list};
use crate::part::{Part, fewest};
use crate::tried::{with_distance, with_phrase};
use fts_ids::{IdList, both, first_alone};
use fts_query::Candidate;
use std::alloc::{AllocError, Global};

/// The ids for which a part asks.
#[cycle(finding)]
pub(crate) fn found<'a>(
    alloc: Global,
    texts: &[Candidate],
    part: &Part<'a>,
) -> Result<Found<'a>, AllocError>
    requires { Ascend (docs_of texts.now) }
    ensures { IfOk result (λ found. (id : ℕ)
        → has (ids_of found) id ≡ says (map candidate_seen texts.now) id part.now) }
{
    match part {
        Part::Ids(ids) => Ok(Found::Lent(ids)),
        Part::Phrase(ids, words) => Ok(Found::Own(with_phrase(alloc, texts, ids, words)?)),
        Part::Distance(ids, words, reach) => {
            Ok(Found::Own(with_distance(alloc, texts, ids, words, *reach)?))
        }
        Part::Group(required, optional, excluded) => {
            let required = required.as_slice();
            if required.is_empty() {
                let ids = any_found(alloc, texts, optional.as_slice())?;
                return left(alloc, texts, ids, excluded.as_slice());
            }
            let ids = each_found(alloc, texts, required)?;
            left(alloc, texts, ids, excluded.as_slice())
        }
    }
}

/// The ids for which each of some parts asks: those of the part with the fewest, and of these what
/// the others keep.
#[cycle(finding)]
fn each_found<'a>(
    alloc: Global,
    texts: &[Candidate],
    parts: &[Part<'a>],
) -> Result<Found<'a>, AllocError>
    requires ascend { Ascend (docs_of texts.now) }
    requires some { 0 < length parts.now }
    ensures { IfOk result (λ found. (id : ℕ)
        → has (ids_of found) id ≡ each_says (map candidate_seen texts.now) parts.now id) }
{
    let place = fewest(parts);
    let first = found(alloc, texts, &parts[place])?;
    others_kept(alloc, texts, first, parts, place)
}

/// The ids for which some part asks.
#[cycle(finding)]
fn any_found<'a>(
    alloc: Global,
    texts: &[Candidate],
    parts: &[Part<'a>],
) -> Result<Found<'a>, AllocError>
    requires { Ascend (docs_of texts.now) }
    ensures { IfOk result (λ found. (id : ℕ)
        → has (ids_of found) id ≡ some_says (map candidate_seen texts.now) parts.now id) }
{
    let mut lists = Vec::new(alloc);
    for part in parts {
        lists.push(found(alloc, texts, part)?)?;
    }
    any_of(alloc, lists)
}

/// Of some ids those for which each part asks. The part at one place is passed over: the ids are
/// among those for which it asks.
fn others_kept<'a>(
    alloc: Global,
    texts: &[Candidate],
    ids: Found<'a>,
    parts: &[Part<'_>],
    passed: usize,
) -> Result<Found<'a>, AllocError>
    requires ascend { Ascend (docs_of texts.now) }
    requires passed { (id : ℕ) (d : AnyPart) → passed < length parts.now
        → has (ids_of ids) id ≡ true
        → says (map candidate_seen texts.now) id (slice_index_or parts.now passed d) ≡ true }
    ensures { IfOk result (λ found. (id : ℕ) → has (ids_of found) id ≡ (has (ids_of ids.entry) id
        && each_says (map candidate_seen texts.now) parts.now id)) }
{
    let mut left = ids;
    for (place, part) in parts.iter().enumerate() {
        if place != passed {
            left = Found::Own(kept(alloc, texts, left.as_list(), part)?);
        }
    }
    Ok(left)
}

/// Of some ids those for which each part asks.
#[cycle(keeping)]
fn each_kept<'a>(
    alloc: Global,
    texts: &[Candidate],
    ids: Found<'a>,
    parts: &[Part<'_>],
) -> Result<Found<'a>, AllocError>
    requires { Ascend (docs_of texts.now) }
    ensures { IfOk result (λ found. (id : ℕ) → has (ids_of found) id ≡ (has (ids_of ids.entry) id
        && each_says (map candidate_seen texts.now) parts.now id)) }
{
    let mut left = ids;
    for part in parts {
        left = Found::Own(kept(alloc, texts, left.as_list(), part)?);
    }
    Ok(left)
}

/// Of some ids those for which some part asks.
#[cycle(keeping)]
fn any_kept(
    alloc: Global,
    texts: &[Candidate],
    ids: &IdList,
    parts: &[Part<'_>],
) -> Result<IdList, AllocError>
    requires { Ascend (docs_of texts.now) }
    ensures { IfOk result (λ found. (id : ℕ) → has found id ≡ (has ids.now id
        && some_says (map candidate_seen texts.now) parts.now id)) }
{
    let mut lists = Vec::new(alloc);
    for part in parts {
        lists.push(Found::Own(kept(alloc, texts, ids, part)?))?;
    }
    any_listed(alloc, lists.as_slice())
}

/// Of some ids those for which a part asks.
#[cycle(keeping)]
fn kept(
    alloc: Global,
    texts: &[Candidate],
    ids: &IdList,
    part: &Part<'_>,
) -> Result<IdList, AllocError>
    requires { Ascend (docs_of texts.now) }
    ensures { IfOk result (λ found. (id : ℕ) → has found id
        ≡ (has ids.now id && says (map candidate_seen texts.now) id part.now)) }
{
    match part {
        Part::Ids(others) => both(alloc, ids, others),
        Part::Phrase(others, words) => {
            let ids = both(alloc, ids, others)?;
            with_phrase(alloc, texts, &ids, words)
        }
        Part::Distance(others, words, reach) => {
            let ids = both(alloc, ids, others)?;
            with_distance(alloc, texts, &ids, words, *reach)
        }
        Part::Group(required, optional, excluded) => {
            let required = required.as_slice();
            if required.is_empty() {
                let ids = Found::Own(any_kept(alloc, texts, ids, optional.as_slice())?);
                return into_list(alloc, left(alloc, texts, ids, excluded.as_slice())?);
            }
            let ids = each_kept(alloc, texts, Found::Lent(ids), required)?;
            into_list(alloc, left(alloc, texts, ids, excluded.as_slice())?)
        }
    }
}

/// The ids for which no part asks.
#[cycle(keeping)]
fn left<'a>(
    alloc: Global,
    texts: &[Candidate],
    ids: Found<'a>,
    parts: &[Part<'_>],
) -> Result<Found<'a>, AllocError>
    requires { Ascend (docs_of texts.now) }
    ensures { IfOk result (λ found. (id : ℕ) → has (ids_of found) id ≡ (has (ids_of ids.entry) id
        && not (some_says (map candidate_seen texts.now) parts.now id))) }
{
    let mut left = ids;
    for part in parts {
        left = Found::Own(left_by(alloc, texts, left.as_list(), part)?);
    }
    Ok(left)
}

/// The ids for which a part does not ask.
#[cycle(keeping)]
fn left_by(
    alloc: Global,
    texts: &[Candidate],
    ids: &IdList,
    part: &Part<'_>,
) -> Result<IdList, AllocError>
    requires { Ascend (docs_of texts.now) }
    ensures { IfOk result (λ found. (id : ℕ) → has found id
        ≡ (has ids.now id && not (says (map candidate_seen texts.now) id part.now))) }
{
    if let Part::Ids(taken) = part {
        return first_alone(alloc, ids, taken);
    }
    let taken = kept(alloc, texts, ids, part)?;
    first_alone(alloc, ids, &taken)
}
