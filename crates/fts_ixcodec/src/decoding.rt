//! The entries that payloads spell.
ghost use Rattle.std.specs.Prelude.{◌≡◌, IfOk, IfErr};
ghost use Rattle.fts_types.specs.Rules.{rules_of};
ghost use Rattle.fts_entries.specs.Entry.{IndexEntry};
ghost use Rattle.fts_ixcodec.specs.DecodeError.{IsCause, GivesEntry};
ghost use Rattle.fts_codec.specs.Fault.{Gives};
ghost use Rattle.fts_ixcodec.specs.Payload.{IsEntry, entry_payload};
ghost use Rattle.fts_ixcodec.specs.Reading.{sealed_at, worked_at, entry_at, entry_of};
ghost use Rattle.fts_ixcodec.specs.Seen.{seen};

use crate::building::{batch_at, lists_at};
use crate::entry::Entry;
use crate::error::DecodeError;
use crate::words::word_at;
use fts_codec::{Fault, u32_at, u64_at};
use fts_ilist::NodeList;
use fts_types::{Settings, Word};
use std::alloc::Global;

/// A batch, behind its kind.
#[tactic(auto, unfolding(crate::specs::Reading::sealed_at))]
fn sealed_at<'a>(
    alloc: Global,
    settings: &Settings,
    bytes: &'a [u8],
) -> Result<(Entry<'a>, &'a [u8]), Fault>
    ensures { Gives (λ x. (seen x.0, x.1.now)) result
        (sealed_at (rules_of settings.now) bytes.now) }
{
    let Some((through, synced_on)) = u64_at(bytes) else {
        return Err(Fault::at(bytes));
    };
    let Some((synced, count_on)) = u64_at(synced_on) else {
        return Err(Fault::at(synced_on));
    };
    let Some((count, nodes_on)) = u32_at(count_on) else {
        return Err(Fault::at(count_on));
    };
    let (nodes, rest) = batch_at(alloc, settings, count, nodes_on)?;
    let entry = Entry::Sealed {
        through,
        synced,
        nodes,
    };
    Ok((entry, rest))
}

/// A word of a pass, behind its kind.
#[tactic(auto, unfolding(crate::specs::Reading::worked_at))]
fn worked_at<'a>(
    alloc: Global,
    settings: &Settings,
    bytes: &'a [u8],
) -> Result<(Entry<'a>, &'a [u8]), Fault>
    ensures { Gives (λ x. (seen x.0, x.1.now)) result
        (worked_at (rules_of settings.now) bytes.now) }
{
    let (word, count_on) = word_at(settings, &[], bytes)?;
    let Some((count, nodes_on)) = u32_at(count_on) else {
        return Err(Fault::at(count_on));
    };
    let (nodes, rest) = lists_at(alloc, settings, count, nodes_on)?;
    let nodes = NodeList::of(alloc, nodes.as_slice())?;
    let word = Word::copied(alloc, word)?;
    Ok((Entry::Worked { word, nodes }, rest))
}

/// An entry.
#[tactic(auto, unfolding(crate::specs::Reading::entry_at))]
fn entry_at<'a>(
    alloc: Global,
    settings: &Settings,
    bytes: &'a [u8],
) -> Result<(Entry<'a>, &'a [u8]), Fault>
    ensures { Gives (λ x. (seen x.0, x.1.now)) result
        (entry_at (rules_of settings.now) bytes.now) }
{
    match bytes {
        [] => Err(Fault::Bad { left: 0 }),
        [1, rest @ ..] => sealed_at(alloc, settings, rest),
        [2, rest @ ..] => Ok((Entry::Begun, rest)),
        [3, rest @ ..] => worked_at(alloc, settings, rest),
        [4, rest @ ..] => Ok((Entry::Finished, rest)),
        [_, ..] => Err(Fault::at(bytes)),
    }
}

/// The entry whose payload the bytes are, all of them.
#[tactic(auto, unfolding(crate::specs::Reading::entry_of))]
fn entry_in<'a>(alloc: Global, settings: &Settings, bytes: &'a [u8]) -> Result<Entry<'a>, Fault>
    ensures { Gives seen result (entry_of (rules_of settings.now) bytes.now) }
{
    let (entry, rest) = entry_at(alloc, settings, bytes)?;
    if !rest.is_empty() {
        return Err(Fault::at(rest));
    }
    Ok(entry)
}

/// The entry in its payload, of a database with these settings. The nodes of a batch borrow the
/// bytes.
///
/// # Errors
///
/// `Bad` exactly where the bytes are no payload of the index log, with the place at which the first
/// field begins that can't stand there: a kind that is none; a number that is cut; a word's length
/// that the settings don't index; a word that is cut, has no word's form or stands before the one
/// before it; a list that is cut, is empty or none, begins with an id that is not above its word's
/// last one, or has more documents than one in more than 8,192 bytes; what stands behind the last
/// field.
/// `NoMemory` where there is none for the entry.
pub fn decode<'a>(
    alloc: Global,
    settings: &Settings,
    bytes: &'a [u8],
) -> Result<Entry<'a>, DecodeError>
    // What is read is spelled so.
    ensures entry { IfOk result (λ entry. IsEntry (rules_of settings.now) (seen entry)
        × (bytes.now ≡ entry_payload (seen entry))) }
    // What is spelled so is read.
    ensures exact { (entry : IndexEntry) → IsEntry (rules_of settings.now) entry
        → bytes.now ≡ entry_payload entry → GivesEntry entry result }
    // A refusal has its place.
    ensures cause { IfErr result (IsCause (rules_of settings.now) bytes.now) }
{
    match entry_in(alloc, settings, bytes) {
        Ok(entry) => Ok(entry),
        Err(Fault::NoMemory) => Err(DecodeError::NoMemory),
        Err(Fault::Bad { left }) => {
            let at = bytes.len() - left;
            Err(DecodeError::Bad { at })
        }
    }
}
