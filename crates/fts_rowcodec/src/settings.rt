//! The settings that payloads spell.
ghost use Rattle.std.specs.Prelude.{◌≡◌, ◌⊎◌, IfOk, IfErr, Ok, Err, [], map};
ghost use Rattle.std.specs.Int.{w16, w32, is_in_range};
ghost use Rattle.fts_words.specs.Order.{is_among};
ghost use Rattle.fts_types.specs.Settings.{AreSettings};
ghost use Rattle.fts_types.specs.declared.settings.Settings.{Settings};
ghost use Rattle.fts_codec.specs.Reading.{Finds, first_at, number_at};
ghost use Rattle.fts_codec.specs.Fault.{Gives};
ghost use Rattle.fts_codec.specs.Fields.{tested};
ghost use Rattle.fts_rowcodec.specs.DecodeError.{IsSettingsCause};
ghost use Rattle.fts_rowcodec.specs.Grammar.{may_join};
ghost use Rattle.fts_rowcodec.specs.Payload.{settings_payload};
ghost use Rattle.fts_rowcodec.specs.Reading.{name_at, names_from, names_at, flag_of, flag_at};
ghost use Rattle.fts_rowcodec.specs.Reading.{with_numbers, settings_of};

use crate::error::DecodeError;
use fts_codec::{Fault, behind, bytes_at, u16_at, u32_at};
use fts_types::{Names, Settings, is_column_name};
use std::alloc::Global;

/// A number of one byte that is in a range.
fn u8_in(low: u8, high: u8, bytes: &[u8]) -> Option<(u8, &[u8])>
    ensures { Finds (λ x. (x.0, x.1.now)) result
        (tested (is_in_range low high) first_at bytes.now) }
{
    let (number, rest) = bytes.split_first()?;
    if *number < low {
        return None;
    }
    if *number > high {
        return None;
    }
    Some((*number, rest))
}

/// A number of two bytes that is in a range.
fn u16_in(low: u16, high: u16, bytes: &[u8]) -> Option<(u16, &[u8])>
    ensures { Finds (λ x. (x.0, x.1.now)) result
        (tested (is_in_range low high) (number_at w16) bytes.now) }
{
    let (number, rest) = u16_at(bytes)?;
    if number < low {
        return None;
    }
    if number > high {
        return None;
    }
    Some((number, rest))
}

/// A number of four bytes that is in a range.
fn u32_in(low: u32, high: u32, bytes: &[u8]) -> Option<(u32, &[u8])>
    ensures { Finds (λ x. (x.0, x.1.now)) result
        (tested (is_in_range low high) (number_at w32) bytes.now) }
{
    let (number, rest) = u32_at(bytes)?;
    if number < low {
        return None;
    }
    if number > high {
        return None;
    }
    Some((number, rest))
}

/// Whether the name is one of these.
fn is_listed(name: &[u8], names: &[Vec<u8>]) -> bool
    ensures { result ≡ is_among (map (λ v. v.items) names.now) name.now }
{
    match names {
        [] => false,
        [other, rest @ ..] => {
            if other.as_slice() == name {
                return true;
            }
            is_listed(name, rest)
        }
    }
}

/// Whether a column may have the name behind these.
fn may_join(names: &Names, name: &[u8]) -> bool
    ensures { result ≡ may_join names.now name.now }
{
    if !is_column_name(name) {
        return false;
    }
    !is_listed(name, names.as_slice())
}

/// The name of one more column, behind its length of one byte.
#[tactic(auto, unfolding(crate::specs::Reading::name_at))]
fn name_at<'a>(names: &Names, bytes: &'a [u8]) -> Result<(&'a [u8], &'a [u8]), Fault>
    ensures { Gives (λ x. (x.0.now, x.1.now)) result (name_at names.now bytes.now) }
{
    let Some((size, rest)) = u8_in(1, 32, bytes) else {
        return Err(Fault::at(bytes));
    };
    let Some((name, behind)) = bytes_at(rest, size as usize) else {
        return Err(Fault::at(rest));
    };
    if !may_join(names, name) {
        return Err(Fault::at(rest));
    }
    Ok((name, behind))
}

/// So many names of columns.
fn many_names(alloc: Global, count: u8, bytes: &[u8]) -> Result<(Names, &[u8]), Fault>
    ensures { Gives (λ x. (x.0, x.1.now)) result (names_from [] count bytes.now) }
{
    let mut names = Names::new(alloc);
    let mut rest = bytes;
    for _ in 0..count {
        let (name, after) = name_at(&names, rest)?;
        names.push(Vec::from_slice(alloc, name)?)?;
        rest = after;
    }
    Ok((names, rest))
}

/// The names of the columns, behind their count of one byte.
#[tactic(auto, unfolding(crate::specs::Reading::names_at))]
fn names_at(alloc: Global, bytes: &[u8]) -> Result<(Names, &[u8]), Fault>
    ensures { Gives (λ x. (x.0, x.1.now)) result (names_at bytes.now) }
{
    let Some((count, rest)) = u8_in(1, 8, bytes) else {
        return Err(Fault::at(bytes));
    };
    many_names(alloc, count, rest)
}

/// Yes or no in one byte.
fn flag_of(byte: u8) -> Option<bool>
    ensures { Finds (λ flag. flag) result (flag_of byte) }
{
    match byte {
        0 => Some(false),
        1 => Some(true),
        _ => None,
    }
}

/// Yes or no.
fn flag_at(bytes: &[u8]) -> Option<(bool, &[u8])>
    ensures { Finds (λ x. (x.0, x.1.now)) result (flag_at bytes.now) }
{
    let (byte, rest) = bytes.split_first()?;
    let flag = flag_of(*byte)?;
    Some((flag, rest))
}

/// The settings with these columns whose numbers the bytes are, all of them.
#[tactic(auto, unfolding(crate::specs::Reading::with_numbers))]
fn with_numbers(columns: Names, bytes: &[u8]) -> Result<Settings, Fault>
    ensures { Gives (λ settings. settings) result (with_numbers columns bytes.now) }
{
    let Some((min, max_on)) = u8_in(1, 16, bytes) else {
        return Err(Fault::at(bytes));
    };
    let Some((max, flag_on)) = u8_in(10, 84, max_on) else {
        return Err(Fault::at(max_on));
    };
    let Some((stopword, words_on)) = flag_at(flag_on) else {
        return Err(Fault::at(flag_on));
    };
    let Some((optimize_words, cache_on)) = u16_in(1, 10_000, words_on) else {
        return Err(Fault::at(words_on));
    };
    let Some((cache_bytes, batch_on)) = u32_in(1_000, 80_000_000, cache_on) else {
        return Err(Fault::at(cache_on));
    };
    let Some((batch_docs, rest)) = u32_in(1, 100_000, batch_on) else {
        return Err(Fault::at(batch_on));
    };
    if !rest.is_empty() {
        return Err(Fault::at(rest));
    }
    Ok(Settings {
        columns,
        min,
        max,
        stopword,
        optimize_words,
        cache_bytes,
        batch_docs,
    })
}

/// The settings whose payload the bytes are, all of them.
#[tactic(auto, unfolding(crate::specs::Reading::settings_of))]
fn settings_in(alloc: Global, bytes: &[u8]) -> Result<Settings, Fault>
    ensures { Gives (λ settings. settings) result (settings_of bytes.now) }
{
    let Some(rest) = behind(bytes, 0) else {
        return Err(Fault::at(bytes));
    };
    let (columns, rest) = names_at(alloc, rest)?;
    with_numbers(columns, rest)
}

/// The settings in their payload.
///
/// # Errors
///
/// `Bad` exactly where the bytes are no payload of settings that a database can have, with the
/// place at which the first field begins that can't stand there: another kind; a count, a length or
/// a number that is cut or out of its bounds; a name that is cut, is none that a column can have,
/// or stands before; a flag that is neither 0 nor 1; what stands behind the last field.
/// `NoMemory` where there is none for the names.
pub fn decode_settings(alloc: Global, bytes: &[u8]) -> Result<Settings, DecodeError>
    // What is read is spelled so.
    ensures settings { IfOk result (λ settings. AreSettings settings
        × (bytes.now ≡ settings_payload settings)) }
    // What is spelled so is read.
    ensures exact { (settings : Settings) → AreSettings settings
        → bytes.now ≡ settings_payload settings
        → (result ≡ Ok settings) ⊎ (result ≡ Err DecodeError.NoMemory) }
    // A refusal has its place.
    ensures cause { IfErr result (IsSettingsCause bytes.now) }
{
    match settings_in(alloc, bytes) {
        Ok(settings) => Ok(settings),
        Err(Fault::NoMemory) => Err(DecodeError::NoMemory),
        Err(Fault::Bad { left }) => {
            let at = bytes.len() - left;
            Err(DecodeError::Bad { at })
        }
    }
}
