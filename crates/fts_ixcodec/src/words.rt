//! Words at the front of some bytes.
ghost use Rattle.std.specs.Prelude.{◌≡◌};
ghost use Rattle.fts_types.specs.Rules.{rules_of};
ghost use Rattle.fts_codec.specs.Reading.{Finds};
ghost use Rattle.fts_codec.specs.Fault.{Gives};
ghost use Rattle.fts_ixcodec.specs.Payload.{is_form, form_step, is_lower_byte};
ghost use Rattle.fts_ixcodec.specs.Reading.{size_at, may_follow, word_at};

use fts_codec::{Fault, bytes_at};
use fts_types::Settings;

/// A lower-case letter, a digit or `_`.
fn is_lower_byte(byte: u8) -> bool
    ensures { result ≡ is_lower_byte byte }
{
    (byte.is_ascii_alphanumeric() || byte == b'_') && !byte.is_ascii_uppercase()
}

/// A byte of a word, behind a byte that is no apostrophe or not: whether it is none itself.
fn form_step(behind_byte: bool, byte: u8) -> Option<bool>
    ensures { result ≡ form_step behind_byte byte }
{
    if is_lower_byte(byte) {
        return Some(true);
    }
    if !behind_byte {
        return None;
    }
    if byte == b'\'' { Some(false) } else { None }
}

/// Whether these are the bytes of a word: lower-case letters, digits and `_`, with single
/// apostrophes between them.
fn is_form(word: &[u8]) -> bool
    ensures { result ≡ is_form word.now }
{
    let mut behind_byte = false;
    for &byte in word {
        match form_step(behind_byte, byte) {
            Some(next) => behind_byte = next,
            None => return false,
        }
    }
    behind_byte
}

/// The length of a word that the settings index.
fn size_at<'a>(settings: &Settings, bytes: &'a [u8]) -> Option<(u8, &'a [u8])>
    ensures { Finds (λ x. (x.0, x.1.now)) result (size_at (rules_of settings.now) bytes.now) }
{
    let (size, rest) = bytes.split_first()?;
    if *size < settings.min {
        return None;
    }
    if *size > settings.max {
        return None;
    }
    Some((*size, rest))
}

/// Whether these are the bytes of a word that does not stand before another.
fn may_follow(before: &[u8], word: &[u8]) -> bool
    ensures { result ≡ may_follow before.now word.now }
{
    if !is_form(word) {
        return false;
    }
    !word.cmp(before).is_lt()
}

/// A word that does not stand before another, behind its length of one byte, which is one that the
/// settings index.
#[tactic(auto, unfolding(crate::specs::Reading::word_at))]
pub(crate) fn word_at<'a>(
    settings: &Settings,
    before: &[u8],
    bytes: &'a [u8],
) -> Result<(&'a [u8], &'a [u8]), Fault>
    ensures { Gives (λ x. (x.0.now, x.1.now)) result
        (word_at (rules_of settings.now) before.now bytes.now) }
{
    let Some((size, rest)) = size_at(settings, bytes) else {
        return Err(Fault::at(bytes));
    };
    let Some((word, behind)) = bytes_at(rest, size as usize) else {
        return Err(Fault::at(rest));
    };
    if !may_follow(before, word) {
        return Err(Fault::at(rest));
    }
    Ok((word, behind))
}
