ghost use Rattle.std.specs.Prelude.{◌≡◌, ◌<◌, ◌≤◌, ◌^◌, ◌∷◌, All, length, IfOk};
ghost use Rattle.std.specs.Int.{w16, to_be_bytes};
ghost use Rattle.fts_types.specs.Settings.{AreSettings};
ghost use Rattle.fts_rowcodec.specs.Payload.{FitsBytes, commit_payload, settings_payload};
ghost use Rattle.fts_codec.specs.Writing.{Puts};

use crate::measure::{commit_size, settings_size};
use crate::writing::{put_change, put_columns, put_numbers};
use fts_codec::{put_bytes, put_u8, put_u16};
use fts_commits::Change;
use fts_types::Settings;
use std::alloc::{AllocError, Global};

/// Writes the payload of settings at the head of a buffer, and returns how many bytes it has. It
/// takes no memory.
pub fn encode_settings_into(settings: &Settings, buf: &mut [u8]) -> usize
    requires settings { AreSettings settings.now }
    requires room { length (settings_payload settings.now) ≤ length buf.old }
    ensures { Puts (settings_payload settings.now) buf.old buf.new result }
{
    let mut at = put_bytes(buf, &[0, settings.columns.len() as u8]);
    at += put_columns(&mut buf[at..], &settings.columns);
    at + put_numbers(&mut buf[at..], settings)
}

/// The payload of settings.
pub fn encode_settings(alloc: Global, settings: &Settings) -> Result<Vec<u8>, AllocError>
    requires { AreSettings settings.now }
    ensures { IfOk result (λ bytes. bytes.items ≡ settings_payload settings.now) }
{
    let mut bytes = vec![in alloc; 0; settings_size(settings)]?;
    encode_settings_into(settings, &mut bytes);
    Ok(bytes)
}

/// Writes the payload of a commit at the head of a buffer, and returns how many bytes it has. It
/// takes no memory.
pub fn encode_commit_into(changes: &[Change], buf: &mut [u8]) -> usize
    requires few { length changes.now ≤ 1000 }
    requires fits { All FitsBytes changes.now }
    requires room { length (commit_payload changes.now) ≤ length buf.old }
    ensures { Puts (commit_payload changes.now) buf.old buf.new result }
{
    let mut at = put_count(buf, changes.len() as u16);
    for change in changes {
        at += put_change(&mut buf[at..], change);
    }
    at
}

/// The kind of a commit and the count of its changes.
fn put_count(buf: &mut [u8], count: u16) -> usize
    requires { 3 ≤ length buf.old }
    ensures { Puts (1 ∷ to_be_bytes w16 count) buf.old buf.new result }
{
    let at = put_u8(buf, 1);
    at + put_u16(&mut buf[at..], count)
}

/// The payload of a commit.
pub fn encode_commit(alloc: Global, changes: &[Change]) -> Result<Vec<u8>, AllocError>
    requires few { length changes.now ≤ 1000 }
    requires fits { All FitsBytes changes.now }
    requires short { length (commit_payload changes.now) < 2 ^ 32 }
    ensures { IfOk result (λ bytes. bytes.items ≡ commit_payload changes.now) }
{
    let mut bytes = vec![in alloc; 0; commit_size(changes)]?;
    encode_commit_into(changes, &mut bytes);
    Ok(bytes)
}
