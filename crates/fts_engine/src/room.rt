//! Room for the frame of a payload.
ghost use Rattle.std.specs.Prelude.{◌≡◌, ◌+◌, ◌<◌, ◌≤◌, ◌^◌, length};
ghost use Rattle.std.specs.Prelude.{IfSome, IfNone, IfOk, IfErr};
ghost use Rattle.fts_engine.specs.Unframed.{end_behind, IsUnframed};

use fts_disk::Disk;
use fts_log::{AROUND_PAYLOAD, Log};
use std::alloc::{AllocError, Global};

/// Why a payload was not framed for a log.
#[derive(Clone, Copy, Debug, PartialEq, Eq)]
pub enum FrameError {
    NoMemory,
    /// The log would end there, above its limit.
    TooLong { end: u64 },
}

// Where the log would end behind a payload of so many bytes, where a `u64` can hold it.
fn end_behind<D: Disk>(log: &Log<D>, size: u64) -> Option<u64>
    ensures some { IfSome result (λ end. end ≡ end_behind log.now size) }
    ensures none { IfNone result (2 ^ 64 ≤ end_behind log.now size) }
{
    log.end()
        .checked_add(size)?
        .checked_add(AROUND_PAYLOAD as u64)
}

/// Bytes for the frame of a payload of so many bytes. Memory is asked for them only where the log
/// has room: a longer payload is refused for its length, however much memory there is.
pub fn room_for<D: Disk>(alloc: Global, log: &Log<D>, size: u64) -> Result<Vec<u8>, FrameError>
    ensures room { IfOk result (λ bytes. length bytes.items ≡ size + 5) }
    ensures fits { IfOk result (λ bytes. size < 2 ^ 32) }
    ensures unframed { IfErr result (IsUnframed log.now size) }
{
    let end = match end_behind(log, size) {
        Some(end) => end,
        None => return Err(FrameError::NoMemory),
    };
    if end > log.limit() {
        return Err(FrameError::TooLong { end });
    }
    match vec![in alloc; 0; size as usize + AROUND_PAYLOAD] {
        Ok(bytes) => Ok(bytes),
        Err(AllocError) => Err(FrameError::NoMemory),
    }
}
