//! Whether a log has a first record.
ghost use Rattle.std.specs.Prelude.{◌↔◌, IsTrue, IfOk};
ghost use Rattle.fts_faults.specs.Count.{HasCause};
ghost use Rattle.fts_disk.specs.Moments.{Looks};
ghost use Rattle.fts_log.specs.Record.{IsBegun};

use crate::found::FIRST;
use fts_disk::{Disk, Failed};

/// Whether the gate behind the magic, byte 8 of file 0, is open, so that a record follows. It
/// writes nothing.
pub fn is_begun<D: Disk>(device: &mut D) -> Result<bool, Failed>
    ensures begun { IfOk result (λ begun. IsTrue D.tells
        → (IsTrue begun ↔ IsBegun (D.seen device.old 0))) }
    ensures looks { IsTrue D.tells → Looks D.Disk device.old device.new }
    ensures cause { HasCause (D.faults device.old) (D.faults device.new) result }
{
    let length = device.len(0)?;
    if length <= FIRST {
        return Ok(false);
    }
    let mut gate = [0];
    device.read_at(0, FIRST, &mut gate)?;
    Ok(gate[0] == 1)
}
