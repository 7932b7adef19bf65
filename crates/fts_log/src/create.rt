//! Making a log.
ghost use Rattle.std.specs.Prelude.{◌≡◌, ◌^◌, ◌≤◌, ◌++◌, [], ◌∷◌, length, IsTrue, IfOk, IsErr};
ghost use Rattle.std.specs.Prelude.{OnOk};
ghost use Rattle.fts_faults.specs.Count.{CountsFault, HasCause};
ghost use Rattle.fts_disk.specs.Crash.{Only};
ghost use Rattle.fts_log.specs.Device.{SameOthers};
ghost use Rattle.fts_log.specs.Log.{StandsFor, device_of, magic_of, limit_of, found_count};
ghost use Rattle.fts_log.specs.Log.{count_of, end_of, device_left};

use crate::Log;
use fts_disk::{Disk, Failed};

/// Makes file 0 of the device a log without entries, whatever it held: it is cut to 0, the magic
/// and a closed gate are written, and a sync makes them durable. `limit` is the largest end that
/// the log may have, in bytes. Takes no memory.
///
/// # Errors
///
/// `Failed`, with the device, if the device failed. File 0 may then hold anything.
pub fn create_log<D: Disk>(device: D, magic: [u8; 8], limit: u64) -> Result<Log<D>, (Failed, D)>
    requires { limit ≤ 2 ^ 32 }

    ensures created { IfOk result (λ log. IsTrue D.tells → StandsFor [] log) }
    ensures durable { IfOk result (λ log. IsTrue D.tells
        → Only (D.seen (device_of log)) (D.images (device_of log))) }
    ensures bytes { IfOk result (λ log. IsTrue D.tells
        → D.seen (device_of log) 0 ≡ magic ++ 0 ∷ []) }
    ensures kept { IfOk result (λ log. (magic_of log ≡ magic) × (limit_of log ≡ limit)) }
    ensures empty { IfOk result (λ log. (count_of log ≡ 0) × (end_of log ≡ 9)
        × (found_count log ≡ 0)) }
    ensures others { IsTrue D.tells → SameOthers (D.seen device) (D.seen (device_left result)) }
    ensures faults { CountsFault (IsErr result) (D.faults device) (D.faults (device_left result)) }
{
    let mut device = device;
    match start(&mut device, magic) {
        Ok(()) => Ok(Log {
            device,
            magic,
            limit,
            end: 9,
            count: 0,
            found: None,
        }),
        Err(failed) => Err((failed, device)),
    }
}

// Writes the magic and a closed gate, and nothing else, and makes them durable.
fn start<D: Disk>(device: &mut D, magic: [u8; 8]) -> Result<(), Failed>
    ensures bytes { OnOk result (IsTrue D.tells → D.seen device.new 0 ≡ magic ++ 0 ∷ []) }
    ensures durable { OnOk result (IsTrue D.tells
        → Only (D.seen device.new) (D.images device.new)) }
    ensures others { IsTrue D.tells → SameOthers (D.seen device.old) (D.seen device.new) }
    ensures width { length magic ≡ 8 }
    ensures cause { HasCause (D.faults device.old) (D.faults device.new) result }
{
    device.cut(0, 0)?;
    let [a, b, c, d, e, f, g, h] = magic;
    device.write_at(0, 0, &[a, b, c, d, e, f, g, h, 0])?;
    device.sync()
}
