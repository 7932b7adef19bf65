//! The whole records of a file.
ghost use Rattle.std.specs.Prelude.{◌≡◌, ℕ, List, [], ◌^◌, ◌<◌, ◌≤◌, length, IsTrue, IfOk, IfErr};
ghost use Rattle.std.specs.Prelude.{IsErrOf, slice_index_or};
ghost use Rattle.fts_faults.specs.Count.{CountsFault};
ghost use Rattle.fts_log.specs.Scan.{Shows};

use crate::found::Found;
use crate::window::Window;
use crate::{EntryError, Log};
use fts_disk::Disk;

/// The whole records of file 0 of a device, from its magic on as far as they go: to a closed gate,
/// if the file is a log.
///
/// So what stands before a torn record can be read too.
#[derive(Drop)]
pub struct Records<D: Disk> {
    pub(crate) device: D,
    pub(crate) magic: [u8; 8],
    pub(crate) found: Found,
    // What was read of the file last.
    pub(crate) window: Window,
    ghost whole_magic: { length magic ≡ 8 },
    ghost reaches: { IsTrue D.tells → found.gate ≤ length (D.seen device 0) },
    ghost closed: { IsTrue D.tells → IsTrue found.is_whole
        → found.gate < length (D.seen device 0) },
    ghost shown: { IsTrue D.tells → Shows window (D.seen device 0) },
}

impl<D: Disk> Records<D> {
    ghost use Rattle.fts_log.specs.Records.{Hold, AreRead, AreAsMany, records_device};
    ghost use Rattle.fts_log.specs.Records.{records_magic, record_count};
    ghost use Rattle.fts_log.specs.Log.{StandsFor, device_left, magic_of, limit_of};
    ghost use Rattle.fts_log.specs.Log.{found_count, count_of};
    ghost use Rattle.fts_log.specs.Record.{IsBrokenBehind, gate_at};

    /// How many there are.
    pub fn count(&self) -> u64
        ensures { result ≡ record_count self.now }
    {
        self.found.ends.len() as u64
    }

    /// The payload of record `k`, from 0. Of those that come one behind another, one read of the
    /// device brings as many as lie in a stretch of 64 KiB.
    ///
    /// # Errors
    ///
    /// - `NoMemory` if there was no memory for the payload.
    /// - `DiskFault` if the device failed.
    pub fn entry_at(&mut self, k: u64) -> Result<Vec<u8>, EntryError>
        requires { k < record_count self.old }
        ensures entry { IfOk result (λ payload. IsTrue D.tells → (entries : List (List ℕ))
            → Hold entries self.old → payload.items ≡ slice_index_or entries k []) }
        ensures read { IsTrue D.tells → AreRead self.old self.new }
        ensures same { AreAsMany self.old self.new }
        ensures faults { CountsFault (IsErrOf result EntryError.DiskFault)
            (D.faults (records_device self.old)) (D.faults (records_device self.new)) }
    {
        let (start, size) = self.found.payload_at(k as usize);
        let (alloc, end) = (self.found.alloc, self.found.gate);
        self.window
            .bytes_at(alloc, &mut self.device, start, size, end)
    }

    /// How many bytes the payload of record `k` has, from 0. No memory is taken for it.
    pub fn size_of(&self, k: u64) -> u64
        requires { k < record_count self.now }
        ensures { IsTrue D.tells → (entries : List (List ℕ)) → Hold entries self.now
            → result ≡ length (slice_index_or entries k []) }
    {
        let (_, size) = self.found.payload_at(k as usize);
        size as u64
    }

    /// The place of the gate of record `k`, from 0.
    pub fn place_of(&self, k: u64) -> u64
        requires { k < record_count self.now }
        ensures { IsTrue D.tells → (entries : List (List ℕ)) → Hold entries self.now
            → result ≡ gate_at (records_magic self.now) entries k }
    {
        self.found.gate_of(k as usize)
    }

    /// The log that they are, whose end an append leaves at most at `limit`; or the place where the
    /// bytes are no log, with the device.
    pub fn into_log(self, limit: u64) -> Result<Log<D>, (u64, D)>
        requires { limit ≤ 2 ^ 32 }
        ensures whole { IfOk result (λ log. IsTrue D.tells → (entries : List (List ℕ))
            → Hold entries self → StandsFor entries log) }
        ensures kept { IfOk result (λ log. (magic_of log ≡ records_magic self)
            × (limit_of log ≡ limit)) }
        ensures count { IfOk result (λ log.
            (count_of log ≡ record_count self) × (found_count log ≡ record_count self)) }
        ensures broken { IfErr result
            (λ e. IsTrue D.tells → (entries : List (List ℕ)) → Hold entries self
            → IsBrokenBehind (records_magic self) entries e.0 (D.seen (records_device self) 0)) }
        ensures device { device_left result ≡ records_device self }
    {
        let Records {
            device,
            magic,
            found,
            window: _,
        } = self;
        if !found.is_whole {
            return Err((found.gate, device));
        }
        let end = found.gate + 1;
        let count = found.ends.len() as u64;
        Ok(Log {
            device,
            magic,
            limit,
            end,
            count,
            found: Some(found),
        })
    }

    /// Gives the device back.
    pub fn close(self) -> D
        ensures { result ≡ records_device self }
    {
        self.device
    }
}
