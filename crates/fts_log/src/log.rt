//! The log and its calls.
ghost use Rattle.std.specs.Prelude.{◌≡◌, ℕ, List, ◌+◌, ◌*◌, ◌^◌, ◌<◌, ◌≤◌, ◌++◌, [], ◌∷◌, ◌↔◌};
ghost use Rattle.std.specs.Prelude.{length, IsTrue, IfOk, OnOk, IsErrOf, slice_index_or};
ghost use Rattle.fts_faults.specs.Count.{CountsFault};
ghost use Rattle.fts_log.specs.Place.{AreWithin};
ghost use Rattle.fts_log.specs.Found.{ends_in};

use crate::found::Found;
use crate::window::read_bytes;
use crate::{AppendError, EntryError, Framed};
use fts_disk::Disk;

/// A log on a device.
///
/// Once an append has answered `DiskFault`, what the file holds is known only from a new opening,
/// and nothing is said of later appends.
#[derive(Drop)]
pub struct Log<D: Disk> {
    pub(crate) device: D,
    pub(crate) magic: [u8; 8],
    pub(crate) limit: u64,
    pub(crate) end: u64,
    pub(crate) count: u64,
    pub(crate) found: Option<Found>,
    ghost whole_magic: { length magic ≡ 8 },
    ghost limited: { limit ≤ 2 ^ 32 },
    ghost ends_within: { end ≤ 2 ^ 63 },
    ghost spaced: { 5 * count ≤ end },
    ghost closed: { 0 < end },
    ghost reaches: { IsTrue D.tells → end ≤ length (D.seen device 0) },
    ghost found_within: { AreWithin end (ends_in found) },
}

impl<D: Disk> Log<D> {
    ghost use Rattle.fts_log.specs.Device.{SameOthers};
    ghost use Rattle.fts_log.specs.Crash.{IsBeforeOrAfter};
    ghost use Rattle.fts_disk.specs.Crash.{Only};
    ghost use Rattle.fts_disk.specs.Moments.{LeavesOnly, Looks};
    ghost use Rattle.fts_log.specs.Frame.{payload_of};
    ghost use Rattle.fts_log.specs.Log.{StandsFor, KeepsNumbers, Numbers, device_of, magic_of};
    ghost use Rattle.fts_log.specs.Log.{limit_of, count_of, end_of, end_after, found_count};
    ghost use Rattle.fts_log.specs.Record.{gate_at};

    /// Appends the payload as an entry, and returns its number, from 0. At `Ok` the entry is
    /// durable, and so is all that was pending in the device's other files. Takes no memory.
    ///
    /// A crash at any moment of the call leaves the log of the old entries, or of these and the new
    /// one.
    ///
    /// # Errors
    ///
    /// - `LogFull` exactly where the log would end above its limit. Nothing has changed then.
    /// - `DiskFault` if the device failed. The file then stands for the old entries, or for these
    ///   and the new one.
    pub fn append(&mut self, framed: &Framed) -> Result<u64, AppendError>
        ensures full { (end : ℕ) → IsErrOf result (AppendError.LogFull end)
            ↔ ((limit_of self.old < end_after self.old framed.now)
            × (end ≡ end_after self.old framed.now)) }
        ensures unchanged { limit_of self.old < end_after self.old framed.now
            → self.new ≡ self.old }
        ensures numbers { Numbers framed.now result self.old self.new }
        ensures acknowledged { OnOk result (IsTrue D.tells → (entries : List (List ℕ))
            → StandsFor entries self.old
            → StandsFor (entries ++ payload_of framed.now ∷ []) self.new) }
        ensures durable { OnOk result (IsTrue D.tells
            → Only (D.seen (device_of self.new)) (D.images (device_of self.new))) }
        ensures any_moment { IsTrue D.tells → (entries : List (List ℕ)) → StandsFor entries self.old
            → LeavesOnly D.Disk (device_of self.old) (device_of self.new)
            (IsBeforeOrAfter (magic_of self.old) entries (payload_of framed.now)
            (D.images (device_of self.old)) (D.seen (device_of self.old))) }
        ensures others { IsTrue D.tells
            → SameOthers (D.seen (device_of self.old)) (D.seen (device_of self.new)) }
        ensures faults { CountsFault (IsErrOf result AppendError.DiskFault)
            (D.faults (device_of self.old)) (D.faults (device_of self.new)) }
    {
        let bytes = framed.bytes();
        let end = self.end + bytes.len() as u64;
        if end > self.limit {
            return Err(AppendError::LogFull { end });
        }
        self.device.write_at(0, self.end, bytes)?;
        self.device.sync()?; // Only now is the record durable, and its gate may be opened.
        self.device.write_at(0, self.end - 1, &[1])?;
        self.device.sync()?; // Only now is the entry durable.
        let number = self.count;
        self.end = end;
        self.count += 1;
        Ok(number)
    }

    /// The payload of entry `k`, from 0, of those that the opening found.
    ///
    /// # Errors
    ///
    /// - `NoMemory` if there was no memory for the payload.
    /// - `DiskFault` if the device failed.
    pub fn entry_at(&mut self, k: u64) -> Result<Vec<u8>, EntryError>
        requires found { k < found_count self.old }
        ensures entry { IfOk result (λ payload. IsTrue D.tells → (entries : List (List ℕ))
            → StandsFor entries self.old → payload.items ≡ slice_index_or entries k []) }
        ensures stays { IsTrue D.tells → (entries : List (List ℕ))
            → StandsFor entries self.old → StandsFor entries self.new }
        ensures looks { IsTrue D.tells → Looks D.Disk (device_of self.old) (device_of self.new) }
        ensures numbers { KeepsNumbers self.old self.new }
        ensures faults { CountsFault (IsErrOf result EntryError.DiskFault)
            (D.faults (device_of self.old)) (D.faults (device_of self.new)) }
    {
        let (alloc, (start, size)) = match &self.found {
            Some(found) => (found.alloc, found.payload_at(k as usize)),
            None => unreachable!(),
        };
        read_bytes(alloc, &mut self.device, start, size)
    }

    /// The place of the gate of entry `k`, from 0, of those that the opening found.
    pub fn place_of(&self, k: u64) -> u64
        requires { k < found_count self.now }
        ensures { (entries : List (List ℕ)) → StandsFor entries self.now
            → result ≡ gate_at (magic_of self.now) entries k }
    {
        match &self.found {
            Some(found) => found.gate_of(k as usize),
            None => unreachable!(),
        }
    }

    /// How many entries the log has.
    pub fn count(&self) -> u64
        ensures { result ≡ count_of self.now }
    {
        self.count
    }

    /// The place behind the closed gate, in bytes from 0.
    pub fn end(&self) -> u64
        ensures { result ≡ end_of self.now }
    {
        self.end
    }

    /// The largest end that the log may have, in bytes.
    pub fn limit(&self) -> u64
        ensures limit { result ≡ limit_of self.now }
        ensures most { result ≤ 2 ^ 32 }
    {
        self.limit
    }

    /// The device's count of faults.
    pub fn faults(&self) -> u64
        ensures { result ≡ D.faults (device_of self.now) }
    {
        self.device.faults()
    }

    /// Gives the device back.
    pub fn close(self) -> D
        ensures { result ≡ device_of self }
    {
        self.device
    }
}
