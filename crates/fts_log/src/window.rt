//! Reading a file of a device, a stretch at a time.
ghost use Rattle.std.specs.Prelude.{◌≡◌, ℕ, List, ◌+◌, ◌-◌, ◌<◌, ◌≤◌, ◌^◌, length, take, drop, min};
ghost use Rattle.std.specs.Prelude.{IsTrue, IfOk, OnOk, IsErrOf};
ghost use Rattle.fts_faults.specs.Count.{CountsFault};
ghost use Rattle.fts_disk.specs.Moments.{Looks};

use crate::EntryError;
use fts_disk::Disk;
use std::alloc::Global;

/// How many bytes are read at a time.
const STRETCH: u64 = 65536;

/// How many bytes a gate and a length take.
const HEAD: u64 = 5;

/// The bytes of file 0 from a place on.
#[derive(Drop)]
pub(crate) struct Window {
    pub(crate) start: u64,
    pub(crate) bytes: Vec<u8>,
}

/// These many bytes of file 0.
pub(crate) fn read_bytes<D: Disk>(
    alloc: Global,
    device: &mut D,
    at: u64,
    size: usize,
) -> Result<Vec<u8>, EntryError>
    requires { IsTrue D.tells → at + size ≤ length (D.seen device.old 0) }
    ensures bytes { IfOk result (λ bytes. IsTrue D.tells
        → bytes.items ≡ take size (drop at (D.seen device.old 0))) }
    ensures size { IfOk result (λ bytes. length bytes.items ≡ size) }
    ensures looks { IsTrue D.tells → Looks D.Disk device.old device.new }
    ensures faults { CountsFault (IsErrOf result EntryError.DiskFault) (D.faults device.old)
        (D.faults device.new) }
{
    let mut bytes = vec![in alloc; 0; size]?;
    device.read_at(0, at, &mut bytes)?;
    Ok(bytes)
}

impl Window {
    ghost use Rattle.fts_log.specs.Scan.{Shows};

    /// No bytes.
    pub(crate) fn empty(alloc: Global) -> Self
        ensures { (file : List ℕ) → Shows result file }
    {
        Window {
            start: 0,
            bytes: Vec::new(alloc),
        }
    }

    /// Reads a stretch from `at` on. The file has `file_length` bytes at least.
    pub(crate) fn read<D: Disk>(
        alloc: Global,
        device: &mut D,
        at: u64,
        file_length: u64,
    ) -> Result<Self, EntryError>
        requires told { IsTrue D.tells → file_length ≤ length (D.seen device.old 0) }
        requires within { at ≤ file_length }
        ensures shows { IfOk result
            (λ window. IsTrue D.tells → Shows window (D.seen device.old 0)) }
        ensures start { IfOk result (λ window. window.start ≡ at) }
        ensures size { IfOk result (λ window. length window.bytes.items
            ≡ min (file_length - at) 65536) }
        ensures looks { IsTrue D.tells → Looks D.Disk device.old device.new }
        ensures faults { CountsFault (IsErrOf result EntryError.DiskFault) (D.faults device.old)
            (D.faults device.new) }
    {
        let size = (file_length - at).min(STRETCH) as usize;
        let bytes = read_bytes(alloc, device, at, size)?;
        Ok(Window { start: at, bytes })
    }

    /// Goes on to `at`, so that the window has the first five bytes from there on, or as many as
    /// the file has.
    pub(crate) fn cover<D: Disk>(
        &mut self,
        alloc: Global,
        device: &mut D,
        at: u64,
        file_length: u64,
    ) -> Result<(), EntryError>
        requires told { IsTrue D.tells → length (D.seen device.old 0) ≡ file_length }
        requires shown { IsTrue D.tells → Shows self.old (D.seen device.old 0) }
        requires within { at ≤ file_length }
        requires small { file_length < 2 ^ 63 }
        ensures shows { OnOk result (IsTrue D.tells → Shows self.new (D.seen device.old 0)) }
        ensures start { OnOk result (self.new.start ≤ at) }
        ensures size { OnOk result (at - self.new.start + min (file_length - at) 5
            ≤ length self.new.bytes.items) }
        ensures looks { IsTrue D.tells → Looks D.Disk device.old device.new }
        ensures faults { CountsFault (IsErrOf result EntryError.DiskFault) (D.faults device.old)
            (D.faults device.new) }
    {
        let wanted = (file_length - at).min(HEAD);
        if self.start <= at && at - self.start + wanted <= self.bytes.len() as u64 {
            return Ok(());
        }
        *self = Window::read(alloc, device, at, file_length)?;
        Ok(())
    }

    /// The first five bytes from `at` on, or as many as the file has.
    pub(crate) fn head(&self, at: u64, file_length: u64) -> &[u8]
        requires start { self.now.start ≤ at }
        requires within { at ≤ file_length }
        requires size { at - self.now.start + min (file_length - at) 5
            ≤ length self.now.bytes.items }
        ensures bytes { (file : List ℕ) → length file ≡ file_length → Shows self.now file
            → result.now ≡ take 5 (drop at file) }
    {
        let from = (at - self.start) as usize;
        let wanted = (file_length - at).min(HEAD) as usize;
        &self.bytes[from..from + wanted]
    }

    /// These many bytes of file 0 from `at` on. Where the window hasn't got them it goes on to
    /// them, so that one read serves all that follows within a stretch; what is longer is read
    /// alone. The file has `file_length` bytes at least.
    pub(crate) fn bytes_at<D: Disk>(
        &mut self,
        alloc: Global,
        device: &mut D,
        at: u64,
        size: usize,
        file_length: u64,
    ) -> Result<Vec<u8>, EntryError>
        requires told { IsTrue D.tells → file_length ≤ length (D.seen device.old 0) }
        requires shown { IsTrue D.tells → Shows self.old (D.seen device.old 0) }
        requires within { at + size ≤ file_length }
        requires small { file_length < 2 ^ 63 }
        ensures bytes { IfOk result (λ bytes. IsTrue D.tells
            → bytes.items ≡ take size (drop at (D.seen device.old 0))) }
        ensures shows { IsTrue D.tells → Shows self.new (D.seen device.old 0) }
        ensures looks { IsTrue D.tells → Looks D.Disk device.old device.new }
        ensures faults { CountsFault (IsErrOf result EntryError.DiskFault) (D.faults device.old)
            (D.faults device.new) }
    {
        if size as u64 > STRETCH {
            return read_bytes(alloc, device, at, size);
        }
        if !self.has(at, size) {
            *self = Window::read(alloc, device, at, file_length)?;
        }
        Ok(Vec::from_slice(alloc, self.part(at, size))?)
    }

    /// Whether it has these many bytes from `at` on.
    fn has(&self, at: u64, size: usize) -> bool
        requires { at + size < 2 ^ 63 }
        ensures start { IsTrue result → self.now.start ≤ at }
        ensures size { IsTrue result
            → at - self.now.start + size ≤ length self.now.bytes.items }
    {
        if at < self.start {
            return false;
        }
        at - self.start + size as u64 <= self.bytes.len() as u64
    }

    /// These many bytes from `at` on, which it has.
    fn part(&self, at: u64, size: usize) -> &[u8]
        requires start { self.now.start ≤ at }
        requires size { at - self.now.start + size ≤ length self.now.bytes.items }
        ensures bytes { (file : List ℕ) → Shows self.now file
            → result.now ≡ take size (drop at file) }
    {
        let from = (at - self.start) as usize;
        &self.bytes[from..from + size]
    }
}
