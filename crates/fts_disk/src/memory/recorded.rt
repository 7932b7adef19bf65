//! The files of a device in memory, with a record of the calls on them.
ghost use Rattle.std.specs.Prelude.{◌≡◌, ◌+◌, ◌<◌, ◌≤◌, ◌++◌, ◌∷◌, [], false, length, take};
ghost use Rattle.std.specs.Prelude.{All, IsTrue, IfOk, OnOk, OnErr};
ghost use Rattle.fts_disk.specs.Device.{OnFile, Written, Torn, Shortened};
ghost use Rattle.fts_disk.specs.Crash.{Within, Follows, Only, Elapses};
ghost use Rattle.fts_disk.specs.Contents.{contents};
ghost use Rattle.fts_disk.specs.Replay.{seen_after, step_seen, IsLook, IsOfFile, IsWriteOf};
ghost use Rattle.fts_disk.specs.Replay.{IsCutOf, IsSyncOf, Entered};

use super::Call;
use std::alloc::{AllocError, Global};

/// Files 0 to 15 and more, what they held at first, and the calls since.
#[derive(Debug, Drop)]
pub(crate) struct Recorded {
    pub(crate) alloc: Global,
    pub(crate) first: Vec<Vec<u8>>,
    pub(crate) files: Vec<Vec<u8>>,
    pub(crate) calls: Vec<Call>,
    ghost sixteen: { 16 ≤ length files.items },
    ghost begun: { 16 ≤ length first.items },
    ghost tied: { contents files.items ≡ seen_after calls.items (contents first.items) },
    ghost proper: { All IsOfFile calls.items },
}

impl Recorded {
    ghost use Rattle.fts_disk.specs.Memory.{first_of, files_of, images_of, moment_of, left_of};

    /// These files, without calls.
    pub(crate) fn from_files(alloc: Global, files: Vec<Vec<u8>>) -> Result<Self, AllocError>
        ensures files { IfOk result (λ recorded. files_of recorded ≡ contents files.items) }
        ensures first { IfOk result (λ recorded. first_of recorded ≡ contents files.items) }
        ensures calls { IfOk result (λ recorded. recorded.calls.items ≡ []) }
    {
        let first = sixteen(alloc, files)?;
        let files = copy_of(alloc, &first)?;
        Ok(Recorded {
            alloc,
            first,
            files,
            calls: Vec::new(alloc),
        })
    }

    /// The bytes of a file.
    pub(crate) fn bytes(&self, file: u32) -> &[u8]
        requires { file < 16 }
        ensures { result.now ≡ files_of self.now file }
    {
        &self.files[file as usize]
    }

    /// Puts a call that only looks, or a sync, into the record.
    pub(crate) fn note(&mut self, call: Call) -> Result<(), AllocError>
        requires looks { IsLook call }
        requires file { IsOfFile call }
        ensures noted { OnOk result (self.new.calls.items ≡ self.old.calls.items ++ call ∷ []) }
        ensures not_noted { OnErr result (self.new.calls.items ≡ self.old.calls.items) }
        ensures files { self.new.files ≡ self.old.files }
        ensures first { self.new.first ≡ self.old.first }
        ensures crash { Within (images_of self.old) (images_of self.new) }
        ensures time { Elapses (moment_of self.old) (moment_of self.new) (left_of self.old)
            (left_of self.new) (images_of self.new) }
        ensures ticks { OnOk result (moment_of self.old < moment_of self.new) }
    {
        Ok(self.calls.push(call)?)
    }

    /// Puts a sync into the record, as one that was done or that failed.
    pub(crate) fn sync(&mut self, done: bool) -> Result<(), AllocError>
        ensures durable { OnOk result
            (IsTrue done → Only (files_of self.new) (images_of self.new)) }
        ensures pending { done ≡ false → Within (images_of self.new) (images_of self.old) }
        ensures not_noted { OnErr result (Within (images_of self.new) (images_of self.old)) }
        ensures files { self.new.files ≡ self.old.files }
        ensures first { self.new.first ≡ self.old.first }
        ensures entered { OnOk result
            (Entered (IsSyncOf done) self.old.calls.items self.new.calls.items) }
        ensures not_entered { OnErr result (self.new.calls.items ≡ self.old.calls.items) }
        ensures crash { Within (images_of self.old) (images_of self.new) }
        ensures time { Elapses (moment_of self.old) (moment_of self.new) (left_of self.old)
            (left_of self.new) (images_of self.new) }
        ensures ticks { OnOk result (moment_of self.old < moment_of self.new) }
    {
        self.note(Call::Sync { done })
    }

    /// Puts a write into the record, and does it, if it is to be done.
    pub(crate) fn write(
        &mut self,
        file: u32,
        at: u64,
        bytes: &[u8],
        done: bool,
    ) -> Result<(), AllocError>
        requires file { file < 16 }
        requires within { at ≤ length (files_of self.old file) }
        ensures written { OnOk result
            (IsTrue done → OnFile file (Written at bytes.now) (files_of self.old)
            (files_of self.new)) }
        ensures not_done { done ≡ false → files_of self.new ≡ files_of self.old }
        ensures kept { OnErr result (files_of self.new ≡ files_of self.old) }
        ensures first { self.new.first ≡ self.old.first }
        ensures entered { OnOk result
            (Entered (IsWriteOf file at bytes.now done) self.old.calls.items self.new.calls.items) }
        ensures not_entered { OnErr result (self.new.calls.items ≡ self.old.calls.items) }
        ensures crash { Follows (OnFile file (Torn at (length bytes.now))) (images_of self.old)
            (images_of self.new) }
        ensures time { Elapses (moment_of self.old) (moment_of self.new) (left_of self.old)
            (left_of self.new) (images_of self.new) }
        ensures ticks { OnOk result (moment_of self.old < moment_of self.new) }
    {
        write_noted(
            self.alloc,
            &mut self.files,
            &mut self.calls,
            file,
            at,
            bytes,
            done,
        )
    }

    /// Puts a cut into the record, and does it, if it is to be done.
    pub(crate) fn cut(&mut self, file: u32, len: u64, done: bool) -> Result<(), AllocError>
        requires file { file < 16 }
        requires within { len ≤ length (files_of self.old file) }
        ensures shorter { OnOk result
            (IsTrue done → OnFile file (λ old new. new ≡ take len old) (files_of self.old)
            (files_of self.new)) }
        ensures not_done { done ≡ false → files_of self.new ≡ files_of self.old }
        ensures kept { OnErr result (files_of self.new ≡ files_of self.old) }
        ensures first { self.new.first ≡ self.old.first }
        ensures entered { OnOk result
            (Entered (IsCutOf file len done) self.old.calls.items self.new.calls.items) }
        ensures not_entered { OnErr result (self.new.calls.items ≡ self.old.calls.items) }
        ensures crash { Follows (OnFile file (Shortened len)) (images_of self.old)
            (images_of self.new) }
        ensures time { Elapses (moment_of self.old) (moment_of self.new) (left_of self.old)
            (left_of self.new) (images_of self.new) }
        ensures ticks { OnOk result (moment_of self.old < moment_of self.new) }
    {
        cut_noted(&mut self.files, &mut self.calls, file, len, done)
    }
}

// Puts a write into a record, and does it, if it is to be done.
fn write_noted(
    alloc: Global,
    files: &mut Vec<Vec<u8>>,
    calls: &mut Vec<Call>,
    file: u32,
    at: u64,
    bytes: &[u8],
    done: bool,
) -> Result<(), AllocError>
    requires file { file < length files.old.items }
    requires within { at ≤ length (contents files.old.items file) }
    ensures written { OnOk result (IsTrue done
        → OnFile file (Written at bytes.now)
        (contents files.old.items) (contents files.new.items)) }
    ensures not_done { done ≡ false → contents files.new.items ≡ contents files.old.items }
    ensures kept { OnErr result (contents files.new.items ≡ contents files.old.items) }
    ensures count { length files.new.items ≡ length files.old.items }
    ensures noted { OnOk result ((call : _) × IsWriteOf file at bytes.now done call
        × (calls.new.items ≡ calls.old.items ++ call ∷ [])
        × (contents files.new.items ≡ step_seen call (contents files.old.items))) }
    ensures not_noted { OnErr result (calls.new.items ≡ calls.old.items) }
{
    let noted = bytes.to_vec(alloc)?;
    calls.push(Call::Write {
        file,
        at,
        bytes: noted,
        done,
    })?;
    if !done {
        return Ok(());
    }
    let written = overwrite_in(files, file, at, bytes);
    if written.is_err() {
        calls.pop();
    }
    written
}

// Puts a cut into a record, and does it, if it is to be done.
fn cut_noted(
    files: &mut Vec<Vec<u8>>,
    calls: &mut Vec<Call>,
    file: u32,
    len: u64,
    done: bool,
) -> Result<(), AllocError>
    requires file { file < length files.old.items }
    ensures shorter { OnOk result (IsTrue done
        → OnFile file (λ old new. new ≡ take len old) (contents files.old.items)
        (contents files.new.items)) }
    ensures not_done { done ≡ false → contents files.new.items ≡ contents files.old.items }
    ensures kept { OnErr result (contents files.new.items ≡ contents files.old.items) }
    ensures count { length files.new.items ≡ length files.old.items }
    ensures noted { OnOk result ((call : _) × IsCutOf file len done call
        × (calls.new.items ≡ calls.old.items ++ call ∷ [])
        × (contents files.new.items ≡ step_seen call (contents files.old.items))) }
    ensures not_noted { OnErr result (calls.new.items ≡ calls.old.items) }
{
    calls.push(Call::Cut { file, len, done })?;
    if done {
        cut_in(files, file, len);
    }
    Ok(())
}

/// Writes over the bytes from a place on, and past the end.
pub(crate) fn overwrite(file: &mut Vec<u8>, at: usize, bytes: &[u8]) -> Result<(), AllocError>
    requires { at ≤ length file.old.items }
    ensures written { OnOk result (Written at bytes.now file.old.items file.new.items) }
    ensures kept { OnErr result (file.new.items ≡ file.old.items) }
{
    let over = bytes.len().min(file.len() - at);
    file.extend_from_slice(&bytes[over..])?;
    file[at..at + over].copy_from_slice(&bytes[..over]);
    Ok(())
}

/// Writes over the bytes of one file.
pub(crate) fn overwrite_in(
    files: &mut Vec<Vec<u8>>,
    file: u32,
    at: u64,
    bytes: &[u8],
) -> Result<(), AllocError>
    requires file { file < length files.old.items }
    requires within { at ≤ length (contents files.old.items file) }
    ensures written { OnOk result (OnFile file (Written at bytes.now) (contents files.old.items)
        (contents files.new.items)) }
    ensures kept { OnErr result (contents files.new.items ≡ contents files.old.items) }
    ensures count { length files.new.items ≡ length files.old.items }
{
    overwrite(&mut files[file as usize], at as usize, bytes)
}

/// Cuts one file.
pub(crate) fn cut_in(files: &mut Vec<Vec<u8>>, file: u32, len: u64)
    requires { file < length files.old.items }
    ensures shorter { OnFile file (λ old new. new ≡ take len old) (contents files.old.items)
        (contents files.new.items) }
    ensures count { length files.new.items ≡ length files.old.items }
{
    files[file as usize].truncate(len as usize);
}

// The files, and empty ones up to file 15.
fn sixteen(alloc: Global, files: Vec<Vec<u8>>) -> Result<Vec<Vec<u8>>, AllocError>
    ensures same { IfOk result (λ all. contents all.items ≡ contents files.items) }
    ensures sixteen { IfOk result (λ all. 16 ≤ length all.items) }
{
    let mut all = files;
    for _ in all.len()..16 {
        all.push(Vec::new(alloc))?;
    }
    Ok(all)
}

/// The same files.
pub(crate) fn copy_of(alloc: Global, files: &[Vec<u8>]) -> Result<Vec<Vec<u8>>, AllocError>
    ensures same { IfOk result (λ copy. contents copy.items ≡ contents files.now) }
    ensures count { IfOk result (λ copy. length copy.items ≡ length files.now) }
{
    let mut copy = Vec::with_capacity(alloc, files.len())?;
    for file in files {
        copy.push(file.to_vec(alloc)?)?;
    }
    Ok(copy)
}
