ghost use Rattle.std.specs.Prelude.{◌≡◌, ◌⊎◌, ◌+◌, ◌^◌, ◌<◌, ◌≤◌, ℕ, Bool, length, take, drop};
ghost use Rattle.std.specs.Prelude.{IsTrue, IfOk, OnOk, OnErr};
ghost use Rattle.fts_disk.specs.Device.{Files, OnFile, Written, Cut, Torn, Shortened};
ghost use Rattle.fts_disk.specs.Crash.{Images, Within, Follows, Only, Elapses};
ghost use Rattle.fts_faults.specs.Count.{HasCause};

use fts_faults::Failed;

/// A device: files 0 to 15, each a row of bytes. A file that was never written has length 0.
///
/// A device may tell its content. Then its contracts say which bytes each call reads and leaves,
/// and what a crash at any moment leaves. One that doesn't, as a folder of the system, claims of
/// its calls only that each failure raised the count of faults.
///
/// A crash leaves all files of the device at once, as one of its images. Between two syncs each
/// range that was written may hold any bytes, and a file may have any length from the least that it
/// had to the greatest. After a sync that succeeds the only image is what a read gives.
/// `docs/PROOF.md`, "What is assumed of a disk".
pub trait Disk {
    /// Whether the device tells its content. No call changes it.
    ghost tells: { Bool };

    /// What a read of each file gives.
    ghost seen: { Self → Files };

    /// What a crash now may leave.
    ghost images: { Self → Images };

    /// The clock.
    ghost moment: { Self → ℕ };

    /// What a crash at some moment since a given one might have left.
    ghost left_since: { Self → ℕ → Images };

    /// How many faults there were.
    ghost faults: { Self → ℕ };

    /// The file's length in bytes.
    fn len(&mut self, file: u32) -> Result<u64, Failed>
        requires { file < 16 }
        ensures small { IfOk result (λ n. n < 2 ^ 63) }
        ensures length { IfOk result (λ n. IsTrue tells → n ≡ length (seen self.old file)) }
        ensures seen { IsTrue tells → seen self.new ≡ seen self.old }
        ensures crash { IsTrue tells → Within (images self.old) (images self.new) }
        ensures time { IsTrue tells → Elapses (moment self.old) (moment self.new)
            (left_since self.old) (left_since self.new) (images self.new) }
        ensures ticks { OnOk result (IsTrue tells → moment self.old < moment self.new) }
        ensures cause { HasCause (faults self.old) (faults self.new) result };

    /// Fills the buffer with the file's bytes from `at` on. The range lies within the file.
    fn read_at(&mut self, file: u32, at: u64, buf: &mut [u8]) -> Result<(), Failed>
        requires file { file < 16 }
        requires within { IsTrue tells → at + length buf.old ≤ length (seen self.old file) }
        ensures bytes { OnOk result (IsTrue tells
            → buf.new ≡ take (length buf.old) (drop at (seen self.old file))) }
        ensures seen { IsTrue tells → seen self.new ≡ seen self.old }
        ensures crash { IsTrue tells → Within (images self.old) (images self.new) }
        ensures time { IsTrue tells → Elapses (moment self.old) (moment self.new)
            (left_since self.old) (left_since self.new) (images self.new) }
        ensures ticks { OnOk result (IsTrue tells → moment self.old < moment self.new) }
        ensures cause { HasCause (faults self.old) (faults self.new) result };

    /// Writes the bytes over what stands from `at` on, and past the end. `at` is at most the
    /// length. A write that fails leaves any bytes in its range, and a length between the old one
    /// and its own.
    fn write_at(&mut self, file: u32, at: u64, bytes: &[u8]) -> Result<(), Failed>
        requires file { file < 16 }
        requires within { IsTrue tells → at ≤ length (seen self.old file) }
        ensures written { OnOk result (IsTrue tells
            → OnFile file (Written at bytes.now) (seen self.old) (seen self.new)) }
        ensures torn { OnErr result (IsTrue tells
            → OnFile file (Torn at (length bytes.now)) (seen self.old) (seen self.new)) }
        ensures crash { IsTrue tells
            → Follows (OnFile file (Torn at (length bytes.now))) (images self.old)
            (images self.new) }
        ensures time { IsTrue tells → Elapses (moment self.old) (moment self.new)
            (left_since self.old) (left_since self.new) (images self.new) }
        ensures ticks { OnOk result (IsTrue tells → moment self.old < moment self.new) }
        ensures cause { HasCause (faults self.old) (faults self.new) result };

    /// Cuts the file to `len` bytes, which are at most its length. A cut that fails leaves the old
    /// length or the new.
    fn cut(&mut self, file: u32, len: u64) -> Result<(), Failed>
        requires file { file < 16 }
        requires within { IsTrue tells → len ≤ length (seen self.old file) }
        ensures shorter { OnOk result
            (IsTrue tells → OnFile file (Cut len) (seen self.old) (seen self.new)) }
        ensures either { OnErr result (IsTrue tells
            → (seen self.new ≡ seen self.old)
            ⊎ OnFile file (Cut len) (seen self.old) (seen self.new)) }
        ensures crash { IsTrue tells
            → Follows (OnFile file (Shortened len)) (images self.old) (images self.new) }
        ensures time { IsTrue tells → Elapses (moment self.old) (moment self.new)
            (left_since self.old) (left_since self.new) (images self.new) }
        ensures ticks { OnOk result (IsTrue tells → moment self.old < moment self.new) }
        ensures cause { HasCause (faults self.old) (faults self.new) result };

    /// Makes durable all that was written and cut. A sync that fails leaves what was pending as it
    /// was.
    fn sync(&mut self) -> Result<(), Failed>
        ensures seen { IsTrue tells → seen self.new ≡ seen self.old }
        ensures durable { OnOk result (IsTrue tells → Only (seen self.new) (images self.new)) }
        ensures pending { OnErr result (IsTrue tells → Within (images self.new) (images self.old)) }
        ensures crash { IsTrue tells → Within (images self.old) (images self.new) }
        ensures time { IsTrue tells → Elapses (moment self.old) (moment self.new)
            (left_since self.old) (left_since self.new) (images self.new) }
        ensures ticks { OnOk result (IsTrue tells → moment self.old < moment self.new) }
        ensures cause { HasCause (faults self.old) (faults self.new) result };

    /// The count of faults, which never falls.
    fn faults(&self) -> u64
        ensures { result ≡ faults self.now };

    /// The device as it reads is one of its images.
    ghost seen_may_stay: { (disk : Self) → IsTrue tells → images disk (seen disk) };

    /// This moment counts.
    ghost counts_now: { (disk : Self) (t : ℕ) (c : Files) → IsTrue tells → t ≤ moment disk
        → images disk c → left_since disk t c };

    /// Since this moment, a crash leaves what it may leave now.
    ghost only_now: { (disk : Self) (c : Files) → IsTrue tells
        → left_since disk (moment disk) c → images disk c };
}
