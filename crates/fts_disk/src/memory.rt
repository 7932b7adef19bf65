ghost use Rattle.std.specs.Prelude.{◌≡◌, ◌⊎◌, ◌+◌, ◌^◌, ◌<◌, ◌≤◌, ◌↔◌, [], true};
ghost use Rattle.std.specs.Prelude.{length, replicate, take, drop, IsTrue, IfOk, OnOk, OnErr};
ghost use Rattle.std.specs.Prelude.{IsErr};
ghost use Rattle.fts_disk.specs.Device.{Files, OnFile, Written, Cut, Torn, Shortened};
ghost use Rattle.fts_disk.specs.Crash.{Within, Follows, Only, Elapses};
ghost use Rattle.fts_disk.specs.Contents.{contents};
ghost use Rattle.fts_faults.specs.Count.{HasCause};

mod pick;
mod recorded;

use crate::{Disk, Failed};
use pick::image_in;
use recorded::Recorded;
use std::alloc::{AllocError, Global};

/// A kind of call, by which a list of failing calls names them.
#[derive(Clone, Copy, Debug, PartialEq, Eq)]
pub enum Kind {
    Len,
    Read,
    Write,
    Cut,
    Sync,
}

/// A call that a `MemDisk` answered. `done` says that it answered `Ok`; else the list of failing
/// calls named it.
#[derive(Debug, Drop, PartialEq, Eq)]
pub enum Call {
    Len {
        file: u32,
        done: bool,
    },
    Read {
        file: u32,
        at: u64,
        length: usize,
        done: bool,
    },
    Write {
        file: u32,
        at: u64,
        bytes: Vec<u8>,
        done: bool,
    },
    Cut {
        file: u32,
        len: u64,
        done: bool,
    },
    Sync {
        done: bool,
    },
}

// The calls so far by their kinds, which of them fail, and the faults.
#[derive(Debug, Drop)]
struct Counters {
    fails: Vec<(Kind, u64)>,
    made: [u64; 5],
    faults: u64,
    refused: u64,
}

/// A device in memory, which tells its content and keeps a record of its calls.
///
/// A list names the calls that fail, by their kind and by their number among the calls of this
/// kind, from 1. Such a call is a fault, and changes nothing. So is a call for which the disk finds
/// no memory.
#[derive(Debug, Drop)]
pub struct MemDisk {
    recorded: Recorded,
    counters: Counters,
}

impl Counters {
    ghost use Rattle.fts_disk.specs.Memory.{IsNamed, next_count, one_more};

    // Counts a call, and returns whether the list names it.
    fn is_named(&mut self, kind: Kind) -> bool
        ensures named { IsTrue result ↔ IsNamed kind self.old.fails.items self.old.made }
        ensures counted { self.new.made ≡ one_more kind self.old.made }
        ensures list { self.new.fails ≡ self.old.fails }
        ensures faults { self.new.faults ≡ self.old.faults }
        ensures refused { self.new.refused ≡ self.old.refused }
    {
        let place = kind as usize;
        let number = self.made[place].saturating_add(1);
        self.made[place] = number;
        self.fails.contains(&(kind, number))
    }

    // Answers a call: it failed if it was named, or if it found no memory.
    fn settle(&mut self, named: bool, outcome: Result<(), AllocError>) -> Result<(), Failed>
        ensures failed { IsErr result ↔ (IsTrue named ⊎ IsErr outcome) }
        ensures kept { OnOk result (self.new ≡ self.old) }
        ensures fault { OnErr result (self.new.faults ≡ next_count self.old.faults) }
        ensures cause { HasCause self.old.faults self.new.faults result }
        ensures refused { OnErr outcome (self.new.refused ≡ next_count self.old.refused) }
        ensures not_refused { OnOk outcome (self.new.refused ≡ self.old.refused) }
        ensures list { self.new.fails ≡ self.old.fails }
        ensures made { self.new.made ≡ self.old.made }
    {
        if outcome.is_err() {
            self.refused = self.refused.saturating_add(1);
        } else if !named {
            return Ok(());
        }
        self.faults = self.faults.saturating_add(1);
        Err(Failed)
    }
}

impl MemDisk {
    ghost use Rattle.fts_disk.specs.Memory.{mem_files, mem_first, mem_calls, mem_fails, mem_made};
    ghost use Rattle.fts_disk.specs.Memory.{mem_faults, mem_refused, IsNamed, one_more};
    ghost use Rattle.fts_disk.specs.Replay.{IsLeftIn};

    /// A device with these files, from file 0 on, and with the calls that fail. It has no calls and
    /// no faults.
    pub fn from_files(
        alloc: Global,
        files: Vec<Vec<u8>>,
        fails: Vec<(Kind, u64)>,
    ) -> Result<MemDisk, AllocError>
        ensures files { IfOk result (λ disk. mem_files disk ≡ contents files.items) }
        ensures first { IfOk result (λ disk. mem_first disk ≡ contents files.items) }
        ensures calls { IfOk result (λ disk. mem_calls disk ≡ []) }
        ensures fails { IfOk result (λ disk. mem_fails disk ≡ fails.items) }
        ensures made { IfOk result (λ disk. mem_made disk ≡ replicate 5 0) }
        ensures faults { IfOk result (λ disk. mem_faults disk ≡ 0) }
        ensures refused { IfOk result (λ disk. mem_refused disk ≡ 0) }
    {
        let recorded = Recorded::from_files(alloc, files)?;
        let counters = Counters {
            fails,
            made: [0; 5],
            faults: 0,
            refused: 0,
        };
        Ok(MemDisk { recorded, counters })
    }

    /// The bytes of a file.
    pub fn file(&self, file: u32) -> &[u8]
        requires { file < 16 }
        ensures { result.now ≡ mem_files self.now file }
    {
        self.recorded.bytes(file)
    }

    /// The calls that it answered, in their order. One for which it found no memory does not stand
    /// here.
    pub fn calls(&self) -> &[Call]
        ensures { result.now ≡ mem_calls self.now }
    {
        &self.recorded.calls
    }

    /// The disk as a stop in the call of this place in the record may leave it, from 0, with no
    /// calls that fail.
    ///
    /// A number chooses. Each write and cut since the last sync that was done takes a digit of it
    /// to the base 16, the lowest first. The digit's remainder by 4 says how much of the call was
    /// done: nothing, half of its bytes, all but one, or all. Its quotient by 4 says what stands in
    /// the rest of a write's range: what stood there, zeros, ones or `ff`. A stop in a sync leaves
    /// what was pending before it.
    pub fn pick_image(&self, call: usize, choice: u64) -> Result<MemDisk, AllocError>
        requires { call < length (mem_calls self.now) }
        ensures image { IfOk result
            (λ disk. IsLeftIn call (mem_calls self.now) (mem_first self.now) (mem_files disk)) }
        ensures durable { IfOk result (λ disk. mem_first disk ≡ mem_files disk) }
        ensures calls { IfOk result (λ disk. mem_calls disk ≡ []) }
        ensures fails { IfOk result (λ disk. mem_fails disk ≡ []) }
        ensures faults { IfOk result (λ disk. mem_faults disk ≡ 0) }
    {
        let recorded = &self.recorded;
        let alloc = recorded.alloc;
        let image = image_in(alloc, &recorded.first, &recorded.calls, call, choice)?;
        MemDisk::from_files(alloc, image, Vec::new(alloc))
    }

    /// How often it found no memory for a call.
    pub fn refused(&self) -> u64
        ensures { result ≡ mem_refused self.now }
    {
        self.counters.refused
    }
}

impl Disk for MemDisk {
    ghost use Rattle.fts_disk.specs.Memory.{mem_files, mem_images, mem_moment, mem_left_since};
    ghost use Rattle.fts_disk.specs.Memory.{mem_fails, mem_made, mem_faults, mem_refused, IsNamed};
    ghost use Rattle.fts_disk.specs.Memory.{AnswersCall};
    ghost use Rattle.fts_disk.specs.Replay.{IsLenOf, IsReadOf, IsWriteOf, IsCutOf, IsSyncOf};
    ghost use Rattle.fts_disk.specs.ReplayLaws.{seen_stays, left_now, left_only_now};

    ghost tells = { true };

    ghost seen = { λ disk. mem_files disk };

    ghost images = { λ disk. mem_images disk };

    ghost moment = { λ disk. mem_moment disk };

    ghost left_since = { λ disk. mem_left_since disk };

    ghost faults = { λ disk. mem_faults disk };

    fn len(&mut self, file: u32) -> Result<u64, Failed>
        requires { file < 16 }
        ensures small { IfOk result (λ n. n < 2 ^ 63) }
        ensures length { IfOk result (λ n. n ≡ length (mem_files self.old file)) }
        ensures seen { mem_files self.new ≡ mem_files self.old }
        ensures crash { Within (mem_images self.old) (mem_images self.new) }
        ensures time { Elapses (mem_moment self.old) (mem_moment self.new)
            (mem_left_since self.old) (mem_left_since self.new) (mem_images self.new) }
        ensures ticks { OnOk result (mem_moment self.old < mem_moment self.new) }
        ensures cause { HasCause (mem_faults self.old) (mem_faults self.new) result }
        ensures answers { AnswersCall Kind.Len (IsLenOf file) self.old self.new result }
    {
        let named = self.counters.is_named(Kind::Len);
        let noted = self.recorded.note(Call::Len { file, done: !named });
        self.counters.settle(named, noted)?;
        Ok(self.recorded.bytes(file).len() as u64)
    }

    fn read_at(&mut self, file: u32, at: u64, buf: &mut [u8]) -> Result<(), Failed>
        requires file { file < 16 }
        requires within { at + length buf.old ≤ length (mem_files self.old file) }
        ensures bytes { OnOk result
            (buf.new ≡ take (length buf.old) (drop at (mem_files self.old file))) }
        ensures seen { mem_files self.new ≡ mem_files self.old }
        ensures crash { Within (mem_images self.old) (mem_images self.new) }
        ensures time { Elapses (mem_moment self.old) (mem_moment self.new)
            (mem_left_since self.old) (mem_left_since self.new) (mem_images self.new) }
        ensures ticks { OnOk result (mem_moment self.old < mem_moment self.new) }
        ensures cause { HasCause (mem_faults self.old) (mem_faults self.new) result }
        ensures answers { AnswersCall Kind.Read (IsReadOf file at (length buf.old))
            self.old self.new result }
    {
        let named = self.counters.is_named(Kind::Read);
        let noted = self.recorded.note(Call::Read {
            file,
            at,
            length: buf.len(),
            done: !named,
        });
        self.counters.settle(named, noted)?;
        let start = at as usize;
        buf.copy_from_slice(&self.recorded.bytes(file)[start..start + buf.len()]);
        Ok(())
    }

    fn write_at(&mut self, file: u32, at: u64, bytes: &[u8]) -> Result<(), Failed>
        requires file { file < 16 }
        requires within { at ≤ length (mem_files self.old file) }
        ensures written { OnOk result
            (OnFile file (Written at bytes.now) (mem_files self.old) (mem_files self.new)) }
        ensures torn { OnErr result
            (OnFile file (Torn at (length bytes.now)) (mem_files self.old) (mem_files self.new)) }
        ensures kept { OnErr result (mem_files self.new ≡ mem_files self.old) }
        ensures crash { Follows (OnFile file (Torn at (length bytes.now)))
            (mem_images self.old) (mem_images self.new) }
        ensures time { Elapses (mem_moment self.old) (mem_moment self.new)
            (mem_left_since self.old) (mem_left_since self.new) (mem_images self.new) }
        ensures ticks { OnOk result (mem_moment self.old < mem_moment self.new) }
        ensures cause { HasCause (mem_faults self.old) (mem_faults self.new) result }
        ensures answers { AnswersCall Kind.Write (IsWriteOf file at bytes.now) self.old self.new
            result }
    {
        let named = self.counters.is_named(Kind::Write);
        let written = self.recorded.write(file, at, bytes, !named);
        self.counters.settle(named, written)
    }

    fn cut(&mut self, file: u32, len: u64) -> Result<(), Failed>
        requires file { file < 16 }
        requires within { len ≤ length (mem_files self.old file) }
        ensures shorter { OnOk result
            (OnFile file (Cut len) (mem_files self.old) (mem_files self.new)) }
        ensures either { OnErr result ((mem_files self.new ≡ mem_files self.old)
            ⊎ OnFile file (Cut len) (mem_files self.old) (mem_files self.new)) }
        ensures kept { OnErr result (mem_files self.new ≡ mem_files self.old) }
        ensures crash { Follows (OnFile file (Shortened len)) (mem_images self.old)
            (mem_images self.new) }
        ensures time { Elapses (mem_moment self.old) (mem_moment self.new)
            (mem_left_since self.old) (mem_left_since self.new) (mem_images self.new) }
        ensures ticks { OnOk result (mem_moment self.old < mem_moment self.new) }
        ensures cause { HasCause (mem_faults self.old) (mem_faults self.new) result }
        ensures answers { AnswersCall Kind.Cut (IsCutOf file len) self.old self.new result }
    {
        let named = self.counters.is_named(Kind::Cut);
        let shortened = self.recorded.cut(file, len, !named);
        self.counters.settle(named, shortened)
    }

    fn sync(&mut self) -> Result<(), Failed>
        ensures seen { mem_files self.new ≡ mem_files self.old }
        ensures durable { OnOk result (Only (mem_files self.new) (mem_images self.new)) }
        ensures pending { OnErr result (Within (mem_images self.new) (mem_images self.old)) }
        ensures crash { Within (mem_images self.old) (mem_images self.new) }
        ensures time { Elapses (mem_moment self.old) (mem_moment self.new)
            (mem_left_since self.old) (mem_left_since self.new) (mem_images self.new) }
        ensures ticks { OnOk result (mem_moment self.old < mem_moment self.new) }
        ensures cause { HasCause (mem_faults self.old) (mem_faults self.new) result }
        ensures answers { AnswersCall Kind.Sync IsSyncOf self.old self.new result }
    {
        let named = self.counters.is_named(Kind::Sync);
        let noted = self.recorded.sync(!named);
        self.counters.settle(named, noted)
    }

    fn faults(&self) -> u64 {
        self.counters.faults
    }

    ghost seen_may_stay = { λ disk told. seen_stays disk };

    ghost counts_now = { λ disk t c told. left_now disk t c };

    ghost only_now = { λ disk c told. left_only_now disk c };
}
