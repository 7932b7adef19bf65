ghost use Rattle.std.specs.Prelude.{◌≡◌, ◌++◌, ◌+◌, ◌<◌, ◌≤◌, ◌↔◌, ℕ, List, [], length, take, drop};
ghost use Rattle.std.specs.Prelude.{vec_len, IsTrue, IfOk, OnErr};
ghost use Rattle.fts_faults.specs.Count.{HasCause};
ghost use Rattle.fts_io.specs.declared.buffer.TheConstants.{READ_SIZE};

use crate::source::Source;
use fts_faults::Failed;
use std::alloc::{AllocError, Global};
use std::marker::Model;

/// How many bytes one read asks for at most.
pub const READ_SIZE: usize = 65_536;

/// Bytes that were read and not used yet. A contract sees them as a list.
#[derive(Drop)]
pub struct Buffer {
    bytes: Vec<u8>,
    at: usize,
    end: usize,
}

impl Model for Buffer {
    ghost Value = { List ℕ };

    ghost view = { λ b. drop b.at (take b.end b.bytes.items) };

    ghost invariant = { λ b. (b.at ≤ b.end) × (b.end ≤ READ_SIZE) × (vec_len b.bytes ≡ READ_SIZE) };
}

impl Buffer {
    pub fn new(alloc: Global) -> Result<Buffer, AllocError>
        ensures { IfOk result (λ buffer. buffer ≡ []) }
    {
        let bytes = vec![in alloc; 0u8; READ_SIZE]?;
        Ok(Buffer {
            bytes,
            at: 0,
            end: 0,
        })
    }

    pub fn is_empty(&self) -> bool
        ensures { IsTrue result ↔ (self.now ≡ []) }
    {
        self.at == self.end
    }

    /// The bytes that weren't used yet.
    pub fn unread(&self) -> &[u8]
        ensures { result.now ≡ self.now }
    {
        &self.bytes[self.at..self.end]
    }

    /// Uses the first `count` bytes.
    pub fn consume(&mut self, count: usize)
        requires { count ≤ length self.old }
        ensures rest { self.new ≡ drop count self.old }
        ensures length { length self.new + count ≡ length self.old }
    {
        self.at += count;
    }

    /// Reads at most `most` bytes into the empty buffer, and returns how many came. None means that
    /// none are left.
    pub fn fill<S: Source>(&mut self, source: &mut S, most: usize) -> Result<usize, Failed>
        requires empty { self.old ≡ [] }
        requires some { 0 < most }
        requires room { most ≤ READ_SIZE }
        ensures bound { IfOk result (λ n. n ≤ most) }
        ensures length { IfOk result (λ n. length self.new ≡ n) }
        ensures takes { IfOk result
            (λ _. IsTrue S.tells → S.left source.old ≡ self.new ++ S.left source.new) }
        ensures end { IfOk result (λ n. IsTrue S.tells → n ≡ 0 → S.left source.new ≡ []) }
        ensures empty { OnErr result (self.new ≡ []) }
        ensures kept { OnErr result (IsTrue S.tells → S.left source.new ≡ S.left source.old) }
        ensures cause { HasCause (S.faults source.old) (S.faults source.new) result }
    {
        self.at = 0;
        self.end = 0;
        let count = read_front(source, &mut self.bytes, most)?;
        self.end = count;
        Ok(count)
    }
}

/// Reads at most `most` bytes into the front of the slice.
fn read_front<S: Source>(source: &mut S, bytes: &mut [u8], most: usize) -> Result<usize, Failed>
    requires room { most ≤ length bytes.old }
    requires some { 0 < most }
    ensures bound { IfOk result (λ n. n ≤ most) }
    ensures takes { IfOk result (λ n. IsTrue S.tells
        → S.left source.old ≡ take n bytes.new ++ S.left source.new) }
    ensures end { IfOk result (λ n. IsTrue S.tells → n ≡ 0 → S.left source.new ≡ []) }
    ensures kept { OnErr result (IsTrue S.tells → S.left source.new ≡ S.left source.old) }
    ensures cause { HasCause (S.faults source.old) (S.faults source.new) result }
{
    source.read(&mut bytes[..most])
}
