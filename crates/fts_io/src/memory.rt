ghost use Rattle.std.specs.Prelude.{◌≡◌, ◌++◌, ◌≤◌, ◌<◌, ◌-◌, ◌^◌, min, true, [], length};
ghost use Rattle.std.specs.Prelude.{take, IfOk, OnErr};
ghost use Rattle.fts_faults.specs.Count.{HasCause};

use crate::calls::Calls;
use crate::sink::Sink;
use crate::source::Source;
use fts_faults::Failed;
use std::alloc::{AllocError, Global};

/// A source over bytes in memory. It can be told to fail at chosen calls, and to give few bytes a
/// call.
#[derive(Debug, Drop)]
pub struct MemSource {
    bytes: Vec<u8>,
    at: usize,
    most: usize,
    calls: Calls,
    ghost within: { at ≤ length bytes.items },
    ghost some: { 0 < most },
}

impl MemSource {
    ghost use Rattle.fts_io.specs.Memory.{IsFresh, bytes_left, most_given, source_calls};

    /// A source that has these bytes left. `fails` lists the numbers, from 1, of the reads that
    /// fail.
    pub fn new(bytes: Vec<u8>, fails: Vec<u64>) -> MemSource
        ensures most { most_given result ≡ 2 ^ 64 - 1 }
        ensures left { bytes_left result ≡ bytes.items }
        ensures calls { IsFresh fails.items (source_calls result) }
    {
        MemSource {
            bytes,
            at: 0,
            most: usize::MAX,
            calls: Calls::new(fails),
        }
    }

    /// The source, with at most `most` bytes a read from now on.
    pub fn giving(mut self, most: usize) -> MemSource
        requires { 0 < most }
        ensures most { most_given result ≡ most }
        ensures left { bytes_left result ≡ bytes_left self }
        ensures calls { source_calls result ≡ source_calls self }
    {
        self.most = most;
        self
    }

    /// How many faults there were.
    pub fn faults(&self) -> u64
        ensures { result ≡ (source_calls self.now).faults }
    {
        self.calls.faults()
    }

    /// How many of them came because no memory was found: none, since a read takes no memory.
    pub fn refused(&self) -> u64
        ensures { result ≡ (source_calls self.now).refused }
    {
        self.calls.refused()
    }
}

impl Source for MemSource {
    ghost use Rattle.fts_io.specs.Memory.{IsCounted, bytes_left, most_given, source_calls};

    ghost tells = { true };

    ghost left = { λ s. bytes_left s };

    ghost faults = { λ s. (source_calls s).faults };

    fn read(&mut self, buf: &mut [u8]) -> Result<usize, Failed>
        ensures bound { IfOk result (λ n. n ≤ length buf.new) }
        ensures takes { IfOk result
            (λ n. bytes_left self.old ≡ take n buf.new ++ bytes_left self.new) }
        ensures end { IfOk result (λ n. n ≡ 0 → 0 < length buf.new → bytes_left self.new ≡ []) }
        ensures kept { OnErr result (bytes_left self.new ≡ bytes_left self.old) }
        ensures cause { HasCause (source_calls self.old).faults (source_calls self.new).faults
            result }
        ensures counted { IsCounted (source_calls self.old) (source_calls self.new) result }
        ensures count { IfOk result
            (λ n. n ≡ min (min (length (bytes_left self.old)) (most_given self.old))
            (length buf.new)) }
        ensures most { most_given self.new ≡ most_given self.old }
    {
        self.calls.make()?;
        let left = &self.bytes[self.at..];
        let count = left.len().min(self.most).min(buf.len());
        buf[..count].copy_from_slice(&left[..count]);
        self.at += count;
        Ok(count)
    }
}

/// A sink into memory. It can be told to fail at chosen calls, and to take few bytes a call.
#[derive(Debug, Drop)]
pub struct MemSink {
    held: Vec<u8>,
    most: usize,
    calls: Calls,
    ghost some: { 0 < most },
}

impl MemSink {
    ghost use Rattle.fts_io.specs.Memory.{IsFresh, bytes_held, most_taken, sink_calls};

    /// A sink that holds nothing. `fails` lists the numbers, from 1, of the writes that fail.
    pub fn new(alloc: Global, fails: Vec<u64>) -> MemSink
        ensures most { most_taken result ≡ 2 ^ 64 - 1 }
        ensures holds { bytes_held result ≡ [] }
        ensures calls { IsFresh fails.items (sink_calls result) }
    {
        MemSink {
            held: Vec::new(alloc),
            most: usize::MAX,
            calls: Calls::new(fails),
        }
    }

    /// The sink, with at most `most` bytes a write from now on.
    pub fn taking(mut self, most: usize) -> MemSink
        requires { 0 < most }
        ensures most { most_taken result ≡ most }
        ensures holds { bytes_held result ≡ bytes_held self }
        ensures calls { sink_calls result ≡ sink_calls self }
    {
        self.most = most;
        self
    }

    /// The bytes that it holds.
    pub fn bytes(&self) -> &[u8]
        ensures { result.now ≡ bytes_held self.now }
    {
        &self.held
    }

    /// How many faults there were.
    pub fn faults(&self) -> u64
        ensures { result ≡ (sink_calls self.now).faults }
    {
        self.calls.faults()
    }

    /// How many of them came because no memory was found.
    pub fn refused(&self) -> u64
        ensures { result ≡ (sink_calls self.now).refused }
    {
        self.calls.refused()
    }
}

impl Sink for MemSink {
    ghost use Rattle.fts_io.specs.Memory.{IsCounted, bytes_held, most_taken, sink_calls};

    ghost tells = { true };

    ghost holds = { λ s. bytes_held s };

    ghost faults = { λ s. (sink_calls s).faults };

    fn write(&mut self, bytes: &[u8]) -> Result<usize, Failed>
        requires { 0 < length bytes.now }
        ensures bound { IfOk result (λ n. n ≤ length bytes.now) }
        ensures some { IfOk result (λ n. 0 < n) }
        ensures appends { IfOk result
            (λ n. bytes_held self.new ≡ bytes_held self.old ++ take n bytes.now) }
        ensures kept { OnErr result (bytes_held self.new ≡ bytes_held self.old) }
        ensures cause { HasCause (sink_calls self.old).faults (sink_calls self.new).faults result }
        ensures counted { IsCounted (sink_calls self.old) (sink_calls self.new) result }
        ensures count { IfOk result (λ n. n ≡ min (length bytes.now) (most_taken self.old)) }
        ensures most { most_taken self.new ≡ most_taken self.old }
    {
        self.calls.make()?;
        let count = bytes.len().min(self.most);
        match self.held.extend_from_slice(&bytes[..count]) {
            Ok(()) => Ok(count),
            Err(AllocError) => {
                self.calls.refuse();
                Err(Failed)
            }
        }
    }
}
