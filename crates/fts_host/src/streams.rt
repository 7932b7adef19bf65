ghost use Rattle.std.specs.Prelude.{◌≡◌, ◌<◌, ◌≤◌, [], false, length, IfOk, IsSome};

use crate::faults::Faults;
use crate::refusal::Refusal;
use fts_faults::Failed;
use fts_io::{Sink, Source};
use std::io;
use std::io::{ErrorKind, Read, Stdin, Stdout, Write};

/// A source over a reader of std, as standard input.
///
/// A read is one call of the system, for as many bytes as the buffer takes. One that a signal
/// interrupts is made again. Any other error of the system is a fault.
#[derive(Drop)]
pub struct StdSource<I = Stdin> {
    reader: I,
    faults: Faults<io::Error>,
}

impl<I> StdSource<I> {
    ghost use Rattle.fts_host.specs.Host.{source_faults};

    /// A source that reads from here, with no faults. It reads nothing yet.
    pub fn new(reader: I) -> StdSource<I>
        ensures { source_faults result ≡ 0 }
    {
        StdSource {
            reader,
            faults: Faults::none(),
        }
    }

    /// The first call that failed, of those that were counted.
    pub fn refusal(&self) -> Option<Refusal<'_>>
        ensures { 0 < source_faults self.now → IsSome result }
    {
        match self.faults.first {
            Some(error) => Some(Refusal {
                what: "standard input",
                error,
            }),
            None => None,
        }
    }
}

impl<I: Read> Source for StdSource<I> {
    ghost use Rattle.fts_host.specs.Host.{source_faults};

    ghost tells = { false };

    ghost left = { λ _. [] };

    ghost faults = { λ source. source_faults source };

    fn read(&mut self, buf: &mut [u8]) -> Result<usize, Failed> {
        let count = read_some(&mut self.reader, buf);
        self.faults.counted(count)
    }
}

/// A sink over a writer of std, as standard output.
///
/// A write is one call of the system with the whole piece, of which it may take a part. One that a
/// signal interrupts is made again. Any other error of the system is a fault, and so is a call that
/// takes nothing.
#[derive(Drop)]
pub struct StdSink<O = Stdout> {
    writer: O,
    faults: Faults<io::Error>,
}

impl<O> StdSink<O> {
    ghost use Rattle.fts_host.specs.Host.{sink_faults};

    /// A sink that writes here, with no faults. It writes nothing yet.
    pub fn new(writer: O) -> StdSink<O>
        ensures { sink_faults result ≡ 0 }
    {
        StdSink {
            writer,
            faults: Faults::none(),
        }
    }

    /// The first call that failed, of those that were counted.
    pub fn refusal(&self) -> Option<Refusal<'_>>
        ensures { 0 < sink_faults self.now → IsSome result }
    {
        match self.faults.first {
            Some(error) => Some(Refusal {
                what: "standard output",
                error,
            }),
            None => None,
        }
    }
}

impl<O: Write> Sink for StdSink<O> {
    ghost use Rattle.fts_host.specs.Host.{sink_faults};

    ghost tells = { false };

    ghost holds = { λ _. [] };

    ghost faults = { λ sink. sink_faults sink };

    fn write(&mut self, bytes: &[u8]) -> Result<usize, Failed> {
        let count = write_some(&mut self.writer, bytes);
        self.faults.counted(count)
    }
}

// One read that no signal interrupts.
fn read_some<I: Read>(reader: &mut I, buf: &mut [u8]) -> io::Result<usize>
    ensures { IfOk result (λ n. n ≤ length buf.new) }
{
    for _ in 0..u64::MAX {
        match reader.read(buf) {
            Err(e) if e.kind() == ErrorKind::Interrupted => {}
            answer => return answer,
        }
    }
    Err(io::Error::from(ErrorKind::Interrupted))
}

// One write that no signal interrupts, and that takes something.
fn write_some<O: Write>(writer: &mut O, bytes: &[u8]) -> io::Result<usize>
    ensures bound { IfOk result (λ n. n ≤ length bytes.now) }
    ensures some { IfOk result (λ n. 0 < n) }
{
    for _ in 0..u64::MAX {
        match writer.write(bytes) {
            Err(e) if e.kind() == ErrorKind::Interrupted => {}
            Ok(0) => return Err(io::Error::from(ErrorKind::WriteZero)),
            answer => return answer,
        }
    }
    Err(io::Error::from(ErrorKind::Interrupted))
}
