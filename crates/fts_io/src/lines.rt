ghost use Rattle.std.specs.Prelude.{◌≡◌, ◌++◌, ◌∷◌, ◌+◌, ◌-◌, ◌*◌, ◌^◌, ◌<◌, ◌≤◌, ◌⊎◌, ℕ};
ghost use Rattle.std.specs.Prelude.{List, [], length, take, min, vec_len, IsTrue, IfOk, OnOk};
ghost use Rattle.std.specs.Prelude.{OnErr, max};
ghost use Rattle.fts_faults.specs.Count.{CountsFault};

use crate::buffer::{Buffer, READ_SIZE};
use crate::source::Source;
use fts_faults::Failed;
use memchr::memchr;
use std::alloc::{AllocError, Global};
use std::{fmt, mem};

/// How many bytes a line has at most, without its LF.
pub const LONGEST_LINE: usize = 1_048_576;

/// How many bytes a text has at most.
pub const LONGEST_TEXT: u64 = 1_099_511_627_776;

const LINE_FEED: u8 = 10;

/// What a reader of lines answers.
#[derive(Drop, Debug)]
pub enum Next {
    /// The next line, without its LF.
    Line(Vec<u8>),
    /// There is no line left.
    End,
    /// The next line is longer than `LONGEST_LINE` bytes, and was skipped. Lines are numbered from
    /// 1.
    TooLong { line: u64 },
    /// The source has more than `LONGEST_TEXT` bytes. `bytes` were taken.
    Endless { bytes: u64 },
    /// The source failed.
    ReadFault,
    /// No memory is left.
    NoMemory,
}

impl fmt::Display for Next {
    fn fmt<W: fmt::Write>(&self, f: &mut fmt::Formatter<W>) -> fmt::Result {
        match self {
            Next::Line(bytes) => write!(f, "a line of {} bytes", bytes.len()),
            Next::End => f.write_str("end of the text"),
            Next::TooLong { line } => write!(f, "line {line} is too long"),
            Next::Endless { bytes } => write!(f, "the text is too long, after {bytes} bytes"),
            Next::ReadFault => f.write_str("the source failed"),
            Next::NoMemory => f.write_str("out of memory"),
        }
    }
}

/// What the buffer has after it was filled.
enum Filled {
    Bytes,
    Dry,
    Endless,
    Fault,
}

/// A reader of lines. It takes bytes of a source in large pieces and gives them line by line.
///
/// A line ends at an LF or at the end of the text. The reader belongs to one source, which is
/// handed in at each call. After an answer that isn't a line the bytes taken are kept, and the next
/// call goes on with them.
#[derive(Drop)]
pub struct Lines {
    /// The bytes of the line that was begun, and one byte more than the limit at most.
    line: Vec<u8>,
    buffer: Buffer,
    taken: u64,
    given: u64,
    ghost short: { vec_len line ≤ 1048577 },
    ghost within: { taken ≤ 2 ^ 40 + 1 },
    ghost past: { 2 ^ 40 < taken → length buffer ≡ 1 },
    ghost counted: { given + length buffer + min 1 (vec_len line) ≤ taken },
}

impl Lines {
    ghost use Rattle.fts_io.specs.Text.{Line, lines_of, sorted, feeds};
    ghost use Rattle.fts_io.specs.Reading.{Accounts, Counts, Gives, HasFilled, IsEndless, IsLine};
    ghost use Rattle.fts_io.specs.Reading.{Measures, OnlyBegun, TakesPiece, ahead, given_by, Ends};
    ghost use Rattle.fts_io.specs.Reading.{ended_ahead, taken_by, work_left};

    /// A reader that has taken nothing yet.
    pub fn new(alloc: Global) -> Result<Lines, AllocError>
        ensures lines { IfOk result (λ lines. (left : List ℕ) → ahead lines left ≡ lines_of left) }
        ensures ended { IfOk result
            (λ lines. (left : List ℕ) → ended_ahead lines left ≡ feeds left) }
        ensures taken { IfOk result (λ lines. taken_by lines ≡ 0) }
        ensures given { IfOk result (λ lines. given_by lines ≡ 0) }
    {
        Ok(Lines {
            line: Vec::new(alloc),
            buffer: Buffer::new(alloc)?,
            taken: 0,
            given: 0,
        })
    }

    /// The next line, without its LF. The last line may end without one.
    pub fn next_line<S: Source>(&mut self, source: &mut S) -> Next
        // The lines come in order, and an answer that is no line leaves those that are to come.
        ensures lines { IsTrue S.tells
            → Gives result (ahead self.old (S.left source.old))
            (ahead self.new (S.left source.new)) }
        ensures end { IsTrue S.tells → result ≡ Next.End → S.left source.new ≡ [] }
        ensures ends { IsTrue S.tells → Ends result (ahead self.new (S.left source.new))
            (ended_ahead self.old (S.left source.old))
            (ended_ahead self.new (S.left source.new)) }

        // Each byte that left the source was taken, and Endless comes exactly where more than 2^40
        // were.
        ensures counts { IsTrue S.tells
            → taken_by self.new + length (S.left source.new)
            ≡ taken_by self.old + length (S.left source.old) }
        ensures accounts { Accounts result self.old self.new }

        // Where the reading stops, all whole lines before were given.
        ensures read_dry { IsTrue S.tells → result ≡ Next.ReadFault
            → OnlyBegun (ahead self.new (S.left source.new))
            (ended_ahead self.new (S.left source.new)) (S.left source.new) }
        ensures endless_dry { IsTrue S.tells → (bytes : ℕ) → IsEndless result bytes
            → (byte : ℕ) × OnlyBegun (ahead self.new (S.left source.new))
            (ended_ahead self.new (S.left source.new)) (byte ∷ S.left source.new) }

        ensures faults { CountsFault (result ≡ Next.ReadFault) (S.faults source.old)
            (S.faults source.new) }
    {
        loop {
            match self.fill(source) {
                Filled::Bytes => {}
                Filled::Dry => return self.last_line(),
                Filled::Endless => return Next::Endless { bytes: self.taken },
                Filled::Fault => return Next::ReadFault,
            }
            match self.take_piece() {
                Ok(true) => return self.whole_line(),
                Ok(false) => {}
                Err(AllocError) => return Next::NoMemory,
            }
        }
    }

    /// How many lines were given, the ones too long too.
    pub fn given(&self) -> u64
        ensures { result ≡ given_by self.now }
    {
        self.given
    }

    /// How many bytes were taken from the source, those that are not looked at yet too.
    pub fn taken(&self) -> u64
        ensures { result ≡ taken_by self.now }
    {
        self.taken
    }

    /// Reads into the buffer where it is empty.
    fn fill<S: Source>(&mut self, source: &mut S) -> Filled
        ensures filled { HasFilled result self.new }
        ensures dry { IsTrue S.tells → result ≡ Filled.Dry → S.left source.new ≡ [] }
        ensures moved { IsTrue S.tells
            → self.old.buffer ++ S.left source.old ≡ self.new.buffer ++ S.left source.new }
        ensures counts { IsTrue S.tells
            → taken_by self.new + length (S.left source.new)
            ≡ taken_by self.old + length (S.left source.old) }
        ensures line { self.new.line ≡ self.old.line }
        ensures given { self.new.given ≡ self.old.given }
        ensures work { work_left self.new ≤ work_left self.old }
        ensures faults { CountsFault (result ≡ Filled.Fault) (S.faults source.old)
            (S.faults source.new) }
    {
        if self.buffer.is_empty() {
            let wanted = self.wanted();
            match self.buffer.fill(source, wanted) {
                Ok(count) => self.taken += count as u64,
                Err(_) => return Filled::Fault,
            }
        }
        if self.taken > LONGEST_TEXT {
            Filled::Endless
        } else if self.buffer.is_empty() {
            Filled::Dry
        } else {
            Filled::Bytes
        }
    }

    /// How many bytes to ask for: none past the longest text, and then one, to see whether the text
    /// goes on.
    fn wanted(&self) -> usize
        ensures some { 0 < result }
        ensures room { result ≤ READ_SIZE }
        ensures within { self.now.taken + result ≤ max (2 ^ 40) (self.now.taken + 1) }
    {
        let left = LONGEST_TEXT.saturating_sub(self.taken).max(1);
        left.min(READ_SIZE as u64) as usize
    }

    /// Moves bytes of the buffer to the line, up to an LF or all of them. True means that the line
    /// is whole.
    fn take_piece(&mut self) -> Result<bool, AllocError>
        requires some { 0 < length self.old.buffer }
        requires within { self.old.taken ≤ 2 ^ 40 }
        ensures lines { (left : List ℕ)
            → IfOk result (λ is_whole. TakesPiece is_whole self.old self.new left) }
        ensures kept_line { OnErr result (self.new.line.items ≡ self.old.line.items) }
        ensures kept_buffer { OnErr result (self.new.buffer ≡ self.old.buffer) }
        ensures given { self.new.given ≡ self.old.given }
        ensures taken { self.new.taken ≡ self.old.taken }
        ensures shorter { OnOk result (length self.new.buffer < length self.old.buffer) }
    {
        let unread = self.buffer.unread();
        match memchr(LINE_FEED, unread) {
            Some(at) => {
                append_within(&mut self.line, &unread[..at])?;
                self.buffer.consume(at + 1);
                Ok(true)
            }
            None => {
                let count = unread.len();
                append_within(&mut self.line, unread)?;
                self.buffer.consume(count);
                Ok(false)
            }
        }
    }

    /// Gives the line that was begun, as a whole one.
    fn whole_line(&mut self) -> Next
        requires { self.old.given + length self.old.buffer + 1 ≤ self.old.taken }
        ensures gives { (lines : List Line)
            → Gives result (sorted self.old.line.items ∷ lines) lines }
        ensures numbers { Counts result (given_by self.old) (given_by self.new) }
        ensures is_line { IsLine result }
        ensures measures { self.old.taken ≤ 2 ^ 40 → Measures result self.old.taken }
        ensures empty { self.new.line.items ≡ [] }
        ensures buffer { self.new.buffer ≡ self.old.buffer }
        ensures taken { self.new.taken ≡ self.old.taken }
    {
        self.given += 1;
        if self.line.len() > LONGEST_LINE {
            self.line.clear();
            return Next::TooLong { line: self.given };
        }
        let alloc = *self.line.allocator();
        Next::Line(mem::replace(&mut self.line, Vec::new(alloc)))
    }

    /// The line that ends with the text, if one was begun.
    fn last_line(&mut self) -> Next
        requires { self.old.buffer ≡ [] }
        ensures gives { Gives result (ahead self.old []) (ahead self.new []) }
        ensures numbers { Counts result (given_by self.old) (given_by self.new) }
        ensures answers { (result ≡ Next.End) ⊎ IsLine result }
        ensures measures { self.old.taken ≤ 2 ^ 40 → Measures result self.old.taken }
        ensures buffer { self.new.buffer ≡ [] }
        ensures taken { self.new.taken ≡ self.old.taken }
        ensures progress { IsLine result → work_left self.new < work_left self.old }
    {
        if self.line.is_empty() {
            Next::End
        } else {
            self.whole_line()
        }
    }
}

/// Appends the piece to the line begun, and keeps no more than one byte above the limit.
fn append_within(line: &mut Vec<u8>, piece: &[u8]) -> Result<(), AllocError>
    requires { vec_len line.old ≤ 1048577 }
    ensures appends { OnOk result (line.new.items ≡ take 1048577 (line.old.items ++ piece.now)) }
    ensures short { OnOk result (vec_len line.new ≤ 1048577) }
    ensures kept { OnErr result (line.new.items ≡ line.old.items) }
{
    let room = LONGEST_LINE + 1 - line.len();
    line.extend_from_slice(&piece[..piece.len().min(room)])?;
    Ok(())
}
