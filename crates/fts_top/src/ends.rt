//! How the parts of a call end. Each end has its status.
ghost use Rattle.std.specs.Prelude.{◌≡◌};
ghost use Rattle.fts_top.specs.Ends.{halt_of_unsent, status_of_create};
ghost use Rattle.fts_top.specs.Ends.{end_of_unread, end_of_ungrouped};
ghost use Rattle.fts_top.specs.Ends.{status_of_opening, status_of_run};
ghost use Rattle.fts_top.specs.Generated.{status_of_gen as the_status_of_gen};
ghost use Rattle.fts_top.specs.Health.{end_of as the_end_of};

use crate::Status;
use fts_engine::{CreateError, OpenError};
use fts_script::{GroupError, ScriptError};
use fts_workers::Health;

/// How the execution of a script ends.
#[derive(Clone, Copy, Debug, PartialEq, Eq)]
pub enum RunEnd {
    /// The script was read to its end, and no line was refused and no batch ended by a fault or for
    /// want of memory.
    Done,
    /// The script was read to its end. A line or a batch met want of memory, and none a fault.
    ShortOfMemory,
    /// The script was read to its end. A device failed at a line, or in a batch behind its reply.
    DiskFault,
    /// Memory ran out for the bytes of a line or of a reply.
    NoMemory,
    /// The source of the script failed.
    ReadFault,
    /// The sink of the replies failed.
    WriteFault,
    /// The script has more than 2^40 bytes. `lines` and `bytes` were taken.
    ScriptTooLong { lines: u64, bytes: u64 },
    /// A line was the first of a 17th session, which has this number.
    TooManySessions { session: u32 },
}

/// Why no more lines are executed.
#[derive(Clone, Copy, Debug, PartialEq, Eq)]
pub enum Halt {
    /// There are no more.
    End,
    /// Memory ran out for the bytes of a line or of a reply.
    NoMemory,
    /// The source failed.
    ReadFault,
    /// The sink failed.
    WriteFault,
    /// The script has more than 2^40 bytes. `lines` and `bytes` were taken.
    TooLong { lines: u64, bytes: u64 },
    /// A line is the first of a 17th session, which has this number.
    TooManySessions { session: u32 },
}

impl Halt {
    /// The end of a script whose lines met this.
    pub fn end_of(self, met: Health) -> RunEnd
        ensures { result ≡ the_end_of self met }
    {
        match self {
            Halt::End => match met {
                Health::Sound => RunEnd::Done,
                Health::Short => RunEnd::ShortOfMemory,
                Health::Failed => RunEnd::DiskFault,
            },
            Halt::NoMemory => RunEnd::NoMemory,
            Halt::ReadFault => RunEnd::ReadFault,
            Halt::WriteFault => RunEnd::WriteFault,
            Halt::TooLong { lines, bytes } => RunEnd::ScriptTooLong { lines, bytes },
            Halt::TooManySessions { session } => RunEnd::TooManySessions { session },
        }
    }
}

/// How `create` ends.
#[derive(Clone, Copy, Debug, PartialEq, Eq)]
pub enum CreateEnd {
    /// The database stands, and its text was written.
    Done,
    /// Memory ran out.
    NoMemory,
    /// A database stood there before.
    AlreadyCreated,
    /// The sink failed. The database stands.
    WriteFault,
    /// The device failed.
    DiskFault,
}

/// Why a reply was not written whole.
#[derive(Clone, Copy, Debug, PartialEq, Eq)]
pub enum Unsent {
    /// Memory ran out, and nothing of it was written.
    NoMemory,
    /// The sink failed.
    WriteFault,
}

impl From<Unsent> for Halt {
    ghost from_gives = { λ unsent halt. halt ≡ halt_of_unsent unsent };

    fn from(unsent: Unsent) -> Self {
        match unsent {
            Unsent::NoMemory => Halt::NoMemory,
            Unsent::WriteFault => Halt::WriteFault,
        }
    }
}

impl From<ScriptError> for RunEnd {
    ghost from_gives = { λ error end. end ≡ end_of_unread error };

    fn from(error: ScriptError) -> Self {
        match error {
            ScriptError::NoMemory => RunEnd::NoMemory,
            ScriptError::ReadFault => RunEnd::ReadFault,
            ScriptError::ScriptTooLong { lines, bytes } => RunEnd::ScriptTooLong { lines, bytes },
        }
    }
}

impl From<GroupError> for RunEnd {
    ghost from_gives = { λ error end. end ≡ end_of_ungrouped error };

    fn from(error: GroupError) -> Self {
        match error {
            GroupError::NoMemory => RunEnd::NoMemory,
            GroupError::TooManySessions { session } => RunEnd::TooManySessions { session },
        }
    }
}

/// The status of how a generated script ends.
pub fn status_of_gen(end: Result<Health, Unsent>) -> Status
    ensures { result ≡ the_status_of_gen end }
{
    match end {
        Ok(Health::Sound) => Status::Done,
        Ok(Health::Short) => Status::NoMemory,
        Ok(Health::Failed) => Status::DiskFault,
        Err(Unsent::NoMemory) => Status::NoMemory,
        Err(Unsent::WriteFault) => Status::WriteFault,
    }
}

impl From<RunEnd> for Status {
    ghost from_gives = { λ end status. status ≡ status_of_run end };

    fn from(end: RunEnd) -> Self {
        match end {
            RunEnd::Done => Status::Done,
            RunEnd::ShortOfMemory => Status::NoMemory,
            RunEnd::NoMemory => Status::NoMemory,
            RunEnd::ReadFault => Status::ReadFault,
            RunEnd::WriteFault => Status::WriteFault,
            RunEnd::DiskFault => Status::DiskFault,
            RunEnd::ScriptTooLong { lines, bytes } => Status::ScriptTooLong { lines, bytes },
            RunEnd::TooManySessions { session } => Status::TooManySessions { session },
        }
    }
}

impl From<CreateEnd> for Status {
    ghost from_gives = { λ end status. status ≡ status_of_create end };

    fn from(end: CreateEnd) -> Self {
        match end {
            CreateEnd::Done => Status::Done,
            CreateEnd::NoMemory => Status::NoMemory,
            CreateEnd::AlreadyCreated => Status::AlreadyCreated,
            CreateEnd::WriteFault => Status::WriteFault,
            CreateEnd::DiskFault => Status::DiskFault,
        }
    }
}

impl From<OpenError> for Status {
    ghost from_gives = { λ error status. status ≡ status_of_opening error };

    fn from(error: OpenError) -> Self {
        match error {
            OpenError::NoMemory => Status::NoMemory,
            OpenError::NotCreated => Status::NotCreated,
            OpenError::Damaged { device, file, at } => Status::Damaged { device, file, at },
            OpenError::DiskFault => Status::DiskFault,
        }
    }
}
