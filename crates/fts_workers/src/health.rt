//! What steps met.
ghost use Rattle.std.specs.Prelude.{◌≡◌};
ghost use Rattle.fts_workers.specs.Health.{health_of as the_health_of, worse as the_worse};

use fts_schema::Reply;

/// What the lines of a script and the batches behind them met so far.
#[derive(Clone, Copy, Debug, PartialEq, Eq)]
pub enum Health {
    /// No want of memory, and no fault.
    Sound,
    /// Want of memory.
    Short,
    /// A fault of a device. That of a batch behind a reply is told at the end, by the status.
    Failed,
}

/// What a line met, by its reply.
pub fn health_of(reply: &Reply) -> Health
    ensures { result ≡ the_health_of reply.now }
{
    match reply {
        Reply::NoMemory => Health::Short,
        Reply::DiskFault => Health::Failed,
        _ => Health::Sound,
    }
}

impl Health {
    /// The worse of two: a fault, then want of memory.
    pub fn worse(self, other: Health) -> Health
        ensures { result ≡ the_worse self other }
    {
        match (self, other) {
            (Health::Failed, _) => Health::Failed,
            (Health::Short, Health::Failed) => Health::Failed,
            (Health::Short, _) => Health::Short,
            (Health::Sound, other) => other,
        }
    }
}
