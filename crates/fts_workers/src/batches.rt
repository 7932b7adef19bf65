//! Batches, while the index's cache is too large.
ghost use Rattle.std.specs.Prelude.{◌≡◌};
ghost use Rattle.fts_workers.specs.Batches.{MakesBatches, MakesRound, IsMetBehind, committed_by};

use crate::health::{Health, health_of};
use fts_schema::Reply;
use fts_sessions::EngineSteps;
use fts_steps::{IndexError, SyncBatch};

/// Makes the batches that follow a reply, and tells what they met: a fault of a device in one of
/// them too, which the status of the run tells at its end. Behind a commit one batch after another
/// is made while the index's cache is above its limit, up to the first that flushes nothing; behind
/// other replies none.
pub fn batches_behind<S: EngineSteps>(steps: &mut S, reply: &Reply) -> Health
    ensures { MakesBatches S.sight (committed_by reply.now) result steps.old steps.new }
{
    make_batches(steps, commits_told(reply))
}

/// Makes the batches that follow a reply, and tells what the line of the reply met, and they.
pub fn met_behind<S: EngineSteps>(steps: &mut S, reply: &Reply) -> Health
    ensures { IsMetBehind S.sight reply.now result steps.old steps.new }
{
    health_of(reply).worse(batches_behind(steps, reply))
}

// The number of the commit that a reply tells, 0 where it tells none.
fn commits_told(reply: &Reply) -> u64
    ensures { result ≡ committed_by reply.now }
{
    match reply {
        Reply::Committed { number } => *number,
        Reply::CommittedAndBegun { number } => *number,
        _ => 0,
    }
}

/// Makes batches while the cache is too large. Each flushes a commit at least, so `most` is how
/// many commits there are.
pub(crate) fn make_batches<S: EngineSteps>(steps: &mut S, most: u64) -> Health
    ensures { MakesBatches S.sight most result steps.old steps.new }
{
    let mut left = most;
    'rounds: while left > 0 {
        match one_round(steps) {
            Some(met) => return met,
            None => left -= 1,
        }
    }
    Health::Sound
}

// Makes a batch if the cache is too large: `None` where more may follow, and else what was met.
fn one_round<S: EngineSteps>(steps: &mut S) -> Option<Health>
    ensures { MakesRound S.sight result steps.old steps.new }
{
    let size = steps.cache_size();
    if size <= steps.cache_bytes() {
        return Some(Health::Sound);
    }
    match steps.sync_batch() {
        Ok(SyncBatch::Flushed { .. }) => None,
        Ok(SyncBatch::Nothing { .. }) => Some(Health::Sound),
        Err(IndexError::NoMemory) => Some(Health::Short),
        Err(IndexError::LogFull { .. }) => Some(Health::Sound),
        Err(IndexError::DiskFault { .. }) => Some(Health::Failed),
        Err(IndexError::Stopped { .. }) => Some(Health::Sound),
    }
}
