//! What the result of a step tells of what the step added to the history.
ghost use Rattle.std.specs.Prelude.{◌≡◌, length};
ghost use Rattle.fts_steps.specs.Answers.{error_answer_of};
ghost use Rattle.fts_steps.specs.Step.{to_sync, to_optimize, changes_of};

use fts_commits::Change;
use fts_steps::{CommitError, IndexError, OptimizeStep, SyncBatch};

/// What a step's result tells.
pub(crate) trait Told {
    ghost use Rattle.std.specs.Prelude.{◌≡◌, List, length};
    ghost use Rattle.fts_steps.specs.Running.{What};

    /// What the step added.
    ghost adds: { Self → List What };

    /// How much that is.
    fn count(&self) -> u64
        ensures { result ≡ length (adds self.now) };
}

/// The result of a commit of these changes.
#[derive(Drop)]
pub(crate) struct CommitTold<'a> {
    pub changes: &'a [Change],
    pub made: &'a Result<u64, CommitError>,
}

impl<'a> Told for CommitTold<'a> {
    ghost use Rattle.fts_steps.specs.Step.{to_commit, changes_of};
    ghost use Rattle.fts_steps.specs.Answers.{commit_answer_of};

    ghost adds = { λ told.
        changes_of (to_commit told.changes.now) (commit_answer_of told.made.now) };

    fn count(&self) -> u64 {
        match self.made {
            Ok(_) => 1,
            Err(CommitError::DiskFault { .. }) => 1,
            Err(CommitError::NoMemory) => 0,
            Err(CommitError::Refused { .. }) => 0,
            Err(CommitError::LogFull { .. }) => 0,
            Err(CommitError::Stopped { .. }) => 0,
        }
    }
}

// How much an error of the index adds.
fn count_of_error(error: &IndexError) -> u64
    ensures sync { result ≡ length (changes_of to_sync (error_answer_of error.now)) }
    ensures optimize { result ≡ length (changes_of to_optimize (error_answer_of error.now)) }
{
    match error {
        IndexError::DiskFault { .. } => 1,
        IndexError::NoMemory => 0,
        IndexError::LogFull { .. } => 0,
        IndexError::Stopped { .. } => 0,
    }
}

/// The result of a batch.
#[derive(Drop)]
pub(crate) struct SyncTold<'a> {
    pub made: &'a Result<SyncBatch, IndexError>,
}

impl<'a> Told for SyncTold<'a> {
    ghost use Rattle.fts_steps.specs.Step.{to_sync, changes_of};
    ghost use Rattle.fts_steps.specs.Answers.{sync_answer_of};

    ghost adds = { λ told. changes_of to_sync (sync_answer_of told.made.now) };

    fn count(&self) -> u64 {
        match self.made {
            Ok(SyncBatch::Flushed { .. }) => 1,
            Ok(SyncBatch::Nothing { .. }) => 0,
            Err(error) => count_of_error(error),
        }
    }
}

/// The result of a step of OPTIMIZE.
#[derive(Drop)]
pub(crate) struct OptimizeTold<'a> {
    pub made: &'a Result<OptimizeStep, IndexError>,
}

impl<'a> Told for OptimizeTold<'a> {
    ghost use Rattle.fts_steps.specs.Step.{to_optimize, changes_of};
    ghost use Rattle.fts_steps.specs.Answers.{optimize_answer_of};

    ghost adds = { λ told. changes_of to_optimize (optimize_answer_of told.made.now) };

    fn count(&self) -> u64 {
        match self.made {
            Ok(OptimizeStep::Began) => 1,
            Ok(OptimizeStep::Word) => 1,
            Ok(OptimizeStep::Finished) => 1,
            Ok(OptimizeStep::Nothing) => 0,
            Err(error) => count_of_error(error),
        }
    }
}

/// The sum of the counts of faults with which a read failed, or none.
#[derive(Drop)]
pub(crate) struct ReadTold {
    pub fault: Option<u128>,
}

impl Told for ReadTold {
    ghost use Rattle.fts_shared.specs.History.{read_fault};

    ghost adds = { λ told. read_fault told.fault };

    fn count(&self) -> u64 {
        match self.fault {
            Some(_) => 1,
            None => 0,
        }
    }
}
