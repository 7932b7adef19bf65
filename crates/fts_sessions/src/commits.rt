//! The statements of transactions.
ghost use Rattle.std.specs.Prelude.{◌≡◌, [], None, length, Err, IfNone, IfSome};
ghost use Rattle.fts_steps.specs.Answers.{commit_answer_of};
ghost use Rattle.fts_steps.specs.Step.{to_commit, Steps};
ghost use Rattle.fts_schema.specs.declared.reply.Reply.TheVariants.{NothingToCommit};
ghost use Rattle.fts_sessions.specs.Conversation.{commit_begins, reply_to};
ghost use Rattle.fts_sessions.specs.Execute.{Does, GoesOn};
ghost use Rattle.fts_sessions.specs.Request.{opens};
ghost use Rattle.fts_sessions.specs.Transaction.{FitsTable, changes_in};
ghost use Rattle.fts_sessions.specs.Transaction.{behind_begin, behind_commit};

use crate::EngineSteps;
use crate::transaction::Transaction;
use fts_schema::Reply;
use fts_steps::CommitError;
use std::alloc::Global;

/// The step of a BEGIN, and what tells its answer: the changes of the transaction that is open are
/// committed, and one without changes is open. Where their commit is refused none is, but where
/// memory ran out for it, which leaves what was open.
pub fn begin<S: EngineSteps>(
    alloc: Global,
    transaction: &mut Option<Transaction>,
    steps: &mut S,
) -> Reply
    requires { FitsTable (length (S.sight.settings steps.old).columns) transaction.old }
    ensures goes { GoesOn S.sight (S.sight.settings steps.old) transaction.old opens []
        steps.old result steps.new }
    ensures behind { transaction.new ≡ behind_begin transaction.old result }
{
    match commit_changes(transaction, steps) {
        None => {
            *transaction = Some(Transaction::new(alloc));
            Reply::Begun
        }
        Some(Ok(number)) => {
            *transaction = Some(Transaction::new(alloc));
            Reply::CommittedAndBegun { number }
        }
        Some(Err(error)) => refuse(transaction, error),
    }
}

/// The step of a COMMIT, and what tells its answer. No transaction is open behind it, but where
/// memory ran out, which leaves it as it was.
pub fn commit<S: EngineSteps>(transaction: &mut Option<Transaction>, steps: &mut S) -> Reply
    requires { FitsTable (length (S.sight.settings steps.old).columns) transaction.old }
    ensures does { Does S.sight (commit_begins NothingToCommit (changes_in transaction.old))
        steps.old result steps.new }
    ensures behind { transaction.new ≡ behind_commit transaction.old result }
{
    match commit_changes(transaction, steps) {
        None => {
            *transaction = None;
            Reply::NothingToCommit
        }
        Some(Ok(number)) => {
            *transaction = None;
            Reply::Committed { number }
        }
        Some(Err(error)) => refuse(transaction, error),
    }
}

/// Gives up the changes of the transaction that is open, and tells how many there were.
pub fn rollback(transaction: &mut Option<Transaction>) -> Reply
    ensures told { result ≡ Reply.RolledBack (length (changes_in transaction.old)) }
    ensures closed { transaction.new ≡ None }
{
    let changes = match transaction {
        Some(open) => open.len(),
        None => 0,
    };
    *transaction = None;
    Reply::RolledBack { changes }
}

// What tells the refusal of a commit, which ends the transaction but for want of memory.
fn refuse(transaction: &mut Option<Transaction>, error: CommitError) -> Reply
    ensures told { reply_to (commit_answer_of (Err error)) ≡ result }
    ensures commit { transaction.new ≡ behind_commit transaction.old result }
    ensures begin { transaction.new ≡ behind_begin transaction.old result }
{
    match error {
        CommitError::NoMemory => return Reply::NoMemory,
        CommitError::Refused { refusal } => {
            *transaction = None;
            Reply::Refused { refusal }
        }
        CommitError::LogFull { end } => {
            *transaction = None;
            Reply::LogFull { end }
        }
        CommitError::DiskFault { .. } => {
            *transaction = None;
            Reply::DiskFault
        }
        CommitError::Stopped { faults } => {
            *transaction = None;
            Reply::Stopped { faults }
        }
    }
}

// The step of a commit of all changes of a transaction, if there are some.
fn commit_changes<S: EngineSteps>(
    transaction: &Option<Transaction>,
    steps: &mut S,
) -> Option<Result<u64, CommitError>>
    requires { FitsTable (length (S.sight.settings steps.old).columns) transaction.now }
    ensures none { IfNone result ((changes_in transaction.now ≡ []) × (steps.new ≡ steps.old)) }
    ensures some { IfSome result (λ made. (changes_in transaction.now ≡ [] → ⊥)
        × Steps S.sight (to_commit (changes_in transaction.now)) (commit_answer_of made)
        steps.old steps.new) }
{
    let Some(open) = transaction else {
        return None;
    };
    if open.is_empty() {
        return None;
    }
    Some(steps.commit(open.as_slice()))
}

/// What tells the refusal of a commit.
pub fn told(error: CommitError) -> Reply
    ensures { reply_to (commit_answer_of (Err error)) ≡ result }
{
    match error {
        CommitError::NoMemory => Reply::NoMemory,
        CommitError::Refused { refusal } => Reply::Refused { refusal },
        CommitError::LogFull { end } => Reply::LogFull { end },
        CommitError::DiskFault { .. } => Reply::DiskFault,
        CommitError::Stopped { faults } => Reply::Stopped { faults },
    }
}
