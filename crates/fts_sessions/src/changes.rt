//! The statements that change rows: INSERT, UPDATE and DELETE.
ghost use Rattle.std.specs.Prelude.{◌≡◌, ◌∷◌, [], length, IfOk, Ok, Result};
ghost use Rattle.fts_commits.specs.declared.change.Change.{Change};
ghost use Rattle.fts_schema.specs.declared.reply.Reply.{Reply};
ghost use Rattle.fts_commits.specs.Fits.{CanCommit};
ghost use Rattle.fts_sql.specs.declared.statement.Statement.TheVariants.{Insert, Update, Delete};
ghost use Rattle.fts_steps.specs.Step.{to_commit};
ghost use Rattle.fts_sessions.specs.Conversation.{begins, behind, change_begins};
ghost use Rattle.fts_sessions.specs.Execute.{Does, Makes};
ghost use Rattle.fts_sessions.specs.Request.{changes};
ghost use Rattle.fts_sessions.specs.Texts.{IsFitStatement};
ghost use Rattle.fts_sessions.specs.Transaction.{FitsTable, behind_change};

use crate::EngineSteps;
use crate::asked::{asked_delete, asked_insert, asked_update};
use crate::commits::told;
use crate::transaction::Transaction;
use fts_commits::Change;
use fts_schema::Reply;
use fts_sql::Values;
use fts_types::{Key, Names, RowTexts, Text};
use std::alloc::{AllocError, Global};

/// An INSERT: its change waits in the open transaction, or is committed where none is open.
pub fn insert<S: EngineSteps>(
    alloc: Global,
    transaction: &mut Option<Transaction>,
    steps: &mut S,
    table: Text,
    names: &Names,
    values: Values,
) -> Reply
    requires fit { IsFitStatement (Insert table names.now values) }
    requires fits { FitsTable (length (S.sight.settings steps.old).columns) transaction.old }
    ensures does { Does S.sight
        (begins (S.sight.settings steps.old) transaction.old
        (changes (Insert table names.now values)))
        steps.old result steps.new }
    ensures behind { transaction.new ≡ behind (S.sight.settings steps.old) transaction.old
        (changes (Insert table names.now values)) result }
    ensures fits { FitsTable (length (S.sight.settings steps.old).columns) transaction.new }
{
    let asked = asked_insert(alloc, &steps.settings().columns, table, names, values);
    change(transaction, steps, asked)
}

/// An UPDATE, in the same way.
pub fn update<S: EngineSteps>(
    alloc: Global,
    transaction: &mut Option<Transaction>,
    steps: &mut S,
    table: Text,
    names: &Names,
    texts: &RowTexts,
    key: Key,
) -> Reply
    requires fit { IsFitStatement (Update table names.now texts.now key) }
    requires fits { FitsTable (length (S.sight.settings steps.old).columns) transaction.old }
    ensures does { Does S.sight
        (begins (S.sight.settings steps.old) transaction.old
        (changes (Update table names.now texts.now key)))
        steps.old result steps.new }
    ensures behind { transaction.new ≡ behind (S.sight.settings steps.old) transaction.old
        (changes (Update table names.now texts.now key)) result }
    ensures fits { FitsTable (length (S.sight.settings steps.old).columns) transaction.new }
{
    let asked = asked_update(alloc, &steps.settings().columns, table, names, texts, key);
    change(transaction, steps, asked)
}

/// A DELETE, in the same way.
pub fn delete<S: EngineSteps>(
    alloc: Global,
    transaction: &mut Option<Transaction>,
    steps: &mut S,
    table: Text,
    key: Key,
) -> Reply
    requires fit { IsFitStatement (Delete table key) }
    requires fits { FitsTable (length (S.sight.settings steps.old).columns) transaction.old }
    ensures does { Does S.sight
        (begins (S.sight.settings steps.old) transaction.old
        (changes (Delete table key)))
        steps.old result steps.new }
    ensures behind { transaction.new ≡ behind (S.sight.settings steps.old) transaction.old
        (changes (Delete table key)) result }
    ensures fits { FitsTable (length (S.sight.settings steps.old).columns) transaction.new }
{
    let asked = asked_delete(alloc, &steps.settings().columns, table, key);
    change(transaction, steps, asked)
}

// What becomes of a change that a statement asks for: it waits in the open transaction, or where
// none is open its commit is made. Gives what tells so, or the refusal.
fn change<S: EngineSteps>(
    transaction: &mut Option<Transaction>,
    steps: &mut S,
    asked: Result<Result<Change, Reply>, AllocError>,
) -> Reply
    requires fits { FitsTable (length (S.sight.settings steps.old).columns) transaction.old }
    requires can { (made : Change) → asked ≡ Ok (Ok made)
        → CanCommit (length (S.sight.settings steps.old).columns) (made ∷ []) }
    ensures does { (wanted : Result Change Reply) → IfOk asked (λ asked. asked ≡ wanted)
        → Does S.sight (change_begins transaction.old wanted) steps.old result steps.new }
    ensures behind { (wanted : Result Change Reply) → IfOk asked (λ asked. asked ≡ wanted)
        → transaction.new ≡ behind_change transaction.old wanted result }
    ensures fits { FitsTable (length (S.sight.settings steps.old).columns) transaction.new }
{
    match asked {
        Ok(Ok(change)) => match transaction {
            Some(open) => open.buffer(change),
            None => commit_one(steps, change),
        },
        Ok(Err(reply)) => reply,
        Err(AllocError) => Reply::NoMemory,
    }
}

// The step of a commit of one change, and what tells its answer.
fn commit_one<S: EngineSteps>(steps: &mut S, change: Change) -> Reply
    requires { CanCommit (length (S.sight.settings steps.old).columns) (change ∷ []) }
    ensures { Makes S.sight (to_commit (change ∷ [])) steps.old result steps.new }
{
    match steps.commit(&[change]) {
        Ok(number) => Reply::Committed { number },
        Err(error) => told(error),
    }
}
