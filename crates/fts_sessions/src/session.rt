ghost use Rattle.std.specs.Prelude.{◌≡◌, ℕ, List, None, length, max};
ghost use Rattle.fts_io.specs.Text.{whole};
ghost use Rattle.fts_sql.specs.Statement.{IsStatement};
ghost use Rattle.fts_steps.specs.Step.{to_find};
ghost use Rattle.fts_query.specs.View.{tree_of};
ghost use Rattle.fts_query.specs.Seen.{view_seen};
ghost use Rattle.fts_sessions.specs.Read.{next_of};
ghost use Rattle.fts_sessions.specs.Found.{TellsFound};
ghost use Rattle.fts_sessions.specs.Execute.{Executes, Does, Searches};
ghost use Rattle.fts_sessions.specs.Conversation.{asks, match_begins};
ghost use Rattle.fts_sessions.specs.Seen.{number_told as the_number_told};
ghost use Rattle.fts_sessions.specs.Transaction.{FitsTable};

use crate::EngineSteps;
use crate::asked::unknown_name;
use crate::changes::{delete, insert, update};
use crate::commits::{begin, commit, rollback};
use crate::index::{list, not_viewed, sync};
use crate::names::are_text_columns;
use crate::optimize::optimize;
use crate::query::query_of;
use crate::transaction::Transaction;
use fts_commits::ids_ascend;
use fts_eval::{answer, leaves};
use fts_io::{Gate, Point};
use fts_query::{Query, View};
use fts_schema::Reply;
use fts_sql::{ParseError, Statement, parse_statement};
use fts_types::{Names, Text};
use std::alloc::{AllocError, Global};

/// A session: who sends statements one after another. It holds the changes of its open transaction,
/// which no other session and no search sees before their commit.
#[derive(Debug, Drop)]
pub struct Session {
    alloc: Global,
    number: u32,
    transaction: Option<Transaction>,
    last_seen: u64,
}

impl Session {
    /// The session with this number, from 1, in which no transaction is open.
    pub fn new(alloc: Global, number: u32) -> Self
        ensures number { result.number ≡ number }
        ensures closed { result.transaction ≡ None }
        ensures unseen { result.last_seen ≡ 0 }
    {
        Session {
            alloc,
            number,
            transaction: None,
            last_seen: 0,
        }
    }

    /// Its number.
    pub fn number(&self) -> u32
        ensures { result ≡ self.now.number }
    {
        self.number
    }

    /// The largest number of commits that a reply of this session told, 0 before the first.
    pub fn last_seen(&self) -> u64
        ensures { result ≡ self.now.last_seen }
    {
        self.last_seen
    }

    /// Executes a line, which is within the limit, and gives its reply. After a refusal, also for
    /// want of memory or by a device's fault, other lines can be executed.
    ///
    /// The lines of a session are executed over engines of tables with as many columns. A line
    /// costs its own bytes and steps, and COMMIT, or a BEGIN behind changes, those of all changes.
    pub fn execute<S: EngineSteps, G: Gate>(
        &mut self,
        steps: &mut S,
        gate: &G,
        line: &[u8],
    ) -> Reply
        requires { FitsTable (length (S.sight.settings steps.old).columns) self.old.transaction }
        ensures executes { Executes S.sight (whole line.now) self.old.transaction
            steps.old result self.new.transaction steps.new }
        ensures fits { FitsTable (length (S.sight.settings steps.new).columns)
            self.new.transaction }
        ensures seen { self.new.last_seen
            ≡ max self.old.last_seen (the_number_told result) }
        ensures number { self.new.number ≡ self.old.number }
    {
        gate.pass(Point::Statement, self.number);
        let reply = self.reply(steps, gate, line);
        self.last_seen = self.last_seen.max(number_told(&reply));
        gate.pass(Point::Answered, self.number);
        reply
    }

    // Parses the line and makes its step.
    fn reply<S: EngineSteps, G: Gate>(&mut self, steps: &mut S, gate: &G, line: &[u8]) -> Reply
        requires { FitsTable (length (S.sight.settings steps.old).columns) self.old.transaction }
        ensures executes { Executes S.sight (whole line.now) self.old.transaction
            steps.old result self.new.transaction steps.new }
        ensures fits { FitsTable (length (S.sight.settings steps.old).columns)
            self.new.transaction }
        ensures seen { self.new.last_seen ≡ self.old.last_seen }
        ensures number { self.new.number ≡ self.old.number }
    {
        match parse_statement(self.alloc, line) {
            Ok(Some(statement)) => self.carry_out(steps, gate, statement),
            Ok(None) => Reply::Nothing,
            Err(error) => unparsed(error),
        }
    }

    // Makes the step of a statement that a line has.
    fn carry_out<S: EngineSteps, G: Gate>(
        &mut self,
        steps: &mut S,
        gate: &G,
        statement: Statement,
    ) -> Reply
        requires fits { FitsTable (length (S.sight.settings steps.old).columns)
            self.old.transaction }
        requires said { (line : List ℕ) × IsStatement line statement }
        ensures executes { (line : List ℕ) → IsStatement line statement
            → Executes S.sight (whole line) self.old.transaction
            steps.old result self.new.transaction steps.new }
        ensures fits { FitsTable (length (S.sight.settings steps.old).columns)
            self.new.transaction }
        ensures seen { self.new.last_seen ≡ self.old.last_seen }
        ensures number { self.new.number ≡ self.old.number }
    {
        let alloc = self.alloc;
        match statement {
            Statement::Begin => begin(alloc, &mut self.transaction, steps),
            Statement::Commit => commit(&mut self.transaction, steps),
            Statement::Rollback => rollback(&mut self.transaction),
            Statement::Insert {
                table,
                columns,
                values,
            } => insert(alloc, &mut self.transaction, steps, table, &columns, values),
            Statement::Update {
                table,
                columns,
                texts,
                key,
            } => update(
                alloc,
                &mut self.transaction,
                steps,
                table,
                &columns,
                &texts,
                key,
            ),
            Statement::Delete { table, key } => {
                delete(alloc, &mut self.transaction, steps, table, key)
            }
            Statement::Match {
                table,
                columns,
                query,
            } => search(
                alloc,
                steps,
                gate,
                self.number,
                table,
                &columns,
                query.as_slice(),
            ),
            Statement::Sync => sync(steps),
            Statement::Optimize { table } => optimize(steps, table),
            Statement::List { schema, view } => list(alloc, steps, &schema, &view),
        }
    }
}

// What tells why a line was not parsed.
fn unparsed(error: ParseError) -> Reply
    ensures syntax { (at : ℕ) → error ≡ ParseError.Syntax at → result ≡ Reply.Syntax at }
    ensures memory { error ≡ ParseError.NoMemory → result ≡ Reply.NoMemory }
{
    match error {
        ParseError::Syntax { at } => Reply::Syntax { at },
        ParseError::NoMemory => Reply::NoMemory,
    }
}

// How many commits a reply tells that there were, 0 where it tells none.
fn number_told(reply: &Reply) -> u64
    ensures { result ≡ the_number_told reply.now }
{
    match reply {
        Reply::Committed { number } => *number,
        Reply::CommittedAndBegun { number } => *number,
        Reply::Found { number, .. } => *number,
        Reply::Listed { number, .. } => *number,
        Reply::Synced { through } => *through,
        _ => 0,
    }
}

// A search. Its query is read first, since that says which request the line is; a query that is
// refused is told only where the names fit.
fn search<S: EngineSteps, G: Gate>(
    alloc: Global,
    steps: &mut S,
    gate: &G,
    number: u32,
    table: Text,
    names: &Names,
    query: &[u8],
) -> Reply
    ensures { Searches S.sight table names.now query.now steps.old result steps.new }
{
    match query_of(alloc, query) {
        Ok(query) => search_for(alloc, steps, gate, number, table, names, query),
        Err(AllocError) => Reply::NoMemory,
    }
}

// The step of a search for a query that was read, and what tells its answer. One that does not fit
// the table, or whose query is refused, makes no step.
fn search_for<S: EngineSteps, G: Gate>(
    alloc: Global,
    steps: &mut S,
    gate: &G,
    number: u32,
    table: Text,
    names: &Names,
    query: Result<Query, Reply>,
) -> Reply
    ensures { Does S.sight
        (match_begins (S.sight.settings steps.old) table names.now (next_of query))
        steps.old result steps.new }
{
    let columns = &steps.settings().columns;
    match unknown_name(alloc, columns, table, names) {
        Ok(None) => {}
        Ok(Some(reply)) => return reply,
        Err(AllocError) => return Reply::NoMemory,
    }
    if !are_text_columns(columns, names) {
        return Reply::WrongColumns;
    }
    match query {
        Ok(query) => look_for(alloc, steps, gate, number, &query),
        Err(reply) => reply,
    }
}

// The step of a search, and what tells its answer: a view of the query's leaves, and what the query
// finds in it.
fn look_for<S: EngineSteps, G: Gate>(
    alloc: Global,
    steps: &mut S,
    gate: &G,
    number: u32,
    query: &Query,
) -> Reply
    ensures { Does S.sight (asks (to_find (tree_of query.now))) steps.old result steps.new }
{
    // the answer rests on this law of the rows
    ids_ascend();
    let leaves = match leaves(alloc, steps.settings(), query) {
        Ok(leaves) => leaves,
        Err(AllocError) => return Reply::NoMemory,
    };
    let view = steps.view(leaves);
    gate.pass(Point::Evaluate, number);
    match view {
        Ok(view) => found_in(alloc, &view, query),
        Err((error, _)) => not_viewed(error),
    }
}

// What tells what a query finds in a view.
fn found_in(alloc: Global, view: &View, query: &Query) -> Reply
    ensures { TellsFound (view_seen view.now) (tree_of query.now) result }
{
    match answer(alloc, view, query) {
        Ok(docs) => Reply::Found {
            number: view.number,
            docs,
        },
        Err(AllocError) => Reply::NoMemory,
    }
}
