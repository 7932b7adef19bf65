//! The forms of statement. A new one is a case here: its table, its reading and its statement; what
//! it says is in `specs/Statement.antt`.

ghost use Rattle.std.specs.Prelude.{◌≡◌, map, IfOk};
ghost use Rattle.fts_sql.specs.Reading.{token_of};
ghost use Rattle.fts_sql.specs.Statement.{statement_of};
ghost use Rattle.fts_sql.specs.Grammar.{table_of};
ghost use Rattle.fts_sql.specs.Reader.{tokens_at, IsRead};

use crate::copy::{
    behind_first, copy_first_name, copy_names, copy_strings, copy_unquoted, copy_values,
    first_number, first_string,
};
use crate::line::Placed;
use crate::piece::Part::{self, Fours, Once, Optional, OptionalPair, Pairs};
use crate::piece::Piece::{Keyword, Mark, Name, Number, Session, String, Value};
use crate::reader::{Reached, read};
use crate::statement::Statement;
use crate::token::Token;
use crate::word::Word;
use std::alloc::{AllocError, Global};

/// A form of statement.
#[derive(Clone, Copy)]
pub enum Form {
    Insert,
    Update,
    Delete,
    Match,
    Sync,
    Optimize,
    List,
    Begin,
    Start,
    Commit,
    Rollback,
}

/// The forms that there are.
pub const FORMS: [Form; 11] = [
    Form::Insert,
    Form::Update,
    Form::Delete,
    Form::Match,
    Form::Sync,
    Form::Optimize,
    Form::List,
    Form::Begin,
    Form::Start,
    Form::Commit,
    Form::Rollback,
];

/// `[ number : ]`, with which each statement may begin
const SESSION: Part = OptionalPair([Session, Mark(b':')]);

/// `INSERT INTO table (column, ..) VALUES (value, ..)`
pub const INSERT: [Part; 14] = [
    SESSION,
    Once(Keyword(Word::Insert)),
    Once(Keyword(Word::Into)),
    Once(Name),
    Once(Mark(b'(')),
    Once(Name),
    Pairs([Mark(b','), Name]),
    Once(Mark(b')')),
    Once(Keyword(Word::Values)),
    Once(Mark(b'(')),
    Once(Value),
    Pairs([Mark(b','), Value]),
    Once(Mark(b')')),
    Optional(Mark(b';')),
];

/// `UPDATE table SET column = 'text', .. WHERE id = key`
pub const UPDATE: [Part; 13] = [
    SESSION,
    Once(Keyword(Word::Update)),
    Once(Name),
    Once(Keyword(Word::Set)),
    Once(Name),
    Once(Mark(b'=')),
    Once(String),
    Fours([Mark(b','), Name, Mark(b'='), String]),
    Once(Keyword(Word::Where)),
    Once(Keyword(Word::Id)),
    Once(Mark(b'=')),
    Once(Number),
    Optional(Mark(b';')),
];

/// `DELETE FROM table WHERE id = key`
pub const DELETE: [Part; 9] = [
    SESSION,
    Once(Keyword(Word::Delete)),
    Once(Keyword(Word::From)),
    Once(Name),
    Once(Keyword(Word::Where)),
    Once(Keyword(Word::Id)),
    Once(Mark(b'=')),
    Once(Number),
    Optional(Mark(b';')),
];

/// `SELECT FTS_DOC_ID FROM table WHERE MATCH (column, ..) AGAINST ('query' IN BOOLEAN MODE)`
pub const MATCH: [Part; 19] = [
    SESSION,
    Once(Keyword(Word::Select)),
    Once(Keyword(Word::FtsDocId)),
    Once(Keyword(Word::From)),
    Once(Name),
    Once(Keyword(Word::Where)),
    Once(Keyword(Word::Match)),
    Once(Mark(b'(')),
    Once(Name),
    Pairs([Mark(b','), Name]),
    Once(Mark(b')')),
    Once(Keyword(Word::Against)),
    Once(Mark(b'(')),
    Once(String),
    Once(Keyword(Word::In)),
    Once(Keyword(Word::Boolean)),
    Once(Keyword(Word::Mode)),
    Once(Mark(b')')),
    Optional(Mark(b';')),
];

/// `SYNC`
pub const SYNC: [Part; 3] = [SESSION, Once(Keyword(Word::Sync)), Optional(Mark(b';'))];

/// `OPTIMIZE TABLE table`
pub const OPTIMIZE: [Part; 5] = [
    SESSION,
    Once(Keyword(Word::Optimize)),
    Once(Keyword(Word::Table)),
    Once(Name),
    Optional(Mark(b';')),
];

/// `SELECT * FROM schema.view`
pub const LIST: [Part; 8] = [
    SESSION,
    Once(Keyword(Word::Select)),
    Once(Mark(b'*')),
    Once(Keyword(Word::From)),
    Once(Name),
    Once(Mark(b'.')),
    Once(Name),
    Optional(Mark(b';')),
];

/// `BEGIN`
pub const BEGIN: [Part; 3] = [SESSION, Once(Keyword(Word::Begin)), Optional(Mark(b';'))];

/// `START TRANSACTION`
pub const START: [Part; 4] = [
    SESSION,
    Once(Keyword(Word::Start)),
    Once(Keyword(Word::Transaction)),
    Optional(Mark(b';')),
];

/// `COMMIT`
pub const COMMIT: [Part; 3] = [SESSION, Once(Keyword(Word::Commit)), Optional(Mark(b';'))];

/// `ROLLBACK`
pub const ROLLBACK: [Part; 3] = [SESSION, Once(Keyword(Word::Rollback)), Optional(Mark(b';'))];

impl Form {
    /// How far the tokens are those of the form.
    pub fn read<'l>(self, alloc: Global, tokens: &[Placed<'l>]) -> Result<Reached<'l>, AllocError>
        ensures { IfOk result
            (λ reached. IsRead (table_of self) (tokens_at tokens.now) reached) }
    {
        match self {
            Form::Insert => read(alloc, &INSERT, tokens),
            Form::Update => read(alloc, &UPDATE, tokens),
            Form::Delete => read(alloc, &DELETE, tokens),
            Form::Match => read(alloc, &MATCH, tokens),
            Form::Sync => read(alloc, &SYNC, tokens),
            Form::Optimize => read(alloc, &OPTIMIZE, tokens),
            Form::List => read(alloc, &LIST, tokens),
            Form::Begin => read(alloc, &BEGIN, tokens),
            Form::Start => read(alloc, &START, tokens),
            Form::Commit => read(alloc, &COMMIT, tokens),
            Form::Rollback => read(alloc, &ROLLBACK, tokens),
        }
    }

    /// The statement of the form that takes these tokens.
    pub fn statement(self, alloc: Global, taken: &[Token]) -> Result<Statement, AllocError>
        ensures { IfOk result
            (λ statement. statement ≡ statement_of self (map token_of taken.now)) }
    {
        match self {
            Form::Insert => Ok(Statement::Insert {
                table: copy_first_name(alloc, taken)?,
                columns: copy_names(alloc, behind_first(taken))?,
                values: copy_values(alloc, taken)?,
            }),
            Form::Update => Ok(Statement::Update {
                table: copy_first_name(alloc, taken)?,
                columns: copy_names(alloc, behind_first(taken))?,
                texts: copy_strings(alloc, taken)?,
                key: first_number(taken),
            }),
            Form::Delete => Ok(Statement::Delete {
                table: copy_first_name(alloc, taken)?,
                key: first_number(taken),
            }),
            Form::Match => Ok(Statement::Match {
                table: copy_first_name(alloc, taken)?,
                columns: copy_names(alloc, behind_first(taken))?,
                query: copy_unquoted(alloc, first_string(taken))?,
            }),
            Form::Sync => Ok(Statement::Sync),
            Form::Optimize => Ok(Statement::Optimize {
                table: copy_first_name(alloc, taken)?,
            }),
            Form::List => Ok(Statement::List {
                schema: copy_first_name(alloc, taken)?,
                view: copy_first_name(alloc, behind_first(taken))?,
            }),
            Form::Begin | Form::Start => Ok(Statement::Begin),
            Form::Commit => Ok(Statement::Commit),
            Form::Rollback => Ok(Statement::Rollback),
        }
    }
}
