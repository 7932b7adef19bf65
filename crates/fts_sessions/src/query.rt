ghost use Rattle.std.specs.Prelude.{IfOk};
ghost use Rattle.fts_sessions.specs.Read.{ReadsAs};

use fts_query::{ParseError, Query, parse};
use fts_schema::Reply;
use std::alloc::{AllocError, Global};

/// The query of a text, or the reply that refuses it.
pub fn query_of(alloc: Global, text: &[u8]) -> Result<Result<Query, Reply>, AllocError>
    ensures { IfOk result (ReadsAs text.now) }
{
    match parse(alloc, text) {
        Ok(query) => Ok(Ok(query)),
        Err(ParseError::TooLong { length }) => Ok(Err(Reply::QueryTooLong {
            length: length as u64,
        })),
        Err(ParseError::Syntax { at }) => Ok(Err(Reply::QuerySyntax { at: at as u64 })),
        Err(ParseError::TooDeep { at }) => Ok(Err(Reply::QueryTooDeep { at: at as u64 })),
        Err(ParseError::NoMemory) => Err(AllocError),
    }
}
