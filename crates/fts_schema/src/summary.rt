//! What a script from a number comes to: sums of its replies, and the line that tells them.
ghost use Rattle.std.specs.Prelude.{◌≡◌, ◌+◌, ◌^◌, ◌%◌, ◌∷◌, ◌++◌, [], List, IfOk};
ghost use Rattle.std.specs.List.{sum};
ghost use Rattle.std.specs.Prelude.{Some, string_bytes};
ghost use Rattle.fts_schema.specs.Summary.{is_error, ids_of, AreSums, sums_text, summary_text};
ghost use Rattle.fts_schema.specs.declared.reply.Reply.{Reply as AnyReply};

use crate::Reply;
use crate::reply::bytes_of;
use std::alloc::{AllocError, Global};
use std::fmt;

/// Sums of replies. A count stands still at the largest number of its type.
#[derive(Clone, Copy, Debug, PartialEq, Eq)]
pub struct Sums {
    /// How many replies refuse their line: their text begins with `ERROR`.
    pub refused: u64,
    /// How many document ids all searches found.
    pub found: u64,
    /// The sum of these, modulo 2^32.
    pub total: u32,
}

/// What a script from a number comes to.
#[derive(Clone, Copy, Debug, PartialEq, Eq)]
pub struct Summary {
    /// How many statements the script has, without the batches and passes between them.
    pub statements: u32,
    /// How many commits there are behind it.
    pub commits: u64,
    /// How many rows.
    pub rows: u64,
    /// The largest document id that was used, 0 where none was.
    pub largest: u64,
    /// The sums of its replies.
    pub sums: Sums,
}

impl Sums {
    /// The sums of no reply.
    pub fn new() -> Self
        ensures { AreSums [] result }
    {
        Sums {
            refused: 0,
            found: 0,
            total: 0,
        }
    }

    /// The sums with one more reply.
    pub fn with(self, reply: &Reply) -> Self
        ensures { (replies : List AnyReply) → AreSums replies self
            → AreSums (replies ++ reply.now ∷ []) result }
    {
        let docs = ids_of(reply);
        Sums {
            refused: self.refused.saturating_add(u64::from(is_error(reply))),
            found: self.found.saturating_add(docs.len() as u64),
            total: sum_behind(self.total, docs),
        }
    }
}

impl fmt::Display for Sums {
    ghost output = { λ sums. Some (sums_text sums) };

    fn fmt<W: fmt::Write>(&self, f: &mut fmt::Formatter<W>) -> fmt::Result {
        let Sums {
            refused,
            found,
            total,
        } = *self;
        write!(f, "refused {refused}, found {found}, sum {total}")
    }
}

/// The document ids that a reply answers.
fn ids_of(reply: &Reply) -> &[u64]
    ensures { result.now ≡ ids_of reply.now }
{
    match reply {
        Reply::Found { docs, .. } => docs.as_slice(),
        _ => &[],
    }
}

/// The sum of a number and some ids, modulo 2^32.
fn sum_behind(total: u32, ids: &[u64]) -> u32
    ensures { result ≡ (total + sum ids.now) % 2 ^ 32 }
{
    let mut sum = total;
    for id in ids {
        sum = sum.wrapping_add((*id % (1 << 32)) as u32);
    }
    sum
}

/// Whether a reply refuses its line: its text begins with `ERROR`.
pub fn is_error(reply: &Reply) -> bool
    ensures { result ≡ is_error reply.now }
{
    match reply {
        Reply::Committed { .. } => false,
        Reply::Begun => false,
        Reply::CommittedAndBegun { .. } => false,
        Reply::Buffered { .. } => false,
        Reply::NothingToCommit => false,
        Reply::RolledBack { .. } => false,
        Reply::Found { .. } => false,
        Reply::Synced { .. } => false,
        Reply::NothingToOptimize => false,
        Reply::Optimized { .. } => false,
        Reply::Listed { .. } => false,
        Reply::Nothing => false,
        _ => true,
    }
}

/// The line that tells what a script comes to, with its LF. Want of memory is the only error.
pub fn summary_text(alloc: Global, summary: &Summary) -> Result<Vec<u8>, AllocError>
    ensures { IfOk result (λ text. text.items ≡ summary_text summary.now) }
{
    bytes_of(told(alloc, summary))
}

fn told(alloc: Global, summary: &Summary) -> Result<String, AllocError>
    ensures { IfOk result (λ text. string_bytes text ≡ summary_text summary.now) }
{
    let Summary {
        statements,
        commits,
        rows,
        largest,
        sums,
    } = *summary;
    format!(in alloc;
        "gen {statements} statements, commits {commits}, rows {rows}, largest {largest}, {sums}\n"
    )
}
