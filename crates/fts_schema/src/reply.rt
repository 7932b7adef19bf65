ghost use Rattle.std.specs.Prelude.{◌≡◌, ◌∷◌, ◌++◌, [], ℕ, List, true, false, codes, string_bytes};
ghost use Rattle.std.specs.Prelude.{OnOk, OnErr, IfOk, IfSome, IfNone, length, take};
ghost use Rattle.fts_schema.specs.Reply.{text_of, is_fixed, pass_text as the_pass_text};

use crate::ids::push_ids;
use crate::listing::listing_text;
use fts_commits::Refusal;
use fts_listing::Listing;
use fts_types::{DocIds, Text};
use std::alloc::{AllocError, Global};

/// The reply to one line of a script.
#[derive(Drop)]
pub enum Reply {
    /// The line's changes are commit `number`; commits count from 1.
    Committed { number: u64 },
    /// A transaction is open, with no changes.
    Begun,
    /// The changes of the transaction that was open are commit `number`, and a new one is open.
    CommittedAndBegun { number: u64 },
    /// The line's change waits for COMMIT; the open transaction has `changes` of them now.
    Buffered { changes: u64 },
    /// COMMIT had no changes to make, with or without a transaction. None is open now.
    NothingToCommit,
    /// The `changes` of the transaction that was open are given up; 0 also where none was.
    RolledBack { changes: u64 },
    /// As of commit `number`, 0 before the first, the search found the documents `docs`.
    Found { number: u64, docs: DocIds },
    /// The index is flushed through commit `through`.
    Synced { through: u64 },
    /// OPTIMIZE had nothing to do.
    NothingToOptimize,
    /// OPTIMIZE worked on `words` words. Behind them its pass is `finished`, or open still.
    Optimized { words: u64, finished: bool },
    /// As of commit `number`, 0 before the first, the view has what `listing` says.
    Listed { number: u64, listing: Listing },
    /// The rows refuse the line's commit, which changes nothing.
    Refused { refusal: Refusal },
    /// With the line's change the open transaction would have `changes` of them, which is more than
    /// a commit may have. It stays as it was.
    TooManyChanges { changes: u64 },
    /// With the commit the log would end at byte `end`, from 0, which is above its limit. Nothing
    /// changed.
    LogFull { end: u64 },
    /// A blank line or a comment, which is not answered: its text has no bytes.
    Nothing,
    /// The line is no statement, which shows at byte `at`, from 1.
    Syntax { at: u64 },
    /// There is no table of this name, which is as the line writes it; that of a view has its
    /// schema's name and a point before it.
    NoSuchTable { name: Text },
    /// The table has no column of this name, which is as the line writes it.
    NoSuchColumn { name: Text },
    /// The names or the values are not those that the table's columns ask for.
    WrongColumns,
    /// The search's text is no query, which shows at byte `at` of the text, from 1.
    QuerySyntax { at: u64 },
    /// The search's text has `length` bytes, which is more than a query may have.
    QueryTooLong { length: u64 },
    /// In the search's text more brackets are open than may be, which shows at byte `at` of the
    /// text, from 1.
    QueryTooDeep { at: u64 },
    /// The line has more bytes than a line may have.
    LineTooLong,
    /// Memory ran out for the line, which changed nothing.
    NoMemory,
    /// A device failed. Whether the line's commit stands is open until the database is opened
    /// again.
    DiskFault,
    /// A device failed at an earlier line, after which `faults` faults were counted. Nothing
    /// changed.
    Stopped { faults: u128 },
}

/// The text of a reply without a number and a name, which takes no memory.
pub fn fixed_text(reply: &Reply) -> Option<&'static str>
    ensures some { IfSome result (λ text. (is_fixed reply.now ≡ true)
        × (text.now ≡ text_of reply.now)) }
    ensures none { IfNone result (is_fixed reply.now ≡ false) }
{
    match reply {
        Reply::Nothing => Some(""),
        Reply::Begun => Some("OK begin\n"),
        Reply::NothingToCommit => Some("OK nothing to commit\n"),
        Reply::NothingToOptimize => Some("OK optimize nothing\n"),
        Reply::WrongColumns => Some("ERROR columns and values do not fit\n"),
        Reply::LineTooLong => Some("ERROR line too long\n"),
        Reply::NoMemory => Some("ERROR no memory\n"),
        Reply::DiskFault => Some("ERROR disk fault\n"),
        _ => None,
    }
}

/// The text of a reply: one line with its LF, or nothing for a line that is not answered. That of a
/// listing has a line for each row, and two more.
///
/// The only error is want of memory.
pub fn reply_text(alloc: Global, reply: &Reply) -> Result<Vec<u8>, AllocError>
    ensures { IfOk result (λ text. text.items ≡ text_of reply.now) }
{
    match fixed_text(reply) {
        Some(text) => Vec::from_slice(alloc, text.as_bytes()),
        None => written_text(alloc, reply),
    }
}

/// Puts the text of a reply, as `reply_text` makes it, behind what stands. It is written into the
/// memory that stands ready where it fits, so that a text that is cleared takes one search's reply
/// after another. Where memory runs out, the text is as before.
///
/// The only error is want of memory.
pub fn put_reply_text(text: &mut Vec<u8>, reply: &Reply) -> Result<(), AllocError>
    ensures ok { OnOk result (text.new.items ≡ text.old.items ++ text_of reply.now) }
    ensures err { OnErr result (text.new.items ≡ text.old.items) }
{
    if let Reply::Found { number, docs } = reply {
        return put_found_text(text, *number, docs.as_slice());
    }
    let other = reply_text(*text.allocator(), reply)?;
    put_text(text, other)
}

// Puts bytes behind others. Where none stand and there is no room for them, they are moved.
fn put_text(text: &mut Vec<u8>, other: Vec<u8>) -> Result<(), AllocError>
    ensures ok { OnOk result (text.new.items ≡ text.old.items ++ other.items) }
    ensures err { OnErr result (text.new.items ≡ text.old.items) }
{
    if text.is_empty() && other.len() > text.capacity() {
        *text = other;
        return Ok(());
    }
    text.extend_from_slice(&other)
}

// The text of a reply with a number or a name.
fn written_text(alloc: Global, reply: &Reply) -> Result<Vec<u8>, AllocError>
    requires { is_fixed reply.now ≡ false }
    ensures { IfOk result (λ text. text.items ≡ text_of reply.now) }
{
    match reply {
        Reply::NoSuchTable { name } => named_text(alloc, b"ERROR no such table ", name.as_slice()),
        Reply::NoSuchColumn { name } => named_text(
            alloc,
            b"ERROR no such column ",
            name.as_slice(),
        ),
        Reply::Committed { number } => bytes_of(format!(in alloc; "OK commit {number}\n")),
        Reply::CommittedAndBegun { number } => bytes_of(format!(in alloc;
            "OK commit {number} begin\n"
        )),
        Reply::Buffered { changes } => bytes_of(format!(in alloc; "OK buffered {changes}\n")),
        Reply::RolledBack { changes } => bytes_of(format!(in alloc; "OK rollback {changes}\n")),
        Reply::Found { number, docs } => found_text(alloc, *number, docs.as_slice()),
        Reply::Synced { through } => bytes_of(format!(in alloc; "OK sync as of {through}\n")),
        Reply::Optimized { words, finished } => bytes_of(optimized_text(alloc, *words, *finished)),
        Reply::Listed { number, listing } => listing_text(alloc, *number, listing),
        Reply::Refused { refusal } => bytes_of(format!(in alloc; "ERROR {refusal}\n")),
        Reply::TooManyChanges { changes } => bytes_of(format!(in alloc;
            "ERROR too many changes {changes}\n"
        )),
        Reply::LogFull { end } => bytes_of(format!(in alloc; "ERROR log full at {end}\n")),
        Reply::Syntax { at } => bytes_of(format!(in alloc; "ERROR syntax at {at}\n")),
        Reply::QuerySyntax { at } => bytes_of(format!(in alloc; "ERROR query syntax at {at}\n")),
        Reply::QueryTooLong { length } => bytes_of(format!(in alloc;
            "ERROR query too long {length}\n"
        )),
        Reply::QueryTooDeep { at } => bytes_of(format!(in alloc; "ERROR query too deep at {at}\n")),
        Reply::Stopped { faults } => bytes_of(stopped_text(alloc, *faults)),
        _ => unreachable!(),
    }
}

fn stopped_text(alloc: Global, faults: u128) -> Result<String, AllocError>
    ensures { IfOk result (λ text. string_bytes text ≡ text_of (Reply.Stopped faults)) }
{
    format!(in alloc; "ERROR stopped after {faults} disk faults\n")
}

fn optimized_text(alloc: Global, words: u64, finished: bool) -> Result<String, AllocError>
    ensures { IfOk result (λ text. string_bytes text ≡ text_of (Reply.Optimized words finished)) }
{
    let pass = pass_text(finished);
    format!(in alloc; "OK optimize {words} words, pass {pass}\n")
}

// What is said of a pass.
fn pass_text(finished: bool) -> &'static str
    ensures { result.now ≡ the_pass_text finished }
{
    if finished { "finished" } else { "open" }
}

/// The bytes of a text, if there was memory for it.
pub(crate) fn bytes_of(text: Result<String, AllocError>) -> Result<Vec<u8>, AllocError>
    ensures { (bytes : List ℕ) → IfOk text (λ t. string_bytes t ≡ bytes)
        → IfOk result (λ b. b.items ≡ bytes) }
{
    Ok(text?.into_bytes())
}

// A line that ends with a name.
fn named_text(alloc: Global, front: &[u8], name: &[u8]) -> Result<Vec<u8>, AllocError>
    ensures { IfOk result (λ text. text.items ≡ front.now ++ (name.now ++ 10 ∷ [])) }
{
    let mut text = Vec::from_slice(alloc, front)?;
    text.extend_from_slice(name)?;
    text.push(b'\n')?;
    Ok(text)
}

/// The reply to the making of a database: one line with its LF.
pub fn created_text() -> &'static str
    ensures { result.now ≡ codes "OK created" ++ 10 ∷ [] }
{
    "OK created\n"
}

fn found_text(alloc: Global, number: u64, docs: &[u64]) -> Result<Vec<u8>, AllocError>
    ensures { IfOk result (λ text. text.items ≡ text_of (Reply.Found number docs.now)) }
{
    let mut text = Vec::new(alloc);
    put_found_text(&mut text, number, docs)?;
    Ok(text)
}

// Puts what a search found behind a text.
fn put_found_text(text: &mut Vec<u8>, number: u64, docs: &[u64]) -> Result<(), AllocError>
    ensures ok { OnOk result (text.new.items
        ≡ text.old.items ++ text_of (Reply.Found number docs.now)) }
    ensures err { OnErr result (text.new.items ≡ text.old.items) }
{
    let stood = text.len();
    match push_found_text(text, number, docs) {
        Ok(()) => Ok(()),
        Err(error) => {
            text.truncate(stood);
            Err(error)
        }
    }
}

// Writes what a search found behind a text. Where memory runs out, a part may stand there.
fn push_found_text(text: &mut Vec<u8>, number: u64, docs: &[u64]) -> Result<(), AllocError>
    ensures ok { OnOk result (text.new.items
        ≡ text.old.items ++ text_of (Reply.Found number docs.now)) }
    ensures kept { OnErr result (take (length text.old.items) text.new.items ≡ text.old.items) }
{
    let front = format!(in *text.allocator(); "OK as of {number}:")?;
    text.extend_from_slice(front.as_bytes())?;
    if docs.is_empty() {
        text.extend_from_slice(b" none")?;
    } else {
        push_ids(text, docs)?;
    }
    text.push(b'\n')?;
    Ok(())
}
