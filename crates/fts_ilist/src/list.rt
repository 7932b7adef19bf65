//! Position lists as values.
ghost use Rattle.std.specs.Prelude.{◌≡◌, ℕ, ◌+◌, ◌^◌, ◌<◌, ◌≤◌, ◌↔◌, List, [], ◌∷◌, ◌++◌, length};
ghost use Rattle.std.specs.Prelude.{IsTrue, IfOk, IfErr, OnOk, OnErr};
ghost use Rattle.std.specs.List.Sorted.{IsPermutation, IsNonDecreasing};
ghost use Rattle.fts_ilist.specs.Spelling.{Posting, list_bytes, ArePositions, PostingsAfter};
ghost use Rattle.fts_ilist.specs.Spelling.{ArePostings, first_id, last_id};
ghost use Rattle.fts_ilist.specs.Fault.{IsFirstFault};
ghost use Rattle.fts_ilist.specs.Reading.{postings_in, IsTail};
ghost use Rattle.fts_ilist.specs.Progress.{first_or};
ghost use Rattle.fts_ilist.specs.Changes.{is_among, postings_without, AreDisjoint, MergesNext};
ghost use Rattle.fts_ilist.specs.Parsed.{GivesList, IsRefusedAt, IsCause};
ghost use Rattle.fts_ilist.specs.declared.list.ParseError.TheVariants as errors;

use crate::cursor::Cursor;
use crate::documents::Document;
use crate::number::{Bad, NUMBER_ROOM, front_number, number_len};
use crate::reading::{LAST_ID, last_of};
use crate::writing::{bytes_for_document, put_document, put_posting, put_tail};
use std::alloc::{AllocError, Global};
use std::error::Error;
use std::fmt;
use std::marker::Model;

/// Why bytes were not read as a list.
#[derive(Debug, Drop)]
pub enum ParseError {
    /// They are no list: the place of the first fault.
    Bad(Bad),
    /// There was no memory for the list.
    NoMemory,
}

impl fmt::Display for ParseError {
    fn fmt<W: fmt::Write>(&self, f: &mut fmt::Formatter<W>) -> fmt::Result {
        match self {
            ParseError::Bad(bad) => write!(f, "no position list: {bad}"),
            ParseError::NoMemory => f.write_str("no memory for a position list"),
        }
    }
}

impl Error for ParseError {}

impl From<Bad> for ParseError {
    ghost from_gives = { λ bad e. e ≡ errors.Bad bad };

    fn from(bad: Bad) -> ParseError {
        ParseError::Bad(bad)
    }
}

impl From<AllocError> for ParseError {
    ghost from_gives = { λ _ e. e ≡ errors.NoMemory };

    fn from(_error: AllocError) -> ParseError {
        ParseError::NoMemory
    }
}

/// A position list: documents by ascending ids, each with its positions. It is kept as its bytes,
/// and documents are added behind the last.
#[derive(Drop)]
pub struct Ilist {
    pub(crate) bytes: Vec<u8>,
    // The ids of the first and of the last document, or 0 where there is none.
    pub(crate) first: u64,
    pub(crate) last: u64,
    // The number of documents.
    pub(crate) count: usize,
}

impl Model for Ilist {
    ghost use Rattle.std.specs.Prelude.{List};
    ghost use Rattle.fts_ilist.specs.Spelling.{Posting};
    ghost use Rattle.fts_ilist.specs.Reading.{postings_in, IsKept};

    ghost Value = { List Posting };

    ghost view = { λ l. postings_in 0 l.bytes.items };

    ghost invariant = { λ l. IsKept l.first l.last l.count l.bytes.items };
}

/// The first id of a list behind whose documents one more comes.
pub(crate) fn first_with(first: u64, doc: u64) -> u64
    ensures { result ≡ first_or first doc }
{
    if first == 0 { doc } else { first }
}

impl Ilist {
    /// The list without documents, which has no bytes. What it holds later lies in this allocator.
    pub fn new(alloc: Global) -> Self
        ensures { result ≡ [] }
    {
        Ilist {
            bytes: Vec::new(alloc),
            first: 0,
            last: 0,
            count: 0,
        }
    }

    /// The list without documents, which has memory for so many bytes.
    pub(crate) fn with_room(alloc: Global, room: usize) -> Result<Self, AllocError>
        ensures { IfOk result (λ list. list ≡ []) }
    {
        let bytes = Vec::with_capacity(alloc, room)?;
        Ok(Ilist {
            bytes,
            first: 0,
            last: 0,
            count: 0,
        })
    }

    /// Whether the list has no documents.
    pub fn is_empty(&self) -> bool
        ensures { IsTrue result ↔ (self.now ≡ []) }
    {
        self.last == 0
    }

    /// The id of the last document, or 0 where there is none.
    pub fn last_id(&self) -> u64
        ensures value { result ≡ last_id self.now }
        ensures limit { result < 2 ^ 63 }
    {
        self.last
    }

    /// The id of the first document, or 0 where there is none.
    pub fn first_id(&self) -> u64
        ensures { result ≡ first_id self.now }
    {
        self.first
    }

    /// The number of documents.
    pub fn count(&self) -> usize
        ensures { result ≡ length self.now }
    {
        self.count
    }

    /// How many bytes this document would add behind the last. It takes constant time.
    pub fn size_of(&self, document: &Document<'_>) -> usize
        requires { last_id self.now < document.now.id }
        ensures { length (list_bytes (self.now ++ document.now ∷ []))
            ≡ length (list_bytes self.now) + result }
    {
        number_len(document.id - self.last) + document.encoded.len() + 1
    }

    /// Whether the list takes at most `limit` bytes with this document behind the last. It takes
    /// constant time.
    pub fn takes(&self, document: &Document<'_>, limit: usize) -> bool
        requires { last_id self.now < document.now.id }
        ensures { IsTrue result ↔ (length (list_bytes (self.now ++ document.now ∷ [])) ≤ limit) }
    {
        let size = self.size_of(document);
        size <= limit && self.bytes.len() <= limit - size
    }

    /// The bytes that spell the list.
    pub fn bytes(&self) -> &[u8]
        ensures spelled { result.now ≡ list_bytes self.now }
        ensures are { ArePostings self.now }
    {
        &self.bytes
    }

    /// A cursor at the first document. It reads in place, and takes no memory.
    pub fn cursor(&self) -> Cursor<'_>
        ensures documents { result ≡ self.now }
        ensures are { ArePostings result }
    {
        Cursor::new(0, &self.bytes)
    }

    /// The documents, by ascending ids. They are read in place, and no memory is taken.
    pub fn docs(&self) -> Cursor<'_>
        ensures documents { result ≡ self.now }
        ensures are { ArePostings result }
    {
        self.cursor()
    }

    /// Adds a document behind the last. Where there is no memory for it, the list stays as it was.
    pub fn push(&mut self, doc: u64, positions: &[u32]) -> Result<(), AllocError>
        requires above { last_id self.old < doc }
        requires limit { doc ≤ LAST_ID }
        requires positions { ArePositions positions.now }
        ensures ok { OnOk result (self.new
            ≡ self.old ++ record { id = doc; positions = positions.now } ∷ []) }
        ensures err { OnErr result (self.new ≡ self.old) }
    {
        self.bytes.reserve(bytes_for_document(positions.len()))?;
        put_posting(&mut self.bytes, doc - self.last, positions);
        self.first = first_with(self.first, doc);
        self.last = doc;
        self.count += 1;
        Ok(())
    }

    /// Adds a document of another list behind the last, as `push` does; its positions are copied as
    /// they stand.
    pub fn push_document(&mut self, document: &Document<'_>) -> Result<(), AllocError>
        requires { last_id self.old < document.now.id }
        ensures ok { OnOk result (self.new ≡ self.old ++ document.now ∷ []) }
        ensures err { OnErr result (self.new ≡ self.old) }
    {
        self.bytes
            .reserve(document.encoded.len() + NUMBER_ROOM + 1)?;
        put_document(&mut self.bytes, document.id - self.last, document.encoded);
        self.first = first_with(self.first, document.id);
        self.last = document.id;
        self.count += 1;
        Ok(())
    }

    /// The list of the documents whose ids are not among `ids`, which ascend. It lies in this
    /// list's allocator.
    pub fn without(&self, ids: &[u64]) -> Result<Ilist, AllocError>
        requires { IsNonDecreasing ids.now }
        ensures { IfOk result (λ left. left ≡ postings_without ids.now self.now) }
    {
        let mut left = Ilist::new(*self.bytes.allocator());
        for document in self.docs() {
            if !holds(ids, document.id()) {
                left.push_document(&document)?;
            }
        }
        Ok(left)
    }

    /// Adds the documents of the other list, which has none with an id of this one. Where there is
    /// no memory for them, the list stays as it was. Where all are behind the last, this takes time
    /// for them alone.
    pub fn join(&mut self, other: &Ilist) -> Result<(), AllocError>
        requires { AreDisjoint self.old other.now }
        ensures union { OnOk result (IsPermutation (self.old ++ other.now) self.new) }
        ensures ascending { ArePostings self.new }
        ensures err { OnErr result (self.new ≡ self.old) }
    {
        let last = self.last;
        match other.cursor().doc() {
            None => Ok(()),
            Some(first) if first > last => self.append(other),
            Some(_) => {
                let joined = merged(*self.bytes.allocator(), self.cursor(), other.cursor())?;
                *self = joined;
                Ok(())
            }
        }
    }

    /// Adds the documents of the other list behind the last.
    fn append(&mut self, other: &Ilist) -> Result<(), AllocError>
        requires { PostingsAfter (last_id self.old) other.now }
        ensures ok { OnOk result (self.new ≡ self.old ++ other.now) }
        ensures err { OnErr result (self.new ≡ self.old) }
    {
        if other.bytes.is_empty() {
            return Ok(());
        }
        let (first, start) = front_number(&other.bytes);
        let tail = &other.bytes[start..];
        self.bytes.reserve(tail.len() + NUMBER_ROOM)?;
        put_tail(&mut self.bytes, first - self.last, tail);
        self.first = first_with(self.first, first);
        self.last = other.last;
        self.count += other.count;
        Ok(())
    }
}

/// Whether the id is among `ids`, which ascend.
fn holds(ids: &[u64], id: u64) -> bool
    requires { IsNonDecreasing ids.now }
    ensures { result ≡ is_among ids.now id }
{
    ids.binary_search(&id).is_ok()
}

/// The document with the smaller id, of the next ones of two lists.
fn next_of<'a>(left: &mut Cursor<'a>, right: &mut Cursor<'a>) -> Option<Document<'a>>
    ensures { MergesNext left.old right.old left.new right.new result }
{
    match (left.doc(), right.doc()) {
        (Some(a), Some(b)) if b < a => right.next(),
        (None, _) => right.next(),
        _ => left.next(),
    }
}

/// The documents of both lists, by ascending ids.
fn merged<'a>(
    alloc: Global,
    mut left: Cursor<'a>,
    mut right: Cursor<'a>,
) -> Result<Ilist, AllocError>
    requires left { ArePostings left }
    requires right { ArePostings right }
    requires disjoint { AreDisjoint left right }
    ensures union { IfOk result (λ joined. IsPermutation (left.entry ++ right.entry) joined) }
    ensures ascending { IfOk result (λ joined. ArePostings joined) }
{
    let mut joined = Ilist::new(alloc);
    while let Some(document) = next_of(&mut left, &mut right) {
        joined.push_document(&document)?;
    }
    Ok(joined)
}

/// The id of the first document of the list that these bytes are, or 0 where there is none.
pub(crate) fn first_of(bytes: &[u8]) -> u64
    requires { IsTail 0 bytes.now }
    ensures { result ≡ first_id (postings_in 0 bytes.now) }
{
    Cursor::new(0, bytes).doc().unwrap_or(0)
}

/// Reads the bytes as a list, all of them, and copies them.
///
/// # Errors
///
/// `Bad` exactly where the bytes are no list, with the place at which the first faulty item begins:
/// a number or a byte 00 that can't stand there, a number that has no end, is not in its fewest
/// bytes or is too large. An item that is missing at the end has the place behind the last byte.
/// `NoMemory` where there is none for the copy.
pub fn parse(alloc: Global, bytes: &[u8]) -> Result<Ilist, ParseError>
    // What is read is spelled so.
    ensures found { IfOk result (λ list. ArePostings list × (bytes.now ≡ list_bytes list)) }
    // What is spelled so is read.
    ensures read_back { (ps : List Posting) → ArePostings ps → bytes.now ≡ list_bytes ps
        → GivesList ps result }
    // A refusal has its place,
    ensures cause { IfErr result (IsCause bytes.now) }
    // and each fault is refused there.
    ensures refused { (at : ℕ) → IsFirstFault bytes.now at → IsRefusedAt at result }
{
    let (last, count) = last_of(bytes)?;
    let bytes = Vec::from_slice(alloc, bytes)?;
    let first = first_of(&bytes);
    Ok(Ilist {
        bytes,
        first,
        last,
        count,
    })
}

/// Each list has one spelling, and each spelling is of one list.
pub fn lists_have_one_spelling()
    ensures { (ps qs : List Posting) → ArePostings ps → ArePostings qs
        → list_bytes ps ≡ list_bytes qs → ps ≡ qs }
{}
