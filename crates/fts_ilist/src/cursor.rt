//! The one reader of lists that are known to be right: it stands at a document, and goes on from
//! there.
ghost use Rattle.std.specs.Prelude.{◌≡◌, ◌≢◌, ◌+◌, ◌<◌, ◌≤◌, ◌++◌, List, [], drop, length, map};
ghost use Rattle.std.specs.Prelude.{IfSome, IfNone, IfOk};
ghost use Rattle.std.specs.Vec.{vec_len, vec_capacity};
ghost use Rattle.std.specs.Iterator.{YieldsFirst, item_count};
ghost use Rattle.fts_ilist.specs.Number.{number_bytes};
ghost use Rattle.fts_ilist.specs.Spelling.{HasFirstId};
ghost use Rattle.fts_ilist.specs.Node.{head_size};
ghost use Rattle.fts_ilist.specs.Reading.{postings_in, IsTail};
ghost use Rattle.fts_ilist.specs.Cursor.{postings_from, postings_until, first_positions, IsBelow};
ghost use Rattle.fts_ilist.specs.Cursor.{postings_at, IsInside, IsSpan};

use crate::documents::{Document, Positions};
use crate::node::{HeldBytes, INLINE, Node};
use crate::number::{NUMBER_ROOM, front_number, put_number};
use crate::queue::next_until;
use crate::reading::body_len;
use smallvec::SmallVec;
use std::alloc::{AllocError, Global};
use std::iter::FusedIterator;
use std::marker::Model;

/// The documents of a list from the one at which it stands on, by ascending ids. It borrows the
/// list's bytes, copies nothing and takes no memory. As an iterator it gives the document at which
/// it stands, and goes on.
#[derive(Drop)]
pub struct Cursor<'a> {
    // The bytes from the first position of the document at which it stands on.
    rest: &'a [u8],
    // That document's id, or 0 at the end.
    id: u64,
}

impl<'a> Model for Cursor<'a> {
    ghost use Rattle.std.specs.Prelude.{List};
    ghost use Rattle.fts_ilist.specs.Spelling.{Posting};
    ghost use Rattle.fts_ilist.specs.Cursor.{postings_at, IsCursor};

    ghost Value = { List Posting };

    ghost view = { λ c. postings_at c.id c.rest.now };

    ghost invariant = { λ c. IsCursor c.id c.rest.now };
}

/// Documents of a cursor, from the one at which it stands on: how many bytes spell the first of
/// them behind its id, how many all of them, the last of their ids, and their number.
#[derive(Clone, Copy)]
struct Span {
    head: usize,
    len: usize,
    last: u64,
    count: usize,
}

/// The documents up to `doc` of a cursor, which stands at one of them.
fn span_until(id: u64, bytes: &[u8], doc: u64) -> Span
    requires positive { 0 < id }
    requires stands { IsInside id bytes.now }
    requires up_to { id ≤ doc }
    ensures some { postings_until doc (postings_at id bytes.now) ≢ [] }
    ensures head { result.head ≡ head_size (postings_until doc (postings_at id bytes.now)) }
    ensures span { IsSpan id bytes.now doc result.len result.last result.count }
{
    let head = body_len(bytes);
    let mut len = head;
    let mut last = id;
    let mut count = 1;
    while let Some((end, next)) = next_until(&bytes[len..], last, doc) {
        len += end;
        last = next;
        count += 1;
    }
    Span {
        head,
        len,
        last,
        count,
    }
}

/// The bytes of a list: those of its first id, and those that spell the documents behind it.
fn spelled(alloc: Global, first: u64, behind: &[u8]) -> Result<SmallVec<u8, INLINE>, AllocError>
    ensures { IfOk result (λ bytes. bytes.items ≡ number_bytes first ++ behind.now) }
{
    let mut number = [0; NUMBER_ROOM];
    let len = put_number(first, &mut number);
    let mut bytes = SmallVec::with_capacity(alloc, len + behind.len())?;
    bytes.extend_from_slice(&number[..len])?;
    bytes.extend_from_slice(behind)?;
    Ok(bytes)
}

impl<'a> Cursor<'a> {
    /// A cursor over no documents.
    pub fn none() -> Self
        ensures { result ≡ [] }
    {
        Cursor { rest: &[], id: 0 }
    }

    /// A cursor at the first of the documents that these bytes spell behind the id `last`.
    #[inline]
    pub(crate) fn new(last: u64, bytes: &'a [u8]) -> Self
        requires { IsTail last bytes.now }
        ensures { result ≡ postings_in last bytes.now }
    {
        if bytes.is_empty() {
            return Cursor { rest: bytes, id: 0 };
        }
        let (increase, len) = front_number(bytes);
        Cursor {
            rest: &bytes[len..],
            id: last + increase,
        }
    }

    /// How many bytes spell the documents from the one at which it stands on, without its id. A
    /// list of them takes no more beside this id.
    #[inline]
    pub fn bytes_left(&self) -> usize {
        self.rest.len()
    }

    /// The id of the document at which it stands, and None at the end. Nothing moves.
    #[inline]
    pub fn doc(&self) -> Option<u64>
        ensures none { IfNone result (self.now ≡ []) }
        ensures doc { IfSome result (HasFirstId self.now) }
    {
        if self.id == 0 { None } else { Some(self.id) }
    }

    /// The positions of the document at which it stands, in ascending order, and none at the end.
    /// Nothing moves.
    #[inline]
    pub fn positions(&self) -> Positions<'a>
        ensures { result ≡ first_positions self.now }
    {
        Positions {
            rest: self.rest,
            next: 0,
        }
    }

    /// Goes to the next document. At the end it stays there.
    #[inline]
    pub fn advance(&mut self)
        ensures { self.new ≡ drop 1 self.old }
    {
        if self.id > 0 {
            let len = body_len(self.rest);
            *self = Cursor::new(self.id, &self.rest[len..]);
        }
    }

    /// Puts the ids of the documents from the one at which it stands on behind others, within the
    /// room. No position is decoded, and no memory is taken.
    pub fn put_ids(self, ids: &mut Vec<u64>)
        requires { vec_len ids.old + length self ≤ vec_capacity ids.old }
        ensures { ids.new.items ≡ ids.old.items ++ map (λ p. p.id) self.entry }
    {
        let mut rest = self;
        while let Some(id) = rest.doc() {
            ids.push_reserved(id);
            rest.advance();
        }
    }

    /// Goes to the first document, from where it stands on, that is not below `id`. No position is
    /// decoded.
    pub fn skip_to(&mut self, id: u64)
        ensures { self.new ≡ postings_from id self.old }
    {
        while self.is_below(id) {
            self.advance();
        }
    }

    /// The documents up to `doc`, from the one at which it stands on, as a node of their own, where
    /// there is one. Their bytes are copied as they stand, and the node takes no more memory than
    /// these.
    pub fn node_until<'n>(&self, alloc: Global, doc: u64) -> Result<Option<Node<'n>>, AllocError>
        ensures some { IfOk result
            (λ found. IfSome found (λ node. node ≡ postings_until doc self.now)) }
        ensures none { IfOk result (λ found. IfNone found (postings_until doc self.now ≡ [])) }
    {
        if self.id == 0 {
            return Ok(None);
        }
        if self.id > doc {
            return Ok(None);
        }
        let span = span_until(self.id, self.rest, doc);
        let bytes = spelled(alloc, self.id, &self.rest[..span.len])?;
        Ok(Some(Node {
            bytes: HeldBytes::Own { bytes },
            first: self.id,
            last: span.last,
            count: span.count,
            head: span.head,
        }))
    }

    /// Whether it stands at a document below `id`.
    #[inline]
    fn is_below(&self, id: u64) -> bool
        ensures { IsBelow id self.now result }
    {
        self.id > 0 && self.id < id
    }
}

impl<'a> Iterator for Cursor<'a> {
    type Item = Document<'a>;

    ghost next_gives = { YieldsFirst (λ rest. rest) };

    ghost remaining = { item_count (λ rest. rest) };

    #[inline]
    fn next(&mut self) -> Option<Document<'a>> {
        if self.id == 0 {
            return None;
        }
        let len = body_len(self.rest);
        let document = Document {
            id: self.id,
            encoded: &self.rest[..len - 1],
        };
        *self = Cursor::new(self.id, &self.rest[len..]);
        Some(document)
    }
}

impl<'a> FusedIterator for Cursor<'a> {}
