//! Documents that come in at the back, in room that was made for them, and leave at the front.
ghost use Rattle.std.specs.Prelude.{◌≡◌, ◌+◌, ◌<◌, ◌≤◌, ◌++◌, ◌↔◌, [], ◌∷◌, length};
ghost use Rattle.std.specs.Prelude.{drop, IsTrue, IfSome, IfNone, OnOk, OnErr, vec_len};
ghost use Rattle.std.specs.Prelude.{vec_capacity};
ghost use Rattle.fts_ilist.specs.Spelling.{ArePositions, ArePostings};
ghost use Rattle.fts_ilist.specs.Spelling.{HasFirstId, first_id, id_at_end};
ghost use Rattle.fts_ilist.specs.Reading.{postings_in, IsTail};
ghost use Rattle.fts_ilist.specs.Spelling.{list_bytes};
ghost use Rattle.fts_ilist.specs.Queue.{Queue, bytes_for, postings_behind, StandsAt, Passes};
ghost use Rattle.fts_ilist.specs.Queue.{HoldsBytes};
ghost use Rattle.fts_ilist.specs.Cursor.{postings_until};

use crate::cursor::Cursor;
use crate::list::first_with;
use crate::number::front_number;
use crate::reading::{LAST_ID, body_len};
use crate::writing::{bytes_for_document, put_posting};
use std::alloc::{AllocError, Global};
use std::marker::Model;

/// How many bytes a queue may hold beside those in use, and as many as these.
const KEPT_ROOM: usize = 32;

/// How many more bytes a queue that has too little room gets at least. An allocator gives no block
/// of fewer.
const LEAST_ROOM: usize = 24;

/// Documents by ascending ids, each with its positions, kept in the bytes of a list. A document is
/// put in at the back, within room that was made for it, and the oldest leave at the front.
#[derive(Drop)]
pub struct PostingQueue {
    bytes: Vec<u8>,
    // Where the documents begin that are still in.
    start: usize,
    // The id of the last document that left, or 0.
    before: u64,
    // The id of the first document that is still in, or 0: who asks whether one leaves doesn't look
    // into the bytes.
    first: u64,
    // The id of the last document that came in, or 0.
    last: u64,
    // How many bytes were promised to documents that are still to come.
    room: usize,
}

impl Model for PostingQueue {
    ghost use Rattle.std.specs.Prelude.{drop, vec_capacity};
    ghost use Rattle.fts_ilist.specs.Reading.{postings_in};
    ghost use Rattle.fts_ilist.specs.Queue.{Queue, IsQueue};

    ghost Value = { Queue };

    ghost view = { λ q. record {
      postings = postings_in q.before (drop q.start q.bytes.items);
      last
          = q.last;
      room = q.room;
    } };

    ghost invariant = { λ q. IsQueue q.bytes.items (vec_capacity q.bytes) q.start q.before q.first
        q.last q.room };
}

/// The place behind the documents up to `doc`, of those from a place on, and the id before it.
fn place_behind(bytes: &[u8], start: usize, before: u64, doc: u64) -> (usize, u64)
    requires { StandsAt bytes.now start before }
    ensures stands { StandsAt bytes.now result.0 result.1 }
    ensures postings { postings_in result.1 (drop result.0 bytes.now)
        ≡ postings_behind doc (postings_in before (drop start bytes.now)) }
    ensures last { id_at_end result.1 (postings_in result.1 (drop result.0 bytes.now))
        ≡ id_at_end before (postings_in before (drop start bytes.now)) }
{
    let mut at = start;
    let mut last = before;
    while let Some((end, id)) = next_until(&bytes[at..], last, doc) {
        at += end;
        last = id;
    }
    (at, last)
}

/// The place behind the first document and its id, where there is one and it is not above `doc`.
pub(crate) fn next_until(rest: &[u8], last: u64, doc: u64) -> Option<(usize, u64)>
    requires { IsTail last rest.now }
    ensures some { IfSome result (λ next. Passes rest.now last doc next.0 next.1) }
    ensures up_to { IfNone result (postings_until doc (postings_in last rest.now) ≡ []) }
    ensures none { IfNone result (postings_behind doc (postings_in last rest.now)
        ≡ postings_in last rest.now) }
{
    if rest.is_empty() {
        return None;
    }
    let (increase, len) = front_number(rest);
    let id = last + increase;
    if id > doc {
        return None;
    }
    Some((len + body_len(&rest[len..]), id))
}

/// The id of the first document of these bytes behind an id, or 0 where there is none.
fn first_in(bytes: &[u8], last: u64) -> u64
    requires { IsTail last bytes.now }
    ensures { result ≡ first_id (postings_in last bytes.now) }
{
    match Cursor::new(last, bytes).doc() {
        Some(first) => first,
        None => 0,
    }
}

/// Takes the first `count` bytes out. The capacity stays.
fn cut_front(bytes: &mut Vec<u8>, count: usize)
    requires { count ≤ vec_len bytes.old }
    ensures items { bytes.new.items ≡ drop count bytes.old.items }
    ensures capacity { vec_capacity bytes.new ≡ vec_capacity bytes.old }
{
    let left = bytes.len() - count;
    bytes.copy_within(count.., 0);
    bytes.truncate(left);
}

/// Gives memory back where more than half of it would stay empty beside the room: what leaves a
/// queue mostly makes place for what comes.
fn give_back(bytes: &mut Vec<u8>, room: usize)
    requires { vec_len bytes.old + room ≤ vec_capacity bytes.old }
    ensures items { bytes.new.items ≡ bytes.old.items }
    ensures capacity { vec_len bytes.new + room ≤ vec_capacity bytes.new }
{
    let kept = bytes.len() + room;
    if bytes.capacity() / 2 > kept + KEPT_ROOM {
        bytes.shrink_to(kept + kept / 8);
    }
}

impl PostingQueue {
    /// A queue without documents and without room. What it holds later lies in this allocator.
    pub fn new(alloc: Global) -> Self
        ensures { result ≡ record { postings = []; last = 0; room = 0 } }
    {
        PostingQueue {
            bytes: Vec::new(alloc),
            start: 0,
            before: 0,
            first: 0,
            last: 0,
            room: 0,
        }
    }

    /// Whether it has no document. It takes constant time.
    pub fn is_empty(&self) -> bool
        ensures { IsTrue result ↔ (self.now.postings ≡ []) }
    {
        self.start == self.bytes.len()
    }

    /// The id of the first document, and None where there is none. It takes constant time, and no
    /// look at the documents.
    #[inline]
    pub fn first(&self) -> Option<u64>
        ensures none { IfNone result (self.now.postings ≡ []) }
        ensures first { IfSome result (HasFirstId self.now.postings) }
        ensures are { ArePostings self.now.postings }
    {
        if self.first == 0 {
            None
        } else {
            Some(self.first)
        }
    }

    /// The documents, by ascending ids. They are read in place, and no memory is taken.
    pub fn docs(&self) -> Cursor<'_>
        ensures documents { result ≡ self.now.postings }
        ensures are { ArePostings result }
    {
        Cursor::new(self.before, &self.bytes[self.start..])
    }

    /// For how many bytes of documents there is room.
    pub fn room(&self) -> usize
        ensures { result ≡ self.now.room }
    {
        self.room
    }

    /// How many bytes it holds: those of its documents, and at most as many of documents that left.
    pub fn bytes_len(&self) -> usize
        ensures { HoldsBytes (length (list_bytes self.now.postings)) result }
    {
        self.bytes.len()
    }

    /// Gives the room up that was made and not used.
    pub fn clear_room(&mut self)
        ensures { self.new ≡ record self.old { room = 0 } }
    {
        self.room = 0;
    }

    /// Makes room for one more document, which has so many positions, beside the room that there
    /// is. Where there is no memory, all stays as it was.
    pub fn reserve(&mut self, positions: usize) -> Result<(), AllocError>
        requires { positions ≤ 131072 }
        ensures ok { OnOk result (self.new
            ≡ record self.old { room = self.old.room + bytes_for positions }) }
        ensures err { OnErr result (self.new ≡ self.old) }
    {
        let room = self.room + bytes_for_document(positions);
        if self.bytes.capacity() - self.bytes.len() < room {
            // An eighth more, so that the bytes that are copied stay within a constant for each
            // byte put in.
            self.bytes
                .reserve_exact(room.max(self.bytes.len() / 8 + LEAST_ROOM))?;
        }
        self.room = room;
        Ok(())
    }

    /// Puts a document in at the back, within the room. It takes no memory.
    pub fn push(&mut self, doc: u64, positions: &[u32])
        requires above { self.old.last < doc }
        requires limit { doc ≤ LAST_ID }
        requires positions { ArePositions positions.now }
        requires room { bytes_for (length positions.now) ≤ self.old.room }
        ensures postings { self.new.postings
            ≡ self.old.postings ++ record { id = doc; positions = positions.now } ∷ [] }
        ensures last { self.new.last ≡ doc }
        ensures room { self.new.room + bytes_for (length positions.now) ≡ self.old.room }
    {
        put_posting(&mut self.bytes, doc - self.last, positions);
        self.first = first_with(self.first, doc);
        self.last = doc;
        self.room -= bytes_for_document(positions.len());
    }

    /// Takes the documents up to `doc` out. Where none leaves, or all, it takes constant time; else
    /// time for those that leave, and for the bytes behind them only where these are at most twice
    /// as many as those that left before.
    pub fn drop_until(&mut self, doc: u64)
        ensures { self.new ≡ record self.old { postings = postings_behind doc self.old.postings } }
    {
        if self.first > doc {
            return;
        }
        if self.last <= doc {
            self.clear();
            return;
        }
        self.cut_until(doc);
    }

    /// Takes all documents out.
    fn clear(&mut self)
        ensures { self.new ≡ record self.old { postings = [] } }
    {
        self.bytes.clear();
        self.start = 0;
        self.before = self.last;
        self.first = 0;
        give_back(&mut self.bytes, self.room);
    }

    /// Takes the documents up to `doc` out, which it walks over.
    fn cut_until(&mut self, doc: u64)
        ensures { self.new ≡ record self.old { postings = postings_behind doc self.old.postings } }
    {
        let (start, before) = place_behind(&self.bytes, self.start, self.before, doc);
        self.first = first_in(&self.bytes[start..], before);
        self.start = start;
        self.before = before;
        if start > (self.bytes.len() - start) / 2 {
            cut_front(&mut self.bytes, start);
            self.start = 0;
            give_back(&mut self.bytes, self.room);
        }
    }
}
