//! The cached words, each by a number of its own, and their queues.
ghost use Rattle.std.specs.Prelude.{◌≡◌, ◌≢◌, ◌+◌, ◌-◌, ◌<◌, ◌≤◌, ◌↔◌, ◌++◌};
ghost use Rattle.std.specs.Prelude.{List, ℕ, [], ◌∷◌, Some, None, length, map, IfOk, IfSome, OnOk};
ghost use Rattle.std.specs.Prelude.{OnErr, IsTrue, true, false, nat_eq, if◌then◌else◌};
ghost use Rattle.std.specs.Option.{option_map, option_to_list};
ghost use Rattle.std.specs.List.{IsDistinct};
ghost use Rattle.std.specs.Str.{bytes_eq};
ghost use Rattle.fts_cache.specs.Sorted.{IsAmong, AscendByBytes};
ghost use Rattle.std.specs.List.{All, list_any};
ghost use Rattle.std.specs.List.Sorted.{IsPermutation, IsSortedBy, IsStrictlySortedBy};
ghost use Rattle.std.specs.Ordering.{is_lt};
ghost use Rattle.fts_words.specs.Order.{byte_order};
ghost use Rattle.fts_ilist.specs.Spelling.{ArePostings};
ghost use Rattle.fts_cache.specs.Words.{Entries, slot_in, number_in, queue_in, IsTable};
ghost use Rattle.fts_cache.specs.Words.{Alters, CanTake, Enters, Changes, Stays, IsLess};
ghost use Rattle.fts_cache.specs.Words.{LetsGo, GivesUp};
ghost use Rattle.fts_cache.specs.Words.{IsDropped, with_more_room, without_room, with_posting};
ghost use Rattle.fts_cache.specs.Words.{without, has_number, leaves};
ghost use Rattle.fts_ilist.specs.Cursor.{postings_until};
ghost use Rattle.fts_cache.specs.Words.{leaving_word, leaving_words, has_documents};
ghost use Rattle.fts_ilist.specs.Front.{front};
ghost use Rattle.fts_words.specs.Order.{begins_with};
ghost use Rattle.fts_cache.specs.Words.{with_documents, is_spent, is_spent_at, IsUsedBut, IsListed};
ghost use Rattle.fts_cache.specs.Words.{FewIdle};
ghost use Rattle.fts_cache.specs.Words.{AreKept, IsSealed, KeepsBut, is_leaving_as, leaving_listed};
ghost use Rattle.fts_cache.specs.Words.{sealed_all, sealed_word};
ghost use Rattle.fts_ilist.specs.Packing.{packed};
ghost use Rattle.std.specs.Map.{keys_of};

use fts_ilist::{Cursor, Nodes, PostingQueue, WordNodes, pack_until};
use fts_types::{Word, WordBytes};
use indexmap::IndexMap;
use slab::Slab;
use std::alloc::{AllocError, Global};
use std::cmp::Ordering;
use std::collections::BTreeMap;
use std::collections::btree_map::{Iter, Range};
use std::marker::Model;
use std::mem;
use std::ops::Bound;

/// How many words are looked at together before their nodes are made, so that the processor fetches
/// what they hold side by side.
const TOGETHER: usize = 32;

/// Words that are lent, each with its documents.
type Lent<'a> = Vec<(&'a [u8], Cursor<'a>)>;

/// A word, and its documents.
#[derive(Drop)]
pub(crate) struct CachedWord {
    word: Word,
    queue: PostingQueue,
}

/// Words, each with a number that stays the same as long as it is here, and with a queue of
/// documents.
#[derive(Drop)]
pub(crate) struct Words {
    // The number of each word.
    numbers: IndexMap<Word, u32>,
    // By their numbers.
    slots: Slab<CachedWord>,
    // The number of each word, in the order of their bytes. A word that left may still stand here.
    order: BTreeMap<Word, u32>,
    // The numbers of the words that may have neither documents nor room: since the last sweep they
    // were entered, or their last document left.
    idle: Vec<u32>,
}

impl Model for Words {
    ghost use Rattle.fts_cache.specs.Words.{Entries, AreKept};

    ghost Value = { Entries };

    ghost view = { λ w. record { numbers = w.numbers.entries; slots = w.slots.slots } };

    ghost invariant = { λ w. AreKept (record {
      numbers = w.numbers.entries;
      slots = w.slots.slots;
    }) w.order w.idle.items };
}

/// Makes room for one more document in the queue with this number.
fn reserve_at(slots: &mut Slab<CachedWord>, number: u32, positions: usize) -> Result<(), AllocError>
    requires { positions ≤ 131072 }
    ensures ok { OnOk result (Alters number (with_more_room positions) slots.old.slots
        slots.new.slots) }
    ensures err { OnErr result (Alters number (λ q. q) slots.old.slots slots.new.slots) }
{
    match slots.get_mut(number as usize) {
        Some(cached) => cached.queue.reserve(positions),
        None => Ok(()),
    }
}

/// Gives up the room of the queue with this number that was made and not used.
fn clear_at(slots: &mut Slab<CachedWord>, number: u32)
    ensures { Alters number without_room slots.old.slots slots.new.slots }
{
    if let Some(cached) = slots.get_mut(number as usize) {
        cached.queue.clear_room();
    }
}

/// Puts a document into the queue with this number, within its room.
fn push_at(slots: &mut Slab<CachedWord>, number: u32, doc: u64, positions: &[u32])
    requires { (s : CachedWord) → slot_in slots.old.slots number ≡ Some s
        → CanTake s.queue doc positions.now }
    ensures { Alters number (with_posting doc positions.now) slots.old.slots slots.new.slots }
{
    if let Some(cached) = slots.get_mut(number as usize) {
        cached.queue.push(doc, positions);
    }
}

/// Takes the documents up to `doc` out of the queue with this number.
fn drop_at(slots: &mut Slab<CachedWord>, number: usize, doc: u64)
    ensures { Alters number (without doc) slots.old.slots slots.new.slots }
{
    if let Some(cached) = slots.get_mut(number) {
        cached.queue.drop_until(doc);
    }
}

/// Whether a queue has neither documents nor room.
fn is_idle(queue: &PostingQueue) -> bool
    ensures { result ≡ is_spent queue.now }
{
    if !queue.is_empty() {
        return false;
    }
    queue.room() == 0
}

/// Whether there is a queue with this number that has neither documents nor room.
fn is_unused(slots: &Slab<CachedWord>, number: usize) -> bool
    ensures { result ≡ is_spent_at slots.now.slots number }
{
    match slots.get(number) {
        Some(cached) => is_idle(&cached.queue),
        None => false,
    }
}

/// Takes a word that left out of those in byte order, where these are more than there are places
/// for words. Else it stays there: mostly it comes again, and no search looks at its number alone.
fn forget(order: &mut BTreeMap<Word, u32>, places: usize, word: &Word)
    ensures { KeepsBut word.now order.old order.new }
{
    if order.len() > places {
        order.remove(word);
    }
}

/// Lets go of the word with this number, where it has neither documents nor room.
fn let_go(
    numbers: &mut IndexMap<Word, u32>,
    slots: &mut Slab<CachedWord>,
    order: &mut BTreeMap<Word, u32>,
    number: usize,
)
    requires table { IsTable (record { numbers = numbers.old.entries; slots = slots.old.slots }) }
    requires listed { IsListed numbers.old.entries order.old }
    ensures table { IsTable (record { numbers = numbers.new.entries; slots = slots.new.slots }) }
    ensures listed { IsListed numbers.new.entries order.new }
    ensures less { LetsGo number
        (record { numbers = numbers.old.entries; slots = slots.old.slots })
        (record { numbers = numbers.new.entries; slots = slots.new.slots }) }
{
    if !is_unused(slots, number) {
        return;
    }
    if let Some(cached) = slots.try_remove(number) {
        numbers.swap_remove(&cached.word);
        forget(order, slots.capacity(), &cached.word);
    }
}

/// Notes a number behind the others, where there is a place for it, and tells whether it did. It
/// takes no memory.
fn note_idle(idle: &mut Vec<u32>, number: usize) -> bool
    ensures noted { result ≡ true → idle.new.items ≡ idle.old.items ++ number ∷ [] }
    ensures not_noted { result ≡ false → idle.new.items ≡ idle.old.items }
{
    if idle.len() == idle.capacity() {
        return false;
    }
    match u32::try_from(number) {
        Ok(number) => {
            idle.push(number).unwrap();
            true
        }
        Err(_) => false,
    }
}

/// Notes the number of a word that has neither documents nor room, since it mostly comes again.
/// Where there is no place for the note, the word is let go of.
fn retire(
    numbers: &mut IndexMap<Word, u32>,
    slots: &mut Slab<CachedWord>,
    order: &mut BTreeMap<Word, u32>,
    idle: &mut Vec<u32>,
    number: usize,
)
    requires kept { AreKept (record { numbers = numbers.old.entries; slots = slots.old.slots })
        order.old (number ∷ idle.old.items) }
    ensures kept { AreKept (record { numbers = numbers.new.entries; slots = slots.new.slots })
        order.new idle.new.items }
    ensures less { IsLess (record { numbers = numbers.old.entries; slots = slots.old.slots })
        (record { numbers = numbers.new.entries; slots = slots.new.slots }) }
{
    if is_unused(slots, number) && note_idle(idle, number) {
        return;
    }
    let_go(numbers, slots, order, number);
}

/// Takes numbers off the end whose words have documents or room, as those mostly have that were
/// entered last.
fn trim(idle: &mut Vec<u32>, slots: &Slab<CachedWord>)
    ensures { (numbers : List (List ℕ × ℕ))
        → IsTable (record { numbers = numbers; slots = slots.now.slots })
        → IsUsedBut (record { numbers = numbers; slots = slots.now.slots }) idle.old.items
        → IsUsedBut (record { numbers = numbers; slots = slots.now.slots }) idle.new.items }
{
    while let Some(last) = idle.last() {
        if is_unused(slots, *last as usize) {
            return;
        }
        idle.pop();
    }
}

/// Lets go of the words with these numbers that have neither documents nor room, which are all.
fn let_go_all(
    numbers: &mut IndexMap<Word, u32>,
    slots: &mut Slab<CachedWord>,
    order: &mut BTreeMap<Word, u32>,
    idle: &[u32],
)
    requires kept { AreKept (record { numbers = numbers.old.entries; slots = slots.old.slots })
        order.old idle.now }
    ensures kept { AreKept (record { numbers = numbers.new.entries; slots = slots.new.slots })
        order.new [] }
    ensures less { IsLess (record { numbers = numbers.old.entries; slots = slots.old.slots })
        (record { numbers = numbers.new.entries; slots = slots.new.slots }) }
    ensures room { (w : List ℕ)
        → (queue_in (record { numbers = numbers.new.entries; slots = slots.new.slots }) w).room
        ≡ (queue_in (record { numbers = numbers.old.entries; slots = slots.old.slots }) w).room }
{
    let mut rest = idle;
    while let Some((first, behind)) = rest.split_first() {
        let_go(numbers, slots, order, *first as usize);
        rest = behind;
    }
}

/// Whether a queue has a document up to `doc`.
fn is_leaving(queue: &PostingQueue, doc: u64) -> bool
    ensures { result ≡ leaves doc queue.now }
{
    match queue.first() {
        Some(first) => first <= doc,
        None => false,
    }
}

/// The word with this number, where it has a document up to `doc`.
fn leaving(slots: &Slab<CachedWord>, number: u32, doc: u64) -> Option<&CachedWord>
    ensures word { option_map (λ s. s.now.word) result
        ≡ leaving_word doc (slot_in slots.now.slots number) }
    ensures slot { IfSome result (λ s. slot_in slots.now.slots number ≡ Some s.now) }
{
    match slots.get(number as usize) {
        Some(cached) if is_leaving(&cached.queue, doc) => Some(cached),
        _ => None,
    }
}

/// Puts words that are lent with their documents behind others, each with the nodes of its
/// documents up to `doc`.
fn seal_all(nodes: &mut Nodes<'_>, lent: Lent<'_>, doc: u64) -> Result<(), AllocError>
    ensures { OnOk result (nodes.new.items
        ≡ nodes.old.items ++ sealed_all doc lent.entry.items) }
{
    let alloc = *nodes.allocator();
    for entry in lent {
        let (word, documents) = entry;
        let packed = pack_until(alloc, documents, doc)?;
        nodes.push(WordNodes::new(Word::copied(alloc, word)?, packed))?;
    }
    Ok(())
}

/// Lends a word with its documents, where there is one. Where so many are lent as are looked at
/// together, they come behind the others.
fn put_leaving<'a>(
    nodes: &mut Nodes<'_>,
    lent: &mut Lent<'a>,
    cached: Option<&'a CachedWord>,
    doc: u64,
) -> Result<(), AllocError>
    ensures { OnOk result (nodes.new.items ++ sealed_all doc lent.new.items
        ≡ (nodes.old.items ++ sealed_all doc lent.old.items)
        ++ option_to_list (option_map (λ s. sealed_word doc s.now) cached.entry)) }
{
    let Some(cached) = cached else {
        return Ok(());
    };
    lent.push((cached.word.as_bytes(), cached.queue.docs()))?;
    if lent.len() < TOGETHER {
        return Ok(());
    }
    let next = Vec::with_capacity(*nodes.allocator(), TOGETHER)?;
    seal_all(nodes, mem::replace(lent, next), doc)
}

/// Those of the words with these numbers that have a document up to `doc`, each with the nodes of
/// these documents.
fn all_leaving<'n>(
    alloc: Global,
    slots: &Slab<CachedWord>,
    numbers: &[u32],
    doc: u64,
) -> Result<Nodes<'n>, AllocError>
    ensures words { IfOk result (λ nodes. keys_of nodes.items
        ≡ leaving_words slots.now.slots doc numbers.now) }
    ensures sealed { IfOk result (λ nodes. All (λ e. IsSealed slots.now.slots doc e.0 e.1)
        nodes.items) }
{
    let mut nodes = Vec::new(alloc);
    let mut lent = Vec::new(alloc);
    for number in numbers {
        put_leaving(&mut nodes, &mut lent, leaving(slots, *number, doc), doc)?;
    }
    seal_all(&mut nodes, lent, doc)?;
    Ok(nodes)
}

/// The word with this number, where it is this one and has a document up to `doc`.
fn leaving_as<'a>(
    slots: &'a Slab<CachedWord>,
    word: &[u8],
    number: u32,
    doc: u64,
) -> Option<&'a CachedWord>
    ensures word { option_map (λ s. s.now.word) result
        ≡ (if is_leaving_as slots.now.slots doc (word.now, number) then Some word.now else None) }
    ensures slot { IfSome result (λ s. slot_in slots.now.slots number ≡ Some s.now) }
{
    match leaving(slots, number, doc) {
        Some(cached) => {
            if word == cached.word.as_bytes() {
                return Some(cached);
            }
            None
        }
        None => None,
    }
}

/// Those of the words in byte order that have a document up to `doc`, each with the nodes of these
/// documents.
fn all_listed<'n>(
    alloc: Global,
    slots: &Slab<CachedWord>,
    rest: Iter<'_, Word, u32>,
    doc: u64,
) -> Result<Nodes<'n>, AllocError>
    ensures words { IfOk result (λ nodes. keys_of nodes.items
        ≡ leaving_listed slots.now.slots doc rest.entry) }
    ensures sealed { IfOk result (λ nodes. All (λ e. IsSealed slots.now.slots doc e.0 e.1)
        nodes.items) }
{
    let mut rest = rest;
    let mut nodes = Vec::new(alloc);
    let mut lent = Vec::new(alloc);
    while let Some((word, number)) = rest.next() {
        let cached = leaving_as(slots, word.as_bytes(), *number, doc);
        put_leaving(&mut nodes, &mut lent, cached, doc)?;
    }
    seal_all(&mut nodes, lent, doc)?;
    Ok(nodes)
}

/// How two words are ordered: as their bytes are.
fn by_bytes(word: &WordNodes<'_>, other: &WordNodes<'_>) -> Ordering
    ensures { result ≡ byte_order word.now.0 other.now.0 }
{
    word.word().cmp(other.word())
}

/// Sorts words by their bytes. It takes no memory.
fn sort_words(nodes: &mut Nodes<'_>)
    ensures same { IsPermutation nodes.old.items nodes.new.items }
    ensures sorted { IsSortedBy (λ v w. is_lt (byte_order v.0 w.0)) nodes.new.items }
{
    nodes.sort_unstable_by(|a, b| by_bytes(a, b));
}

/// The words at the front of the rest that begin so, and that a document has.
fn shown_with_prefix<'a>(
    words: &'a Words,
    rest: Range<'a, Word, u32>,
    prefix: &[u8],
) -> Result<Vec<&'a [u8]>, AllocError>
    ensures { IfOk result (λ found. map (λ w. w.now) found.items
        ≡ with_documents words.now (front (λ w. w) prefix.now (keys_of rest.entry))) }
{
    let mut rest = rest;
    let mut found = Vec::new(words.allocator());
    while let Some(entry) = rest.next() {
        let word = entry.0;
        if !word.as_bytes().starts_with(prefix) {
            return Ok(found);
        }
        push_shown(
            &mut found,
            word.as_bytes(),
            words.has_documents(word.as_bytes()),
        )?;
    }
    Ok(found)
}

/// Puts a word behind the others, where it shows.
fn push_shown<'a>(words: &mut Vec<&'a [u8]>, word: &'a [u8], shown: bool) -> Result<(), AllocError>
    ensures { OnOk result (map (λ w. w.now) words.new.items
        ≡ map (λ w. w.now) words.old.items ++ (if shown then word.now ∷ [] else [])) }
{
    if shown {
        words.push(word)?;
    }
    Ok(())
}

impl Words {
    /// No words. What it holds later lies in this allocator.
    pub fn new(alloc: Global) -> Self
        ensures { result ≡ record { numbers = []; slots = [] } }
    {
        Words {
            numbers: IndexMap::new(alloc),
            slots: Slab::new(alloc),
            order: BTreeMap::new(alloc),
            idle: Vec::new(alloc),
        }
    }

    /// The allocator of the words.
    pub fn allocator(&self) -> Global {
        *self.numbers.allocator()
    }

    /// How many words stand in byte order: those that are here, and some that left.
    pub fn listed_len(&self) -> usize {
        self.order.len()
    }

    /// How many places there are for words. Each word's number is below it.
    pub fn places(&self) -> usize
        ensures { (w : List ℕ) (n : ℕ) → number_in self.now w ≡ Some n → n < result }
    {
        self.slots.capacity()
    }

    /// How many words there are.
    pub fn len(&self) -> usize
        ensures { result ≡ length self.now.numbers }
    {
        self.numbers.len()
    }

    /// The documents of a word, by ascending ids.
    pub fn docs(&self, word: &[u8]) -> Cursor<'_>
        ensures documents { result ≡ (queue_in self.now word.now).postings }
        ensures are { ArePostings result }
    {
        let Some(number) = self.numbers.get(WordBytes { bytes: word }) else {
            return Cursor::none();
        };
        match self.slots.get(*number as usize) {
            Some(cached) => cached.queue.docs(),
            None => Cursor::none(),
        }
    }

    /// Whether a document has the word.
    fn has_documents(&self, word: &[u8]) -> bool
        ensures { result ≡ has_documents self.now word.now }
    {
        match self.docs(word).doc() {
            Some(_) => true,
            None => false,
        }
    }

    /// The number of a word, which is entered without documents where it is not here yet.
    pub fn enter(&mut self, word: &[u8]) -> Result<u32, AllocError>
        ensures number { IfOk result (λ n. number_in self.new word.now ≡ Some n) }
        ensures enters { Enters self.old self.new }
        ensures used { IfOk result (λ n. (idle : List ℕ)
            → IsUsedBut self.old idle → IsUsedBut self.new (n ∷ idle)) }
    {
        if let Some(number) = self.numbers.get(WordBytes { bytes: word }) {
            return Ok(*number);
        }
        let alloc = self.allocator();
        let Ok(number) = u32::try_from(self.slots.vacant_key()) else {
            return Err(AllocError);
        };
        let key = Word::copied(alloc, word)?;
        let listed = Word::copied(alloc, word)?;
        let word = Word::copied(alloc, word)?;
        let queue = PostingQueue::new(alloc);
        self.slots.reserve(1)?;
        self.numbers.reserve(1)?;
        // With places for words whose last document leaves: to note these takes no memory.
        self.idle.reserve(1 + self.numbers.len() / 2)?;
        self.order.insert(listed, number)?;
        self.numbers.insert(key, number).unwrap();
        self.slots.insert_reserved(CachedWord { word, queue });
        self.idle.push(number).unwrap();
        Ok(number)
    }

    /// Makes room for one more document of the word with this number, which has it at so many
    /// positions. Where there is no memory, all stays as it was.
    pub fn reserve(&mut self, number: u32, positions: usize) -> Result<(), AllocError>
        requires { positions ≤ 131072 }
        ensures numbers { self.new.numbers ≡ self.old.numbers }
        ensures ok { OnOk result ((word : List ℕ) → number_in self.old word ≡ Some number
            → Changes self.old word (with_more_room positions (queue_in self.old word))
            self.new) }
        ensures used { OnOk result ((idle : List ℕ)
            → IsUsedBut self.old (number ∷ idle) → IsUsedBut self.new idle) }
        ensures err { OnErr result (Stays self.old self.new) }
    {
        reserve_at(&mut self.slots, number, positions)
    }

    /// Puts a document into the queue of the word with this number, within its room.
    pub fn push(&mut self, number: u32, doc: u64, positions: &[u32])
        requires { (word : List ℕ) × (number_in self.old word ≡ Some number)
            × CanTake (queue_in self.old word) doc positions.now }
        ensures numbers { self.new.numbers ≡ self.old.numbers }
        ensures changes { (word : List ℕ) → number_in self.old word ≡ Some number
            → Changes self.old word (with_posting doc positions.now (queue_in self.old word))
            self.new }
    {
        push_at(&mut self.slots, number, doc, positions);
    }

    /// Gives up the room of the word with this number, and lets go of the word where it has no
    /// document.
    pub fn release(&mut self, number: u32)
        ensures less { IsLess self.old self.new }
        ensures room { (w : List ℕ) → GivesUp (number ∷ []) self.old self.new w }
    {
        clear_at(&mut self.slots, number);
        let_go(
            &mut self.numbers,
            &mut self.slots,
            &mut self.order,
            number as usize,
        );
    }

    /// Lets go of the words that have neither documents nor room, where these may be more than half
    /// of all. It costs those that were entered or whose last document left since it last did so.
    pub fn sweep(&mut self)
        ensures less { IsLess self.old self.new }
        ensures room { (w : List ℕ) → (queue_in self.new w).room ≡ (queue_in self.old w).room }
        ensures few { FewIdle self.new }
    {
        trim(&mut self.idle, &self.slots);
        if self.idle.len() <= self.numbers.len() / 2 {
            return;
        }
        let_go_all(
            &mut self.numbers,
            &mut self.slots,
            &mut self.order,
            &self.idle,
        );
        self.idle.clear();
    }

    /// Takes the documents up to `doc` out of the queue of the word with this number. A word that
    /// has none any more, and no room, stays until a sweep, as long as its number can be noted.
    pub fn drop_until(&mut self, number: usize, doc: u64)
        ensures { (w : List ℕ) → IsDropped number doc self.old self.new w }
    {
        drop_at(&mut self.slots, number, doc);
        retire(
            &mut self.numbers,
            &mut self.slots,
            &mut self.order,
            &mut self.idle,
            number,
        );
    }

    /// Those of the words with these numbers that have a document up to `doc`, in the order of
    /// their bytes, each with the nodes of these documents.
    pub fn leaving<'n>(&self, numbers: &[u32], doc: u64) -> Result<Nodes<'n>, AllocError>
        requires { IsDistinct nat_eq numbers.now }
        ensures words { IfOk result (λ nodes. (w : List ℕ)
            → IsTrue (list_any (bytes_eq w) (keys_of nodes.items))
            ↔ ((n : ℕ) × (number_in self.now w ≡ Some n) × (has_number n numbers.now ≡ true)
            × (postings_until doc (queue_in self.now w).postings ≢ []))) }
        ensures ascending { IfOk result
            (λ nodes. IsStrictlySortedBy byte_order (keys_of nodes.items)) }
        ensures nodes { IfOk result (λ nodes. All (λ e.
            e.1 ≡ packed (postings_until doc (queue_in self.now e.0).postings)) nodes.items) }
    {
        let mut nodes = all_leaving(self.allocator(), &self.slots, numbers, doc)?;
        sort_words(&mut nodes);
        Ok(nodes)
    }

    /// The words that have a document up to `doc`, in the order of their bytes, each with the nodes
    /// of these documents. It is a walk over all words.
    pub fn leaving_in_order<'n>(&self, doc: u64) -> Result<Nodes<'n>, AllocError>
        ensures words { IfOk result (λ nodes. (w : List ℕ)
            → IsTrue (list_any (bytes_eq w) (keys_of nodes.items))
            ↔ (postings_until doc (queue_in self.now w).postings ≢ [])) }
        ensures ascending { IfOk result
            (λ nodes. IsStrictlySortedBy byte_order (keys_of nodes.items)) }
        ensures nodes { IfOk result (λ nodes. All (λ e.
            e.1 ≡ packed (postings_until doc (queue_in self.now e.0).postings)) nodes.items) }
    {
        all_listed(self.allocator(), &self.slots, self.order.iter(), doc)
    }

    /// The words that begin so and have a document, in the order of their bytes.
    pub fn prefix(&self, prefix: &[u8]) -> Result<Vec<&[u8]>, AllocError>
        ensures words { IfOk result
            (λ words. (w : List ℕ) → IsAmong w words.items
            ↔ (IsTrue (begins_with prefix.now w)
            × ((queue_in self.now w).postings ≢ []))) }
        ensures ascending { IfOk result (λ words. AscendByBytes words.items) }
    {
        let first = Word::copied(self.allocator(), prefix)?;
        let rest = self
            .order
            .range((Bound::Included(&first), Bound::Unbounded));
        shown_with_prefix(self, rest, prefix)
    }
}
