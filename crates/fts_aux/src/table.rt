//! One of the six tables.
ghost use Rattle.std.specs.Prelude.{◌≡◌, ◌≢◌, ℕ, ◌≤◌, ◌++◌, [], map, List, length, ◌+◌, OnOk, IfOk};
ghost use Rattle.std.specs.Prelude.{◌↔◌, IsTrue};
ghost use Rattle.std.specs.Prelude.{OnErr, IfSome, IfNone, slice_get, true, false, Some, None};
ghost use Rattle.std.specs.Prelude.{if◌then◌else◌};
ghost use Rattle.std.specs.BTreeSet.{IsUnchanged};
ghost use Rattle.std.specs.Option.{option_map};
ghost use Rattle.std.specs.Map.{keys_of};
ghost use Rattle.fts_ilist.specs.NodeList.{with_nodes, nodes_size, Takes};
ghost use Rattle.fts_ilist.specs.Node.{last_of};
ghost use Rattle.fts_aux.specs.Table.{find, list_in, nodes_in, is_key, is_key_at, room_of, no_room};
ghost use Rattle.fts_ilist.specs.Front.{front};
ghost use Rattle.fts_aux.specs.Words.{filled, filled_as, IsListing, IsNext};
ghost use Rattle.fts_aux.specs.Table.{seen};
ghost use Rattle.fts_aux.specs.Words.{IsLast};
ghost use Rattle.fts_aux.specs.Table.{IsListed, Becomes, Enters, Writes, no_list, Lists};
ghost use Rattle.fts_aux.specs.Table.{IsNotedBut, IsFilledBut, AreFilledBut, AreFilled};
ghost use Rattle.fts_aux.specs.Table.{Drops, AddsRoom, IsWithin, needs};
ghost use Rattle.fts_aux.specs.Words.{HasLoose};
ghost use Rattle.fts_aux.specs.Table.{KeepsNodes, Recounts, loose_count};
ghost use Rattle.fts_ilist.specs.Packing.{are_loose};

use fts_ilist::{Node, NodeList, NodeSlice};
use fts_types::{DocId, Word, WordBytes};
use indexmap::IndexMap;
use std::alloc::{AllocError, Global};
use std::collections::btree_set::Range;
use std::collections::{BTreeSet, VecDeque};
use std::marker::Model;
use std::ops::Bound;

/// Words with their nodes, each at a place of its own.
type Words = IndexMap<Word, NodeList>;

/// How many places behind the last word's a batch tries before it looks a word up: it has its words
/// in byte order, and the table's mostly stand in it.
const TRIED: usize = 3;

/// Words with their nodes. A word without nodes is there for its room alone, and counts as absent.
#[derive(Drop)]
pub struct Table {
    words: Words,
    // The words in byte order.
    order: BTreeSet<Word>,
    // How many words stood here when room was last given up. Those behind them were entered for
    // their room since.
    kept: usize,
    // The numbers of the words that room was made for since then, but those that an install has
    // filled. They save look-ups, and are tried before use.
    notes: VecDeque<usize>,
    // Of how many words packing would change the nodes.
    loose: usize,
    // How many words there were when they were last brought into byte order.
    sorted: usize,
}

impl Model for Table {
    ghost use Rattle.fts_aux.specs.Table.{Entries, IsTable};

    ghost Value = { Entries };

    ghost view = { λ t. t.words.entries };

    ghost invariant = { λ t. IsTable t.words.entries t.order t.kept t.notes.items t.loose };
}

/// Whether the word with this number is this one.
fn is_word_at(words: &Words, number: usize, word: &[u8]) -> bool
    ensures { result ≡ is_key_at (keys_of words.now.entries) number word.now }
{
    match words.get_index(number) {
        Some((key, _)) => word == key.as_bytes(),
        None => false,
    }
}

/// The number of a word, where it is one of the words.
fn number_of(words: &Words, word: &[u8]) -> Option<usize>
    ensures some { IfSome result (λ n. is_key_at (keys_of words.now.entries) n word.now ≡ true) }
    ensures none { IfNone result (find word.now words.now.entries ≡ None) }
{
    match words.get_full(WordBytes { bytes: word }) {
        Some((number, _, _)) => Some(number),
        None => None,
    }
}

/// The last id of the nodes of the word with this number, 0 where it has none.
fn last_at(words: &Words, number: usize, word: &[u8]) -> DocId
    requires { is_key_at (keys_of words.now.entries) number word.now ≡ true }
    ensures { result ≡ last_of 0 (nodes_in words.now.entries word.now) }
{
    match words.get_index(number) {
        Some((_, list)) => list.last_id(),
        None => unreachable!(),
    }
}

/// The number behind a noted one, and the first where none is noted.
fn next_number(noted: Option<&usize>) -> usize {
    match noted {
        Some(number) => number.saturating_add(1),
        None => 0,
    }
}

/// The number of a word as `number_of` gives it, without a look-up where it is the one that is
/// guessed.
fn number_near(words: &Words, guess: usize, word: &[u8]) -> Option<usize>
    ensures some { IfSome result (λ n. is_key_at (keys_of words.now.entries) n word.now ≡ true) }
    ensures none { IfNone result (find word.now words.now.entries ≡ None) }
{
    if is_word_at(words, guess, word) {
        return Some(guess);
    }
    number_of(words, word)
}

/// The number of a word as `number_of` gives it, without a look-up where it is one of the first
/// from the guessed one on.
fn number_from(words: &Words, guess: usize, word: &[u8]) -> Option<usize>
    ensures some { IfSome result (λ n. is_key_at (keys_of words.now.entries) n word.now ≡ true) }
    ensures none { IfNone result (find word.now words.now.entries ≡ None) }
{
    for number in guess..guess.saturating_add(TRIED) {
        if is_word_at(words, number, word) {
            return Some(number);
        }
    }
    number_of(words, word)
}

/// Brings the places of the words into byte order. It takes memory for the words once more.
fn sort(words: &mut Words) -> Result<(), AllocError>
    ensures lists { (w : List ℕ) → list_in words.new.entries w ≡ list_in words.old.entries w }
    ensures are { (w : List ℕ) → is_key words.new.entries w ≡ is_key words.old.entries w }
    ensures loose { loose_count words.new.entries ≡ loose_count words.old.entries }
{
    words.sort_keys()
}

/// The number of a word as `number_of` gives it, without a look-up where it is the noted one.
fn noted_number(words: &Words, noted: Option<&usize>, word: &[u8]) -> Option<usize>
    ensures some { IfSome result (λ n. is_key_at (keys_of words.now.entries) n word.now ≡ true) }
    ensures none { IfNone result (find word.now words.now.entries ≡ None) }
{
    match noted {
        Some(number) => number_near(words, *number, word),
        None => number_of(words, word),
    }
}

/// Makes room for more nodes of the word with this number.
fn reserve_at(
    words: &mut Words,
    number: usize,
    word: &[u8],
    nodes: usize,
    bytes: usize,
) -> Result<(), AllocError>
    requires { is_key_at (keys_of words.old.entries) number word.now ≡ true }
    ensures ok { OnOk result (Writes words.old.entries words.new.entries word.now
        (record (list_in words.old.entries word.now) {
          node_room = (list_in words.old.entries word.now).node_room + nodes;
          byte_room = (list_in words.old.entries word.now).byte_room + bytes;
        })) }
    ensures err { OnErr result (Writes words.old.entries words.new.entries word.now
        (list_in words.old.entries word.now)) }
{
    match words.get_index_mut(number) {
        Some(list) => list.reserve(nodes, bytes),
        None => unreachable!(),
    }
}

/// Gives up the room of the word with this number.
fn give_up_at(words: &mut Words, number: usize)
    ensures keys { keys_of words.new.entries ≡ keys_of words.old.entries }
    ensures lists { (w : List ℕ) → list_in words.new.entries w
        ≡ (if is_key_at (keys_of words.old.entries) number w
        then with_nodes (nodes_in words.old.entries w) else list_in words.old.entries w) }
    ensures are { (w : List ℕ) → is_key words.new.entries w ≡ is_key words.old.entries w }
{
    if let Some(list) = words.get_index_mut(number) {
        list.give_up_room();
    }
}

/// How many words are loose, where one of them was or was not and now is or is not.
fn recounted(words: &Words, loose: usize, was: bool, is: bool) -> usize
    requires { loose_count words.now.entries + (if was then 1 else 0)
        ≡ loose + (if is then 1 else 0) }
    ensures { result ≡ loose_count words.now.entries }
{
    match (was, is) {
        (true, false) => loose - 1,
        // There are no more of them than words.
        (false, true) => words.len().min(loose + 1),
        _ => loose,
    }
}

/// Puts nodes behind those of the word with this number, and tells whether packing would have
/// changed its nodes before, and would now.
fn append_at(words: &mut Words, number: usize, word: &[u8], nodes: &[Node]) -> (bool, bool)
    requires number { is_key_at (keys_of words.old.entries) number word.now ≡ true }
    requires nodes { length nodes.now ≤ (list_in words.old.entries word.now).node_room }
    requires bytes { nodes_size nodes.now ≤ (list_in words.old.entries word.now).byte_room }
    ensures writes { Writes words.old.entries words.new.entries word.now
        (list_in words.new.entries word.now) }
    ensures takes { Takes (list_in words.old.entries word.now)
        (list_in words.new.entries word.now) nodes.now }
    ensures was { result.0 ≡ are_loose (nodes_in words.old.entries word.now) }
    ensures is { result.1 ≡ are_loose (nodes_in words.new.entries word.now) }
    ensures loose { Recounts words.old.entries words.new.entries word.now }
{
    match words.get_index_mut(number) {
        Some(list) => {
            let was = list.is_loose();
            list.append(nodes);
            (was, list.is_loose())
        }
        None => unreachable!(),
    }
}

/// Puts nodes behind those of a word that has room for them.
fn append_to(
    words: &mut Words,
    loose: &mut usize,
    noted: Option<&usize>,
    word: &[u8],
    nodes: &[Node],
)
    requires room { IsWithin (needs nodes.now) (room_of (list_in words.old.entries word.now)) }
    requires loose { loose.old ≡ loose_count words.old.entries }
    ensures takes { Takes (list_in words.old.entries word.now)
        (list_in words.new.entries word.now) nodes.now }
    ensures others { (w : List ℕ) → w ≢ word.now
        → list_in words.new.entries w ≡ list_in words.old.entries w }
    ensures are { (w : List ℕ) → is_key words.new.entries w ≡ is_key words.old.entries w }
    ensures keys { keys_of words.new.entries ≡ keys_of words.old.entries }
    ensures loose { loose.new ≡ loose_count words.new.entries }
{
    match noted_number(words, noted, word) {
        Some(number) => {
            let (was, is) = append_at(words, number, word, nodes);
            *loose = recounted(words, *loose, was, is);
        }
        None => {}
    }
}

/// Replaces the list of the word with this number, and tells whether packing would have changed its
/// nodes before, and would now.
fn replace_at(words: &mut Words, number: usize, word: &[u8], list: NodeList) -> (bool, bool)
    requires { is_key_at (keys_of words.old.entries) number word.now ≡ true }
    ensures becomes { Becomes words.old.entries word.now (Some list) words.new.entries }
    ensures was { result.0 ≡ are_loose (nodes_in words.old.entries word.now) }
    ensures is { result.1 ≡ are_loose (nodes_in words.new.entries word.now) }
    ensures loose { Recounts words.old.entries words.new.entries word.now }
{
    match words.get_index_mut(number) {
        Some(held) => {
            let was = held.is_loose();
            let is = list.is_loose();
            *held = list;
            (was, is)
        }
        None => unreachable!(),
    }
}

/// Replaces the list of a word that is there.
fn replace_in(words: &mut Words, loose: &mut usize, word: &[u8], list: NodeList)
    requires key { is_key words.old.entries word.now ≡ true }
    requires loose { loose.old ≡ loose_count words.old.entries }
    ensures becomes { Becomes words.old.entries word.now (Some list) words.new.entries }
    ensures loose { loose.new ≡ loose_count words.new.entries }
{
    match number_of(words, word) {
        Some(number) => {
            let (was, is) = replace_at(words, number, word, list);
            *loose = recounted(words, *loose, was, is);
        }
        None => unreachable!(),
    }
}

/// Takes a word out.
fn take_out(words: &mut Words, word: &[u8])
    ensures becomes { Becomes words.old.entries word.now None words.new.entries }
    ensures loose { nodes_in words.old.entries word.now ≡ []
        → loose_count words.new.entries ≡ loose_count words.old.entries }
{
    words.swap_remove(WordBytes { bytes: word });
}

/// Takes a word out of those in byte order.
fn take_out_of(order: &mut BTreeSet<Word>, word: &Word)
    ensures { Lists order.old word.now false order.new }
{
    order.remove(word);
}

/// Enters a word with room for nodes.
fn enter(
    words: &mut Words,
    order: &mut BTreeSet<Word>,
    word: &[u8],
    nodes: usize,
    bytes: usize,
) -> Result<(), AllocError>
    requires { find word.now words.old.entries ≡ None }
    ensures ok { OnOk result (Enters words.old.entries words.new.entries word.now
        (record no_list { node_room = nodes; byte_room = bytes })) }
    ensures err { OnErr result (words.new.entries ≡ words.old.entries) }
    ensures order { OnOk result (Lists order.old word.now true order.new) }
    ensures stay { OnErr result (IsUnchanged order.old order.new) }
{
    let alloc = *words.allocator();
    words.reserve(1)?;
    let mut list = NodeList::new(alloc);
    list.reserve(nodes, bytes)?;
    let key = Word::copied(alloc, word)?;
    let entered = Word::copied(alloc, word)?;
    order.insert(entered)?;
    words.insert(key, list).unwrap();
    Ok(())
}

/// Gives up the room of the words with these numbers, which are all that have room.
fn give_up(words: &mut Words, notes: &mut VecDeque<usize>)
    requires { IsNotedBut words.old.entries notes.old.items }
    ensures nodes { (w : List ℕ) → nodes_in words.new.entries w ≡ nodes_in words.old.entries w }
    ensures room { (w : List ℕ) → room_of (list_in words.new.entries w) ≡ no_room }
    ensures are { (w : List ℕ) → is_key words.new.entries w ≡ is_key words.old.entries w }
    ensures keys { keys_of words.new.entries ≡ keys_of words.old.entries }
    ensures loose { loose_count words.new.entries ≡ loose_count words.old.entries }
{
    while let Some(number) = notes.pop_front() {
        give_up_at(words, number);
    }
}

/// Whether no room is left of the word with this number.
fn is_filled_at(words: &Words, number: usize) -> bool
    ensures { (w : List ℕ) → result ≡ true → is_key_at (keys_of words.now.entries) number w ≡ true
        → room_of (list_in words.now.entries w) ≡ no_room }
{
    match words.get_index(number) {
        Some((_, list)) => !list.has_room(),
        None => false,
    }
}

/// Takes the first note out, where no room is left of its word.
fn drop_filled(words: &Words, notes: &mut VecDeque<usize>)
    requires { IsNotedBut words.now.entries notes.old.items }
    ensures { IsNotedBut words.now.entries notes.new.items }
{
    if let Some(number) = notes.front() {
        if is_filled_at(words, *number) {
            notes.pop_front();
        }
    }
}

/// Takes a word out that has neither nodes nor room.
fn drop_if_empty(words: &mut Words, order: &mut BTreeSet<Word>, word: &Word)
    requires { room_of (list_in words.old.entries word.now) ≡ no_room }
    ensures drops { Drops words.old.entries words.new.entries word.now }
    ensures listed { IsListed words.old.entries order.old
        → IsListed words.new.entries order.new }
    ensures loose { loose_count words.new.entries ≡ loose_count words.old.entries }
{
    if !is_empty(words, word.as_bytes()) {
        return;
    }
    take_out(words, word.as_bytes());
    take_out_of(order, word);
}

/// Whether a word is one of the words and has no nodes.
fn is_empty(words: &Words, word: &[u8]) -> bool
    ensures yes { result ≡ true → nodes_in words.now.entries word.now ≡ [] }
    ensures no { result ≡ false → is_key words.now.entries word.now ≡ true
        → nodes_in words.now.entries word.now ≢ [] }
{
    match words.get(WordBytes { bytes: word }) {
        Some(list) => list.is_empty(),
        None => false,
    }
}

/// Whether the word with this number has no nodes.
fn is_empty_at(words: &Words, number: usize) -> bool
    ensures yes { (w : List ℕ) → result ≡ true
        → is_key_at (keys_of words.now.entries) number w ≡ true
        → nodes_in words.now.entries w ≡ [] }
    ensures no { (w : List ℕ) → result ≡ false
        → is_key_at (keys_of words.now.entries) number w ≡ true
        → nodes_in words.now.entries w ≢ [] }
{
    match words.get_index(number) {
        Some((_, list)) => list.is_empty(),
        None => false,
    }
}

/// Takes the word with this number out, which has neither nodes nor room. The last word gets its
/// number.
fn take_out_at(words: &mut Words, order: &mut BTreeSet<Word>, number: usize)
    requires room { (w : List ℕ) → room_of (list_in words.old.entries w) ≡ no_room }
    requires empty { (w : List ℕ) → is_key_at (keys_of words.old.entries) number w ≡ true
        → nodes_in words.old.entries w ≡ [] }
    ensures lists { (w : List ℕ) → list_in words.new.entries w ≡ list_in words.old.entries w }
    ensures filled { (kept : ℕ) → AreFilledBut words.old.entries kept (number + 1)
        → AreFilledBut words.new.entries kept number }
    ensures listed { IsListed words.old.entries order.old
        → IsListed words.new.entries order.new }
    ensures loose { loose_count words.new.entries ≡ loose_count words.old.entries }
{
    if let Some((key, _)) = words.swap_remove_index(number) {
        take_out_of(order, &key);
    }
}

/// Takes the word with this number out, if it has no nodes. No word has room.
fn drop_empty_at(words: &mut Words, order: &mut BTreeSet<Word>, number: usize)
    requires room { (w : List ℕ) → room_of (list_in words.old.entries w) ≡ no_room }
    ensures lists { (w : List ℕ) → list_in words.new.entries w ≡ list_in words.old.entries w }
    ensures filled { (kept : ℕ) → AreFilledBut words.old.entries kept (number + 1)
        → AreFilledBut words.new.entries kept number }
    ensures listed { IsListed words.old.entries order.old
        → IsListed words.new.entries order.new }
    ensures loose { loose_count words.new.entries ≡ loose_count words.old.entries }
{
    if !is_empty_at(words, number) {
        return;
    }
    take_out_at(words, order, number);
}

/// Takes the words out that have no nodes. They stand behind the first so many, and no word has
/// room. It goes over those from the last on, so that what gets another number was looked at.
fn drop_empty(words: &mut Words, order: &mut BTreeSet<Word>, kept: usize)
    requires filled { IsFilledBut words.old.entries kept }
    requires room { (w : List ℕ) → room_of (list_in words.old.entries w) ≡ no_room }
    requires listed { IsListed words.old.entries order.old }
    ensures lists { (w : List ℕ) → list_in words.new.entries w ≡ list_in words.old.entries w }
    ensures filled { AreFilled words.new.entries }
    ensures listed { IsListed words.new.entries order.new }
    ensures loose { loose_count words.new.entries ≡ loose_count words.old.entries }
{
    let mut number = words.len();
    while number > kept {
        number -= 1;
        drop_empty_at(words, order, number);
    }
}

/// The nodes of a word.
fn nodes_of<'a>(words: &'a Words, word: &[u8]) -> NodeSlice<'a>
    ensures { result ≡ nodes_in words.now.entries word.now }
{
    match words.get(WordBytes { bytes: word }) {
        Some(list) => list.as_slice(),
        None => NodeSlice::empty(),
    }
}

/// The first word of the rest that has nodes.
fn first_filled<'a>(words: &Words, rest: Range<'a, Word>) -> Option<&'a Word>
    ensures { option_map (λ w. (w.now, nodes_in words.now.entries w.now)) result
        ≡ slice_get (filled (seen words.now.entries rest.entry)) 0 }
{
    let mut rest = rest;
    while let Some(word) = rest.next() {
        if !nodes_of(words, word.as_bytes()).is_empty() {
            return Some(word);
        }
    }
    None
}

/// Puts a word with its nodes at the end, if it has any.
fn push_filled<'a>(
    found: &mut Vec<(&'a Word, NodeSlice<'a>)>,
    word: &'a Word,
    nodes: NodeSlice<'a>,
) -> Result<(), AllocError>
    ensures { OnOk result (map (λ p. (p.0.now, p.1)) found.new.items
        ≡ map (λ p. (p.0.now, p.1)) found.old.items ++ filled_as word.now nodes.entry []) }
{
    if nodes.is_empty() {
        return Ok(());
    }
    found.push((word, nodes))?;
    Ok(())
}

/// The words at the front of the rest that begin with the prefix and have nodes.
fn filled_with_prefix<'a>(
    alloc: Global,
    words: &'a Words,
    rest: Range<'a, Word>,
    prefix: &[u8],
) -> Result<Vec<(&'a Word, NodeSlice<'a>)>, AllocError>
    ensures { IfOk result (λ found. map (λ p. (p.0.now, p.1)) found.items
        ≡ filled (front (λ e. e.0) prefix.now (seen words.now.entries rest.entry))) }
{
    let mut rest = rest;
    let mut found = Vec::new(alloc);
    while let Some(word) = rest.next() {
        if !word.as_bytes().starts_with(prefix) {
            return Ok(found);
        }
        push_filled(&mut found, word, nodes_of(words, word.as_bytes()))?;
    }
    Ok(found)
}

impl Table {
    /// A table without words.
    pub fn new(alloc: Global) -> Self
        ensures { result ≡ [] }
    {
        Table {
            words: IndexMap::new(alloc),
            order: BTreeSet::new(alloc),
            kept: 0,
            notes: VecDeque::new(alloc),
            loose: 0,
            sorted: 0,
        }
    }

    /// The nodes of a word.
    pub fn nodes_of(&self, word: &[u8]) -> NodeSlice<'_>
        ensures { result ≡ nodes_in self.now word.now }
    {
        nodes_of(&self.words, word)
    }

    /// The least word behind this one that has nodes.
    pub fn next_after(&self, word: &Word) -> Option<&Word>
        ensures found { IfSome result (λ next. IsNext (nodes_in self.now) word.now next.now) }
        ensures none { IfNone result (IsLast (nodes_in self.now) word.now) }
    {
        let rest = self.order.range((Bound::Excluded(word), Bound::Unbounded));
        match first_filled(&self.words, rest) {
            Some(next) => Some(next),
            None => None,
        }
    }

    /// The words that begin with the prefix, in byte order, with their nodes.
    pub fn with_prefix(
        &self,
        alloc: Global,
        prefix: &[u8],
    ) -> Result<Vec<(&Word, NodeSlice<'_>)>, AllocError>
        ensures { IfOk result (λ found. IsListing (nodes_in self.now) prefix.now
            (map (λ p. (p.0.now, p.1)) found.items)) }
    {
        let first = Word::copied(alloc, prefix)?;
        let rest = self
            .order
            .range((Bound::Included(&first), Bound::Unbounded));
        filled_with_prefix(alloc, &self.words, rest, prefix)
    }

    /// Whether there is a word whose nodes packing would change. It takes constant time.
    pub fn has_loose(&self) -> bool
        ensures { IsTrue result ↔ HasLoose (nodes_in self.now) }
    {
        self.loose > 0
    }

    /// Gives up the room of all words, and takes out those without nodes.
    pub fn give_up_room(&mut self)
        ensures nodes { (w : List ℕ) → nodes_in self.new w ≡ nodes_in self.old w }
        ensures room { (w : List ℕ) → room_of (list_in self.new w) ≡ no_room }
        ensures filled { AreFilled self.new }
    {
        give_up(&mut self.words, &mut self.notes);
        drop_empty(&mut self.words, &mut self.order, self.kept);
        self.kept = self.words.len();
    }

    /// Brings the places of the words into byte order, where a quarter of them came since they were
    /// in it, and no room is promised.
    fn arrange(&mut self) -> Result<(), AllocError>
        ensures lists { (w : List ℕ) → list_in self.new w ≡ list_in self.old w }
        ensures are { (w : List ℕ) → is_key self.new w ≡ is_key self.old w }
    {
        if !self.notes.is_empty() {
            return Ok(());
        }
        if self.words.len() <= self.sorted.saturating_add(self.sorted / 4) {
            return Ok(());
        }
        self.kept = 0;
        sort(&mut self.words)?;
        self.sorted = self.words.len();
        Ok(())
    }

    /// Makes room for so many more nodes and bytes of a word, beside the room that there is. It
    /// gives the last id of the word's nodes, and 0 where it has none, so that one look-up does for
    /// both. None is needed where the word stands just behind the one that room was made for last:
    /// a batch has its words in byte order, and most of the table's stand in it too.
    pub fn reserve(&mut self, word: &[u8], nodes: usize, bytes: usize) -> Result<DocId, AllocError>
        ensures stay { KeepsNodes self.old self.new word.now }
        ensures room { OnOk result (AddsRoom self.old self.new word.now
            (record { nodes = nodes; bytes = bytes })) }
        ensures last { IfOk result (λ last. last ≡ last_of 0 (nodes_in self.old word.now)) }
    {
        self.arrange()?;
        self.reserve_near(word, nodes, bytes)
    }

    /// What `reserve` does, where the words stand.
    fn reserve_near(&mut self, word: &[u8], nodes: usize, bytes: usize) -> Result<DocId, AllocError>
        ensures stay { KeepsNodes self.old self.new word.now }
        ensures room { OnOk result (AddsRoom self.old self.new word.now
            (record { nodes = nodes; bytes = bytes })) }
        ensures last { IfOk result (λ last. last ≡ last_of 0 (nodes_in self.old word.now)) }
    {
        self.notes.reserve(1)?;
        match number_from(&self.words, next_number(self.notes.back()), word) {
            Some(number) => {
                let last = last_at(&self.words, number, word);
                reserve_at(&mut self.words, number, word, nodes, bytes)?;
                self.notes.push_back(number).unwrap();
                Ok(last)
            }
            None => {
                self.enter(word, nodes, bytes)?;
                Ok(0)
            }
        }
    }

    /// Enters a word with room for nodes.
    fn enter(&mut self, word: &[u8], nodes: usize, bytes: usize) -> Result<(), AllocError>
        requires absent { find word.now self.old ≡ None }
        ensures stay { KeepsNodes self.old self.new word.now }
        ensures room { OnOk result (AddsRoom self.old self.new word.now
            (record { nodes = nodes; bytes = bytes })) }
    {
        self.notes.reserve(1)?;
        let number = self.words.len();
        enter(&mut self.words, &mut self.order, word, nodes, bytes)?;
        self.notes.push_back(number).unwrap();
        Ok(())
    }

    /// Puts nodes behind those of a word that has room for them. It takes no memory, and no look-up
    /// where the words come in the order in which room was made for them.
    pub fn append(&mut self, word: &[u8], nodes: &[Node])
        requires { IsWithin (needs nodes.now) (room_of (list_in self.old word.now)) }
        ensures takes { Takes (list_in self.old word.now) (list_in self.new word.now) nodes.now }
        ensures others { (w : List ℕ) → w ≢ word.now → list_in self.new w ≡ list_in self.old w }
    {
        append_to(
            &mut self.words,
            &mut self.loose,
            self.notes.front(),
            word,
            nodes,
        );
        drop_filled(&self.words, &mut self.notes);
    }

    /// Replaces the nodes of a word that has some. Without nodes, the word is taken out. It takes
    /// no memory, and gives up all room.
    pub fn replace(&mut self, word: &Word, reworked: NodeList)
        requires { nodes_in self.old word.now ≢ [] }
        ensures nodes { nodes_in self.new word.now ≡ reworked.nodes }
        ensures others { (w : List ℕ) → w ≢ word.now → nodes_in self.new w ≡ nodes_in self.old w }
        ensures room { (w : List ℕ) → room_of (list_in self.new w) ≡ no_room }
    {
        self.give_up_room();
        self.replace_list(word, reworked);
    }

    /// Replaces the nodes of a word that has some, where no room is promised and each word has
    /// nodes.
    fn replace_list(&mut self, word: &Word, reworked: NodeList)
        requires inside { nodes_in self.old word.now ≢ [] }
        requires room { (w : List ℕ) → room_of (list_in self.old w) ≡ no_room }
        requires filled { AreFilled self.old }
        ensures list { list_in self.new word.now ≡ with_nodes reworked.nodes }
        ensures others { (w : List ℕ) → w ≢ word.now → list_in self.new w ≡ list_in self.old w }
    {
        let mut reworked = reworked;
        reworked.give_up_room();
        replace_in(&mut self.words, &mut self.loose, word.as_bytes(), reworked);
        drop_if_empty(&mut self.words, &mut self.order, word);
        self.kept = self.words.len();
    }
}
