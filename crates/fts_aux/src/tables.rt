//! The six tables.
ghost use Rattle.std.specs.Prelude.{◌≡◌, ◌≢◌, ℕ, ◌+◌, ◌<◌, ◌↔◌, ◌++◌, [], List, length, map, true};
ghost use Rattle.std.specs.Prelude.{slice_index, IsTrue, OnOk, IfOk, IfSome, IfNone, ◌&&◌};
ghost use Rattle.std.specs.List.Sorted.{IsStrictlySortedBy};
ghost use Rattle.std.specs.Map.{keys_of};
ghost use Rattle.fts_types.specs.Table.{table_of};
ghost use Rattle.fts_ilist.specs.Node.{NodesAfter, last_of, nodes_for};
ghost use Rattle.fts_words.specs.Order.{byte_order};
ghost use Rattle.fts_aux.specs.Words.{IsListing, IsNext};
ghost use Rattle.fts_aux.specs.Table.{needs, no_room, with_room, IsWithin};
ghost use Rattle.fts_aux.specs.Words.{IsLast, IsWalked, IsStep, HasLoose};
ghost use Rattle.fts_ilist.specs.Node.{Docs};
ghost use Rattle.std.specs.Option.{option_map};
ghost use Rattle.fts_aux.specs.Tables.{nodes, room, HasRoom, HasRoomOf, HasNoOther, ComesAfter};
ghost use Rattle.fts_aux.specs.Tables.{IsNextIn, IsLastIn, IsGivenUp, Stays, GainsRoom, UsesRoom};
ghost use Rattle.fts_aux.specs.Tables.{HasLooseIn, begins_above, begin_behind};

use crate::table::Table;
use fts_ilist::{Node, NodeList, NodeSlice, WordNodes, bytes_of};
use fts_types::{DocId, Word, partition_of};
use std::alloc::{AllocError, Global};
use std::marker::Model;

/// The number of tables.
const TABLES: usize = 6;

/// The auxiliary tables of an index: each word with its nodes, the words shared among six tables by
/// `partition_of`.
#[derive(Drop)]
pub struct Tables {
    tables: [Table; TABLES],
}

impl Model for Tables {
    ghost use Rattle.fts_aux.specs.Tables.{Held, AreTables};

    ghost Value = { Held };

    ghost view = { λ s. s.tables };

    ghost invariant = { λ s. AreTables s.tables };
}

/// The place of the table of a word's bytes, from 0.
fn place_of_bytes(word: &[u8]) -> usize
    ensures table { result + 1 ≡ table_of word.now }
    ensures few { result < 6 }
{
    usize::from(partition_of(word) - 1)
}

/// The place of a word's table, from 0.
fn place_of(word: &Word) -> usize
    ensures table { result + 1 ≡ table_of word.now }
    ensures few { result < 6 }
{
    place_of_bytes(word.as_bytes())
}

/// Whether a word begins with a byte behind `z`. Such words stand in the first table, and behind
/// those of all others.
fn is_behind_letters(word: &Word) -> bool
    ensures { IsTrue result ↔ (122 < slice_index word.now 0) }
{
    match word.as_bytes() {
        [first, ..] => *first > b'z',
        [] => false,
    }
}

/// The least word behind this one in the first of these tables that has one.
fn next_in<'a>(tables: &'a [Table], word: &Word) -> Option<&'a Word>
    ensures found { IfSome result (λ next. IsNextIn tables.now word.now next.now) }
    ensures none { IfNone result (IsLastIn tables.now word.now) }
{
    match tables {
        [] => None,
        [first, rest @ ..] => match first.next_after(word) {
            Some(next) => Some(next),
            None => next_in(rest, word),
        },
    }
}

/// Whether the first id of nodes is above one.
fn begins_above(last: DocId, nodes: &[Node]) -> bool
    ensures { result ≡ begins_above last nodes.now }
{
    match nodes {
        [] => true,
        [first, ..] => last < first.first(),
    }
}

/// Whether this was so of the words before, and the first id of nodes is above one.
fn still_behind(behind: bool, last: DocId, nodes: &[Node]) -> bool
    ensures { result ≡ (behind && begins_above last nodes.now) }
{
    if !behind {
        return false;
    }
    begins_above(last, nodes)
}

/// Whether one of these tables has a word whose nodes packing would change.
fn any_loose(tables: &[Table]) -> bool
    ensures { IsTrue result ↔ HasLooseIn tables.now }
{
    match tables {
        [] => false,
        [first, rest @ ..] => {
            if first.has_loose() {
                return true;
            }
            any_loose(rest)
        }
    }
}

impl Tables {
    /// Tables without words. What they hold later lies in the allocator's memory.
    pub fn new(alloc: Global) -> Self
        ensures nodes { (word : List ℕ) → nodes result word ≡ [] }
    {
        Tables {
            tables: [
                Table::new(alloc),
                Table::new(alloc),
                Table::new(alloc),
                Table::new(alloc),
                Table::new(alloc),
                Table::new(alloc),
            ],
        }
    }

    /// The nodes of a word, by ascending ids; none where the word isn't in the tables. It takes
    /// constant time.
    pub fn nodes_of(&self, word: &[u8]) -> NodeSlice<'_>
        ensures value { result ≡ nodes self.now word.now }
        ensures ascending { NodesAfter 0 result }
    {
        self.tables[place_of_bytes(word)].nodes_of(word)
    }

    /// The least word behind this one that has nodes, over all tables. It asks the word's own
    /// table, and then the next that has words, since the tables stand in the order of their words.
    /// It takes logarithmic time and no memory.
    pub fn next_after(&self, word: &Word) -> Option<&Word>
        ensures found { IfSome result (λ next. IsNext (nodes self.now) word.now next.now) }
        ensures none { IfNone result (IsLast (nodes self.now) word.now) }
    {
        let place = place_of(word);
        let own = self.tables[place].next_after(word);
        if is_behind_letters(word) {
            return own;
        }
        if let Some(next) = own {
            if !is_behind_letters(next) {
                return Some(next);
            }
        }
        let (_, later) = self.tables.split_at(place + 1);
        match next_in(later, word) {
            Some(next) => Some(next),
            None => self.tables[0].next_after(word),
        }
    }

    /// A step of a walk over all words, in byte order: the word that `next_after` gives, with its
    /// nodes. A walk begins at the empty word, which has no nodes, with no words walked; where a
    /// step gives nothing, it has given each word that has nodes once. A step takes logarithmic
    /// time, and the walk no memory.
    pub fn next_entry(&self, word: &Word) -> Option<(&Word, NodeSlice<'_>)>
        ensures found { IfSome result (λ e. IsNext (nodes self.now) word.now e.0.now
            × (e.1 ≡ nodes self.now e.0.now)) }
        ensures none { IfNone result (IsLast (nodes self.now) word.now) }
        ensures walk { (done : List (List ℕ × List Docs)) → IsWalked (nodes self.now) word.now done
            → IsStep (nodes self.now) done (option_map (λ e. (e.0.now, e.1)) result) }
    {
        match self.next_after(word) {
            Some(next) => Some((next, self.nodes_of(next.as_bytes()))),
            None => None,
        }
    }

    /// The words that begin with a prefix, in byte order, with their nodes. It takes logarithmic
    /// time, and time for the words that it gives.
    pub fn with_prefix(
        &self,
        alloc: Global,
        prefix: &[u8],
    ) -> Result<Vec<(&Word, NodeSlice<'_>)>, AllocError>
        requires { 0 < length prefix.now }
        ensures { IfOk result (λ found. IsListing (nodes self.now) prefix.now
            (map (λ p. (p.0.now, p.1)) found.items)) }
    {
        self.tables[place_of_bytes(prefix)].with_prefix(alloc, prefix)
    }

    /// Whether there is a word whose nodes packing would change, so that a pass has work. It takes
    /// constant time.
    pub fn has_loose(&self) -> bool
        ensures { IsTrue result ↔ HasLoose (nodes self.now) }
    {
        any_loose(&self.tables)
    }

    /// Gives up the room of the words of one table, and takes those without nodes out of it.
    fn give_up_table(&mut self, place: usize)
        requires { place < 6 }
        ensures own { (word : List ℕ) → table_of word ≡ place + 1
            → IsGivenUp self.old self.new word }
        ensures others { (word : List ℕ) → table_of word ≢ place + 1
            → Stays self.old self.new word }
    {
        let table = &mut self.tables[place];
        table.give_up_room();
    }

    /// Gives up all room, and takes the words out that were entered for it and got no nodes.
    fn give_up_room(&mut self)
        ensures { (word : List ℕ) → IsGivenUp self.old self.new word }
    {
        for place in 0..TABLES {
            self.give_up_table(place);
        }
    }

    /// Makes room for so many more nodes and bytes of a word, and gives the last id of its nodes.
    fn reserve_word(&mut self, word: &[u8], count: usize, bytes: usize) -> Result<DocId, AllocError>
        ensures last { IfOk result (λ last. last ≡ last_of 0 (nodes self.old word.now)) }
        ensures nodes { (other : List ℕ) → nodes self.new other ≡ nodes self.old other }
        ensures ok { OnOk result (GainsRoom self.old self.new word.now
            (record { nodes = count; bytes = bytes })) }
    {
        let table = &mut self.tables[place_of_bytes(word)];
        table.reserve(word, count, bytes)
    }

    /// Makes room for the nodes of a batch, and no other: room that an earlier call made and nobody
    /// used is given up, and so are the words that were entered for it. The nodes of each word stay
    /// as they are, with or without memory for it. It tells whether the nodes of each word of the
    /// batch begin behind those that are held: `install_batch` asks for that.
    pub fn reserve(&mut self, batch: &[WordNodes]) -> Result<bool, AllocError>
        ensures nodes { (word : List ℕ) → nodes self.new word ≡ nodes self.old word }
        ensures room { OnOk result (HasRoomOf self.new batch.now) }
        ensures words { OnOk result (HasNoOther self.new batch.now) }
        ensures told { IfOk result (λ behind. behind ≡ begin_behind self.old batch.now) }
    {
        self.give_up_room();
        let mut behind = true;
        let mut rest = batch;
        while let [first, more @ ..] = rest {
            let bytes = bytes_of(first.nodes()).ok_or(AllocError)?;
            let last = self.reserve_word(first.word(), first.nodes().len(), bytes)?;
            behind = still_behind(behind, last, first.nodes());
            rest = more;
        }
        Ok(behind)
    }

    /// Puts nodes behind those of a word.
    fn append_word(&mut self, word: &[u8], added: &[Node])
        requires room { IsWithin (needs added.now) (room self.old word.now) }
        requires after { NodesAfter (last_of 0 (nodes self.old word.now)) added.now }
        ensures nodes { nodes self.new word.now ≡ nodes self.old word.now ++ added.now }
        ensures others { (other : List ℕ) → other ≢ word.now
            → nodes self.new other ≡ nodes self.old other }
        ensures room { UsesRoom self.old self.new word.now (needs added.now) }
    {
        let table = &mut self.tables[place_of_bytes(word)];
        table.append(word, added);
    }

    /// Puts the nodes of a batch behind those of their words. The batch has each word once, in byte
    /// order, and the tables have room for it. It takes no memory, and no look-up where the room
    /// was made for this batch.
    pub fn install_batch(&mut self, batch: &[WordNodes])
        requires words { IsStrictlySortedBy byte_order (keys_of batch.now) }
        requires room { HasRoom self.old batch.now }
        requires after { ComesAfter self.old batch.now }
        ensures nodes { (word : List ℕ)
            → nodes self.new word ≡ nodes self.old word ++ nodes_for word batch.now }
        ensures room { (word : List ℕ) → with_room (room self.new word)
            (needs (nodes_for word batch.now)) ≡ room self.old word }
    {
        let mut rest = batch;
        while let [first, behind @ ..] = rest {
            self.append_word(first.word(), first.nodes());
            rest = behind;
        }
    }

    /// Replaces the nodes of a word that has some.
    fn replace_word(&mut self, word: &Word, reworked: NodeList)
        requires inside { nodes self.old word.now ≢ [] }
        requires room { (other : List ℕ) → room self.old other ≡ no_room }
        requires ascending { NodesAfter 0 reworked.nodes }
        ensures nodes { nodes self.new word.now ≡ reworked.nodes }
        ensures others { (other : List ℕ) → other ≢ word.now
            → nodes self.new other ≡ nodes self.old other }
        ensures room { (other : List ℕ) → room self.new other ≡ no_room }
    {
        let table = &mut self.tables[place_of(word)];
        table.replace(word, reworked);
    }

    /// Replaces the nodes of a word of the tables. Without nodes, the word leaves the tables. It
    /// takes no memory, and gives up all room.
    pub fn install_word(&mut self, word: &Word, reworked: NodeList)
        requires inside { nodes self.old word.now ≢ [] }
        requires ascending { NodesAfter 0 reworked.nodes }
        ensures nodes { nodes self.new word.now ≡ reworked.nodes }
        ensures others { (other : List ℕ) → other ≢ word.now
            → nodes self.new other ≡ nodes self.old other }
        ensures room { (other : List ℕ) → room self.new other ≡ no_room }
    {
        self.give_up_room();
        self.replace_word(word, reworked);
    }
}
