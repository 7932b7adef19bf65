ghost use Rattle.std.specs.Prelude.{◌≡◌, ◌+◌, ◌<◌, ◌≤◌, ◌∷◌, length, nat_lt, sum_by, IsFalse};
ghost use Rattle.std.specs.Prelude.{IfNone, IfSome};
ghost use Rattle.fts_words.specs.Indexed.{column_text, column_offset};
ghost use Rattle.fts_token.specs.Bounds.{is_inside, IsAhead};

use crate::block::{Block, first_word};
use fts_types::RowTexts;
use fts_words::PlacedWord;

/// The raw words of a row, column by column. It borrows the row.
#[derive(Clone, Copy, Debug)]
pub struct PlacedWords<'a> {
    columns: &'a RowTexts,
    column: usize,
    offset: u32,
    at: usize,
    block: Block,
    number: u32,
    ghost few: { length columns.now ≤ 8 },
    ghost short: { sum_by (λ text. length text + 1) columns.now ≤ 65543 },
    ghost column_within: { column ≤ length columns.now },
    ghost offset_is: { offset ≡ column_offset columns.now column },
    ghost within: { at ≤ length (column_text columns.now column) + 1 },
    ghost outside: { IsFalse (is_inside (column_text columns.now column) at) },
    ghost ahead: { IsAhead (column_text columns.now column) at block.start block.bounds },
    ghost counted: { number ≤ at },
}

/// The text of a column, or no bytes behind the last one.
#[inline(always)]
fn text_of(columns: &RowTexts, column: usize) -> &[u8]
    ensures { result.now ≡ column_text columns.now column }
{
    if column < columns.len() {
        columns.text(column)
    } else {
        &[]
    }
}

impl<'a> PlacedWords<'a> {
    ghost use Rattle.std.specs.Iterator.{YieldsFirst};
    ghost use Rattle.fts_words.specs.Indexed.{placed_words};
    ghost use Rattle.fts_types.specs.Row.{IsRow};
    ghost use Rattle.fts_token.specs.Left.{columns_of, placed_words_behind, placed_words_left};

    /// The raw words of a row, each with its word number and its position.
    #[inline(always)]
    pub(crate) fn new(columns: &'a RowTexts) -> Self
        requires { IsRow columns.now }
        ensures left { placed_words_left result ≡ placed_words columns.now }
        ensures row { columns_of result ≡ columns.now }
    {
        PlacedWords {
            columns,
            column: 0,
            offset: 0,
            at: 0,
            block: Block::first(text_of(columns, 0)),
            number: 0,
        }
    }

    /// Whether it is in a column, and not behind the last one.
    #[inline(always)]
    pub(crate) fn has_column(&self) -> bool
        ensures { result ≡ nat_lt self.now.column (length (columns_of self.now)) }
    {
        self.column < self.columns.len()
    }

    /// The text of the column that it is in, or no bytes behind the last one.
    #[inline(always)]
    pub(crate) fn text(&self) -> &'a [u8]
        ensures { result.now ≡ column_text (columns_of self.now) self.now.column }
    {
        text_of(self.columns, self.column)
    }

    /// Passes all words of the column that it is in. It is passed the column's text.
    #[inline(always)]
    fn pass(&mut self, text: &[u8])
        requires inside { self.old.column < length (columns_of self.old) }
        requires text { text.now ≡ column_text (columns_of self.old) self.old.column }
        ensures left { placed_words_left self.new ≡ placed_words_behind self.old }
        ensures behind { placed_words_behind self.new ≡ placed_words_behind self.old }
        ensures column { self.new.column ≡ self.old.column }
        ensures row { columns_of self.new ≡ columns_of self.old }
    {
        self.at = text.len() + 1;
        self.block = Block::last(text);
    }

    /// The next word of the column that it is in, or nothing at the column's end. It is passed the
    /// column's text, which can stay in registers then.
    #[inline(always)]
    pub(crate) fn next_in_column(&mut self, text: &[u8]) -> Option<PlacedWord>
        requires inside { self.old.column < length (columns_of self.old) }
        requires text { text.now ≡ column_text (columns_of self.old) self.old.column }
        ensures some { IfSome result
            (λ word. placed_words_left self.old ≡ word ∷ placed_words_left self.new) }
        ensures here { IfSome result (λ word. word.column ≡ self.old.column) }
        ensures order { IfSome result (λ word. word.span.from ≤ word.span.to) }
        ensures within { IfSome result (λ word. word.span.to ≤ length text.now) }
        ensures none { IfNone result (placed_words_left self.new ≡ placed_words_behind self.new) }
        ensures stays { IfNone result (placed_words_left self.new ≡ placed_words_left self.old) }
        ensures column { self.new.column ≡ self.old.column }
        ensures row { columns_of self.new ≡ columns_of self.old }
    {
        let Some(found) = first_word(text, self.at, self.block) else {
            // What stays is then known from the text, so a loop need not keep where it stood.
            self.pass(text);
            return None;
        };
        let word = PlacedWord {
            column: self.column,
            span: found.word,
            number: self.number,
            position: self.offset + found.word.from as u32,
        };
        self.at = found.word.to + 1;
        self.block = found.block;
        self.number += 1;
        Some(word)
    }

    /// Goes on to the next column.
    pub(crate) fn enter_next_column(&mut self)
        requires { self.old.column < length (columns_of self.old) }
        ensures left { placed_words_left self.new ≡ placed_words_behind self.old }
        ensures column { self.new.column ≡ self.old.column + 1 }
        ensures row { columns_of self.new ≡ columns_of self.old }
    {
        self.offset += self.text().len() as u32 + 1;
        self.column += 1;
        self.at = 0;
        self.block = Block::first(text_of(self.columns, self.column));
        self.number = 0;
    }

    /// The next word of the row.
    #[inline(always)]
    fn advance(&mut self) -> Option<PlacedWord>
        ensures steps { YieldsFirst placed_words_left self.old result self.new }
    {
        while self.has_column() {
            if let Some(word) = self.next_in_column(self.text()) {
                return Some(word);
            }
            self.enter_next_column();
        }
        None
    }
}

impl Iterator for PlacedWords<'_> {
    ghost use Rattle.std.specs.Iterator.{YieldsFirst, item_count};
    ghost use Rattle.fts_token.specs.Left.{placed_words_left};

    type Item = PlacedWord;

    ghost next_gives = { YieldsFirst placed_words_left };

    ghost remaining = { item_count placed_words_left };

    #[inline(always)]
    fn next(&mut self) -> Option<PlacedWord> {
        self.advance()
    }
}
