ghost use Rattle.std.specs.Prelude.{◌≡◌, ◌≤◌, []};

use crate::found::{ROOM, find_words};
use crate::placed::PlacedWords;
use fts_types::{RowTexts, Settings};
use fts_words::{PlacedWord, Span};

/// What stands where no word was found.
const NO_WORD: PlacedWord = PlacedWord {
    column: 0,
    span: Span { from: 0, to: 0 },
    number: 0,
    position: 0,
};

/// The indexed words of a row, from front to back. It borrows the row and the settings.
#[derive(Clone, Copy, Debug)]
pub struct IndexedWords<'a> {
    settings: &'a Settings,
    words: PlacedWords<'a>,
    found: [PlacedWord; ROOM],
    given: usize,
    held: usize,
    ghost order: { given ≤ held },
    ghost room: { held ≤ 32 },
}

impl<'a> IndexedWords<'a> {
    ghost use Rattle.fts_words.specs.Indexed.{indexed_words};
    ghost use Rattle.fts_types.specs.Row.{IsRow};
    ghost use Rattle.fts_types.specs.Rules.{rules_of};
    ghost use Rattle.fts_token.specs.Left.{indexed_words_left};

    /// The indexed words of a row under the settings, each with its word number and its position.
    #[inline(always)]
    pub(crate) fn new(settings: &'a Settings, columns: &'a RowTexts) -> Self
        requires { IsRow columns.now }
        ensures { indexed_words_left result ≡ indexed_words (rules_of settings.now) columns.now }
    {
        IndexedWords {
            settings,
            words: PlacedWords::new(columns),
            found: [NO_WORD; ROOM],
            given: 0,
            held: 0,
        }
    }

    /// Looks for more words once all that were found are given.
    #[inline(always)]
    fn look_on(&mut self)
        requires { self.old.given ≡ self.old.held }
        ensures left { indexed_words_left self.new ≡ indexed_words_left self.old }
        ensures none { self.new.given ≡ self.new.held → indexed_words_left self.new ≡ [] }
    {
        let held = find_words(self.settings, &mut self.words, &mut self.found);
        self.given = 0;
        self.held = held;
    }

    /// Holds a word that is yet to be given, if there is one.
    #[inline(always)]
    fn prepare(&mut self)
        ensures left { indexed_words_left self.new ≡ indexed_words_left self.old }
        ensures none { self.new.given ≡ self.new.held → indexed_words_left self.new ≡ [] }
    {
        if self.given == self.held {
            self.look_on();
        }
    }
}

impl Iterator for IndexedWords<'_> {
    ghost use Rattle.std.specs.Iterator.{YieldsFirst, item_count};
    ghost use Rattle.fts_token.specs.Left.{indexed_words_left};

    type Item = PlacedWord;

    ghost next_gives = { YieldsFirst indexed_words_left };

    ghost remaining = { item_count indexed_words_left };

    #[inline(always)]
    fn next(&mut self) -> Option<PlacedWord> {
        self.prepare();
        if self.given == self.held {
            return None;
        }
        let word = self.found[self.given];
        self.given += 1;
        Some(word)
    }
}
