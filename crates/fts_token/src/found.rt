ghost use Rattle.std.specs.Prelude.{◌≡◌, ◌<◌, ◌≤◌, ◌++◌, [], length, take};
ghost use Rattle.fts_token.specs.Left.{columns_of, placed_words_left, placed_words_behind};
ghost use Rattle.fts_token.specs.Left.{indexed_among};

use crate::indexable::Choice;
use crate::placed::PlacedWords;
use fts_types::Settings;
use fts_words::PlacedWord;

/// How many words are looked for at most before they are given.
pub(crate) const ROOM: usize = 32;

/// Puts the next indexed words of the column that it is in behind those that were found, as long as
/// there is room, and returns how many were found in all. Each word is written, and only the
/// indexed ones are counted: the processor can't foresee a branch on which these are.
#[inline(never)]
fn find_in_column(
    settings: &Settings,
    words: &mut PlacedWords<'_>,
    found: &mut [PlacedWord; ROOM],
    count: usize,
) -> usize
    requires inside { words.old.column < length (columns_of words.old) }
    requires room { count ≤ 32 }
    ensures within { result ≤ 32 }
    ensures left { take result found.new ++ indexed_among settings.now words.new ≡
        take count found.old ++ indexed_among settings.now words.old }
    ensures done { result < 32 → placed_words_left words.new ≡ placed_words_behind words.new }
    ensures column { words.new.column ≡ words.old.column }
    ensures row { columns_of words.new ≡ columns_of words.old }
{
    let choice = Choice::of(settings);
    let text = words.text();
    // A copy can stay in registers.
    let mut ahead = *words;
    let mut count = count;
    while count < ROOM {
        let Some(word) = ahead.next_in_column(text) else {
            break;
        };
        found[count] = word;
        count += usize::from(choice.has_at(text, &word.span));
    }
    *words = ahead;
    count
}

/// Puts the next indexed words of a row to the front of a buffer, and returns how many they are.
pub(crate) fn find_words(
    settings: &Settings,
    words: &mut PlacedWords<'_>,
    found: &mut [PlacedWord; ROOM],
) -> usize
    ensures within { result ≤ 32 }
    ensures left { take result found.new ++ indexed_among settings.now words.new
        ≡ indexed_among settings.now words.old }
    ensures none { result ≡ 0 → indexed_among settings.now words.new ≡ [] }
{
    let mut count = 0;
    while words.has_column() {
        count = find_in_column(settings, words, found, count);
        if count == ROOM {
            return count;
        }
        words.enter_next_column();
    }
    count
}
