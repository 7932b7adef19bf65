//! Words of texts: raw and indexed ones, their places, and stopwords.
ghost use Rattle.std.specs.Prelude.{◌≤◌, length};

use fts_stopwords::{StopSet, default_words};
use fts_token::{indexed_words, is_indexable, is_word_byte, lowered, placed_words, raw_words};
use fts_types::{Names, RowTexts, Settings};
use fts_words::{PlacedWord, Span};
use std::alloc::{AllocError, Global};
use std::test::Fail;

fn settings(alloc: Global) -> Settings {
    Settings {
        columns: Names::new(alloc),
        min: 3,
        max: 84,
        stopword: true,
        optimize_words: 2_000,
        cache_bytes: 8_000_000,
        batch_docs: 1_000,
    }
}

fn row(alloc: Global, texts: &[&[u8]]) -> Result<RowTexts, AllocError> {
    let mut row = RowTexts::new(alloc);
    for text in texts {
        row.push(text.to_vec(alloc)?)?;
    }
    Ok(row)
}

/// Whether the row's indexed words are these.
fn gives(
    alloc: Global,
    settings: &Settings,
    texts: &[&[u8]],
    want: &[PlacedWord],
) -> Result<bool, AllocError> {
    let row = row(alloc, texts)?;
    if !row.is_row() {
        return Ok(false);
    }
    let words: Vec<PlacedWord> = indexed_words(settings, &row).collect(alloc)?;
    Ok(words.as_slice() == want)
}

fn word(column: usize, from: usize, to: usize, number: u32, position: u32) -> PlacedWord {
    PlacedWord {
        column,
        span: Span { from, to },
        number,
        position,
    }
}

#[test]
fn apostrophes_join_or_part_words(rt: HostRuntime) -> Result<(), Fail> {
    let alloc = rt.alloc();
    let standard = settings(alloc);
    let parted = [word(0, 0, 3, 0, 0), word(0, 5, 8, 1, 5)];
    assert!(rt; gives(alloc, &standard, &[b"aaa'bbb"], &[word(0, 0, 7, 0, 0)])?);
    assert!(rt; gives(alloc, &standard, &[b"aaa''bbb"], &parted)?);
    assert!(rt; gives(alloc, &standard, &[b"'aaa'bbb'"], &[word(0, 1, 8, 0, 1)])?);
    Ok(())
}

#[test]
fn words_stand_at_their_positions(rt: HostRuntime) -> Result<(), Fail> {
    let alloc = rt.alloc();
    let standard = settings(alloc);
    let juice = [word(0, 4, 9, 1, 4), word(0, 15, 20, 3, 15)];
    assert!(rt; gives(alloc, &standard, &[b"The apple, the juice"], &juice)?);
    let phrase = [word(0, 2, 6, 1, 2), word(1, 0, 6, 0, 7)];
    assert!(rt; gives(alloc, &standard, &[b"a test", b"phrase b"], &phrase)?);
    assert!(rt; gives(alloc, &standard, &[b"", b"pear"], &[word(1, 0, 4, 0, 1)])?);
    let numbers = [
        word(0, 0, 3, 0, 0),
        word(0, 4, 7, 1, 4),
        word(1, 0, 3, 0, 8),
    ];
    assert!(rt; gives(alloc, &standard, &[b"one\ttwo", b"Two"], &numbers)?);
    Ok(())
}

/// All bytes of texts.
fn all_bytes() -> [u8; 96] {
    let mut bytes = [b'\t'; 96];
    for byte in 32..127 {
        bytes[byte as usize - 31] = byte;
    }
    bytes
}

#[test]
fn bytes_make_words(rt: HostRuntime) -> Result<(), Fail> {
    let words = [
        word(0, 17, 27, 0, 17),
        word(0, 34, 60, 1, 34),
        word(0, 66, 92, 3, 66),
    ];
    assert!(rt; gives(rt.alloc(), &settings(rt.alloc()), &[&all_bytes()], &words)?);
    Ok(())
}

#[test]
fn settings_choose_the_words(rt: HostRuntime) -> Result<(), Fail> {
    let alloc = rt.alloc();
    let standard = settings(alloc);
    assert!(rt; gives(alloc, &standard, &[b"ab abc"], &[word(0, 3, 6, 1, 3)])?);
    assert!(rt; gives(alloc, &standard, &[&[b'x'; 84]], &[word(0, 0, 84, 0, 0)])?);
    assert!(rt; gives(alloc, &standard, &[&[b'y'; 85]], &[])?);

    let mut all = settings(alloc);
    all.stopword = false;
    let both = [word(0, 0, 3, 0, 0), word(0, 4, 7, 1, 4)];
    assert!(rt; gives(alloc, &all, &[b"The pie"], &both)?);

    let mut none = settings(alloc);
    none.min = 12;
    none.max = 10;
    assert!(rt; gives(alloc, &none, &[b"apple abcdefghij abcdefghijkl"], &[])?);
    Ok(())
}

#[test]
fn lowered_words_are_indexable(rt: HostRuntime) {
    let standard = settings(rt.alloc());
    assert!(rt; is_indexable(&standard, b"apple"));
    assert!(rt; !is_indexable(&standard, b"with"));
    assert!(rt; !is_indexable(&standard, b"ab"));
}

fn has_raw_words(alloc: Global, text: &[u8], want: &[Span]) -> Result<bool, AllocError> {
    let spans: Vec<Span> = raw_words(text).collect(alloc)?;
    Ok(spans.as_slice() == want)
}

/// Whether the words of a row are these, indexed or not.
fn has_placed_words(
    alloc: Global,
    texts: &[&[u8]],
    want: &[PlacedWord],
) -> Result<bool, AllocError> {
    let row = row(alloc, texts)?;
    if !row.is_row() {
        return Ok(false);
    }
    let words: Vec<PlacedWord> = placed_words(&row).collect(alloc)?;
    Ok(words.as_slice() == want)
}

#[test]
fn each_raw_word_is_given(rt: HostRuntime) -> Result<(), Fail> {
    let spans = [
        Span { from: 0, to: 4 },
        Span { from: 6, to: 8 },
        Span { from: 10, to: 11 },
    ];
    assert!(rt; has_raw_words(rt.alloc(), b"it's 'so' a", &spans)?);
    let words = [
        word(0, 0, 2, 0, 0),
        word(1, 0, 1, 0, 3),
        word(1, 2, 4, 1, 5),
    ];
    assert!(rt; has_placed_words(rt.alloc(), &[b"of", b"a of"], &words)?);
    Ok(())
}

fn is_lowered(alloc: Global, word: &[u8], want: &[u8]) -> Result<bool, AllocError> {
    Ok(lowered(alloc, word)?.as_slice() == want)
}

#[test]
fn letters_are_lowered(rt: HostRuntime) -> Result<(), Fail> {
    assert!(rt; is_lowered(rt.alloc(), b"Aa'Z_9", b"aa'z_9")?);
    assert!(rt; is_word_byte(b'_') && !is_word_byte(b'\''));
    Ok(())
}

/// Whether a word is in the default set and not in the empty one.
fn is_default(word: &[u8]) -> bool {
    StopSet::Default.contains(word) && !StopSet::Empty.contains(word)
}

#[test]
fn sets_have_their_words(rt: HostRuntime) {
    assert!(rt; default_words().len() == 36);
    for word in default_words() {
        assert!(rt; is_default(word.as_bytes()), "{word}");
    }
    assert!(rt; !StopSet::Default.contains(b"ThE"));
}

/// Whether a part of a text is in a set once its letters are lowered.
fn is_stopped(set: StopSet, text: &[u8], from: usize, to: usize) -> bool {
    if from > to || to > text.len() {
        return false;
    }
    set.contains_lowered_at(text, &Span { from, to })
}

#[test]
fn words_of_a_text_are_looked_up(rt: HostRuntime) {
    assert!(rt; is_stopped(StopSet::Default, b"ThE", 0, 3));
    assert!(rt; !is_stopped(StopSet::Default, b"apple", 0, 5));
    assert!(rt; is_stopped(StopSet::Default, b"ThE thee whERE", 0, 3));
    assert!(rt; !is_stopped(StopSet::Default, b"ThE thee whERE", 4, 8));
    assert!(rt; is_stopped(StopSet::Default, b"ThE thee whERE", 9, 14));
    assert!(rt; !is_stopped(StopSet::Empty, b"ThE thee whERE", 0, 3));
}

fn is_span_of(span: Span, text: &[u8], want: &[u8]) -> bool
    requires order { span.from ≤ span.to }
    requires within { span.to ≤ length text.now }
{
    (span.len(), span.is_empty()) == (want.len(), false) && span.of(text) == want
}

#[test]
fn a_span_has_its_bytes(rt: HostRuntime) {
    let span = Span { from: 4, to: 9 };
    assert!(rt; is_span_of(span, b"The apple, the juice", b"apple"));
}
