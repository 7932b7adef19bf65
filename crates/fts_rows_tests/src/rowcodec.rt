use fts_commits::{Change, Changes, NewTexts};
use fts_rowcodec::{
    DecodeError, decode_commit, decode_settings, encode_commit, encode_commit_into,
    encode_settings, encode_settings_into, settings_size,
};
use fts_types::{Names, RowTexts, Settings, SharedTexts};
use std::alloc::{AllocError, Global};
use std::test::*;

// The settings that `create --columns body` makes, and those of `create --columns title,body --min
// 2 --no-stopword`.
const SETTINGS: [u8; 20] = [
    0, 1, 4, 0x62, 0x6f, 0x64, 0x79, 3, 0x54, 1, 7, 0xd0, 0, 0x7a, 0x12, 0, 0, 0, 3, 0xe8,
];

const TWO_COLUMNS: [u8; 26] = [
    0, 2, 5, 0x74, 0x69, 0x74, 0x6c, 0x65, 4, 0x62, 0x6f, 0x64, 0x79, 2, 0x54, 0, 7, 0xd0, 0, 0x7a,
    0x12, 0, 0, 0, 3, 0xe8,
];

// Nine columns `a` to `i`, and the column `a` twice.
const NINE_COLUMNS: [u8; 33] = [
    0, 9, 1, 0x61, 1, 0x62, 1, 0x63, 1, 0x64, 1, 0x65, 1, 0x66, 1, 0x67, 1, 0x68, 1, 0x69, 3, 0x54,
    1, 7, 0xd0, 0, 0x7a, 0x12, 0, 0, 0, 3, 0xe8,
];

const ONE_TWICE: [u8; 19] = [
    0, 2, 1, 0x61, 1, 0x61, 3, 0x54, 1, 7, 0xd0, 0, 0x7a, 0x12, 0, 0, 0, 3, 0xe8,
];

// The row with the key 1 and the text `apple`; and a row 1 with `cat` and an empty text before one
// with the largest key.
const INSERT: [u8; 20] = [
    1, 0, 1, 1, 0, 0, 0, 0, 0, 0, 0, 1, 0, 0, 5, 0x61, 0x70, 0x70, 0x6c, 0x65,
];

const TWO_INSERTS: [u8; 37] = [
    1, 0, 2, 1, 0, 0, 0, 0, 0, 0, 0, 1, 0, 0, 3, 0x63, 0x61, 0x74, 0, 0, 1, 255, 255, 255, 255,
    255, 255, 255, 255, 0, 0, 2, 0x61, 9, 0, 1, 0x7e,
];

// Of two columns: a row 2 with the id 9 and the texts `a` and nothing; new text `ab` for its second
// column; an UPDATE that keeps both texts of the row with the largest key; and the row 258 goes.
const ALL_KINDS: [u8; 61] = [
    1, 0, 4, 1, 0, 0, 0, 0, 0, 0, 0, 2, 1, 0, 0, 0, 0, 0, 0, 0, 9, 0, 1, 97, 0, 0, 2, 0, 0, 0, 0,
    0, 0, 0, 2, 0, 1, 0, 2, 97, 98, 2, 255, 255, 255, 255, 255, 255, 255, 255, 0, 0, 3, 0, 0, 0, 0,
    0, 0, 1, 2,
];

fn settings_of(
    alloc: Global,
    columns: &[&str],
    min: u8,
    stopword: bool,
) -> Result<Settings, AllocError> {
    let mut names = Names::new(alloc);
    for name in columns {
        names.push(Vec::from_slice(alloc, name.as_bytes())?)?;
    }
    Ok(Settings {
        columns: names,
        min,
        max: 84,
        stopword,
        optimize_words: 2_000,
        cache_bytes: 8_000_000,
        batch_docs: 1_000,
    })
}

// Whether the bytes are no settings, and the first field that can't stand there begins at a place.
fn is_no_settings(alloc: Global, bytes: &[u8], want: usize) -> bool {
    match decode_settings(alloc, bytes) {
        Err(DecodeError::Bad { at }) => at == want,
        _ => false,
    }
}

fn is_no_commit(alloc: Global, columns: usize, bytes: &[u8], want: usize) -> bool {
    match decode_commit(alloc, columns, bytes) {
        Err(DecodeError::Bad { at }) => at == want,
        _ => false,
    }
}

// The last of these places, at which fields begin, up to one.
fn last_until(starts: &[usize], place: usize) -> usize {
    let mut last = 0;
    for &start in starts {
        if start <= place {
            last = start;
        }
    }
    last
}

// Whether settings with these columns are encoded so.
fn is_encoded(
    alloc: Global,
    columns: &[&str],
    min: u8,
    stopword: bool,
    want: &[u8],
) -> Result<bool, Fail> {
    let settings = settings_of(alloc, columns, min, stopword)?;
    settings.check()?;
    let bytes = encode_settings(alloc, &settings)?;
    Ok(bytes.as_slice() == want)
}

#[test]
fn encodes_settings(rt: HostRuntime) -> Result<(), Fail> {
    assert!(rt; is_encoded(rt.alloc(), &["body"], 3, true, &SETTINGS)?);
    assert!(rt; is_encoded(rt.alloc(), &["title", "body"], 2, false, &TWO_COLUMNS)?);
    Ok(())
}

fn has_numbers(settings: &Settings, min: u8, stopword: bool) -> bool {
    (settings.min, settings.max, settings.stopword) == (min, 84, stopword)
        && (settings.optimize_words, settings.batch_docs) == (2_000, 1_000)
        && settings.cache_bytes == 8_000_000
}

fn has_columns(names: &Names, want: &[&str]) -> bool {
    if names.len() != want.len() {
        return false;
    }
    for place in 0..names.len() {
        if names.text(place) != want[place].as_bytes() {
            return false;
        }
    }
    true
}

// Whether the bytes are settings with these columns.
fn is_decoded(alloc: Global, bytes: &[u8], columns: &[&str], min: u8, stopword: bool) -> bool {
    match decode_settings(alloc, bytes) {
        Ok(settings) => {
            has_columns(&settings.columns, columns) && has_numbers(&settings, min, stopword)
        }
        Err(_) => false,
    }
}

#[test]
fn decodes_settings(rt: HostRuntime) {
    assert!(rt; is_decoded(rt.alloc(), &SETTINGS, &["body"], 3, true));
    assert!(rt; is_decoded(rt.alloc(), &TWO_COLUMNS, &["title", "body"], 2, false));
}

// The bytes with another one at this place.
fn with_byte(alloc: Global, bytes: &[u8], place: usize, byte: u8) -> Result<Vec<u8>, AllocError> {
    let mut bytes = Vec::from_slice(alloc, bytes)?;
    if let Some(at) = bytes.get_mut(place) {
        *at = byte;
    }
    Ok(bytes)
}

// Each place with a byte that does not belong there, and the place that is told: the kind, a count,
// a length, a letter, a number out of its bounds.
const WRONG_SETTINGS: &[(usize, u8, usize)] = &[
    (0, 1, 0),
    (0, 255, 0),
    (1, 0, 1),
    (1, 2, 8),
    (1, 255, 1),
    (2, 0, 2),
    (2, 3, 6),
    (2, 5, 3),
    (2, 255, 2),
    (3, 0x42, 3),
    (7, 0, 7),
    (7, 17, 7),
    (7, 255, 7),
    (8, 0, 8),
    (8, 85, 8),
    (8, 255, 8),
    (9, 2, 9),
    (9, 255, 9),
    (10, 0x28, 10),
    (12, 5, 12),
    (16, 1, 16),
];

fn is_wrong(alloc: Global, place: usize, byte: u8, want: usize) -> Result<bool, AllocError> {
    let bytes = with_byte(alloc, &SETTINGS, place, byte)?;
    Ok(is_no_settings(alloc, &bytes, want))
}

#[test]
fn refuses_a_wrong_byte_of_settings(rt: HostRuntime) -> Result<(), Fail> {
    for (place, byte, want) in WRONG_SETTINGS {
        let holds = is_wrong(rt.alloc(), *place, *byte, *want)?;
        assert!(rt; holds, "at {place}");
    }
    Ok(())
}

#[test]
fn refuses_wrong_columns(rt: HostRuntime) {
    assert!(rt; is_no_settings(rt.alloc(), &NINE_COLUMNS, 1));
    assert!(rt; is_no_settings(rt.alloc(), &ONE_TWICE, 5));
}

// Where the fields of settings begin.
const FIELDS: &[usize] = &[0, 1, 2, 3, 7, 8, 9, 10, 12, 16];

fn is_cut(alloc: Global, front: &[u8]) -> bool {
    is_no_settings(alloc, front, last_until(FIELDS, front.len()))
}

#[test]
fn refuses_settings_that_are_cut_or_longer(rt: HostRuntime) -> Result<(), Fail> {
    for cut in 0..20 {
        let holds = is_cut(rt.alloc(), &SETTINGS[..cut]);
        assert!(rt; holds, "cut at {cut}");
    }
    let mut bytes = Vec::from_slice(rt.alloc(), &SETTINGS)?;
    bytes.push(0)?;
    assert!(rt; is_no_settings(rt.alloc(), &bytes, 20));
    Ok(())
}

// The commit in the bytes, which is encoded as the same bytes.
fn commit_in(alloc: Global, columns: usize, bytes: &[u8]) -> Result<Changes, Fail> {
    match decode_commit(alloc, columns, bytes) {
        Ok(commit) => {
            if bytes.len() >= 65_536 {
                return Err(Fail::from("a long payload"));
            }
            let again = encode_commit(alloc, commit.as_slice())?;
            if again.as_slice() != bytes {
                return Err(Fail::from("another spelling"));
            }
            Ok(commit)
        }
        Err(_) => Err(Fail::from("no commit")),
    }
}

fn is_insert(change: &Change, want: u64, texts_want: &[&str]) -> bool {
    match change {
        Change::Insert {
            key,
            doc: None,
            texts,
        } => *key == want && has_columns(texts.texts(), texts_want),
        _ => false,
    }
}

fn is_one_insert(changes: &[Change]) -> bool {
    match changes {
        [change] => is_insert(change, 1, &["apple"]),
        _ => false,
    }
}

#[test]
fn decodes_an_insert(rt: HostRuntime) -> Result<(), Fail> {
    let commit = commit_in(rt.alloc(), 1, &INSERT)?;
    assert!(rt; is_one_insert(commit.as_slice()));
    Ok(())
}

fn are_two_inserts(changes: &[Change]) -> bool {
    match changes {
        [first, second] => {
            is_insert(first, 1, &["cat", ""]) && is_insert(second, u64::MAX, &["a\t", "~"])
        }
        _ => false,
    }
}

#[test]
fn decodes_two_inserts(rt: HostRuntime) -> Result<(), Fail> {
    let commit = commit_in(rt.alloc(), 2, &TWO_INSERTS)?;
    assert!(rt; are_two_inserts(commit.as_slice()));
    Ok(())
}

fn are_texts(texts: &NewTexts, want: [Option<&[u8]>; 2]) -> bool {
    if texts.len() != 2 {
        return false;
    }
    let first = texts.text(0);
    let second = texts.text(1);
    [first, second] == want
}

fn is_update(change: &Change, want: u64, texts_want: [Option<&[u8]>; 2]) -> bool {
    match change {
        Change::Update { key, texts } => *key == want && are_texts(texts, texts_want),
        _ => false,
    }
}

fn are_all_kinds(changes: &[Change]) -> bool {
    match changes {
        [
            Change::Insert {
                key: 2,
                doc: Some(9),
                texts,
            },
            second,
            third,
            Change::Delete { key: 258 },
        ] => {
            has_columns(texts.texts(), &["a", ""])
                && is_update(second, 2, [None, Some(b"ab".as_slice())])
                && is_update(third, u64::MAX, [None, None])
        }
        _ => false,
    }
}

#[test]
fn decodes_all_kinds(rt: HostRuntime) -> Result<(), Fail> {
    let commit = commit_in(rt.alloc(), 2, &ALL_KINDS)?;
    assert!(rt; are_all_kinds(commit.as_slice()));
    Ok(())
}

// Its kinds, flags and lengths, and the place that is told.
const WRONG_KINDS: &[(usize, u8, usize)] = &[
    (3, 2, 16),
    (3, 4, 3),
    (12, 0, 17),
    (12, 2, 12),
    (26, 1, 38),
    (35, 2, 35),
    (36, 0, 37),
    (41, 3, 50),
    (50, 1, 53),
    (51, 2, 51),
    (52, 2, 61),
];

fn is_wrong_kind(alloc: Global, place: usize, byte: u8, want: usize) -> Result<bool, AllocError> {
    let bytes = with_byte(alloc, &ALL_KINDS, place, byte)?;
    Ok(is_no_commit(alloc, 2, &bytes, want))
}

#[test]
fn refuses_a_wrong_byte_of_all_kinds(rt: HostRuntime) -> Result<(), Fail> {
    for (place, byte, want) in WRONG_KINDS {
        let holds = is_wrong_kind(rt.alloc(), *place, *byte, *want)?;
        assert!(rt; holds, "at {place}");
    }
    Ok(())
}

// Where its fields begin.
const KINDS: &[usize] = &[
    0, 1, 3, 4, 12, 13, 21, 23, 24, 26, 27, 35, 36, 37, 39, 41, 42, 50, 51, 52, 53,
];

fn are_kinds_cut(alloc: Global, front: &[u8]) -> bool {
    is_no_commit(alloc, 2, front, last_until(KINDS, front.len()))
}

#[test]
fn refuses_all_kinds_that_are_cut(rt: HostRuntime) {
    for cut in 0..61 {
        let holds = are_kinds_cut(rt.alloc(), &ALL_KINDS[..cut]);
        assert!(rt; holds, "cut at {cut}");
    }
}

// Each place with a byte that does not belong there, and the place that is told: the kind, the
// count, an UPDATE, a DELETE, a flag, a length, a text's byte.
const WRONG_INSERT: &[(usize, u8, usize)] = &[
    (0, 0, 0),
    (1, 1, 20),
    (2, 0, 1),
    (2, 2, 20),
    (3, 0, 3),
    (3, 2, 13),
    (3, 3, 12),
    (12, 1, 13),
    (12, 2, 12),
    (13, 1, 15),
    (14, 4, 19),
    (14, 6, 15),
    (19, 10, 15),
    (19, 127, 15),
];

fn is_wrong_insert(alloc: Global, place: usize, byte: u8, want: usize) -> Result<bool, AllocError> {
    let bytes = with_byte(alloc, &INSERT, place, byte)?;
    Ok(is_no_commit(alloc, 1, &bytes, want))
}

#[test]
fn refuses_a_wrong_byte_of_a_commit(rt: HostRuntime) -> Result<(), Fail> {
    for (place, byte, want) in WRONG_INSERT {
        let holds = is_wrong_insert(rt.alloc(), *place, *byte, *want)?;
        assert!(rt; holds, "at {place}");
    }
    Ok(())
}

// Where the fields of two INSERTs begin.
const INSERTS: &[usize] = &[0, 1, 3, 4, 12, 13, 15, 18, 20, 21, 29, 30, 32, 34, 36];

fn are_inserts_cut(alloc: Global, front: &[u8]) -> bool {
    is_no_commit(alloc, 2, front, last_until(INSERTS, front.len()))
}

#[test]
fn refuses_commits_that_are_cut_or_longer(rt: HostRuntime) -> Result<(), Fail> {
    for cut in 0..37 {
        let holds = are_inserts_cut(rt.alloc(), &TWO_INSERTS[..cut]);
        assert!(rt; holds, "cut at {cut}");
    }
    let mut bytes = Vec::from_slice(rt.alloc(), &TWO_INSERTS)?;
    bytes.push(0)?;
    assert!(rt; is_no_commit(rt.alloc(), 2, &bytes, 37));
    Ok(())
}

#[test]
fn refuses_rows_of_other_tables(rt: HostRuntime) {
    assert!(rt; is_no_commit(rt.alloc(), 2, &INSERT, 20));
    assert!(rt; is_no_commit(rt.alloc(), 1, &TWO_INSERTS, 18));
}

// The payload of so many INSERTs of an empty text.
fn inserts(alloc: Global, count: u16) -> Result<Vec<u8>, AllocError> {
    let mut bytes = Vec::new(alloc);
    bytes.push(1)?;
    bytes.extend_from_slice(&count.to_be_bytes())?;
    for _ in 0..count {
        bytes.extend_from_slice(&[1, 0, 0, 0, 0, 0, 0, 0, 0, 0, 0, 0])?;
    }
    Ok(bytes)
}

fn refuses_so_many(alloc: Global, count: u16) -> Result<bool, AllocError> {
    let bytes = inserts(alloc, count)?;
    Ok(is_no_commit(alloc, 1, &bytes, 1))
}

#[test]
fn takes_1_to_1000_changes(rt: HostRuntime) -> Result<(), Fail> {
    let bytes = inserts(rt.alloc(), 1_000)?;
    let commit = commit_in(rt.alloc(), 1, &bytes)?;
    assert!(rt; commit.as_slice().len() == 1_000);
    assert!(rt; refuses_so_many(rt.alloc(), 0)?);
    assert!(rt; refuses_so_many(rt.alloc(), 1_001)?);
    Ok(())
}

fn deletes(alloc: Global) -> Result<bool, AllocError> {
    let bytes = encode_commit(alloc, &[Change::Delete { key: 258 }])?;
    Ok(bytes.as_slice() == [1, 0, 1, 3, 0, 0, 0, 0, 0, 0, 1, 2].as_slice())
}

// Bytes of the INSERT of a row 2 with the id 9 and no text.
const GIVEN: &[u8] = &[
    1, 0, 1, 1, 0, 0, 0, 0, 0, 0, 0, 2, 1, 0, 0, 0, 0, 0, 0, 0, 9,
];

fn inserts_given(alloc: Global) -> Result<bool, AllocError> {
    let texts = SharedTexts::new(alloc, RowTexts::new(alloc))?;
    let doc = Some(9);
    let bytes = encode_commit(alloc, &[Change::Insert { key: 2, doc, texts }])?;
    Ok(bytes.as_slice() == GIVEN)
}

#[test]
fn encodes_a_delete_and_a_given_id(rt: HostRuntime) -> Result<(), Fail> {
    assert!(rt; deletes(rt.alloc())?);
    assert!(rt; inserts_given(rt.alloc())?);
    Ok(())
}

// Bytes of an UPDATE of the second of two columns of the row 2.
const UPDATE: &[u8] = &[1, 0, 1, 2, 0, 0, 0, 0, 0, 0, 0, 2, 0, 1, 0, 2, 0x61, 0x62];

fn updates(alloc: Global) -> Result<bool, AllocError> {
    let text = Vec::from_slice(alloc, b"ab")?;
    let texts = NewTexts::from_vec(vec![in alloc; None, Some(text)]?);
    let bytes = encode_commit(alloc, &[Change::Update { key: 2, texts }])?;
    Ok(bytes.as_slice() == UPDATE)
}

#[test]
fn encodes_an_update(rt: HostRuntime) -> Result<(), Fail> {
    assert!(rt; updates(rt.alloc())?);
    Ok(())
}

fn is_delete_written() -> bool {
    let mut buf = [7; 14];
    let size = encode_commit_into(&[Change::Delete { key: 258 }], &mut buf);
    size == 12 && buf == [1, 0, 1, 3, 0, 0, 0, 0, 0, 0, 1, 2, 7, 7]
}

// The bytes behind a payload stay as they are.
#[test]
fn a_commit_is_written_at_the_head_of_a_buffer(rt: HostRuntime) {
    assert!(rt; is_delete_written());
}

fn are_settings_written(alloc: Global) -> Result<bool, Fail> {
    let settings = settings_of(alloc, &["body"], 3, true)?;
    settings.check()?;
    if settings_size(&settings) > 22 {
        return Ok(false);
    }
    let mut buf = [7; 22];
    let size = encode_settings_into(&settings, &mut buf);
    Ok(size == 20 && buf.starts_with(&SETTINGS) && buf.ends_with(&[7, 7]))
}

#[test]
fn settings_are_written_at_the_head_of_a_buffer(rt: HostRuntime) -> Result<(), Fail> {
    assert!(rt; are_settings_written(rt.alloc())?);
    Ok(())
}
