//! Settings, texts, words and limits.
use fts_types::{
    BadSettings, Field, Limits, Names, RowTexts, Settings, SharedTexts, Texts, Word,
    is_column_name, partition_of,
};
use std::alloc::{AllocError, Global};
use std::test::Fail;

/// Words, and the table in which each lies.
const PARTITIONS: &[(&[u8], u8)] = &[
    (b"9ab", 1),
    (b"_x1", 1),
    (b"elk", 2),
    (b"jay", 3),
    (b"owl", 4),
    (b"pony", 5),
    (b"yak", 6),
];

#[test]
fn words_lie_in_their_tables(rt: HostRuntime) {
    for (word, table) in PARTITIONS {
        assert!(rt; partition_of(word) == *table, "{word:?}");
    }
}

/// Names, and whether a column can have them.
const COLUMN_NAMES: &[(&str, bool)] = &[
    ("body", true),
    ("b", true),
    ("a_1", true),
    ("abcdefghijklmnopqrstuvwxyzabcdef", true),
    ("abcdefghijklmnopqrstuvwxyzabcdefg", false),
    ("", false),
    ("1a", false),
    ("_a", false),
    ("Body", false),
    ("id", false),
    ("fts_doc_id", false),
];

#[test]
fn tells_the_names_of_columns(rt: HostRuntime) {
    for (name, want) in COLUMN_NAMES {
        assert!(rt; is_column_name(name.as_bytes()) == *want, "at {name}");
    }
}

fn is_no_row(texts: &Texts) -> bool {
    texts.is_empty() && !texts.is_row()
}

/// Whether there are two texts, the second one `phrase b`.
fn are_two(texts: &Texts) -> bool {
    if texts.len() != 2 {
        return false;
    }
    (texts.text(1), texts.size(), texts.is_row()) == (b"phrase b".as_slice(), Some(14), true)
}

#[test]
fn texts_are_kept(rt: HostRuntime) -> Result<(), Fail> {
    let alloc = rt.alloc();
    let mut texts = Texts::new(alloc);
    assert!(rt; is_no_row(&texts));
    texts.push(b"a test".to_vec(alloc)?)?;
    texts.push(b"phrase b".to_vec(alloc)?)?;
    assert!(rt; are_two(&texts));
    assert!(rt; are_two(&Texts::from_vec(texts.into_vec())));
    Ok(())
}

/// Whether texts are held beyond their first holder.
fn are_held(shared: SharedTexts) -> Result<bool, AllocError> {
    let held = shared.pointer()?;
    let before = shared.texts().size();
    drop(shared);
    Ok((before, held.size()) == (Some(4), Some(4)))
}

#[test]
fn shared_texts_are_held_beyond_the_first_holder(rt: HostRuntime) -> Result<(), Fail> {
    let mut texts = RowTexts::new(rt.alloc());
    texts.push(b"pear".to_vec(rt.alloc())?)?;
    let shared = SharedTexts::new(rt.alloc(), texts)?;
    assert!(rt; are_held(shared)?);
    Ok(())
}

#[test]
fn a_database_has_a_million_rows_and_four_gibibytes(rt: HostRuntime) {
    let limits = Limits::standard();
    assert!(rt; (limits.rows, limits.log_bytes) == (1_000_000, 1 << 32));
    assert!(rt; limits.ids == i64::MAX as u64);
}

/// Words of up to 16 bytes and longer ones, each before the next one.
const ASCENDING: &[(&[u8], &[u8])] = &[
    (b"app", b"apple"),
    (b"apple", b"b"),
    (b"deoxyribonucleic", b"deoxyribonucleics"),
];

/// Whether a word stands before another, and each has its bytes.
fn ascend(alloc: Global, first: &[u8], second: &[u8]) -> Result<bool, AllocError> {
    let word = Word::copied(alloc, first)?;
    let other = Word::from_vec(second.to_vec(alloc)?);
    let again = Word::copied(alloc, word.as_bytes())?;
    Ok(
        word < other
            && word != other
            && word == again
            && (word.as_bytes(), other.as_bytes()) == (first, second),
    )
}

#[test]
fn words_are_in_byte_order(rt: HostRuntime) -> Result<(), Fail> {
    for (first, second) in ASCENDING {
        assert!(rt; ascend(rt.alloc(), first, second)?);
    }
    Ok(())
}

/// Settings that are right but for their columns, which have these names.
fn with_columns(alloc: Global, columns: &[&str]) -> Result<Settings, AllocError> {
    let mut names = Names::new(alloc);
    for name in columns {
        names.push(name.as_bytes().to_vec(alloc)?)?;
    }
    Ok(Settings {
        columns: names,
        min: 3,
        max: 84,
        stopword: true,
        optimize_words: 2_000,
        cache_bytes: 8_000_000,
        batch_docs: 1_000,
    })
}

/// Whether this field is named as wrong.
fn is_wrong(settings: &Settings, want: Option<Field>) -> bool {
    match settings.check() {
        Ok(()) => want.is_none(),
        Err(wrong) => Some(wrong.field) == want,
    }
}

const WRONG: Option<Field> = Some(Field::Columns);

const COLUMNS: &[(&[&str], Option<Field>)] = &[
    (&["title", "body"], None),
    (&["a", "b", "c", "d", "e", "f", "g", "h"], None),
    (&["a", "b", "c", "d", "e", "f", "g", "h", "i"], WRONG),
    (&[], WRONG),
    (&["body", "title", "body"], WRONG),
    (&["body", "id"], WRONG),
    (&["fts_doc_id"], WRONG),
    (&["abcdefghijklmnopqrstuvwxyzabcdef"], None),
    (&["abcdefghijklmnopqrstuvwxyzabcdefg"], WRONG),
];

#[test]
fn a_table_has_one_to_eight_distinct_columns(rt: HostRuntime) -> Result<(), Fail> {
    for (columns, want) in COLUMNS {
        let settings = with_columns(rt.alloc(), columns)?;
        assert!(rt; is_wrong(&settings, *want), "{columns:?}");
    }
    Ok(())
}

const LENGTHS: &[(u8, u8, Option<Field>)] = &[
    (0, 84, Some(Field::Min)),
    (1, 84, None),
    (16, 84, None),
    (17, 84, Some(Field::Min)),
    (3, 9, Some(Field::Max)),
    (3, 10, None),
    (16, 10, None),
    (3, 84, None),
    (3, 85, Some(Field::Max)),
    (17, 85, Some(Field::Min)),
];

#[test]
fn lengths_of_words_have_bounds(rt: HostRuntime) -> Result<(), Fail> {
    let mut settings = with_columns(rt.alloc(), &["body"])?;
    for (min, max, want) in LENGTHS {
        settings.min = *min;
        settings.max = *max;
        assert!(rt; is_wrong(&settings, *want), "{min} to {max}");
    }
    Ok(())
}

const SIZES: &[(u16, u32, u32, Option<Field>)] = &[
    (0, 1_000, 1, Some(Field::OptimizeWords)),
    (1, 1_000, 1, None),
    (10_000, 1_000, 1, None),
    (10_001, 1_000, 1, Some(Field::OptimizeWords)),
    (1, 999, 1, Some(Field::CacheBytes)),
    (1, 1_000, 1, None),
    (1, 80_000_000, 1, None),
    (1, 80_000_001, 1, Some(Field::CacheBytes)),
    (1, 1_000, 0, Some(Field::BatchDocs)),
    (1, 1_000, 100_000, None),
    (1, 1_000, 100_001, Some(Field::BatchDocs)),
    (1, 999, 0, Some(Field::CacheBytes)),
    (0, 999, 0, Some(Field::OptimizeWords)),
];

#[test]
fn sizes_have_bounds(rt: HostRuntime) -> Result<(), Fail> {
    let mut settings = with_columns(rt.alloc(), &["body"])?;
    for (words, cache, docs, want) in SIZES {
        settings.optimize_words = *words;
        settings.cache_bytes = *cache;
        settings.batch_docs = *docs;
        assert!(rt; is_wrong(&settings, *want), "{words} {cache} {docs}");
    }
    Ok(())
}

#[test]
fn the_columns_are_named_first(rt: HostRuntime) -> Result<(), Fail> {
    let mut settings = with_columns(rt.alloc(), &["id"])?;
    settings.min = 0;
    settings.batch_docs = 0;
    assert!(rt; is_wrong(&settings, WRONG));
    Ok(())
}

const FIELDS: &[(Field, &str)] = &[
    (Field::Columns, "bad settings: columns"),
    (Field::Min, "bad settings: min"),
    (Field::Max, "bad settings: max"),
    (Field::OptimizeWords, "bad settings: optimize_words"),
    (Field::CacheBytes, "bad settings: cache_bytes"),
    (Field::BatchDocs, "bad settings: batch_docs"),
];

fn is_written(alloc: Global, field: Field, want: &str) -> Result<bool, Fail> {
    let text = format!(in alloc; "{}", BadSettings { field })?;
    Ok(text.as_str() == want)
}

#[test]
fn bad_settings_name_the_field(rt: HostRuntime) -> Result<(), Fail> {
    for (field, want) in FIELDS {
        assert!(rt; is_written(rt.alloc(), *field, want)?);
    }
    Ok(())
}
