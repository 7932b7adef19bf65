use fts_args::{Command, command_of};
use fts_types::Settings;
use std::alloc::{AllocError, Global};
use std::test::Fail;

/// The words of a line, which stand between its spaces.
fn words_of(alloc: Global, line: &str) -> Result<Vec<String>, AllocError> {
    let mut words = Vec::new(alloc);
    for word in line.split_whitespace() {
        words.push(String::from_str(alloc, word)?)?;
    }
    Ok(words)
}

/// The settings of the database that a line asks for.
fn created(alloc: Global, line: &str) -> Result<Option<Settings>, AllocError> {
    let words = words_of(alloc, line)?;
    match command_of(alloc, words.as_slice())? {
        Some(Command::Create { settings }) => Ok(Some(settings)),
        Some(Command::Run) => Ok(None),
        Some(Command::Serve) => Ok(None),
        Some(Command::Gen { .. }) => Ok(None),
        None => Ok(None),
    }
}

/// The numbers of settings in their order, with 1 for `stopword`.
fn numbers_of(settings: &Settings) -> [u32; 6] {
    [
        settings.min as u32,
        settings.max as u32,
        settings.stopword as u32,
        settings.optimize_words as u32,
        settings.cache_bytes,
        settings.batch_docs,
    ]
}

const CREATED: [(&str, [u32; 6]); 11] = [
    (
        "D create --columns body",
        [3, 84, 1, 2_000, 8_000_000, 1_000],
    ),
    (
        "D create --columns=body",
        [3, 84, 1, 2_000, 8_000_000, 1_000],
    ),
    (
        "D create --columns title,body --min 2 --no-stopword",
        [2, 84, 0, 2_000, 8_000_000, 1_000],
    ),
    (
        "D create --min=1 --columns body --max=10",
        [1, 10, 1, 2_000, 8_000_000, 1_000],
    ),
    (
        "D create --min 16 --max 84 --columns body",
        [16, 84, 1, 2_000, 8_000_000, 1_000],
    ),
    (
        "D create --columns body --optimize-words 1",
        [3, 84, 1, 1, 8_000_000, 1_000],
    ),
    (
        "D create --columns body --optimize-words 10000",
        [3, 84, 1, 10_000, 8_000_000, 1_000],
    ),
    (
        "D create --columns body --cache-bytes 1000 --batch-docs 1",
        [3, 84, 1, 2_000, 1_000, 1],
    ),
    (
        "D create --cache-bytes 80000000 --batch-docs 100000 --columns a",
        [3, 84, 1, 2_000, 80_000_000, 100_000],
    ),
    (
        "D create --columns body --min +3 --max 010",
        [3, 10, 1, 2_000, 8_000_000, 1_000],
    ),
    (
        "D create --columns body --",
        [3, 84, 1, 2_000, 8_000_000, 1_000],
    ),
];

/// Whether a line asks for a database with these numbers.
fn has_numbers(alloc: Global, line: &str, want: [u32; 6]) -> Result<bool, AllocError> {
    match created(alloc, line)? {
        Some(settings) => Ok(numbers_of(&settings) == want),
        None => Ok(false),
    }
}

#[test]
fn settings_are_what_the_options_say(rt: HostRuntime) -> Result<(), Fail> {
    for (line, want) in CREATED {
        assert!(rt; has_numbers(rt.alloc(), line, want)?, "at {line}");
    }
    Ok(())
}

/// The names of a database's columns, each before a semicolon.
fn named(alloc: Global, settings: &Settings) -> Result<Vec<u8>, AllocError> {
    let mut names = Vec::new(alloc);
    for place in 0..settings.columns.len() {
        names.extend_from_slice(settings.columns.text(place))?;
        names.push(b';')?;
    }
    Ok(names)
}

const COLUMNS: [(&str, &str); 5] = [
    ("D create --columns body", "body;"),
    ("D create --columns title,body", "title;body;"),
    ("D create --columns a_1,b2,c", "a_1;b2;c;"),
    ("D create --columns a,b,c,d,e,f,g,h", "a;b;c;d;e;f;g;h;"),
    (
        "D create --columns a2345678901234567890123456789012",
        "a2345678901234567890123456789012;",
    ),
];

/// Whether a line asks for a database with these columns.
fn has_columns(alloc: Global, line: &str, want: &str) -> Result<bool, AllocError> {
    match created(alloc, line)? {
        Some(settings) => Ok(named(alloc, &settings)?.as_slice() == want.as_bytes()),
        None => Ok(false),
    }
}

#[test]
fn columns_are_cut_at_commas(rt: HostRuntime) -> Result<(), Fail> {
    for (line, want) in COLUMNS {
        assert!(rt; has_columns(rt.alloc(), line, want)?, "at {line}");
    }
    Ok(())
}

/// Whether a line asks for nothing.
fn is_usage(alloc: Global, line: &str) -> Result<bool, AllocError> {
    let words = words_of(alloc, line)?;
    Ok(command_of(alloc, words.as_slice())?.is_none())
}

const FAULTY_SETTINGS: [&str; 22] = [
    "D create",
    "D create --columns",
    "D create --columns=",
    "D create --columns id",
    "D create --columns fts_doc_id",
    "D create --columns Body",
    "D create --columns 1a",
    "D create --columns a,a",
    "D create --columns a,b,a",
    "D create --columns a,",
    "D create --columns ,a",
    "D create --columns a,b,c,d,e,f,g,h,i",
    "D create --columns a23456789012345678901234567890123",
    "D create --columns a --columns b",
    "D create --columns body --min 17",
    "D create --columns body --min 0",
    "D create --columns body --min -1",
    "D create --columns body --min x",
    "D create --columns body --max 9",
    "D create --columns body --max 85",
    "D create --columns body --min 3 --min 3",
    "D create --columns body --no-stopword=true",
];

const FAULTY_COMMANDS: [&str; 25] = [
    "",
    "D",
    "D frob",
    "D run x",
    "D run --columns a",
    "D serve x",
    "D serve --columns a",
    "D create --columns body x",
    "D create x --columns body",
    "D create --columns body --frob",
    "D create --columns body --optimize-words 0",
    "D create --columns body --optimize-words 10001",
    "D create --columns body --cache-bytes 999",
    "D create --columns body --cache-bytes 80000001",
    "D create --columns body --batch-docs 0",
    "D create --columns body --batch-docs 100001",
    "D --help",
    "D -h",
    "D help",
    "D --version",
    "D -V",
    "D create --help",
    "D run run",
    "D -- run",
    "create --columns body",
];

#[test]
fn faulty_lines_ask_for_nothing(rt: HostRuntime) -> Result<(), Fail> {
    for line in FAULTY_SETTINGS {
        assert!(rt; is_usage(rt.alloc(), line)?, "at {line}");
    }
    for line in FAULTY_COMMANDS {
        assert!(rt; is_usage(rt.alloc(), line)?, "at {line}");
    }
    Ok(())
}

/// Whether a line with an empty word behind it asks for nothing.
fn is_usage_before_nothing(alloc: Global, line: &str) -> Result<bool, AllocError> {
    let mut words = words_of(alloc, line)?;
    words.push(String::new(alloc))?;
    Ok(command_of(alloc, words.as_slice())?.is_none())
}

#[test]
fn an_empty_word_is_no_list_of_columns(rt: HostRuntime) -> Result<(), Fail> {
    assert!(rt; is_usage_before_nothing(rt.alloc(), "D create --columns")?);
    Ok(())
}

const GENERATED: [(&str, u16, u32); 5] = [
    ("D gen 1 5", 1, 5),
    ("D gen 0 0", 0, 0),
    ("D gen 65535 1000000", 65_535, 1_000_000),
    ("D gen 007 +5", 7, 5),
    ("D gen -- 7 5", 7, 5),
];

/// Whether a line asks for a script of this number and count.
fn is_gen(alloc: Global, line: &str, want: (u16, u32)) -> Result<bool, AllocError> {
    let words = words_of(alloc, line)?;
    match command_of(alloc, words.as_slice())? {
        Some(Command::Gen { seed, count }) => Ok((seed, count) == want),
        _ => Ok(false),
    }
}

#[test]
fn gen_has_two_numbers(rt: HostRuntime) -> Result<(), Fail> {
    for (line, want_seed, want_count) in GENERATED {
        assert!(rt;
            is_gen(rt.alloc(), line, (want_seed, want_count))?,
            "at {line}"
        );
    }
    Ok(())
}

const FAULTY_SCRIPTS: [&str; 11] = [
    "D gen",
    "D gen 1",
    "D gen 1 2 3",
    "D gen 65536 1",
    "D gen 1 1000001",
    "D gen -1 1",
    "D gen 1 x",
    "D gen x 1",
    "D gen 1 5 --columns body",
    "D gen --seed 1 --count 5",
    "D gen 18446744073709551617 1",
];

#[test]
fn faulty_scripts_ask_for_nothing(rt: HostRuntime) -> Result<(), Fail> {
    for line in FAULTY_SCRIPTS {
        assert!(rt; is_usage(rt.alloc(), line)?, "at {line}");
    }
    Ok(())
}

fn is_run(alloc: Global, line: &str) -> Result<bool, AllocError> {
    let words = words_of(alloc, line)?;
    let command = command_of(alloc, words.as_slice())?;
    Ok(matches!(command, Some(Command::Run)))
}

#[test]
fn run_is_asked_for(rt: HostRuntime) -> Result<(), Fail> {
    assert!(rt; is_run(rt.alloc(), "D run")?);
    Ok(())
}

fn is_serve(alloc: Global, line: &str) -> Result<bool, AllocError> {
    let words = words_of(alloc, line)?;
    let command = command_of(alloc, words.as_slice())?;
    Ok(matches!(command, Some(Command::Serve)))
}

#[test]
fn serve_is_asked_for(rt: HostRuntime) -> Result<(), Fail> {
    assert!(rt; is_serve(rt.alloc(), "D serve")?);
    Ok(())
}
