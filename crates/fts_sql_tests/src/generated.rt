use fts_gen::{ScriptLines, script};
use fts_types::{Names, Settings};
use std::alloc::Global;
use std::test::Fail;

// The script of a number about a table with these columns.
fn script_of(alloc: Global, columns: &[&str], seed: u16, count: u32) -> Result<ScriptLines, Fail> {
    let mut names = Names::new(alloc);
    for name in columns {
        names.push(Vec::from_slice(alloc, name.as_bytes())?)?;
    }
    let settings = Settings {
        columns: names,
        min: 3,
        max: 84,
        stopword: true,
        optimize_words: 2_000,
        cache_bytes: 8_000_000,
        batch_docs: 1_000,
    };
    settings.check()?;
    Ok(script(alloc, &settings, seed, count)?)
}

// The next lines are these.
fn goes_on(script: &mut ScriptLines, lines: &[&str]) -> Result<bool, Fail> {
    for wanted in lines {
        let Some(line) = script.next_line()? else {
            return Ok(false);
        };
        if line.as_slice() != wanted.as_bytes() {
            return Ok(false);
        }
    }
    Ok(true)
}

fn ends(script: &mut ScriptLines) -> Result<bool, Fail> {
    Ok(script.next_line()?.is_none())
}

const ONE_COLUMN: [&str; 5] = [
    "UPDATE docs SET body = 'jay mole dog dog pony' WHERE id = 1",
    "INSERT INTO docs (id, body) VALUES (2, 'ant newt owl mole mole')",
    "INSERT INTO docs (id, body) VALUES (3, 'cat ibis ant kite cat')",
    "UPDATE docs SET body = 'jay hen dog cat mole' WHERE id = 3",
    "INSERT INTO docs (id, body) VALUES (5, 'ibis lark newt owl lark')",
];

#[test]
fn one_column(rt: HostRuntime) -> Result<(), Fail> {
    let mut script = script_of(rt.alloc(), &["body"], 1, 5)?;
    assert!(rt; goes_on(&mut script, &ONE_COLUMN)?);
    assert!(rt; ends(&mut script)?);
    assert!(rt; ends(&mut script)?);
    Ok(())
}

const THREE_COLUMNS: [&str; 6] = [
    "SELECT FTS_DOC_ID FROM docs WHERE MATCH (title, body, note) AGAINST ('+hen elk -bee' \
     IN BOOLEAN MODE)",
    "UPDATE docs SET title = 'owl gnu cat hen kite' WHERE id = 1",
    "INSERT INTO docs (id, title, body, note) VALUES (3, 'dog dog jay dog dog', '', '')",
    "INSERT INTO docs (id, title, body, note) VALUES (4, 'kite hen jay gnu newt', '', '')",
    "DELETE FROM docs WHERE id = 3",
    "INSERT INTO docs (id, title, body, note) VALUES (6, 'dog bee newt hen jay', '', '')",
];

#[test]
fn three_columns(rt: HostRuntime) -> Result<(), Fail> {
    let mut script = script_of(rt.alloc(), &["title", "body", "note"], 7, 1_000_000)?;
    assert!(rt; goes_on(&mut script, &THREE_COLUMNS)?);
    Ok(())
}

// The line is this statement, or where none is named it is neither a SYNC nor an OPTIMIZE.
fn is_line(line: &[u8], wanted: Option<&str>) -> bool {
    match wanted {
        Some(text) => line == text.as_bytes(),
        None => !line.starts_with(b"SY") && !line.starts_with(b"OP"),
    }
}

// At which lines, from 0, a script of 500 statements has batches and passes.
fn has_batches_and_passes(script: &mut ScriptLines) -> Result<bool, Fail> {
    for number in 0..507 {
        let wanted = match number {
            100 | 201 | 303 | 404 | 505 => Some("SYNC"),
            252 | 506 => Some("OPTIMIZE TABLE docs"),
            _ => None,
        };
        let Some(line) = script.next_line()? else {
            return Ok(false);
        };
        if !is_line(line.as_slice(), wanted) {
            return Ok(false);
        }
    }
    ends(script)
}

#[test]
fn batches_and_passes(rt: HostRuntime) -> Result<(), Fail> {
    let mut script = script_of(rt.alloc(), &["body"], 7, 500)?;
    assert!(rt; has_batches_and_passes(&mut script)?);
    Ok(())
}

#[test]
fn no_statement(rt: HostRuntime) -> Result<(), Fail> {
    let mut script = script_of(rt.alloc(), &["body"], 65_535, 0)?;
    assert!(rt; ends(&mut script)?);
    Ok(())
}
