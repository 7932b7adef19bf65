use fts_sql::{ParseError, Statement, Value, Values, parse_statement};
use fts_types::Names;
use std::alloc::Global;
use std::test::Fail;

/// What a line is answered: its place of fault, 0 for a statement, or `NONE` for a blank line.
fn place(alloc: Global, line: &[u8]) -> u64 {
    match parse_statement(alloc, line) {
        Ok(Some(_)) => 0,
        Ok(None) => NONE,
        Err(ParseError::Syntax { at }) => at,
        Err(ParseError::NoMemory) => NO_MEMORY,
    }
}

/// The first bytes of a line, or all of it.
fn front(line: &str, length: usize) -> &[u8] {
    let bytes = line.as_bytes();
    if length < bytes.len() {
        return &bytes[..length];
    }
    bytes
}

/// Whether each front of the line is answered so, by its length.
fn are_fronts(alloc: Global, line: &str, places: &[u64]) -> bool {
    for (length, wanted) in places.iter().enumerate() {
        if place(alloc, front(line, length)) != *wanted {
            return false;
        }
    }
    true
}

fn is_at(alloc: Global, line: &str, wanted: u64) -> bool {
    place(alloc, line.as_bytes()) == wanted
}

const NONE: u64 = 1_000_000;

const NO_MEMORY: u64 = 2_000_000;

const INSERT: &str = "INSERT INTO t (a,b) VALUES (1,'x''');";

/// The answer to each front of `INSERT`, by its length.
const INSERT_PLACES: [u64; 38] = [
    NONE, 1, 1, 1, 1, 1, 7, 8, 8, 8, 8, 12, 13, 14, 15, 16, 17, 18, 19, 20, 21, 21, 21, 21, 21, 21,
    27, 28, 29, 30, 31, 31, 31, 34, 31, 36, 0, 0,
];

#[test]
fn fronts_of_an_insert(rt: HostRuntime) {
    assert!(rt; are_fronts(rt.alloc(), INSERT, &INSERT_PLACES));
}

const MATCH: &str = "SELECT FTS_DOC_ID FROM t WHERE MATCH (a) AGAINST ('x' IN BOOLEAN MODE);";

/// The answer to each front of `MATCH`, by its length.
const MATCH_PLACES: [u64; 72] = [
    NONE, 1, 1, 1, 1, 1, 7, 8, 8, 8, 8, 8, 8, 8, 8, 8, 8, 18, 19, 19, 19, 19, 23, 24, 25, 26, 26,
    26, 26, 26, 31, 32, 32, 32, 32, 32, 37, 38, 39, 40, 41, 42, 42, 42, 42, 42, 42, 42, 49, 50, 51,
    51, 51, 54, 55, 55, 57, 58, 58, 58, 58, 58, 58, 58, 65, 66, 66, 66, 66, 70, 0, 0,
];

#[test]
fn fronts_of_a_match(rt: HostRuntime) {
    assert!(rt; are_fronts(rt.alloc(), MATCH, &MATCH_PLACES));
}

const UPDATE: &str = "UPDATE t SET a='x',b='' WHERE id=7;";

/// The answer to each front of `UPDATE`, by its length.
const UPDATE_PLACES: [u64; 36] = [
    NONE, 1, 1, 1, 1, 1, 7, 8, 9, 10, 10, 10, 13, 14, 15, 16, 16, 16, 19, 20, 21, 22, 22, 24, 25,
    25, 25, 25, 25, 30, 31, 31, 33, 34, 0, 0,
];

#[test]
fn fronts_of_an_update(rt: HostRuntime) {
    assert!(rt; are_fronts(rt.alloc(), UPDATE, &UPDATE_PLACES));
}

const DELETE: &str = "DELETE FROM t WHERE id = 7;";

/// The answer to each front of `DELETE`, by its length.
const DELETE_PLACES: [u64; 28] = [
    NONE, 1, 1, 1, 1, 1, 7, 8, 8, 8, 8, 12, 13, 14, 15, 15, 15, 15, 15, 20, 21, 21, 23, 24, 25, 26,
    0, 0,
];

#[test]
fn fronts_of_a_delete(rt: HostRuntime) {
    assert!(rt; are_fronts(rt.alloc(), DELETE, &DELETE_PLACES));
}

const LIST: &str = "SELECT * FROM INFORMATION_SCHEMA.INNODB_FT_CONFIG;";

/// The answer to each front of `LIST`, by its length.
const LIST_PLACES: [u64; 51] = [
    NONE, 1, 1, 1, 1, 1, 7, 8, 9, 10, 10, 10, 10, 14, 15, 16, 17, 18, 19, 20, 21, 22, 23, 24, 25,
    26, 27, 28, 29, 30, 31, 32, 33, 34, 0, 0, 0, 0, 0, 0, 0, 0, 0, 0, 0, 0, 0, 0, 0, 0, 0,
];

#[test]
fn fronts_of_a_listing(rt: HostRuntime) {
    assert!(rt; are_fronts(rt.alloc(), LIST, &LIST_PLACES));
}

/// The answer to each front of `SYNC ;`, by its length.
const SYNC_PLACES: [u64; 7] = [NONE, 1, 1, 1, 0, 0, 0];

#[test]
fn fronts_of_a_sync(rt: HostRuntime) {
    assert!(rt; are_fronts(rt.alloc(), "SYNC ;", &SYNC_PLACES));
}

const OPTIMIZE: &str = "OPTIMIZE TABLE t ;";

/// The answer to each front of `OPTIMIZE`, by its length.
const OPTIMIZE_PLACES: [u64; 19] = [
    NONE, 1, 1, 1, 1, 1, 1, 1, 9, 10, 10, 10, 10, 10, 15, 16, 0, 0, 0,
];

#[test]
fn fronts_of_an_optimize(rt: HostRuntime) {
    assert!(rt; are_fronts(rt.alloc(), OPTIMIZE, &OPTIMIZE_PLACES));
}

/// Statements of transactions, and of sessions.
const TRANSACTIONS: [&str; 10] = [
    "begin",
    " START\ttransaction ; ",
    "Commit;",
    "ROLLBACK \r",
    "1:BEGIN",
    " 65535 : Commit ; ",
    "007: INSERT INTO docs (id, body) VALUES (7, '7:')",
    "7: DELETE FROM docs WHERE id = 8",
    "7: SELECT FTS_DOC_ID FROM docs WHERE MATCH (body) AGAINST ('pie' IN BOOLEAN MODE)",
    "7:SYNC",
];

#[test]
fn transactions_are_taken(rt: HostRuntime) {
    for line in TRANSACTIONS {
        assert!(rt; is_at(rt.alloc(), line, 0), "in {line}");
    }
}

/// Lines that are nearly one, and the place of the fault.
const NEARLY_TRANSACTIONS: [(&str, u64); 18] = [
    ("START", 6),
    ("START;", 6),
    ("BEGIN TRANSACTION", 7),
    ("COMMIT 7", 8),
    ("7 BEGIN", 3),
    ("7", 2),
    ("7:", 3),
    ("7: ", 4),
    ("7: -- x", 4),
    ("7: 8: BEGIN", 4),
    ("7:: BEGIN", 3),
    ("BEGIN: 7", 6),
    ("70000 BEGIN", 1),
    ("70000: BEGIN", 1),
    ("65536: BEGIN", 1),
    (" 0 BEGIN", 2),
    ("0: BEGIN", 1),
    ("18446744073709551623: BEGIN", 1),
];

#[test]
fn transactions_have_faults(rt: HostRuntime) {
    for (line, wanted) in NEARLY_TRANSACTIONS {
        assert!(rt; is_at(rt.alloc(), line, wanted), "in {line}");
    }
}

const TAKEN: [&str; 8] = [
    "insert into DOCS (ID, Body) values (1, 'it''s'); ",
    "INSERT INTO docs (id) VALUES (1)",
    "\tINSERT\tINTO docs(id,body)VALUES(18446744073709551615,'')\r",
    "INSERT INTO docs (id, body) VALUES (007, '\t~''''') ; ",
    "INSERT INTO _1 (id, id, x9) VALUES ('a', 2)",
    "insert into insert (values) values ('values')",
    "select fts_doc_id from docs where match(BODY)against('+pie'in boolean mode)",
    "Select FTS_doc_id From d Where Match ( a , b ) Against ( '' In Boolean Mode ) ; \t\r",
];

#[test]
fn statements_are_taken(rt: HostRuntime) {
    for line in TAKEN {
        assert!(rt; is_at(rt.alloc(), line, 0), "in {line}");
    }
}

const TAKEN_OF_THE_INDEX: [&str; 8] = [
    "select*from a . b",
    "SELECT * FROM information_schema.innodb_ft_config",
    "Select\t*\tFrom from.select ; ",
    " sync\r",
    "Sync;",
    "SYNC\t;\t",
    " Optimize\ttable DOCS; ",
    "optimize table table",
];

#[test]
fn statements_of_the_index_are_taken(rt: HostRuntime) {
    for line in TAKEN_OF_THE_INDEX {
        assert!(rt; is_at(rt.alloc(), line, 0), "in {line}");
    }
}

/// Lines that are nearly one, and the place of the fault.
const NEARLY: [(&str, u64); 14] = [
    ("SELECT * FROM docs", 19),
    ("SELECT * FROM a.", 17),
    ("SELECT * FROM a b", 17),
    ("SELECT * FROM a.b.c", 18),
    ("SELECT * FROM a.'b'", 17),
    ("SELECT * FTS_DOC_ID", 10),
    ("SELECT FTS_DOC_ID FROM a.b", 25),
    ("SYNC docs", 6),
    ("SYNC;;", 6),
    ("OPTIMIZE docs", 10),
    ("OPTIMIZE TABLE", 15),
    ("OPTIMIZE TABLE 'docs'", 16),
    ("OPTIMIZE TABLE docs, docs", 20),
    ("OPTIMIZE TABLE a.b", 17),
];

#[test]
fn statements_of_the_index_have_faults(rt: HostRuntime) {
    for (line, wanted) in NEARLY {
        assert!(rt; is_at(rt.alloc(), line, wanted), "in {line}");
    }
}

/// Statements that change and delete.
const CHANGES: [&str; 5] = [
    "update docs SET a = 'x', b = 'y', c = 'it''s' where ID = 1",
    "UPDATE set SET set = 'x' WHERE id = 18446744073709551615 ; ",
    "Update d Set where = '' Where id = 007",
    "delete\tfrom delete where ID=0",
    "DELETE FROM docs WHERE id = 1;",
];

#[test]
fn changes_are_taken(rt: HostRuntime) {
    for line in CHANGES {
        assert!(rt; is_at(rt.alloc(), line, 0), "in {line}");
    }
}

/// Lines that are nearly one, and the place of the fault.
const NEARLY_CHANGES: [(&str, u64); 14] = [
    ("UPDATE docs SET a = 'x' WHERE id = 1, 2", 37),
    ("UPDATE docs SET a = 7 WHERE id = 1", 21),
    ("UPDATE docs SET a = 'x' b = 'y' WHERE id = 1", 25),
    ("UPDATE docs SET a = 'x' WHERE key = 1", 31),
    ("UPDATE docs SET a = 'x' WHERE id = '1'", 36),
    ("UPDATE docs WHERE id = 1", 13),
    ("UPDATE docs SET WHERE id = 1", 23),
    ("UPDATE docs SET a = 'x', b WHERE id = 1", 28),
    ("DELETE docs WHERE id = 1", 8),
    ("DELETE FROM docs", 17),
    ("DELETE FROM docs WHERE id = -1", 29),
    ("DELETE FROM docs WHERE id = 1 OR id = 2", 31),
    ("DELETE FROM docs WHERE body = 1", 24),
    ("DELETE FROM docs WHERE id = 18446744073709551616", 29),
];

#[test]
fn changes_have_faults(rt: HostRuntime) {
    for (line, wanted) in NEARLY_CHANGES {
        assert!(rt; is_at(rt.alloc(), line, wanted), "in {line}");
    }
}

const BLANK: [&str; 7] = ["", " ", " \t\r", "-- note", "  --", "\t\r-- INSERT", "---"];

#[test]
fn blank_lines_say_nothing(rt: HostRuntime) {
    for line in BLANK {
        assert!(rt; is_at(rt.alloc(), line, NONE), "in {line}");
    }
}

/// Lines with a token that no statement can have at its place, and the place.
const MISPLACED: [(&str, u64); 16] = [
    ("SELEC", 1),
    ("REPLACE INTO docs (id) VALUES (1)", 1),
    ("BEGIN TRANSACTION", 7),
    ("SELECT id FROM docs", 8),
    ("7; INSERT INTO docs (id) VALUES (1)", 2),
    (";", 1),
    ("INSERTINTO docs (id) VALUES (1)", 1),
    ("INSERT INTO docs () VALUES (1)", 19),
    ("INSERT INTO docs (id,) VALUES (1)", 22),
    ("INSERT INTO docs (id) VALUES ()", 31),
    ("INSERT INTO docs (id) VALUES (1a)", 32),
    ("INSERT INTO 'docs' (id) VALUES (1)", 13),
    ("INSERT INTO docs (id) VALUES (1) x", 34),
    ("INSERT INTO docs (id) VALUES (1);;", 34),
    (
        "INSERT INTO docs (id) VALUES (1); INSERT INTO docs (id) VALUES (2)",
        35,
    ),
    ("INSERT INTO docs (id) VALUES (1); -- note", 35),
];

#[test]
fn misplaced_tokens_are_faults(rt: HostRuntime) {
    for (line, wanted) in MISPLACED {
        assert!(rt; is_at(rt.alloc(), line, wanted), "in {line}");
    }
}

/// Lines with something that is no token, and the place of its fault; and lines that end too early.
const UNREADABLE: [(&str, u64); 14] = [
    ("INSERT INTO docs (id) VALUES (18446744073709551616)", 31),
    ("INSERT INTO docs (id) VALUES (18446744073709551616a)", 31),
    ("18446744073709551616", 1),
    ("INSERT INTO docs (id, body) VALUES (1, 'x", 40),
    ("INSERT INTO docs (id, body) VALUES (1, 'x'')", 40),
    ("INSERT INTO docs (id, body) VALUES (1, 'x\x7f')", 42),
    ("INSERT INTO docs (id, body) VALUES (1, 'x\ny')", 42),
    ("INSERT INTO docs (id, body) VALUES (1, '''\n", 43),
    ("INSERT 'a\n", 10),
    ("INSERT 'a", 8),
    ("SELECT - FROM docs", 8),
    ("INSERT INTO docs (id) VALUES (-1)", 31),
    ("INSERT INTO docs  \r", 20),
    ("SELECT\t", 8),
];

#[test]
fn unreadable_pieces_are_faults(rt: HostRuntime) {
    for (line, wanted) in UNREADABLE {
        assert!(rt; is_at(rt.alloc(), line, wanted), "in {line}");
    }
}

/// Whether there are two names, these.
fn are_two(names: &Names, first: &[u8], second: &[u8]) -> bool {
    names.len() == 2 && names.text(0) == first && names.text(1) == second
}

/// Whether the values are a number and a text, these.
fn are_values(values: &[Value], want_number: u64, want_text: &[u8]) -> bool {
    match values {
        [Value::Number(number), Value::Text(text)] => {
            *number == want_number && text.as_slice() == want_text
        }
        _ => false,
    }
}

fn is_insert(alloc: Global, line: &[u8]) -> Result<bool, Fail> {
    match parse_statement(alloc, line)? {
        Some(
            Statement::Insert {
                table,
                columns,
                values,
            },
        ) => Ok(
            table.as_slice() == b"DOCS".as_slice()
                && are_two(&columns, b"ID", b"Body")
                && are_values(values.as_slice(), 1, b"it's"),
        ),
        _ => Ok(false),
    }
}

#[test]
fn an_insert_has_its_parts(rt: HostRuntime) -> Result<(), Fail> {
    let line = b"insert into DOCS (ID, Body) values (1, 'it''s'); ";
    assert!(rt; is_insert(rt.alloc(), line)?);
    Ok(())
}

fn is_update(alloc: Global, line: &[u8]) -> Result<bool, Fail> {
    match parse_statement(alloc, line)? {
        Some(
            Statement::Update {
                table,
                columns,
                texts,
                key,
            },
        ) => Ok(
            table.as_slice() == b"Docs".as_slice()
                && key == 7
                && are_two(&columns, b"A", b"b")
                && are_two(&texts, b"x", b"it's"),
        ),
        _ => Ok(false),
    }
}

#[test]
fn an_update_has_its_parts(rt: HostRuntime) -> Result<(), Fail> {
    let line = b"update Docs set A = 'x', b = 'it''s' where id = 7";
    assert!(rt; is_update(rt.alloc(), line)?);
    Ok(())
}

fn is_delete(alloc: Global, line: &[u8], want_table: &[u8], want_key: u64) -> Result<bool, Fail> {
    match parse_statement(alloc, line)? {
        Some(Statement::Delete { table, key }) => {
            Ok(table.as_slice() == want_table && key == want_key)
        }
        _ => Ok(false),
    }
}

#[test]
fn a_delete_has_its_parts(rt: HostRuntime) -> Result<(), Fail> {
    let line = b"DELETE FROM Docs WHERE id = 18446744073709551615";
    assert!(rt; is_delete(rt.alloc(), line, b"Docs", u64::MAX)?);
    Ok(())
}

fn is_match(alloc: Global, line: &[u8]) -> Result<bool, Fail> {
    match parse_statement(alloc, line)? {
        Some(
            Statement::Match {
                table,
                columns,
                query,
            },
        ) => Ok(
            table.as_slice() == b"Docs".as_slice()
                && are_two(&columns, b"A", b"b")
                && query.as_slice() == b"+pie".as_slice(),
        ),
        _ => Ok(false),
    }
}

#[test]
fn a_match_has_its_parts(rt: HostRuntime) -> Result<(), Fail> {
    let line = b"SELECT FTS_DOC_ID FROM Docs WHERE MATCH (A, b) AGAINST ('+pie' IN BOOLEAN MODE)";
    assert!(rt; is_match(rt.alloc(), line)?);
    Ok(())
}

/// Which statement of a transaction a line is: 1 begins it, 2 commits it, 3 takes it back.
fn in_transaction(alloc: Global, line: &[u8]) -> Result<u8, Fail> {
    match parse_statement(alloc, line)? {
        Some(Statement::Begin) => Ok(1),
        Some(Statement::Commit) => Ok(2),
        Some(Statement::Rollback) => Ok(3),
        _ => Ok(0),
    }
}

#[test]
fn transactions_have_their_statements(rt: HostRuntime) -> Result<(), Fail> {
    assert!(rt; in_transaction(rt.alloc(), b"BEGIN")? == 1);
    assert!(rt; in_transaction(rt.alloc(), b"2: start transaction")? == 1);
    assert!(rt; in_transaction(rt.alloc(), b"commit")? == 2);
    assert!(rt; in_transaction(rt.alloc(), b"3:rollback;")? == 3);
    Ok(())
}

#[test]
fn a_session_is_no_key(rt: HostRuntime) -> Result<(), Fail> {
    assert!(rt; is_delete(rt.alloc(), b"7: DELETE FROM docs WHERE id = 8", b"docs", 8)?);
    Ok(())
}

fn is_optimize(alloc: Global, line: &[u8]) -> Result<bool, Fail> {
    match parse_statement(alloc, line)? {
        Some(Statement::Optimize { table }) => Ok(table.as_slice() == b"Docs".as_slice()),
        _ => Ok(false),
    }
}

#[test]
fn an_optimize_has_its_table(rt: HostRuntime) -> Result<(), Fail> {
    assert!(rt; is_optimize(rt.alloc(), b"OPTIMIZE table Docs;")?);
    Ok(())
}

fn is_listing(alloc: Global, line: &[u8]) -> Result<bool, Fail> {
    match parse_statement(alloc, line)? {
        Some(Statement::List { schema, view }) => Ok(
            schema.as_slice() == b"A".as_slice() && view.as_slice() == b"b".as_slice(),
        ),
        _ => Ok(false),
    }
}

#[test]
fn a_listing_has_its_parts(rt: HostRuntime) -> Result<(), Fail> {
    assert!(rt; is_listing(rt.alloc(), b"select*from A . b")?);
    Ok(())
}

fn is_printed(alloc: Global, error: ParseError, text: &str) -> Result<bool, Fail> {
    let printed = format!(in alloc; "{error}")?;
    Ok(printed.as_str() == text)
}

#[test]
fn errors_are_printed(rt: HostRuntime) -> Result<(), Fail> {
    assert!(rt; is_printed(rt.alloc(), ParseError::Syntax { at: 40 }, "syntax at 40")?);
    assert!(rt; is_printed(rt.alloc(), ParseError::NoMemory, "no memory")?);
    Ok(())
}

fn long_insert(alloc: Global) -> Result<String, Fail> {
    let mut line = String::from_str(alloc, "INSERT INTO docs (id) VALUES ('")?;
    for _ in 0..70_000 {
        line.push_str("''")?;
    }
    line.push_str("')")?;
    Ok(line)
}

#[test]
fn a_long_text_is_taken(rt: HostRuntime) -> Result<(), Fail> {
    let line = long_insert(rt.alloc())?;
    assert!(rt; is_at(rt.alloc(), line.as_str(), 0));
    Ok(())
}

fn are_kept(alloc: Global) -> Result<bool, Fail> {
    let values = Values::from_vec(vec![in alloc; Value::Number(7)]?);
    let is_one = values.len() == 1 && matches!(values.as_slice(), [Value::Number(7)]);
    Ok(is_one && values.into_vec().len() == 1)
}

#[test]
fn values_are_kept(rt: HostRuntime) -> Result<(), Fail> {
    assert!(rt; are_kept(rt.alloc())?);
    Ok(())
}
