use fts_sql::session_of;

/// Lines with their sessions, 0 for a line that counts for none.
const SESSIONS: [(&str, u32); 22] = [
    ("", 0),
    (" \t\r", 0),
    ("-- 7: BEGIN", 0),
    ("  --", 0),
    ("BEGIN", 1),
    ("1: BEGIN", 1),
    ("7: BEGIN", 7),
    ("\t007\t:BEGIN", 7),
    ("7:", 7),
    ("7: -- x", 7),
    ("7: 8: BEGIN", 7),
    ("65535: no statement", 65_535),
    ("65536: BEGIN", 1),
    ("70000: BEGIN", 1),
    ("70000 BEGIN", 1),
    ("0: BEGIN", 1),
    ("0 BEGIN", 1),
    ("18446744073709551623: BEGIN", 1),
    ("7 BEGIN", 1),
    ("7", 1),
    ("7;: BEGIN", 1),
    (": BEGIN", 1),
];

fn is_of(line: &str, wanted: u32) -> bool {
    session_of(line.as_bytes()).unwrap_or(0) == wanted
}

#[test]
fn lines_have_sessions(rt: HostRuntime) {
    for (line, wanted) in SESSIONS {
        assert!(rt; is_of(line, wanted), "in {line}");
    }
}
