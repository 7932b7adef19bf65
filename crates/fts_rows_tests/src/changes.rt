//! The texts of changes.
use fts_commits::{NewTexts, is_text_byte};
use std::test::Fail;

/// Bytes, and whether they are bytes of texts.
const BYTES: &[(u8, bool)] = &[
    (9, true),
    (10, false),
    (31, false),
    (32, true),
    (126, true),
    (127, false),
    (255, false),
];

#[test]
fn tells_the_bytes_of_texts(rt: HostRuntime) {
    for (byte, want) in BYTES {
        assert!(rt; is_text_byte(*byte) == *want, "at {byte}");
    }
}

/// Whether there are two texts, of which the second one is new.
fn has_second(texts: &NewTexts) -> bool {
    if texts.len() != 2 {
        return false;
    }
    let first = texts.text(0);
    let second = texts.text(1);
    first.is_none() && second == Some(b"ab".as_slice())
}

#[test]
fn new_texts_are_found_by_place(rt: HostRuntime) -> Result<(), Fail> {
    let text = Vec::from_slice(rt.alloc(), b"ab")?;
    let texts = NewTexts::from_vec(vec![in rt.alloc(); None, Some(text)]?);
    assert!(rt; has_second(&texts));
    Ok(())
}
