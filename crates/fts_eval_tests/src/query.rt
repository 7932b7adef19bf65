use fts_meaning::Sign;
use fts_query::{Leaf, Operand, Term, parse};
use fts_types::Texts;
use std::alloc::{AllocError, Global};
use std::test::Fail;

/// Writes words between quotes.
fn show_words(words: &Texts, out: &mut Vec<u8>) -> Result<(), AllocError> {
    out.push(b'"')?;
    for place in 0..words.len() {
        if place > 0 {
            out.push(b' ')?;
        }
        out.extend_from_slice(words.text(place))?;
    }
    out.push(b'"')?;
    Ok(())
}

fn show_sign(sign: Sign, out: &mut Vec<u8>) -> Result<(), AllocError> {
    match sign {
        Sign::Required => out.push(b'+')?,
        Sign::Excluded => out.push(b'-')?,
        Sign::Optional => {}
    }
    Ok(())
}

fn show_operand(alloc: Global, operand: &Operand, out: &mut Vec<u8>) -> Result<(), AllocError> {
    match operand {
        Operand::Word(word) => out.extend_from_slice(word.as_slice()),
        Operand::Prefix(word) => {
            out.extend_from_slice(word.as_slice())?;
            out.extend_from_slice(b"*")
        }
        Operand::Phrase(words) => show_words(words, out),
        Operand::Distance(words, number) => {
            show_words(words, out)?;
            let number = format!(in alloc; "@{number}")?;
            out.extend_from_slice(number.as_bytes())
        }
    }
}

/// Writes terms as they are read: one space between two, no optional sign, no space before an `@`.
fn show(alloc: Global, terms: &[Term], out: &mut Vec<u8>) -> Result<(), AllocError> {
    let mut first = true;
    for term in terms {
        if !first {
            out.push(b' ')?;
        }
        first = false;
        match term {
            Term::Leaf(sign, operand) => {
                show_sign(*sign, out)?;
                show_operand(alloc, operand, out)?;
            }
            Term::Group(sign, inner) => {
                show_sign(*sign, out)?;
                out.push(b'(')?;
                show(alloc, inner.as_slice(), out)?;
                out.push(b')')?;
            }
        }
    }
    Ok(())
}

/// The tree of a text, or `!` and the refusal.
fn shown(alloc: Global, text: &[u8]) -> Result<Vec<u8>, AllocError> {
    match parse(alloc, text) {
        Ok(query) => {
            let mut out = Vec::new(alloc);
            show(alloc, query.terms.as_slice(), &mut out)?;
            Ok(out)
        }
        Err(error) => {
            let text = format!(in alloc; "!{error}")?;
            text.as_bytes().to_vec(alloc)
        }
    }
}

/// Words, signs, prefixes.
const WORDS: &[(&str, &str)] = &[
    ("", ""),
    ("apple", "apple"),
    ("Apple PIE", "apple pie"),
    ("+apple -pie", "+apple -pie"),
    (">apple <pie ~x", "apple pie x"),
    ("-apple", "-apple"),
    ("pear -apple", "pear -apple"),
    ("+apple +the", "+apple +the"),
    ("+apple +the*", "+apple +the*"),
    ("a-b", "a -b"),
    ("a~b", "a b"),
];

/// Words, signs, prefixes.
const MORE_WORDS: &[(&str, &str)] = &[
    ("a>b<c", "a b c"),
    ("a,b;c", "a b c"),
    ("x_1", "x_1"),
    ("aéb", "a b"),
    ("don't", "don't"),
    ("rock'n'roll", "rock'n'roll"),
    ("'tis", "tis"),
    ("a''b", "a b"),
    ("pie*pie", "pie* pie"),
    ("pie*+pie", "pie* +pie"),
];

/// Brackets.
const BRACKETS: &[(&str, &str)] = &[
    ("()", "()"),
    ("-(apple)", "-(apple)"),
    ("+(pie theory) -apple", "+(pie theory) -apple"),
    ("a(b)c", "a (b) c"),
    ("+(+(a) -b)", "+(+(a) -b)"),
    ("~(a)", "(a)"),
    ("( a ( ) b )", "(a () b)"),
];

/// Phrases and distances.
const PHRASES: &[(&str, &str)] = &[
    ("\"\"", "\"\""),
    ("\"test phrase\"", "\"test phrase\""),
    ("\"the of\"", "\"the of\""),
    ("\"a+b (c) @d*\"", "\"a b c d\""),
    ("foo\"bar baz\"", "foo \"bar baz\""),
    ("+\"bar\"", "+\"bar\""),
    ("a\"\"b", "a \"\" b"),
    ("\"a\"b\"c\"", "\"a\" b \"c\""),
    ("\"a)\" (b)", "\"a\" (b)"),
    ("\"a'b' c\"", "\"a'b c\""),
    ("\"apple pie\" @2", "\"apple pie\"@2"),
];

/// Phrases and distances.
const MORE_PHRASES: &[(&str, &str)] = &[
    ("\"apple apple\" @0", "\"apple apple\"@0"),
    ("\"a\"\t@2\tb", "\"a\"@2 b"),
    ("\"a\" @65535", "\"a\"@65535"),
    ("\"a\"@007", "\"a\"@7"),
    ("\"a\" @2'b", "\"a\"@2 b"),
    ("\"a\"@2\"b\"", "\"a\"@2 \"b\""),
    ("\"a\" \t @9 \"b\"", "\"a\"@9 \"b\""),
    ("\"The of\" @1", "\"the of\"@1"),
    ("+\"a b\"@1", "+\"a b\"@1"),
    ("+(\"a\" @1 -c*)", "+(\"a\"@1 -c*)"),
    ("\"a\"@3+b", "\"a\"@3 +b"),
];

/// A sign without what it is a sign of.
const SIGNS: &[(&str, &str)] = &[
    ("++apple", "!query syntax at 1"),
    ("+-apple", "!query syntax at 1"),
    ("+*", "!query syntax at 1"),
    ("apple+", "!query syntax at 6"),
    ("+ apple", "!query syntax at 1"),
    ("+'apple", "!query syntax at 1"),
    ("-", "!query syntax at 1"),
    ("a -", "!query syntax at 3"),
    ("+)", "!query syntax at 1"),
];

/// A star without its word.
const STARS: &[(&str, &str)] = &[
    ("apple**", "!query syntax at 7"),
    ("apple'*", "!query syntax at 7"),
    ("\"pie\"*", "!query syntax at 6"),
    ("(pie)*", "!query syntax at 6"),
    ("pie *", "!query syntax at 5"),
    ("*a", "!query syntax at 1"),
    ("\"a\"@1*", "!query syntax at 6"),
];

/// An `@` that is no distance's.
const ATS: &[(&str, &str)] = &[
    ("apple @3", "!query syntax at 7"),
    ("a@3", "!query syntax at 2"),
    ("\"a\" @65536", "!query syntax at 5"),
    ("\"apple\"@3x", "!query syntax at 8"),
    ("\"a b\"@", "!query syntax at 6"),
    ("\"a b\"@ 3", "!query syntax at 6"),
    ("\"a b\" @3 @4", "!query syntax at 10"),
    ("\"a\" b @3", "!query syntax at 7"),
    ("(\"a\") @3", "!query syntax at 7"),
];

/// A quote or a bracket without its partner.
const PARTNERS: &[(&str, &str)] = &[
    ("\"apple pie", "!query syntax at 1"),
    ("-\"a", "!query syntax at 2"),
    ("\"a\" \"b", "!query syntax at 5"),
    ("(\"x)", "!query syntax at 2"),
    ("( \"abc )", "!query syntax at 3"),
    ("(((apple", "!query syntax at 1"),
    ("apple)", "!query syntax at 6"),
    ("(a))", "!query syntax at 4"),
    (")(", "!query syntax at 1"),
    ("(a)(", "!query syntax at 4"),
];

/// The leftmost fault, also where a later one is met first.
const LEFTMOST: &[(&str, &str)] = &[
    ("(+ x", "!query syntax at 1"),
    ("(+ x)", "!query syntax at 2"),
];

const ALL: &[&[(&str, &str)]] = &[
    WORDS,
    MORE_WORDS,
    BRACKETS,
    PHRASES,
    MORE_PHRASES,
    SIGNS,
    STARS,
    ATS,
    PARTNERS,
    LEFTMOST,
];

/// Whether a text has this tree or refusal.
fn is_shown(alloc: Global, text: &[u8], want: &[u8]) -> Result<bool, AllocError> {
    Ok(shown(alloc, text)?.as_slice() == want)
}

#[test]
fn texts_have_their_trees_or_their_first_faults(rt: HostRuntime) -> Result<(), Fail> {
    for rows in ALL {
        for (text, want) in *rows {
            let holds = is_shown(rt.alloc(), text.as_bytes(), want.as_bytes())?;
            assert!(rt; holds, "{text:?}");
        }
    }
    Ok(())
}

/// So many of one byte, a text, and so many of another byte.
fn nested(alloc: Global, open: usize, inner: &[u8], close: usize) -> Result<Vec<u8>, AllocError> {
    let mut text = Vec::new(alloc);
    for _ in 0..open {
        text.push(b'(')?;
    }
    text.extend_from_slice(inner)?;
    for _ in 0..close {
        text.push(b')')?;
    }
    Ok(text)
}

/// How many brackets stand before and behind a text, and how it is refused.
const NESTED: &[(usize, &str, usize, &str)] = &[
    (33, "apple", 33, "!query too deep at 33"),
    (33, "apple", 32, "!query syntax at 1"),
    (33, "*", 33, "!query syntax at 34"),
    (2_048, "", 2_048, "!query too deep at 33"),
    (4_096, "", 0, "!query syntax at 1"),
    (4_096, "a", 0, "!query too long 4097"),
];

/// Whether a text in brackets is refused so.
fn is_refused(
    alloc: Global,
    inner: &str,
    brackets: (usize, usize),
    want: &str,
) -> Result<bool, AllocError> {
    let text = nested(alloc, brackets.0, inner.as_bytes(), brackets.1)?;
    is_shown(alloc, text.as_slice(), want.as_bytes())
}

/// Whether a word may stand 32 brackets deep.
fn is_deepest(alloc: Global) -> Result<bool, AllocError> {
    let text = nested(alloc, 32, b"apple", 32)?;
    is_shown(alloc, text.as_slice(), text.as_slice())
}

#[test]
fn depth_and_length_are_limited(rt: HostRuntime) -> Result<(), Fail> {
    for (open, inner, close, want) in NESTED {
        assert!(rt; is_refused(rt.alloc(), inner, (*open, *close), want)?);
    }
    assert!(rt; is_deepest(rt.alloc())?);
    Ok(())
}
