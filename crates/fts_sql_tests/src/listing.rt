use fts_ilist::{Ilist, Node, NodeGroup, Nodes, WordNodes};
use fts_listing::{Config, ListedWords, Listing};
use fts_schema::listing_text;
use fts_types::{DocIds, Word};
use std::alloc::{AllocError, Global};
use std::test::Fail;

fn lists(alloc: Global, listing: Listing, wanted: &str) -> Result<bool, AllocError> {
    let text = listing_text(alloc, 12, &listing)?;
    Ok(text.as_slice() == wanted.as_bytes())
}

fn words_of(words: Nodes<'static>) -> Listing {
    Listing::Words {
        words: ListedWords::new(words),
    }
}

fn push_group(alloc: Global, nodes: &mut NodeGroup<'_>, list: Ilist) -> Result<(), AllocError> {
    if !list.is_empty() {
        nodes.push(alloc, Node::new(list))?;
    }
    Ok(())
}

/// Two documents in a group, and one in another.
fn groups(alloc: Global) -> Result<NodeGroup<'static>, AllocError> {
    let mut nodes = NodeGroup::new(alloc);
    let mut list = Ilist::new(alloc);
    list.push(7, &[0, 400])?;
    list.push(9, &[3])?;
    push_group(alloc, &mut nodes, list)?;
    let mut list = Ilist::new(alloc);
    list.push(131_071, &[18])?;
    push_group(alloc, &mut nodes, list)?;
    Ok(nodes)
}

const TWO_GROUPS: &str = "WORD|FIRST_DOC_ID|LAST_DOC_ID|DOC_COUNT|DOC_ID|POSITION
apple|7|9|2|7|0
apple|7|9|2|7|400
apple|7|9|2|9|3
apple|131071|131071|1|131071|18
OK 4 rows as of 12
";

#[test]
fn each_position_is_a_row(rt: HostRuntime) -> Result<(), Fail> {
    let alloc = rt.alloc();
    let mut words: Nodes = Vec::new(alloc);
    words.push(WordNodes::new(Word::copied(alloc, b"apple")?, groups(alloc)?))?;
    assert!(rt; lists(alloc, words_of(words), TWO_GROUPS)?);
    Ok(())
}

const TWO_WORDS: &str = "WORD|FIRST_DOC_ID|LAST_DOC_ID|DOC_COUNT|DOC_ID|POSITION
apple|1|1|1|1|5
pie|1|1|1|1|5
OK 2 rows as of 12
";

/// The word with one document.
fn word(alloc: Global, bytes: &[u8]) -> Result<WordNodes<'static>, AllocError> {
    let mut nodes = NodeGroup::new(alloc);
    let mut list = Ilist::new(alloc);
    list.push(1, &[5])?;
    push_group(alloc, &mut nodes, list)?;
    Ok(WordNodes::new(Word::copied(alloc, bytes)?, nodes))
}

#[test]
fn words_stand_one_behind_another(rt: HostRuntime) -> Result<(), Fail> {
    let alloc = rt.alloc();
    let mut words: Nodes = Vec::new(alloc);
    words.push(word(alloc, b"apple")?)?;
    words.push(word(alloc, b"pie")?)?;
    assert!(rt; lists(alloc, words_of(words), TWO_WORDS)?);
    Ok(())
}

const NO_WORDS: &str = "WORD|FIRST_DOC_ID|LAST_DOC_ID|DOC_COUNT|DOC_ID|POSITION
OK 0 rows as of 12
";

#[test]
fn no_word_is_no_row(rt: HostRuntime) -> Result<(), Fail> {
    assert!(rt; lists(rt.alloc(), words_of(Vec::new(rt.alloc())), NO_WORDS)?);
    Ok(())
}

fn lists_ids(alloc: Global, ids: &[u64], wanted: &str) -> Result<bool, AllocError> {
    let ids = DocIds::new(Vec::from_slice(alloc, ids)?);
    lists(alloc, Listing::Ids { ids }, wanted)
}

#[test]
fn each_id_is_a_row(rt: HostRuntime) -> Result<(), Fail> {
    assert!(rt; lists_ids(rt.alloc(), &[7], "DOC_ID\n7\nOK 1 rows as of 12\n")?);
    assert!(rt; lists_ids(rt.alloc(), &[], "DOC_ID\nOK 0 rows as of 12\n")?);
    Ok(())
}

/// Settings of a database of which two commits are flushed.
fn config(stopword: bool, checkpoint: Option<Word>) -> Listing {
    Listing::Config {
        config: Config {
            min: 3,
            max: 84,
            stopword,
            flushed: 2,
            synced: 131_071,
            checkpoint,
        },
    }
}

const BEFORE_A_PASS: &str = "KEY|VALUE
max_token_size|84
min_token_size|3
optimize_word|
synced_commit|2
synced_doc_id|131071
use_stopword|1
OK 6 rows as of 12
";

const WITHIN_A_PASS: &str = "KEY|VALUE
max_token_size|84
min_token_size|3
optimize_word|pie
synced_commit|2
synced_doc_id|131071
use_stopword|0
OK 6 rows as of 12
";

#[test]
fn each_setting_is_a_row(rt: HostRuntime) -> Result<(), Fail> {
    let alloc = rt.alloc();
    let word = Word::copied(alloc, b"pie")?;
    assert!(rt; lists(alloc, config(true, None), BEFORE_A_PASS)?);
    assert!(rt; lists(alloc, config(false, Some(word)), WITHIN_A_PASS)?);
    Ok(())
}

const STOPWORDS: &str = "value
a\nabout\nan\nare\nas\nat\nbe\nby\ncom\nde\nen\nfor\nfrom\nhow\ni\nin\nis\nit\nla\nof\non\nor\nthat
the\nthis\nto\nwas\nwhat\nwhen\nwhere\nwho\nwill\nwith\nund\nthe\nwww
OK 36 rows as of 12
";

#[test]
fn each_stopword_is_a_row(rt: HostRuntime) -> Result<(), Fail> {
    assert!(rt; lists(rt.alloc(), Listing::Stopwords, STOPWORDS)?);
    Ok(())
}
