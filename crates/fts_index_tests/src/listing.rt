//! What a view of the index lists.
use fts_ilist::{Ilist, Node, NodeGroup, Nodes, WordNodes};
use fts_listing::{Config, ListedWords, Listing, NumberedListing};
use fts_types::{DocIds, Word};
use std::alloc::{AllocError, Global};
use std::test::Fail;

/// The word `pie` with one document.
fn words(alloc: Global) -> Result<ListedWords, AllocError> {
    let mut list = Ilist::new(alloc);
    list.push(7, &[0, 4])?;
    let mut nodes = NodeGroup::new(alloc);
    nodes.push(alloc, Node::new(list))?;
    let mut words: Nodes = Vec::new(alloc);
    words.push(WordNodes::new(Word::copied(alloc, b"pie")?, nodes))?;
    Ok(ListedWords::new(words))
}

/// Which kind of listing it is, and how many words it has.
fn shown(listing: &Listing) -> (char, usize) {
    match listing {
        Listing::Words { words } => ('w', words.as_slice().len()),
        Listing::Ids { ids } => ('i', ids.as_slice().len()),
        Listing::Config { config } => ('c', usize::from(config.min)),
        Listing::Stopwords => ('s', 0),
    }
}

#[test]
fn words_are_listed(rt: HostRuntime) -> Result<(), Fail> {
    let words = words(rt.alloc())?;
    let listed = NumberedListing {
        number: 9,
        listing: Listing::Words { words },
    };
    assert!(rt; (listed.number, shown(&listed.listing)) == (9, ('w', 1)));
    Ok(())
}

fn is_config_listed() -> bool {
    let config = Config {
        min: 3,
        max: 84,
        stopword: true,
        flushed: 2,
        synced: 5,
        checkpoint: None,
    };
    shown(&Listing::Config { config }) == ('c', 3)
}

#[test]
fn numbers_and_stopwords_are_listed(rt: HostRuntime) {
    assert!(rt; is_config_listed());
    assert!(rt; shown(&Listing::Stopwords) == ('s', 0));
}

#[test]
fn ids_are_listed(rt: HostRuntime) -> Result<(), Fail> {
    let ids = DocIds::new(vec![in rt.alloc(); 4; 2]?);
    assert!(rt; shown(&Listing::Ids { ids }) == ('i', 2));
    Ok(())
}
