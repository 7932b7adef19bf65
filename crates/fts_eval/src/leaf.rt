ghost use Rattle.std.specs.Prelude.{◌≡◌, ◌++◌, map, filter, IfOk, OnOk};
ghost use Rattle.fts_words.specs.Indexed.{is_indexable};
ghost use Rattle.fts_types.specs.Rules.{rules_of};
ghost use Rattle.fts_meaning.specs.Leaf.{words_leaf, leaf_of, operands, operands_of, leaves};
ghost use Rattle.fts_query.specs.View.{operand_view, term_view, terms_view, tree_of};
ghost use Rattle.fts_query.specs.Seen.{leaf_seen, leaves_seen};

use fts_query::{Leaf, Operand, Query, Term};
use fts_token::is_indexable;
use fts_types::{Settings, Texts};
use std::alloc::{AllocError, Global};

/// The words that can be indexed words.
fn indexable(alloc: Global, settings: &Settings, words: &Texts) -> Result<Texts, AllocError>
    ensures { IfOk result (λ some. some
        ≡ filter (is_indexable (rules_of settings.now)) words.now) }
{
    let mut some = Texts::new(alloc);
    for place in 0..words.len() {
        if is_indexable(settings, words.text(place)) {
            some.push(words.text(place).to_vec(alloc)?)?;
        }
    }
    Ok(some)
}

/// What the words of a phrase or a distance ask for.
fn words_leaf(alloc: Global, settings: &Settings, words: &Texts) -> Result<Leaf, AllocError>
    ensures { IfOk result (λ leaf. leaf_seen leaf
        ≡ words_leaf (filter (is_indexable (rules_of settings.now)) words.now)) }
{
    let some = indexable(alloc, settings, words)?;
    if some.is_empty() {
        return Ok(Leaf::Nothing);
    }
    Ok(Leaf::Words(some))
}

/// What an operand asks for.
fn leaf_of(alloc: Global, settings: &Settings, operand: &Operand) -> Result<Leaf, AllocError>
    ensures { IfOk result (λ leaf. leaf_seen leaf
        ≡ leaf_of (rules_of settings.now) (operand_view operand.now)) }
{
    match operand {
        Operand::Word(word) => {
            if !is_indexable(settings, word.as_slice()) {
                return Ok(Leaf::Nothing);
            }
            Ok(Leaf::Word(word.as_slice().to_vec(alloc)?))
        }
        Operand::Prefix(word) => Ok(Leaf::Prefix(word.as_slice().to_vec(alloc)?)),
        Operand::Phrase(words) => words_leaf(alloc, settings, words),
        Operand::Distance(words, _) => words_leaf(alloc, settings, words),
    }
}

/// Adds what a term's operands ask for.
#[cycle(listing)]
fn add_term(
    alloc: Global,
    settings: &Settings,
    term: &Term,
    leaves: &mut Vec<Leaf>,
) -> Result<(), AllocError>
    ensures { OnOk result (leaves_seen leaves.new.items ≡ leaves_seen leaves.old.items
        ++ map (leaf_of (rules_of settings.now)) (operands_of (term_view term.now))) }
{
    match term {
        Term::Leaf(_, operand) => {
            leaves.push(leaf_of(alloc, settings, operand)?)?;
            Ok(())
        }
        Term::Group(_, terms) => add_terms(alloc, settings, terms.as_slice(), leaves),
    }
}

/// Adds what the operands of terms ask for, in their order.
#[cycle(listing)]
fn add_terms(
    alloc: Global,
    settings: &Settings,
    terms: &[Term],
    leaves: &mut Vec<Leaf>,
) -> Result<(), AllocError>
    ensures { OnOk result (leaves_seen leaves.new.items ≡ leaves_seen leaves.old.items
        ++ map (leaf_of (rules_of settings.now)) (operands (terms_view terms.now))) }
{
    for term in terms {
        add_term(alloc, settings, term, leaves)?;
    }
    Ok(())
}

/// The leaves of a query: what each of its operands asks the index for, in their order. The only
/// refusal is for want of memory.
pub fn leaves(alloc: Global, settings: &Settings, query: &Query) -> Result<Vec<Leaf>, AllocError>
    ensures { IfOk result (λ all. leaves_seen all.items
        ≡ leaves (rules_of settings.now) (tree_of query.now)) }
{
    let mut all = Vec::new(alloc);
    add_terms(alloc, settings, query.terms.as_slice(), &mut all)?;
    Ok(all)
}
