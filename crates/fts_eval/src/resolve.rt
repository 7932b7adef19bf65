ghost use Rattle.std.specs.Prelude.{◌≡◌, List, [], map, not, IfOk, OnOk};
ghost use Rattle.fts_words.specs.Indexed.{Rules};
ghost use Rattle.fts_types.specs.Row.{Row};
ghost use Rattle.fts_meaning.specs.Leaf as meaning_leaf;
ghost use Rattle.fts_meaning.specs.Leaf.{leaf_of, operands, operands_of};
ghost use Rattle.fts_meaning.specs.View as meaning_view;
ghost use Rattle.fts_meaning.specs.Holds.{sign_of_term};
ghost use Rattle.fts_query.specs.View.{operand_view, term_view, terms_view};
ghost use Rattle.fts_query.specs.Seen.{postings_seen};
ghost use Rattle.fts_eval.specs.Means.{Adds, IsGroup, Means, MeansOperand, PartsMean};
ghost use Rattle.fts_eval.specs.Means.{PostingsBegin};
ghost use Rattle.fts_eval.specs.Means.{has_parts};

use crate::part::Part;
use fts_meaning::Sign;
use fts_query::{Leaf, Operand, Postings, Term};
use std::alloc::{AllocError, Global};

/// The parts of a list of terms, by their signs.
#[derive(Drop)]
pub(crate) struct Parts<'a> {
    pub required: Vec<Part<'a>>,
    pub optional: Vec<Part<'a>>,
    pub excluded: Vec<Part<'a>>,
}

impl<'a> Parts<'a> {
    /// No parts.
    fn new(alloc: Global) -> Self
        ensures required { result.required.items ≡ [] }
        ensures optional { result.optional.items ≡ [] }
        ensures excluded { result.excluded.items ≡ [] }
    {
        Parts {
            required: Vec::new(alloc),
            optional: Vec::new(alloc),
            excluded: Vec::new(alloc),
        }
    }

    /// Adds what a term asks, if it stays.
    fn add(&mut self, sign: Sign, part: Option<Part<'a>>) -> Result<(), AllocError>
        ensures { OnOk result (Adds sign part.entry self.old self.new) }
    {
        let part = match part {
            None => return Ok(()),
            Some(part) => part,
        };
        match sign {
            Sign::Required => self.required.push(part)?,
            Sign::Optional => self.optional.push(part)?,
            Sign::Excluded => self.excluded.push(part)?,
        }
        Ok(())
    }

    /// Whether there is no part.
    fn are_none(&self) -> bool
        ensures { result ≡ not (has_parts self.now) }
    {
        if !self.required.as_slice().is_empty() {
            return false;
        }
        if !self.optional.as_slice().is_empty() {
            return false;
        }
        self.excluded.as_slice().is_empty()
    }

    /// The group of these parts; none where there is no part.
    pub(crate) fn into_group(self) -> Option<Part<'a>>
        ensures { IsGroup self.entry result }
    {
        if self.are_none() {
            return None;
        }
        let Parts {
            required,
            optional,
            excluded,
        } = self;
        Some(Part::Group(required, optional, excluded))
    }
}

/// The sign of a term.
fn sign_of(term: &Term) -> Sign
    ensures { result ≡ sign_of_term (term_view term.now) }
{
    match term {
        Term::Leaf(sign, _) => *sign,
        Term::Group(sign, _) => *sign,
    }
}

/// What an operand asks of an id, by the postings of its leaf; nothing where it is dropped.
fn operand_part<'a>(operand: &'a Operand, postings: &'a Postings) -> Option<Part<'a>>
    ensures { MeansOperand (operand_view operand.now) (postings_seen postings.now) result }
{
    let ids = &postings.ids;
    match operand {
        Operand::Word(_) => match postings.leaf {
            Leaf::Nothing => None,
            _ => Some(Part::Ids(ids)),
        },
        Operand::Prefix(_) => Some(Part::Ids(ids)),
        Operand::Phrase(words) => match postings.leaf {
            Leaf::Nothing => Some(Part::Ids(ids)),
            _ => Some(Part::Phrase(ids, words)),
        },
        Operand::Distance(_, reach) => match &postings.leaf {
            Leaf::Words(words) => Some(Part::Distance(ids, words, *reach)),
            _ => Some(Part::Ids(ids)),
        },
    }
}

/// What a term asks of an id, nothing where it is dropped, and the postings behind those of its
/// operands.
#[cycle(resolving)]
fn part_of<'a>(
    alloc: Global,
    term: &'a Term,
    postings: &'a [Postings],
) -> Result<(Option<Part<'a>>, &'a [Postings]), AllocError>
    ensures { IfOk result (λ found. (rules : Rules) (rows : List Row)
        (before after : List meaning_leaf.Leaf) (texts : List meaning_view.Candidate)
        → PostingsBegin rules rows before
        (map (leaf_of rules) (operands_of (term_view term.now))) after texts
        (map postings_seen postings.now)
        → Means rules rows texts (term_view term.now) found.0
        × (map postings_seen found.1.now ≡ map (meaning_view.postings_of rules rows) after)) }
{
    match term {
        Term::Leaf(_, operand) => match postings {
            [] => Ok((None, postings)),
            [first, rest @ ..] => Ok((operand_part(operand, first), rest)),
        },
        Term::Group(_, terms) => {
            let (parts, rest) = parts_of(alloc, terms.as_slice(), postings)?;
            Ok((parts.into_group(), rest))
        }
    }
}

/// What terms ask of an id, and the postings behind those of their operands.
#[cycle(resolving)]
pub(crate) fn parts_of<'a>(
    alloc: Global,
    terms: &'a [Term],
    postings: &'a [Postings],
) -> Result<(Parts<'a>, &'a [Postings]), AllocError>
    ensures { IfOk result (λ found. (rules : Rules) (rows : List Row)
        (before after : List meaning_leaf.Leaf) (texts : List meaning_view.Candidate)
        → PostingsBegin rules rows before
        (map (leaf_of rules) (operands (terms_view terms.now))) after texts
        (map postings_seen postings.now)
        → PartsMean rules rows texts (terms_view terms.now) found.0
        × (map postings_seen found.1.now ≡ map (meaning_view.postings_of rules rows) after)) }
{
    let mut parts = Parts::new(alloc);
    let mut rest = postings;
    for term in terms {
        let (part, behind) = part_of(alloc, term, rest)?;
        parts.add(sign_of(term), part)?;
        rest = behind;
    }
    Ok((parts, rest))
}
