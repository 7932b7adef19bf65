ghost use Rattle.std.specs.Prelude.{◌≡◌, IfOk};
ghost use Rattle.fts_types.specs.Row.{IsRow};
ghost use Rattle.fts_types.specs.Rules.{rules_of};
ghost use Rattle.fts_query.specs.View.{operand_view, term_view, terms_view};
ghost use Rattle.fts_plain.specs.Words.{operand_stays};
ghost use Rattle.fts_meaning.specs.Holds.{stays, some_stays, term_holds, list_holds, sign_of_term};

use crate::operand::operand_holds;
use crate::verdict::Verdict;
use fts_meaning::Sign;
use fts_query::{Operand, Term};
use fts_token::is_indexable;
use fts_types::{RowTexts, Settings};
use std::alloc::{AllocError, Global};

/// The sign of a term.
fn sign_of(term: &Term) -> Sign
    ensures { result ≡ sign_of_term (term_view term.now) }
{
    match term {
        Term::Leaf(sign, _) => *sign,
        Term::Group(sign, _) => *sign,
    }
}

/// Whether a term stays: it is no word that can't be indexed, and no group without a term that
/// stays.
#[cycle(staying)]
fn stays(settings: &Settings, term: &Term) -> bool
    ensures { result ≡ stays (rules_of settings.now) (term_view term.now) }
{
    match term {
        Term::Leaf(_, operand) => operand_stays(settings, operand),
        Term::Group(_, terms) => some_stays(settings, terms.as_slice()),
    }
}

/// Whether some term stays.
#[cycle(staying)]
fn some_stays(settings: &Settings, terms: &[Term]) -> bool
    ensures { result ≡ some_stays (rules_of settings.now) (terms_view terms.now) }
{
    for term in terms {
        if stays(settings, term) {
            return true;
        }
    }
    false
}

/// Whether a term that is this operand stays.
fn operand_stays(settings: &Settings, operand: &Operand) -> bool
    ensures { result ≡ operand_stays (rules_of settings.now) (operand_view operand.now) }
{
    match operand {
        Operand::Word(word) => is_indexable(settings, word.as_slice()),
        Operand::Prefix(_) => true,
        Operand::Phrase(_) => true,
        Operand::Distance(_, _) => true,
    }
}

/// Whether a term holds in a row.
#[cycle(holding)]
fn term_holds(
    alloc: Global,
    settings: &Settings,
    columns: &RowTexts,
    term: &Term,
) -> Result<bool, AllocError>
    requires { IsRow columns.now }
    ensures { IfOk result (λ holds. holds
        ≡ term_holds (rules_of settings.now) columns.now (term_view term.now)) }
{
    match term {
        Term::Leaf(_, operand) => operand_holds(alloc, settings, columns, operand),
        Term::Group(_, terms) => list_holds(alloc, settings, columns, terms.as_slice()),
    }
}

/// Whether a list of terms holds in a row.
#[cycle(holding)]
pub(crate) fn list_holds(
    alloc: Global,
    settings: &Settings,
    columns: &RowTexts,
    terms: &[Term],
) -> Result<bool, AllocError>
    requires { IsRow columns.now }
    ensures { IfOk result (λ holds. holds
        ≡ list_holds (rules_of settings.now) columns.now (terms_view terms.now)) }
{
    let mut verdict = Verdict::new();
    for term in terms {
        let holds = term_holds(alloc, settings, columns, term)?;
        verdict = verdict.with(sign_of(term), stays(settings, term), holds);
    }
    Ok(verdict.holds())
}
