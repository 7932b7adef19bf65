ghost use Rattle.std.specs.Prelude.{◌<◌, length};

use fts_ids::IdList;
use fts_types::Texts;

/// What a term that stays asks of a document id.
#[derive(Drop)]
pub(crate) enum Part<'a> {
    /// It is among these.
    Ids(&'a IdList),
    /// It is among these, and these words stand together in its row.
    Phrase(&'a IdList, &'a Texts),
    /// It is among these, and these words lie near each other in its row.
    Distance(&'a IdList, &'a Texts, u16),
    /// Each of the first parts asks for it, or where there is none one of the second parts does,
    /// and none of the third parts does.
    Group(Vec<Part<'a>>, Vec<Part<'a>>, Vec<Part<'a>>),
}

/// How many ids a part asks for at most, as far as a glance tells.
#[cycle(counting)]
fn most(part: &Part<'_>) -> usize {
    match part {
        Part::Ids(ids) => ids.as_slice().len(),
        Part::Phrase(ids, _) => ids.as_slice().len(),
        Part::Distance(ids, _, _) => ids.as_slice().len(),
        Part::Group(required, optional, _) => {
            if required.is_empty() {
                return sum_of_most(optional.as_slice());
            }
            least_of_most(required.as_slice())
        }
    }
}

/// The sum of what some parts ask for at most.
#[cycle(counting)]
fn sum_of_most(parts: &[Part<'_>]) -> usize {
    let mut sum: usize = 0;
    for part in parts {
        sum = sum.saturating_add(most(part));
    }
    sum
}

/// The least of what some parts ask for at most.
#[cycle(counting)]
fn least_of_most(parts: &[Part<'_>]) -> usize {
    let mut least = usize::MAX;
    for part in parts {
        least = least.min(most(part));
    }
    least
}

/// The place of the part that asks for the fewest ids, as far as a glance tells.
pub(crate) fn fewest(parts: &[Part<'_>]) -> usize
    requires { 0 < length parts.now }
    ensures { result < length parts.now }
{
    let mut place = 0;
    let mut least = most(&parts[0]);
    for (at, part) in parts.iter().enumerate() {
        let ids = most(part);
        if ids < least {
            least = ids;
            place = at;
        }
    }
    place
}
