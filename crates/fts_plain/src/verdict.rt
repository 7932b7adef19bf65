ghost use Rattle.std.specs.Prelude.{◌≡◌, ◌&&◌, ◌||◌, not, IsTrue, IsFalse};
ghost use Rattle.fts_meaning.specs.Holds.{is_required, is_excluded, is_optional};

use fts_meaning::Sign;

/// What the terms of a list, as far as they were read, say of a row.
#[derive(Clone, Copy, Debug)]
pub(crate) struct Verdict {
    /// No excluded term holds.
    pub none_excluded: bool,
    /// Each required term holds.
    pub each_required: bool,
    /// A term is required.
    pub has_required: bool,
    /// Some optional term holds.
    pub some_optional: bool,
}

impl Verdict {
    /// What no term says.
    pub(crate) fn new() -> Verdict
        ensures none { IsTrue result.none_excluded }
        ensures each { IsTrue result.each_required }
        ensures has { IsFalse result.has_required }
        ensures some { IsFalse result.some_optional }
    {
        Verdict {
            none_excluded: true,
            each_required: true,
            has_required: false,
            some_optional: false,
        }
    }

    /// Adds a term: its sign, whether it stays, and whether it holds.
    pub(crate) fn with(self, sign: Sign, stays: bool, holds: bool) -> Verdict
        ensures none { result.none_excluded
            ≡ (self.none_excluded && not (stays && (is_excluded sign && holds))) }
        ensures each { result.each_required
            ≡ (self.each_required && (not (stays && is_required sign) || holds)) }
        ensures has { result.has_required ≡ (self.has_required || (stays && is_required sign)) }
        ensures some { result.some_optional
            ≡ (self.some_optional || (stays && (is_optional sign && holds))) }
    {
        Verdict {
            none_excluded: self.none_excluded && !(stays && (is_excluded(sign) && holds)),
            each_required: self.each_required && (!(stays && is_required(sign)) || holds),
            has_required: self.has_required || (stays && is_required(sign)),
            some_optional: self.some_optional || (stays && (is_optional(sign) && holds)),
        }
    }

    /// Whether the list holds.
    pub(crate) fn holds(self) -> bool
        ensures { result ≡ (self.none_excluded &&
            (self.each_required && (self.has_required || self.some_optional))) }
    {
        self.none_excluded && (self.each_required && (self.has_required || self.some_optional))
    }
}

fn is_required(sign: Sign) -> bool
    ensures { result ≡ is_required sign }
{
    match sign {
        Sign::Required => true,
        Sign::Optional => false,
        Sign::Excluded => false,
    }
}

fn is_excluded(sign: Sign) -> bool
    ensures { result ≡ is_excluded sign }
{
    match sign {
        Sign::Excluded => true,
        Sign::Optional => false,
        Sign::Required => false,
    }
}

fn is_optional(sign: Sign) -> bool
    ensures { result ≡ is_optional sign }
{
    match sign {
        Sign::Optional => true,
        Sign::Required => false,
        Sign::Excluded => false,
    }
}
