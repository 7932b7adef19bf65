ghost use Rattle.std.specs.Prelude.{◌≡◌};
ghost use Rattle.fts_rows.specs.declared.error.PlanError.TheVariants.{NoMemory, Refused};

use fts_commits::Refusal;
use std::alloc::AllocError;
use std::error::Error;
use std::fmt;

/// Why a commit was not planned.
#[derive(Clone, Copy, Debug, PartialEq, Eq)]
pub enum PlanError {
    /// Memory ran out.
    NoMemory,
    /// The rows refuse the commit.
    Refused { refusal: Refusal },
}

impl fmt::Display for PlanError {
    fn fmt<W: fmt::Write>(&self, f: &mut fmt::Formatter<W>) -> fmt::Result {
        match self {
            PlanError::NoMemory => write!(f, "no memory"),
            PlanError::Refused { refusal } => write!(f, "{refusal}"),
        }
    }
}

impl Error for PlanError {}

impl From<AllocError> for PlanError {
    ghost from_gives = { λ _ e. e ≡ NoMemory };

    fn from(_: AllocError) -> Self {
        PlanError::NoMemory
    }
}

impl From<Refusal> for PlanError {
    ghost from_gives = { λ refusal e. e ≡ Refused refusal };

    fn from(refusal: Refusal) -> Self {
        PlanError::Refused { refusal }
    }
}
