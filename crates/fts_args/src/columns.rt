ghost use Rattle.std.specs.Prelude.{◌≡◌, ◌==◌, IfOk};
ghost use Rattle.std.specs.List.{slice_split};

use fts_types::Names;
use std::alloc::{AllocError, Global};

/// The names that a text has between its commas.
pub(crate) fn names_of(alloc: Global, text: &str) -> Result<Names, AllocError>
    ensures { IfOk result (λ names. names ≡ slice_split (λ b. b == 44) text.now) }
{
    let mut names = Names::new(alloc);
    for name in text.split(',') {
        names.push(name.as_bytes().to_vec(alloc)?)?;
    }
    Ok(names)
}
