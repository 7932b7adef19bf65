//! A copy of settings, which outlives the engine that went under the turn.
ghost use Rattle.std.specs.Prelude.{◌≡◌, IfOk};

use fts_types::{Names, Settings};
use std::alloc::{AllocError, Global};

/// A copy of settings.
pub(crate) fn copy_of(alloc: Global, settings: &Settings) -> Result<Settings, AllocError>
    ensures { IfOk result (λ copy. copy ≡ settings.now) }
{
    Ok(Settings {
        columns: names_of(alloc, &settings.columns)?,
        min: settings.min,
        max: settings.max,
        stopword: settings.stopword,
        optimize_words: settings.optimize_words,
        cache_bytes: settings.cache_bytes,
        batch_docs: settings.batch_docs,
    })
}

// A copy of names.
fn names_of(alloc: Global, names: &Names) -> Result<Names, AllocError>
    ensures { IfOk result (λ copy. copy ≡ names.now) }
{
    let mut copy = Names::new(alloc);
    for place in 0..names.len() {
        let name = Vec::from_slice(alloc, names.text(place))?;
        copy.push(name)?;
    }
    Ok(copy)
}
