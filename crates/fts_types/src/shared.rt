ghost use Rattle.std.specs.Prelude.{◌≡◌, ℕ, List, IfOk, IfErr};
ghost use Rattle.std.specs.Arc.{arc_value};

use crate::texts::RowTexts;
use std::alloc::{AllocError, AllocFailed, Global};
use std::marker::Model;
use std::sync::Arc;

/// The texts of a row that more than one holder may have: they stand behind a counted pointer.
/// Contracts see the list of their bytes.
#[derive(Debug, Drop)]
pub struct SharedTexts {
    texts: Arc<RowTexts>,
}

impl Model for SharedTexts {
    ghost Value = { List (List ℕ) };

    ghost view = { λ shared. arc_value shared.texts };
}

impl SharedTexts {
    /// These texts. They are moved and not copied. Where memory is wanting, it gives them back.
    pub fn new(alloc: Global, texts: RowTexts) -> Result<Self, AllocFailed<RowTexts>>
        ensures ok { IfOk result (λ shared. shared ≡ texts) }
        ensures back { IfErr result (λ failed. failed.value ≡ texts) }
    {
        match Arc::new(alloc, texts) {
            Ok(texts) => Ok(SharedTexts { texts }),
            Err(failed) => Err(failed),
        }
    }

    /// The texts.
    pub fn texts(&self) -> &RowTexts
        ensures { result.now ≡ self.now }
    {
        &self.texts
    }

    /// The pointer for one more holder. No text is copied.
    pub fn pointer(&self) -> Result<Arc<RowTexts>, AllocError>
        ensures { IfOk result (λ texts. arc_value texts ≡ self.now) }
    {
        self.texts.clone()
    }
}
