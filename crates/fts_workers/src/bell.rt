//! What wakes the workers.
use crossbeam_utils::atomic::AtomicCell;
use crossbeam_utils::sync::{Parker, Unparker};
use std::alloc::{AllocError, Global};

/// Wakes a worker, and tells it when it is to end. A ring while the worker is at work wakes it once
/// more.
#[derive(Drop)]
pub struct Bell {
    unparker: Unparker,
    ends: AtomicCell<bool>,
}

impl Bell {
    /// A bell, and where its worker waits.
    pub fn new(alloc: Global) -> Result<(Bell, Parker), AllocError> {
        let parker = Parker::new(alloc)?;
        let unparker = parker.unparker().clone()?;
        let ends = AtomicCell::new(false);
        Ok((Bell { unparker, ends }, parker))
    }

    /// Wakes the worker.
    pub fn ring(&self) {
        self.unparker.unpark();
    }

    /// Wakes the worker, which ends behind its next round.
    pub fn end(&self) {
        self.ends.store(true);
        self.unparker.unpark();
    }

    /// Whether the worker is to end.
    pub fn is_ended(&self) -> bool {
        self.ends.load()
    }
}

/// The bells of the two workers.
#[derive(Drop)]
pub struct Bells {
    /// Commits ring it.
    pub sync: Bell,
    /// Batches ring it.
    pub optimizer: Bell,
}
