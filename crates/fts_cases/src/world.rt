use crate::device::Device;
use crate::script::Script;
use fts_types::Limits;
use std::alloc::{AllocError, Global};

/// A stream that fails at one of its calls, by the number of this call from 1, and takes or gives
/// so many bytes a call.
#[derive(Clone, Copy)]
pub struct Faulty {
    pub call: u64,
    pub most: usize,
}

/// What a case has so far: the script of its next run, and what that run stands on.
#[derive(Drop)]
pub struct World {
    pub script: Script,
    pub rows: Device,
    pub index: Device,
    pub source: Option<Faulty>,
    pub sink: Option<Faulty>,
    pub limits: Option<Limits>,
    /// Outputs are told by their length and a sum.
    pub is_folded: bool,
}

impl World {
    /// Two devices on which nothing was written.
    pub fn new(alloc: Global) -> Result<World, AllocError> {
        Ok(World {
            script: Script::new(alloc),
            rows: Device::new(alloc)?,
            index: Device::new(alloc)?,
            source: None,
            sink: None,
            limits: None,
            is_folded: false,
        })
    }
}
