use fts_disk::{Kind, MemDisk};
use std::alloc::{AllocError, Global};
use std::mem;

/// A device between two runs. Each run has a device of its own, with these bytes, which counts its
/// calls from 1.
#[derive(Drop)]
pub struct Device {
    /// The bytes of its file 0, the only one of a log.
    pub bytes: Vec<u8>,
    /// Calls of the next run that fail.
    pub fails: Vec<(Kind, u64)>,
    /// The device as the last run left it, or as that one did which is held.
    pub last: MemDisk,
    /// Later runs are over what a stop of the last one leaves.
    pub is_held: bool,
}

impl Device {
    pub fn new(alloc: Global) -> Result<Device, AllocError> {
        Ok(Device {
            bytes: Vec::new(alloc),
            fails: Vec::new(alloc),
            last: MemDisk::from_files(alloc, Vec::new(alloc), Vec::new(alloc))?,
            is_held: false,
        })
    }

    /// The device of the next run.
    pub fn taken(&mut self, alloc: Global) -> Result<MemDisk, AllocError> {
        let files = vec![in alloc; Vec::from_slice(alloc, &self.bytes)?]?;
        let fails = mem::replace(&mut self.fails, Vec::new(alloc));
        MemDisk::from_files(alloc, files, fails)
    }

    /// Takes the device back behind a run.
    pub fn put(&mut self, alloc: Global, disk: MemDisk) -> Result<(), AllocError> {
        self.bytes = Vec::from_slice(alloc, disk.file(0))?;
        if !self.is_held {
            self.last = disk;
        }
        Ok(())
    }

    /// All that the last run left.
    pub fn take_all(&mut self, alloc: Global) -> Result<(), AllocError> {
        self.bytes = Vec::from_slice(alloc, self.last.file(0))?;
        Ok(())
    }

    /// What a stop in this call of the last run leaves by a choice; all of it where it had no such
    /// call.
    pub fn stop(&mut self, alloc: Global, call: usize, choice: u64) -> Result<(), AllocError> {
        if call >= self.last.calls().len() {
            return self.take_all(alloc);
        }
        let image = self.last.pick_image(call, choice)?;
        self.bytes = Vec::from_slice(alloc, image.file(0))?;
        Ok(())
    }

    /// Changes these bits of the byte at a place, if it has one there.
    pub fn flip(&mut self, place: usize, bits: u8) {
        if let Some(there) = self.bytes.get_mut(place) {
            *there ^= bits;
        }
    }

    /// Puts a byte at a place, if it has one there.
    pub fn set(&mut self, place: usize, byte: u8) {
        if let Some(there) = self.bytes.get_mut(place) {
            *there = byte;
        }
    }
}
