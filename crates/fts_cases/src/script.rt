use std::alloc::{AllocError, Global};

/// The script of the next run. The one of the last run stays until a text is put, and those of all
/// runs can be taken again.
#[derive(Drop)]
pub struct Script {
    bytes: Vec<u8>,
    is_run: bool,
    earlier: Vec<Vec<u8>>,
}

impl Script {
    pub fn new(alloc: Global) -> Script {
        Script {
            bytes: Vec::new(alloc),
            is_run: false,
            earlier: Vec::new(alloc),
        }
    }

    /// The bytes of the whole script, which a run takes.
    pub fn taken(&mut self, alloc: Global) -> Result<Vec<u8>, AllocError> {
        if !self.is_run {
            self.earlier.push(Vec::from_slice(alloc, &self.bytes)?)?;
        }
        self.is_run = true;
        Vec::from_slice(alloc, &self.bytes)
    }

    /// Takes a script of the case again, by its number from 0. Returns whether there is one.
    pub fn again(&mut self, alloc: Global, number: usize) -> Result<bool, AllocError> {
        match self.earlier.get(number) {
            Some(bytes) => {
                self.bytes = Vec::from_slice(alloc, bytes)?;
                self.is_run = true;
                Ok(true)
            }
            None => Ok(false),
        }
    }

    /// Begins another script.
    pub fn clear(&mut self) {
        self.bytes.clear();
        self.is_run = false;
    }

    /// Puts a text behind the script, or begins another one with it behind a run.
    pub fn put(&mut self, text: &[u8]) -> Result<(), AllocError> {
        if self.is_run {
            self.clear();
        }
        self.bytes.extend_from_slice(text)
    }

    /// Puts a line.
    pub fn put_line(&mut self, text: &str) -> Result<(), AllocError> {
        self.put(text.as_bytes())?;
        self.put(b"\n")
    }

    /// Puts a text so many times.
    pub fn put_times(&mut self, count: u64, text: &[u8]) -> Result<(), AllocError> {
        for _ in 0..count {
            self.put(text)?;
        }
        Ok(())
    }

    /// Puts a text for each of these numbers, which stands in place of each `#`.
    pub fn put_each(
        &mut self,
        alloc: Global,
        first: u64,
        last: u64,
        text: &[u8],
    ) -> Result<(), AllocError> {
        for number in first..=last {
            self.put_numbered(alloc, number, text)?;
        }
        Ok(())
    }

    fn put_numbered(&mut self, alloc: Global, number: u64, text: &[u8]) -> Result<(), AllocError> {
        let written = format!(in alloc; "{number}")?;
        for byte in text {
            if *byte == b'#' {
                self.put(written.as_bytes())?;
            } else {
                self.put(&[*byte])?;
            }
        }
        Ok(())
    }
}
