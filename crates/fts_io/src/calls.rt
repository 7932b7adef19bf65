ghost use Rattle.std.specs.Prelude.{◌≡◌, ◌↔◌, ◌≤◌, Contains, IsErr, is_err, if◌then◌else◌};
ghost use Rattle.fts_faults.specs.Count.{HasCause, Rose};

use fts_faults::Failed;

/// The calls of an object in memory: how many were made, which are to fail, and the faults so far.
#[derive(Debug, Drop)]
pub struct Calls {
    fails: Vec<u64>,
    made: u64,
    faults: u64,
    refused: u64,
}

impl Calls {
    ghost use Rattle.fts_io.specs.Memory.{IsFresh, NamesNext, one_more};

    pub fn new(fails: Vec<u64>) -> Calls
        ensures { IsFresh fails.items result }
    {
        Calls {
            fails,
            made: 0,
            faults: 0,
            refused: 0,
        }
    }

    /// Counts a call. It fails where the list names it, and that is a fault.
    pub fn make(&mut self) -> Result<(), Failed>
        ensures cause { HasCause self.old.faults self.new.faults result }
        ensures named { IsErr result ↔ NamesNext self.old }
        ensures made { self.new.made ≡ one_more self.old.made }
        ensures faults { self.new.faults
            ≡ (if is_err result then one_more self.old.faults else self.old.faults) }
        ensures refused { self.new.refused ≡ self.old.refused }
        ensures fails { self.new.fails.items ≡ self.old.fails.items }
    {
        self.made = self.made.saturating_add(1);
        if self.fails.contains(&self.made) {
            self.faults = self.faults.saturating_add(1);
            return Err(Failed);
        }
        Ok(())
    }

    /// Counts a want of memory, which is a fault.
    pub fn refuse(&mut self)
        ensures rose { Rose self.old.faults self.new.faults }
        ensures never_falls { self.old.faults ≤ self.new.faults }
        ensures rose_refused { Rose self.old.refused self.new.refused }
        ensures refused { self.new.refused ≡ one_more self.old.refused }
        ensures faults { self.new.faults ≡ one_more self.old.faults }
        ensures made { self.new.made ≡ self.old.made }
        ensures fails { self.new.fails.items ≡ self.old.fails.items }
    {
        self.refused = self.refused.saturating_add(1);
        self.faults = self.faults.saturating_add(1);
    }

    pub fn faults(&self) -> u64
        ensures { result ≡ self.now.faults }
    {
        self.faults
    }

    pub fn refused(&self) -> u64
        ensures { result ≡ self.now.refused }
    {
        self.refused
    }
}
