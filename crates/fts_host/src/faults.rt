ghost use Rattle.std.specs.Prelude.{◌≡◌, ◌↔◌, ◌<◌, ◌≤◌, IsErr, IsSome, OnOk};
ghost use Rattle.std.specs.Result.{result_ok};
ghost use Rattle.fts_faults.specs.Count.{Rose};

use fts_faults::Failed;

// A count of the errors that the system gave, and the first of them. The count stands still at its
// last value.
#[derive(Debug, Drop)]
pub struct Faults<E> {
    pub count: u64,
    pub first: Option<E>,
    ghost told: { 0 < count → IsSome first },
}

impl<E: Copy> Faults<E> {
    pub fn none() -> Faults<E>
        ensures { result.count ≡ 0 }
    {
        Faults {
            count: 0,
            first: None,
        }
    }

    // Answers a call, and counts and keeps an error of the system.
    pub fn counted<T>(&mut self, answer: Result<T, E>) -> Result<T, Failed>
        ensures failed { IsErr result ↔ IsErr answer }
        ensures rose { IsErr result → Rose self.old.count self.new.count }
        ensures never_falls { self.old.count ≤ self.new.count }
        ensures stays { OnOk result (self.new.count ≡ self.old.count) }
        ensures value { OnOk result (result_ok result ≡ result_ok answer) }
        ensures first { IsSome self.old.first → self.new.first ≡ self.old.first }
    {
        match answer {
            Ok(value) => Ok(value),
            Err(error) => {
                self.count = self.count.saturating_add(1);
                if self.first.is_none() {
                    self.first = Some(error);
                }
                Err(Failed)
            }
        }
    }
}
