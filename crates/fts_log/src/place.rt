//! What stands at a place of a log's file.
ghost use Rattle.std.specs.Prelude.{◌≡◌, ℕ, List, ◌+◌, ◌^◌, ◌<◌, ◌≤◌, length, take, drop};

use byteorder::{BigEndian, ByteOrder};

/// What stands at a place of a file: a closed gate, a whole record, which ends at `next`, or
/// neither.
#[derive(Clone, Copy)]
pub(crate) enum Place {
    Closed,
    Whole { next: u64 },
    Broken,
}

impl Place {
    ghost use Rattle.fts_log.specs.Scan.{PlaceIs};

    /// What stands at `at`, by the first five bytes from there on, or fewer where the file ends.
    /// The file has `file_length` bytes.
    pub(crate) fn from_head(head: &[u8], at: u64, file_length: u64) -> Self
        requires within { at ≤ file_length }
        requires small { file_length < 2 ^ 63 }
        ensures stands { (file : List ℕ) → length file ≡ file_length
            → head.now ≡ take 5 (drop at file) → PlaceIs file at result }
        ensures next { (next : ℕ) → result ≡ Place.Whole next
            → (at + 5 ≤ next) × (next ≤ file_length) }
    {
        match head {
            [1, _, _, _, _] => {
                let next = at + 5 + BigEndian::read_u32(&head[1..]) as u64;
                if next <= file_length {
                    Place::Whole { next }
                } else {
                    Place::Broken
                }
            }
            [] | [1, ..] => Place::Broken,
            _ => Place::Closed,
        }
    }
}
