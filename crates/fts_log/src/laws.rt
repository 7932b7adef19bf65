//! What holds of logs as bytes.
ghost use Rattle.std.specs.Prelude.{◌≡◌, ℕ, List};
ghost use Rattle.fts_log.specs.Record.{IsLog, IsDamagedAt};

/// Bytes are a log of one list of entries alone. It does nothing: its contract is the theorem.
pub fn one_list()
    ensures { (magic : List ℕ) (entries others : List (List ℕ)) (file : List ℕ)
        → IsLog magic entries file → IsLog magic others file → entries ≡ others }
{}

/// A log is damaged at no place. It does nothing: its contract is the theorem.
pub fn not_damaged()
    ensures { (magic : List ℕ) (entries : List (List ℕ)) (file : List ℕ) (at : ℕ)
        → IsLog magic entries file → IsDamagedAt magic at file → ⊥ }
{}

/// A file is damaged at one place alone. It does nothing: its contract is the theorem.
pub fn one_place()
    ensures { (magic file : List ℕ) (at other : ℕ) → IsDamagedAt magic at file
        → IsDamagedAt magic other file → at ≡ other }
{}
