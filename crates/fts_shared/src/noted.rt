//! Entries of the history.
use std::marker::Model;

/// An entry of the history. No value of it is made.
#[derive(Drop)]
pub struct Noted {
    by: u64,
}

impl Model for Noted {
    ghost use Rattle.fts_steps.specs.Running.{Entry, batched};

    ghost Value = { Entry };

    ghost view = { λ n. record { by = n.by; what = batched } };
}
