//! One of several threads at one engine.
ghost use Rattle.std.specs.Prelude.{◌≡◌, ◌≤◌, length};
ghost use Rattle.fts_engine.specs.Stands.{engine_settings};
ghost use Rattle.fts_shared.specs.Shared.{first_of};

use crate::AtTurn;
use crate::placed::Placed;
use fts_disk::Disk;
use fts_types::Settings;
use fts_workers::Bells;
use std::sync::Wait;

/// The steps of one of several threads at one engine: each takes the engine, makes its step, and
/// gives the engine back. A commit wakes the sync worker, and a batch the optimiser.
#[derive(Drop)]
pub struct Shared<'a, R: Wait, D: Disk, E: Disk> {
    pub(crate) rt: &'a R,
    pub(crate) placed: Placed<'a, AtTurn<D, E>>,
    pub(crate) settings: &'a Settings,
    pub(crate) bells: &'a Bells,
    ghost some: { 1 ≤ length settings.now.columns },
    ghost few: { length settings.now.columns ≤ 8 },
    ghost kept: { settings.now ≡ engine_settings (first_of placed.0) },
}
