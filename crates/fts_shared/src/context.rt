//! What threads at one engine share.
ghost use Rattle.fts_shared.specs.Settled.{AreSettingsAt};

use crate::AtTurn;
use fts_disk::Disk;
use fts_io::Gate;
use fts_script::Script;
use fts_turn::Turns;
use fts_types::Settings;
use fts_workers::Bells;
use std::alloc::Global;
use std::sync::Wait;

/// What threads at one engine share: the turn, the engine's settings, the bells of the workers, and
/// the script of which the sessions execute the lines.
#[derive(Drop)]
pub(crate) struct Context<'a, R: Wait, D: Disk, E: Disk, G: Gate> {
    pub(crate) alloc: Global,
    pub(crate) rt: &'a R,
    pub(crate) turn: &'a Turns<AtTurn<D, E>>,
    pub(crate) settings: &'a Settings,
    pub(crate) bells: &'a Bells,
    pub(crate) gate: &'a G,
    pub(crate) script: &'a Script,
    ghost settled: { AreSettingsAt turn.now settings.now },
}
