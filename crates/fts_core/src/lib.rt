//! The headline: what holds over every list of steps and crashes of a database.
//!
//! A [`World`] is a database on two devices, with an engine or without, and what is known of it:
//! the list of acknowledged commits, and the commit in doubt, if there is one. An [`Event`] is an
//! opening, a step of the engine, or a crash, which leaves any two devices that the world allows:
//! those of a moment within the last call, whose answer then counts as not given, or of one after
//! it. [`step`] takes one event, and [`steps`] a list of them. Its contract is the theorem: each
//! view tells of exactly the acknowledged commits, each opening finds these, or these and the one
//! in doubt, and the index is right behind each event. `docs/PROOF.md`, "Every list of steps and
//! crashes", says what each of its words means.
//!
//! `let (rows, index) = create_engine(alloc, &settings, rows, index)?;` makes a database, and
//! `World::new(alloc, rows, index)` its world. Then `steps(alloc, world, events)?` gives the world
//! behind the events, and one outcome for each.
//!
//! An event costs its call; a world keeps the changes of each commit, and a list of events takes
//! the room of its outcomes first.
#![tactic(auto)]

mod commit;
mod crash;
mod event;
mod fits;
mod indexing;
mod killed;
mod opening;
mod run;
mod view;
mod world;

pub use event::{Event, Outcome};
pub use killed::killed_runs_open;
pub use run::{step, steps};
pub use world::{Last, Place, World};
