//! The steps of an engine: what each is asked, what it answers, and the state that it leaves.
//!
//! A state is a database as a reader thinks of it: its settings, and the list of its commits. No
//! cache or file appears in it; beside it stands how far the index is flushed, and what its tables
//! have. The definitions stand in `specs/`; the crate has the types of the answers of a commit (its
//! number, or a [`CommitError`]), of a batch ([`SyncBatch`]) and of a step of OPTIMIZE
//! ([`OptimizeStep`]), or an [`IndexError`]; and of why a view or a listing was refused
//! ([`ViewError`]).
//!
//! Behind three commits `engine.sync_batch()?` may answer
//! `SyncBatch::Flushed { through: 2, commits: 3 }`: the words of the first two are in the tables.
//! An answer is a number or two, and takes no memory.
#![tactic(auto)]

mod commit;
mod index_error;
mod optimize;
mod sync;
mod view_error;

pub use commit::CommitError;
pub use index_error::IndexError;
pub use optimize::OptimizeStep;
pub use sync::SyncBatch;
pub use view_error::ViewError;
