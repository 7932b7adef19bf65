//! The statements of the index: SYNC, and listings.
ghost use Rattle.std.specs.Prelude.{◌≡◌, ◌∷◌, ◌++◌, [], codes, IfOk};
ghost use Rattle.fts_types.specs.declared.settings.Settings.{Settings};
ghost use Rattle.fts_steps.specs.Step.{to_list, flushed};
ghost use Rattle.fts_steps.specs.Answers.{error_answer_of, view_error_answer_of};
ghost use Rattle.fts_sessions.specs.Conversation.{list_begins, reply_to};
ghost use Rattle.fts_sessions.specs.Execute.{Does, GoesOn, Makes};
ghost use Rattle.fts_sessions.specs.Request.{syncs};
ghost use Rattle.fts_sessions.specs.Transaction.{Transaction};
ghost use Rattle.fts_sessions.specs.View.{view_of_schema as the_view_of_schema};

use crate::EngineSteps;
use crate::view::view_of_schema;
use fts_listing::ListingKind;
use fts_schema::Reply;
use fts_steps::{IndexError, SyncBatch, ViewError};
use fts_types::Text;
use std::alloc::{AllocError, Global};

/// The steps of a SYNC, and what tells the last answer: batches up to the commits that the first
/// one tells.
pub fn sync<S: EngineSteps>(steps: &mut S) -> Reply
    ensures { (transaction : Transaction)
        → GoesOn S.sight (S.sight.settings steps.old) transaction syncs []
        steps.old result steps.new }
{
    match steps.sync_batch() {
        Ok(SyncBatch::Flushed { through, commits }) => flush_on(steps, through, commits),
        Ok(SyncBatch::Nothing { commits }) => Reply::Synced { through: commits },
        Err(error) => not_made(error),
    }
}

// More batches up to a target, behind the one that told it. Each flushes a commit at least, so
// there are not more of them than commits.
fn flush_on<S: EngineSteps>(steps: &mut S, first: u64, target: u64) -> Reply
    ensures { (settings : Settings) → (transaction : Transaction)
        → GoesOn S.sight settings transaction syncs (flushed first target ∷ [])
        steps.old result steps.new }
{
    let mut through = first;
    for _ in 1..target {
        if through >= target {
            return Reply::Synced { through };
        }
        match steps.sync_batch() {
            Ok(SyncBatch::Flushed { through: now, .. }) => through = now,
            Ok(SyncBatch::Nothing { commits }) => return Reply::Synced { through: commits },
            Err(error) => return not_made(error),
        }
    }
    Reply::Synced { through }
}

/// What tells why a batch or a step of OPTIMIZE was not made.
pub fn not_made(error: IndexError) -> Reply
    ensures { reply_to (error_answer_of error) ≡ result }
{
    match error {
        IndexError::NoMemory => Reply::NoMemory,
        IndexError::LogFull { end } => Reply::LogFull { end },
        IndexError::DiskFault { .. } => Reply::DiskFault,
        IndexError::Stopped { faults } => Reply::Stopped { faults },
    }
}

/// The step of a listing, and what tells its answer. A view that isn't there makes no step.
pub fn list<S: EngineSteps>(alloc: Global, steps: &mut S, schema: &Text, view: &Text) -> Reply
    ensures { Does S.sight
        (list_begins schema.now view.now (the_view_of_schema schema.now view.now))
        steps.old result steps.new }
{
    let Some(kind) = view_of_schema(schema.as_slice(), view.as_slice()) else {
        return match joined(alloc, schema.as_slice(), view.as_slice()) {
            Ok(name) => Reply::NoSuchTable { name },
            Err(AllocError) => Reply::NoMemory,
        };
    };
    list_view(steps, kind)
}

// The step of a listing of a view that is there.
fn list_view<S: EngineSteps>(steps: &mut S, kind: ListingKind) -> Reply
    ensures { Makes S.sight (to_list kind) steps.old result steps.new }
{
    match steps.listing(kind) {
        Ok(listed) => Reply::Listed {
            number: listed.number,
            listing: listed.listing,
        },
        Err(error) => not_viewed(error),
    }
}

// What tells why a view or a listing was not made.
pub(crate) fn not_viewed(error: ViewError) -> Reply
    ensures { result ≡ reply_to (view_error_answer_of error) }
{
    match error {
        ViewError::NoMemory => Reply::NoMemory,
        ViewError::DiskFault { .. } => Reply::DiskFault,
    }
}

// Both names, as they are written, with a point between them.
fn joined(alloc: Global, schema: &[u8], view: &[u8]) -> Result<Text, AllocError>
    ensures { IfOk result (λ name. name ≡ schema.now ++ codes "." ++ view.now) }
{
    let mut name = Vec::from_slice(alloc, schema)?;
    name.push(b'.')?;
    name.extend_from_slice(view)?;
    Ok(Text::new(name))
}
