//! The lines of a session.
ghost use Rattle.std.specs.Prelude.{◌≡◌, ◌≤◌, [], length, slice_get, vec_capacity};
ghost use Rattle.fts_script.specs.Script.{lines_in};
ghost use Rattle.fts_sessions.specs.Execute.{Executes};
ghost use Rattle.fts_sessions.specs.Transaction.{FitsTable};
ghost use Rattle.fts_shared.specs.Talk.{TalksOn};
ghost use Rattle.fts_shared.specs.Work.{lines_at, or_none};

use fts_io::Gate;
use fts_schema::Reply;
use fts_script::{Script, ScriptLine};
use fts_sessions::{EngineSteps, Session};

/// Executes the lines at these places of a script in their order, and puts their replies into a
/// row, which has room for them. A line that was too long is told so, and so is one that isn't
/// there.
pub(crate) fn talk<S: EngineSteps, G: Gate>(
    session: &mut Session,
    steps: &mut S,
    gate: &G,
    script: &Script,
    places: &[usize],
    replies: &mut Vec<Reply>,
)
    requires fit { FitsTable (length (S.sight.settings steps.old).columns)
        session.old.transaction }
    requires room { (replies.old.items ≡ [])
        × (length places.now ≤ vec_capacity replies.old) }
    ensures talks { TalksOn S.sight session.old.transaction
        (lines_at (lines_in script.now) places.now)
        replies.new.items session.new.transaction steps.old steps.new }
    ensures room { vec_capacity replies.old ≤ vec_capacity replies.new }
{
    for i in 0..places.len() {
        let reply = told(session, steps, gate, script, places[i]);
        replies.push_reserved(reply);
    }
}

// Executes the line at a place.
fn told<S: EngineSteps, G: Gate>(
    session: &mut Session,
    steps: &mut S,
    gate: &G,
    script: &Script,
    place: usize,
) -> Reply
    requires { FitsTable (length (S.sight.settings steps.old).columns) session.old.transaction }
    ensures executes { Executes S.sight (or_none (slice_get (lines_in script.now) place))
        session.old.transaction steps.old result session.new.transaction steps.new }
    ensures fits { FitsTable (length (S.sight.settings steps.new).columns)
        session.new.transaction }
{
    let lines = script.lines();
    if place >= lines.len() {
        return Reply::LineTooLong;
    }
    match &lines[place] {
        ScriptLine::Whole(bytes) => session.execute(steps, gate, bytes),
        ScriptLine::TooLong => Reply::LineTooLong,
    }
}
