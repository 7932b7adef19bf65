//! The sessions of a script.
ghost use Rattle.std.specs.Prelude.{◌≡◌, [], ℕ, Some, false, length};
ghost use Rattle.std.specs.Prelude.{IfOk, IfErr, IfSome, IfNone, OnOk, OnErr};
ghost use Rattle.fts_io.specs.Text.{whole};
ghost use Rattle.fts_sessions.specs.declared.session.Session.{Session};
ghost use Rattle.fts_top.specs.Kept.{mets_of, mets, AreKept, AllFit, IsPlace, IsOneMore};
ghost use Rattle.fts_script.specs.Sessions.{IsOf};
ghost use Rattle.fts_top.specs.Sessions.{is_met, open_in, leaving, Serves};

use fts_io::Gate;
use fts_schema::Reply;
use fts_sessions::{EngineSteps, Session};
use fts_sql::session_of;
use std::alloc::{AllocError, Global};

/// The most sessions that a script can have.
const MOST: usize = 16;

/// The sessions that a script has met so far, each by its number, in the order in which they came.
#[derive(Drop)]
pub struct Sessions {
    alloc: Global,
    sessions: Vec<Session>,
}

impl Sessions {
    /// No sessions, and the memory of as many as there can be.
    pub fn new(alloc: Global) -> Result<Self, AllocError>
        ensures none { IfOk result (λ sessions. mets sessions ≡ []) }
        ensures kept { IfOk result AreKept }
        ensures fit { (columns : ℕ) → IfOk result (AllFit columns) }
    {
        let sessions = Vec::with_capacity(alloc, MOST)?;
        Ok(Sessions { alloc, sessions })
    }

    /// Executes a line of a script, which is within the limit, in its own session, and gives its
    /// reply: nothing for a line that is nobody's. The error is the number of a 17th session, whose
    /// line is not executed. To find the session costs a look at each.
    pub fn execute<S: EngineSteps, G: Gate>(
        &mut self,
        steps: &mut S,
        gate: &G,
        line: &[u8],
    ) -> Result<Reply, u32>
        requires kept { AreKept self.old }
        requires fit { AllFit (length (S.sight.settings steps.old).columns) self.old }
        ensures serves { IfOk result (λ reply.
            Serves S.sight (whole line.now) (mets self.old) steps.old reply
            (mets self.new) steps.new) }
        ensures unmet { IfErr result (λ number. IsOf (whole line.now) (Some number)
            × IsOneMore (mets self.old) number) }
        ensures unmade { OnErr result (steps.new ≡ steps.old) }
        ensures kept { AreKept self.new }
        ensures fit { AllFit (length (S.sight.settings steps.new).columns) self.new }
    {
        let Some(number) = session_of(line) else {
            return Ok(Reply::Nothing);
        };
        match self.place_of(number) {
            Some(place) => Ok(self.sessions[place].execute(steps, gate, line)),
            None => Err(number),
        }
    }

    /// Counts a line that is too long, which is session 1's. The error is as that of `execute`.
    pub fn skip(&mut self) -> Result<(), u32>
        requires { AreKept self.old }
        ensures met { OnOk result (mets self.new
            ≡ leaving (mets self.old) 1 (open_in (mets self.old) 1)) }
        ensures unmet { IfErr result (λ number. (number ≡ 1)
            × IsOneMore (mets self.old) number) }
        ensures kept { AreKept self.new }
        ensures fit { (columns : ℕ) → AllFit columns self.old → AllFit columns self.new }
    {
        match self.place_of(1) {
            Some(_) => Ok(()),
            None => Err(1),
        }
    }

    // The place of a session, which is new where it was not met; none where there are too many.
    fn place_of(&mut self, number: u32) -> Option<usize>
        requires { AreKept self.old }
        ensures some { IfSome result (λ place.
            IsPlace (mets self.old) number place self.new.sessions.items) }
        ensures none { IfNone result (IsOneMore (mets self.old) number) }
        ensures kept { AreKept self.new }
        ensures fit { (columns : ℕ) → AllFit columns self.old → AllFit columns self.new }
    {
        if let Some(place) = place_in(&self.sessions, number) {
            return Some(place);
        }
        let place = self.sessions.len();
        if place >= MOST {
            return None;
        }
        self.sessions
            .push_reserved(Session::new(self.alloc, number));
        Some(place)
    }
}

// The place of a session among some, from 0.
fn place_in(sessions: &[Session], number: u32) -> Option<usize>
    ensures some { IfSome result (λ place.
        IsPlace (mets_of sessions.now) number place sessions.now) }
    ensures none { IfNone result (is_met (mets_of sessions.now) number ≡ false) }
{
    for place in 0..sessions.len() {
        if sessions[place].number() == number {
            return Some(place);
        }
    }
    None
}
