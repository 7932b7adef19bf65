//! The lines of a script by sessions.
ghost use Rattle.std.specs.Prelude.{◌≡◌, ◌≢◌, ◌≤◌, ℕ, length, All, IfOk, IfSome, IfNone, OnOk};
ghost use Rattle.std.specs.Prelude.{Some, Err};
ghost use Rattle.fts_script.specs.Script.{line_of, lines_in};
ghost use Rattle.fts_script.specs.Sessions.{IsOf, IsCrowded};
ghost use Rattle.fts_script.specs.Group.{IsGrouping, Puts, shares_of, numbers_in, joining};
ghost use Rattle.fts_script.specs.Group.{IsOneMore, IsItsShare};

use crate::error::GroupError;
use crate::lines::{Script, ScriptLine};
use fts_sql::session_of;
use std::alloc::Global;

/// The most sessions that a script can have.
pub const MOST_SESSIONS: usize = 16;

/// The lines of one session.
#[derive(Debug, Drop)]
pub struct Group {
    /// The number of the session.
    pub number: u32,
    /// The places of its lines in the script, from 0, in order.
    pub places: Vec<usize>,
}

/// The lines of a script by their sessions, in the order in which these come. A line that is too
/// long is session 1's, and a blank one nobody's.
pub fn group_lines(alloc: Global, script: &Script) -> Result<Vec<Group>, GroupError>
    ensures grouped { IfOk result (λ groups.
        IsGrouping (lines_in script.now) (shares_of groups.items)) }
    ensures few { IfOk result (λ groups. length groups.items ≤ 16) }
    ensures crowded { (number : ℕ) → result ≡ Err (GroupError.TooManySessions number)
        → IsCrowded (lines_in script.now) number }
{
    let mut groups = Vec::new(alloc);
    let lines = script.lines();
    for place in 0..lines.len() {
        match put_line(alloc, &mut groups, place, &lines[place]) {
            Ok(()) => {}
            Err(error) => return Err(error),
        }
    }
    Ok(groups)
}

// Puts the place of a line into its session's group, which is new where it had none.
fn put_line(
    alloc: Global,
    groups: &mut Vec<Group>,
    place: usize,
    line: &ScriptLine,
) -> Result<(), GroupError>
    requires { length groups.old.items ≤ 16 }
    ensures puts { OnOk result (Puts (line_of line.now) place
        (shares_of groups.old.items) (shares_of groups.new.items)) }
    ensures few { length groups.new.items ≤ 16 }
    ensures crowded { (number : ℕ) → result ≡ Err (GroupError.TooManySessions number)
        → IsOf (line_of line.now) (Some number) × IsOneMore (shares_of groups.old.items) number }
{
    match owner_of(line) {
        Some(number) => put_place(alloc, groups, number, place),
        None => Ok(()),
    }
}

// The session of a line.
fn owner_of(line: &ScriptLine) -> Option<u32>
    ensures { IsOf (line_of line.now) result }
{
    match line {
        ScriptLine::Whole(bytes) => session_of(bytes),
        ScriptLine::TooLong => Some(1),
    }
}

// Puts a place into the group of a session.
fn put_place(
    alloc: Global,
    groups: &mut Vec<Group>,
    number: u32,
    place: usize,
) -> Result<(), GroupError>
    requires { length groups.old.items ≤ 16 }
    ensures joins { OnOk result (shares_of groups.new.items
        ≡ joining (shares_of groups.old.items) number place) }
    ensures few { length groups.new.items ≤ 16 }
    ensures crowded { (other : ℕ) → result ≡ Err (GroupError.TooManySessions other)
        → (number ≡ other) × IsOneMore (shares_of groups.old.items) number }
{
    match group_of(groups, number) {
        Some(at) => match groups[at].places.push(place) {
            Ok(()) => Ok(()),
            Err(_) => Err(GroupError::NoMemory),
        },
        None => begin_group(alloc, groups, number, place),
    }
}

// Begins the group of a session that has none.
fn begin_group(
    alloc: Global,
    groups: &mut Vec<Group>,
    number: u32,
    place: usize,
) -> Result<(), GroupError>
    requires few { length groups.old.items ≤ 16 }
    requires unmet { All (λ other. other ≢ number) (numbers_in (shares_of groups.old.items)) }
    ensures joins { OnOk result (shares_of groups.new.items
        ≡ joining (shares_of groups.old.items) number place) }
    ensures few { length groups.new.items ≤ 16 }
    ensures crowded { (other : ℕ) → result ≡ Err (GroupError.TooManySessions other)
        → (number ≡ other) × IsOneMore (shares_of groups.old.items) number }
{
    if groups.len() >= MOST_SESSIONS {
        return Err(GroupError::TooManySessions { session: number });
    }
    let mut places = Vec::new(alloc);
    match places.push(place) {
        Ok(()) => {}
        Err(_) => return Err(GroupError::NoMemory),
    }
    match groups.push(Group { number, places }) {
        Ok(()) => {}
        Err(_) => return Err(GroupError::NoMemory),
    }
    Ok(())
}

// Which group is that of a session.
fn group_of(groups: &[Group], number: u32) -> Option<usize>
    ensures some { IfSome result (IsItsShare groups.now number) }
    ensures none { IfNone result (All (λ other. other ≢ number)
        (numbers_in (shares_of groups.now))) }
{
    for at in 0..groups.len() {
        if groups[at].number == number {
            return Some(at);
        }
    }
    None
}
