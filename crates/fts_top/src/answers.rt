//! The replies of a script that was served, written in the order of its lines.
ghost use Rattle.std.specs.Prelude.{◌≡◌, IsTrue, [], ◌∷◌, Err};
ghost use Rattle.fts_faults.specs.Count.{CountsFault};
ghost use Rattle.fts_top.specs.Answers.{told, SendsAll, SendsOne};
ghost use Rattle.fts_workers.specs.Health.{health_of_all};

use crate::ends::Unsent;
use crate::script::send;
use fts_io::Sink;
use fts_schema::Reply;
use fts_workers::{Health, health_of};
use std::alloc::Global;

/// What the lines met, by their replies.
pub(crate) fn met_by(replies: &[Option<Reply>]) -> Health
    ensures { result ≡ health_of_all (told replies.now) }
{
    let mut met = Health::Sound;
    for reply in replies {
        met = met.worse(met_in(reply));
    }
    met
}

// What a line met, by its reply, if it has one.
fn met_in(reply: &Option<Reply>) -> Health
    ensures { result ≡ health_of_all (told (reply.now ∷ [])) }
{
    match reply {
        Some(reply) => health_of(reply),
        None => Health::Sound,
    }
}

/// Writes the replies that there are. After one that was not written whole no other is.
pub(crate) fn send_all<O: Sink>(
    alloc: Global,
    out: &mut O,
    replies: &[Option<Reply>],
) -> Result<(), Unsent>
    ensures sends { IsTrue O.tells
        → SendsAll result (told replies.now) (O.holds out.old) (O.holds out.new) }
    ensures write { CountsFault (result ≡ Err Unsent.WriteFault)
        (O.faults out.old) (O.faults out.new) }
{
    let mut text = Vec::new(alloc);
    for reply in replies {
        match send_one(&mut text, out, reply) {
            Ok(()) => {}
            Err(unsent) => return Err(unsent),
        }
    }
    Ok(())
}

// Writes a reply, if there is one.
fn send_one<O: Sink>(text: &mut Vec<u8>, out: &mut O, reply: &Option<Reply>) -> Result<(), Unsent>
    ensures sends { IsTrue O.tells
        → SendsOne result reply.now (O.holds out.old) (O.holds out.new) }
    ensures write { CountsFault (result ≡ Err Unsent.WriteFault)
        (O.faults out.old) (O.faults out.new) }
{
    match reply {
        Some(reply) => send(text, out, reply),
        None => Ok(()),
    }
}
