//! One Hello: it is asked, and its answer sent.
ghost use Rattle.std.specs.Prelude.{◌≡◌, length, Err, IfErr, IfOk, OnErr};
ghost use Rattle.std.specs.Io.KnownBytes.{Keeps};
ghost use Rattle.lf_base.specs.Faults.{CountsFaults};
ghost use Rattle.lf_base.specs.declared.session_end.SessionEnd.TheVariants as ends;
ghost use Rattle.link_session.specs.Asking.{EndsAsking};
ghost use Rattle.link_session.specs.Spending.{AsksFor, Moves, MovesFor};
ghost use Rattle.link_session.specs.Sessions.{asker_of, stand_of, Borrows, SessionGoesOn};
ghost use Rattle.link_session.specs.Stands.{asker, AsksOn, Spends};
ghost use Rattle.stream_primary.specs.declared.standing.Sent.TheVariants as sents;
ghost use Rattle.stream_primary.specs.Streaming.{AsksHello, EndsRound, EndsTelling};

use crate::ending::end_stream;
use crate::standing::{Sent, Standing};
use crate::telling::{file_of, goes_on, next, put_words};
use lf_base::{Clock, Failed, Link, Name, Pause, SessionEnd};
use link_session::{Session, Steps, Turns, take_step, write_both};
use node_core::{Answer, Ask, Whereabouts};

/// Asks one Hello and tells its answer, and answers how the follower stands then. A follower that was
/// level is looked for first.
///
/// Closed where the Hello was refused, and that is sent; WriteFault also where the follower is gone.
pub fn greet<S: Steps<Ask = Ask, Answer = Answer>, L: Link, C: Clock, P: Pause>(
    session: &mut Session<L, C, P>,
    steps: &mut S,
    name: &Name,
    at: Standing,
    text: &mut Vec<u8>,
) -> Result<Standing, SessionEnd>
    ensures round { EndsRound (asker_of S.Steps C.Clock session.old steps.old) name.now at (stand_of S.Steps L.Link session.old steps.old).place
        (stand_of S.Steps L.Link session.new steps.new).place (L.faults session.old.link.now) (L.faults session.new.link.now) session.new.turns result }
    ensures left { Keeps (L.left session.old.link.now) (L.left session.new.link.now) }
    ensures same { SessionGoesOn S.Steps C.Clock session.old session.new steps.old steps.new }
    ensures spent { Spends session.old.turns (stand_of S.Steps L.Link session.old steps.old) session.new.turns (stand_of S.Steps L.Link session.new steps.new) result }
    ensures worn { IfErr result (λ end. end ≡ ends.Worn → S.is_worn steps.new) }
{
    match look(session.link, at.sent) {
        Ok(()) => ask_and_tell(session, steps, name, at, text),
        Err(_) => Err(SessionEnd::WriteFault),
    }
}

/// Looks for a follower that was level, by a write of no bytes, and takes no turn. Nothing else would find that it is
/// gone: of a follower nothing is read.
fn look<L: Link>(link: &mut L, sent: Sent) -> Result<(), Failed>
    ensures left { Keeps (L.left link.old) (L.left link.new) }
    ensures given { Keeps (L.given link.old) (L.given link.new) }
    ensures taken { Keeps (L.taken link.old) (L.taken link.new) }
    ensures moves { Moves 0 (L.moves link.old) 0 (L.moves link.new) }
    ensures cause { CountsFaults (L.faults link.old) (L.faults link.new) result }
    ensures unmoved { (sent ≡ sents.Ready → ⊥) → link.new ≡ link.old }
{
    match sent {
        Sent::Nothing | Sent::Head => Ok(()),
        Sent::Ready => match link.write(b"") {
            Ok(_) => Ok(()),
            Err(failed) => Err(failed),
        },
    }
}

/// Asks one Hello and tells its answer.
fn ask_and_tell<S: Steps<Ask = Ask, Answer = Answer>, L: Link, C: Clock, P: Pause>(
    session: &mut Session<L, C, P>,
    steps: &mut S,
    name: &Name,
    at: Standing,
    text: &mut Vec<u8>,
) -> Result<Standing, SessionEnd>
    ensures round { EndsRound (asker_of S.Steps C.Clock session.old steps.old) name.now at (stand_of S.Steps L.Link session.old steps.old).place
        (stand_of S.Steps L.Link session.new steps.new).place (L.faults session.old.link.now) (L.faults session.new.link.now) session.new.turns result }
    ensures left { Keeps (L.left session.old.link.now) (L.left session.new.link.now) }
    ensures same { SessionGoesOn S.Steps C.Clock session.old session.new steps.old steps.new }
    ensures spent { Spends session.old.turns (stand_of S.Steps L.Link session.old steps.old) session.new.turns (stand_of S.Steps L.Link session.new steps.new) result }
    ensures worn { IfErr result (λ end. end ≡ ends.Worn → S.is_worn steps.new) }
{
    match ask_hello(steps, session.clock, at.here, &mut session.turns) {
        Ok(answer) => tell(session, name, at, &answer, text),
        Err(end) => Err(end),
    }
}

/// Asks what is owed to a follower that stands here. It is a turn.
fn ask_hello<S: Steps<Ask = Ask, Answer = Answer>, C: Clock>(
    steps: &mut S,
    clock: &mut C,
    here: Whereabouts,
    turns: &mut Turns,
) -> Result<Answer, SessionEnd>
    ensures asked { IfOk result (λ answer. AsksHello (asker S.Steps C.Clock steps.old clock.old) here answer (S.entries steps.old) (S.entries steps.new)) }
    ensures still { OnErr result (S.entries steps.new ≡ S.entries steps.old) }
    ensures same { AsksOn S.Steps C.Clock steps.old steps.new clock.old clock.new }
    ensures spent { AsksFor result turns.old (length (S.entries steps.old)) turns.new (length (S.entries steps.new)) }
    ensures cause { EndsAsking (S.is_worn steps.new) turns.new result }
{
    let ask = Ask::Hello {
        now: clock.now_ms(),
        pos: here.pos,
        last: here.last,
    };
    take_step(steps, &ask, turns)
}

/// Tells the follower the answer, and naps where it is level. Nothing is written where memory runs out.
fn tell<L: Link, C, P: Pause>(
    session: &mut Session<L, C, P>,
    name: &Name,
    at: Standing,
    answer: &Answer,
    text: &mut Vec<u8>,
) -> Result<Standing, SessionEnd>
    ensures sent { EndsTelling name.now at answer.now (L.taken session.old.link.now) (L.taken session.new.link.now) (L.faults session.old.link.now)
        (L.faults session.new.link.now) session.new.turns result }
    ensures left { Keeps (L.left session.old.link.now) (L.left session.new.link.now) }
    ensures spent { MovesFor result session.old.turns (L.moves session.old.link.now) session.new.turns (L.moves session.new.link.now) }
    ensures borrows { Borrows session.old session.new }
    ensures clock { session.new.clock ≡ session.old.clock }
{
    if !goes_on(answer) {
        return Err(end_stream(
            session.alloc,
            session.link,
            at.sent,
            answer,
            text,
            &mut session.turns,
        ));
    }
    match put_words(session.alloc, name, at.sent, answer, text) {
        Ok(()) => {}
        Err(_) => return Err(SessionEnd::NoMemory),
    }
    match write_both(
        session.link,
        text.as_slice(),
        file_of(answer),
        &mut session.turns,
    ) {
        Ok(()) => {}
        Err(end) => return Err(end),
    }
    if matches!(answer, Answer::Level(_)) {
        session.pause.nap();
    }
    Ok(next(at, answer))
}
