//! `POST /halt` and `DELETE /halt`: a write permit is asked for, and given back.
ghost use Rattle.std.specs.Prelude.{◌≡◌, ℕ, List, Err, IfOk};
ghost use Rattle.std.specs.Io.KnownBytes.{Keeps};
ghost use Rattle.lf_base.specs.Name.{IsName};
ghost use Rattle.lf_base.specs.declared.session_end.SessionEnd.TheVariants as ends;
ghost use Rattle.link_session.specs.Stands.{asker, stand, AsksOn, GoesOn, Spends};
ghost use Rattle.link_session.specs.Spending.{MovesFor};
ghost use Rattle.http_exchange.specs.declared.wants.Kept.TheVariants as kept;
ghost use Rattle.stream_wire.specs.NumberLines.{number_line};
ghost use Rattle.stream_primary.specs.HaltCalls.{AsksPermit, GivesBack, SaysNumber, ServesHalt, ServesHaltBack, TellsPermit, is_quiet, number_line_max, pass_in, permit_reply, place_in};
ghost use Rattle.stream_primary.specs.Refusing.{EndsReply};
ghost use Rattle.stream_primary.specs.Request.{CameOf};

use crate::names::is_same;
use crate::replies::{refuse, reply_to, say};
use halt_forward::HaltPass;
use http_exchange::Body;
use lf_base::{Clock, Link, Name, NoMemory, Pos, SessionEnd};
use link_session::{Steps, Turns, take_step};
use node_core::{Answer, Ask};
use std::alloc::Global;
use stream_wire::{PassLine, read_named_number, write_pass_line};

/// The most bytes of a line that names a database and a number.
pub const NUMBER_LINE_MAX: u64 = 82;

/// The status of a line of another database.
const NOT_FOUND: u16 = 404;

/// The status of a body that is no such line.
const BAD_REQUEST: u16 = 400;

/// What a body says to the node of a database.
#[derive(Clone, Copy, Debug, PartialEq, Eq)]
pub enum Named {
    /// This number, by a line of the database.
    Number(u64),
    /// Its line is of another database.
    OtherDatabase,
    /// It is no such line.
    NoLine,
}

/// Serves a request for a write permit of the node that the body names by its number, to the end of
/// its session.
pub fn serve_halt<S: Steps<Ask = Ask, Answer = Answer>, L: Link, C: Clock>(
    alloc: Global,
    steps: &mut S,
    link: &mut L,
    clock: &mut C,
    said: Named,
    turns: &mut Turns,
) -> SessionEnd
    ensures serves { (name body : List ℕ) → SaysNumber name body said
        → ServesHalt (asker S.Steps C.Clock steps.old clock.old) name body (stand L.Link link.old (S.entries steps.old))
        (stand L.Link link.new (S.entries steps.new)) turns.new result }
    ensures left { Keeps (L.left link.old) (L.left link.new) }
    ensures same { AsksOn S.Steps C.Clock steps.old steps.new clock.old clock.new }
    ensures spent { Spends {T = Unit {0}} turns.old (stand L.Link link.old (S.entries steps.old)) turns.new (stand L.Link link.new (S.entries steps.new)) (Err result) }
    ensures worn { result ≡ ends.Worn → S.is_worn steps.new }
{
    match said {
        Named::Number(node) => {
            let ask = Ask::HaltAsk {
                now: clock.now_ms(),
                node,
            };
            ask_permit(alloc, steps, link, &ask, turns)
        }
        Named::OtherDatabase => refuse(alloc, link, NOT_FOUND, turns),
        Named::NoLine => refuse(alloc, link, BAD_REQUEST, turns),
    }
}

/// Serves a request that the write permit whose number the body says be taken back, to the end of its
/// session.
pub fn serve_halt_back<S: Steps<Ask = Ask, Answer = Answer>, L: Link, C: Clock>(
    alloc: Global,
    steps: &mut S,
    link: &mut L,
    clock: &mut C,
    said: Named,
    turns: &mut Turns,
) -> SessionEnd
    ensures serves { (name body : List ℕ) → SaysNumber name body said
        → ServesHaltBack (asker S.Steps C.Clock steps.old clock.old) name body (stand L.Link link.old (S.entries steps.old))
        (stand L.Link link.new (S.entries steps.new)) turns.new result }
    ensures left { Keeps (L.left link.old) (L.left link.new) }
    ensures same { AsksOn S.Steps C.Clock steps.old steps.new clock.old clock.new }
    ensures spent { Spends {T = Unit {0}} turns.old (stand L.Link link.old (S.entries steps.old)) turns.new (stand L.Link link.new (S.entries steps.new)) (Err result) }
    ensures worn { result ≡ ends.Worn → S.is_worn steps.new }
{
    match said {
        Named::Number(number) => {
            let ask = Ask::HaltBack {
                now: clock.now_ms(),
                number,
            };
            ask_back(alloc, steps, link, &ask, turns)
        }
        Named::OtherDatabase => refuse(alloc, link, NOT_FOUND, turns),
        Named::NoLine => refuse(alloc, link, BAD_REQUEST, turns),
    }
}

/// Asks that a permit be taken back, and ends the session with the reply.
fn ask_back<S: Steps<Ask = Ask, Answer = Answer>, L: Link>(
    alloc: Global,
    steps: &mut S,
    link: &mut L,
    ask: &Ask,
    turns: &mut Turns,
) -> SessionEnd
    ensures gives { GivesBack (S.number steps.old) ask.now (stand L.Link link.old (S.entries steps.old)) (stand L.Link link.new (S.entries steps.new)) turns.new result }
    ensures left { Keeps (L.left link.old) (L.left link.new) }
    ensures same { (S.of steps.new ≡ S.of steps.old) × (S.number steps.new ≡ S.number steps.old) × GoesOn S.Steps steps.old steps.new }
    ensures spent { Spends {T = Unit {0}} turns.old (stand L.Link link.old (S.entries steps.old)) turns.new (stand L.Link link.new (S.entries steps.new)) (Err result) }
    ensures worn { result ≡ ends.Worn → S.is_worn steps.new }
{
    match take_step(steps, ask, turns) {
        Ok(answer) => {
            if is_quiet(&answer) {
                say(alloc, link, 200, b"", turns)
            } else {
                reply_to(alloc, link, &answer, turns)
            }
        }
        Err(end) => end,
    }
}

/// Asks for a permit, and ends the session with the reply.
fn ask_permit<S: Steps<Ask = Ask, Answer = Answer>, L: Link>(
    alloc: Global,
    steps: &mut S,
    link: &mut L,
    ask: &Ask,
    turns: &mut Turns,
) -> SessionEnd
    ensures asks { AsksPermit (S.number steps.old) ask.now (stand L.Link link.old (S.entries steps.old)) (stand L.Link link.new (S.entries steps.new)) turns.new result }
    ensures left { Keeps (L.left link.old) (L.left link.new) }
    ensures same { (S.of steps.new ≡ S.of steps.old) × (S.number steps.new ≡ S.number steps.old) × GoesOn S.Steps steps.old steps.new }
    ensures spent { Spends {T = Unit {0}} turns.old (stand L.Link link.old (S.entries steps.old)) turns.new (stand L.Link link.new (S.entries steps.new)) (Err result) }
    ensures worn { result ≡ ends.Worn → S.is_worn steps.new }
{
    match take_step(steps, ask, turns) {
        Ok(answer) => match pass_in(&answer) {
            Some(pass) => tell_permit(alloc, steps, link, pass, turns),
            None => reply_to(alloc, link, &answer, turns),
        },
        Err(end) => end,
    }
}

/// Asks for the position, and ends the session with it and the permit as the reply.
fn tell_permit<S: Steps<Ask = Ask, Answer = Answer>, L: Link>(
    alloc: Global,
    steps: &mut S,
    link: &mut L,
    pass: HaltPass,
    turns: &mut Turns,
) -> SessionEnd
    ensures tells { TellsPermit (S.number steps.old) pass (stand L.Link link.old (S.entries steps.old)) (stand L.Link link.new (S.entries steps.new)) turns.new result }
    ensures left { Keeps (L.left link.old) (L.left link.new) }
    ensures same { (S.of steps.new ≡ S.of steps.old) × (S.number steps.new ≡ S.number steps.old) × GoesOn S.Steps steps.old steps.new }
    ensures spent { Spends {T = Unit {0}} turns.old (stand L.Link link.old (S.entries steps.old)) turns.new (stand L.Link link.new (S.entries steps.new)) (Err result) }
    ensures worn { result ≡ ends.Worn → S.is_worn steps.new }
{
    match take_step(steps, &Ask::Where, turns) {
        Ok(answer) => match place_in(&answer) {
            Some(pos) => say_permit(alloc, link, pass, pos, turns),
            None => reply_to(alloc, link, &answer, turns),
        },
        Err(end) => end,
    }
}

/// Answers with a permit, and the position of the primary that gave it.
fn say_permit<L: Link>(
    alloc: Global,
    link: &mut L,
    pass: HaltPass,
    pos: Pos,
    turns: &mut Turns,
) -> SessionEnd
    ensures end { EndsReply (permit_reply pass pos) (L.taken link.old) (L.taken link.new) (L.faults link.old) (L.faults link.new) turns.new result }
    ensures left { Keeps (L.left link.old) (L.left link.new) }
    ensures spent { MovesFor {T = Unit {0}} (Err result) turns.old (L.moves link.old) turns.new (L.moves link.new) }
{
    let line = PassLine {
        number: pass.number,
        until: pass.until,
        pos,
    };
    let mut text = Vec::new(alloc);
    match write_pass_line(line, &mut text) {
        Ok(()) => say(alloc, link, 200, text.as_slice(), turns),
        Err(_) => SessionEnd::NoMemory,
    }
}

/// The permit that an answer gives.
fn pass_in(answer: &Answer) -> Option<HaltPass>
    ensures { result ≡ pass_in answer.now }
{
    match answer {
        Answer::Pass(pass) => Some(*pass),
        _ => None,
    }
}

/// The position that it tells.
fn place_in(answer: &Answer) -> Option<Pos>
    ensures { result ≡ place_in answer.now }
{
    match answer {
        Answer::At(here) => Some(here.pos),
        _ => None,
    }
}

/// Whether it says nothing.
fn is_quiet(answer: &Answer) -> bool
    ensures { result ≡ is_quiet answer.now }
{
    matches!(answer, Answer::Quiet)
}

/// What a body says to the node of this database.
pub fn number_in(alloc: Global, name: &Name, body: &Body) -> Result<Named, NoMemory>
    ensures { (content : List ℕ) → CameOf (kept.Line number_line_max) content body.now → IfOk result (SaysNumber name.now content) }
{
    match body {
        Body::Whole(line) => number_of(alloc, name, line.as_slice()),
        Body::Passed | Body::Unread => Ok(Named::NoLine),
    }
}

/// What this body says.
pub fn number_of(alloc: Global, name: &Name, body: &[u8]) -> Result<Named, NoMemory>
    ensures { IfOk result (SaysNumber name.now body.now) }
{
    match read_named_number(alloc, body) {
        Ok(Some((other, number))) => Ok(number_by(name, &other, number)),
        Ok(None) => Ok(Named::NoLine),
        Err(_) => Err(NoMemory),
    }
}

/// What the line of this other database and number says.
fn number_by(name: &Name, other: &Name, number: u64) -> Named
    ensures { (body : List ℕ) → IsName other.now → body ≡ number_line other.now number → SaysNumber name.now body result }
{
    if is_same(other, name) {
        Named::Number(number)
    } else {
        Named::OtherDatabase
    }
}
