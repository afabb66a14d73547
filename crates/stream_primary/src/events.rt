//! `GET /events`: the transactions of the database and who its primary is, to a reader, as they come.
ghost use Rattle.std.specs.Prelude.{◌≡◌, ◌++◌, length, None, Err, IfErr, IfOk, OnOk, OnErr};
ghost use Rattle.std.specs.Io.KnownBytes.{Keeps};
ghost use Rattle.lf_base.specs.Faults.{CountsFaults};
ghost use Rattle.lf_base.specs.declared.session_end.SessionEnd.TheVariants as ends;
ghost use Rattle.link_session.specs.Asking.{EndsAsking};
ghost use Rattle.link_session.specs.Spending.{AsksFor, Moves, MovesFor};
ghost use Rattle.link_session.specs.Sessions.{asker_of, stand_of, Borrows, SessionGoesOn};
ghost use Rattle.link_session.specs.Stands.{asker, AsksOn, Spends};
ghost use Rattle.node_core.specs.declared.answer.Answer.TheVariants as answers;
ghost use Rattle.stream_primary.specs.Events.{AsksWatch, EndsLines, EndsWatch, ServesEvents};
ghost use Rattle.stream_primary.specs.EventTelling.{last_lines, place_of, told_lines};
ghost use Rattle.stream_primary.specs.Refusing.{EndsReply};

use crate::event_lines::{put_init, put_later, stays, viewed_of};
use crate::replies::refuse_answer;
use crate::viewed::Viewed;
use lf_base::{Clock, Failed, Link, Name, NoMemory, Pause, Pos, SessionEnd};
use link_session::{Session, Steps, Turns, take_step, write_whole};
use node_core::{Answer, Ask, Files, NodeInfo};
use std::alloc::Global;
use stream_wire::write_typed_head;
use txn_log::Entry;

/// Serves a reader of events, to the end of its session: one Watch after another, each told before the
/// next is asked, and a nap behind each.
pub fn serve_events<S: Steps<Ask = Ask, Answer = Answer>, L: Link, C: Clock, P: Pause>(
    session: &mut Session<L, C, P>,
    steps: &mut S,
    name: &Name,
) -> SessionEnd
    ensures serves { ServesEvents (asker_of S.Steps C.Clock session.old steps.old) name.now (stand_of S.Steps L.Link session.old steps.old)
        (stand_of S.Steps L.Link session.new steps.new) session.new.turns result }
    ensures left { Keeps (L.left session.old.link.now) (L.left session.new.link.now) }
    ensures same { SessionGoesOn S.Steps C.Clock session.old session.new steps.old steps.new }
    ensures spent { Spends {T = Unit {0}} session.old.turns (stand_of S.Steps L.Link session.old steps.old) session.new.turns (stand_of S.Steps L.Link session.new steps.new) (Err result) }
    ensures worn { result ≡ ends.Worn → S.is_worn steps.new }
{
    let mut text = Vec::new(session.alloc);
    let mut told: Option<Viewed> = None;
    'watches: loop {
        match watch(session, steps, name, &told, &mut text) {
            Ok(next) => told = next,
            Err(end) => return end,
        }
    }
}

/// Asks one Watch and tells its answer, and answers what the reader was told then. A reader that was told
/// something is looked for first.
///
/// Closed where the Watch was refused, or the reader can't be brought on; WriteFault also where the
/// reader is gone.
fn watch<S: Steps<Ask = Ask, Answer = Answer>, L: Link, C: Clock, P: Pause>(
    session: &mut Session<L, C, P>,
    steps: &mut S,
    name: &Name,
    told: &Option<Viewed>,
    text: &mut Vec<u8>,
) -> Result<Option<Viewed>, SessionEnd>
    ensures round { EndsWatch (asker_of S.Steps C.Clock session.old steps.old) name.now told.now (stand_of S.Steps L.Link session.old steps.old).place
        (stand_of S.Steps L.Link session.new steps.new).place (L.faults session.old.link.now) (L.faults session.new.link.now) session.new.turns result }
    ensures left { Keeps (L.left session.old.link.now) (L.left session.new.link.now) }
    ensures same { SessionGoesOn S.Steps C.Clock session.old session.new steps.old steps.new }
    ensures spent { Spends session.old.turns (stand_of S.Steps L.Link session.old steps.old) session.new.turns (stand_of S.Steps L.Link session.new steps.new) result }
    ensures worn { IfErr result (λ end. end ≡ ends.Worn → S.is_worn steps.new) }
{
    match look(session.link, told) {
        Ok(()) => watch_and_tell(session, steps, name, told, text),
        Err(_) => Err(SessionEnd::WriteFault),
    }
}

/// Looks for a reader that was told something, by a write of no bytes, and takes no turn.
fn look<L: Link>(link: &mut L, told: &Option<Viewed>) -> Result<(), Failed>
    ensures left { Keeps (L.left link.old) (L.left link.new) }
    ensures taken { Keeps (L.taken link.old) (L.taken link.new) }
    ensures moves { Moves 0 (L.moves link.old) 0 (L.moves link.new) }
    ensures cause { CountsFaults (L.faults link.old) (L.faults link.new) result }
    ensures unmoved { told.now ≡ None → link.new ≡ link.old }
{
    match told {
        None => Ok(()),
        Some(_) => match link.write(b"") {
            Ok(_) => Ok(()),
            Err(failed) => Err(failed),
        },
    }
}

/// Asks one Watch and tells its answer.
fn watch_and_tell<S: Steps<Ask = Ask, Answer = Answer>, L: Link, C: Clock, P: Pause>(
    session: &mut Session<L, C, P>,
    steps: &mut S,
    name: &Name,
    told: &Option<Viewed>,
    text: &mut Vec<u8>,
) -> Result<Option<Viewed>, SessionEnd>
    ensures round { EndsWatch (asker_of S.Steps C.Clock session.old steps.old) name.now told.now (stand_of S.Steps L.Link session.old steps.old).place
        (stand_of S.Steps L.Link session.new steps.new).place (L.faults session.old.link.now) (L.faults session.new.link.now) session.new.turns result }
    ensures left { Keeps (L.left session.old.link.now) (L.left session.new.link.now) }
    ensures same { SessionGoesOn S.Steps C.Clock session.old session.new steps.old steps.new }
    ensures spent { Spends session.old.turns (stand_of S.Steps L.Link session.old steps.old) session.new.turns (stand_of S.Steps L.Link session.new steps.new) result }
    ensures worn { IfErr result (λ end. end ≡ ends.Worn → S.is_worn steps.new) }
{
    match ask_watch(steps, session.clock, told, &mut session.turns) {
        Ok(answer) => tell_answer(session, name, told, &answer, text),
        Err(end) => Err(end),
    }
}

/// Asks which files lie behind the place of a reader that was told this. It is a turn.
fn ask_watch<S: Steps<Ask = Ask, Answer = Answer>, C: Clock>(
    steps: &mut S,
    clock: &mut C,
    told: &Option<Viewed>,
    turns: &mut Turns,
) -> Result<Answer, SessionEnd>
    ensures asked { IfOk result (λ answer. AsksWatch (asker S.Steps C.Clock steps.old clock.old) told.now answer (S.entries steps.old) (S.entries steps.new)) }
    ensures still { OnErr result (S.entries steps.new ≡ S.entries steps.old) }
    ensures same { AsksOn S.Steps C.Clock steps.old steps.new clock.old clock.new }
    ensures spent { AsksFor result turns.old (length (S.entries steps.old)) turns.new (length (S.entries steps.new)) }
    ensures cause { EndsAsking (S.is_worn steps.new) turns.new result }
{
    let ask = Ask::Watch {
        now: clock.now_ms(),
        pos: place_of(told),
    };
    take_step(steps, &ask, turns)
}

/// Where a reader that was told this is asked for.
fn place_of(told: &Option<Viewed>) -> Pos
    ensures { result ≡ place_of told.now }
{
    match told {
        None => Pos { txid: 0, sum: 0 },
        Some(viewed) => viewed.pos,
    }
}

/// Tells the reader the answer, and naps where it goes on. Nothing is written where memory runs out.
fn tell_answer<L: Link, C, P: Pause>(
    session: &mut Session<L, C, P>,
    name: &Name,
    told: &Option<Viewed>,
    answer: &Answer,
    text: &mut Vec<u8>,
) -> Result<Option<Viewed>, SessionEnd>
    ensures sent { EndsLines name.now told.now answer.now (L.taken session.old.link.now) (L.taken session.new.link.now)
        (L.faults session.old.link.now) (L.faults session.new.link.now) session.new.turns result }
    ensures left { Keeps (L.left session.old.link.now) (L.left session.new.link.now) }
    ensures spent { MovesFor result session.old.turns (L.moves session.old.link.now) session.new.turns (L.moves session.new.link.now) }
    ensures borrows { Borrows session.old session.new }
    ensures clock { session.new.clock ≡ session.old.clock }
{
    match answer {
        Answer::Watched { info, files } => tell(session, name, told, info, files, text),
        _ => Err(end_events(
            session.alloc,
            session.link,
            told,
            answer,
            &mut session.turns,
        )),
    }
}

/// Tells the reader these files.
fn tell<L: Link, C, P: Pause>(
    session: &mut Session<L, C, P>,
    name: &Name,
    told: &Option<Viewed>,
    info: &NodeInfo,
    files: &Files,
    text: &mut Vec<u8>,
) -> Result<Option<Viewed>, SessionEnd>
    ensures sent { EndsLines name.now told.now (answers.Watched info.now files.now) (L.taken session.old.link.now) (L.taken session.new.link.now)
        (L.faults session.old.link.now) (L.faults session.new.link.now) session.new.turns result }
    ensures left { Keeps (L.left session.old.link.now) (L.left session.new.link.now) }
    ensures spent { MovesFor result session.old.turns (L.moves session.old.link.now) session.new.turns (L.moves session.new.link.now) }
    ensures borrows { Borrows session.old session.new }
    ensures clock { session.new.clock ≡ session.old.clock }
{
    match put_lines(session.alloc, name, told, info, files.as_slice(), text) {
        Ok(()) => {}
        Err(_) => return Err(SessionEnd::NoMemory),
    }
    let next = match viewed_of(told, info, files.as_slice()) {
        Ok(next) => next,
        Err(_) => return Err(SessionEnd::NoMemory),
    };
    match write_whole(session.link, text.as_slice(), &mut session.turns) {
        Ok(()) => {}
        Err(end) => return Err(end),
    }
    if !stays(told, info, files.as_slice()) {
        return Err(SessionEnd::Closed);
    }
    session.pause.nap();
    Ok(Some(next))
}

/// Puts the lines in place of what is in the buffer.
fn put_lines(
    alloc: Global,
    name: &Name,
    told: &Option<Viewed>,
    info: &NodeInfo,
    files: &[Entry],
    text: &mut Vec<u8>,
) -> Result<(), NoMemory>
    ensures { OnOk result (text.new.items ≡ told_lines name.now told.now info.now files.now) }
{
    text.clear();
    match told {
        None => {
            write_typed_head(alloc, 200, b"application/x-ndjson", None, text)?;
            put_init(alloc, info, text)
        }
        Some(viewed) => put_later(alloc, name, viewed, info, files, text),
    }
}

/// Ends it with a reply, where nothing was told.
fn end_events<L: Link>(
    alloc: Global,
    link: &mut L,
    told: &Option<Viewed>,
    answer: &Answer,
    turns: &mut Turns,
) -> SessionEnd
    ensures end { EndsReply (last_lines told.now answer.now) (L.taken link.old) (L.taken link.new) (L.faults link.old) (L.faults link.new) turns.new result }
    ensures left { Keeps (L.left link.old) (L.left link.new) }
    ensures spent { MovesFor {T = Unit {0}} (Err result) turns.old (L.moves link.old) turns.new (L.moves link.new) }
{
    match told {
        None => refuse_answer(alloc, link, answer, turns),
        Some(_) => SessionEnd::Closed,
    }
}
