//! `GET /info` and `GET /metrics`: what the node is, and its figures.
ghost use Rattle.std.specs.Prelude.{◌≡◌, length, Err, IfOk, OnErr};
ghost use Rattle.std.specs.Io.KnownBytes.{Keeps};
ghost use Rattle.lf_base.specs.declared.session_end.SessionEnd.TheVariants as ends;
ghost use Rattle.link_session.specs.Asking.{EndsAsking};
ghost use Rattle.link_session.specs.Spending.{AsksFor, MovesFor};
ghost use Rattle.link_session.specs.Sessions.{asker_of, stand_of, SessionGoesOn};
ghost use Rattle.link_session.specs.Stands.{asker, AsksOn, Spends};
ghost use Rattle.http_exchange.specs.Writing.{typed_reply};
ghost use Rattle.stream_primary.specs.InfoText.{info_text, info_type};
ghost use Rattle.stream_primary.specs.MetricsText.{metrics_text, metrics_type};
ghost use Rattle.stream_primary.specs.Refusing.{EndsReply};
ghost use Rattle.stream_primary.specs.WatchCalls.{AsksInfo, ServesInfo, ServesMetrics, TellsOf, info_reply, metrics_reply};

use crate::info_text::{info_type, put_info};
use crate::metrics_text::{metrics_type, put_metrics};
use crate::replies::refuse_answer;
use http_exchange::write_typed_reply;
use lf_base::{Clock, Link, Name, SessionEnd};
use link_session::{Session, Steps, Turns, take_step};
use node_core::{Answer, Ask, NodeInfo};
use node_figures::{Figures, Gauge};
use std::alloc::Global;

/// Serves a request for what the node is, to the end of its session.
pub fn serve_info<S: Steps<Ask = Ask, Answer = Answer>, L: Link, C: Clock, P, G: Gauge>(
    session: &mut Session<L, C, P>,
    steps: &mut S,
    name: &Name,
    gauge: &G,
) -> SessionEnd
    ensures serves { ServesInfo (asker_of S.Steps C.Clock session.old steps.old) name.now (stand_of S.Steps L.Link session.old steps.old)
        (stand_of S.Steps L.Link session.new steps.new) session.new.turns result }
    ensures left { Keeps (L.left session.old.link.now) (L.left session.new.link.now) }
    ensures same { SessionGoesOn S.Steps C.Clock session.old session.new steps.old steps.new }
    ensures spent { Spends {T = Unit {0}} session.old.turns (stand_of S.Steps L.Link session.old steps.old) session.new.turns (stand_of S.Steps L.Link session.new steps.new) (Err result) }
    ensures worn { result ≡ ends.Worn → S.is_worn steps.new }
{
    match gauge.read(session.alloc) {
        Ok(figures) => inform(session, steps, name, &figures),
        Err(_) => SessionEnd::NoMemory,
    }
}

/// Serves a request for its metrics, to the end of its session.
pub fn serve_metrics<S: Steps<Ask = Ask, Answer = Answer>, L: Link, C: Clock, P, G: Gauge>(
    session: &mut Session<L, C, P>,
    steps: &mut S,
    gauge: &G,
) -> SessionEnd
    ensures serves { ServesMetrics (asker_of S.Steps C.Clock session.old steps.old) (stand_of S.Steps L.Link session.old steps.old)
        (stand_of S.Steps L.Link session.new steps.new) session.new.turns result }
    ensures left { Keeps (L.left session.old.link.now) (L.left session.new.link.now) }
    ensures same { SessionGoesOn S.Steps C.Clock session.old session.new steps.old steps.new }
    ensures spent { Spends {T = Unit {0}} session.old.turns (stand_of S.Steps L.Link session.old steps.old) session.new.turns (stand_of S.Steps L.Link session.new steps.new) (Err result) }
    ensures worn { result ≡ ends.Worn → S.is_worn steps.new }
{
    match gauge.read(session.alloc) {
        Ok(figures) => measure(session, steps, &figures),
        Err(_) => SessionEnd::NoMemory,
    }
}

/// Asks what the node is, and ends the session with that and these figures as JSON.
fn inform<S: Steps<Ask = Ask, Answer = Answer>, L: Link, C: Clock, P>(
    session: &mut Session<L, C, P>,
    steps: &mut S,
    name: &Name,
    figures: &Figures,
) -> SessionEnd
    ensures tells { TellsOf (asker_of S.Steps C.Clock session.old steps.old) (info_reply name.now figures.now)
        (stand_of S.Steps L.Link session.old steps.old) (stand_of S.Steps L.Link session.new steps.new) session.new.turns result }
    ensures left { Keeps (L.left session.old.link.now) (L.left session.new.link.now) }
    ensures same { SessionGoesOn S.Steps C.Clock session.old session.new steps.old steps.new }
    ensures spent { Spends {T = Unit {0}} session.old.turns (stand_of S.Steps L.Link session.old steps.old) session.new.turns (stand_of S.Steps L.Link session.new steps.new) (Err result) }
    ensures worn { result ≡ ends.Worn → S.is_worn steps.new }
{
    match ask_info(steps, session.clock, &mut session.turns) {
        Ok(answer) => reply_info(
            session.alloc,
            session.link,
            name,
            figures,
            &answer,
            &mut session.turns,
        ),
        Err(end) => end,
    }
}

/// Asks what the node is, and ends the session with its metrics.
fn measure<S: Steps<Ask = Ask, Answer = Answer>, L: Link, C: Clock, P>(
    session: &mut Session<L, C, P>,
    steps: &mut S,
    figures: &Figures,
) -> SessionEnd
    ensures tells { TellsOf (asker_of S.Steps C.Clock session.old steps.old) (metrics_reply figures.now)
        (stand_of S.Steps L.Link session.old steps.old) (stand_of S.Steps L.Link session.new steps.new) session.new.turns result }
    ensures left { Keeps (L.left session.old.link.now) (L.left session.new.link.now) }
    ensures same { SessionGoesOn S.Steps C.Clock session.old session.new steps.old steps.new }
    ensures spent { Spends {T = Unit {0}} session.old.turns (stand_of S.Steps L.Link session.old steps.old) session.new.turns (stand_of S.Steps L.Link session.new steps.new) (Err result) }
    ensures worn { result ≡ ends.Worn → S.is_worn steps.new }
{
    match ask_info(steps, session.clock, &mut session.turns) {
        Ok(answer) => {
            reply_metrics(
                session.alloc,
                session.link,
                figures,
                &answer,
                &mut session.turns,
            )
        }
        Err(end) => end,
    }
}

/// Asks what the node is. It is a turn.
fn ask_info<S: Steps<Ask = Ask, Answer = Answer>, C: Clock>(
    steps: &mut S,
    clock: &mut C,
    turns: &mut Turns,
) -> Result<Answer, SessionEnd>
    ensures asked { IfOk result (AsksInfo (asker S.Steps C.Clock steps.old clock.old) (S.entries steps.old) (S.entries steps.new)) }
    ensures still { OnErr result (S.entries steps.new ≡ S.entries steps.old) }
    ensures same { AsksOn S.Steps C.Clock steps.old steps.new clock.old clock.new }
    ensures spent { AsksFor result turns.old (length (S.entries steps.old)) turns.new (length (S.entries steps.new)) }
    ensures cause { EndsAsking (S.is_worn steps.new) turns.new result }
{
    let ask = Ask::Info {
        now: clock.now_ms(),
    };
    take_step(steps, &ask, turns)
}

/// Answers with what the node is, or with its refusal.
fn reply_info<L: Link>(
    alloc: Global,
    link: &mut L,
    name: &Name,
    figures: &Figures,
    answer: &Answer,
    turns: &mut Turns,
) -> SessionEnd
    ensures end { EndsReply (info_reply name.now figures.now answer.now) (L.taken link.old) (L.taken link.new) (L.faults link.old) (L.faults link.new) turns.new result }
    ensures left { Keeps (L.left link.old) (L.left link.new) }
    ensures spent { MovesFor {T = Unit {0}} (Err result) turns.old (L.moves link.old) turns.new (L.moves link.new) }
{
    match answer {
        Answer::Info(info) => say_info(alloc, link, name, info, figures, turns),
        _ => refuse_answer(alloc, link, answer, turns),
    }
}

fn say_info<L: Link>(
    alloc: Global,
    link: &mut L,
    name: &Name,
    info: &NodeInfo,
    figures: &Figures,
    turns: &mut Turns,
) -> SessionEnd
    ensures end { EndsReply (typed_reply info_type (info_text name.now info.now figures.now)) (L.taken link.old) (L.taken link.new) (L.faults link.old) (L.faults link.new) turns.new result }
    ensures left { Keeps (L.left link.old) (L.left link.new) }
    ensures spent { MovesFor {T = Unit {0}} (Err result) turns.old (L.moves link.old) turns.new (L.moves link.new) }
{
    let mut text = Vec::new(alloc);
    match put_info(alloc, name, info, figures, &mut text) {
        Ok(()) => say_typed(alloc, link, info_type(), text.as_slice(), turns),
        Err(_) => SessionEnd::NoMemory,
    }
}

/// Answers with its metrics, or with its refusal.
fn reply_metrics<L: Link>(
    alloc: Global,
    link: &mut L,
    figures: &Figures,
    answer: &Answer,
    turns: &mut Turns,
) -> SessionEnd
    ensures end { EndsReply (metrics_reply figures.now answer.now) (L.taken link.old) (L.taken link.new) (L.faults link.old) (L.faults link.new) turns.new result }
    ensures left { Keeps (L.left link.old) (L.left link.new) }
    ensures spent { MovesFor {T = Unit {0}} (Err result) turns.old (L.moves link.old) turns.new (L.moves link.new) }
{
    match answer {
        Answer::Info(info) => say_metrics(alloc, link, info, figures, turns),
        _ => refuse_answer(alloc, link, answer, turns),
    }
}

fn say_metrics<L: Link>(
    alloc: Global,
    link: &mut L,
    info: &NodeInfo,
    figures: &Figures,
    turns: &mut Turns,
) -> SessionEnd
    ensures end { EndsReply (typed_reply metrics_type (metrics_text info.now figures.now)) (L.taken link.old) (L.taken link.new) (L.faults link.old) (L.faults link.new) turns.new result }
    ensures left { Keeps (L.left link.old) (L.left link.new) }
    ensures spent { MovesFor {T = Unit {0}} (Err result) turns.old (L.moves link.old) turns.new (L.moves link.new) }
{
    let mut text = Vec::new(alloc);
    match put_metrics(alloc, info, figures, &mut text) {
        Ok(()) => say_typed(alloc, link, metrics_type(), text.as_slice(), turns),
        Err(_) => SessionEnd::NoMemory,
    }
}

/// Writes a reply of a media type, which ends the session.
fn say_typed<L: Link>(
    alloc: Global,
    link: &mut L,
    media_type: &[u8],
    body: &[u8],
    turns: &mut Turns,
) -> SessionEnd
    ensures end { EndsReply (typed_reply media_type.now body.now) (L.taken link.old) (L.taken link.new) (L.faults link.old) (L.faults link.new) turns.new result }
    ensures left { Keeps (L.left link.old) (L.left link.new) }
    ensures spent { MovesFor {T = Unit {0}} (Err result) turns.old (L.moves link.old) turns.new (L.moves link.new) }
{
    match write_typed_reply(alloc, link, media_type, body, turns) {
        Ok(()) => SessionEnd::Closed,
        Err(end) => end,
    }
}
