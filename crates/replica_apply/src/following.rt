//! A stream, followed by one that asks steps.
ghost use Rattle.std.specs.Prelude.{◌≡◌, ◌<◌, [], true, Err, IfErr, IfOk, OnOk};
ghost use Rattle.std.specs.Io.KnownBytes.{Keeps};
ghost use Rattle.link_session.specs.declared.stage.Stage.TheVariants as stages;
ghost use Rattle.link_session.specs.Reach.{reach};
ghost use Rattle.link_session.specs.Reading.{coming};
ghost use Rattle.link_session.specs.Sessions.{asker_of, stand_holding, stand_of, SessionGoesOn};
ghost use Rattle.link_session.specs.Spending.{MovesFor};
ghost use Rattle.link_session.specs.Unread.{ended, LeavesUnread};
ghost use Rattle.stream_wire.specs.Head.{NeverTakesResponse};
ghost use Rattle.replica_apply.specs.declared.follow_end.FollowEnd.TheVariants as ends;
ghost use Rattle.replica_apply.specs.Following.{frame_limit, Ends, EndsAnswer, EndsFrames, Follows, HasReadHead, IsNext, StopsAt, Uses};
ghost use Rattle.replica_apply.specs.Heads.{IsHeadPart};

use crate::asking::ask_where;
use crate::ends::{end_of, unsent_by};
use crate::follow_end::FollowEnd;
use crate::frames::follow_frame;
use crate::head_feed::HeadFeed;
use crate::requesting::send_request;
use lf_base::{Clock, Link, Name, Pause};
use link_session::{Inbox, Session, Steps, Turns, Unread};
use node_core::{Answer, Ask};
use stream_wire::FrameFeed;

/// The most bytes of a frame's body.
const FRAME_MAX: u64 = 2_147_483_648;

/// The status of a stream.
const OK: u16 = 200;

/// Follows the stream of another node over the link, to its end. Its request says what the last file of
/// the node's log is, or that its position is unknown.
pub fn follow_link<S: Steps<Ask = Ask, Answer = Answer>, L: Link, C: Clock, P: Pause>(
    session: &mut Session<L, C, P>,
    steps: &mut S,
    name: &Name,
    unknown: bool,
) -> FollowEnd
    ensures follows { Follows (asker_of S.Steps C.Clock session.old steps.old) name.now unknown session.old.turns
        (stand_of S.Steps L.Link session.old steps.old) (stand_of S.Steps L.Link session.new steps.new) result }
    ensures same { SessionGoesOn S.Steps C.Clock session.old session.new steps.old steps.new }
    ensures worn { result ≡ ends.Worn → S.is_worn steps.new }
{
    follow_all(session, steps, name, unknown)
}

/// Asks where the node stands, asks the other for the stream from there on, and follows it.
fn follow_all<S: Steps<Ask = Ask, Answer = Answer>, L: Link, C: Clock, P: Pause>(
    session: &mut Session<L, C, P>,
    steps: &mut S,
    name: &Name,
    unknown: bool,
) -> FollowEnd
    ensures ends { Ends (asker_of S.Steps C.Clock session.old steps.old) name.now unknown (stand_of S.Steps L.Link session.old steps.old)
        (stand_of S.Steps L.Link session.new steps.new) session.new.turns result }
    ensures same { SessionGoesOn S.Steps C.Clock session.old session.new steps.old steps.new }
    ensures spent { Uses {T = Unit {0}} session.old.turns (stand_of S.Steps L.Link session.old steps.old) session.new.turns (stand_of S.Steps L.Link session.new steps.new) (Err result) }
    ensures worn { result ≡ ends.Worn → S.is_worn steps.new }
{
    let here = match ask_where(steps, &mut session.turns) {
        Ok(here) => here,
        Err(end) => return end,
    };
    match send_request(
        session.alloc,
        session.link,
        name,
        here,
        unknown,
        &mut session.turns,
    ) {
        Ok(()) => {}
        Err(why) => return unsent_by(why),
    }
    follow_reply(session, steps, name)
}

/// Reads the head of the reply, and follows the frames behind it.
fn follow_reply<S: Steps<Ask = Ask, Answer = Answer>, L: Link, C: Clock, P: Pause>(
    session: &mut Session<L, C, P>,
    steps: &mut S,
    name: &Name,
) -> FollowEnd
    ensures answer { EndsAnswer (asker_of S.Steps C.Clock session.old steps.old) name.now (stand_of S.Steps L.Link session.old steps.old)
        (stand_of S.Steps L.Link session.new steps.new) session.new.turns result }
    ensures same { SessionGoesOn S.Steps C.Clock session.old session.new steps.old steps.new }
    ensures spent { Uses {T = Unit {0}} session.old.turns (stand_of S.Steps L.Link session.old steps.old) session.new.turns (stand_of S.Steps L.Link session.new steps.new) (Err result) }
    ensures worn { result ≡ ends.Worn → S.is_worn steps.new }
{
    let mut heads = match Inbox::new(session.alloc, HeadFeed::new(session.alloc)) {
        Ok(heads) => heads,
        Err(_) => return FollowEnd::NoMemory,
    };
    let status = match read_head(&mut heads, session.link, &mut session.turns) {
        Ok(status) => status,
        Err(why) => return end_of(why),
    };
    if status != OK {
        return FollowEnd::Status(status);
    }
    let mut frames = match FrameFeed::new(session.alloc, FRAME_MAX) {
        Ok(feed) => heads.change(feed),
        Err(_) => return FollowEnd::NoMemory,
    };
    follow_frames(session, steps, name, &mut frames)
}

/// Reads the head of the reply, and answers its status.
fn read_head<L: Link>(
    heads: &mut Inbox<HeadFeed>,
    link: &mut L,
    turns: &mut Turns,
) -> Result<u16, Unread>
    requires { heads.old.stage ≡ stages.Open }
    ensures head { IfOk result (λ status. HasReadHead status (coming heads.old (L.left link.old)) (coming heads.new (L.left link.new))) }
    ensures empty { OnOk result (heads.new.message ≡ []) }
    ensures taken { Keeps (L.taken link.old) (L.taken link.new) }
    ensures spent { MovesFor (ended result) turns.old (L.moves link.old) turns.new (L.moves link.new) }
    ensures cause { LeavesUnread true IsHeadPart NeverTakesResponse (coming heads.old (L.left link.old)) (L.left link.new) (L.faults link.old) (L.faults link.new) turns.new result }
{
    match heads.gather(link, turns) {
        Ok(()) => Ok(heads.next()),
        Err(why) => Err(why),
    }
}

/// Follows one frame after another. Each that is followed leaves fewer bytes within reach of the turns.
fn follow_frames<S: Steps<Ask = Ask, Answer = Answer>, L: Link, C: Clock, P: Pause>(
    session: &mut Session<L, C, P>,
    steps: &mut S,
    name: &Name,
    frames: &mut Inbox<FrameFeed>,
) -> FollowEnd
    requires { (frames.old.stage ≡ stages.Open) × (frames.old.limit ≡ frame_limit) }
    ensures frames { EndsFrames (asker_of S.Steps C.Clock session.old steps.old) name.now (stand_holding S.Steps L.Link frames.old session.old steps.old)
        (stand_of S.Steps L.Link session.new steps.new) session.new.turns result }
    ensures same { SessionGoesOn S.Steps C.Clock session.old session.new steps.old steps.new }
    ensures spent { Uses {T = Unit {0}} session.old.turns (stand_holding S.Steps L.Link frames.old session.old steps.old) session.new.turns
        (stand_of S.Steps L.Link session.new steps.new) (Err result) }
    ensures worn { result ≡ ends.Worn → S.is_worn steps.new }
{
    'frames: loop {
        match follow_next(session, steps, name, frames) {
            Ok(()) => {}
            Err(end) => return end,
        }
    }
}

/// Reads a frame and follows it.
fn follow_next<S: Steps<Ask = Ask, Answer = Answer>, L: Link, C: Clock, P: Pause>(
    session: &mut Session<L, C, P>,
    steps: &mut S,
    name: &Name,
    frames: &mut Inbox<FrameFeed>,
) -> Result<(), FollowEnd>
    requires { (frames.old.stage ≡ stages.Open) × (frames.old.limit ≡ frame_limit) }
    ensures next { OnOk result (IsNext (asker_of S.Steps C.Clock session.old steps.old) name.now (stand_holding S.Steps L.Link frames.old session.old steps.old).place
        (stand_holding S.Steps L.Link frames.new session.new steps.new).place × (L.faults session.new.link.now ≡ L.faults session.old.link.now)) }
    ensures between { OnOk result ((frames.new.stage ≡ stages.Open) × (frames.new.limit ≡ frame_limit)) }
    ensures stops { IfErr result (StopsAt (asker_of S.Steps C.Clock session.old steps.old) name.now (stand_holding S.Steps L.Link frames.old session.old steps.old).place
        (L.faults session.old.link.now) (stand_of S.Steps L.Link session.new steps.new) session.new.turns) }
    ensures within { OnOk result (reach frames.new session.new.turns < reach frames.old session.old.turns) }
    ensures same { SessionGoesOn S.Steps C.Clock session.old session.new steps.old steps.new }
    ensures spent { Uses session.old.turns (stand_of S.Steps L.Link session.old steps.old) session.new.turns (stand_of S.Steps L.Link session.new steps.new) result }
    ensures worn { IfErr result (λ end. end ≡ ends.Worn → S.is_worn steps.new) }
{
    match frames.gather(session.link, &mut session.turns) {
        Ok(()) => {}
        Err(why) => return Err(end_of(why)),
    }
    follow_frame(session, steps, name, frames.next())
}
