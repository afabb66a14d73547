//! A session over one that asks steps: one request, and one reply.
ghost use Rattle.std.specs.Prelude.{◌≡◌};
ghost use Rattle.lf_base.specs.declared.session_end.SessionEnd.TheVariants as ends;
ghost use Rattle.link_session.specs.Stands.{asker, AsksOn};
ghost use Rattle.http_exchange.specs.Exchange.{LinksTell};
ghost use Rattle.txid_proxy.specs.Session.{Ends, EndsUnread, IsSession, post};

use crate::asked::Asked;
use crate::means::Means;
use crate::passage::Passage;
use crate::replies::refuse;
use crate::requests::read_asked;
use crate::serving::{Whole, serve};
use crate::wish::wish_of;
use lf_base::{Clock, Dialer, Handles, Link, Pause, SessionEnd};
use link_session::{Steps, Turns, Unread};
use node_core::{Answer, Ask};
use std::alloc::Global;

/// The status of an input that begins no request.
const BAD_REQUEST: u16 = 400;

/// The status of a request whose body is too long.
const TOO_LARGE: u16 = 413;

/// Serves one request, to the end of its session.
pub fn pass_link<
    R: Handles + Copy,
    S: Steps<Ask = Ask, Answer = Answer>,
    L: Link,
    T: Dialer,
    C: Clock,
    P: Pause,
>(rt: R, alloc: Global, steps: &mut S, link: &mut L, passage: &mut Passage<T, C, P>) -> SessionEnd
    ensures session { IsSession (asker S.Steps C.Clock steps.old passage.old.clock) (LinksTell T.L.given T.L.taken) passage.old.budget
        (post L.Link link.old (S.entries steps.old) (T.dials passage.old.dialer) (T.faults passage.old.dialer)) (post L.Link link.new
        (S.entries steps.new) (T.dials passage.new.dialer) (T.faults passage.new.dialer)) result }
    ensures same { AsksOn S.Steps C.Clock steps.old steps.new passage.old.clock passage.new.clock }
    ensures worn { result ≡ ends.Worn → S.is_worn steps.new }
{
    let mut turns = Turns::new(passage.budget);
    converse(Means { rt, alloc }, steps, link, passage, &mut turns)
}

/// Reads a request and serves it.
fn converse<
    R: Handles + Copy,
    S: Steps<Ask = Ask, Answer = Answer>,
    L: Link,
    T: Dialer,
    C: Clock,
    P: Pause,
>(
    means: Means<R>,
    steps: &mut S,
    link: &mut L,
    passage: &mut Passage<T, C, P>,
    turns: &mut Turns,
) -> SessionEnd
    ensures ends { Ends (asker S.Steps C.Clock steps.old passage.old.clock) (LinksTell T.L.given T.L.taken) turns.old (post L.Link link.old
        (S.entries steps.old) (T.dials passage.old.dialer) (T.faults passage.old.dialer)) (post L.Link link.new (S.entries steps.new)
        (T.dials passage.new.dialer) (T.faults passage.new.dialer)) turns.new result }
    ensures same { AsksOn S.Steps C.Clock steps.old steps.new passage.old.clock passage.new.clock }
    ensures worn { result ≡ ends.Worn → S.is_worn steps.new }
{
    let mut held = Vec::new(means.alloc);
    let asked = match read_asked(means.alloc, link, &mut held, turns) {
        Ok(asked) => asked,
        Err(why) => return end_unread(means.alloc, link, why, turns),
    };
    match asked {
        Asked::Whole { size, length } => {
            let bytes = held.as_slice();
            let wish = wish_of(bytes);
            let whole = Whole {
                bytes,
                size,
                length,
                wish,
            };
            serve(means, steps, link, passage, whole, turns)
        }
        Asked::TooLong => refuse(means.alloc, link, TOO_LARGE, turns),
        Asked::Part => unreachable!(),
    }
}

/// Ends a session of which no request was read, with 400 where its input begins none.
fn end_unread<L: Link>(alloc: Global, link: &mut L, why: Unread, turns: &mut Turns) -> SessionEnd
    ensures { EndsUnread L.Link why link.old link.new turns.old turns.new result }
{
    match why {
        Unread::Broken => refuse(alloc, link, BAD_REQUEST, turns),
        _ => why.end(),
    }
}
