//! A request that was read: the node is asked about it, and it is passed on or denied.
ghost use Rattle.std.specs.Prelude.{◌≡◌};
ghost use Rattle.lf_base.specs.declared.session_end.SessionEnd.TheVariants as ends;
ghost use Rattle.link_session.specs.Stands.{asker, AsksOn};
ghost use Rattle.http_exchange.specs.Exchange.{LinksTell};
ghost use Rattle.txid_proxy.specs.Passing.{passed};
ghost use Rattle.txid_proxy.specs.Requests.{HasRequest, IsWhole, Request};
ghost use Rattle.txid_proxy.specs.Session.{Denies, PassesOn, Serves, post};
ghost use Rattle.txid_proxy.specs.Wishes.{IsWish};

use crate::denial::Denial;
use crate::host::find_host;
use crate::leave::ask_leave;
use crate::means::Means;
use crate::passage::Passage;
use crate::passing::put_passed;
use crate::replies::deny;
use crate::returning::give_back;
use crate::target::{Parts, pass};
use crate::wish::Wish;
use lf_base::{Clock, Dialer, Handles, Link, Pause, SessionEnd};
use link_session::{Steps, Turns};
use node_core::{Answer, Ask};

/// A request that was read whole, and what came behind it.
#[derive(Clone, Copy)]
pub(crate) struct Whole<'a> {
    pub bytes: &'a [u8],
    /// How many bytes its head has.
    pub size: usize,
    /// And how many its body.
    pub length: u64,
    pub wish: Wish,
}

/// Serves a request, to the end of its session.
pub(crate) fn serve<
    R: Handles + Copy,
    S: Steps<Ask = Ask, Answer = Answer>,
    L: Link,
    T: Dialer,
    C: Clock,
    P: Pause,
>(
    means: Means<R>,
    steps: &mut S,
    link: &mut L,
    passage: &mut Passage<T, C, P>,
    whole: Whole<'_>,
    turns: &mut Turns,
) -> SessionEnd
    requires { IsWhole whole.bytes.now whole.size whole.length }
    ensures serves { (request : Request) → HasRequest whole.entry.bytes.now whole.entry.length request → IsWish request.head whole.entry.wish → Serves
        (asker S.Steps C.Clock steps.old passage.old.clock) (LinksTell T.L.given T.L.taken) request turns.old (post L.Link link.old (S.entries steps.old)
        (T.dials passage.old.dialer) (T.faults passage.old.dialer)) (post L.Link link.new (S.entries steps.new) (T.dials passage.new.dialer)
        (T.faults passage.new.dialer)) turns.new result }
    ensures same { AsksOn S.Steps C.Clock steps.old steps.new passage.old.clock passage.new.clock }
    ensures worn { result ≡ ends.Worn → S.is_worn steps.new }
{
    let leave = match ask_leave(
        steps,
        &mut passage.clock,
        &mut passage.pause,
        whole.wish,
        turns,
    ) {
        Ok(leave) => leave,
        Err(end) => return end,
    };
    match leave {
        None => pass_on(means, steps, link, passage, whole, turns),
        Some(why) => tell_denial(means, steps, link, passage, why, turns),
    }
}

/// Tells why a request is not passed on, and where the primary is.
fn tell_denial<
    R: Handles + Copy,
    S: Steps<Ask = Ask, Answer = Answer>,
    L: Link,
    T: Dialer,
    C: Clock,
    P: Pause,
>(
    means: Means<R>,
    steps: &mut S,
    link: &mut L,
    passage: &mut Passage<T, C, P>,
    why: Denial,
    turns: &mut Turns,
) -> SessionEnd
    ensures denies { Denies (asker S.Steps C.Clock steps.old passage.old.clock) why turns.old (post L.Link link.old (S.entries steps.old)
        (T.dials passage.old.dialer) (T.faults passage.old.dialer)) (post L.Link link.new (S.entries steps.new) (T.dials passage.new.dialer)
        (T.faults passage.new.dialer)) turns.new result }
    ensures undialed { passage.new.dialer ≡ passage.old.dialer }
    ensures same { AsksOn S.Steps C.Clock steps.old steps.new passage.old.clock passage.new.clock }
    ensures worn { result ≡ ends.Worn → S.is_worn steps.new }
{
    match find_host(means.alloc, steps, &mut passage.clock, turns) {
        Ok(host) => deny(means.alloc, link, why, &host, turns),
        Err(end) => end,
    }
}

/// Passes a request on by one dial, and gives the reply back.
fn pass_on<
    R: Handles + Copy,
    S: Steps<Ask = Ask, Answer = Answer>,
    L: Link,
    T: Dialer,
    C: Clock,
    P: Pause,
>(
    means: Means<R>,
    steps: &mut S,
    link: &mut L,
    passage: &mut Passage<T, C, P>,
    whole: Whole<'_>,
    turns: &mut Turns,
) -> SessionEnd
    requires { IsWhole whole.bytes.now whole.size whole.length }
    ensures passes { (request : Request) → HasRequest whole.entry.bytes.now whole.entry.length request → PassesOn
        (S.number steps.old) whole.entry.wish.reads (LinksTell T.L.given T.L.taken) (passed request.head request.body) (post L.Link link.old
        (S.entries steps.old) (T.dials passage.old.dialer) (T.faults passage.old.dialer)) (post L.Link link.new (S.entries steps.new)
        (T.dials passage.new.dialer) (T.faults passage.new.dialer)) turns.new result }
    ensures same { AsksOn S.Steps C.Clock steps.old steps.new passage.old.clock passage.new.clock }
    ensures worn { result ≡ ends.Worn → S.is_worn steps.new }
{
    let (head, behind) = whole.bytes.split_at(whole.size);
    let (body, _) = behind.split_at(whole.length as usize);
    let mut front = Vec::new(means.alloc);
    match put_passed(head, &mut front) {
        Ok(()) => {}
        Err(_) => return SessionEnd::NoMemory,
    }
    let text = Parts {
        front: front.as_slice(),
        back: body,
    };
    let came = pass(
        &means.rt,
        means.alloc,
        &mut passage.dialer,
        &passage.target,
        text,
        turns,
    );
    give_back(means.alloc, steps, link, came, whole.wish.reads, turns)
}
