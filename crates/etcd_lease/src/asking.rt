//! Endpoints asked: one, and one after another.
ghost use Rattle.std.specs.Prelude.{◌<◌, length, Ok, IfOk, IfSome};
ghost use Rattle.http_exchange.specs.Exchange.{DialsOnce, FaultsBy, LinksTell, TurnsBy};
ghost use Rattle.lease_link.specs.Asking.{dial_stand};
ghost use Rattle.etcd_lease.specs.Asking.{AsksAt, AsksEach, Hears, letter_to};
ghost use Rattle.etcd_wire.specs.Calls.{path_of};
ghost use Rattle.etcd_lease.specs.Turns.{TurnsOf};

use crate::found::Found;
use crate::means::Means;
use etcd_wire::{Call, Said, read_said};
use http_exchange::{Letter, Told, Untold, exchange_text};
use lease_link::Unlearned;
use lf_base::{Dialer, Handles, Text};
use link_session::Turns;
use std::alloc::Global;

/// The most bytes of a reply's body.
const REPLY_MAX: u64 = 65_536;

/// The status of an answer.
const OK: u16 = 200;

/// A call, and its body.
#[derive(Clone, Copy)]
pub(crate) struct Asking<'a> {
    pub call: &'a Call,
    pub body: &'a [u8],
}

/// Asks these endpoints in turn, until one answers. None where none does.
pub(crate) fn ask_each<R: Handles, T: Dialer>(
    means: &Means<'_, R>,
    dialer: &mut T,
    endpoints: &[Text],
    asking: Asking<'_>,
    turns: &mut Turns,
) -> Result<Option<Found>, Unlearned>
    ensures asks { AsksEach (LinksTell T.L.given T.L.taken) asking.entry.call.now asking.entry.body.now endpoints.now (dial_stand (T.dials dialer.old) (T.faults dialer.old))
        (dial_stand (T.dials dialer.new) (T.faults dialer.new)) result }
    ensures before { IfOk result (λ found. IfSome found (λ f. f.before < length endpoints.now)) }
    ensures turns { TurnsOf turns.old turns.new result }
{
    let [first, rest @ ..] = endpoints else {
        return Ok(None);
    };
    match ask_at(means, dialer, first, asking, turns) {
        Ok(None) => match ask_each(means, dialer, rest, asking, turns) {
            Ok(Some(found)) => Ok(Some(Found {
                said: found.said,
                before: found.before + 1,
            })),
            Ok(None) => Ok(None),
            Err(why) => Err(why),
        },
        Ok(Some(said)) => Ok(Some(Found { said, before: 0 })),
        Err(why) => Err(why),
    }
}

/// Asks one endpoint, by one dial. None where it gives no whole answer.
fn ask_at<R: Handles, T: Dialer>(
    means: &Means<'_, R>,
    dialer: &mut T,
    address: &Text,
    asking: Asking<'_>,
    turns: &mut Turns,
) -> Result<Option<Said>, Unlearned>
    ensures asks { AsksAt (LinksTell T.L.given T.L.taken) asking.entry.call.now asking.entry.body.now address.now (dial_stand (T.dials dialer.old) (T.faults dialer.old))
        (dial_stand (T.dials dialer.new) (T.faults dialer.new)) result }
    ensures turns { TurnsOf turns.old turns.new result }
{
    let told = post(means, dialer, address, asking, turns);
    hear(means.alloc, asking.call, told)
}

/// The exchange.
fn post<R: Handles, T: Dialer>(
    means: &Means<'_, R>,
    dialer: &mut T,
    address: &Text,
    asking: Asking<'_>,
    turns: &mut Turns,
) -> Result<Told, Untold>
    ensures dial { DialsOnce (letter_to address.now (path_of asking.entry.call.now) asking.entry.body.now) (LinksTell T.L.given T.L.taken) (T.dials dialer.old) (T.dials dialer.new) result }
    ensures fault { FaultsBy (T.faults dialer.old) (T.faults dialer.new) result }
    ensures turns { TurnsBy turns.old turns.new result }
{
    let letter = Letter {
        method: b"POST",
        path: asking.call.path(),
        body: asking.body,
        limit: REPLY_MAX,
    };
    exchange_text(means.rt, means.alloc, dialer, address, letter, turns)
}

/// What is heard of an exchange.
fn hear(alloc: Global, call: &Call, told: Result<Told, Untold>) -> Result<Option<Said>, Unlearned>
    ensures { Hears call.now told result }
{
    match told {
        Ok(told) => hear_told(alloc, call, &told),
        Err(Untold::Turns) => Err(Unlearned::Turns),
        Err(Untold::NoMemory) => Err(Unlearned::NoMemory),
        Err(Untold::Fault | Untold::Unfit | Untold::TooLong) => Ok(None),
    }
}

fn hear_told(alloc: Global, call: &Call, told: &Told) -> Result<Option<Said>, Unlearned>
    ensures { Hears call.now (Ok told.now) result }
{
    if told.status != OK {
        return Ok(None);
    }
    match read_said(alloc, call, told.body.as_slice()) {
        Ok(said) => Ok(said),
        Err(_) => Err(Unlearned::NoMemory),
    }
}
