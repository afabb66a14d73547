//! The lease service of another node, asked by one exchange.
ghost use Rattle.std.specs.Prelude.{◌≡◌, IfOk};
ghost use Rattle.http_exchange.specs.Exchange.{DialsOnce, FaultsBy, LinksTell, TurnsBy};
ghost use Rattle.lease_link.specs.Asking.{Fits};
ghost use Rattle.lease_link.specs.Own.{AsksOwn, Hears, ask_text, request_with};

use crate::learned::Learned;
use crate::learning::learn;
use crate::service::Service;
use crate::unlearned::Unlearned;
use http_exchange::{Request, Told, Untold, exchange};
use lease_core::{LeaseAsk, write_ask};
use lf_base::{Dialer, Handles, NoMemory, Text};
use link_session::Turns;
use std::alloc::Global;
use stream_wire::Call;

/// The most bytes of a reply's body.
const REPLY_MAX: u64 = 65_536;

/// The lease service that is found at this address.
#[derive(Debug, Drop)]
pub struct OwnService {
    pub address: Text,
}

impl Service for OwnService {
    ghost serves = { λ own asked tell old new heard now. (now ≡ own) × AsksOwn tell own.address asked old new heard };

    fn ask<R: Handles, T: Dialer>(
        &mut self,
        rt: &R,
        alloc: Global,
        dialer: &mut T,
        asked: &LeaseAsk,
        turns: &mut Turns,
    ) -> Result<Learned, Unlearned> {
        let Ok(body) = body_of(alloc, asked) else {
            return Err(Unlearned::NoMemory);
        };
        let told = ask_service(rt, alloc, dialer, &self.address, body.as_slice(), turns);
        learn_from(alloc, asked, told)
    }
}

fn body_of(alloc: Global, asked: &LeaseAsk) -> Result<Vec<u8>, NoMemory>
    ensures { IfOk result (λ body. body.items ≡ ask_text asked.now) }
{
    let mut body = Vec::new(alloc);
    write_ask(alloc, asked, &mut body)?;
    Ok(body)
}

/// Asks the service once.
fn ask_service<R: Handles, T: Dialer>(
    rt: &R,
    alloc: Global,
    dialer: &mut T,
    service: &Text,
    body: &[u8],
    turns: &mut Turns,
) -> Result<Told, Untold>
    ensures dial { DialsOnce (request_with service.now body.now) (LinksTell T.L.given T.L.taken) (T.dials dialer.old) (T.dials dialer.new) result }
    ensures fault { FaultsBy (T.faults dialer.old) (T.faults dialer.new) result }
    ensures turns { TurnsBy turns.old turns.new result }
{
    let request = Request {
        call: &Call::Lease,
        host: service,
        front: body,
        back: b"",
        sized: false,
    };
    exchange(rt, alloc, dialer, service, request, REPLY_MAX, turns)
}

/// What is learned of an exchange.
fn learn_from(
    alloc: Global,
    asked: &LeaseAsk,
    told: Result<Told, Untold>,
) -> Result<Learned, Unlearned>
    ensures hears { Hears asked.now told result }
    ensures fits { IfOk result (Fits asked.now) }
{
    match told {
        Ok(told) => match learn(alloc, asked, told.status, told.body.as_slice()) {
            Ok(learned) => Ok(learned),
            Err(_) => Err(Unlearned::NoMemory),
        },
        Err(Untold::Turns) => Err(Unlearned::Turns),
        Err(Untold::NoMemory) => Err(Unlearned::NoMemory),
        Err(Untold::Fault | Untold::Unfit | Untold::TooLong) => Ok(Learned::Nothing),
    }
}
