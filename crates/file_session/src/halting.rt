//! A permit is asked for, its position awaited, and the lock on HALT taken under it.
ghost use Rattle.std.specs.Prelude.{◌≡◌, [], ℕ, IfOk, OnErr};
ghost use Rattle.link_session.specs.Stands.{GoesOn};
ghost use Rattle.stream_wire.specs.declared.call.Call.TheVariants as call;
ghost use Rattle.http_exchange.specs.Exchange.{LinksTell};
ghost use Rattle.file_session.specs.Halting.{is_reached, moment_of, AsksAgain, IsTaking, Permits, Tells, Took, WaitsFor};
ghost use Rattle.file_session.specs.Primary.{permit_request, phone, request, writer};

use crate::primary::{Means, ask_primary, line_of};
use halt_forward::HaltPass;
use http_exchange::{Told, Untold};
use lf_base::{Dialer, Handles, Pause};
use link_session::Steps;
use node_core::{Answer, Ask};
use stream_wire::{Call, PassLine, read_pass_line};
use turn_desk::Worn;

/// How often the node is asked where it stands.
const ASKS: u64 = 10_000;

/// Asks the primary for a permit.
pub(crate) fn ask_permit<R: Handles, T: Dialer>(
    means: &Means<'_, R>,
    dialer: &mut T,
) -> Option<PassLine>
    ensures { (caller : ℕ) → Tells (LinksTell T.L.given T.L.taken) (permit_request (writer means.now.name.now means.now.node caller))
        (phone (T.dials dialer.old) (T.faults dialer.old)) (phone (T.dials dialer.new) (T.faults dialer.new)) result }
{
    match line_of(means.alloc, means.name, means.node) {
        Ok(line) => ask_by_line(means, dialer, line.as_slice()),
        Err(_) => None,
    }
}

/// The same by this line.
fn ask_by_line<R: Handles, T: Dialer>(
    means: &Means<'_, R>,
    dialer: &mut T,
    line: &[u8],
) -> Option<PassLine>
    ensures { Tells (LinksTell T.L.given T.L.taken) (request call.Halt line.now []) (phone (T.dials dialer.old) (T.faults dialer.old)) (phone (T.dials dialer.new) (T.faults dialer.new)) result }
{
    let told = ask_primary(means, dialer, &Call::Halt, line, b"");
    permit_in(&told)
}

/// The permit that an exchange gives.
fn permit_in(told: &Result<Told, Untold>) -> Option<PassLine>
    ensures { Permits told.now result }
{
    match told {
        Ok(told) => {
            if told.status == 200 {
                read_pass_line(told.body.as_slice())
            } else {
                None
            }
        }
        Err(_) => None,
    }
}

/// Awaits the permit's position, takes the permit and then asks once more; `None` where the position
/// isn't reached.
pub(crate) fn take_permit<S: Steps<Ask = Ask, Answer = Answer>, P: Pause>(
    steps: &mut S,
    pause: &mut P,
    ask: &Ask,
    pass: PassLine,
) -> Result<Option<Answer>, Worn>
    ensures took { IfOk result (Took (S.number steps.old) ask.now pass (S.entries steps.old) (S.entries steps.new)) }
    ensures taking { OnErr result (IsTaking (S.entries steps.old) (S.entries steps.new)) }
    ensures same { (S.of steps.new ≡ S.of steps.old) × (S.number steps.new ≡ S.number steps.old) × GoesOn S.Steps steps.old steps.new }
    ensures worn { OnErr result (S.is_worn steps.new) }
{
    match wait_for(steps, pause, pass.pos.txid) {
        Ok(true) => match take_lock(steps, ask, pass) {
            Ok(answer) => Ok(Some(answer)),
            Err(_) => Err(Worn),
        },
        Ok(false) => Ok(None),
        Err(_) => Err(Worn),
    }
}

/// Asks where the node stands, with naps between, until it is at this transaction or behind it; `false`
/// where it isn't after 10,000 asks.
fn wait_for<S: Steps<Ask = Ask, Answer = Answer>, P: Pause>(
    steps: &mut S,
    pause: &mut P,
    txid: u64,
) -> Result<bool, Worn>
    ensures waits { IfOk result (WaitsFor (S.number steps.old) txid (S.entries steps.old) (S.entries steps.new)) }
    ensures taking { OnErr result (IsTaking (S.entries steps.old) (S.entries steps.new)) }
    ensures same { (S.of steps.new ≡ S.of steps.old) × (S.number steps.new ≡ S.number steps.old) × GoesOn S.Steps steps.old steps.new }
    ensures worn { OnErr result (S.is_worn steps.new) }
{
    let mut short: u64 = 0;
    'asks: while short < ASKS {
        match steps.ask(&Ask::Where) {
            Ok(answer) => {
                if is_reached(txid, &answer) {
                    return Ok(true);
                }
            }
            Err(_) => return Err(Worn),
        }
        short += 1;
        pause.nap();
    }
    Ok(false)
}

/// Whether the node stands there.
fn is_reached(txid: u64, answer: &Answer) -> bool
    ensures { result ≡ is_reached txid answer.now }
{
    match answer {
        Answer::At(here) => txid <= here.pos.txid,
        _ => false,
    }
}

/// The moment of a request.
fn moment_of(ask: &Ask) -> u64
    ensures { result ≡ moment_of ask.now }
{
    match ask {
        Ask::File { now, .. } => *now,
        _ => 0,
    }
}

/// Brings the permit to the node, and asks once more.
fn take_lock<S: Steps<Ask = Ask, Answer = Answer>>(
    steps: &mut S,
    ask: &Ask,
    pass: PassLine,
) -> Result<Answer, Worn>
    ensures again { IfOk result (λ given. AsksAgain (S.number steps.old) ask.now pass given (S.entries steps.old) (S.entries steps.new)) }
    ensures taking { OnErr result (IsTaking (S.entries steps.old) (S.entries steps.new)) }
    ensures same { (S.of steps.new ≡ S.of steps.old) × (S.number steps.new ≡ S.number steps.old) × GoesOn S.Steps steps.old steps.new }
    ensures worn { OnErr result (S.is_worn steps.new) }
{
    let got = Ask::HaltGot {
        now: moment_of(ask),
        pass: HaltPass {
            number: pass.number,
            until: pass.until,
        },
    };
    match steps.ask(&got) {
        Ok(_) => {}
        Err(_) => return Err(Worn),
    }
    steps.ask(ask)
}
