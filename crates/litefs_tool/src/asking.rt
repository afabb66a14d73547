//! The commands that ask a node over HTTP, each once.
ghost use Rattle.std.specs.Prelude.{◌≡◌, ◌≢◌, ◌++◌, ◌↔◌, IsTrue, MatchResult, OnErr, OnOk, codes};
ghost use Rattle.std.specs.Io.KnownBytes.{Appends};
ghost use Rattle.http_exchange.specs.Exchange.{LinksTell};
ghost use Rattle.lf_base.specs.Faults.{CountsFaults};
ghost use Rattle.stream_wire.specs.Call.{IsNamed};
ghost use Rattle.litefs_tool.specs.Asking.{AskBacks, DialerBack, IsPositionLine, asked_at};
ghost use Rattle.litefs_tool.specs.Output.{AppendsPrefix};
ghost use Rattle.litefs_tool.specs.Streams.{IsStill, Stream, stream};
ghost use Rattle.litefs_tool.specs.steps.Performing.{CountsDial, GoesAsking};
ghost use Rattle.litefs_tool.specs.declared.command.Command.TheVariants as command;
ghost use Rattle.litefs_tool.specs.declared.failure.Failure.TheVariants as failure;

use crate::collected::Collected;
use crate::failure::Failure;
use crate::input::{INPUT_LIMIT, read_to_end};
use crate::output::write_whole;
use crate::remote::Remote;
use http_exchange::{Request, Told, Untold, exchange};
use lf_base::{Bytes, Failed, Handles, Sink, Source, Text, read_pos};
use link_session::Turns;
use node_objects::Maker;
use std::alloc::Global;
use stream_wire::Call;

/// The longest body of a reply that is taken, in bytes.
const REPLY_LIMIT: u64 = 2_147_483_648;

/// For how many milliseconds a dial, or a read or a write on its link, may wait. A node that is asked may
/// have a whole database to write to its disk.
const PATIENCE: u64 = 600_000;

/// More reads and writes than any reply takes.
const BUDGET: u64 = 4_611_686_018_427_387_904;

/// The database that a node has goes to the output. Nothing is written before the reply is whole.
pub(crate) fn export<R: Handles, O: Sink, M: Maker>(
    rt: &R,
    alloc: Global,
    remote: Remote,
    output: &mut O,
    make: &mut M,
) -> Result<(), Failure>
    ensures { let backs : AskBacks = record {
      asked = DialerBack M.Dial.dials (LinksTell M.Line.given M.Line.taken) (M.back make.old) (M.back make.new);
      nothing = M.back make.new ≡ M.back make.old;
    } in
        (input : Stream) → IsStill input
        → GoesAsking backs (command.Export remote) input (stream O.taken O.faults output.old output.new) (M.counts make.old) (M.counts make.new) result }
{
    let Remote { name, address } = remote;
    let told = ask(rt, alloc, make, &address, &Call::Export { name }, &[])?;
    let database = body_of(told)?;
    write_whole(output, database.as_slice())?;
    Ok(())
}

/// The input becomes the database of a node. It is read to its end before the node is asked.
pub(crate) fn import<R: Handles, I: Source, O: Sink, M: Maker>(
    rt: &R,
    alloc: Global,
    remote: Remote,
    input: &mut I,
    output: &mut O,
    make: &mut M,
) -> Result<(), Failure>
    ensures { let backs : AskBacks = record {
      asked = DialerBack M.Dial.dials (LinksTell M.Line.given M.Line.taken) (M.back make.old) (M.back make.new);
      nothing = M.back make.new ≡ M.back make.old;
    } in
        GoesAsking backs (command.Import remote) (stream I.left I.faults input.old input.new) (stream O.taken O.faults output.old output.new)
        (M.counts make.old) (M.counts make.new) result }
{
    let database = read_to_end(alloc, input, INPUT_LIMIT, Collected::new(alloc))?;
    let Remote { name, address } = remote;
    let call = Call::Import { name };
    let told = ask(rt, alloc, make, &address, &call, database.bytes.as_slice())?;
    let line = body_of(told)?;
    if !is_position_line(line.as_slice()) {
        return Err(Failure::BadReply);
    }
    say_imported(output, line.as_slice())?;
    Ok(())
}

/// Asks the node at this address, by a dialer that then goes back to its maker.
fn ask<R: Handles, M: Maker>(
    rt: &R,
    alloc: Global,
    make: &mut M,
    address: &Text,
    call: &Call,
    body: &[u8],
) -> Result<Told, Untold>
    requires { IsNamed call.now }
    ensures back { DialerBack M.Dial.dials (LinksTell M.Line.given M.Line.taken) (M.back make.old) (M.back make.new) (asked_at call.now address.now body.now) result }
    ensures cause { CountsDial (M.counts make.old) (M.counts make.new) result }
{
    let mut dialer = make.dialer(PATIENCE);
    let mut turns = Turns::new(BUDGET);
    let request = Request {
        call,
        host: address,
        front: body,
        back: &[],
        sized: true,
    };
    let told = exchange(
        rt,
        alloc,
        &mut dialer,
        address,
        request,
        REPLY_LIMIT,
        &mut turns,
    );
    make.back_dial(dialer);
    told
}

/// The body of a reply of status 200.
fn body_of(told: Told) -> Result<Bytes, Failure>
    ensures { MatchResult result (λ body. told ≡ record { status = 200; body = body }) (λ why. (why ≡ failure.Reply) × (told.status ≢ 200)) }
{
    if told.status != 200 {
        return Err(Failure::Reply);
    }
    Ok(told.body)
}

/// Whether the bytes are a position in print and a newline.
fn is_position_line(line: &[u8]) -> bool
    ensures { IsTrue result ↔ IsPositionLine line.now }
{
    match line.split_last() {
        Some((b'\n', position)) => read_pos(position).is_some(),
        _ => false,
    }
}

/// Writes what the node answered behind `imported `.
fn say_imported<S: Sink>(sink: &mut S, line: &[u8]) -> Result<(), Failed>
    ensures whole { OnOk result (Appends (S.taken sink.old) (S.taken sink.new) (codes "imported " ++ line.now)) }
    ensures prefix { OnErr result (AppendsPrefix (S.taken sink.old) (S.taken sink.new) (codes "imported " ++ line.now)) }
    ensures cause { CountsFaults (S.faults sink.old) (S.faults sink.new) result }
{
    write_whole(sink, b"imported ")?;
    write_whole(sink, line)
}
