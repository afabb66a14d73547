//! The head of a request.
ghost use Rattle.std.specs.Prelude.{◌≡◌, [], true, IfOk, OnOk};
ghost use Rattle.std.specs.Io.KnownBytes.{Consumes, Keeps};
ghost use Rattle.link_session.specs.Reading.{EndsReading};
ghost use Rattle.link_session.specs.Spending.{MovesFor};
ghost use Rattle.stream_wire.specs.Head.{IsRequest, NeverTakesRequest};
ghost use Rattle.http_exchange.specs.Called.{end_behind, end_by, IsHeadPart};

use crate::ends::inside;
use crate::more::read_more;
use lf_base::{Link, SessionEnd};
use link_session::{Piece, Turns};
use std::alloc::Global;
use stream_wire::{Call, Heard, WireFault, read_request};

/// What the head of a request says, and how many bytes it has.
#[derive(Drop)]
pub(crate) struct CallHead {
    pub used: usize,
    pub call: Call,
    pub length: u64,
}

/// Reads on until the head of a request is whole. What came in the same piece is held behind it.
pub(crate) fn read_call_head<L: Link>(
    alloc: Global,
    link: &mut L,
    piece: &mut Piece,
    held: &mut Vec<u8>,
    turns: &mut Turns,
) -> Result<CallHead, SessionEnd>
    requires empty { piece.old ≡ [] }
    requires none { held.old.items ≡ [] }
    ensures head { IfOk result (λ head. IsRequest held.new.items head.used head.call head.length) }
    ensures read { OnOk result (Consumes (L.left link.old) (L.left link.new) held.new.items) }
    ensures empty { OnOk result (piece.new ≡ []) }
    ensures taken { Keeps (L.taken link.old) (L.taken link.new) }
    ensures spent { MovesFor result turns.old (L.moves link.old) turns.new (L.moves link.new) }
    ensures cause { EndsReading true IsHeadPart NeverTakesRequest (L.left link.old) (L.left link.new) (L.faults link.old) (L.faults link.new) turns.new result }
{
    'reads: loop {
        match read_request(alloc, held.as_slice()) {
            Ok(Heard::Part) => {}
            Ok(Heard::Whole { used, call, length }) => {
                return Ok(CallHead { used, call, length });
            }
            Err(fault) => return Err(end_by(fault)),
        }
        match read_more(link, piece, held, turns) {
            Ok(()) => {}
            Err(end) => return Err(end_behind(held, end)),
        }
    }
}

fn end_by(fault: WireFault) -> SessionEnd
    ensures { result ≡ end_by fault }
{
    match fault {
        WireFault::NoMemory => SessionEnd::NoMemory,
        _ => SessionEnd::BadMessage,
    }
}

/// The end of a session behind these bytes of a head: an input that ends behind none is closed.
fn end_behind(held: &Vec<u8>, end: SessionEnd) -> SessionEnd
    ensures { result ≡ end_behind held.now.items end }
{
    if held.is_empty() {
        return end;
    }
    inside(end)
}
