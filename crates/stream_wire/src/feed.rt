//! Frames from bytes that come in pieces.

ghost use Rattle.std.specs.Prelude.{◌≡◌, ◌++◌, ◌+◌, ◌≤◌, [], None, Some, length, take, IfOk, IfErr, IfSome, Err, Ok, drop};
ghost use Rattle.stream_wire.specs.declared.wire_fault.WireFault.{WireFault};
ghost use Rattle.stream_wire.specs.Frame.{frame_text, pos_body};
ghost use Rattle.stream_wire.specs.Front.{part, whole, BeginsWith, GivesName, Refuses, IsWholeFrame, IsShort, named_len_at};
ghost use Rattle.stream_wire.specs.Feeding.{holding, Feeds, EndsFrame, LeavesBehind};

use crate::front::{FIELDS, check_fields, frame_len, name_of};
use crate::{Frame, WireFault};
use lf_base::{Bytes, Name, NoMemory, Pos, be32_at, be64_at};
use std::alloc::Global;
use std::marker::Model;
use std::mem;

/// What a piece did.
#[derive(Clone, Copy, Debug, PartialEq, Eq)]
pub enum Fed {
    /// The whole piece is taken, and no frame is whole.
    More,
    /// The first `used` bytes of the piece are taken, and end a frame.
    Whole { used: usize },
}

/// The bytes of the frame that is coming. No room is taken for a body before its bytes come.
#[derive(Debug, Drop)]
pub struct FrameFeed {
    alloc: Global,
    limit: u64,
    bytes: Vec<u8>,
    ready: Option<Frame>,
    met: Option<WireFault>,
}

impl Model for FrameFeed {
    ghost use Rattle.stream_wire.specs.Feeding.{Feeding};

    ghost Value = { Feeding };

    ghost view = { λ f. record { limit = f.limit; held = f.bytes.items; ready = f.ready; met = f.met } };

    ghost use Rattle.stream_wire.specs.Front.{IsShort};

    ghost invariant = { λ f. IsShort f.bytes.items };
}

impl FrameFeed {
    /// Holds nothing, and takes frames whose body has at most `limit` bytes.
    pub fn new(alloc: Global, limit: u64) -> Result<FrameFeed, NoMemory>
        ensures { IfOk result (λ feed. feed ≡ holding limit []) }
    {
        Ok(FrameFeed {
            alloc,
            limit,
            bytes: Vec::with_capacity(alloc, FIELDS)?,
            ready: None,
            met: None,
        })
    }

    /// Takes a piece of the stream, up to the end of a frame. A frame that was not taken out goes. After
    /// a fault each call answers it again.
    pub fn feed(&mut self, piece: &[u8]) -> Result<Fed, WireFault>
        ensures gives { self.old.met ≡ None → Feeds self.old piece.now result self.new }
        ensures again { (fault : WireFault) → self.old.met ≡ Some fault → (result ≡ Err fault) × (self.new ≡ self.old) }
    {
        if let Some(fault) = self.met {
            return Err(fault);
        }
        self.ready = None;
        match feed_into(self.alloc, self.limit, &mut self.bytes, piece) {
            Ok(None) => Ok(Fed::More),
            Ok(Some((used, frame))) => {
                self.ready = Some(frame);
                Ok(Fed::Whole { used })
            }
            Err(WireFault::NoMemory) => Err(WireFault::NoMemory),
            Err(fault) => {
                self.met = Some(fault);
                Err(fault)
            }
        }
    }

    /// The frame that the last feed ended, once.
    pub fn take(&mut self) -> Option<Frame>
        ensures frame { result ≡ self.old.ready }
        ensures rest { self.new ≡ record self.old { ready = None } }
    {
        self.ready.take()
    }

    /// The number of bytes that it has memory for.
    pub fn room(&self) -> usize
        ensures { length self.now.held ≤ result }
    {
        self.bytes.capacity()
    }

    /// The number of bytes of the unfinished frame.
    pub fn held(&self) -> u64
        ensures { result ≡ length self.now.held }
    {
        self.bytes.len() as u64
    }
}

/// Appends a piece to the bytes of a frame, up to its end. The frame's bytes go where it is whole, and
/// where it is refused.
fn feed_into(
    alloc: Global,
    limit: u64,
    held: &mut Vec<u8>,
    piece: &[u8],
) -> Result<Option<(usize, Frame)>, WireFault>
    requires { IsShort held.old.items }
    ensures part { result ≡ Ok None → BeginsWith limit (held.old.items ++ piece.now) part × (held.new.items ≡ held.old.items ++ piece.now) }
    ensures whole { IfOk result (λ found. IfSome found (λ p. EndsFrame limit held.old.items piece.now p.0 p.1 × (held.new.items ≡ []))) }
    ensures fault { IfErr result (LeavesBehind limit held.old.items piece.now held.new.items) }
{
    let before = held.len();
    held.extend_from_slice(piece).map_err(NoMemory::from)?;
    match whole_in(alloc, limit, held.as_slice()) {
        Ok(None) => Ok(None),
        Ok(Some(found)) => {
            let used = found.len - before;
            Ok(Some((used, take_frame(alloc, held, found))))
        }
        Err(WireFault::NoMemory) => {
            held.truncate(before);
            Err(WireFault::NoMemory)
        }
        Err(fault) => {
            held.clear();
            Err(fault)
        }
    }
}

/// A whole frame at the front of bytes.
#[derive(Drop)]
struct WholeFrame {
    len: usize,
    name: Option<Name>,
}

/// The length of the frame at the front and its name, where it is whole.
fn whole_in(alloc: Global, limit: u64, bytes: &[u8]) -> Result<Option<WholeFrame>, WireFault>
    ensures part { result ≡ Ok None → BeginsWith limit bytes.now part }
    ensures whole { IfOk result (λ found. IfSome found (λ w. BeginsWith limit bytes.now (whole w.len) × GivesName bytes.now w.name)) }
    ensures fault { IfErr result (Refuses limit bytes.now) }
{
    check_fields(limit, bytes)?;
    if bytes.len() < FIELDS {
        return Ok(None);
    }
    let name = name_of(alloc, bytes)?;
    match frame_len(bytes) {
        Some(len) if len <= bytes.len() => Ok(Some(WholeFrame { len, name })),
        _ => Ok(None),
    }
}

/// Takes the first bytes as a frame, and leaves none.
fn take_frame(alloc: Global, bytes: &mut Vec<u8>, found: WholeFrame) -> Frame
    requires frame { IsWholeFrame (take found.len bytes.old.items) }
    requires name { GivesName (take found.len bytes.old.items) found.name }
    ensures text { frame_text result ≡ take found.len bytes.old.items }
    ensures none { bytes.new.items ≡ [] }
{
    let mut whole = mem::replace(bytes, Vec::new(alloc));
    whole.truncate(found.len);
    frame_from(whole, found.name)
}

/// The frame of these bytes.
fn frame_from(bytes: Vec<u8>, name: Option<Name>) -> Frame
    requires frame { IsWholeFrame bytes.items }
    requires name { GivesName bytes.items name }
    ensures { frame_text result ≡ bytes.items }
{
    let Some(name) = name else {
        return Frame::End;
    };
    let kind = be32_at(&bytes, 0);
    let body = body_of(bytes);
    match kind {
        1 => Frame::Ltx {
            name,
            bytes: Bytes::of(body),
        },
        2 => Frame::Ready {
            name,
            pos: pos_of(&body),
        },
        _ => Frame::Drop { name },
    }
}

/// The body, in the place of the whole frame.
fn body_of(mut bytes: Vec<u8>) -> Vec<u8>
    requires { IsWholeFrame bytes.items }
    ensures { result.items ≡ drop (named_len_at bytes.items) bytes.items }
{
    let start = FIELDS + be32_at(&bytes, 4) as usize;
    let len = bytes.len() - start;
    bytes.rotate_left(start);
    bytes.truncate(len);
    bytes
}

fn pos_of(body: &[u8]) -> Pos
    requires { length body.now ≡ 16 }
    ensures { pos_body result ≡ body.now }
{
    Pos {
        txid: be64_at(body, 0),
        sum: be64_at(body, 8),
    }
}
