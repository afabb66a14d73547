//! The frames of the stream.
ghost use Rattle.std.specs.Prelude.{◌≡◌, ◌⊎◌, ◌++◌, [], Ok, None, IfErr, IfOk, IfSome, OnOk};
ghost use Rattle.std.specs.Io.KnownBytes.{IsAtEnd};
ghost use Rattle.http_exchange.specs.declared.told.Untold.TheVariants as untold;
ghost use Rattle.http_exchange.specs.Exchange.{FaultsBy, TurnsBy};
ghost use Rattle.stream_wire.specs.Feeding.{holding};
ghost use Rattle.stream_wire.specs.Frame.{frame_text};
ghost use Rattle.stream_wire.specs.Front.{part, BeginsWith};
ghost use Rattle.backup_link.specs.Frames.{frame_limit, Breaks, GaveFrame, GaveNoFrame};

use crate::refilling::refill;
use crate::unfetched::untold_of;
use http_exchange::Untold;
use lf_base::{Link, NoMemory};
use link_session::{Piece, Turns};
use std::alloc::Global;
use stream_wire::{Fed, Frame, FrameFeed};

/// The most bytes of a frame's body.
const FRAME_MAX: u64 = 2_147_483_648;

/// The frames behind the head: the one that is coming, and what was read and is not yet used.
#[derive(Drop)]
pub struct Frames {
    pub feed: FrameFeed,
    pub piece: Piece,
}

impl Frames {
    /// The frames that begin in this piece.
    pub fn from_piece(alloc: Global, piece: Piece) -> Result<Frames, NoMemory>
        ensures { IfOk result (λ frames. (frames.feed ≡ holding frame_limit []) × (frames.piece ≡ piece)) }
    {
        let feed = FrameFeed::new(alloc, FRAME_MAX)?;
        Ok(Frames { feed, piece })
    }

    /// Reads on until a frame is whole.
    pub fn next<L: Link>(&mut self, link: &mut L, turns: &mut Turns) -> Result<Frame, Untold>
        requires { self.old.feed ≡ holding frame_limit [] }
        ensures frame { IfOk result (GaveFrame L.Link link.old link.new self.old.piece self.new.piece) }
        ensures between { OnOk result (self.new.feed ≡ holding frame_limit []) }
        ensures none { IfErr result (GaveNoFrame L.Link link.old link.new self.old.piece) }
        ensures fault { FaultsBy (L.faults link.old) (L.faults link.new) result }
        ensures turns { TurnsBy turns.old turns.new result }
    {
        'pieces: loop {
            match feed_some(&mut self.feed, &mut self.piece) {
                Ok(Some(frame)) => return Ok(frame),
                Ok(None) => {}
                Err(why) => return Err(why),
            }
            match refill(link, &mut self.piece, turns) {
                Ok(()) => {}
                Err(why) => return Err(why),
            }
            if self.piece.unread().is_empty() {
                return Err(Untold::Unfit);
            }
        }
    }
}

/// Feeds what is unread, up to the end of a frame; where none is whole, all was fed.
fn feed_some(feed: &mut FrameFeed, piece: &mut Piece) -> Result<Option<Frame>, Untold>
    requires { feed.old ≡ holding frame_limit feed.old.held }
    ensures part { result ≡ Ok None → BeginsWith frame_limit (feed.old.held ++ piece.old) part × (feed.new ≡ holding frame_limit (feed.old.held ++ piece.old)) × (piece.new ≡ []) }
    ensures whole { IfOk result (λ found. IfSome found (λ frame. (feed.old.held ++ piece.old ≡ frame_text frame ++ piece.new) × (feed.new ≡ holding frame_limit []))) }
    ensures fault { IfErr result (λ why. (why ≡ untold.NoMemory) ⊎ Breaks (feed.old.held ++ piece.old) why) }
{
    let unread = piece.unread();
    let count = unread.len();
    match feed.feed(unread) {
        Ok(Fed::More) => {
            piece.skip(count);
            Ok(None)
        }
        Ok(Fed::Whole { used }) => {
            piece.skip(used);
            Ok(feed.take())
        }
        Err(fault) => Err(untold_of(fault)),
    }
}
