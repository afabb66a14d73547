//! Frames of a stream as a feed.
ghost use Rattle.std.specs.Prelude.{◌≡◌, [], true, IfOk};
ghost use Rattle.link_session.specs.declared.stage.Stage.TheVariants as stages;
ghost use Rattle.stream_wire.specs.Frame.{frame_text};
ghost use Rattle.stream_wire.proofs.Fronts.{refusal_stays};
ghost use Rattle.link_session.specs.Frames.{held_by, frame_stage, IsFrame, IsFramePart, IsBrokenFrame};

use crate::feed::{Feed, FeedFault};
use crate::inbox::Inbox;
use lf_base::NoMemory;
use std::alloc::Global;
use stream_wire::{Fed, Frame, FrameFeed, WireFault};

impl Feed for FrameFeed {
    type Message = Frame;

    ghost limit = { λ feed. feed.limit };

    ghost held = { λ feed. held_by feed };

    ghost stage = { λ feed. frame_stage feed.met feed.ready feed.held };

    ghost message = { IsFrame };

    ghost partial = { IsFramePart };

    ghost takes_memory = { true };

    ghost stands_for = { λ frame text. frame_text frame ≡ text };

    ghost broken = { IsBrokenFrame };

    fn take(&mut self, piece: &[u8]) -> Result<Option<usize>, FeedFault> {
        match self.feed(piece) {
            Ok(Fed::More) => Ok(None),
            Ok(Fed::Whole { used }) => Ok(Some(used)),
            Err(WireFault::NoMemory) => Err(FeedFault::NoMemory),
            Err(_) => Err(FeedFault::Broken),
        }
    }

    fn next(&mut self) -> Frame {
        match self.take() {
            Some(frame) => frame,
            None => unreachable!(),
        }
    }

    fn is_between(&self) -> bool {
        self.held() == 0
    }

    ghost lasts = { λ limit text more b. (b.0, refusal_stays limit text more b.0 b.1) };
}

impl Inbox<FrameFeed> {
    /// Holds nothing, and takes frames whose body has at most `limit` bytes.
    pub fn of_frames(alloc: Global, limit: u64) -> Result<Inbox<FrameFeed>, NoMemory>
        ensures { IfOk result (λ inbox. inbox ≡ record { message = []; ahead = []; limit = limit; stage = stages.Open }) }
    {
        let feed = FrameFeed::new(alloc, limit)?;
        Inbox::new(alloc, feed)
    }
}
