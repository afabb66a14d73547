//! FUSE messages as a feed.
ghost use Rattle.std.specs.Prelude.{◌≡◌, [], false, IfOk};
ghost use Rattle.fuse_msgs.specs.Feed.{is_whole, IsWholeMessage};
ghost use Rattle.fuse_msgs.proofs.Feeding.{refusal_stays};
ghost use Rattle.link_session.specs.declared.stage.Stage.TheVariants as stages;
ghost use Rattle.link_session.specs.Messages.{stage_of, IsPart, IsRefused};

use crate::feed::{Feed, FeedFault};
use crate::inbox::Inbox;
use fuse_msgs::{Fed, MessageFeed};
use lf_base::NoMemory;
use std::alloc::Global;

impl Feed for MessageFeed {
    type Message = ();

    ghost limit = { λ feed. 135168 };

    ghost held = { λ feed. feed };

    ghost stage = { λ feed. stage_of (is_whole feed) };

    ghost message = { λ limit. IsWholeMessage };

    ghost partial = { λ limit. IsPart };

    ghost takes_memory = { false };

    ghost stands_for = { λ _ _. Unit {0} };

    ghost broken = { λ limit. IsRefused };

    fn take(&mut self, piece: &[u8]) -> Result<Option<usize>, FeedFault> {
        match self.feed(piece) {
            Ok(Fed::More) => Ok(None),
            Ok(Fed::Whole { used }) => Ok(Some(used)),
            Err(_) => Err(FeedFault::Broken),
        }
    }

    fn next(&mut self) -> () {
        self.clear();
    }

    fn is_between(&self) -> bool {
        self.held() == 0
    }

    ghost lasts = { λ limit text more r. (r.0, refusal_stays text more r.0 r.1) };
}

impl Inbox<MessageFeed> {
    /// Holds nothing, with room for a message and what is read ahead.
    pub fn of_messages(alloc: Global) -> Result<Inbox<MessageFeed>, NoMemory>
        ensures { IfOk result (λ inbox. inbox ≡ record { message = []; ahead = []; limit = 135168; stage = stages.Open }) }
    {
        let feed = MessageFeed::new(alloc)?;
        Inbox::new(alloc, feed)
    }

    /// The message that is whole.
    pub fn message(&self) -> &[u8]
        requires { self.now.stage ≡ stages.Whole }
        ensures { result.now ≡ self.now.message }
    {
        self.feed().message()
    }
}
