//! What a link brings: pieces of bytes, and the messages in them.
ghost use Rattle.std.specs.Prelude.{◌≡◌, ◌≤◌, [], length, drop, IfOk, MatchResult, OnOk, OnErr, ◌+◌, ◌++◌, true, false, Ok, IfErr};
ghost use Rattle.std.specs.Io.KnownBytes.{Appends, Consumes, IsAtEnd, Keeps};
ghost use Rattle.link_session.specs.Spending.{Moved, MovesFor};
ghost use Rattle.lf_base.specs.Faults.{CountsFaults};
ghost use Rattle.link_session.specs.declared.stage.Stage.TheVariants as stages;
ghost use Rattle.link_session.specs.Reach.{reach, reach_of};
ghost use Rattle.link_session.specs.Reading.{coming, text_of, EndsReading, Faulted};
ghost use Rattle.link_session.specs.Unread.{ended, LeavesUnread};

use crate::feed::{Feed, FeedFault};
use crate::session::Turns;
use crate::unread::Unread;
use lf_base::{Failed, Link, NoMemory, SessionEnd};
use std::alloc::Global;
use std::marker::Model;

/// How many bytes are asked of a link at once.
const PIECE: usize = 65536;

/// What was read of a link and is not yet used.
#[derive(Drop)]
pub struct Piece {
    bytes: Vec<u8>,
    from: usize,
    to: usize,
}

impl Model for Piece {
    ghost use Rattle.std.specs.Prelude.{ℕ, ◌≡◌, ◌≤◌, List, drop, take, vec_len};

    ghost Value = { List ℕ };

    ghost view = { λ p. drop p.from (take p.to p.bytes.items) };

    ghost invariant = { λ p. (p.from ≤ p.to) × (p.to ≤ vec_len p.bytes) × (vec_len p.bytes ≡ 65536) };
}

impl Piece {
    /// Holds nothing, with room for 65,536 bytes.
    pub fn new(alloc: Global) -> Result<Piece, NoMemory>
        ensures { IfOk result (λ piece. piece ≡ []) }
    {
        let bytes = vec![in alloc; 0u8; PIECE]?;
        Ok(Piece {
            bytes,
            from: 0,
            to: 0,
        })
    }

    pub fn unread(&self) -> &[u8]
        ensures { result.now ≡ self.now }
    {
        let (front, _) = self.bytes.as_slice().split_at(self.to);
        let (_, unread) = front.split_at(self.from);
        unread
    }

    /// Passes over the first `count` bytes.
    pub fn skip(&mut self, count: usize)
        requires { count ≤ length self.old }
        ensures { self.new ≡ drop count self.old }
    {
        self.from += count;
    }

    /// Reads the next bytes of the link; none is its end.
    pub fn refill<L: Link>(&mut self, link: &mut L) -> Result<(), Failed>
        requires { self.old ≡ [] }
        ensures bytes { Consumes (L.left link.old) (L.left link.new) self.new }
        ensures given { MatchResult result (λ _. Appends (L.given link.old) (L.given link.new) self.new) (λ _. Keeps (L.given link.old) (L.given link.new)) }
        ensures end { OnOk result (self.new ≡ [] → IsAtEnd (L.left link.new)) }
        ensures err { OnErr result (self.new ≡ []) }
        ensures most { length self.new ≤ 65536 }
        ensures taken { Keeps (L.taken link.old) (L.taken link.new) }
        ensures moves { OnOk result (Moved (L.moves link.old) (L.moves link.new) (length self.new)) }
        ensures cause { CountsFaults (L.faults link.old) (L.faults link.new) result }
    {
        self.from = 0;
        self.to = 0;
        match link.read(self.bytes.as_mut_slice()) {
            Ok(count) => {
                self.to = count;
                Ok(())
            }
            Err(failed) => Err(failed),
        }
    }
}

/// The messages of a link, in whatever pieces they come.
#[derive(Drop)]
pub struct Inbox<F: Feed + Drop> {
    feed: F,
    piece: Piece,
}

impl<F: Feed + Drop> Model for Inbox<F> {
    ghost use Rattle.link_session.specs.Reading.{Held};

    ghost Value = { Held };

    ghost view = { λ s. record { message = F.held s.feed; ahead = s.piece; limit = F.limit s.feed; stage = F.stage s.feed } };
}

impl<F: Feed + Drop> Inbox<F> {
    /// Holds what the feed holds, and nothing that was read ahead.
    pub fn new(alloc: Global, feed: F) -> Result<Inbox<F>, NoMemory>
        ensures { IfOk result (λ inbox. inbox ≡ record { message = F.held feed; ahead = []; limit = F.limit feed; stage = F.stage feed }) }
    {
        let piece = Piece::new(alloc)?;
        Ok(Inbox { feed, piece })
    }

    /// Reads on until a message is whole. Each read is a turn.
    ///
    /// Closed at the end of input between messages; BadMessage where the input begins no message, or
    /// ends inside one; ReadFault where the link's count of faults rose; Turns where none is left.
    #[tactic(auto, using(crate::proofs::Reading::reading_ends))]
    pub fn read_message<L: Link>(
        &mut self,
        link: &mut L,
        turns: &mut Turns,
    ) -> Result<(), SessionEnd>
        requires { self.old.stage ≡ stages.Open }
        ensures whole { OnOk result (F.message self.old.limit self.new.message × (self.new.stage ≡ stages.Whole)) }
        ensures same { OnOk result (Keeps (coming self.old (L.left link.old)) (coming self.new (L.left link.new)) × (self.new.limit ≡ self.old.limit)) }
        ensures taken { Keeps (L.taken link.old) (L.taken link.new) }
        ensures spent { MovesFor result turns.old (L.moves link.old) turns.new (L.moves link.new) }
        ensures cause { EndsReading F.takes_memory (F.partial self.old.limit) (F.broken self.old.limit) (coming self.old (L.left link.old)) (L.left link.new)
            (L.faults link.old) (L.faults link.new) turns.new result }
    {
        match read_whole(&mut self.feed, &mut self.piece, link, turns) {
            Ok(()) => Ok(()),
            Err(why) => Err(why.end()),
        }
    }

    /// The same, and tells an input that ends inside a message from one that begins none.
    pub fn gather<L: Link>(&mut self, link: &mut L, turns: &mut Turns) -> Result<(), Unread>
        requires { self.old.stage ≡ stages.Open }
        ensures whole { OnOk result (F.message self.old.limit self.new.message × (self.new.stage ≡ stages.Whole)) }
        ensures same { OnOk result (Keeps (coming self.old (L.left link.old)) (coming self.new (L.left link.new)) × (self.new.limit ≡ self.old.limit)) }
        ensures within { OnOk result (reach self.new turns.new ≤ reach self.old turns.old) }
        ensures taken { Keeps (L.taken link.old) (L.taken link.new) }
        ensures spent { MovesFor (ended result) turns.old (L.moves link.old) turns.new (L.moves link.new) }
        ensures cause { LeavesUnread F.takes_memory (F.partial self.old.limit) (F.broken self.old.limit) (coming self.old (L.left link.old)) (L.left link.new)
            (L.faults link.old) (L.faults link.new) turns.new result }
    {
        read_whole(&mut self.feed, &mut self.piece, link, turns)
    }

    /// Goes on with messages of another kind; what was read ahead stays.
    pub fn change<G: Feed + Drop>(self, feed: G) -> Inbox<G>
        requires { self.message ≡ [] }
        ensures { result ≡ record { message = G.held feed; ahead = self.ahead; limit = G.limit feed; stage = G.stage feed } }
    {
        let Inbox { feed: _, piece } = self;
        Inbox { feed, piece }
    }

    /// What gathers the messages.
    pub fn feed(&self) -> &F
        ensures held { F.held result.now ≡ self.now.message }
        ensures stage { F.stage result.now ≡ self.now.stage }
    {
        &self.feed
    }

    /// Takes out the message that is whole, and goes on behind it.
    pub fn next(&mut self) -> F::Message
        requires { self.old.stage ≡ stages.Whole }
        ensures message { F.stands_for result self.old.message }
        ensures next { self.new ≡ record self.old { message = []; stage = stages.Open } }
    {
        self.feed.next()
    }
}

/// Reads on until a message is whole.
fn read_whole<F: Feed, L: Link>(
    feed: &mut F,
    piece: &mut Piece,
    link: &mut L,
    turns: &mut Turns,
) -> Result<(), Unread>
    requires { F.stage feed.old ≡ stages.Open }
    ensures whole { OnOk result (F.message (F.limit feed.old) (F.held feed.new) × (F.stage feed.new ≡ stages.Whole)) }
    ensures same { OnOk result (Keeps (text_of (F.held feed.old) piece.old (L.left link.old)) (text_of (F.held feed.new) piece.new (L.left link.new)) × (F.limit feed.new ≡ F.limit feed.old)) }
    ensures within { OnOk result (reach_of (F.held feed.new) piece.new turns.new ≤ reach_of (F.held feed.old) piece.old turns.old) }
    ensures taken { Keeps (L.taken link.old) (L.taken link.new) }
    ensures spent { MovesFor (ended result) turns.old (L.moves link.old) turns.new (L.moves link.new) }
    ensures cause { LeavesUnread F.takes_memory (F.partial (F.limit feed.old)) (F.broken (F.limit feed.old)) (text_of (F.held feed.old) piece.old (L.left link.old))
        (L.left link.new) (L.faults link.old) (L.faults link.new) turns.new result }
{
    loop {
        match feed_some(feed, piece) {
            Ok(true) => return Ok(()),
            Ok(false) => {}
            Err(FeedFault::Broken) => return Err(Unread::Broken),
            Err(FeedFault::NoMemory) => return Err(Unread::NoMemory),
        }
        match turns.take() {
            Ok(()) => {}
            Err(_) => return Err(Unread::Turns),
        }
        match piece.refill(link) {
            Ok(()) => {}
            Err(_) => return Err(Unread::ReadFault),
        }
        if piece.unread().is_empty() {
            if feed.is_between() {
                return Err(Unread::Ended);
            }
            return Err(Unread::Cut);
        }
    }
}

/// Feeds what is unread, and tells whether a message is whole; where none is, all was fed.
fn feed_some<F: Feed>(feed: &mut F, piece: &mut Piece) -> Result<bool, FeedFault>
    requires { F.stage feed.old ≡ stages.Open }
    ensures whole { result ≡ Ok true → F.message (F.limit feed.old) (F.held feed.new) × (F.stage feed.new ≡ stages.Whole) }
    ensures part { result ≡ Ok false → F.partial (F.limit feed.old) (F.held feed.new) × (F.stage feed.new ≡ stages.Open) × (piece.new ≡ []) }
    ensures same { OnOk result (F.held feed.new ++ piece.new ≡ F.held feed.old ++ piece.old) }
    ensures count { OnOk result (length (F.held feed.new) + length piece.new ≡ length (F.held feed.old) + length piece.old) }
    ensures fault { IfErr result (Faulted F.takes_memory (F.broken (F.limit feed.old)) (F.held feed.old ++ piece.old)) }
    ensures limit { F.limit feed.new ≡ F.limit feed.old }
{
    let unread = piece.unread();
    let count = unread.len();
    match feed.take(unread) {
        Ok(None) => {
            piece.skip(count);
            Ok(false)
        }
        Ok(Some(used)) => {
            piece.skip(used);
            Ok(true)
        }
        Err(fault) => Err(fault),
    }
}
