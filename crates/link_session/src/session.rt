//! What a session has, and what it does with it: its turns, asks that are repeated, and texts written whole.
ghost use Rattle.std.specs.Prelude.{◌≡◌, ◌+◌, OnOk, OnErr, IfErr, length, IfOk, ◌++◌};
ghost use Rattle.lf_base.specs.declared.session_end.SessionEnd.TheVariants as ends;
ghost use Rattle.link_session.specs.Asking.{AskedUntil, AskedInVain, EndsAsking, IsGiven};
ghost use Rattle.link_session.specs.Sessions.{SessionGoesOn};
ghost use Rattle.link_session.specs.Spending.{AsksFor, MovesFor, TakesFor};
ghost use Rattle.link_session.specs.Stands.{GoesOn};
ghost use Rattle.std.specs.Io.KnownBytes.{Appends, Keeps};
ghost use Rattle.link_session.specs.Writing.{AppendsPart, EndsWriting};

use crate::patience::Patience;
use crate::steps::Steps;
use lf_base::{Clock, Link, Pause, SessionEnd};
use std::alloc::Global;
use std::marker::Model;

/// The turns that are left to a session. Each is a call of its link that moves bytes, or a step that
/// it asks.
#[derive(Debug, Drop)]
pub struct Turns {
    left: u64,
}

impl Model for Turns {
    ghost use Rattle.std.specs.Prelude.{ℕ};

    ghost Value = { ℕ };

    ghost view = { λ t. t.left };
}

impl Turns {
    pub fn new(budget: u64) -> Turns
        ensures { result ≡ budget }
    {
        Turns { left: budget }
    }

    /// Takes one turn; where none is left, the session ends by `Turns`.
    pub fn take(&mut self) -> Result<(), SessionEnd>
        ensures taken { OnOk result (self.old ≡ self.new + 1) }
        ensures spent { OnErr result ((self.old ≡ 0) × (self.new ≡ 0)) }
        ensures end { IfErr result (λ end. end ≡ ends.Turns) }
    {
        if self.left == 0 {
            return Err(SessionEnd::Turns);
        }
        self.left -= 1;
        Ok(())
    }

    /// The number of turns that are left.
    pub fn left(&self) -> u64
        ensures { result ≡ self.now }
    {
        self.left
    }
}

/// What a session has on its own side: memory, the link, the time, and the turns that are left. What it
/// borrows stays the same to its end. By whom it asks the node (`Steps`) stands beside it.
#[derive(Drop)]
pub struct Session<'l, 'c, 'p, L, C, P> {
    pub alloc: Global,
    pub link: &'l mut L,
    pub clock: &'c mut C,
    pub pause: &'p mut P,
    pub turns: Turns,
}

impl<L, C: Clock, P: Pause> Session<'_, '_, '_, L, C, P> {
    /// Asks, and asks again after a nap while the answer says so. Each ask is a turn, at a moment that the
    /// clock gives then.
    ///
    /// Turns where none is left; Worn where no further step can be taken.
    pub fn ask_until<
        S: Steps<Ask = Q, Answer = A>,
        Q: Drop,
        A: Drop,
        T: Patience<Ask = Q, Answer = A>,
    >(&mut self, steps: &mut S, ask: Q, patience: &T) -> Result<A, SessionEnd>
        ensures answered { IfOk result (λ answer. AskedUntil
            (record { may = C.may_give self.old.clock.now; at_moment = T.at_moment; again = T.again patience.now; caller = S.number steps.old }) ask (S.entries steps.old)
            (S.entries steps.new) answer) }
        ensures vain { OnErr result (AskedInVain (record { may = C.may_give self.old.clock.now; at_moment = T.at_moment; again = T.again patience.now; caller = S.number steps.old }) ask
            (S.entries steps.old) (S.entries steps.new)) }
        ensures same { SessionGoesOn S.Steps C.Clock self.old self.new steps.old steps.new }
        ensures link { self.new.link ≡ self.old.link }
        ensures spent { AsksFor result self.old.turns (length (S.entries steps.old)) self.new.turns (length (S.entries steps.new)) }
        ensures cause { EndsAsking (S.is_worn steps.new) self.new.turns result }
    {
        ask_until(
            steps,
            self.clock,
            self.pause,
            ask,
            patience,
            &mut self.turns,
        )
    }
}

/// Asks, and asks again after a nap while the answer says so. Each ask is a turn, at a moment that the
/// clock gives then.
///
/// Turns where none is left; Worn where no further step can be taken.
pub fn ask_until<
    S: Steps<Ask = Q, Answer = A>,
    Q: Drop,
    A: Drop,
    T: Patience<Ask = Q, Answer = A>,
    C: Clock,
    P: Pause,
>(
    steps: &mut S,
    clock: &mut C,
    pause: &mut P,
    ask: Q,
    patience: &T,
    turns: &mut Turns,
) -> Result<A, SessionEnd>
    ensures answered { IfOk result (λ answer. AskedUntil
        (record { may = C.may_give clock.old; at_moment = T.at_moment; again = T.again patience.now; caller = S.number steps.old }) ask (S.entries steps.old)
        (S.entries steps.new) answer) }
    ensures vain { OnErr result (AskedInVain (record { may = C.may_give clock.old; at_moment = T.at_moment; again = T.again patience.now; caller = S.number steps.old }) ask
        (S.entries steps.old) (S.entries steps.new)) }
    ensures gives { IfOk result (IsGiven (record { may = C.may_give clock.old; at_moment = T.at_moment; again = T.again patience.now; caller = S.number steps.old }) S.gives ask) }
    ensures same { (S.of steps.new ≡ S.of steps.old) × (S.number steps.new ≡ S.number steps.old) × GoesOn S.Steps steps.old steps.new × (C.may_give clock.new ≡ C.may_give clock.old) }
    ensures spent { AsksFor result turns.old (length (S.entries steps.old)) turns.new (length (S.entries steps.new)) }
    ensures cause { EndsAsking (S.is_worn steps.new) turns.new result }
{
    let mut asked = ask;
    'asks: loop {
        match turns.take() {
            Ok(()) => {}
            Err(_) => return Err(SessionEnd::Turns),
        }
        patience.set_moment(&mut asked, clock.now_ms());
        match steps.ask(&asked) {
            Ok(answer) => {
                if !patience.is_again(&answer) {
                    return Ok(answer);
                }
            }
            Err(_) => return Err(SessionEnd::Worn),
        }
        pause.nap();
    }
}

/// Writes all the bytes. Each write is a turn.
///
/// WriteFault where the link's count of faults rose; Turns where none is left. A part of the bytes
/// was written then, from the first on and never all.
pub fn write_whole<L: Link>(link: &mut L, bytes: &[u8], turns: &mut Turns) -> Result<(), SessionEnd>
    ensures whole { OnOk result (Appends (L.taken link.old) (L.taken link.new) bytes.now) }
    ensures part { OnErr result (AppendsPart (L.taken link.old) (L.taken link.new) bytes.now) }
    ensures left { Keeps (L.left link.old) (L.left link.new) × Keeps (L.given link.old) (L.given link.new) }
    ensures turns { TakesFor result (length bytes.now) turns.old turns.new }
    ensures spent { MovesFor result turns.old (L.moves link.old) turns.new (L.moves link.new) }
    ensures cause { EndsWriting (L.faults link.old) (L.faults link.new) turns.new result }
{
    let mut done = 0;
    while done < bytes.len() {
        match turns.take() {
            Ok(()) => {}
            Err(_) => return Err(SessionEnd::Turns),
        }
        let (_, rest) = bytes.split_at(done);
        match link.write(rest) {
            Ok(count) => done += count,
            Err(_) => return Err(SessionEnd::WriteFault),
        }
    }
    Ok(())
}

/// Writes one text and then another.
pub fn write_both<L: Link>(
    link: &mut L,
    front: &[u8],
    back: &[u8],
    turns: &mut Turns,
) -> Result<(), SessionEnd>
    ensures whole { OnOk result (Appends (L.taken link.old) (L.taken link.new) (front.now ++ back.now)) }
    ensures part { OnErr result (AppendsPart (L.taken link.old) (L.taken link.new) (front.now ++ back.now)) }
    ensures left { Keeps (L.left link.old) (L.left link.new) × Keeps (L.given link.old) (L.given link.new) }
    ensures spent { MovesFor result turns.old (L.moves link.old) turns.new (L.moves link.new) }
    ensures cause { EndsWriting (L.faults link.old) (L.faults link.new) turns.new result }
{
    match write_whole(link, front, turns) {
        Ok(()) => write_whole(link, back, turns),
        Err(end) => Err(end),
    }
}
