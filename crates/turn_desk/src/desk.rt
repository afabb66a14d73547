//! The desk: its calls.
ghost use Rattle.std.specs.Prelude.{ℕ, ◌≡◌, ◌≢◌, ◌⊎◌, ◌/◌, ◌^◌, ◌<◌, ◌≤◌, ◌++◌, ◌∷◌, [], length, IfOk, OnOk, OnErr, IfErr};
ghost use Rattle.turn_desk.specs.History.{IsLegal, StartsWith};
ghost use Rattle.turn_desk.specs.Calls.{IsSameHistory, IsTakenTurn, HasStepped, HasCause, EndsAt, EndsRun};
ghost use Rattle.turn_desk.specs.Rule.{first_view};
ghost use Rattle.turn_desk.specs.Seats.{view, number_of, turn_words, greatest_number, opened_on, IsOf, IsSameSeat, IsSamePlace, IsNewcomer};

use crate::fault::{SplitFault, Tried, Worn};
use crate::machine::Machine;
use crate::moves::{DrawNumber, JoinSeats, LoadAfterJoin, LoadNumber, LoadTurn, SplitSeat};
use crate::news::News;
use crate::rule::TurnRule;
use crate::seat::{Seat, SeatOver};
use crate::slot::SlotValue;
use crate::table::DeskOver;
use crate::turn::{NUMBER, TURN, take_out, try_turn};
use crate::view::SeatView;
use atomic_table::{Refused, Table};
use lf_base::NoMemory;
use std::alloc::Global;
use std::snapshot::Snapshot;
use std::sync::Wait;
use std::sync::atomic::{AtomicU64, Ordering};

/// The desk of a machine.
pub type Desk<M> = DeskOver<
    Option<SlotValue<M, <M as Machine>::Ask, <M as Machine>::Answer>>,
    SeatView<M, <M as Machine>::Ask, <M as Machine>::Answer>,
    Snapshot<M>,
    TurnRule<M>,
>;

// How many numbers there are.
const NUMBERS: u64 = 1 << 62;

impl<M: Machine> Desk<M> {
    /// Takes one step of the machine by this seat's number, if no other seat has the turn.
    ///
    /// It waits for nothing, and takes no memory of its own.
    pub fn try_step(&self, seat: &mut Seat<M>, ask: &M::Ask) -> Result<M::Answer, Tried>
        requires { IsOf seat.old self.now }
        ensures seat { IsSamePlace seat.old seat.new }
        ensures ok { IfOk result (λ answer. HasStepped M.steps (opened_on self.now) (view seat.old) (number_of seat.old) ask.now answer (view seat.new)) }
        ensures turn { OnOk result (IsTakenTurn (turn_words seat.old) (view seat.new)) }
        ensures same { OnErr result (IsSameHistory (view seat.old) (view seat.new)) }
        ensures cause { IfErr result (λ refusal. HasCause refusal (turn_words seat.old) (turn_words seat.new)) }
    {
        let number = seat.number;
        let answer = try_turn(&self.table.shared, &mut seat.place, number, ask, &self.news)?;
        self.wake();
        self.news.tell();
        Ok(answer)
    }

    /// Takes one step of the machine by this seat's number. Waits for the turn.
    ///
    /// Worn where the turn word was 2^63, that is after 2^62 steps.
    pub fn step<R: Wait + Copy>(
        &self,
        rt: R,
        seat: &mut Seat<M>,
        ask: &M::Ask,
    ) -> Result<M::Answer, Worn>
        requires { IsOf seat.old self.now }
        ensures seat { IsSamePlace seat.old seat.new }
        ensures ok { IfOk result (λ answer. HasStepped M.steps (opened_on self.now) (view seat.old) (number_of seat.old) ask.now answer (view seat.new)) }
        ensures words { StartsWith (turn_words seat.new) (turn_words seat.old) }
        ensures same { OnErr result (IsSameHistory (view seat.old) (view seat.new)) }
        ensures worn { OnErr result (EndsAt (turn_words seat.old) (turn_words seat.new) (2 ^ 63)) }
    {
        for _ in rt.forever() {
            match self.try_step(seat, ask) {
                Ok(answer) => return Ok(answer),
                Err(Tried::Worn) => return Err(Worn),
                Err(Tried::Busy) => self.wait(&rt),
            }
        }
        unreachable!()
    }

    // Sleeps while another seat has the turn. Who gives a turn up and sees no sleeper is seen here: the count goes up before
    // the turn word is read.
    fn wait<R: Wait>(&self, rt: &R) {
        self.sleepers.fetch_add(1, Ordering::SeqCst);
        let now = self.table.shared.peek(TURN);
        if now % 2 == 1 {
            self.table
                .shared
                .park(rt, TURN, (now % 4_294_967_296) as u32);
        }
        self.sleepers.fetch_sub(1, Ordering::SeqCst);
    }

    // Wakes all sleepers, if there are any: one that was woken alone may leave as worn and wake no other.
    fn wake(&self) {
        if self.sleepers.load(Ordering::SeqCst) > 0 {
            self.table.shared.wake_all(TURN);
        }
    }

    /// The number of steps so far. It waits for nothing.
    pub fn edition(&self, seat: &mut Seat<M>) -> u64
        requires { IsOf seat.old self.now }
        ensures seat { IsSamePlace seat.old seat.new }
        ensures same { IsSameHistory (view seat.old) (view seat.new) }
        ensures least { length (view seat.old).seen ≤ result }
        ensures turn { (n : ℕ) × (turn_words seat.new ≡ turn_words seat.old ++ n ∷ []) × (result ≡ n / 2) }
        ensures legal { IsLegal M.steps (opened_on self.now) (view seat.new).seen }
    {
        let top = &self.table.shared;
        top.load::<LoadTurn<M>>(&mut seat.place, TURN) / 2
    }

    /// A seat with a number of its own, which has seen what this one has. Waits until it has drawn a number.
    ///
    /// Worn where 2^62 numbers were drawn.
    pub fn split<R: Wait + Copy>(&self, rt: R, seat: &mut Seat<M>) -> Result<Seat<M>, SplitFault>
        requires { IsOf seat.old self.now }
        ensures seat { IsSameSeat seat.old seat.new × (greatest_number seat.old ≤ greatest_number seat.new) }
        ensures same { IsSameHistory (view seat.old) (view seat.new) × (turn_words seat.new ≡ turn_words seat.old) }
        ensures of { IfOk result (λ new. IsOf new self.now) }
        ensures new { IfOk result (λ new. IsNewcomer (view seat.old).seen (view new)) }
        ensures number { IfOk result (λ new. (number_of new ≡ greatest_number seat.new) × (number_of new < 2 ^ 62)) }
        ensures worn { IfErr result (λ fault. (fault ≡ SplitFault.Worn) × (greatest_number seat.new ≡ 2 ^ 62)) }
    {
        let top = &self.table.shared;
        let mut place = top.split_seat::<SplitSeat>(&mut seat.place);
        for _ in rt.forever() {
            let number = top.load::<LoadNumber>(&mut seat.place, NUMBER);
            if number == NUMBERS {
                return Err(SplitFault::Worn);
            }
            let found = top.compare_exchange::<DrawNumber>(&mut place, NUMBER, number, number + 1);
            if found == number {
                return Ok(SeatOver { place, number });
            }
        }
        unreachable!()
    }

    /// The seat has seen what both had. The other is spent.
    pub fn join(&self, seat: &mut Seat<M>, other: Seat<M>)
        requires this { IsOf seat.old self.now }
        requires that { IsOf other self.now }
        ensures seat { IsSamePlace seat.old seat.new × (turn_words seat.new ≡ turn_words seat.old) }
        ensures mine { (view seat.new).mine ≡ (view seat.old).mine }
        ensures this { StartsWith (view seat.new).seen (view seat.old).seen }
        ensures that { StartsWith (view seat.new).seen (view other).seen }
        ensures one { ((view seat.new).seen ≡ (view seat.old).seen) ⊎ ((view seat.new).seen ≡ (view other).seen) }
        ensures numbers { number_of seat.old ≢ number_of other }
    {
        let top = &self.table.shared;
        let SeatOver {
            place: spent,
            number: _,
        } = other;
        top.join_seat::<JoinSeats>(&mut seat.place, spent);
        top.load::<LoadAfterJoin>(&mut seat.place, TURN);
    }
}

impl<M: Machine + Drop> Desk<M>
where
    M::Ask: Drop,
    M::Answer: Drop,
{
    /// A desk of the machine with an empty history, and its first seat, of the number 0.
    pub fn open(alloc: Global, machine: M) -> Result<(Desk<M>, Seat<M>), (NoMemory, M)>
        ensures of { IfOk result (λ made. IsOf made.1 made.0) }
        ensures opened { IfOk result (λ made. opened_on made.0 ≡ machine) }
        ensures number { IfOk result (λ made. number_of made.1 ≡ 0) }
        ensures empty { IfOk result (λ made. view made.1 ≡ first_view machine) }
        ensures back { IfErr result (λ refused. refused.1 ≡ machine) }
    {
        let opened = Snapshot::of(&machine);
        let value = SlotValue {
            machine,
            last: None,
        };
        let mut slots = match Vec::with_capacity(alloc, 1) {
            Ok(slots) => slots,
            Err(_) => return Err((NoMemory, value.machine)),
        };
        slots.push_reserved(Some(value));
        match Table::new(alloc, &[0, 1], slots, &opened) {
            Ok((table, place)) => {
                let desk = DeskOver {
                    table,
                    sleepers: AtomicU64::new(0),
                    news: News::new(),
                };
                Ok((desk, SeatOver { place, number: 0 }))
            }
            Err(Refused { mut slots }) => {
                let value = slots.pop().unwrap().unwrap();
                Err((NoMemory, value.machine))
            }
        }
    }

    /// The machine as the last step left it. Waits for the turn.
    pub fn close<R: Wait + Copy>(self, rt: R, seat: Seat<M>) -> M
        requires { IsOf seat self }
        ensures { EndsRun M.steps (opened_on self) (view seat) result }
    {
        let SeatOver {
            mut place,
            number: _,
        } = seat;
        take_out(&rt, &self.table.shared, &mut place).machine
    }
}
