//! One turn: take the machine out of the slot, step it, and put it home.
ghost use Rattle.std.specs.Prelude.{◌≡◌, [], IfOk, OnOk, OnErr, IfErr};
ghost use Rattle.turn_desk.specs.Calls.{IsSeated, IsSameHistory, IsTakenTurn, HasStepped, HasCause, IsLast, EndsRun};
ghost use Rattle.turn_desk.specs.Moves.{HasTaken};

use crate::fault::Tried;
use crate::machine::Machine;
use crate::moves::{GiveTurn, LoadTurn, TakeTurn};
use crate::news::News;
use crate::rule::TurnRule;
use crate::slot::{LastStep, SlotValue};
use crate::view::SeatView;
use atomic_table::{Seat, Shared};
use std::snapshot::Snapshot;
use std::sync::Wait;
use std::thread;

pub(crate) type Value<M> = SlotValue<M, <M as Machine>::Ask, <M as Machine>::Answer>;

pub(crate) type Knows<M> = SeatView<M, <M as Machine>::Ask, <M as Machine>::Answer>;

pub(crate) type Top<M> = Shared<Option<Value<M>>, Knows<M>, Snapshot<M>, TurnRule<M>>;

pub(crate) type Place<M> = Seat<Option<Value<M>>, Knows<M>>;

/// The turn word: twice the number of steps so far, and 1 more while a seat has the turn.
pub(crate) const TURN: usize = 0;

/// The number word: how many numbers were drawn.
pub(crate) const NUMBER: usize = 1;

// The turn word after 2^62 steps.
const LAST: u64 = 1 << 63;

// Steps the machine, and notes the step beside it.
fn stepped<M: Machine>(value: Value<M>, number: u64, ask: &M::Ask) -> (Value<M>, M::Answer)
    ensures step { M.steps value.machine number ask.now result.1 result.0.machine }
    ensures last { IsLast result.0.last ask.now result.1 }
{
    let SlotValue {
        mut machine,
        last: _,
    } = value;
    let answer = machine.step(number, ask);
    let last = Some(LastStep {
        ask: Snapshot::of(ask),
        answer: Snapshot::of(&answer),
    });
    (SlotValue { machine, last }, answer)
}

/// Takes the turn, if it is free, and answers what the turn word was.
pub(crate) fn take_turn<M: Machine>(top: &Top<M>, place: &mut Place<M>) -> Result<u64, Tried>
    requires table { (place.old.table_id ≡ top.now.table_id) × (top.now.table_id.words ≡ 2) × (top.now.table_id.slots ≡ 1) }
    requires empty { place.old.me.1 ≡ [] }
    ensures seat { (place.new.table_id ≡ place.old.table_id) × (place.new.id ≡ place.old.id) }
    ensures taken { IfOk result (λ n. HasTaken M.steps place.old.me n place.new.me) }
    ensures same { OnErr result (place.new.me ≡ (record place.old.me.0 { turn_words = place.new.me.0.turn_words }, [])) }
    ensures cause { IfErr result (λ refusal. HasCause refusal place.old.me.0.turn_words place.new.me.0.turn_words) }
{
    let found = top.load::<LoadTurn<M>>(place, TURN);
    if found == LAST {
        return Err(Tried::Worn);
    }
    if found % 2 == 1 {
        return Err(Tried::Busy);
    }
    let now = top.compare_exchange::<TakeTurn<M>>(place, TURN, found, found + 1);
    if now != found {
        return Err(Tried::Busy);
    }
    Ok(found)
}

/// One whole turn, if it is free: take, out, the step, home, give. The machine's news are noted.
pub(crate) fn try_turn<M: Machine>(
    top: &Top<M>,
    place: &mut Place<M>,
    number: u64,
    ask: &M::Ask,
    news: &News,
) -> Result<M::Answer, Tried>
    requires table { (place.old.table_id ≡ top.now.table_id) × (top.now.table_id.words ≡ 2) × (top.now.table_id.slots ≡ 1) }
    requires seated { IsSeated place.old.me number }
    requires opened { place.old.me.0.opened ≡ Some top.now.key.value }
    ensures seat { (place.new.table_id ≡ place.old.table_id) × (place.new.id ≡ place.old.id) }
    ensures seated { IsSeated place.new.me number }
    ensures opened { (place.new.me.0.opened ≡ place.old.me.0.opened) × (place.new.me.0.greatest_number ≡ place.old.me.0.greatest_number) }
    ensures ok { IfOk result (λ answer. HasStepped M.steps top.now.key.value place.old.me.0 number ask.now answer place.new.me.0) }
    ensures turn { OnOk result (IsTakenTurn place.old.me.0.turn_words place.new.me.0) }
    ensures same { OnErr result (IsSameHistory place.old.me.0 place.new.me.0) }
    ensures cause { IfErr result (λ refusal. HasCause refusal place.old.me.0.turn_words place.new.me.0.turn_words) }
{
    let found = match take_turn(top, place) {
        Ok(found) => found,
        Err(refusal) => return Err(refusal),
    };
    let value = top.exchange(place, 0, None).unwrap();
    let (value, answer) = stepped(value, number, ask);
    news.note(value.machine.news());
    let out = top.exchange(place, 0, Some(value));
    let None = out else { unreachable!() };
    top.store::<GiveTurn>(place, TURN, found + 2);
    Ok(answer)
}

/// Takes the turn for good, and what lies in the slot.
pub(crate) fn take_out<M: Machine, R: Wait>(rt: &R, top: &Top<M>, place: &mut Place<M>) -> Value<M>
    requires table { (place.old.table_id ≡ top.now.table_id) × (top.now.table_id.words ≡ 2) × (top.now.table_id.slots ≡ 1) }
    requires empty { place.old.me.1 ≡ [] }
    requires opened { place.old.me.0.opened ≡ Some top.now.key.value }
    ensures { EndsRun M.steps top.now.key.value place.old.me.0 result.machine }
{
    for _ in rt.forever() {
        let found = top.load::<LoadTurn<M>>(place, TURN);
        if found % 2 == 0 {
            let now = top.compare_exchange::<TakeTurn<M>>(place, TURN, found, found + 1);
            if now == found {
                return top.exchange(place, 0, None).unwrap();
            }
        }
        thread::yield_now();
    }
    unreachable!()
}
