//! Rounds that end by a fault, or without a turn; and a lease that is given up.
ghost use Rattle.lf_base.specs.Doors.{IsUnused};

use super::listener::{Account, Bring, Heard, SILENCE, closed, opened};
use super::{CANDIDATE, End, HOLDER, NOW, TURNS, Who, grant_of, round, service_of};
use crate::exchange::{dialer_of, link_of};
use crate::same::same;
use lease_link::{Round, give_up_lease};
use lf_base::{FixedClock, Handles, MemDialer, MemLink, NoPause};
use link_session::{AtSeat, Turns};
use std::alloc::Global;
use std::net::{TcpListener, TcpStream};
use std::process::Abort;

const RENEWED: &[u8] = b"HTTP/1.1 200 OK\r\nContent-Length: 13\r\n\r\n{\"ttl\":10000}";

/// The machine was told that the service is about to be asked, and no more.
const ASKED: Account = Account {
    asked: 1,
    moment: NOW,
    ..SILENCE
};

/// A link of the reply in pieces of 20 bytes, with this room, whose call of this number fails.
fn link<R: Handles + Abort>(rt: &R, alloc: Global, room: usize, call: u64) -> MemLink
    ensures { IsUnused result }
{
    link_of(rt, alloc, RENEWED, 20, room, call)
}

/// A round over that link: nothing is told, and the term stays.
fn fails_at<R: Handles + Abort + Copy>(rt: R, alloc: Global, call: u64, room: usize) {
    let mut dialer = dialer_of(&rt, alloc, link(&rt, alloc, room, call));
    let (account, end) = round(rt, alloc, HOLDER, &mut dialer, TURNS);
    same(rt, (call, room, account), (call, room, ASKED));
    same(rt, end, End::Done { term: 7, db2: None });
    same(rt, dialer.has_failed(), true);
}

/// Two writes and three reads, each failing in turn; a link without room.
#[test]
fn faults_of_a_link(rt: HostRuntime) {
    let _named: Option<(TcpListener, TcpStream)> = None;
    for call in 0..5u64 {
        fails_at(rt, rt.alloc(), call, 256);
    }
    for room in [0usize, 100] {
        fails_at(rt, rt.alloc(), TURNS, room);
    }
}

/// A dialer without a link, and one whose next dial fails.
#[test]
fn faults_of_a_dialer(rt: HostRuntime) {
    let _named: Option<(TcpListener, TcpStream)> = None;
    let alloc = rt.alloc();
    for who in [CANDIDATE, HOLDER] {
        let mut none = MemDialer::new(alloc, Vec::new(alloc), 1, Vec::new(alloc)).expect(
            &rt, "a dialer",
        );
        let (account, end) = round(rt, alloc, who, &mut none, TURNS);
        let Who { term, candidate: _ } = who;
        same(rt, (account, end), (ASKED, End::Done { term, db2: None }));
        same(rt, none.has_failed(), true);
    }
}

/// A step is a turn, and so is each of the five calls of the link. Without one the machine is asked
/// nothing.
#[test]
fn turns_of_a_round(rt: HostRuntime) {
    let _named: Option<(TcpListener, TcpStream)> = None;
    for budget in 0..10u64 {
        let link = link(&rt, rt.alloc(), 256, TURNS);
        let mut dialer = dialer_of(&rt, rt.alloc(), link);
        let (account, end) = round(rt, rt.alloc(), HOLDER, &mut dialer, budget);
        same(rt, (budget, account.asked), (budget, u64::from(budget > 0)));
        same(rt, (budget, account.told), (budget, u64::from(budget > 6)));
        let done = End::Done { term: 7, db2: None };
        let wanted = if budget > 6 { done } else { End::Turns };
        same(rt, (budget, end), (budget, wanted));
    }
}

/// Gives up a lease of this term by a link with room for so many bytes: what was heard, and what was
/// written.
fn given_up<R: Handles + Abort + Copy>(
    rt: R,
    alloc: Global,
    term: u64,
    room: usize,
) -> (Account, Vec<u8>) {
    let (desk, mut seat) = opened(rt, alloc);
    let link = link(&rt, alloc, room, TURNS);
    let watch = link.watch();
    let mut dialer = dialer_of(&rt, alloc, link);
    let mut service = service_of(&rt, alloc);
    let own = grant_of(&rt, alloc, term);
    let (mut clock, mut pause) = (FixedClock::new(NOW), NoPause::new());
    let mut at = AtSeat {
        rt: &rt,
        desk: &desk,
        seat: &mut seat,
    };
    let mut round = Round {
        alloc,
        dialer: &mut dialer,
        service: &mut service,
        clock: &mut clock,
        pause: &mut pause,
        turns: Turns::new(TURNS),
    };
    let ended = give_up_lease(&mut at, &mut round, &Bring, &own);
    same(rt, ended.is_ok(), true);
    let written = watch.bytes().expect(&rt, "memory");
    (closed(rt, desk, seat), written)
}

const RELEASE: &str = "POST /lease HTTP/1.1\r\nHost: s:1\r\nContent-Length: 51\r\n\r\n\
    {\"node\":\"0000000000000001\",\"op\":\"release\",\"term\":7}";

/// The term, the room of the link, and what is written.
const GIVEN_UP: &[(u64, usize, &str)] = &[(7, 256, RELEASE), (7, 0, ""), (0, 256, "")];

/// The loss is told also where the service is not reached; without a term nothing is written.
#[test]
fn leases_given_up(rt: HostRuntime) {
    let _named: Option<(TcpListener, TcpStream)> = None;
    let lost = Account {
        told: 1,
        early: true,
        moment: NOW,
        heard: Heard::Lost,
        ..SILENCE
    };
    for (term, room, written) in GIVEN_UP {
        let (account, bytes) = given_up(rt, rt.alloc(), *term, *room);
        same(rt, (*term, *room, account), (*term, *room, lost));
        same(rt, bytes.as_slice(), written.as_bytes());
    }
}
