//! A machine that keeps account of the news that it is told.
ghost use Rattle.turn_desk.specs.Seats.{IsOf};

use lease_link::Bringing;
use lf_base::Text;
use std::alloc::Global;
use std::process::Abort;
use std::sync::Wait;
use turn_desk::{Desk, Machine, Seat};

/// News as they are brought to it.
#[derive(Debug, Drop)]
pub enum News {
    Asking(u64),
    Granted(u64, u64, u64),
    Lost(u64),
    Primary(u64, Text),
}

/// What it heard of a reply.
#[derive(Clone, Copy, Debug, PartialEq, Eq)]
pub enum Heard {
    Nothing,
    Granted { term: u64, ttl: u64 },
    Lost,
    /// `db2` is whether it was told that host.
    Primary { db2: bool },
}

/// How often it was told that the service is about to be asked, and of a reply; whether of a reply
/// before an asking; the moment that came last; and what it heard of a reply.
#[derive(Clone, Copy, Debug, PartialEq, Eq)]
pub struct Account {
    pub asked: u64,
    pub told: u64,
    pub early: bool,
    pub moment: u64,
    pub heard: Heard,
}

/// Nothing was told.
pub const SILENCE: Account = Account {
    asked: 0,
    told: 0,
    early: false,
    moment: 0,
    heard: Heard::Nothing,
};

#[derive(Drop)]
pub struct Listener {
    account: Account,
}

impl Listener {
    fn hear(&mut self, now: u64, heard: Heard) {
        self.account = Account {
            told: self.account.told.saturating_add(1),
            early: self.account.asked == 0,
            moment: now,
            heard,
            ..self.account
        };
    }
}

impl Machine for Listener {
    type Ask = News;

    type Answer = ();

    ghost steps = { λ _ _ _ _ _. Unit {0} };

    fn step(&mut self, _caller: u64, ask: &News) {
        match ask {
            News::Asking(now) => {
                self.account.asked = self.account.asked.saturating_add(1);
                self.account.moment = *now;
            }
            News::Granted(now, term, ttl) => self.hear(
                *now,
                Heard::Granted {
                    term: *term,
                    ttl: *ttl,
                },
            ),
            News::Lost(now) => self.hear(*now, Heard::Lost),
            News::Primary(now, host) => self.hear(
                *now,
                Heard::Primary {
                    db2: host.as_str() == "db2",
                },
            ),
        }
    }

    fn news(&self) -> u64 {
        0
    }
}

/// Brings news as they are.
pub struct Bring;

impl Bringing for Bring {
    ghost use Rattle.link_tests.specs.declared.lease_rounds.listener.News.TheVariants as news;

    type Ask = News;

    ghost asking_at = { λ now. news.Asking now };

    ghost granted_at = { λ now term ttl. news.Granted now term ttl };

    ghost lost_at = { λ now. news.Lost now };

    ghost primary_at = { λ now host. news.Primary now host };

    fn asking(&self, now: u64) -> News {
        News::Asking(now)
    }

    fn granted(&self, now: u64, term: u64, ttl: u64) -> News {
        News::Granted(now, term, ttl)
    }

    fn lost(&self, now: u64) -> News {
        News::Lost(now)
    }

    fn primary(&self, now: u64, host: Text) -> News {
        News::Primary(now, host)
    }
}

/// A desk of such a machine, and its seat.
pub fn opened(rt: impl Copy + Abort, alloc: Global) -> (Desk<Listener>, Seat<Listener>)
    ensures { IsOf result.1 result.0 }
{
    match Desk::open(alloc, Listener { account: SILENCE }) {
        Ok(made) => made,
        Err(_) => panic!(rt; "no memory"),
    }
}

/// What the machine was told.
pub fn closed<R: Wait + Copy>(rt: R, desk: Desk<Listener>, seat: Seat<Listener>) -> Account
    requires { IsOf seat desk }
{
    let Listener { account } = desk.close(rt, seat);
    account
}
