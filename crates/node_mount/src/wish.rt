//! When a node asks to be primary.
ghost use Rattle.std.specs.Prelude.{◌≡◌};
ghost use Rattle.node_mount.specs.Leasing.{asks_to_be, begins_to_wait, has_database, rounds_before, term_after, wish_after};

use lease_link::KeepEnd;
use lf_base::Pos;
use node_core::NodeInfo;

/// What a node has in mind between two rounds with the lease service.
#[derive(Clone, Copy, Debug, PartialEq, Eq)]
pub struct Wish {
    /// Whether it may become primary.
    pub candidate: bool,
    /// Of how many rounds that were named nobody it waits for the last, while it has no database.
    pub patience: u64,
    /// How many rounds in a row asked who is primary, and were named nobody. One that asked to be it stands between them.
    pub unnamed: u64,
    /// Whether the round before asked to be primary.
    pub asked: bool,
}

impl Wish {
    /// Whether the next round asks to be primary, where the node has no term: that of a candidate, after as many rounds as it
    /// waits for, the last of which asked who is.
    pub fn asks_to_be(self, has_database: bool) -> bool
        ensures { result ≡ asks_to_be self has_database }
    {
        self.candidate && !self.asked && self.unnamed >= self.rounds_before(has_database)
    }

    /// For how many rounds that were named nobody it waits: with a database for one.
    fn rounds_before(self, has_database: bool) -> u64
        ensures { result ≡ rounds_before self has_database }
    {
        if has_database { 1 } else { self.patience }
    }

    /// After a round that asked to be primary, or didn't.
    pub fn after(self, asked: bool, end: &KeepEnd) -> Wish
        ensures { result ≡ wish_after self asked end.now }
    {
        let unnamed = match end {
            _ if asked => self.unnamed,
            KeepEnd::Nobody => self.unnamed.saturating_add(1),
            _ => 0,
        };
        Wish {
            unnamed,
            asked,
            ..self
        }
    }

    /// Whether it waits from this round on: the first one that was named nobody, of a candidate without a database.
    pub fn begins_to_wait(self, has_database: bool) -> bool
        ensures { result ≡ begins_to_wait self has_database }
    {
        self.candidate && !has_database && self.unnamed == 1 && self.patience > 1
    }
}

/// Whether a node that says this of itself has a database: it stands at a position, or has pages.
pub fn has_database(info: &NodeInfo) -> bool
    ensures { result ≡ has_database info.now }
{
    let nowhere = Pos { txid: 0, sum: 0 };
    info.pos != nowhere || info.commit != 0
}

/// The term that a node has after a round, which had this one before it.
pub fn term_after(term: u64, end: &KeepEnd) -> u64
    ensures { result ≡ term_after term end.now }
{
    match end {
        KeepEnd::Done { term, .. } => *term,
        _ => term,
    }
}
