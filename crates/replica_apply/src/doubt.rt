//! What speaks against a follower's own log.
ghost use Rattle.std.specs.Prelude.{◌≡◌, MatchBool};
ghost use Rattle.replica_apply.specs.declared.doubt.Doubt.TheVariants as doubts;
ghost use Rattle.replica_apply.specs.Doubting.{kept_doubt, FollowsDoubt, IsNotNext};

use crate::follow_end::FollowEnd;
use lf_base::Pos;
use node_core::Refusal;
use txn_log::StoreFault;

/// What speaks against a follower's own log, from one stream to the next.
#[derive(Clone, Copy, Debug, PartialEq, Eq)]
pub enum Doubt {
    /// Nothing.
    Nothing,
    /// From this position of its own a file that it was sent did not lead on.
    NotNext(Pos),
    /// Its position is to count as unknown.
    Unknown,
}

impl Doubt {
    /// Whether its next request says that its position is unknown.
    pub fn is_unknown(self) -> bool
        ensures { MatchBool result (self ≡ doubts.Unknown) (self ≡ doubts.Unknown → ⊥) }
    {
        matches!(self, Doubt::Unknown)
    }

    /// What speaks against it behind a stream that ended so.
    pub fn after(self, end: FollowEnd) -> Doubt
        ensures { FollowsDoubt self end result }
    {
        match end {
            FollowEnd::Refused(Refusal::Store(StoreFault::SumDiffers { .. })) => Doubt::Unknown,
            FollowEnd::Refused(Refusal::Store(StoreFault::NotNext { have, .. })) => {
                self.not_next(have)
            }
            _ => self.kept(),
        }
    }

    /// What does where a file did not lead on from this position.
    fn not_next(self, have: Pos) -> Doubt
        ensures { IsNotNext self have result }
    {
        match self {
            Doubt::NotNext(before) if before == have => Doubt::Unknown,
            _ => Doubt::NotNext(have),
        }
    }

    /// What does once a request was made: that the position is unknown was said in it.
    fn kept(self) -> Doubt
        ensures { result ≡ kept_doubt self }
    {
        match self {
            Doubt::Unknown => Doubt::Nothing,
            Doubt::Nothing | Doubt::NotNext(_) => self,
        }
    }
}
