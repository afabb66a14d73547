//! Laws of the definitions, each the contract of a function that does nothing.
ghost use Rattle.world_laws.specs.SafetyLaw.{LedKept, SafeKept};
ghost use Rattle.world_laws.specs.ReaderLaw.{ReaderSteady};
ghost use Rattle.world_laws.specs.CatchUpLaw.{AnswersByWhole, SnapshotInstalls, DropInstalls, SentFileApplies};
ghost use Rattle.world_laws.specs.ForwardLaw.{ForwardedStands, SendLeaves, RefusalLeaves};
ghost use Rattle.world_laws.specs.StopLaw.{StopsAreCuts, StopIsTwoEvents, StopOfBroken, EachIsFound, StopIsReached};
ghost use Rattle.world_laws.specs.MomentLaw.{MomentIsOfStep};
ghost use Rattle.world_laws.specs.RoleLaw.{OnlyPrimariesCommit};
ghost use Rattle.world_laws.specs.SnapshotLaw.{SnapshotIsSound};
ghost use Rattle.world_laws.specs.Scenario.{SomethingHappens, PagesDiffer};

/// After every list of events that meets the premises, each node's committed pages are those of the lineage
/// that its position names, and all else that `IsSafe` says holds, whoever commits. After one whose turns
/// lead, only a term's holder has committed in it, and the commits of a term are one line (`IsLed`).
pub fn safe_kept()
    ensures kept { SafeKept }
    ensures led { LedKept }
{}

/// While an owner is inside at a plain replica, position, image, database file and committed frames stay.
pub fn reader_steady()
    ensures { ReaderSteady }
{}

/// A position that a primary's log lacks is answered by one snapshot, or by Gone where the database was
/// dropped. What was sent is then held back by a lock that somebody holds, is applied, or is refused for a
/// fault of the disk, a store that is broken, or want of memory.
pub fn answer_installs()
    ensures answer { AnswersByWhole }
    ensures snapshot { SnapshotInstalls }
    ensures dropped { DropInstalls }
    ensures file { SentFileApplies }
{}

/// A forwarded commit that is answered Done stands once in the lineage of the primary that accepted it, and
/// the replica has its position and pages. A Send, and a Forwarded that isn't Done, change neither.
pub fn forwarded_once()
    ensures stands { ForwardedStands }
    ensures send { SendLeaves }
    ensures refusal { RefusalLeaves }
{}

/// A stop inside a step is a step of the same ask that fails, and a restart: so of a node, and of a cluster,
/// where a run of one or two events comes to whatever the stop leaves.
pub fn stops_are_failures()
    ensures store { StopsAreCuts }
    ensures node { StopIsTwoEvents }
    ensures broken { StopOfBroken }
    ensures restart { EachIsFound }
    ensures run { StopIsReached }
{}

/// The snapshot of a store that was written is a file within the limits.
pub fn snapshot_is_sound()
    ensures { SnapshotIsSound }
{}

/// The definitions are not empty: a run in which what they speak of happens, of any pages of different sums;
/// and there are such pages.
pub fn something_happens()
    ensures run { SomethingHappens }
    ensures pages { PagesDiffer }
{}

/// Before a node does what it is asked, what has expired at the moment ends. A step of the node as it is then
/// is a step of the node as it was.
pub fn moment_is_of_step()
    ensures { MomentIsOfStep }
{}

/// A step that makes a committing call, whether or not it fails, is of a node that was primary before it and
/// is so after it: no replica commits, whatever a step calls its role.
pub fn only_primaries_commit()
    ensures { OnlyPrimariesCommit }
{}
