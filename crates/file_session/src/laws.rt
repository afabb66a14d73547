//! Laws of the definitions, each proved as the contract of a function that does nothing.
ghost use Rattle.std.specs.Prelude.{◌≡◌, ℕ};
ghost use Rattle.lf_base.specs.declared.session_end.SessionEnd.{SessionEnd};
ghost use Rattle.fuse_msgs.specs.declared.request.Request.{Request};
ghost use Rattle.fuse_msgs.specs.Message.{IsMessage};
ghost use Rattle.link_session.specs.Rounds.{Round};
ghost use Rattle.link_session.specs.Seats.{FoundWorn};
ghost use Rattle.http_exchange.specs.Exchange.{LinksTell};
ghost use Rattle.link_session.specs.Stands.{Asker, Stand};
ghost use Rattle.file_session.specs.declared.serving.Tries.TheVariants as tries;
ghost use Rattle.file_session.specs.Asking.{FileEntry, tries_of};
ghost use Rattle.file_session.specs.Message.{IsRound};
ghost use Rattle.file_session.specs.OneRun.{SessionsAreInOneRun};
ghost use Rattle.file_session.specs.Session.{IsSession};
ghost use Rattle.file_session.specs.Written.{IsAskedOnce, WritesReplies};

use lf_base::Dialer;
use lf_disk::Disk;
use node_core::Node;
use turn_desk::{Machine, Seat};

/// However a session ends, what it has written is a front of the replies to its messages, in their order.
pub fn replies_in_order()
    ensures { (who : Asker) (budget : ℕ) (old new : Stand FileEntry) (end : SessionEnd) → IsSession who budget old new end → WritesReplies who old.place.taken new.place.taken }
{}

/// A message of any other request than SETLKW is asked once.
pub fn asked_once()
    ensures { (who : Asker) (round : Round FileEntry) (request : Request) → IsRound who round → IsMessage round.message request → tries_of request.op ≡ tries.Once
        → IsAskedOnce who request round.entries }
{}

/// A session on the files of a node, over any disk and by any dialer, stands in one run of that node: all that its asks came
/// to are steps of the run, in their order, and what it wrote are the replies to what it heard of them.
pub fn session_in_one_run<D: Disk, T: Dialer>(seat: &Seat<Node<D>>)
    ensures { SessionsAreInOneRun ⟦<Node<D> as Machine>⟧.steps (LinksTell T.L.given T.L.taken) (FoundWorn seat.now) }
{}
