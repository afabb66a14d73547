//! Laws of the definitions, each proved as the contract of a function that does nothing.

ghost use Rattle.std.specs.Prelude.{◌≡◌, ◌<◌, ◌^◌, ℕ, List, Ok};
ghost use Rattle.fuse_msgs.specs.declared.reply.Reply.{Reply};
ghost use Rattle.fuse_msgs.specs.declared.request.Op.{Op};
ghost use Rattle.fuse_msgs.specs.Reply.{reply_bytes};
ghost use Rattle.run_child.specs.declared.child_end.ChildEnd.{ChildEnd};
ghost use Rattle.run_child.specs.Exchanges.{Exchange};
ghost use Rattle.run_child.specs.Replies.{reading, unique_of};
ghost use Rattle.run_child.specs.Course.{Ends};
ghost use Rattle.run_child.specs.Starts.{Book};
ghost use Rattle.run_child.specs.Talk.{Place};
ghost use Rattle.run_child.specs.Whole.{StartsOnce, WritesFront};

/// Each reply that a node gives to a request is read as that reply, and as one to the request of its
/// number.
pub fn replies_read()
    ensures read { (asked : Op) (answer : Reply) (unique : ℕ) → Exchange asked answer → reading asked (reply_bytes answer unique) ≡ Ok answer }
    ensures numbered { (answer : Reply) (unique : ℕ) → unique < 2 ^ 64 → unique_of (reply_bytes answer unique) ≡ unique }
{}

/// However a run ends, what it wrote is a front of its seven requests, in order; and its starter has
/// started one program at most, with its words, and behind the grant of the lock.
pub fn seven_messages()
    ensures front { (name : List ℕ) (words : List (List ℕ)) (old new : Place) (book book_now : Book) (end : ChildEnd)
        → Ends name words old new book book_now end → WritesFront name old new }
    ensures once { (name : List ℕ) (words : List (List ℕ)) (old new : Place) (book book_now : Book) (end : ChildEnd)
        → Ends name words old new book book_now end → StartsOnce name words old book book_now }
{}
