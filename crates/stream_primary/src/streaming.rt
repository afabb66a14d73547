//! A stream to a follower.
ghost use Rattle.std.specs.Prelude.{◌≡◌, Err};
ghost use Rattle.std.specs.Io.KnownBytes.{Keeps};
ghost use Rattle.lf_base.specs.declared.session_end.SessionEnd.TheVariants as ends;
ghost use Rattle.link_session.specs.Sessions.{asker_of, stand_of, SessionGoesOn};
ghost use Rattle.link_session.specs.Stands.{Spends};
ghost use Rattle.stream_primary.specs.Streaming.{Streams};

use crate::hello::greet;
use crate::standing::{Sent, Standing};
use lf_base::{Clock, Link, Name, Pause, SessionEnd};
use link_session::{Session, Steps};
use node_core::{Answer, Ask, Whereabouts};

/// Streams to a follower that says that it stands here, to the end of the session: one Hello after another, each
/// sent before the next is asked.
pub fn stream<S: Steps<Ask = Ask, Answer = Answer>, L: Link, C: Clock, P: Pause>(
    session: &mut Session<L, C, P>,
    steps: &mut S,
    name: &Name,
    from: Whereabouts,
) -> SessionEnd
    ensures streams { Streams (asker_of S.Steps C.Clock session.old steps.old) name.now from (stand_of S.Steps L.Link session.old steps.old)
        (stand_of S.Steps L.Link session.new steps.new) session.new.turns result }
    ensures left { Keeps (L.left session.old.link.now) (L.left session.new.link.now) }
    ensures same { SessionGoesOn S.Steps C.Clock session.old session.new steps.old steps.new }
    ensures spent { Spends {T = Unit {0}} session.old.turns (stand_of S.Steps L.Link session.old steps.old) session.new.turns (stand_of S.Steps L.Link session.new steps.new) (Err result) }
    ensures worn { result ≡ ends.Worn → S.is_worn steps.new }
{
    let mut text = Vec::new(session.alloc);
    let mut at = Standing {
        here: from,
        sent: Sent::Nothing,
    };
    'hellos: loop {
        match greet(session, steps, name, at, &mut text) {
            Ok(next) => at = next,
            Err(end) => return end,
        }
    }
}
