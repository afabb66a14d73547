//! A letter asked by a dial of its own.
ghost use Rattle.std.specs.Prelude.{◌≤◌, false};
ghost use Rattle.std.specs.Io.KnownBytes.{Keeps};
ghost use Rattle.http_exchange.specs.Exchange.{DialsOnce, FaultsBy, LinksTell, Talks, TurnsBy};
ghost use Rattle.http_exchange.specs.Letters.{letter_text};
ghost use Rattle.http_exchange.specs.Writing.{EndsSending};

use crate::ends::untold_by;
use crate::letter::{Letter, letter_text};
use crate::reply_reading::read_reply;
use crate::told::{Told, Untold};
use lf_base::{Dialer, Handles, Link, SessionEnd, Text};
use link_session::{Turns, write_whole};
use std::alloc::Global;

/// Asks once, as `exchange` does, by a letter. A reply may end with its link.
pub fn exchange_text<R: Handles, T: Dialer>(
    rt: &R,
    alloc: Global,
    dialer: &mut T,
    address: &Text,
    letter: Letter<'_>,
    turns: &mut Turns,
) -> Result<Told, Untold>
    ensures dial { DialsOnce (record { text = letter_text letter.entry.method.now letter.entry.path.now address.now letter.entry.body.now; terms = record { sized = false; limit = letter.entry.limit } })
        (LinksTell T.L.given T.L.taken) (T.dials dialer.old) (T.dials dialer.new) result }
    ensures fault { FaultsBy (T.faults dialer.old) (T.faults dialer.new) result }
    ensures turns { TurnsBy turns.old turns.new result }
{
    let mut link = match dialer.dial(rt, address) {
        Ok(link) => link,
        Err(_) => return Err(Untold::Fault),
    };
    let told = post(alloc, &mut link, address, letter, turns);
    dialer.hang_up(link);
    told
}

/// Writes the letter and reads its reply.
fn post<L: Link>(
    alloc: Global,
    link: &mut L,
    host: &Text,
    letter: Letter<'_>,
    turns: &mut Turns,
) -> Result<Told, Untold>
    ensures talks { Talks (record { text = letter_text letter.entry.method.now letter.entry.path.now host.now letter.entry.body.now; terms = record { sized = false; limit = letter.entry.limit } })
        (L.given link.old) (L.given link.new) (L.taken link.old) (L.taken link.new) (L.left link.new) result }
    ensures fault { FaultsBy (L.faults link.old) (L.faults link.new) result }
    ensures turns { TurnsBy turns.old turns.new result }
{
    let limit = letter.limit;
    match send_letter(alloc, link, host, letter, turns) {
        Ok(()) => read_reply(alloc, link, false, limit, turns),
        Err(end) => Err(untold_by(end)),
    }
}

/// Writes a letter whole. Nothing is written where memory runs out.
fn send_letter<L: Link>(
    alloc: Global,
    link: &mut L,
    host: &Text,
    letter: Letter<'_>,
    turns: &mut Turns,
) -> Result<(), SessionEnd>
    ensures end { EndsSending (letter_text letter.entry.method.now letter.entry.path.now host.now letter.entry.body.now) (L.taken link.old)
        (L.taken link.new) (L.faults link.old) (L.faults link.new) turns.new result }
    ensures left { Keeps (L.left link.old) (L.left link.new) × Keeps (L.given link.old) (L.given link.new) }
    ensures turns { turns.new ≤ turns.old }
{
    let text = match letter_text(alloc, host, letter) {
        Ok(text) => text,
        Err(_) => return Err(SessionEnd::NoMemory),
    };
    write_whole(link, text.as_slice(), turns)
}
