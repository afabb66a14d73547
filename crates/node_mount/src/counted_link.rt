//! A link of the served files, whose refusals are counted.
ghost use Rattle.std.specs.Prelude.{◌≡◌};

use lf_base::{Failed, Link, le32_at};
use node_figures::Tally;
use std::net::SocketAddr;

/// How many bytes the head of a reply has: its length, its error number below zero, and whose it is.
const HEAD: usize = 16;

/// It does what the link inside it does. Of each reply that is written the error number is counted. A reply
/// is written by calls of its own; where the first of them takes less than its head, nothing is counted
/// from then on.
#[derive(Drop)]
pub struct CountedLink<L> {
    link: L,
    tally: Tally,
    /// How many bytes of the reply are to come.
    rest: u64,
    is_lost: bool,
}

impl<L> CountedLink<L> {
    pub fn new(link: L, tally: Tally) -> CountedLink<L> {
        CountedLink {
            link,
            tally,
            rest: 0,
            is_lost: false,
        }
    }

    /// These bytes were written.
    fn note(&mut self, bytes: &[u8])
        ensures { self.new.link ≡ self.old.link }
    {
        let count = bytes.len() as u64;
        if self.rest > 0 {
            self.rest = self.rest.saturating_sub(count);
        } else if bytes.len() < HEAD {
            self.is_lost = self.is_lost || !bytes.is_empty();
        } else if !self.is_lost {
            self.rest = u64::from(le32_at(bytes, 0)).saturating_sub(count);
            self.note_error(le32_at(bytes, 4));
        }
    }

    /// A reply has this error number, which is 0 or below.
    fn note_error(&self, error: u32) {
        if error != 0 {
            self.tally.refused(0u32.wrapping_sub(error));
        }
    }
}

impl<L: Link> Link for CountedLink<L> {
    ghost left = { λ l. L.left l.link };

    ghost given = { λ l. L.given l.link };

    ghost taken = { λ l. L.taken l.link };

    ghost faults = { λ l. L.faults l.link };

    ghost moves = { λ l. L.moves l.link };

    fn read(&mut self, out: &mut [u8]) -> Result<usize, Failed> {
        self.link.read(out)
    }

    fn write(&mut self, piece: &[u8]) -> Result<usize, Failed> {
        let written = self.link.write(piece)?;
        if let Some(bytes) = piece.get(..written) {
            self.note(bytes);
        }
        Ok(written)
    }

    fn peer(&self) -> Option<SocketAddr> {
        self.link.peer()
    }
}
