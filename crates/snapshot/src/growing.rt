//! A sink that keeps what it takes.
ghost use Rattle.std.specs.Prelude.{◌≡◌, ◌<◌, Some};

use lf_base::{Failed, Sink};

/// Bytes to which a sink's bytes are appended. It fails for want of memory alone.
#[derive(Drop)]
pub struct Growing {
    pub bytes: Vec<u8>,
    pub faults: u64,
}

impl Sink for Growing {
    ghost taken = { λ s. Some s.bytes.items };

    ghost faults = { λ s. s.faults };

    fn write(&mut self, piece: &[u8]) -> Result<usize, Failed> {
        match self.bytes.extend_from_slice(piece) {
            Ok(()) => Ok(piece.len()),
            Err(_) => {
                self.faults = self.faults.saturating_add(1);
                Err(Failed)
            }
        }
    }
}
