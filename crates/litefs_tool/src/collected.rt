//! An input that is kept whole.
ghost use Rattle.std.specs.Prelude.{◌≡◌, []};

use crate::input::Consumer;
use lf_base::NoMemory;
use std::alloc::Global;

/// The bytes that were consumed.
#[derive(Drop)]
pub struct Collected {
    pub bytes: Vec<u8>,
}

impl Collected {
    pub fn new(alloc: Global) -> Collected
        ensures { result.bytes.items ≡ [] }
    {
        Collected {
            bytes: Vec::new(alloc),
        }
    }
}

impl Consumer for Collected {
    ghost has_consumed = { λ collected bytes. collected.bytes.items ≡ bytes };

    fn consume_prefix(self, bytes: &[u8]) -> Result<(Collected, usize), NoMemory> {
        let mut collected = self;
        collected.bytes.extend_from_slice(bytes)?;
        Ok((collected, bytes.len()))
    }
}
