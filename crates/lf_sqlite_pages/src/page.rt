//! One page in memory, which its image may write over in place.
ghost use Rattle.std.specs.Prelude.{◌≡◌, length, replicate, IfOk};

use lf_base::{Bytes, NoMemory};
use std::alloc::Global;
use std::marker::Model;

#[derive(Debug, Drop)]
pub struct Page {
    bytes: Vec<u8>,
}

impl Model for Page {
    ghost use Rattle.std.specs.Prelude.{ℕ, List};

    ghost Value = { List ℕ };

    ghost view = { λ page. page.bytes.items };
}

impl Page {
    pub fn of(bytes: Bytes) -> Page
        ensures { result ≡ bytes }
    {
        Page {
            bytes: bytes.into_vec(),
        }
    }

    pub fn zeros(alloc: Global, size: usize) -> Result<Page, NoMemory>
        ensures { IfOk result (λ page. page ≡ replicate size 0) }
    {
        let bytes = vec![in alloc; 0; size]?;
        Ok(Page { bytes })
    }

    pub fn as_slice(&self) -> &[u8]
        ensures { result.now ≡ self.now }
    {
        self.bytes.as_slice()
    }

    pub fn overwrite(&mut self, bytes: &[u8])
        requires { length bytes.now ≡ length self.old }
        ensures { self.new ≡ bytes.now }
    {
        self.bytes.as_mut_slice().copy_from_slice(bytes);
    }
}
