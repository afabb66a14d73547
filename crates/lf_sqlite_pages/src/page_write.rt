ghost use Rattle.std.specs.Prelude.{◌≡◌, ◌↔◌, IsTrue};

use lf_base::Bytes;

/// One page that a change writes: its number, counted from 1, and its bytes.
#[derive(Debug, Drop)]
pub struct PageWrite {
    pub number: u32,
    pub bytes: Bytes,
}

impl PageWrite {
    /// Whether both write the same bytes at the same number.
    pub fn equals(&self, other: &PageWrite) -> bool
        ensures { IsTrue result ↔ (self.now ≡ other.now) }
    {
        self.number == other.number && self.bytes.as_slice() == other.bytes.as_slice()
    }
}
