ghost use Rattle.std.specs.Prelude.{◌≡◌};

use std::fmt;
use std::marker::Model;

/// Bytes that a contract sees as a list. None of its calls takes memory.
#[derive(Drop)]
pub struct Bytes {
    inside: Vec<u8>,
}

impl Model for Bytes {
    ghost use Rattle.std.specs.Prelude.{ℕ, List};

    ghost Value = { List ℕ };

    ghost view = { λ b. b.inside.items };
}

impl Bytes {
    pub fn of(bytes: Vec<u8>) -> Bytes
        ensures { result ≡ bytes.items }
    {
        Bytes { inside: bytes }
    }

    pub fn as_slice(&self) -> &[u8]
        ensures { result.now ≡ self.now }
    {
        self.inside.as_slice()
    }

    pub fn into_vec(self) -> Vec<u8>
        ensures { result.items ≡ self }
    {
        let Bytes { inside } = self;
        inside
    }
}

/// Prints the list.
impl fmt::Debug for Bytes {
    fn fmt<W: fmt::Write>(&self, f: &mut fmt::Formatter<W>) -> fmt::Result {
        fmt::Debug::fmt(&self.as_slice(), f)
    }
}
