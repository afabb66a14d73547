ghost use Rattle.std.specs.Prelude.{◌≡◌, IfOk, IfErr, IfSome, IfNone, length, ◌<◌, IsFalse, slice_index};
ghost use Rattle.lf_base.specs.Name.{IsName, BreaksName, HasNameBytes, is_name_byte as may_stand, has_ending as ends_as_file};

use crate::memory::NoMemory;
use std::alloc::Global;
use std::marker::Model;

/// Why bytes are no name. The first that holds, in this order, is answered.
#[derive(Clone, Copy, Debug, PartialEq, Eq)]
pub enum NameFault {
    /// There are 0 or more than 64 bytes.
    Length,
    /// The first byte is no ASCII letter or digit.
    First,
    /// The byte at `at` may not stand in a name, and those before it may.
    Byte { at: usize },
    /// It ends as the name of a file beside a database.
    Suffix,
    NoMemory,
}

impl From<NoMemory> for NameFault {
    ghost use Rattle.lf_base.specs.declared.name.NameFault.TheVariants as fault;

    ghost from_gives = { λ _ f. f ≡ fault.NoMemory };

    fn from(_memory: NoMemory) -> NameFault {
        NameFault::NoMemory
    }
}

/// The name of a database: 1 to 64 ASCII letters, digits, `.`, `_` and `-`, the first a letter or
/// digit, and no ending `-journal`, `-wal`, `-shm`, `-pos` or `-lock`. It is seen as its bytes.
#[derive(Debug, Drop)]
pub struct Name {
    inside: Vec<u8>,
}

impl Model for Name {
    ghost use Rattle.std.specs.Prelude.{ℕ, List};

    ghost Value = { List ℕ };

    ghost use Rattle.lf_base.specs.Name.{IsName};

    ghost view = { λ n. n.inside.items };

    ghost invariant = { λ n. IsName n.inside.items };
}

impl Name {
    pub fn read(alloc: Global, bytes: &[u8]) -> Result<Name, NameFault>
        ensures ok { IfOk result (λ name. name ≡ bytes.now) }
        ensures name { IfOk result (λ _. IsName bytes.now) }
        ensures fault { IfErr result (BreaksName bytes.now) }
    {
        if bytes.is_empty() || bytes.len() > 64 {
            return Err(NameFault::Length);
        }
        if !bytes[0].is_ascii_alphanumeric() {
            return Err(NameFault::First);
        }
        if let Some(at) = first_refused(bytes) {
            return Err(NameFault::Byte { at });
        }
        if has_ending(bytes) {
            return Err(NameFault::Suffix);
        }
        let inside = Vec::from_slice(alloc, bytes).map_err(NoMemory::from)?;
        Ok(Name { inside })
    }

    pub fn bytes(&self) -> &[u8]
        ensures value { result.now ≡ self.now }
        ensures name { IsName result.now }
    {
        self.inside.as_slice()
    }

    /// The same name once more.
    pub fn copy(&self) -> Result<Name, NoMemory>
        ensures { IfOk result (λ name. name ≡ self.now) }
    {
        let inside = self.inside.clone()?;
        Ok(Name { inside })
    }
}

/// Where the first byte stands that may not stand in a name.
fn first_refused(bytes: &[u8]) -> Option<usize>
    ensures found { IfSome result (λ at. at < length bytes.now) }
    ensures refused { IfSome result (λ at. IsFalse (may_stand (slice_index bytes.now at))) }
    ensures before { IfSome result (HasNameBytes bytes.now) }
    ensures none { IfNone result (HasNameBytes bytes.now (length bytes.now)) }
{
    for (at, byte) in bytes.iter().enumerate() {
        if !is_name_byte(*byte) {
            return Some(at);
        }
    }
    None
}

fn is_name_byte(byte: u8) -> bool
    ensures { result ≡ may_stand byte }
{
    byte.is_ascii_alphanumeric() || byte == b'.' || byte == b'_' || byte == b'-'
}

/// Whether the bytes end as the name of a file that stands beside a database.
#[tactic(auto, unfolding(crate::specs::Name::has_ending))]
fn has_ending(bytes: &[u8]) -> bool
    ensures { result ≡ ends_as_file bytes.now }
{
    bytes.ends_with(b"-journal")
        || bytes.ends_with(b"-wal")
        || bytes.ends_with(b"-shm")
        || bytes.ends_with(b"-pos")
        || bytes.ends_with(b"-lock")
}
