//! Names of databases compared.
ghost use Rattle.std.specs.Prelude.{◌≡◌, MatchBool};

use lf_base::Name;

/// Whether both are the name of one database.
pub fn is_same(other: &Name, name: &Name) -> bool
    ensures { MatchBool result (other.now ≡ name.now) (other.now ≡ name.now → ⊥) }
{
    are_same(other.bytes(), name.bytes())
}

fn are_same(bytes: &[u8], others: &[u8]) -> bool
    ensures { MatchBool result (bytes.now ≡ others.now) (bytes.now ≡ others.now → ⊥) }
{
    bytes == others
}
