//! The database of the programs and the tests.
ghost use Rattle.std.specs.Prelude.{◌≡◌, IfOk, codes};

use lf_base::{Name, NoMemory};
use std::alloc::Global;

/// Its name, `app`.
pub fn database(alloc: Global) -> Result<Name, NoMemory>
    ensures { IfOk result (λ name. name ≡ codes "app") }
{
    match Name::read(alloc, b"app") {
        Ok(name) => Ok(name),
        Err(_) => Err(NoMemory),
    }
}
