ghost use Rattle.std.specs.Prelude.{◌≡◌};
ghost use Rattle.node_core.specs.Errors.{refusal_of, refusal_of_encoding, refusal_of_import};

use halt_forward::HaltFault;
use ltx_codec::LtxFault;
use snapshot::ImportFault;
use txn_log::StoreFault;

/// Why a node does not do what it is asked. Only after `Store(Disk)` may something be changed.
#[derive(Clone, Copy, Debug, PartialEq, Eq)]
pub enum Refusal {
    /// Only the primary answers this.
    NotPrimary,
    /// The primary takes nothing of other nodes.
    NotReplica,
    /// The bytes are no LTX file.
    Ltx(LtxFault),
    /// The store does not do it.
    Store(StoreFault),
    /// These bytes are not taken in the place of the database.
    Import(ImportFault),
    /// The database was never written.
    Absent,
    /// The table of write permits does not do it.
    Halt(HaltFault),
    NoMemory,
}

/// The refusal of a fault of the store.
pub(crate) fn refusal_of(fault: StoreFault) -> Refusal
    ensures { result ≡ refusal_of fault }
{
    match fault {
        StoreFault::NoMemory => Refusal::NoMemory,
        other => Refusal::Store(other),
    }
}

/// The refusal of bytes that are no file.
pub(crate) fn refusal_of_encoding(fault: LtxFault) -> Refusal
    ensures { result ≡ refusal_of_encoding fault }
{
    match fault {
        LtxFault::NoMemory => Refusal::NoMemory,
        other => Refusal::Ltx(other),
    }
}

/// The refusal of bytes that are not imported.
pub(crate) fn refusal_of_import(fault: ImportFault) -> Refusal
    ensures { result ≡ refusal_of_import fault }
{
    match fault {
        ImportFault::NoMemory => Refusal::NoMemory,
        other => Refusal::Import(other),
    }
}
