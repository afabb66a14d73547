//! Status and name of a refusal.
ghost use Rattle.std.specs.Prelude.{◌≡◌, ◌∷◌, ◌++◌, []};
ghost use Rattle.http.specs.StatusCode.{IsStatusCode};
ghost use Rattle.stream_primary.specs.Refusing.{halt_name, halt_status, import_name, import_status, line_of, status_of, store_name, store_status};

use halt_forward::HaltFault;
use node_core::Refusal;
use snapshot::ImportFault;
use txn_log::StoreFault;

/// The status of a refusal.
pub fn status_of(refusal: Refusal) -> u16
    ensures is { result ≡ status_of refusal }
    ensures fits { IsStatusCode result }
{
    match refusal {
        Refusal::NotPrimary | Refusal::NotReplica => 503,
        Refusal::Ltx(_) => 400,
        Refusal::Store(fault) => store_status(fault),
        Refusal::Import(fault) => import_status(fault),
        Refusal::Absent => 404,
        Refusal::Halt(fault) => halt_status(fault),
        Refusal::NoMemory => 507,
    }
}

fn store_status(fault: StoreFault) -> u16
    ensures is { result ≡ store_status fault }
    ensures fits { IsStatusCode result }
{
    match fault {
        StoreFault::Disk | StoreFault::Broken => 500,
        StoreFault::NotNext { .. } | StoreFault::SumDiffers { .. } | StoreFault::PageSize { .. } =>
            { 409 }
        StoreFault::Limit => 413,
        StoreFault::NoMemory => 507,
    }
}

fn import_status(fault: ImportFault) -> u16
    ensures is { result ≡ import_status fault }
    ensures fits { IsStatusCode result }
{
    match fault {
        ImportFault::NotDatabase => 400,
        ImportFault::Limit => 413,
        ImportFault::Store(_) => 500,
        ImportFault::NoMemory => 507,
    }
}

fn halt_status(fault: HaltFault) -> u16
    ensures is { result ≡ halt_status fault }
    ensures fits { IsStatusCode result }
{
    match fault {
        HaltFault::HaltHeld { .. } | HaltFault::HaltGone { .. } | HaltFault::Behind { .. } => 409,
        HaltFault::Limit => 413,
    }
}

/// The line that names a refusal.
pub fn line_of(refusal: Refusal) -> &'static [u8]
    ensures { result.now ≡ line_of refusal }
{
    match refusal {
        Refusal::NotPrimary => b"NotPrimary\n",
        Refusal::NotReplica => b"NotReplica\n",
        Refusal::Ltx(_) => b"Ltx\n",
        Refusal::Store(fault) => store_line(fault),
        Refusal::Import(fault) => import_line(fault),
        Refusal::Absent => b"Absent\n",
        Refusal::Halt(fault) => halt_line(fault),
        Refusal::NoMemory => b"NoMemory\n",
    }
}

fn store_line(fault: StoreFault) -> &'static [u8]
    ensures { result.now ≡ store_name fault ++ 10 ∷ [] }
{
    match fault {
        StoreFault::Disk => b"Disk\n",
        StoreFault::Broken => b"Broken\n",
        StoreFault::NotNext { .. } => b"NotNext\n",
        StoreFault::SumDiffers { .. } => b"SumDiffers\n",
        StoreFault::Limit => b"Limit\n",
        StoreFault::NoMemory => b"NoMemory\n",
        StoreFault::PageSize { .. } => b"PageSize\n",
    }
}

fn import_line(fault: ImportFault) -> &'static [u8]
    ensures { result.now ≡ import_name fault ++ 10 ∷ [] }
{
    match fault {
        ImportFault::NotDatabase => b"NotDatabase\n",
        ImportFault::Limit => b"Limit\n",
        ImportFault::Store(_) => b"Failed\n",
        ImportFault::NoMemory => b"NoMemory\n",
    }
}

fn halt_line(fault: HaltFault) -> &'static [u8]
    ensures { result.now ≡ halt_name fault ++ 10 ∷ [] }
{
    match fault {
        HaltFault::HaltHeld { .. } => b"HaltHeld\n",
        HaltFault::HaltGone { .. } => b"HaltGone\n",
        HaltFault::Behind { .. } => b"Behind\n",
        HaltFault::Limit => b"Limit\n",
    }
}
