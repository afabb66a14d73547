//! The error numbers of Linux that a node answers with.
ghost use Rattle.std.specs.Prelude.{◌≡◌};
ghost use Rattle.node_core.specs.Errors.{errno_of_store, errno_of_view};

use file_view::ViewFault;
use lf_base::Errno;
use lf_disk::Disk;
use txn_log::StoreFault;

pub const EPERM: Errno = Errno(1);

pub const EIO: Errno = Errno(5);

pub const EAGAIN: Errno = Errno(11);

const ENOMEM: Errno = Errno(12);

const EFBIG: Errno = Errno(27);

const ENOSPC: Errno = Errno(28);

pub const EROFS: Errno = Errno(30);

/// The number of a fault of a store on this disk.
pub fn errno_of_store<D: Disk>(disk: &D, fault: StoreFault) -> Errno
    ensures { result ≡ errno_of_store (D.error disk.now) fault }
{
    match fault {
        StoreFault::Disk if disk.is_full() => ENOSPC,
        StoreFault::Disk | StoreFault::Broken => EIO,
        StoreFault::Limit => EFBIG,
        StoreFault::NoMemory => ENOMEM,
        StoreFault::NotNext { .. } | StoreFault::SumDiffers { .. } | StoreFault::PageSize { .. } =>
            EIO,
    }
}

/// The number of a request's fault.
pub fn errno_of_view(fault: ViewFault) -> Errno
    ensures { result ≡ errno_of_view fault }
{
    match fault {
        ViewFault::Errno(number) => number,
        ViewFault::Page(_) => EIO,
        ViewFault::NoMemory => ENOMEM,
    }
}
