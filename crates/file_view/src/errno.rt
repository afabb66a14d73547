//! The error numbers of Linux that a rule answers with.
use lf_base::Errno;

pub const EPERM: Errno = Errno(1);

pub const ENOENT: Errno = Errno(2);

pub const EIO: Errno = Errno(5);

pub const EBADF: Errno = Errno(9);

pub const EAGAIN: Errno = Errno(11);

pub const EACCES: Errno = Errno(13);

pub const EINVAL: Errno = Errno(22);

pub const ENFILE: Errno = Errno(23);

pub const EFBIG: Errno = Errno(27);

pub const ENOSPC: Errno = Errno(28);

pub const EROFS: Errno = Errno(30);

pub const ENOLCK: Errno = Errno(37);
