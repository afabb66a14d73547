//! Replies over HTTP that several tables want.

pub const EMPTY: &[u8] = b"HTTP/1.1 200 OK\r\nContent-Length: 0\r\nConnection: close\r\n\r\n";

pub const POSITION: &[u8] = b"HTTP/1.1 200 OK\r\nContent-Length: 34\r\nConnection: close\r\n\r\n\
    0000000000000002/b20aff5e38e38e38\n";

pub const BAD: &[u8] =
    b"HTTP/1.1 400 Bad Request\r\nContent-Length: 0\r\nConnection: close\r\n\r\n";

pub const NOT_DATABASE: &[u8] =
    b"HTTP/1.1 400 Bad Request\r\nContent-Length: 12\r\nConnection: close\r\n\r\nNotDatabase\n";

pub const LTX: &[u8] =
    b"HTTP/1.1 400 Bad Request\r\nContent-Length: 4\r\nConnection: close\r\n\r\nLtx\n";

pub const NOT_FOUND: &[u8] =
    b"HTTP/1.1 404 Not Found\r\nContent-Length: 0\r\nConnection: close\r\n\r\n";

pub const ABSENT: &[u8] =
    b"HTTP/1.1 404 Not Found\r\nContent-Length: 7\r\nConnection: close\r\n\r\nAbsent\n";

pub const HELD: &[u8] =
    b"HTTP/1.1 409 Conflict\r\nContent-Length: 5\r\nConnection: close\r\n\r\nHeld\n";

pub const HALT_HELD: &[u8] =
    b"HTTP/1.1 409 Conflict\r\nContent-Length: 9\r\nConnection: close\r\n\r\nHaltHeld\n";

pub const HALT_GONE: &[u8] =
    b"HTTP/1.1 409 Conflict\r\nContent-Length: 9\r\nConnection: close\r\n\r\nHaltGone\n";

pub const BEHIND: &[u8] =
    b"HTTP/1.1 409 Conflict\r\nContent-Length: 7\r\nConnection: close\r\n\r\nBehind\n";

pub const SUM_DIFFERS: &[u8] =
    b"HTTP/1.1 409 Conflict\r\nContent-Length: 11\r\nConnection: close\r\n\r\nSumDiffers\n";

pub const TOO_LONG: &[u8] =
    b"HTTP/1.1 413 Payload Too Large\r\nContent-Length: 8\r\nConnection: close\r\n\r\nTooLong\n";

pub const LIMIT: &[u8] =
    b"HTTP/1.1 413 Payload Too Large\r\nContent-Length: 6\r\nConnection: close\r\n\r\nLimit\n";

pub const FAILED: &[u8] =
    b"HTTP/1.1 500 Internal Server Error\r\nContent-Length: 7\r\nConnection: close\r\n\r\nFailed\n";

pub const DISK: &[u8] =
    b"HTTP/1.1 500 Internal Server Error\r\nContent-Length: 5\r\nConnection: close\r\n\r\nDisk\n";

pub const ODD: &[u8] =
    b"HTTP/1.1 500 Internal Server Error\r\nContent-Length: 10\r\nConnection: close\r\n\r\nOddAnswer\n";

pub const NOT_PRIMARY: &[u8] =
    b"HTTP/1.1 503 Service Unavailable\r\nContent-Length: 11\r\nConnection: close\r\n\r\nNotPrimary\n";

pub const FULL: &[u8] =
    b"HTTP/1.1 507 Insufficient Storage\r\nContent-Length: 9\r\nConnection: close\r\n\r\nNoMemory\n";
