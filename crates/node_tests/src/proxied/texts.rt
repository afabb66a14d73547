//! The requests and replies of the table, written out.

pub const GET: &[u8] = b"GET /a HTTP/1.1\r\nHost: x\r\n\r\n";

pub const GET_PASSED: &[u8] = b"GET /a HTTP/1.1\r\nHost: x\r\nConnection: close\r\n\r\n";

pub const GET_TWICE: &[u8] =
    b"GET /a HTTP/1.1\r\nHost: x\r\n\r\nGET /b HTTP/1.1\r\nHost: x\r\n\r\n";

pub const HEAD: &[u8] = b"HEAD /a HTTP/1.1\r\nHost: x\r\n\r\n";

pub const HEAD_PASSED: &[u8] = b"HEAD /a HTTP/1.1\r\nHost: x\r\nConnection: close\r\n\r\n";

/// The client has seen the first transaction, or the second.
pub const SEEN_1: &[u8] = b"GET /a HTTP/1.1\r\nHost: x\r\nconnection: keep-alive\r\n\
    Cookie: a=1; __txid=0000000000000001\r\n\r\n";

pub const SEEN_1_PASSED: &[u8] = b"GET /a HTTP/1.1\r\nHost: x\r\n\
    Cookie: a=1; __txid=0000000000000001\r\nConnection: close\r\n\r\n";

pub const SEEN_2: &[u8] = b"GET /a HTTP/1.1\r\nHost: x\r\nCookie: __txid=0000000000000002\r\n\r\n";

pub const HEAD_SEEN_2: &[u8] =
    b"HEAD /a HTTP/1.1\r\nHost: x\r\nCookie: __txid=0000000000000002\r\n\r\n";

/// These name none.
pub const UPPER_CASE: &[u8] = b"GET /a HTTP/1.1\r\nCookie: __txid=00000000000000FF\r\n\r\n";

pub const UPPER_CASE_PASSED: &[u8] =
    b"GET /a HTTP/1.1\r\nCookie: __txid=00000000000000FF\r\nConnection: close\r\n\r\n";

pub const FIFTEEN: &[u8] = b"GET /a HTTP/1.1\r\nCookie: __txid=0000000000000ff\r\n\r\n";

pub const FIFTEEN_PASSED: &[u8] =
    b"GET /a HTTP/1.1\r\nCookie: __txid=0000000000000ff\r\nConnection: close\r\n\r\n";

pub const SEVENTEEN: &[u8] = b"GET /a HTTP/1.1\r\nCookie: __txid=000000000000000ff\r\n\r\n";

pub const SEVENTEEN_PASSED: &[u8] =
    b"GET /a HTTP/1.1\r\nCookie: __txid=000000000000000ff\r\nConnection: close\r\n\r\n";

pub const OTHER_NAMES: &[u8] = b"GET /a HTTP/1.1\r\nX-Cookie: __txid=00000000000000ff\r\n\
    Cookie: __TXID=00000000000000ff; x__txid=00000000000000ff\r\n\r\n";

pub const OTHER_NAMES_PASSED: &[u8] = b"GET /a HTTP/1.1\r\nX-Cookie: __txid=00000000000000ff\r\n\
    Cookie: __TXID=00000000000000ff; x__txid=00000000000000ff\r\nConnection: close\r\n\r\n";

/// Two in one field, a second field, and blanks around.
pub const FIRST_OF_TWO: &[u8] =
    b"GET /a HTTP/1.1\r\nCookie: __txid=0000000000000001; __txid=00000000000000ff\r\n\r\n";

pub const FIRST_OF_TWO_PASSED: &[u8] = b"GET /a HTTP/1.1\r\n\
    Cookie: __txid=0000000000000001; __txid=00000000000000ff\r\nConnection: close\r\n\r\n";

pub const HIGH_OF_TWO: &[u8] =
    b"GET /a HTTP/1.1\r\nCookie: __txid=00000000000000ff; __txid=0000000000000001\r\n\r\n";

pub const SECOND_FIELD: &[u8] =
    b"GET /a HTTP/1.1\r\nCookie: a=1\r\nCookie: __txid=0000000000000002\r\n\r\n";

pub const BLANKS: &[u8] =
    b"GET /a HTTP/1.1\r\ncookie:\t b=2 ;\t __txid=0000000000000002 \t; c=3\r\n\r\n";

pub const POST: &[u8] = b"POST /w HTTP/1.1\r\nHost: x\r\nContent-Length: 3\r\n\r\na=1";

pub const POST_PASSED: &[u8] =
    b"POST /w HTTP/1.1\r\nHost: x\r\nContent-Length: 3\r\nConnection: close\r\n\r\na=1";

pub const POST_SEEN_2: &[u8] = b"POST /w HTTP/1.1\r\nConnection: keep-alive\r\n\
    Cookie: __txid=0000000000000002\r\nEXPECT: 100-continue\r\nContent-Length: 3\r\n\
    CONNECTION: x\r\nConnections: 1\r\n\r\na=1";

pub const POST_SEEN_2_PASSED: &[u8] = b"POST /w HTTP/1.1\r\n\
    Cookie: __txid=0000000000000002\r\nContent-Length: 3\r\n\
    Connections: 1\r\nConnection: close\r\n\r\na=1";

pub const DELETE: &[u8] = b"DELETE /w HTTP/1.1\r\nHost: x\r\n\r\n";

pub const DELETE_PASSED: &[u8] = b"DELETE /w HTTP/1.1\r\nHost: x\r\nConnection: close\r\n\r\n";

/// What the application replies, and what becomes of it for a write at the first transaction, and at none.
pub const REPLY: &[u8] = b"HTTP/1.1 200 OK\r\nContent-Length: 2\r\n\r\nok";

pub const MARKED: &[u8] = b"HTTP/1.1 200 OK\r\n\
    Set-Cookie: __txid=0000000000000001; Path=/\r\nContent-Length: 2\r\n\r\nok";

pub const MARKED_0: &[u8] = b"HTTP/1.1 200 OK\r\n\
    Set-Cookie: __txid=0000000000000000; Path=/\r\nContent-Length: 2\r\n\r\nok";

/// The replies of the proxy's own.
pub const BAD_REQUEST: &[u8] =
    b"HTTP/1.1 400 Bad Request\r\nContent-Length: 0\r\nConnection: close\r\n\r\n";

pub const TOO_LARGE: &[u8] =
    b"HTTP/1.1 413 Payload Too Large\r\nContent-Length: 0\r\nConnection: close\r\n\r\n";

pub const BAD_GATEWAY: &[u8] =
    b"HTTP/1.1 502 Bad Gateway\r\nContent-Length: 0\r\nConnection: close\r\n\r\n";

pub const UNAVAILABLE: &[u8] =
    b"HTTP/1.1 503 Service Unavailable\r\nContent-Length: 0\r\nConnection: close\r\n\r\n";

pub const UNAVAILABLE_DB1: &[u8] = b"HTTP/1.1 503 Service Unavailable\r\n\
    Litefs-Primary: db1\r\nContent-Length: 0\r\nConnection: close\r\n\r\n";

pub const GATEWAY_TIMEOUT: &[u8] =
    b"HTTP/1.1 504 Gateway Timeout\r\nContent-Length: 0\r\nConnection: close\r\n\r\n";

pub const GATEWAY_TIMEOUT_DB1: &[u8] = b"HTTP/1.1 504 Gateway Timeout\r\n\
    Litefs-Primary: db1\r\nContent-Length: 0\r\nConnection: close\r\n\r\n";
