//! What a request's head wishes.
ghost use Rattle.std.specs.Prelude.{◌≡◌, ◌≤◌, ℕ, List, length};
ghost use Rattle.httparse.specs.Grammar.{ReadsRequest, RequestHead};
ghost use Rattle.httparse.specs.Spans.{IsRequestAt, IsRequestWithin};
ghost use Rattle.txid_proxy.specs.Passing.{is_read};
ghost use Rattle.txid_proxy.specs.Wishes.{IsWish};

use crate::cookies::cookies_say;
use crate::words::is_same;
use httparse::Status;
use httparse::spans::{EMPTY_HEADER_SPAN, HeaderSpan, RequestSpans, parse_request};

/// How many fields there is room for.
pub(crate) const FIELDS_MAX: usize = 128;

/// What a request's head wishes.
#[derive(Clone, Copy)]
pub(crate) struct Wish {
    /// The second number of the version, 0 or 1.
    pub minor: u8,
    /// Whether it only reads.
    pub reads: bool,
    /// The transaction that its client has seen.
    pub floor: u64,
}

/// What the head at the front of the bytes wishes.
pub(crate) fn wish_of(bytes: &[u8]) -> Wish
    ensures { (head : RequestHead) (rest : List ℕ) → ReadsRequest bytes.now head rest → length head.fields ≤ 128 → IsWish head result }
{
    let mut headers = [EMPTY_HEADER_SPAN; FIELDS_MAX];
    match parse_request(bytes, &mut headers) {
        Ok(Status::Complete(spans)) => wish_at(bytes, &headers, spans),
        _ => Wish {
            minor: 0,
            reads: false,
            floor: 0,
        },
    }
}

fn wish_at(bytes: &[u8], headers: &[HeaderSpan], spans: RequestSpans) -> Wish
    requires { IsRequestWithin bytes.now headers.now spans }
    ensures { (head : RequestHead) → IsRequestAt bytes.now headers.now spans head → IsWish head result }
{
    let said = cookies_say(bytes, &headers[..spans.headers]);
    Wish {
        minor: spans.version,
        reads: is_read(spans.method.of(bytes)),
        floor: said.unwrap_or(0),
    }
}

fn is_read(method: &[u8]) -> bool
    ensures { result ≡ is_read method.now }
{
    is_same(method, b"GET") || is_same(method, b"HEAD")
}
