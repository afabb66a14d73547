//! What the fields of a head say of the body.

ghost use Rattle.std.specs.Prelude.{◌≡◌, All, length, map};
ghost use Rattle.std.specs.Char.{to_ascii_lowercase};
ghost use Rattle.httparse.specs.Spans.{IsHeaderWithin, header_bytes};
ghost use Rattle.stream_wire.specs.Head.{decimal_of, decimal_after, is_called, joined, with_field, framing};

use httparse::spans::HeaderSpan;

/// The length that the fields say behind the one so far, if any does. Refused are a Transfer-Encoding, a
/// length that is no decimal number of 64 bits, and two that differ.
pub(crate) fn framing(
    bytes: &[u8],
    headers: &[HeaderSpan],
    so_far: Option<u64>,
) -> Option<Option<u64>>
    requires { All (IsHeaderWithin (length bytes.now)) headers.now }
    ensures { result ≡ framing so_far (map (header_bytes bytes.now) headers.now) }
{
    let [first, rest @ ..] = headers else {
        return Some(so_far);
    };
    let next = with_field(bytes, *first, so_far)?;
    framing(bytes, rest, next)
}

#[tactic(auto, unfolding(crate::specs::Head::with_field))]
fn with_field(bytes: &[u8], header: HeaderSpan, so_far: Option<u64>) -> Option<Option<u64>>
    requires { IsHeaderWithin (length bytes.now) header }
    ensures { result ≡ with_field so_far (header_bytes bytes.now header) }
{
    let name = header.name.of(bytes);
    if is_called(b"transfer-encoding", name) {
        return None;
    }
    if !is_called(b"content-length", name) {
        return Some(so_far);
    }
    let length = joined(so_far, decimal(header.value.of(bytes)))?;
    Some(Some(length))
}

pub(crate) fn is_called(word: &[u8], name: &[u8]) -> bool
    requires { map to_ascii_lowercase word.now ≡ word.now }
    ensures { result ≡ is_called word.now name.now }
{
    name.eq_ignore_ascii_case(word)
}

fn joined(before: Option<u64>, len: Option<u64>) -> Option<u64>
    ensures { result ≡ joined before len }
{
    let len = len?;
    match before {
        Some(other) if other != len => None,
        _ => Some(len),
    }
}

/// The number that decimal digits say.
pub fn decimal(bytes: &[u8]) -> Option<u64>
    ensures { result ≡ decimal_of bytes.now }
{
    if bytes.is_empty() {
        return None;
    }
    decimal_after(0, bytes)
}

fn decimal_after(number: u64, bytes: &[u8]) -> Option<u64>
    ensures { result ≡ decimal_after number bytes.now }
{
    let [first, rest @ ..] = bytes else {
        return Some(number);
    };
    if !first.is_ascii_digit() {
        return None;
    }
    let next = number
        .checked_mul(10)?
        .checked_add(u64::from(*first - b'0'))?;
    decimal_after(next, rest)
}
