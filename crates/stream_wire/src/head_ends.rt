//! Whether an unfinished head can still become one that is taken.
//!
//! Wherever a head stops, one of few ends makes it one, if any bytes do: the rest of the shortest head, the
//! rest of a character in the target, a byte behind a name, or the last digits of a length that agrees with
//! the one before. Each is tried: the head is read with it.

ghost use Rattle.std.specs.Prelude.{◌≡◌, ◌++◌, ◌+◌, ◌≤◌, ◌<◌, ◌↔◌, ℕ, List, All, length, take, IsTrue, IsFalse, IfSome, IfNone, Option, Some, unwrap_or};
ghost use Rattle.httparse.specs.Grammar.{Field};
ghost use Rattle.httparse.specs.Spans.{IsHeaderWithin, AreFieldsAt};
ghost use Rattle.stream_wire.specs.Ends.{HasHead, HasNoHead, TakesHead, MayTake, NeverTakes, shortest_head, EndsByNone, EndsByNoLength, EndsByNoCharacter, SaysLength, IsLengthEnd};

use crate::framing::framing;
use httparse::Status;
use httparse::spans::{EMPTY_HEADER_SPAN, HeaderSpan, parse_request, parse_response};

/// The most bytes of a head.
pub(crate) const HEAD_MAX: usize = 8192;

/// How many fields there is room for.
pub(crate) const FIELDS_MAX: usize = 128;

/// The most bytes of a head that stops, and of an end.
const TEXT_MAX: usize = 8224;

/// Which head is read.
#[derive(Clone, Copy)]
pub(crate) enum HeadKind {
    Request,
    Response,
}

/// Whether bytes can follow with which a head is taken, where none is whole yet.
pub(crate) fn may_come(kind: HeadKind, bytes: &[u8]) -> bool
    ensures may { IsTrue result → MayTake kind bytes.now }
    ensures never { IsFalse result → HasNoHead kind bytes.now → NeverTakes kind bytes.now }
{
    bytes.len() < HEAD_MAX && can_end(kind, bytes)
}

fn can_end(kind: HeadKind, bytes: &[u8]) -> bool
    requires { length bytes.now < 8192 }
    ensures may { IsTrue result → MayTake kind bytes.now }
    ensures never { IsFalse result → HasNoHead kind bytes.now → NeverTakes kind bytes.now }
{
    ends_by(kind, bytes, b"x:\n\n") || ends_rarely(kind, bytes)
}

/// Ends that most heads need not.
fn ends_rarely(kind: HeadKind, bytes: &[u8]) -> bool
    requires { length bytes.now < 8192 }
    ensures may { IsTrue result → MayTake kind bytes.now }
    ensures start { IsFalse result → EndsByNone kind bytes.now (shortest_head kind) }
    ensures length { IsFalse result → EndsByNoLength kind bytes.now }
    ensures character { IsFalse result → EndsByNoCharacter kind bytes.now }
{
    if ends_by(kind, bytes, shortest(kind)) {
        return true;
    }
    if ends_by_length(kind, bytes) {
        return true;
    }
    ends_by_character(kind, bytes)
}

/// The last digits of a length that agrees with the one before.
fn ends_by_length(kind: HeadKind, bytes: &[u8]) -> bool
    requires { length bytes.now < 8192 }
    ensures may { IsTrue result → MayTake kind bytes.now }
    ensures none { IsFalse result → EndsByNoLength kind bytes.now }
{
    let text = length_end(length_before(kind, bytes));
    ends_by(kind, bytes, &text)
}

/// The rest of a character in a target.
fn ends_by_character(kind: HeadKind, bytes: &[u8]) -> bool
    requires { length bytes.now < 8192 }
    ensures may { IsTrue result → MayTake kind bytes.now }
    ensures none { IsFalse result → EndsByNoCharacter kind bytes.now }
{
    if ends_by(kind, bytes, b"\x80\x80\x80 HTTP/1.0\n\n") {
        return true;
    }
    if ends_by(kind, bytes, b"\xa0\x80 HTTP/1.0\n\n") {
        return true;
    }
    ends_by(kind, bytes, b"\x90\x80\x80 HTTP/1.0\n\n")
}

/// The shortest head, behind an empty line.
fn shortest(kind: HeadKind) -> &'static [u8]
    ensures { result.now ≡ shortest_head kind }
{
    match kind {
        HeadKind::Request => b"\nA / HTTP/1.0\n\n",
        HeadKind::Response => b"\nHTTP/1.0 000\n\n",
    }
}

/// Whether an end of the text makes the bytes a head that is taken.
fn ends_by(kind: HeadKind, bytes: &[u8], text: &[u8]) -> bool
    requires room { length bytes.now < 8192 }
    requires short { length text.now ≤ 32 }
    ensures may { IsTrue result → MayTake kind bytes.now }
    ensures none { IsFalse result → EndsByNone kind bytes.now text.now }
{
    for at in 0..text.len() {
        if takes_with(kind, bytes, &text[at..]) {
            return true;
        }
    }
    false
}

fn takes_with(kind: HeadKind, bytes: &[u8], end: &[u8]) -> bool
    requires { length bytes.now + length end.now ≤ 8224 }
    ensures { IsTrue result ↔ TakesHead kind (bytes.now ++ end.now) }
{
    let mut text = [0u8; TEXT_MAX];
    join(bytes, end, &mut text);
    takes(kind, &text[..bytes.len() + end.len()])
}

fn join(bytes: &[u8], end: &[u8], text: &mut [u8])
    requires { length bytes.now + length end.now ≤ length text.old }
    ensures { take (length bytes.now + length end.now) text.new ≡ bytes.now ++ end.now }
{
    text[..bytes.len()].copy_from_slice(bytes);
    text[bytes.len()..bytes.len() + end.len()].copy_from_slice(end);
}

/// Whether a head at the front of the text is taken.
fn takes(kind: HeadKind, text: &[u8]) -> bool
    ensures { IsTrue result ↔ TakesHead kind text.now }
{
    let mut headers = [EMPTY_HEADER_SPAN; FIELDS_MAX];
    match head_at(kind, text, &mut headers) {
        Some((len, count)) => {
            len <= HEAD_MAX && framing(text, &headers[..count], None).is_some()
        }
        None => false,
    }
}

/// The length of the head at the front, and how many fields it has.
fn head_at(kind: HeadKind, text: &[u8], headers: &mut [HeaderSpan]) -> Option<(usize, usize)>
    requires { length headers.old ≡ 128 }
    ensures found { IfSome result (λ p. (fields : List Field) × HasHead kind text.now p.0 fields × AreFieldsAt text.now headers.new p.1 fields) }
    ensures within { IfSome result (λ p. (p.1 ≤ 128) × All (IsHeaderWithin (length text.now)) (take p.1 headers.new)) }
    ensures none { IfNone result ((size : ℕ) (fields : List Field) → HasHead kind text.now size fields → length fields ≤ 128 → ⊥) }
{
    match kind {
        HeadKind::Request => match parse_request(text, headers) {
            Ok(Status::Complete(spans)) => Some((spans.len, spans.headers)),
            _ => None,
        },
        HeadKind::Response => match parse_response(text, headers) {
            Ok(Status::Complete(spans)) => Some((spans.len, spans.headers)),
            _ => None,
        },
    }
}

/// The length that is said before the field in which the bytes stop, or 0.
fn length_before(kind: HeadKind, bytes: &[u8]) -> u64
    requires { length bytes.now < 8192 }
    ensures { SaysLength kind bytes.now result }
{
    let mut text = [0u8; TEXT_MAX];
    join(bytes, b"0\n\n", &mut text);
    let text = &text[..bytes.len() + 3];
    let mut headers = [EMPTY_HEADER_SPAN; FIELDS_MAX];
    match head_at(kind, text, &mut headers) {
        Some((_, count)) => said(framing(text, &headers[..count.saturating_sub(1)], None)),
        None => 0,
    }
}

/// The length that fields say, if they say one.
fn said(framed: Option<Option<u64>>) -> u64
    ensures { (so_far : Option ℕ) → framed ≡ Some so_far → result ≡ unwrap_or so_far 0 }
{
    match framed {
        Some(Some(length)) => length,
        _ => 0,
    }
}

/// The end of a length's line: its last twenty digits, and two line feeds.
fn length_end(mut number: u64) -> [u8; 22]
    ensures { IsLengthEnd number result }
{
    let mut text = [b'\n'; 22];
    for place in 0..20usize {
        text[19 - place] = b'0' + (number % 10) as u8;
        number /= 10;
    }
    text
}
