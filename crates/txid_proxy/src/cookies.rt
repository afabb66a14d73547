//! What the cookies of a request say of the transaction that its client has seen.
ghost use Rattle.std.specs.Prelude.{◌≡◌, ℕ, All, length, map, [], MatchOption};
ghost use Rattle.httparse.specs.Spans.{IsHeaderWithin, header_bytes};
ghost use Rattle.txid_proxy.specs.Cookies.{CookiesSay, Says, SaysFirst, pairs_behind, pairs_of};

use crate::trimming::trim;
use crate::words::{find, is_called, is_same};
use httparse::spans::HeaderSpan;
use lf_base::read_hex16;

/// What a cookie that names a transaction begins with.
const WORD: &[u8] = b"__txid=";

/// What the cookies of these fields say, the first that says a transaction.
pub(crate) fn cookies_say(bytes: &[u8], headers: &[HeaderSpan]) -> Option<u64>
    requires { All (IsHeaderWithin (length bytes.now)) headers.now }
    ensures { CookiesSay (map (header_bytes bytes.now) headers.now) result }
{
    let [first, rest @ ..] = headers else {
        return None;
    };
    match field_says(bytes, *first) {
        Some(txid) => Some(txid),
        None => cookies_say(bytes, rest),
    }
}

/// What a field says, where it is a Cookie.
fn field_says(bytes: &[u8], header: HeaderSpan) -> Option<u64>
    requires { IsHeaderWithin (length bytes.now) header }
    ensures { SaysFirst (pairs_of (header_bytes bytes.now header)) result }
{
    if is_called(b"cookie", header.name.of(bytes)) {
        pairs_say(header.value.of(bytes))
    } else {
        None
    }
}

/// What the pairs between semicolons say.
fn pairs_say(value: &[u8]) -> Option<u64>
    ensures { SaysFirst (pairs_behind [] value.now) result }
{
    let mut rest = value;
    'pairs: loop {
        let Some(at) = find(rest, b';') else {
            return says(rest);
        };
        let (pair, behind) = rest.split_at(at);
        match says(pair) {
            Some(txid) => return Some(txid),
            None => {}
        }
        let (_, next) = behind.split_at(1);
        rest = next;
    }
}

/// What one pair says.
fn says(pair: &[u8]) -> Option<u64>
    ensures { MatchOption result ((txid : ℕ) → Says pair.now txid → ⊥) (Says pair.now) }
{
    let text = trim(pair);
    if text.len() < WORD.len() {
        return None;
    }
    let (word, digits) = text.split_at(WORD.len());
    if !is_same(word, WORD) {
        return None;
    }
    read_hex16(digits)
}
