//! A reply to a write, marked with the transaction that its client has then seen.
ghost use Rattle.std.specs.Prelude.{◌≡◌, ◌≤◌, ◌++◌, drop, length, List, ℕ, IfOk, MatchBool};
ghost use Rattle.httparse.specs.Grammar.{ReadsResponse, ResponseHead, print_response};
ghost use Rattle.txid_proxy.specs.Passing.{IsReply, marked_head};

use crate::lines::start_length;
use crate::put::put;
use crate::wish::FIELDS_MAX;
use httparse::Status;
use httparse::spans::{EMPTY_HEADER_SPAN, parse_response};
use lf_base::{NoMemory, hex16};

/// The most bytes of a reply's head.
const HEAD_MAX: usize = 8192;

/// Whether the bytes begin with a head of a reply.
pub(crate) fn is_reply(bytes: &[u8]) -> bool
    ensures { MatchBool result (IsReply bytes.now) (IsReply bytes.now → ⊥) }
{
    let mut headers = [EMPTY_HEADER_SPAN; FIELDS_MAX];
    match parse_response(bytes, &mut headers) {
        Ok(Status::Complete(spans)) => spans.len <= HEAD_MAX,
        _ => false,
    }
}

/// Appends the front of a reply that is marked with this transaction, and answers how many bytes of the
/// reply are in it: its first line. The rest follows as it is.
pub(crate) fn put_marked(reply: &[u8], txid: u64, out: &mut Vec<u8>) -> Result<usize, NoMemory>
    ensures marked { IfOk result (λ size. (head : ResponseHead) (rest : List ℕ) → ReadsResponse reply.now head rest
        → out.new.items ++ drop size reply.now ≡ out.old.items ++ (print_response (marked_head head txid) ++ rest)) }
    ensures within { IfOk result (λ size. size ≤ length reply.now) }
{
    let size = start_length(reply);
    let (start, _) = reply.split_at(size);
    put(out, start)?;
    put(out, b"Set-Cookie: __txid=")?;
    put(out, &hex16(txid))?;
    put(out, b"; Path=/\r\n")?;
    Ok(size)
}
