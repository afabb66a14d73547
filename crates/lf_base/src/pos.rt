ghost use Rattle.std.specs.Prelude.{◌≡◌, ◌<◌, ◌^◌, IfSome, IfNone};
ghost use Rattle.lf_base.specs.Position.{position_text};

use crate::digits::{hex16, is_same, read_hex16};

/// A position in the history of a database: the transaction number and the sum of the pages. A
/// database that was never written is at (0, 0).
#[derive(Clone, Copy, Debug, PartialEq, Eq)]
pub struct Pos {
    pub txid: u64,
    pub sum: u64,
}

/// The position in print, `%016x/%016x`.
pub fn pos_text(pos: Pos) -> [u8; 33]
    ensures { result ≡ position_text pos }
{
    let txid = hex16(pos.txid);
    let sum = hex16(pos.sum);
    [
        txid[0], txid[1], txid[2], txid[3], txid[4], txid[5], txid[6], txid[7], txid[8], txid[9],
        txid[10], txid[11], txid[12], txid[13], txid[14], txid[15], b'/', sum[0], sum[1], sum[2],
        sum[3], sum[4], sum[5], sum[6], sum[7], sum[8], sum[9], sum[10], sum[11], sum[12], sum[13],
        sum[14], sum[15],
    ]
}

/// The position whose print the bytes are. Upper case is refused.
pub fn read_pos(bytes: &[u8]) -> Option<Pos>
    ensures found { IfSome result (λ pos. bytes.now ≡ position_text pos) }
    ensures none { IfNone result ((pos : Pos) → pos.txid < 2 ^ 64 → pos.sum < 2 ^ 64 → bytes.now ≡ position_text pos → ⊥) }
{
    if bytes.len() != 33 {
        return None;
    }
    let (txid, rest) = bytes.split_at(16);
    let (_, sum) = rest.split_at(1);
    let Some(txid) = read_hex16(txid) else {
        return None;
    };
    let Some(sum) = read_hex16(sum) else {
        return None;
    };
    let pos = Pos { txid, sum };
    if is_same(&pos_text(pos), bytes) {
        Some(pos)
    } else {
        None
    }
}
