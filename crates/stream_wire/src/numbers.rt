//! Numbers as 16 hexadecimal digits, one behind another.

ghost use Rattle.std.specs.Prelude.{◌≡◌, ◌∷◌, ◌++◌, ◌<◌, ◌^◌, [], ℕ, List, length, IfSome, IfNone, OnOk};
ghost use Rattle.std.specs.Io.{StartsWith};
ghost use Rattle.lf_base.specs.Hex.{hex_digits};

use lf_base::{NoMemory, hex16, read_hex16};

/// The number whose 16 digits stand in front of this mark, and what stands behind it.
pub(crate) fn number_then(bytes: &[u8], mark: u8) -> Option<(u64, &[u8])>
    ensures found { IfSome result (λ r. bytes.now ≡ hex_digits 16 r.0 ++ mark ∷ r.1.now) }
    ensures none { IfNone result ((n : ℕ) (rest : List ℕ) → n < 2 ^ 64 → bytes.now ≡ hex_digits 16 n ++ mark ∷ rest → ⊥) }
{
    if bytes.len() < 17 {
        return None;
    }
    let (digits, rest) = bytes.split_at(16);
    let [first, rest @ ..] = rest else {
        return None;
    };
    if *first != mark {
        return None;
    }
    match read_hex16(digits) {
        Some(number) => Some((number, rest)),
        None => None,
    }
}

/// Appends the 16 digits of a number, and a mark behind them.
pub(crate) fn put_number(number: u64, mark: &[u8], out: &mut Vec<u8>) -> Result<(), NoMemory>
    ensures ok { OnOk result (out.new.items ≡ out.old.items ++ hex_digits 16 number ++ mark.now) }
    ensures grows { StartsWith out.new.items out.old.items }
{
    out.extend_from_slice(&hex16(number))?;
    out.extend_from_slice(mark)?;
    Ok(())
}
