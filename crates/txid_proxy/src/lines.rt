//! Heads cut into lines.
ghost use Rattle.std.specs.Prelude.{◌≡◌, ◌≤◌, ◌<◌, ◌+◌, ◌++◌, ◌∷◌, ℕ, List, length, not};
ghost use Rattle.std.specs.List.{position};
ghost use Rattle.txid_proxy.specs.Lines.{is_line_end, IsStart, Lacks};

use crate::words::find;

/// The length of the first line, with its line feed; or of all the bytes, where they have none.
pub(crate) fn line_length(bytes: &[u8]) -> usize
    ensures first { (line rest : List ℕ) → Lacks 10 line → bytes.now ≡ line ++ 10 ∷ rest → result ≡ length line + 1 }
    ensures within { result ≤ length bytes.now }
    ensures some { 0 < length bytes.now → 0 < result }
{
    match find(bytes, b'\n') {
        Some(at) => at + 1,
        None => bytes.len(),
    }
}

/// The length of the empty lines and of the line behind them.
pub(crate) fn start_length(bytes: &[u8]) -> usize
    ensures start { (start rest : List ℕ) → IsStart start → bytes.now ≡ start ++ rest → result ≡ length start }
    ensures within { result ≤ length bytes.now }
{
    let blank = blank_length(bytes);
    let (_, behind) = bytes.split_at(blank);
    blank + line_length(behind)
}

/// The length of the empty lines.
fn blank_length(bytes: &[u8]) -> usize
    ensures blank { (start rest : List ℕ) (is : IsStart start) → bytes.now ≡ start ++ rest → result ≡ length is.blank }
    ensures within { result ≤ length bytes.now }
{
    match line_at(bytes) {
        Some(at) => at,
        None => bytes.len(),
    }
}

/// Where the first byte stands that ends no line.
fn line_at(bytes: &[u8]) -> Option<usize>
    ensures { result ≡ position (λ b. not (is_line_end b)) bytes.now }
{
    bytes.iter().position(|b| !(*b == b'\n' || *b == b'\r'))
}
