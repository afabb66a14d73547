ghost use Rattle.std.specs.Prelude.{◌≡◌, IfOk};

use lf_base::NoMemory;

/// The bytes of a `Text`, or of digits, as text. They are UTF-8, so the refusal never comes; what made
/// them tells only which bytes they are.
pub(crate) fn as_str(bytes: &[u8]) -> Result<&str, NoMemory>
    ensures { IfOk result (λ s. s.now ≡ bytes.now) }
{
    match str::from_utf8(bytes) {
        Ok(text) => Ok(text),
        Err(_) => Err(NoMemory),
    }
}
