//! JSON as a line.
ghost use Rattle.std.specs.Prelude.{◌≡◌, ◌++◌, IfOk, OnOk, false};
ghost use Rattle.serde_json.specs.View.{view};
ghost use Rattle.serde_json.specs.Written.{has_float};
ghost use Rattle.stream_primary.specs.JsonLine.{json_line};

use lf_base::NoMemory;
use serde_json::Value;
use std::alloc::Global;

/// Appends a value without floats, and a newline.
#[tactic(auto, unfolding(crate::specs::JsonLine::json_line))]
pub fn put_json_line(alloc: Global, value: &Value, out: &mut Vec<u8>) -> Result<(), NoMemory>
    requires { has_float (view value.now) ≡ false }
    ensures { OnOk result (out.new.items ≡ out.old.items ++ json_line (view value.now)) }
{
    let text = value.to_vec(alloc)?;
    out.extend_from_slice(text.as_slice())?;
    out.push(b'\n')?;
    Ok(())
}

/// Bytes as text. They are UTF-8, so the refusal never comes; what made them tells only which bytes they are.
pub fn as_str(bytes: &[u8]) -> Result<&str, NoMemory>
    ensures { IfOk result (λ s. s.now ≡ bytes.now) }
{
    match str::from_utf8(bytes) {
        Ok(text) => Ok(text),
        Err(_) => Err(NoMemory),
    }
}
