//! JSON read from bytes.
ghost use Rattle.std.specs.Prelude.{IfOk, IfErr};
ghost use Rattle.serde_json.specs.View.{view};
ghost use Rattle.lease_core.specs.Bodies.{IsJson, IsAny, BreaksBody};

use crate::BodyFault;
use serde_json::Value;
use std::alloc::Global;

/// The JSON that the bytes are.
pub fn read_json(alloc: Global, bytes: &[u8]) -> Result<Value, BodyFault>
    ensures ok { IfOk result (λ value. IsJson bytes.now (view value)) }
    ensures fault { IfErr result (BreaksBody IsAny bytes.now) }
{
    let Ok(text) = str::from_utf8(bytes) else {
        return Err(BodyFault::Syntax);
    };
    match Value::from_str(alloc, text) {
        Ok(value) => Ok(value),
        Err(error) if error.is_memory() => Err(BodyFault::NoMemory),
        Err(_error) => Err(BodyFault::Syntax),
    }
}
