//! Lines of a record: objects of JSON, whose fields are read by name. A text that is bytes is hex.

use crate::fault::Fault;
use serde_json::Value;
use std::alloc::Global;

/// What a line says.
pub fn read_line(alloc: Global, line: &str) -> Result<Value, Fault> {
    Ok(Value::from_str(alloc, line)?)
}

/// A number that is there.
pub fn number(value: &Value, name: &str) -> Option<u64> {
    value.get(name).and_then(Value::as_u64)
}

/// A text that is there.
pub fn text<'a>(value: &'a Value, name: &str) -> Option<&'a str> {
    value.get(name).and_then(Value::as_str)
}

/// A copy of a text, which is empty where there is none.
pub fn copied(alloc: Global, value: &Value, name: &str) -> Result<String, Fault> {
    Ok(String::from_str(alloc, text(value, name).unwrap_or(""))?)
}

/// The bytes of a text, none where there is none.
pub fn decoded(alloc: Global, value: &Value, name: &str) -> Result<Vec<u8>, Fault> {
    Ok(hex::decode(alloc, text(value, name).unwrap_or(""))?)
}
