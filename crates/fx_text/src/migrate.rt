//! A graph's text in format 2.
ghost use Rattle.std.specs.Prelude.{◌≡◌, ◌≤◌, IfOk, string_bytes};
ghost use Rattle.serde_json.specs.View.{view};
ghost use Rattle.serde_json.specs.Data.{depth};
ghost use Rattle.serde_json.specs.Read.{max_depth};
ghost use Rattle.fx_text.specs.Answers.{Refuses};
ghost use Rattle.fx_text.specs.Migrated.{in_format_two, value_in, IsCompactText, IsMigrated, IsSameGraph};

use crate::fault::{GraphCode, GraphFault};
use crate::json::{JsonFault, fault_at, value_of};
use serde_json::Value;
use std::alloc::{AllocError, Global};

/// The compact text of a graph file's value with its member `ofxr` set to 2: the same graph in format 2. Bytes that are
/// no JSON text are refused with `NotJson` at the empty path.
pub fn migrated(alloc: Global, bytes: &[u8]) -> Result<String, GraphFault>
    ensures text { IfOk result (λ text. IsMigrated bytes.now (string_bytes text)) }
    ensures same { IfOk result (λ text. IsSameGraph bytes.now (string_bytes text)) }
    ensures err { Refuses result (value_in bytes.now) }
{
    match value_of(alloc, bytes) {
        Ok(value) => Ok(text_in_two(alloc, value)?),
        Err(JsonFault::NotJson) => Err(fault_at(GraphCode::NotJson, String::new(alloc))),
        Err(JsonFault::Memory) => Err(GraphFault::Memory),
    }
}

fn text_in_two(alloc: Global, value: Value) -> Result<String, AllocError>
    requires { depth (view value) ≤ max_depth }
    ensures { IfOk result (λ text. IsCompactText (string_bytes text) (in_format_two (view value))) }
{
    let value = in_format_two(alloc, value)?;
    text_of(alloc, &value)
}

fn in_format_two(alloc: Global, value: Value) -> Result<Value, AllocError>
    requires { depth (view value) ≤ max_depth }
    ensures value { IfOk result (λ two. view two ≡ in_format_two (view value)) }
    ensures deep { IfOk result (λ two. depth (view two) ≤ max_depth) }
{
    match value {
        Value::Object(mut members) => {
            let key = String::from_str(alloc, "ofxr")?;
            members.insert(key, Value::from(2u64))?;
            Ok(Value::Object(members))
        }
        other => Ok(other),
    }
}

fn text_of(alloc: Global, value: &Value) -> Result<String, AllocError>
    requires { depth (view value.now) ≤ max_depth }
    ensures { IfOk result (λ text. IsCompactText (string_bytes text) (view value.now)) }
{
    let text = value.to_string(alloc)?;
    // Asking it tells the proof that it is UTF-8.
    let _text = text.as_str();
    Ok(text)
}
