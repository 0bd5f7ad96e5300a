//! Reads clips, and the values of parameters. A fault inside a value stands at the path of its parameter, so
//! the readers of values give it at the empty path.
ghost use Rattle.std.specs.Prelude.{◌≡◌, ◌≢◌, ℕ, ◌≤◌, ◌-◌, ◌≤ℤ◌, pos, negsuc, [], IfOk, IfSome, option_map, option_and_then};
ghost use Rattle.std.specs.Prelude.{length};
ghost use Rattle.fx_base.specs.declared.limits.TheConstants.{LAST_FRAME};
ghost use Rattle.serde_json.specs.View.{view, items_view, members_view};
ghost use Rattle.serde_json.specs.Find.{as_array};
ghost use Rattle.fx_text.specs.declared.fault.GraphFault.TheVariants.{Memory as OutOfMemory};
ghost use Rattle.fx_text.specs.Fault.{told};
ghost use Rattle.fx_text.specs.Paths.{joined};
ghost use Rattle.fx_text.specs.Json.{or_range, read_members};
ghost use Rattle.fx_text.specs.Answers.{Answers, Refuses};
ghost use Rattle.fx_text.specs.Values.{clip_of, clips_in, integer_of, int_of, scalar_of, is_scalar, of_form};
ghost use Rattle.fx_text.specs.Values.{frame_within, pair_in, key_of, flag_or, keys_of, keyed_of, value_of, moved};
ghost use Rattle.fx_text.specs.Values.{param_of, params_in};

use crate::fault::{GraphCode, GraphFault};
use crate::json::{check_object, fault_at, has, list_at, range_at, word_at, wrong_at};
use crate::path::joined;
use crate::raw::{RawClips, RawParams};
use crate::value::{MOST_KEYS, RawClip, RawKey, RawKeys, RawParam, RawScalar, RawValue};
use fx_base::Name;
use fx_base::limits::LAST_FRAME;
use serde_json::{Map, Number, Value};
use std::alloc::Global;

fn clip_of(alloc: Global, path: &str, name: &str, value: &Value) -> Result<RawClip, GraphFault>
    ensures { Answers result (clip_of path.now name.now (view value.now)) }
{
    match value.as_str() {
        Some(node) => Ok(RawClip {
            name: Name::of(name.to_string(alloc)?),
            node: Name::of(node.to_string(alloc)?),
        }),
        None => Err(wrong_at(alloc, path, name)),
    }
}

fn clips_of(alloc: Global, path: &str, members: &Map<String, Value>) -> Result<RawClips, GraphFault>
    ensures { Answers result (read_members (clip_of path.now) (members_view members.now.entries)) }
{
    let mut clips = Vec::new(alloc);
    for (name, value) in members.iter() {
        let clip = clip_of(alloc, path, name.as_str(), value)?;
        clips.push(clip)?;
    }
    Ok(RawClips::of(clips))
}

// The clips of a node, of which there are none where the member is absent.
pub(crate) fn clips_in(
    alloc: Global,
    path: &str,
    value: Option<&Value>,
) -> Result<RawClips, GraphFault>
    ensures { Answers result (clips_in path.now (option_map (λ v. view v.now) value.entry)) }
{
    match value {
        Some(value) => match value.as_object() {
            Some(members) => clips_of(alloc, path, members),
            None => Err(fault_at(GraphCode::WrongForm, path.to_string(alloc)?)),
        },
        None => Ok(RawClips::of(Vec::new(alloc))),
    }
}

// The whole number that a value is, of any size.
fn integer_of(value: &Value) -> Option<i128>
    ensures { result ≡ integer_of (view value.now) }
{
    value.as_number().and_then(Number::as_i128)
}

fn int_of(alloc: Global, value: &Value) -> Result<RawScalar, GraphFault>
    ensures { Answers result (int_of (view value.now)) }
{
    match integer_of(value) {
        Some(_) => match value.as_i64() {
            Some(n) => Ok(RawScalar::Int(n)),
            None => Err(range_at(alloc, "", "")),
        },
        None => Err(wrong_at(alloc, "", "")),
    }
}

fn scalar_of(alloc: Global, value: &Value) -> Result<RawScalar, GraphFault>
    ensures { Answers result (scalar_of (view value.now)) }
{
    match value {
        Value::Bool(flag) => Ok(RawScalar::Flag(*flag)),
        Value::String(text) => Ok(RawScalar::Text(Name::of(text.clone()?))),
        _ => int_of(alloc, value),
    }
}

// Whether a value has the form of a scalar, be its number of any size.
fn is_scalar(value: &Value) -> bool
    ensures { result ≡ is_scalar (view value.now) }
{
    match value {
        Value::Bool(_) => true,
        Value::String(_) => true,
        _ => integer_of(value).is_some(),
    }
}

fn check_form(alloc: Global, is_of_form: bool) -> Result<(), GraphFault>
    ensures { Answers result (of_form is_of_form) }
{
    if is_of_form {
        Ok(())
    } else {
        Err(wrong_at(alloc, "", ""))
    }
}

fn frame_within(number: i128) -> Option<i64>
    ensures value { result ≡ frame_within number }
    ensures range { IfSome result (λ n. (negsuc (LAST_FRAME - 1) ≤ℤ n) × (n ≤ℤ pos LAST_FRAME)) }
{
    if -(LAST_FRAME as i128) <= number && number <= LAST_FRAME as i128 {
        Some(number as i64)
    } else {
        None
    }
}

fn frame_of(alloc: Global, number: i128) -> Result<i64, GraphFault>
    ensures value { Answers result (or_range [] [] (frame_within number)) }
    ensures range { IfOk result (λ n. (negsuc (LAST_FRAME - 1) ≤ℤ n) × (n ≤ℤ pos LAST_FRAME)) }
{
    match frame_within(number) {
        Some(frame) => Ok(frame),
        None => Err(range_at(alloc, "", "")),
    }
}

fn pair_in(items: &[Value]) -> Option<(&Value, &Value)>
    ensures { option_map (λ p. (view p.0.now, view p.1.now)) result ≡ pair_in (items_view items.now) }
{
    match items {
        [] => None,
        [_] => None,
        [frame, value] => Some((frame, value)),
        [_, _, _, ..] => None,
    }
}

fn pair_of(value: &Value) -> Option<(&Value, &Value)>
    ensures { let pair = option_and_then pair_in (as_array (view value.now))
        in option_map (λ p. (view p.0.now, view p.1.now)) result ≡ pair }
{
    match value.as_array() {
        Some(items) => pair_in(items.as_slice()),
        None => None,
    }
}

fn key_of(alloc: Global, value: &Value) -> Result<RawKey, GraphFault>
    ensures { Answers result (key_of (view value.now)) }
{
    match pair_of(value) {
        Some((frame, value)) => {
            let number = word_at(alloc, "", "", integer_of(frame))?;
            check_form(alloc, is_scalar(value))?;
            let frame = frame_of(alloc, number)?;
            let value = scalar_of(alloc, value)?;
            Ok(RawKey { frame, value })
        }
        None => Err(wrong_at(alloc, "", "")),
    }
}

fn keys_of(alloc: Global, values: &[Value]) -> Result<Vec<RawKey>, GraphFault>
    ensures ok { IfOk result (λ keys. keys_of (items_view values.now) ≡ Ok keys.items) }
    ensures count { IfOk result (λ keys. length keys.items ≡ length values.now) }
    ensures err { Refuses result (keys_of (items_view values.now)) }
{
    let mut keys = Vec::new(alloc);
    for (k, value) in values.iter().enumerate() {
        let key = key_of(alloc, value)?;
        keys.push(key)?;
    }
    Ok(keys)
}

fn flag_or(
    alloc: Global,
    path: &str,
    key: &str,
    default: bool,
    value: &Value,
) -> Result<bool, GraphFault>
    ensures { Answers result (flag_or path.now key.now default (view value.now)) }
{
    if has(key, value) {
        word_at(alloc, path, key, value.get(key).and_then(Value::as_bool))
    } else {
        Ok(default)
    }
}

fn keyed_of(alloc: Global, value: &Value) -> Result<RawValue, GraphFault>
    ensures { Answers result (keyed_of (view value.now)) }
{
    check_object(alloc, "", &["keys", "step"], value)?;
    let items = list_at(alloc, "", "keys", 1, MOST_KEYS, value)?;
    let keys = keys_of(alloc, items)?;
    let step = flag_or(alloc, "", "step", false, value)?;
    Ok(RawValue::Keyed {
        keys: RawKeys::of(keys),
        step,
    })
}

pub(crate) fn value_of(alloc: Global, value: &Value) -> Result<RawValue, GraphFault>
    ensures { Answers result (value_of (view value.now)) }
{
    match value {
        Value::Object(_) => keyed_of(alloc, value),
        _ => Ok(RawValue::Plain(scalar_of(alloc, value)?)),
    }
}

// A fault of the same code at the path of a member.
pub(crate) fn moved(alloc: Global, path: &str, name: &str, fault: GraphFault) -> GraphFault
    ensures was { result ≢ OutOfMemory → fault ≢ OutOfMemory }
    ensures moved { let there = joined path.now name.now
        in result ≢ OutOfMemory → moved {A = ℕ} there (Err (told fault)) ≡ Err (told result) }
{
    match fault {
        GraphFault::Refused(code, _) => match joined(alloc, path, name) {
            Ok(path) => fault_at(code, path),
            Err(_) => GraphFault::Memory,
        },
        GraphFault::Memory => GraphFault::Memory,
    }
}

fn param_of(alloc: Global, path: &str, name: &str, value: &Value) -> Result<RawParam, GraphFault>
    ensures { Answers result (param_of path.now name.now (view value.now)) }
{
    match value_of(alloc, value) {
        Ok(value) => Ok(RawParam {
            name: Name::of(name.to_string(alloc)?),
            value,
        }),
        Err(fault) => Err(moved(alloc, path, name, fault)),
    }
}

fn params_of(
    alloc: Global,
    path: &str,
    members: &Map<String, Value>,
) -> Result<RawParams, GraphFault>
    ensures { Answers result (read_members (param_of path.now) (members_view members.now.entries)) }
{
    let mut params = Vec::new(alloc);
    for (name, value) in members.iter() {
        let param = param_of(alloc, path, name.as_str(), value)?;
        params.push(param)?;
    }
    Ok(RawParams::of(params))
}

// The parameters of a node, of which there are none where the member is absent.
pub(crate) fn params_in(
    alloc: Global,
    path: &str,
    value: Option<&Value>,
) -> Result<RawParams, GraphFault>
    ensures { Answers result (params_in path.now (option_map (λ v. view v.now) value.entry)) }
{
    match value {
        Some(value) => match value.as_object() {
            Some(members) => params_of(alloc, path, members),
            None => Err(fault_at(GraphCode::WrongForm, path.to_string(alloc)?)),
        },
        None => Ok(RawParams::of(Vec::new(alloc))),
    }
}
