//! What stands at the keys of an object: whole numbers within a range, texts, words and lists, each read or
//! refused with its path. Every object of the format is read by these few.
ghost use Rattle.std.specs.Prelude.{◌≡◌, ◌≢◌, ◌≤◌, map, IfOk, IfSome, IsErrOf, Some, None, length, string_bytes};
ghost use Rattle.std.specs.Prelude.{option_map, option_and_then};
ghost use Rattle.std.specs.List.{list_any};
ghost use Rattle.std.specs.Str.{bytes_eq};
ghost use Rattle.serde_json.specs.View.{view, items_view, members_view};
ghost use Rattle.serde_json.specs.Data.{depth};
ghost use Rattle.serde_json.specs.Read.{max_depth};
ghost use Rattle.serde_json.specs.Find.{get, as_array};
ghost use Rattle.fx_text.specs.declared.fault.GraphFault.TheVariants.{Memory as OutOfMemory};
ghost use Rattle.fx_text.specs.Answers.{Answers, Refuses};
ghost use Rattle.fx_text.specs.Fault.{told};
ghost use Rattle.fx_text.specs.Json.{unknown, check_object, integer_at, whole_within, whole_at, text_at, word_at};
ghost use Rattle.fx_text.specs.Json.{wrong_at, range_at, short, short_of, short_at, has, member_at, few, list_at, list_or, value_of};

use crate::fault::{GraphCode, GraphFault};
use crate::path::{GraphPath, joined};
use fx_base::Name;
use serde_json::{Map, Number, Value};
use std::alloc::Global;

/// Why no value is read.
#[derive(Clone, Copy, Debug, PartialEq, Eq)]
pub(crate) enum JsonFault {
    NotJson,
    Memory,
}

/// The value of a text.
pub(crate) fn value_of(alloc: Global, bytes: &[u8]) -> Result<Value, JsonFault>
    ensures ok { IfOk result (λ value. value_of bytes.now ≡ Some (view value)) }
    ensures nests { IfOk result (λ value. depth (view value) ≤ max_depth) }
    ensures refused { IsErrOf result JsonFault.NotJson → value_of bytes.now ≡ None }
{
    match Value::from_slice(alloc, bytes) {
        Ok(value) => Ok(value),
        Err(error) => {
            if error.is_memory() {
                Err(JsonFault::Memory)
            } else {
                Err(JsonFault::NotJson)
            }
        }
    }
}

/// Whether a text is one of these.
fn is_among(keys: &[&str], key: &str) -> bool
    ensures { result ≡ list_any (λ k. bytes_eq k.now key.now) keys.now }
{
    keys.iter().any(|k| *k == key)
}

// The first member, in byte order, that is none of these.
fn unknown<'v>(keys: &[&str], members: &'v Map<String, Value>) -> Option<&'v String>
    ensures { let found = unknown (map (λ k. k.now) keys.now) (members_view members.now.entries)
        in option_map (λ s. string_bytes s.now) result ≡ found }
{
    for key in members.keys() {
        if !is_among(keys, key.as_str()) {
            return Some(key);
        }
    }
    None
}

// A fault at a path.
pub(crate) fn fault_at(code: GraphCode, path: String) -> GraphFault
    ensures { result ≡ GraphFault.Refused code (string_bytes path) }
{
    GraphFault::Refused(code, GraphPath::of(path))
}

// A member is of another form.
pub(crate) fn wrong_at(alloc: Global, path: &str, key: &str) -> GraphFault
    ensures { result ≢ OutOfMemory → told result ≡ wrong_at path.now key.now }
{
    match joined(alloc, path, key) {
        Ok(path) => fault_at(GraphCode::WrongForm, path),
        Err(_) => GraphFault::Memory,
    }
}

// A member is out of range.
pub(crate) fn range_at(alloc: Global, path: &str, key: &str) -> GraphFault
    ensures { result ≢ OutOfMemory → told result ≡ range_at path.now key.now }
{
    match joined(alloc, path, key) {
        Ok(path) => fault_at(GraphCode::NumberOutOfRange, path),
        Err(_) => GraphFault::Memory,
    }
}

// That a value is an object with no other members than these.
pub(crate) fn check_object(
    alloc: Global,
    path: &str,
    keys: &[&str],
    value: &Value,
) -> Result<(), GraphFault>
    ensures { Answers result (check_object path.now (map (λ k. k.now) keys.now) (view value.now)) }
{
    match value.as_object() {
        Some(members) => match unknown(keys, members) {
            Some(key) => Err(wrong_at(alloc, path, key.as_str())),
            None => Ok(()),
        },
        None => Err(fault_at(GraphCode::WrongForm, path.to_string(alloc)?)),
    }
}

// The whole number at a key, of any size.
pub(crate) fn integer_at(key: &str, value: &Value) -> Option<i128>
    ensures { result ≡ integer_at key.now (view value.now) }
{
    value
        .get(key)
        .and_then(Value::as_number)
        .and_then(Number::as_i128)
}

fn whole_within(least: u32, most: u32, number: i128) -> Option<u32>
    ensures value { result ≡ whole_within least most number }
    ensures range { IfSome result (λ n. (least ≤ n) × (n ≤ most)) }
{
    if i128::from(least) <= number && number <= i128::from(most) {
        Some(number as u32)
    } else {
        None
    }
}

// The whole number at a key, from the least to the most.
pub(crate) fn whole_at(
    alloc: Global,
    path: &str,
    key: &str,
    least: u32,
    most: u32,
    value: &Value,
) -> Result<u32, GraphFault>
    ensures ok { IfOk result (λ n. whole_at path.now key.now least most (view value.now) ≡ Ok n) }
    ensures range { IfOk result (λ n. (least ≤ n) × (n ≤ most)) }
    ensures err { Refuses result (whole_at path.now key.now least most (view value.now)) }
{
    match integer_at(key, value) {
        Some(number) => match whole_within(least, most, number) {
            Some(n) => Ok(n),
            None => Err(range_at(alloc, path, key)),
        },
        None => Err(wrong_at(alloc, path, key)),
    }
}

// The text at a key.
pub(crate) fn text_at<'v>(
    alloc: Global,
    path: &str,
    key: &str,
    value: &'v Value,
) -> Result<&'v str, GraphFault>
    ensures ok { IfOk result (λ s. text_at path.now key.now (view value.now) ≡ Ok s.now) }
    ensures err { Refuses result (text_at path.now key.now (view value.now)) }
{
    match value.get(key).and_then(Value::as_str) {
        Some(text) => Ok(text),
        None => Err(wrong_at(alloc, path, key)),
    }
}

// A member's word, or that it is of another form.
pub(crate) fn word_at<T>(
    alloc: Global,
    path: &str,
    key: &str,
    word: Option<T>,
) -> Result<T, GraphFault>
    ensures ok { IfOk result (λ w. word_at path.now key.now word ≡ Ok w) }
    ensures err { Refuses result (word_at path.now key.now word) }
{
    match word {
        Some(word) => Ok(word),
        None => Err(wrong_at(alloc, path, key)),
    }
}

// The text at a key, kept.
pub(crate) fn name_at(
    alloc: Global,
    path: &str,
    key: &str,
    value: &Value,
) -> Result<Name, GraphFault>
    ensures ok { IfOk result (λ name. text_at path.now key.now (view value.now) ≡ Ok name) }
    ensures err { Refuses result (text_at path.now key.now (view value.now)) }
{
    match text_at(alloc, path, key, value) {
        Ok(text) => Ok(Name::of(text.to_string(alloc)?)),
        Err(fault) => Err(fault),
    }
}

fn short(text: &str) -> Option<&str>
    ensures { option_map (λ s. s.now) result ≡ short text.now }
{
    if 1 <= text.len() && text.len() <= 64 {
        Some(text)
    } else {
        None
    }
}

// The text of 1 to 64 bytes at a key, kept.
pub(crate) fn short_at(
    alloc: Global,
    path: &str,
    key: &str,
    value: &Value,
) -> Result<Name, GraphFault>
    ensures ok { IfOk result (λ name. short_at path.now key.now (view value.now) ≡ Ok name) }
    ensures err { Refuses result (short_at path.now key.now (view value.now)) }
{
    match text_at(alloc, path, key, value) {
        Ok(text) => match short(text) {
            Some(text) => Ok(Name::of(text.to_string(alloc)?)),
            None => Err(range_at(alloc, path, key)),
        },
        Err(fault) => Err(fault),
    }
}

// A value that is a text of 1 to 64 bytes, kept.
pub(crate) fn short_of(alloc: Global, path: &str, value: &Value) -> Result<Name, GraphFault>
    ensures { Answers result (short_of path.now (view value.now)) }
{
    match value.as_str() {
        Some(text) => match short(text) {
            Some(text) => Ok(Name::of(text.to_string(alloc)?)),
            None => Err(range_at(alloc, "", path)),
        },
        None => Err(wrong_at(alloc, "", path)),
    }
}

// Whether there is a member.
pub(crate) fn has(key: &str, value: &Value) -> bool
    ensures { result ≡ has key.now (view value.now) }
{
    value.get(key).is_some()
}

// The member at a key.
pub(crate) fn member_at<'v>(
    alloc: Global,
    path: &str,
    key: &str,
    value: &'v Value,
) -> Result<&'v Value, GraphFault>
    ensures ok { IfOk result (λ d. member_at path.now key.now (view value.now) ≡ Ok (view d.now)) }
    ensures err { Refuses result (member_at path.now key.now (view value.now)) }
{
    match value.get(key) {
        Some(member) => Ok(member),
        None => Err(wrong_at(alloc, path, key)),
    }
}

fn few(least: usize, most: usize, items: &[Value]) -> Option<&[Value]>
    ensures value { option_map (λ f. items_view f.now) result ≡ few least most (items_view items.now) }
    ensures range { IfSome result (λ found. (least ≤ length found.now) × (length found.now ≤ most)) }
{
    if least <= items.len() && items.len() <= most {
        Some(items)
    } else {
        None
    }
}

fn array_at<'v>(key: &str, value: &'v Value) -> Option<&'v [Value]>
    ensures { let found = option_and_then as_array (get key.now (view value.now))
        in option_map (λ items. items_view items.now) result ≡ found }
{
    match value.get(key).and_then(Value::as_array) {
        Some(items) => Some(items.as_slice()),
        None => None,
    }
}

// The list at a key, of so many items at least and at most.
pub(crate) fn list_at<'v>(
    alloc: Global,
    path: &str,
    key: &str,
    least: usize,
    most: usize,
    value: &'v Value,
) -> Result<&'v [Value], GraphFault>
    ensures ok { let wanted = list_at path.now key.now least most (view value.now)
        in IfOk result (λ items. wanted ≡ Ok (items_view items.now)) }
    ensures range { IfOk result (λ items. (least ≤ length items.now) × (length items.now ≤ most)) }
    ensures err { Refuses result (list_at path.now key.now least most (view value.now)) }
{
    match array_at(key, value) {
        Some(items) => match few(least, most, items) {
            Some(items) => Ok(items),
            None => Err(range_at(alloc, path, key)),
        },
        None => Err(wrong_at(alloc, path, key)),
    }
}

// The same, of which there are none where the member is absent.
pub(crate) fn list_or<'v>(
    alloc: Global,
    path: &str,
    key: &str,
    least: usize,
    most: usize,
    value: &'v Value,
) -> Result<&'v [Value], GraphFault>
    ensures ok { let wanted = list_or path.now key.now least most (view value.now)
        in IfOk result (λ items. wanted ≡ Ok (items_view items.now)) }
    ensures range { IfOk result (λ items. length items.now ≤ most) }
    ensures err { Refuses result (list_or path.now key.now least most (view value.now)) }
{
    if has(key, value) {
        list_at(alloc, path, key, least, most, value)
    } else {
        Ok(&[])
    }
}
