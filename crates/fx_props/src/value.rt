//! Values of properties and lists of them. Contracts see a text as its bytes.
ghost use Rattle.std.specs.Prelude.{◌≡◌, IfOk};
ghost use Rattle.std.specs.List.{list_any};
ghost use Rattle.std.specs.Str.{bytes_eq};
ghost use Rattle.fx_props.specs.Value.{kind_of, is_allowed, value_given};

use fx_base::{Fix, Name, Names};
use std::alloc::{AllocError, Global};
use std::marker::Model;

/// The kinds of properties. Doubles are fixed-point numbers.
#[derive(Clone, Copy, Debug, PartialEq, Eq)]
pub enum PropKind {
    Int,
    Fix,
    Text,
}

/// A value of a property.
#[derive(Debug, Drop)]
pub enum PropValue {
    Int(i64),
    Fix(Fix),
    Text(Name),
}

impl PropValue {
    fn copy(&self, alloc: Global) -> Result<PropValue, AllocError>
        ensures { IfOk result (λ value. value ≡ self.now) }
    {
        match self {
            PropValue::Int(n) => Ok(PropValue::Int(*n)),
            PropValue::Fix(fix) => Ok(PropValue::Fix(*fix)),
            PropValue::Text(name) => Ok(PropValue::Text(name_of(alloc, name.text())?)),
        }
    }
}

/// A list of values.
#[derive(Debug, Drop)]
pub struct PropList {
    items: Vec<PropValue>,
}

impl Model for PropList {
    ghost use Rattle.std.specs.Prelude.{List};
    ghost use Rattle.fx_props.specs.declared.value.PropValue.{PropValue};

    ghost Value = { List PropValue };

    ghost view = { λ list. list.items.items };
}

impl PropList {
    /// These values, in this order.
    pub fn of(items: Vec<PropValue>) -> PropList
        ensures { result ≡ items.items }
    {
        PropList { items }
    }

    /// The values in order.
    pub fn items(&self) -> &[PropValue]
        ensures { result.now ≡ self.now }
    {
        self.items.as_slice()
    }

    /// The values in order, given away.
    pub fn into_items(self) -> Vec<PropValue>
        ensures { result.items ≡ self }
    {
        self.items
    }
}

/// A copy of a list of values.
pub(crate) fn copied(alloc: Global, values: &[PropValue]) -> Result<Vec<PropValue>, AllocError>
    ensures { IfOk result (λ copy. copy.items ≡ values.now) }
{
    let mut copy = Vec::new(alloc);
    for value in values {
        copy.push(value.copy(alloc)?)?;
    }
    Ok(copy)
}

/// A value as it is handed in, before its text is copied.
#[derive(Clone, Copy)]
pub(crate) enum Given<'a> {
    Int(i64),
    Fix(Fix),
    Text(&'a str),
}

impl Given<'_> {
    pub(crate) fn kind(self) -> PropKind
        ensures { result ≡ kind_of (value_given self.entry) }
    {
        match self {
            Given::Int(_) => PropKind::Int,
            Given::Fix(_) => PropKind::Fix,
            Given::Text(_) => PropKind::Text,
        }
    }

    /// Where texts are listed, only these are allowed.
    pub(crate) fn is_allowed(self, allowed: &Names) -> bool
        ensures { result ≡ is_allowed allowed.now (value_given self.entry) }
    {
        let texts = allowed.items();
        texts.is_empty()
            || match self {
                Given::Text(text) => is_listed(texts, text),
                _ => false,
            }
    }

    pub(crate) fn value(self, alloc: Global) -> Result<PropValue, AllocError>
        ensures { IfOk result (λ value. value ≡ value_given self.entry) }
    {
        match self {
            Given::Int(n) => Ok(PropValue::Int(n)),
            Given::Fix(fix) => Ok(PropValue::Fix(fix)),
            Given::Text(text) => Ok(PropValue::Text(name_of(alloc, text)?)),
        }
    }
}

fn is_listed(texts: &[Name], text: &str) -> bool
    ensures { result ≡ list_any (λ t. bytes_eq t text.now) texts.now }
{
    texts.iter().any(|name| name.text() == text)
}

pub(crate) fn name_of(alloc: Global, text: &str) -> Result<Name, AllocError>
    ensures { IfOk result (λ name. name ≡ text.now) }
{
    Ok(Name::of(String::from_str(alloc, text)?))
}
