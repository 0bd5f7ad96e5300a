//! A set of properties.
ghost use Rattle.std.specs.Prelude.{◌≡◌, ℕ, List, All, IfOk, IfSome, OnOk, OnErr};
ghost use Rattle.std.specs.FinMap.{from_entries};
ghost use Rattle.std.specs.List.{find, position};
ghost use Rattle.std.specs.Option.{option_copied, option_map};
ghost use Rattle.std.specs.Str.{bytes_eq};
ghost use Rattle.fx_props.specs.declared.value.PropKind.TheVariants as kind;
ghost use Rattle.fx_props.specs.declared.value.PropValue.TheVariants as value;
ghost use Rattle.fx_props.specs.Value.{kind_of, as_value, value_given};
ghost use Rattle.fx_props.specs.Property.{IsLawful, IsLawfulDef, IsAnswer};
ghost use Rattle.fx_props.specs.Set.{property, read, refusal, reset_refusal, dimension_of, Puts, Resets, AreApart, made};

use crate::property::Property;
use crate::value::Given;
use crate::{PropDef, PropFault, PropKind, PropValue};
use fx_base::{Fix, Memory};
use std::alloc::Global;
use std::marker::Model;

/// Properties with their values, each under its name.
#[derive(Debug, Drop)]
pub struct PropSet {
    properties: Vec<Property>,
}

impl Model for PropSet {
    ghost use Rattle.std.specs.FinMap as map;
    ghost use Rattle.fx_props.specs.Set.{Set};
    ghost use Rattle.std.specs.Coded.{coded_ℕ, coded_list};
    ghost use Rattle.fx_props.specs.Property.{property_code};

    ghost Value = { Set };

    ghost coded = { map.code (coded_list coded_ℕ) property_code };

    ghost view = { λ set. map.from_entries set.properties.items };
}

impl PropSet {
    /// The set of these properties, each with its values at the start.
    pub fn new(alloc: Global, defs: Vec<PropDef>) -> Result<PropSet, Memory>
        requires names { AreApart defs.items }
        requires lawful { All IsLawfulDef defs.items }
        ensures { IfOk result (λ set. (name : List ℕ) → property set name ≡ made defs.items name) }
    {
        let mut properties = Vec::new(alloc);
        for def in defs {
            properties.push(Property::new(alloc, def)?)?;
        }
        Ok(PropSet { properties })
    }

    /// The set of these.
    pub(crate) fn of(properties: Vec<Property>) -> PropSet
        ensures { result ≡ from_entries properties.items }
    {
        PropSet { properties }
    }

    /// The int at a place: `ErrUnknown` where no int property has the name, and `ErrBadIndex` where
    /// fewer values are there.
    pub fn get_int(&self, name: &str, index: u32) -> Result<i64, PropFault>
        ensures { as_value value.Int result ≡ read self.now kind.Int name.now index }
    {
        match self.value(PropKind::Int, name, index) {
            Ok(PropValue::Int(n)) => Ok(*n),
            Ok(_) => unreachable!(),
            Err(fault) => Err(fault),
        }
    }

    /// The fixed-point number at a place, or why there is none, as `get_int` says it.
    pub fn get_fix(&self, name: &str, index: u32) -> Result<Fix, PropFault>
        ensures { as_value value.Fix result ≡ read self.now kind.Fix name.now index }
    {
        match self.value(PropKind::Fix, name, index) {
            Ok(PropValue::Fix(fix)) => Ok(*fix),
            Ok(_) => unreachable!(),
            Err(fault) => Err(fault),
        }
    }

    /// The text at a place, or why there is none, as `get_int` says it.
    pub fn get_text(&self, name: &str, index: u32) -> Result<&str, PropFault>
        ensures { as_value (λ text. value.Text text.now) result ≡ read self.now kind.Text name.now index }
    {
        match self.value(PropKind::Text, name, index) {
            Ok(PropValue::Text(text)) => Ok(text.text()),
            Ok(_) => unreachable!(),
            Err(fault) => Err(fault),
        }
    }

    /// Puts an int over the one at a place, or behind the last one while there are fewer than the most:
    /// `ErrUnknown` where no int property has the name, `ErrBadIndex` at any other place, and `ErrValue`
    /// where the value isn't allowed.
    pub fn set_int(
        &mut self,
        alloc: Global,
        name: &str,
        index: u32,
        v: i64,
    ) -> Result<(), PropFault>
        ensures answer { IsAnswer (refusal self.old name.now index (value.Int v)) result }
        ensures ok { OnOk result (Puts self.old self.new name.now index (value.Int v)) }
        ensures err { OnErr result (self.new ≡ self.old) }
    {
        self.put(alloc, name, index, Given::Int(v))
    }

    /// Puts a fixed-point number at a place, or refuses it, as `set_int` does.
    pub fn set_fix(
        &mut self,
        alloc: Global,
        name: &str,
        index: u32,
        v: Fix,
    ) -> Result<(), PropFault>
        ensures answer { IsAnswer (refusal self.old name.now index (value.Fix v)) result }
        ensures ok { OnOk result (Puts self.old self.new name.now index (value.Fix v)) }
        ensures err { OnErr result (self.new ≡ self.old) }
    {
        self.put(alloc, name, index, Given::Fix(v))
    }

    /// Puts a text at a place, or refuses it, as `set_int` does.
    pub fn set_text(
        &mut self,
        alloc: Global,
        name: &str,
        index: u32,
        v: &str,
    ) -> Result<(), PropFault>
        ensures answer { IsAnswer (refusal self.old name.now index (value.Text v.now)) result }
        ensures ok { OnOk result (Puts self.old self.new name.now index (value.Text v.now)) }
        ensures err { OnErr result (self.new ≡ self.old) }
    {
        self.put(alloc, name, index, Given::Text(v))
    }

    /// The number of values: `ErrUnknown` where no property has the name.
    pub fn dimension(&self, name: &str) -> Result<u32, PropFault>
        ensures count { result ≡ dimension_of self.now name.now }
        ensures lawful { IfSome (property self.now name.now) IsLawful }
    {
        match self.find(name) {
            Some(p) => Ok(p.values().len() as u32),
            None => Err(PropFault::ErrUnknown),
        }
    }

    /// Brings the values at the start back: `ErrUnknown` where no property has the name.
    pub fn reset(&mut self, alloc: Global, name: &str) -> Result<(), PropFault>
        ensures answer { IsAnswer (reset_refusal self.old name.now) result }
        ensures ok { OnOk result (Resets self.old self.new name.now) }
        ensures err { OnErr result (self.new ≡ self.old) }
    {
        match place(&self.properties, name) {
            Some(at) => Ok(self.properties[at].reset(alloc)?),
            None => Err(PropFault::ErrUnknown),
        }
    }

    fn put(
        &mut self,
        alloc: Global,
        name: &str,
        index: u32,
        given: Given<'_>,
    ) -> Result<(), PropFault>
        ensures answer { IsAnswer (refusal self.old name.now index (value_given given.entry)) result }
        ensures ok { OnOk result (Puts self.old self.new name.now index (value_given given.entry)) }
        ensures err { OnErr result (self.new ≡ self.old) }
    {
        match place(&self.properties, name) {
            Some(at) => self.properties[at].put(alloc, index, given),
            None => Err(PropFault::ErrUnknown),
        }
    }

    fn find(&self, name: &str) -> Option<&Property>
        ensures { option_map (λ p. p.now.1) result ≡ property self.now name.now }
    {
        named(&self.properties, name)
    }

    fn value(&self, kind: PropKind, name: &str, index: u32) -> Result<&PropValue, PropFault>
        ensures value { as_value (λ v. v.now) result ≡ read self.now kind name.now index }
        ensures of_kind { IfOk result (λ v. kind_of v.now ≡ kind) }
    {
        match self.find(name) {
            Some(p) if p.is_of_kind(kind) => p.value(index),
            _ => Err(PropFault::ErrUnknown),
        }
    }
}

// Where the property of the name stands.
fn place(properties: &[Property], name: &str) -> Option<usize>
    ensures { result ≡ position (λ p. bytes_eq name.now p.0) properties.now }
{
    properties.iter().position(|p| p.is_named(name))
}

// The property of the name.
fn named<'a>(properties: &'a [Property], name: &str) -> Option<&'a Property>
    ensures { option_copied result ≡ find (λ p. bytes_eq name.now p.0) properties.now }
{
    properties.iter().find(|p| p.is_named(name))
}
