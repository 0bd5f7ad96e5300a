//! Properties with their values, and sets made of them (OpenFX 1.4, "Image Effect Actions").
ghost use Rattle.std.specs.Prelude.{◌≡◌, ◌≢◌, ◌++◌, [], All, AllPairs, IfOk};
ghost use Rattle.fx_props.specs.Property.{IsLawfulDef, property_made};
ghost use Rattle.fx_props.specs.Value.{kind_of};
ghost use Rattle.fx_props.specs.Entries.{blank, IsBlank, AreBlank, HasValues, NamesDiffer, def_of, text_entry, flag_entry};

use crate::property::Property;
use crate::value::name_of;
use crate::{PropDef, PropKind, PropList, PropSet, PropValue};
use fx_base::{Memory, Name, Names};
use std::alloc::Global;
use std::marker::Model;

/// A property with values of one kind, which a set begins with or a blank property is given.
#[derive(Debug, Drop)]
pub struct PropEntry {
    pub(crate) name: Name,
    pub(crate) kind: PropKind,
    pub(crate) values: Vec<PropValue>,
}

impl Model for PropEntry {
    ghost use Rattle.fx_props.specs.Entries.{Entry, IsEntry};

    ghost Value = { Entry };

    ghost view = { λ e. record { name = e.name; kind = e.kind; values = e.values.items } };

    ghost invariant = { λ e. IsEntry (record { name = e.name; kind = e.kind; values = e.values.items }) };
}

impl PropEntry {
    /// These values of a kind under a name. More values than a property may have, which are 2^32 - 1,
    /// are want of memory.
    pub fn new(name: Name, kind: PropKind, values: Vec<PropValue>) -> Result<PropEntry, Memory>
        requires { All (λ v. kind_of v ≡ kind) values.items }
        ensures { IfOk result (λ e. e ≡ record { name = name; kind = kind; values = values.items }) }
    {
        if values.len() > u32::MAX as usize {
            return Err(Memory);
        }
        Ok(PropEntry { name, kind, values })
    }

    /// A property that waits to be written.
    pub fn blank(alloc: Global, name: Name, kind: PropKind) -> PropEntry
        ensures { result ≡ record { name = name; kind = kind; values = [] } }
    {
        PropEntry {
            name,
            kind,
            values: Vec::new(alloc),
        }
    }

    /// One text under a name.
    pub fn text(alloc: Global, name: &str, text: &str) -> Result<PropEntry, Memory>
        ensures { IfOk result (λ e. e ≡ text_entry name.now text.now) }
    {
        let values = vec![in alloc; PropValue::Text(name_of(alloc, text)?)]?;
        PropEntry::new(name_of(alloc, name)?, PropKind::Text, values)
    }

    /// 1 for yes and 0 for no, under a name.
    pub fn flag(alloc: Global, name: &str, yes: bool) -> Result<PropEntry, Memory>
        ensures { IfOk result (λ e. e ≡ flag_entry name.now yes) }
    {
        let values = vec![in alloc; PropValue::Int(i64::from(yes))]?;
        PropEntry::new(name_of(alloc, name)?, PropKind::Int, values)
    }

    // The definition that starts with these values and takes any.
    pub(crate) fn into_def(self, alloc: Global) -> PropDef
        ensures def { result ≡ def_of self }
        ensures lawful { IsLawfulDef result }
    {
        PropDef {
            name: self.name,
            kind: self.kind,
            most: u32::MAX,
            allowed: Names::of(Vec::new(alloc)),
            start: PropList::of(self.values),
        }
    }
}

/// The set of these entries. One that has no value waits to be written.
pub fn set_of(alloc: Global, entries: Vec<PropEntry>) -> Result<PropSet, Memory>
    requires { NamesDiffer entries.items }
    ensures values { IfOk result (λ set. All (HasValues set) entries.items) }
    ensures blank { IfOk result (λ set. All (λ e. e.values ≡ [] → IsBlank set e.kind e.name) entries.items) }
{
    let mut defs = Vec::new(alloc);
    for entry in entries {
        defs.push(entry.into_def(alloc))?;
    }
    Ok(PropSet::new(alloc, defs)?)
}

/// A property that waits to be written: no value yet, and any number of any values may come.
pub fn blank(alloc: Global, name: &str, kind: PropKind) -> Result<PropDef, Memory>
    ensures lawful { IfOk result (λ def. IsLawfulDef def) }
    ensures name { IfOk result (λ def. def.name ≡ name.now) }
    ensures made { IfOk result (λ def. property_made def ≡ blank kind) }
{
    Ok(PropEntry::blank(alloc, name_of(alloc, name)?, kind).into_def(alloc))
}

/// The name of a clip's own property: the prefix and then the clip's name.
pub fn composed(alloc: Global, prefix: &str, clip: &str) -> Result<Name, Memory>
    ensures { IfOk result (λ n. n ≡ prefix.now ++ clip.now) }
{
    let mut text = String::with_capacity(alloc, prefix.len() + clip.len())?;
    text.push_str(prefix)?;
    text.push_str(clip)?;
    Ok(Name::of(text))
}

/// A set with a blank property of this prefix for each clip.
pub fn clip_set_of_blanks(
    alloc: Global,
    prefix: &str,
    kind: PropKind,
    clips: &Names,
) -> Result<PropSet, Memory>
    requires { AllPairs (λ a b. a ≢ b) clips.now }
    ensures { IfOk result (λ set. AreBlank set prefix.now kind clips.now) }
{
    let mut properties = Vec::with_capacity(alloc, clips.items().len())?;
    for clip in clips.items() {
        let name = composed(alloc, prefix, clip.text())?;
        properties.push(Property::blank(alloc, name, kind))?;
    }
    Ok(PropSet::of(properties))
}
