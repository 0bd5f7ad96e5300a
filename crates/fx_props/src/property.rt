//! A property of a set: its definition and its values.
ghost use Rattle.std.specs.Prelude.{◌≡◌, IfOk, OnOk, OnErr};
ghost use Rattle.std.specs.Str.{bytes_eq};
ghost use Rattle.fx_props.specs.Value.{kind_of, same_kind, as_value, value_given};
ghost use Rattle.fx_props.specs.Entries.{blank};
ghost use Rattle.fx_props.specs.Property.{property_made, IsLawfulDef, IsLawful, with_values, of_kind, value_in, placed, put_refusal, IsAnswer};

use crate::value::{Given, copied};
use crate::{PropDef, PropEntry, PropFault, PropKind, PropValue};
use fx_base::Name;
use std::alloc::{AllocError, Global};
use std::marker::Model;

/// Contracts see it as its name and its kind, values and rules.
#[derive(Debug, Drop)]
pub(crate) struct Property {
    def: PropDef,
    values: Vec<PropValue>,
}

impl Model for Property {
    ghost use Rattle.std.specs.Prelude.{ℕ, List};
    ghost use Rattle.fx_props.specs.Property.{Property, property_with, IsLawful};

    ghost Value = { List ℕ × Property };

    ghost view = { λ p. (p.def.name, property_with p.def p.values.items) };

    ghost invariant = { λ p. IsLawful (property_with p.def p.values.items) };
}

impl Property {
    pub(crate) fn new(alloc: Global, def: PropDef) -> Result<Property, AllocError>
        requires { IsLawfulDef def }
        ensures { IfOk result (λ p. p ≡ (def.name, property_made def)) }
    {
        let values = copied(alloc, def.start.items())?;
        Ok(Property { def, values })
    }

    /// One that waits to be written.
    pub(crate) fn blank(alloc: Global, name: Name, kind: PropKind) -> Property
        ensures { result ≡ (name, blank kind) }
    {
        Property {
            def: PropEntry::blank(alloc, name, kind).into_def(alloc),
            values: Vec::new(alloc),
        }
    }

    pub(crate) fn is_named(&self, name: &str) -> bool
        ensures { result ≡ bytes_eq name.now self.now.0 }
    {
        name == self.def.name.text()
    }

    pub(crate) fn is_of_kind(&self, kind: PropKind) -> bool
        ensures { result ≡ same_kind self.now.1.kind kind }
    {
        self.def.kind == kind
    }

    pub(crate) fn values(&self) -> &[PropValue]
        ensures same { result.now ≡ self.now.1.values }
        ensures lawful { IsLawful self.now.1 }
    {
        self.values.as_slice()
    }

    pub(crate) fn value(&self, index: u32) -> Result<&PropValue, PropFault>
        ensures value { as_value (λ v. v.now) result ≡ value_in (Some self.now.1.values) index }
        ensures of_kind { IfOk result (λ v. kind_of v.now ≡ self.now.1.kind) }
    {
        match self.values.get(index as usize) {
            Some(value) => Ok(value),
            None => Err(PropFault::ErrBadIndex),
        }
    }

    /// Puts a value of the property's kind over the one at a place, or behind the last one.
    pub(crate) fn put(
        &mut self,
        alloc: Global,
        index: u32,
        given: Given<'_>,
    ) -> Result<(), PropFault>
        ensures answer { let v = value_given given.entry in
            IsAnswer (put_refusal (of_kind (kind_of v) self.old.1) index v) result }
        ensures ok { let values = placed self.old.1.values index (value_given given.entry) in
            OnOk result (self.new ≡ (self.old.0, with_values self.old.1 values)) }
        ensures err { OnErr result (self.new ≡ self.old) }
    {
        if !self.is_of_kind(given.kind()) {
            return Err(PropFault::ErrUnknown);
        }
        let index = index as usize;
        let count = self.values.len();
        if index > count || index == count && count >= self.def.most as usize {
            return Err(PropFault::ErrBadIndex);
        }
        if !given.is_allowed(&self.def.allowed) {
            return Err(PropFault::ErrValue);
        }
        let value = given.value(alloc)?;
        if index < count {
            self.values[index] = value;
        } else {
            self.values.push(value)?;
        }
        Ok(())
    }

    /// Brings the values at the start back.
    pub(crate) fn reset(&mut self, alloc: Global) -> Result<(), AllocError>
        ensures ok { OnOk result (self.new ≡ (self.old.0, with_values self.old.1 self.old.1.start)) }
        ensures err { OnErr result (self.new ≡ self.old) }
    {
        self.values = copied(alloc, self.def.start.items())?;
        Ok(())
    }
}
