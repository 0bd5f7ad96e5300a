//! Clips, and the values of parameters, as a graph file says them.
ghost use Rattle.std.specs.Prelude.{◌≡◌, ◌≤◌, length, IfOk};
ghost use Rattle.fx_text.specs.declared.value.TheConstants.{MOST_KEYS};

use fx_base::{Memory, Name};
use std::alloc::Global;
use std::marker::Model;

/// The most keys of a parameter.
pub const MOST_KEYS: usize = 1000;

/// An input clip, and the name of the node that it is connected to.
#[derive(Debug, Drop)]
pub struct RawClip {
    pub name: Name,
    pub node: Name,
}

/// A value: a whole number, a text, or true or false.
#[derive(Debug, Drop)]
pub enum RawScalar {
    Int(i64),
    Text(Name),
    Flag(bool),
}

impl RawScalar {
    /// Another that is the same.
    pub fn copied(&self, alloc: Global) -> Result<RawScalar, Memory>
        ensures { IfOk result (λ scalar. scalar ≡ self.now) }
    {
        match self {
            RawScalar::Int(number) => Ok(RawScalar::Int(*number)),
            RawScalar::Text(text) => Ok(RawScalar::Text(text.copied(alloc)?)),
            RawScalar::Flag(flag) => Ok(RawScalar::Flag(*flag)),
        }
    }
}

/// A value at a frame, from -999,999 to 999,999.
#[derive(Debug, Drop)]
pub struct RawKey {
    pub frame: i64,
    pub value: RawScalar,
}

impl Model for RawKey {
    ghost use Rattle.fx_text.specs.Key.{Key, IsFrame};

    ghost Value = { Key };

    ghost view = { λ k. record { frame = k.frame; value = k.value } };

    ghost invariant = { λ k. IsFrame k.frame };
}

impl RawKey {
    /// Another that is the same.
    pub fn copied(&self, alloc: Global) -> Result<RawKey, Memory>
        ensures { IfOk result (λ key. key ≡ self.now) }
    {
        let value = self.value.copied(alloc)?;
        Ok(RawKey {
            frame: self.frame,
            value,
        })
    }
}

fn keys_copied(alloc: Global, keys: &[RawKey]) -> Result<Vec<RawKey>, Memory>
    ensures { IfOk result (λ copies. copies.items ≡ keys.now) }
{
    let mut copies = Vec::new(alloc);
    for key in keys {
        copies.push(key.copied(alloc)?)?;
    }
    Ok(copies)
}

/// The keys of a parameter, 1 to 1,000, in the order of the file.
#[derive(Debug, Drop)]
pub struct RawKeys {
    items: Vec<RawKey>,
}

impl Model for RawKeys {
    ghost use Rattle.std.specs.Prelude.{List, length};
    ghost use Rattle.fx_text.specs.Key.{Key, AreFewKeys};

    ghost Value = { List Key };

    ghost view = { λ k. k.items.items };

    ghost invariant = { λ k. AreFewKeys (length k.items.items) };
}

impl RawKeys {
    /// These keys, in this order.
    pub fn of(items: Vec<RawKey>) -> RawKeys
        requires { (1 ≤ length items.items) × (length items.items ≤ MOST_KEYS) }
        ensures { result ≡ items.items }
    {
        RawKeys { items }
    }

    /// The keys in order.
    pub fn items(&self) -> &[RawKey]
        ensures { result.now ≡ self.now }
    {
        self.items.as_slice()
    }

    /// The keys in order, given away.
    pub fn into_items(self) -> Vec<RawKey>
        ensures { result.items ≡ self }
    {
        self.items
    }

    /// Others that are the same.
    pub fn copied(&self, alloc: Global) -> Result<RawKeys, Memory>
        ensures { IfOk result (λ keys. keys ≡ self.now) }
    {
        let items = keys_copied(alloc, self.items.as_slice())?;
        Ok(RawKeys { items })
    }
}

/// What a parameter is given: one value, or keys over the frames, stepped or linear.
#[derive(Debug, Drop)]
pub enum RawValue {
    Plain(RawScalar),
    Keyed { keys: RawKeys, step: bool },
}

impl RawValue {
    /// Another that is the same.
    pub fn copied(&self, alloc: Global) -> Result<RawValue, Memory>
        ensures { IfOk result (λ value. value ≡ self.now) }
    {
        match self {
            RawValue::Plain(scalar) => Ok(RawValue::Plain(scalar.copied(alloc)?)),
            RawValue::Keyed { keys, step } => Ok(RawValue::Keyed {
                keys: keys.copied(alloc)?,
                step: *step,
            }),
        }
    }
}

/// A parameter, and what it is given.
#[derive(Debug, Drop)]
pub struct RawParam {
    pub name: Name,
    pub value: RawValue,
}

impl RawParam {
    /// Another that is the same.
    pub fn copied(&self, alloc: Global) -> Result<RawParam, Memory>
        ensures { IfOk result (λ param. param ≡ self.now) }
    {
        let name = self.name.copied(alloc)?;
        let value = self.value.copied(alloc)?;
        Ok(RawParam { name, value })
    }
}
