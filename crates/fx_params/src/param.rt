//! A parameter with its value and its keys.
ghost use Rattle.std.specs.Prelude.{◌≡◌, ◌+◌, ◌<◌, ℤ, pos, negsuc, ◌≤ℤ◌, All, [], length, map, slice_get, position, IfOk, IfErr, OnOk, OnErr, IsOk, IsOkUnless, MatchOption};
ghost use Rattle.std.specs.Option.{ok_or, option_map};
ghost use Rattle.std.specs.Ordering.{int_eq};
ghost use Rattle.fx_params.specs.Value.{number_of, refusal, IsWithin};
ghost use Rattle.fx_params.specs.Keys.{IsRising, key_at, ChangesKey, with_key, without_key, IsAt, IsGapFor, IsPassed};
ghost use Rattle.fx_base.specs.Rect.{IsFrame};
ghost use Rattle.fx_params.specs.Parameter.{made, steps, value_at, keyed_value, value_before, value_after, IsValueAt, IsSound, divided, divided_from, with_value, with_values};

use crate::key::Key;
use crate::{ParamDef, ParamFault, ParamKind, ParamValue};
use fx_base::Memory;
use std::alloc::{AllocFailed, Global};
use std::marker::Model;

/// A parameter: its value without keys, and keys that change the value over the frames.
#[derive(Debug, Drop)]
pub struct Param {
    def: ParamDef,
    plain: i64,
    step: bool,
    keys: Vec<Key>,
}

impl Model for Param {
    ghost use Rattle.fx_params.specs.Parameter.{Parameter, IsSound};

    ghost Value = { Parameter };

    ghost view = { λ p. record { def = p.def; plain = p.plain; step = p.step; keys = p.keys.items } };

    ghost invariant = { λ p. IsSound (record { def = p.def; plain = p.plain; step = p.step; keys = p.keys.items }) };
}

impl Param {
    /// A parameter of this definition, with no key and the value at the start, linear.
    pub fn new(alloc: Global, def: ParamDef) -> Result<Param, Memory>
        requires low { def.least ≤ℤ def.start }
        requires high { def.start ≤ℤ def.greatest }
        ensures { IfOk result (λ param. param ≡ made def) }
    {
        Ok(Param {
            plain: def.start,
            step: false,
            keys: Vec::new(alloc),
            def,
        })
    }

    /// Sets the value without keys. A value that isn't of the parameter's kind is `WrongKind`, and else
    /// one whose number is outside of the range is `OutOfRange`.
    pub fn set_value(&mut self, v: ParamValue) -> Result<(), ParamFault>
        ensures answer { MatchOption (refusal self.old.def v) (IsOk result) (λ fault. result ≡ Err fault) }
        ensures ok { OnOk result (self.new ≡ record self.old { plain = number_of v }) }
        ensures err { OnErr result (self.new ≡ self.old) }
    {
        self.plain = self.def.taken(v)?;
        Ok(())
    }

    /// Puts a key at the frame, new or in place of the one that is there. The value is refused as that
    /// of `set_value` is.
    pub fn set_key(&mut self, alloc: Global, frame: i64, v: ParamValue) -> Result<(), ParamFault>
        requires low { negsuc 1073741823 ≤ℤ frame }
        requires high { frame ≤ℤ pos 1073741824 }
        ensures answer { MatchOption (refusal self.old.def v)
            (IsOkUnless result ParamFault.Memory) (λ fault. result ≡ Err fault) }
        ensures ok { OnOk result (self.new ≡ record self.old {
          keys = with_key self.old.keys (record { frame = frame; value = number_of v });
        }) }
        ensures map { OnOk result (ChangesKey self.old.keys self.new.keys frame (Some (number_of v))) }
        ensures err { OnErr result (self.new ≡ self.old) }
    {
        let value = self.def.taken(v)?;
        put(&mut self.keys, Key { frame, value })?;
        Ok(())
    }

    /// Takes the key at the frame away: `NoSuchKey` where none is there.
    pub fn delete_key(&mut self, frame: i64) -> Result<(), ParamFault>
        ensures answer { MatchOption (key_at self.old.keys frame)
            (result ≡ Err ParamFault.NoSuchKey) (λ _. IsOk result) }
        ensures ok { OnOk result (self.new ≡ record self.old { keys = without_key self.old.keys frame }) }
        ensures map { OnOk result (ChangesKey self.old.keys self.new.keys frame None) }
        ensures err { OnErr result (self.new ≡ self.old) }
    {
        match place(&self.keys, frame) {
            Ok(at) => {
                self.keys.remove(at);
                Ok(())
            }
            Err(_) => Err(ParamFault::NoSuchKey),
        }
    }

    /// Takes all keys away.
    pub fn delete_all(&mut self)
        ensures { self.new ≡ record self.old { keys = [] } }
    {
        self.keys.clear();
    }

    /// Lets the value step from key to key, or go on straight lines. Flags and choices step in any case.
    pub fn set_step(&mut self, step: bool)
        ensures { self.new ≡ record self.old { step = step } }
    {
        self.step = step;
    }

    /// Divides the value and the value of each key, to the nearest and halves up. Where that is below the definition's
    /// least, it is the least.
    pub fn divide(&mut self, by: u32)
        requires some { 0 < by }
        requires range { pos 0 ≤ℤ self.old.def.greatest }
        ensures { self.new ≡ with_values (divided_from self.old.def.least by) self.old }
    {
        let least = self.def.least;
        self.plain = divided_from(least, by, self.plain);
        divide_each(&mut self.keys, least, by);
    }

    /// The number of keys.
    pub fn key_count(&self) -> u32
        ensures count { result ≡ length self.now.keys }
        ensures rising { IsRising self.now.keys }
    {
        self.keys.len() as u32
    }

    /// The definition that it was made with, which its value and its keys keep to.
    pub fn def(&self) -> &ParamDef
        ensures same { result.now ≡ self.now.def }
        ensures kept { IsSound self.now }
    {
        &self.def
    }

    /// The value without keys.
    pub fn plain(&self) -> i64
        ensures value { result ≡ self.now.plain }
        ensures in_range { IsWithin self.now.def result }
    {
        self.plain
    }

    /// Whether it was last set to step.
    pub fn is_step(&self) -> bool
        ensures { result ≡ self.now.step }
    {
        self.step
    }

    /// The frame of the key at a place, from 0 by rising frame: `BadIndex` at the count or past it.
    pub fn key_time(&self, index: u32) -> Result<i64, ParamFault>
        ensures { let frame = option_map (λ key. key.frame) (slice_get self.now.keys index) in
            result ≡ ok_or frame ParamFault.BadIndex }
    {
        match self.keys.get(index as usize) {
            Some(key) => Ok(key.frame),
            None => Err(ParamFault::BadIndex),
        }
    }

    /// The place of the key at a frame, from 0 by rising frame: `NoSuchKey` where none is there.
    pub fn key_index(&self, frame: i64) -> Result<u32, ParamFault>
        ensures { let place = position (λ key. int_eq key.frame frame) self.now.keys in
            result ≡ ok_or place ParamFault.NoSuchKey }
    {
        match place(&self.keys, frame) {
            Ok(at) => Ok(at as u32),
            Err(_) => Err(ParamFault::NoSuchKey),
        }
    }

    /// The value at a frame: the plain value without keys, the first key's value before it, the last
    /// key's value from it on, and between two keys the straight line, rounded down, or the earlier
    /// one's value where the parameter steps.
    pub fn value_at(&self, frame: i64) -> i64
        ensures value { result ≡ value_at self.now frame }
        ensures by_keys { IsValueAt self.now frame result }
        ensures in_range { IsWithin self.now.def result }
    {
        keyed_value(&self.keys, self.plain, self.steps(), frame)
    }

    fn steps(&self) -> bool
        ensures { result ≡ steps self.now }
    {
        self.step || self.def.kind.steps()
    }
}

// Divides the value of each key.
fn divide_each(keys: &mut Vec<Key>, least: i64, by: u32)
    requires { 0 < by }
    ensures { keys.new.items ≡ map (with_value (divided_from least by)) keys.old.items }
{
    for key in keys.iter_mut() {
        divide_key(key, least, by);
    }
}

fn divide_key(key: &mut Key, least: i64, by: u32)
    requires { 0 < by }
    ensures { key.new ≡ with_value (divided_from least by) key.old }
{
    key.value = divided_from(least, by, key.value);
}

// A value divided, to the nearest and halves up, and the least at least.
fn divided_from(least: i64, by: u32, value: i64) -> i64
    requires { 0 < by }
    ensures { result ≡ divided_from least by value }
{
    let near = divided(value, by) as i64;
    near.max(least)
}

// The same in wide numbers, without a least.
fn divided(value: i64, by: u32) -> i128
    requires { 0 < by }
    ensures value { result ≡ divided by value }
    ensures low { negsuc 9223372036854775807 ≤ℤ result }
    ensures high { result ≤ℤ pos 9223372036854775807 }
{
    let by = i128::from(by);
    (2 * i128::from(value) + by).div_euclid(2 * by)
}

// Where the key at the frame stands, or where it would go.
fn place(keys: &[Key], frame: i64) -> Result<usize, usize>
    requires { IsRising keys.now }
    ensures found { IfOk result (IsAt keys.now frame) }
    ensures absent { IfErr result (IsGapFor keys.now frame) }
{
    keys.binary_search_by_key(&frame, |key| key.frame)
}

// Puts the key in its place, new or over the one that stands at its frame.
fn put(keys: &mut Vec<Key>, key: Key) -> Result<(), AllocFailed<Key>>
    requires { IsRising keys.old.items }
    ensures ok { OnOk result (keys.new.items ≡ with_key keys.old.items key) }
    ensures err { OnErr result (keys.new.items ≡ keys.old.items) }
{
    match place(keys, key.frame) {
        Ok(at) => {
            keys[at] = key;
            Ok(())
        }
        Err(at) => keys.insert(at, key),
    }
}

// The place of the last key that stands at the frame or before it.
fn last_passed(keys: &[Key], frame: i64) -> Option<usize>
    requires { IsRising keys.now }
    ensures { MatchOption result (IsPassed keys.now frame 0) (λ last. IsPassed keys.now frame (last + 1)) }
{
    match place(keys, frame) {
        Ok(at) => Some(at),
        Err(at) => at.checked_sub(1),
    }
}

fn keyed_value(keys: &[Key], plain: i64, steps: bool, frame: i64) -> i64
    requires rising { IsRising keys.now }
    requires frames { All (λ key. IsFrame key.frame) keys.now }
    ensures { result ≡ keyed_value steps plain keys.now frame }
{
    match last_passed(keys, frame) {
        None => value_before(keys, plain),
        Some(last) => value_after(keys, last, steps, frame),
    }
}

// The value where every key is still to come.
fn value_before(keys: &[Key], plain: i64) -> i64
    ensures { result ≡ value_before plain keys.now }
{
    match keys.first() {
        Some(key) => key.value,
        None => plain,
    }
}

// The value where the key at a place is the last one passed.
fn value_after(keys: &[Key], last: usize, steps: bool, frame: i64) -> i64
    requires passed { IsPassed keys.now frame (last + 1) }
    requires frames { All (λ key. IsFrame key.frame) keys.now }
    ensures { result ≡ value_after steps keys.now last frame }
{
    let key = keys[last];
    if steps || last + 1 == keys.len() {
        return key.value;
    }
    key.toward(keys[last + 1], frame)
}
