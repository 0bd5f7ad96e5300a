//! Arguments that are kept, so that effects are asked again and again in the same property sets.
ghost use Rattle.std.specs.Prelude.{◌≡◌, ◌≢◌, ◌<◌, ◌≤◌, ◌∷◌, [], ℕ, List, slice_set, All, IfOk, None, OnErr, OnOk, length};
ghost use Rattle.fx_base.specs.Rect.{IsFrame};
ghost use Rattle.fx_effect.specs.Asked.{HasTime, IsWindow};
ghost use Rattle.fx_effect.specs.Shape.{IsLawful};
ghost use Rattle.fx_props.specs.Entries.{HasValues};
ghost use Rattle.fx_props.specs.Property.{IsAnswer, IsLawfulDef};
ghost use Rattle.fx_props.specs.Value.{kind_of};
ghost use Rattle.fx_props.specs.Set.{Puts, made, property, refusal};
ghost use Rattle.fx_props.specs.declared.names.TheConstants.{TIME};
ghost use Rattle.fx_props.specs.declared.value.PropKind.TheVariants as kinds;
ghost use Rattle.fx_actions.specs.Clips.{NamesClips, each_clip};
ghost use Rattle.fx_actions.specs.Asking.{AreArguments, HasNumbers, number_value, numbers, rect_entry};

use crate::interest::interest_by;
use crate::is_identity::identity;
use fx_base::{Fix, Memory, Name, Names, Rect};
use fx_effect::{Identity, ImageEffect, Values};
use fx_props::names::{ASKED_REGION, TIME, WINDOW};
use fx_props::{PropDef, PropFault, PropKind, PropList, PropSet, PropValue};
use std::alloc::Global;
use std::marker::Model;

/// The arguments of one who asks effects again and again whether they are an identity, and for their regions of
/// interest. Each ask writes only what differs from the one before. Contracts see nothing of it.
#[derive(Drop)]
pub struct Asking {
    window: Arguments,
    interest: Arguments,
}

impl Model for Asking {
    ghost use Rattle.fx_actions.specs.Asking.{AreBoth};

    ghost Value = { Unit {0} };

    ghost view = { λ asking. tt };

    ghost invariant = { λ asking. AreBoth asking.window asking.interest };
}

/// A set of a time and of a rectangle, with the numbers that it has.
#[derive(Drop)]
struct Arguments {
    set: PropSet,
    frame: [i64; 1],
    bounds: [i64; 4],
}

impl Asking {
    /// Arguments of frame 0 and of an empty rectangle.
    pub fn new(alloc: Global) -> Result<Asking, Memory> {
        Ok(Asking {
            window: first_arguments(alloc, WINDOW, PropKind::Int)?,
            interest: first_arguments(alloc, ASKED_REGION, PropKind::Fix)?,
        })
    }

    /// The clip and the frame that an effect's output over a window is the same as, or none
    /// (kOfxImageEffectActionIsIdentity).
    pub fn identity<E: ImageEffect>(
        &mut self,
        alloc: Global,
        effect: &E,
        values: &Values,
        window: Rect,
    ) -> Result<Identity, Memory>
        requires lawful { IsLawful (E.meaning effect.now).shape values.now }
        requires frame { IsFrame values.now.frame }
        requires window { IsWindow window }
        ensures { IfOk result (λ answer. answer ≡ (E.meaning effect.now).same values.now window) }
    {
        let args = &mut self.window;
        ask(alloc, args, WINDOW, PropKind::Int, values.frame, window)?;
        Ok(identity(effect, values, &args.set))
    }

    /// The region of each input clip, in pixels, that an effect needs for a window. The names are those of the clips
    /// (kOfxImageEffectActionGetRegionsOfInterest).
    pub fn regions_of_interest<E: ImageEffect>(
        &mut self,
        alloc: Global,
        effect: &E,
        names: &Names,
        values: &Values,
        window: Rect,
    ) -> Result<Vec<Rect>, Memory>
        requires names { NamesClips (E.meaning effect.now).shape values.now names.now }
        requires frame { IsFrame values.now.frame }
        requires window { IsWindow window }
        ensures { IfOk result
            (λ regions. regions.items ≡ each_clip names.now ((E.meaning effect.now).roi values.now window)) }
    {
        let args = &mut self.interest;
        ask(
            alloc,
            args,
            ASKED_REGION,
            PropKind::Fix,
            values.frame,
            window,
        )?;
        interest_by(alloc, effect, names, values, window, &args.set)
    }
}

// A set of frame 0 and of an empty rectangle of this name.
fn first_arguments(alloc: Global, name: &str, kind: PropKind) -> Result<Arguments, Memory>
    requires name { name.now ≢ TIME.now }
    requires number { kind ≢ kinds.Text }
    ensures { IfOk result (AreArguments name.now kind) }
{
    let time = definition(alloc, TIME, PropKind::Fix, &[0])?;
    let bounds = definition(alloc, name, kind, &[0, 0, 0, 0])?;
    let set = set_of_two(alloc, time, bounds)?;
    Ok(Arguments {
        set,
        frame: [0],
        bounds: [0, 0, 0, 0],
    })
}

// The set of two properties.
fn set_of_two(alloc: Global, first: PropDef, second: PropDef) -> Result<PropSet, Memory>
    requires names { first.name ≢ second.name }
    requires first { IsLawfulDef first }
    requires second { IsLawfulDef second }
    ensures { IfOk result (λ set. (name : List ℕ) → property set name ≡ made (first ∷ second ∷ []) name) }
{
    let defs = vec![in alloc; first, second]?;
    PropSet::new(alloc, defs)
}

// A property that begins with these numbers, and takes as many.
fn definition(alloc: Global, name: &str, kind: PropKind, start: &[i64]) -> Result<PropDef, Memory>
    requires number { kind ≢ kinds.Text }
    requires frames { All IsFrame start.now }
    requires few { length start.now ≤ 4 }
    ensures lawful { IfOk result (λ def. IsLawfulDef def) }
    ensures name { IfOk result (λ def. def.name ≡ name.now) }
    ensures kind { IfOk result (λ def. def.kind ≡ kind) }
    ensures start { IfOk result (λ def. def.start ≡ numbers kind start.now) }
    ensures any { IfOk result (λ def. def.allowed ≡ []) }
{
    let name = String::from_str(alloc, name)?;
    let values = numbers(alloc, kind, start)?;
    Ok(PropDef {
        name: Name::of(name),
        kind,
        most: values.len() as u32,
        allowed: Names::of(Vec::new(alloc)),
        start: PropList::of(values),
    })
}

// Numbers as values of a property.
fn numbers(alloc: Global, kind: PropKind, list: &[i64]) -> Result<Vec<PropValue>, Memory>
    requires number { kind ≢ kinds.Text }
    requires frames { All IsFrame list.now }
    ensures values { IfOk result (λ values. values.items ≡ numbers kind list.now) }
    ensures kinds { IfOk result (λ values. All (λ v. kind_of v ≡ kind) values.items) }
{
    let mut values = Vec::new(alloc);
    for n in list {
        values.push(number(kind, *n))?;
    }
    Ok(values)
}

// A number as a value of a property.
fn number(kind: PropKind, n: i64) -> PropValue
    requires number { kind ≢ kinds.Text }
    requires frame { IsFrame n }
    ensures value { result ≡ number_value kind n }
    ensures kind { kind_of result ≡ kind }
{
    match kind {
        PropKind::Int => PropValue::Int(n),
        PropKind::Fix => PropValue::Fix(Fix::of_whole(n)),
        PropKind::Text => unreachable!(),
    }
}

// Lets a set have this frame and this rectangle.
fn ask(
    alloc: Global,
    args: &mut Arguments,
    name: &str,
    kind: PropKind,
    frame: i64,
    r: Rect,
) -> Result<(), Memory>
    requires name { name.now ≢ TIME.now }
    requires number { kind ≢ kinds.Text }
    requires frame { IsFrame frame }
    requires window { IsWindow r }
    requires held { AreArguments name.now kind args.old }
    ensures held { AreArguments name.now kind args.new }
    ensures time { OnOk result (HasTime args.new.set frame) }
    ensures rect { OnOk result (HasValues args.new.set (rect_entry name.now kind r)) }
{
    renew(
        alloc,
        &mut args.set,
        TIME,
        PropKind::Fix,
        &mut args.frame,
        &[frame],
    )?;
    let bounds = [r.x1, r.y1, r.x2, r.y2];
    renew(alloc, &mut args.set, name, kind, &mut args.bounds, &bounds)
}

// Lets a property have these numbers in place of those that it has.
fn renew(
    alloc: Global,
    set: &mut PropSet,
    name: &str,
    kind: PropKind,
    held: &mut [i64],
    wanted: &[i64],
) -> Result<(), Memory>
    requires number { kind ≢ kinds.Text }
    requires few { length wanted.now ≤ 4 }
    requires frames { All IsFrame wanted.now }
    requires long { length held.old ≡ length wanted.now }
    requires held { HasNumbers set.old name.now kind held.old }
    ensures held { HasNumbers set.new name.now kind held.new }
    ensures rest { (other : List ℕ) → other ≢ name.now → property set.new other ≡ property set.old other }
    ensures done { OnOk result (held.new ≡ wanted.now) }
{
    for i in 0..wanted.len() {
        renew_one(alloc, set, name, kind, held, i, wanted[i])?;
    }
    Ok(())
}

// Lets a property have this number at a place, where it has another one.
fn renew_one(
    alloc: Global,
    set: &mut PropSet,
    name: &str,
    kind: PropKind,
    held: &mut [i64],
    i: usize,
    n: i64,
) -> Result<(), Memory>
    requires number { kind ≢ kinds.Text }
    requires few { i < 4 }
    requires frame { IsFrame n }
    requires inside { i < length held.old }
    requires held { HasNumbers set.old name.now kind held.old }
    ensures held { HasNumbers set.new name.now kind held.new }
    ensures long { length held.new ≡ length held.old }
    ensures rest { (other : List ℕ) → other ≢ name.now → property set.new other ≡ property set.old other }
    ensures done { OnOk result (held.new ≡ slice_set held.old i n) }
{
    if held[i] == n {
        return Ok(());
    }
    overwrite(alloc, set, name, kind, i as u32, n)?;
    held[i] = n;
    Ok(())
}

// Puts a number at a place that takes it.
fn overwrite(
    alloc: Global,
    set: &mut PropSet,
    name: &str,
    kind: PropKind,
    index: u32,
    n: i64,
) -> Result<(), Memory>
    requires number { kind ≢ kinds.Text }
    requires frame { IsFrame n }
    requires taken { refusal set.old name.now index (number_value kind n) ≡ None }
    ensures put { OnOk result (Puts set.old set.new name.now index (number_value kind n)) }
    ensures left { OnErr result (set.new ≡ set.old) }
{
    match put(alloc, set, name, kind, index, n) {
        Ok(()) => Ok(()),
        Err(PropFault::Memory) => Err(Memory),
        Err(_) => unreachable!(),
    }
}

// Puts a number at a place, or refuses it, as the set does.
fn put(
    alloc: Global,
    set: &mut PropSet,
    name: &str,
    kind: PropKind,
    index: u32,
    n: i64,
) -> Result<(), PropFault>
    requires number { kind ≢ kinds.Text }
    requires frame { IsFrame n }
    ensures answer { IsAnswer (refusal set.old name.now index (number_value kind n)) result }
    ensures ok { OnOk result (Puts set.old set.new name.now index (number_value kind n)) }
    ensures err { OnErr result (set.new ≡ set.old) }
{
    match kind {
        PropKind::Int => set.set_int(alloc, name, index, n),
        PropKind::Fix => set.set_fix(alloc, name, index, Fix::of_whole(n)),
        PropKind::Text => unreachable!(),
    }
}
