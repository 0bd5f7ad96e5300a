//! What an effect writes of itself (OpenFX 1.4, "kOfxActionDescribe",
//! "kOfxImageEffectActionDescribeInContext").
ghost use Rattle.std.specs.Prelude.{◌≡◌, ℕ, List, [], All, IfOk, OnErr, OnOk, map};
ghost use Rattle.fx_props.specs.Entries.{AwaitEntries, HasValues, Wrote, WroteFronts, blank_entry, texts_entry};
ghost use Rattle.fx_effect.specs.Shape.{Shape};
ghost use Rattle.fx_effect.specs.Described.{context_text, depth_text, components_text, safety_text};
ghost use Rattle.fx_effect.specs.Described.{description, description_entries, clip_description};

use crate::{Context, Safety};
use fx_base::{Memory, Name};
use fx_pixel::{Components, Depth};
use fx_props::names::{
    COMPONENTS, CONTEXTS, DEPTHS, LABEL, NAME, OPTIONAL, SAFETY, TEMPORAL, TILES,
};
use fx_props::{PropEntry, PropKind, PropSet, PropValue, set_of, write_entries};
use std::alloc::Global;

/// What an effect says of itself, for `describe`: its label, the contexts and depths that it supports,
/// whether it reads frames other than the current one, whether it supports tiles, and its thread safety.
#[derive(Clone, Copy)]
pub struct Description<'a> {
    pub label: &'a str,
    pub contexts: &'a [Context],
    pub depths: &'a [Depth],
    pub temporal: bool,
    pub tiles: bool,
    pub safety: Safety,
}

impl Description<'_> {
    /// Writes it into the set that `describe` was handed. At want of memory each property holds the first few of its
    /// values, or none.
    pub fn write(&self, alloc: Global, descriptor: &mut PropSet) -> Result<(), Memory>
        requires { AwaitEntries descriptor.old (description_entries self.now) }
        ensures written { OnOk result (Wrote (description_entries self.now) descriptor.old descriptor.new) }
        ensures left { OnErr result (WroteFronts (description_entries self.now) descriptor.old descriptor.new) }
    {
        write_entries(alloc, descriptor, &self.entries(alloc)?)
    }

    fn entries(&self, alloc: Global) -> Result<Vec<PropEntry>, Memory>
        ensures { IfOk result (λ entries. entries.items ≡ description_entries self.now) }
    {
        let mut entries = Vec::new(alloc);
        entries.push(PropEntry::text(alloc, LABEL, self.label)?)?;
        entries.push(words(alloc, CONTEXTS, self.contexts)?)?;
        entries.push(words(alloc, DEPTHS, self.depths)?)?;
        entries.push(PropEntry::flag(alloc, TEMPORAL, self.temporal)?)?;
        entries.push(PropEntry::flag(alloc, TILES, self.tiles)?)?;
        entries.push(PropEntry::text(alloc, SAFETY, self.safety.text())?)?;
        Ok(entries)
    }
}

/// The set that `describe` is handed: a property for each that it writes, with no value yet
/// (kOfxActionDescribe).
pub fn descriptor(alloc: Global) -> Result<PropSet, Memory>
    ensures { (s : Shape) → IfOk result (λ set. AwaitEntries set (description s)) }
{
    let kinds = [
        (LABEL, PropKind::Text),
        (CONTEXTS, PropKind::Text),
        (DEPTHS, PropKind::Text),
        (TEMPORAL, PropKind::Int),
        (TILES, PropKind::Int),
        (SAFETY, PropKind::Text),
    ];
    set_of(alloc, blanks(alloc, &kinds)?)
}

// A property with no value yet of each name, with the kind beside it.
fn blanks(alloc: Global, kinds: &[(&str, PropKind)]) -> Result<Vec<PropEntry>, Memory>
    ensures { IfOk result (λ entries. entries.items ≡ map (λ k. blank_entry [] k.1 k.0.now) kinds.now) }
{
    let mut entries = Vec::new(alloc);
    for (name, kind) in kinds {
        entries.push(PropEntry::blank(alloc, name_of(alloc, name)?, *kind))?;
    }
    Ok(entries)
}

/// The set that describes an input clip, for `describe_in_context`: its name, whether it may be left
/// unconnected, and the components that it may have.
pub fn clip_set(
    alloc: Global,
    name: &str,
    optional: bool,
    components: &[Components],
) -> Result<PropSet, Memory>
    ensures { IfOk result (λ set. All (HasValues set)
        (clip_description (record { name = name.now; optional = optional }) components.now)) }
{
    let entries = vec![in alloc;
        PropEntry::text(alloc, NAME, name)?,
        PropEntry::flag(alloc, OPTIONAL, optional)?,
        words(alloc, COMPONENTS, components)?,
    ]?;
    set_of(alloc, entries)
}

/// A word of the standard that a property has as its text.
trait Word: Copy {
    ghost spelling: { Self → List ℕ };

    fn text(self) -> &'static str
        ensures { result.now ≡ spelling self };
}

impl Word for Context {
    ghost spelling = { context_text };

    fn text(self) -> &'static str {
        match self {
            Context::Generator => "OfxImageEffectContextGenerator",
            Context::Filter => "OfxImageEffectContextFilter",
            Context::Transition => "OfxImageEffectContextTransition",
            Context::General => "OfxImageEffectContextGeneral",
        }
    }
}

impl Word for Depth {
    ghost spelling = { depth_text };

    fn text(self) -> &'static str {
        match self {
            Depth::Byte => "OfxBitDepthByte",
            Depth::Short => "OfxBitDepthShort",
        }
    }
}

impl Word for Components {
    ghost spelling = { components_text };

    fn text(self) -> &'static str {
        match self {
            Components::Rgba => "OfxImageComponentRGBA",
            Components::Alpha => "OfxImageComponentAlpha",
        }
    }
}

impl Word for Safety {
    ghost spelling = { safety_text };

    fn text(self) -> &'static str {
        match self {
            Safety::Unsafe => "OfxImageEffectRenderUnsafe",
            Safety::InstanceSafe => "OfxImageEffectRenderInstanceSafe",
            Safety::FullySafe => "OfxImageEffectRenderFullySafe",
        }
    }
}

// These words under a name.
fn words<W: Word>(alloc: Global, name: &str, words: &[W]) -> Result<PropEntry, Memory>
    ensures { IfOk result (λ e. e ≡ texts_entry name.now (map W.spelling words.now)) }
{
    let mut values = Vec::new(alloc);
    for word in words {
        values.push(PropValue::Text(name_of(alloc, word.text())?))?;
    }
    PropEntry::new(name_of(alloc, name)?, PropKind::Text, values)
}

fn name_of(alloc: Global, text: &str) -> Result<Name, Memory>
    ensures { IfOk result (λ name. name ≡ text.now) }
{
    Ok(Name::of(String::from_str(alloc, text)?))
}
