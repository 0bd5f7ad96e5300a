//! The use of an effect by a node.
ghost use Rattle.std.specs.Prelude.{◌≡◌, ◌++◌, map, length, None, Some, Ok, IfOk, IfErr, OnOk, All};
ghost use Rattle.std.specs.Option.{option_map, option_copied};
ghost use Rattle.std.specs.List.{list_any, Contains};
ghost use Rattle.std.specs.BTreeMap.{get_by_text};
ghost use Rattle.fx_pixel.specs.declared.Depth.TheVariants as depths;
ghost use Rattle.fx_effect.specs.Shape.{is_mask, IsParam};
ghost use Rattle.fx_effect.specs.ShapeTests.{is_context};
ghost use Rattle.fx_prefs.specs.Prefs.{negotiated};
ghost use Rattle.fx_graph.specs.Refusal.{Tells, TellsErr};
ghost use Rattle.fx_graph.specs.Shown.{shown, names_of};
ghost use Rattle.fx_params.specs.Parameter.{IsSound};
ghost use Rattle.fx_graph.specs.Kept.{IsNode};
ghost use Rattle.fx_graph.specs.Params.{param_of};
ghost use Rattle.fx_graph.specs.Uses.{chosen, context_of, connection, unsupported};
ghost use Rattle.fx_graph.specs.Nodes.{place_of, effect_of, use_in, use_of, told_fault, inputs_of, form_at, node_at};
ghost use Rattle.fx_graph.specs.Nodes.{has_depth, has_alpha, IsIndex};

use crate::clips::{Input, check_clips, connections};
use crate::described::{About, InContext, description_in, description_of};
use crate::node::{Node, Work};
use crate::params::{check_params, make_params};
use crate::refuse::refuse;
use fx_base::{Memory, Name, Names};
use fx_effect::{Catalogue, Context, Flags};
use fx_pixel::{Components, Depth};
use fx_prefs::negotiate;
use fx_text::{GraphCode, GraphFault, RawClip, RawContext, RawParam};
use std::alloc::Global;
use std::collections::BTreeMap;

/// The node of the effect of a name, behind these nodes.
pub(crate) fn accept_effect<E: Catalogue + Drop>(
    alloc: Global,
    project: (Depth, Components),
    places: &BTreeMap<String, u32>,
    before: &[Node<E>],
    path: &str,
    name: &str,
    effect: &Name,
    context: Option<RawContext>,
    clips: &[RawClip],
    params: &[RawParam],
) -> Result<Node<E>, GraphFault>
    requires index { IsIndex places.now (names_of (map shown before.now)) }
    ensures ok { let nodes = map shown before.now in
        IfOk result (λ node. effect_of E.meaning project nodes path.now name.now (E.find effect.now) context clips.now params.now
        ≡ Ok (shown node)) }
    ensures err { let nodes = map shown before.now in
        let wanted = effect_of E.meaning project nodes path.now name.now (E.find effect.now) context clips.now params.now in
        IfErr result (λ e. TellsErr wanted e) }
    ensures name { IfOk result (λ node. node.name ≡ name.now) }
    ensures kept { IfOk result (λ node. IsNode E.meaning project (map shown before.now) (shown node)) }
{
    match E::named(effect.text()) {
        Some(found) => accept_found(
            alloc, project, places, before, path, name, found, context, clips, params,
        ),
        None => Err(refuse(alloc, GraphCode::UnknownEffect, path, "effect")),
    }
}

fn accept_found<E: Catalogue + Drop>(
    alloc: Global,
    project: (Depth, Components),
    places: &BTreeMap<String, u32>,
    before: &[Node<E>],
    path: &str,
    name: &str,
    effect: E,
    context: Option<RawContext>,
    clips: &[RawClip],
    params: &[RawParam],
) -> Result<Node<E>, GraphFault>
    requires index { IsIndex places.now (names_of (map shown before.now)) }
    ensures ok { let nodes = map shown before.now in
        IfOk result (λ node. effect_of E.meaning project nodes path.now name.now (Some effect) context clips.now params.now
        ≡ Ok (shown node)) }
    ensures err { let nodes = map shown before.now in
        let wanted = effect_of E.meaning project nodes path.now name.now (Some effect) context clips.now params.now in
        IfErr result (λ e. TellsErr wanted e) }
    ensures name { IfOk result (λ node. node.name ≡ name.now) }
    ensures kept { IfOk result (λ node. IsNode E.meaning project (map shown before.now) (shown node)) }
{
    let about = description_of(alloc, &effect)?;
    let context = chosen(&about.contexts, context);
    check_context(alloc, path, &about.contexts, context)?;
    accept_in(
        alloc, project, places, before, path, name, effect, &about, context, clips, params,
    )
}

// The use of an effect in a context that it supports.
fn accept_in<E: Catalogue + Drop>(
    alloc: Global,
    project: (Depth, Components),
    places: &BTreeMap<String, u32>,
    before: &[Node<E>],
    path: &str,
    name: &str,
    effect: E,
    about: &About,
    context: Context,
    clips: &[RawClip],
    params: &[RawParam],
) -> Result<Node<E>, GraphFault>
    requires index { IsIndex places.now (names_of (map shown before.now)) }
    requires supported { Contains (E.meaning effect).shape.contexts context }
    requires found { unsupported path.now (E.meaning effect).shape.contexts context ≡ None }
    requires byte { about.now.byte ≡ has_depth (E.meaning effect).shape depths.Byte }
    requires short { about.now.short ≡ has_depth (E.meaning effect).shape depths.Short }
    ensures ok { let s = (E.meaning effect).shape in
        let wanted = use_in effect s project (map shown before.now) path.now name.now context clips.now params.now in
        IfOk result (λ node. wanted ≡ Ok (shown node)) }
    ensures err { let s = (E.meaning effect).shape in
        let wanted = use_in effect s project (map shown before.now) path.now name.now context clips.now params.now in
        IfErr result (λ e. TellsErr wanted e) }
    ensures name { IfOk result (λ node. node.name ≡ name.now) }
    ensures kept { IfOk result (λ node. IsNode E.meaning project (map shown before.now) (shown node)) }
{
    let told = description_in(alloc, &effect, context)?;
    check_use(alloc, path, places, &told, clips, params)?;
    Ok(make_use(
        alloc, project, places, before, name, effect, about, context, told, clips, params,
    )?)
}

fn check_use(
    alloc: Global,
    path: &str,
    places: &BTreeMap<String, u32>,
    told: &InContext,
    clips: &[RawClip],
    params: &[RawParam],
) -> Result<(), GraphFault>
    ensures ok { let place = get_by_text places.now in
        let row = told_fault path.now place told.now.inputs.items told.now.params.items clips.now params.now in
        OnOk result (row ≡ None) }
    ensures err { let place = get_by_text places.now in
        let row = told_fault path.now place told.now.inputs.items told.now.params.items clips.now params.now in
        IfErr result (λ e. Tells row e) }
{
    check_clips(alloc, path, places, &told.inputs, clips)?;
    check_params(alloc, path, &told.params, params)
}

fn chosen(contexts: &[Context], context: Option<RawContext>) -> Context
    ensures { result ≡ chosen contexts.now context }
{
    match context {
        Some(context) => context_of(context),
        None => first_context(contexts),
    }
}

fn first_context(contexts: &[Context]) -> Context
    ensures { result ≡ chosen contexts.now None }
{
    match contexts.first() {
        Some(context) => *context,
        None => Context::General,
    }
}

fn context_of(context: RawContext) -> Context
    ensures { result ≡ context_of context }
{
    match context {
        RawContext::Generator => Context::Generator,
        RawContext::Filter => Context::Filter,
        RawContext::Transition => Context::Transition,
        RawContext::General => Context::General,
    }
}

fn check_context(
    alloc: Global,
    path: &str,
    contexts: &[Context],
    context: Context,
) -> Result<(), GraphFault>
    ensures ok { OnOk result (unsupported path.now contexts.now context ≡ None) }
    ensures there { OnOk result (Contains contexts.now context) }
    ensures err { IfErr result (λ e. Tells (unsupported path.now contexts.now context) e) }
{
    if has_context(contexts, context) {
        Ok(())
    } else {
        Err(refuse(alloc, GraphCode::ContextNotSupported, path, "context"))
    }
}

fn has_context(contexts: &[Context], context: Context) -> bool
    ensures { result ≡ list_any (is_context context) contexts.now }
{
    contexts.iter().any(|c| is_context(context, *c))
}

fn is_context(a: Context, b: Context) -> bool
    ensures { result ≡ is_context a b }
{
    matches!(
        (a, b),
        (Context::Generator, Context::Generator)
            | (Context::Filter, Context::Filter)
            | (Context::Transition, Context::Transition)
            | (Context::General, Context::General)
    )
}

fn make_use<E: Catalogue + Drop>(
    alloc: Global,
    project: (Depth, Components),
    places: &BTreeMap<String, u32>,
    before: &[Node<E>],
    name: &str,
    effect: E,
    about: &About,
    context: Context,
    told: InContext,
    clips: &[RawClip],
    params: &[RawParam],
) -> Result<Node<E>, Memory>
    requires byte { about.now.byte ≡ has_depth (E.meaning effect).shape depths.Byte }
    requires short { about.now.short ≡ has_depth (E.meaning effect).shape depths.Short }
    requires inputs { told.inputs.items ≡ (E.meaning effect).shape.clips context }
    requires alpha { told.alpha ≡ has_alpha (E.meaning effect).shape }
    requires params { told.params.items ≡ (E.meaning effect).shape.params context }
    requires lawful { All IsParam ((E.meaning effect).shape.params context) }
    ensures made { let s = (E.meaning effect).shape in
        let nodes = map (connection (get_by_text places.now) clips.now) (s.clips context) in
        let made = use_of effect s project (map shown before.now) name.now context nodes params.now in
        IfOk result (λ node. shown node ≡ made) }
    ensures name { IfOk result (λ node. node.name ≡ name.now) }
    ensures sound { let defs = (E.meaning effect).shape.params context in
        OnOk result (All IsSound (map (param_of params.now) defs)) }
{
    let used = use_clips(alloc, places, &told.inputs, clips)?;
    let form = form_of(alloc, before, &used, about, told.alpha, project)?;
    let params = make_params(alloc, told.params, params)?;
    Ok(Node {
        name: copied(alloc, name)?,
        depth: form.0,
        components: form.1,
        work: Work::Effect {
            effect,
            context,
            clips: used.nodes,
            names: used.names,
            optional: used.optional,
            masks: used.masks,
            params,
        },
    })
}

// The input clips of a use: the node of each, its name, whether it is optional, and whether it is a mask.
#[derive(Drop)]
struct UseClips {
    nodes: Vec<Option<u32>>,
    names: Names,
    optional: Flags,
    masks: Flags,
}

fn use_clips(
    alloc: Global,
    places: &BTreeMap<String, u32>,
    inputs: &[Input],
    clips: &[RawClip],
) -> Result<UseClips, Memory>
    ensures nodes { let nodes = map (connection (get_by_text places.now) clips.now) inputs.now in
        IfOk result (λ used. used.nodes.items ≡ nodes) }
    ensures names { IfOk result (λ used. used.names ≡ map (λ i. i.name) inputs.now) }
    ensures optional { IfOk result (λ used. used.optional ≡ map (λ i. i.optional) inputs.now) }
    ensures masks { IfOk result (λ used. used.masks ≡ map (λ i. is_mask i.name) inputs.now) }
{
    let nodes = connections(alloc, places, inputs, clips)?;
    let names = names_of(alloc, inputs)?;
    let optional = flags_of(alloc, inputs)?;
    let masks = masks_of(alloc, inputs)?;
    Ok(UseClips {
        nodes,
        names,
        optional,
        masks,
    })
}

// The form of a use, by those of its connected inputs.
fn form_of<E>(
    alloc: Global,
    before: &[Node<E>],
    used: &UseClips,
    about: &About,
    alpha: bool,
    project: (Depth, Components),
) -> Result<(Depth, Components), Memory>
    requires { length used.now.nodes.items ≡ length used.now.masks }
    ensures { let inputs = inputs_of (map shown before.now) used.now.nodes.items used.now.masks in
        IfOk result (λ form. form ≡ negotiated inputs about.now.byte about.now.short alpha project) }
{
    let forms = forms_of(alloc, before, &used.nodes, used.masks.items())?;
    Ok(negotiate(&forms, about.byte, about.short, alpha, project))
}

fn copied(alloc: Global, text: &str) -> Result<Name, Memory>
    ensures { IfOk result (λ name. name ≡ text.now) }
{
    Ok(Name::of(String::from_str(alloc, text)?))
}

fn is_mask(name: &str) -> bool
    ensures { result ≡ is_mask name.now }
{
    name == "Mask"
}

fn masks_of(alloc: Global, inputs: &[Input]) -> Result<Flags, Memory>
    ensures { IfOk result (λ masks. masks ≡ map (λ i. is_mask i.name) inputs.now) }
{
    let mut masks = Vec::new(alloc);
    for input in inputs {
        masks.push(is_mask(input.name.text()))?;
    }
    Ok(Flags::of(masks))
}

fn flags_of(alloc: Global, inputs: &[Input]) -> Result<Flags, Memory>
    ensures { IfOk result (λ flags. flags ≡ map (λ i. i.optional) inputs.now) }
{
    let mut flags = Vec::new(alloc);
    for input in inputs {
        flags.push(input.optional)?;
    }
    Ok(Flags::of(flags))
}

fn names_of(alloc: Global, inputs: &[Input]) -> Result<Names, Memory>
    ensures { IfOk result (λ names. names ≡ map (λ i. i.name) inputs.now) }
{
    let mut names = Vec::new(alloc);
    for input in inputs {
        names.push(copied(alloc, input.name.text())?)?;
    }
    Ok(Names::of(names))
}

fn forms_of<E>(
    alloc: Global,
    before: &[Node<E>],
    clips: &[Option<u32>],
    masks: &[bool],
) -> Result<Vec<(Depth, Components, bool)>, Memory>
    requires { length clips.now ≡ length masks.now }
    ensures { IfOk result (λ forms. forms.items ≡ inputs_of (map shown before.now) clips.now masks.now) }
{
    let mut forms = Vec::new(alloc);
    for k in 0..clips.len() {
        push_form(&mut forms, node_at(before, clips[k]), masks[k])?;
    }
    Ok(forms)
}

fn push_form<E>(
    forms: &mut Vec<(Depth, Components, bool)>,
    node: Option<&Node<E>>,
    mask: bool,
) -> Result<(), Memory>
    ensures { OnOk result
        (forms.new.items ≡ forms.old.items ++ form_at (option_map shown (option_copied node.entry)) mask) }
{
    if let Some(node) = node {
        forms.push((node.depth, node.components, mask))?;
    }
    Ok(())
}

fn node_at<E>(before: &[Node<E>], clip: Option<u32>) -> Option<&Node<E>>
    ensures { option_map shown (option_copied result) ≡ node_at (map shown before.now) clip }
{
    match clip {
        Some(place) => before.get(place as usize),
        None => None,
    }
}
