//! Expands the uses of groups. Groups stand latest first, so that behind a group stand those that it may use.
ghost use Rattle.std.specs.Prelude.{◌≡◌, ◌++◌, [], IfOk, OnOk};
ghost use Rattle.std.specs.Option.{option_copied};
ghost use Rattle.fx_text.specs.Nodes.{IsInRange};
ghost use Rattle.fx_text.specs.declared.raw.RawWork.TheVariants as kinds;
ghost use Rattle.fx_group.specs.Expansion.{meant, prefixed, connected, with_clips, kept, replaced, input_target, inputs_meant};
ghost use Rattle.fx_group.specs.Expansion.{work_expanded, nodes_expanded, group_expanded, expander};
ghost use Rattle.fx_group.specs.Flattened.{flat_of, made_of};

use crate::names::{joined, look, meant, prefixed};
use fx_base::{Memory, Name};
use fx_text::{RawClip, RawClips, RawContext, RawGroup, RawNode, RawParams, RawWork};
use std::alloc::Global;

/// A list that is expanded: its nodes so far, and the names that stand for another.
#[derive(Drop)]
pub(crate) struct Flattened {
    pub(crate) nodes: Vec<RawNode>,
    pub(crate) others: Vec<(Name, Name)>,
}

/// What a use is expanded to: its nodes, and the name of the one that has its value.
#[derive(Drop)]
pub(crate) struct Expanded {
    nodes: Vec<RawNode>,
    output: Name,
}

/// Adds the nodes of a list under a prefix, and the names that stand for another.
#[cycle(expanding)]
pub(crate) fn expand_nodes(
    alloc: Global,
    groups: &[RawGroup],
    prefix: &str,
    flat: &mut Flattened,
    list: &[RawNode],
) -> Result<(), Memory>
    ensures { OnOk result
        (flat_of flat.new ≡ nodes_expanded (expander groups.now) prefix.now (flat_of flat.old) list.now) }
{
    for node in list {
        let name = node.name.text();
        expand_work(
            alloc,
            groups,
            prefix,
            flat,
            name,
            node.path.text(),
            &node.work,
        )?;
    }
    Ok(())
}

#[cycle(expanding)]
fn expand_work(
    alloc: Global,
    groups: &[RawGroup],
    prefix: &str,
    flat: &mut Flattened,
    name: &str,
    path: &str,
    work: &RawWork,
) -> Result<(), Memory>
    requires { IsInRange work.now }
    ensures { let expand = expander groups.now in
        let wanted = work_expanded expand prefix.now (flat_of flat.old) name.now path.now work.now in
        OnOk result (flat_of flat.new ≡ wanted) }
{
    match work {
        RawWork::Source {
            pattern,
            first,
            last,
            hold,
            depth,
            components,
        } => {
            let pattern = pattern.copied(alloc)?;
            let work = RawWork::Source {
                pattern,
                first: *first,
                last: *last,
                hold: *hold,
                depth: *depth,
                components: *components,
            };
            keep(alloc, prefix, flat, name, path, work)
        }
        RawWork::Effect {
            effect,
            context,
            clips,
            params,
        } => {
            let work = effect_meant(alloc, &flat.others, prefix, effect, *context, clips, params)?;
            keep(alloc, prefix, flat, name, path, work)
        }
        RawWork::GroupUse { group, clips } => {
            let made = expand_at(
                alloc,
                groups,
                prefix,
                &flat.others,
                name,
                group.text(),
                clips.items(),
            )?;
            replace(alloc, flat, name, made)
        }
    }
}

// A use of a group by its name, which stands under a prefix.
#[cycle(expanding)]
fn expand_at(
    alloc: Global,
    groups: &[RawGroup],
    prefix: &str,
    others: &[(Name, Name)],
    name: &str,
    group: &str,
    clips: &[RawClip],
) -> Result<Expanded, Memory>
    ensures { let clips = connected clips.now (meant others.now prefix.now) in
        IfOk result (λ made. made_of made ≡ expander groups.now group.now (prefixed prefix.now name.now) clips) }
{
    let clips = connected(alloc, others, prefix, clips)?;
    let within = prefixed(alloc, prefix, name)?;
    expand_use(alloc, groups, group, within.as_str(), &clips)
}

#[cycle(expanding)]
fn expand_use(
    alloc: Global,
    groups: &[RawGroup],
    group: &str,
    prefix: &str,
    clips: &[(Name, Name)],
) -> Result<Expanded, Memory>
    ensures { IfOk result (λ made. made_of made ≡ expander groups.now group.now prefix.now clips.now) }
{
    match groups {
        [] => Ok(Expanded {
            nodes: Vec::new(alloc),
            output: Name::of(String::new(alloc)),
        }),
        [latest, earlier @ ..] => {
            if latest.name.text() == group {
                expand_group(alloc, earlier, latest, prefix, clips)
            } else {
                expand_use(alloc, earlier, group, prefix, clips)
            }
        }
    }
}

#[cycle(expanding)]
fn expand_group(
    alloc: Global,
    earlier: &[RawGroup],
    group: &RawGroup,
    prefix: &str,
    clips: &[(Name, Name)],
) -> Result<Expanded, Memory>
    ensures { let expand = expander earlier.now in
        IfOk result (λ made. made_of made ≡ group_expanded expand group.now prefix.now clips.now) }
{
    let mut flat = Flattened {
        nodes: Vec::new(alloc),
        others: inputs_meant(alloc, group.inputs.items(), clips)?,
    };
    expand_nodes(alloc, earlier, prefix, &mut flat, group.nodes.items())?;
    let output = meant(alloc, &flat.others, prefix, group.output.text())?;
    Ok(Expanded {
        nodes: flat.nodes,
        output,
    })
}

// ---- one node

fn keep(
    alloc: Global,
    prefix: &str,
    flat: &mut Flattened,
    name: &str,
    path: &str,
    work: RawWork,
) -> Result<(), Memory>
    requires { IsInRange work }
    ensures { OnOk result (flat_of flat.new ≡ kept (flat_of flat.old) prefix.now name.now path.now work) }
{
    let name = joined(alloc, prefix, name)?;
    let path = Name::of(String::from_str(alloc, path)?);
    flat.nodes.push(RawNode { name, path, work })?;
    Ok(())
}

fn replace(alloc: Global, flat: &mut Flattened, name: &str, made: Expanded) -> Result<(), Memory>
    ensures { OnOk result (flat_of flat.new ≡ replaced (flat_of flat.old) name.now (made_of made)) }
{
    let name = Name::of(String::from_str(alloc, name)?);
    let Expanded { mut nodes, output } = made;
    flat.nodes.append(&mut nodes)?;
    flat.others.push((name, output))?;
    Ok(())
}

// ---- clips

fn effect_meant(
    alloc: Global,
    others: &[(Name, Name)],
    prefix: &str,
    effect: &Name,
    context: Option<RawContext>,
    clips: &RawClips,
    params: &RawParams,
) -> Result<RawWork, Memory>
    ensures { let clips = with_clips clips.now (meant others.now prefix.now) in
        IfOk result (λ work. work ≡ kinds.Effect effect.now context clips params.now) }
{
    let effect = effect.copied(alloc)?;
    let clips = clips_meant(alloc, others, prefix, clips)?;
    let params = params.copied(alloc)?;
    Ok(RawWork::Effect {
        effect,
        context,
        clips,
        params,
    })
}

fn clips_meant(
    alloc: Global,
    others: &[(Name, Name)],
    prefix: &str,
    clips: &RawClips,
) -> Result<RawClips, Memory>
    ensures { IfOk result (λ made. made ≡ with_clips clips.now (meant others.now prefix.now)) }
{
    let items = each_meant(alloc, others, prefix, clips.items())?;
    Ok(RawClips::of(items))
}

fn each_meant(
    alloc: Global,
    others: &[(Name, Name)],
    prefix: &str,
    clips: &[RawClip],
) -> Result<Vec<RawClip>, Memory>
    ensures { IfOk result (λ made. made.items ≡ with_clips clips.now (meant others.now prefix.now)) }
{
    let mut made = Vec::new(alloc);
    for clip in clips {
        made.push(clip_meant(alloc, others, prefix, clip)?)?;
    }
    Ok(made)
}

fn clip_meant(
    alloc: Global,
    others: &[(Name, Name)],
    prefix: &str,
    clip: &RawClip,
) -> Result<RawClip, Memory>
    ensures name { IfOk result (λ made. made.name ≡ clip.now.name) }
    ensures node { IfOk result (λ made. made.node ≡ meant others.now prefix.now clip.now.node) }
{
    let name = clip.name.copied(alloc)?;
    let node = meant(alloc, others, prefix, clip.node.text())?;
    Ok(RawClip { name, node })
}

fn connected(
    alloc: Global,
    others: &[(Name, Name)],
    prefix: &str,
    clips: &[RawClip],
) -> Result<Vec<(Name, Name)>, Memory>
    ensures { IfOk result (λ targets. targets.items ≡ connected clips.now (meant others.now prefix.now)) }
{
    let mut targets = Vec::new(alloc);
    for clip in clips {
        let made = clip_meant(alloc, others, prefix, clip)?;
        targets.push((made.name, made.node))?;
    }
    Ok(targets)
}

// ---- inputs

// What each input stands for, by the clip that connects it.
fn inputs_meant(
    alloc: Global,
    inputs: &[Name],
    clips: &[(Name, Name)],
) -> Result<Vec<(Name, Name)>, Memory>
    ensures { IfOk result (λ others. others.items ≡ inputs_meant inputs.now clips.now) }
{
    let mut others = Vec::new(alloc);
    for input in inputs {
        push_target(alloc, &mut others, input, look(clips, input.text()))?;
    }
    Ok(others)
}

fn push_target(
    alloc: Global,
    others: &mut Vec<(Name, Name)>,
    input: &Name,
    target: Option<&Name>,
) -> Result<(), Memory>
    ensures { OnOk result
        (others.new.items ≡ others.old.items ++ input_target input.now (option_copied target.entry) []) }
{
    match target {
        None => Ok(()),
        Some(target) => {
            let input = input.copied(alloc)?;
            others.push((input, target.copied(alloc)?))?;
            Ok(())
        }
    }
}
