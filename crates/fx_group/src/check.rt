//! The faults of groups, in their order. Groups stand latest first here, so that behind a group stand those that it may
//! use.
ghost use Rattle.std.specs.Prelude.{◌≡◌, [], None, OnOk, IfErr, map, not, reverse, is_some, codes, IfOk};
ghost use Rattle.std.specs.Option.{option_copied};
ghost use Rattle.std.specs.BTreeMap.{get_by_text};
ghost use Rattle.std.specs.List.{find, list_any};
ghost use Rattle.std.specs.Str.{bytes_eq};
ghost use Rattle.fx_text.specs.Paths.{inside};
ghost use Rattle.fx_graph.specs.Refusal.{Tells, node_path};
ghost use Rattle.fx_graph.specs.Uses.{is_connected};
ghost use Rattle.fx_group.specs.Names.{has_slash, is_among};
ghost use Rattle.fx_group.specs.Expansion.{group_named};
ghost use Rattle.fx_group.specs.Faults.{name_fault, slashed_clip, other_clip, missing_clip, lost_clip, clips_fault};
ghost use Rattle.fx_group.specs.Faults.{use_fault, work_fault, node_fault, nodes_fault, node_names};
ghost use Rattle.fx_group.specs.Faults.{input_path, inputs_fault, group_fault, is_group, groups_fault};
ghost use Rattle.fx_group.specs.Known.{in_map, IsKnown};

use crate::names::{has_slash, is_among};
use fx_base::{Memory, Name};
use fx_graph::places::add;
use fx_graph::refuse::{refuse, refuse_clip};
use fx_text::{GraphCode, GraphFault, RawClip, RawGroup, RawNode, RawWork};
use std::alloc::Global;
use std::collections::BTreeMap;

// A name that has a slash or is taken.
fn check_name(
    alloc: Global,
    path: &str,
    member: &str,
    taken: bool,
    name: &str,
) -> Result<(), GraphFault>
    ensures ok { OnOk result (name_fault (node_path path.now member.now) taken name.now ≡ None) }
    ensures err { IfErr result (λ e. Tells (name_fault (node_path path.now member.now) taken name.now) e) }
{
    if has_slash(name) {
        Err(refuse(alloc, GraphCode::SlashInName, path, member))
    } else if taken {
        Err(refuse(alloc, GraphCode::NameRepeated, path, member))
    } else {
        Ok(())
    }
}

// ---- clips

fn first_slashed(clips: &[RawClip]) -> Option<&RawClip>
    ensures { option_copied result ≡ find (λ r. has_slash r.node) clips.now }
{
    clips.iter().find(|clip| has_slash(clip.node.text()))
}

fn check_slashes(alloc: Global, path: &str, clips: &[RawClip]) -> Result<(), GraphFault>
    ensures ok { OnOk result (slashed_clip path.now clips.now ≡ None) }
    ensures err { IfErr result (λ e. Tells (slashed_clip path.now clips.now) e) }
{
    match first_slashed(clips) {
        None => Ok(()),
        Some(clip) => Err(refuse_clip(alloc, GraphCode::SlashInName, path, clip.name.text())),
    }
}

fn first_other<'a>(inputs: &[Name], clips: &'a [RawClip]) -> Option<&'a RawClip>
    ensures { option_copied result ≡ find (λ r. not (is_among inputs.now r.name)) clips.now }
{
    clips
        .iter()
        .find(|clip| !is_among(inputs, clip.name.text()))
}

fn check_others(
    alloc: Global,
    path: &str,
    inputs: &[Name],
    clips: &[RawClip],
) -> Result<(), GraphFault>
    ensures ok { OnOk result (other_clip path.now inputs.now clips.now ≡ None) }
    ensures err { IfErr result (λ e. Tells (other_clip path.now inputs.now clips.now) e) }
{
    match first_other(inputs, clips) {
        None => Ok(()),
        Some(clip) => Err(refuse_clip(alloc, GraphCode::UnknownClip, path, clip.name.text())),
    }
}

fn is_connected(clips: &[RawClip], name: &str) -> bool
    ensures { result ≡ is_connected clips.now name.now }
{
    clips.iter().any(|clip| clip.name.text() == name)
}

fn first_missing<'a>(inputs: &'a [Name], clips: &[RawClip]) -> Option<&'a Name>
    ensures { option_copied result ≡ find (λ i. not (is_connected clips.now i)) inputs.now }
{
    inputs
        .iter()
        .find(|input| !is_connected(clips, input.text()))
}

fn check_missing(
    alloc: Global,
    path: &str,
    inputs: &[Name],
    clips: &[RawClip],
) -> Result<(), GraphFault>
    ensures ok { OnOk result (missing_clip path.now inputs.now clips.now ≡ None) }
    ensures err { IfErr result (λ e. Tells (missing_clip path.now inputs.now clips.now) e) }
{
    match first_missing(inputs, clips) {
        None => Ok(()),
        Some(input) => Err(refuse_clip(alloc, GraphCode::ClipMissing, path, input.text())),
    }
}

fn is_known(known: &BTreeMap<String, u32>, name: &str) -> bool
    ensures { result ≡ in_map known.now name.now }
{
    known.get(name).is_some()
}

fn first_lost<'a>(known: &BTreeMap<String, u32>, clips: &'a [RawClip]) -> Option<&'a RawClip>
    ensures { option_copied result ≡ find (λ r. not (in_map known.now r.node)) clips.now }
{
    clips.iter().find(|clip| !is_known(known, clip.node.text()))
}

fn check_lost(
    alloc: Global,
    known: &BTreeMap<String, u32>,
    path: &str,
    clips: &[RawClip],
) -> Result<(), GraphFault>
    ensures ok { OnOk result (lost_clip (in_map known.now) path.now clips.now ≡ None) }
    ensures err { IfErr result (λ e. Tells (lost_clip (in_map known.now) path.now clips.now) e) }
{
    match first_lost(known, clips) {
        None => Ok(()),
        Some(clip) => Err(refuse_clip(alloc, GraphCode::NoEarlierNode, path, clip.name.text())),
    }
}

// The clips of a use of a group that has these inputs.
fn check_clips(
    alloc: Global,
    known: &BTreeMap<String, u32>,
    path: &str,
    inputs: &[Name],
    clips: &[RawClip],
) -> Result<(), GraphFault>
    ensures ok { OnOk result (clips_fault (in_map known.now) path.now inputs.now clips.now ≡ None) }
    ensures err { IfErr result (λ e. Tells (clips_fault (in_map known.now) path.now inputs.now clips.now) e) }
{
    check_others(alloc, path, inputs, clips)?;
    check_missing(alloc, path, inputs, clips)?;
    check_slashes(alloc, path, clips)?;
    check_lost(alloc, known, path, clips)
}

// ---- nodes

fn group_named<'a>(groups: &'a [RawGroup], name: &str) -> Option<&'a RawGroup>
    ensures { option_copied result ≡ group_named groups.now name.now }
{
    groups.iter().find(|group| group.name.text() == name)
}

fn check_use(
    alloc: Global,
    known: &BTreeMap<String, u32>,
    path: &str,
    group: Option<&RawGroup>,
    clips: &[RawClip],
) -> Result<(), GraphFault>
    ensures ok { let row = use_fault (in_map known.now) path.now (option_copied group.entry) clips.now in
        OnOk result (row ≡ None) }
    ensures err { let row = use_fault (in_map known.now) path.now (option_copied group.entry) clips.now in
        IfErr result (λ e. Tells row e) }
{
    match group {
        None => Err(refuse(alloc, GraphCode::UnknownGroup, path, "group")),
        Some(group) => check_clips(alloc, known, path, group.inputs.items(), clips),
    }
}

fn check_work(
    alloc: Global,
    groups: &[RawGroup],
    known: &BTreeMap<String, u32>,
    path: &str,
    work: &RawWork,
) -> Result<(), GraphFault>
    ensures ok { OnOk result (work_fault groups.now (in_map known.now) path.now work.now ≡ None) }
    ensures err { IfErr result (λ e. Tells (work_fault groups.now (in_map known.now) path.now work.now) e) }
{
    match work {
        RawWork::Source { .. } => Ok(()),
        RawWork::Effect { clips, .. } => check_slashes(alloc, path, clips.items()),
        RawWork::GroupUse { group, clips } => {
            let group = group_named(groups, group.text());
            check_use(alloc, known, path, group, clips.items())
        }
    }
}

fn check_node(
    alloc: Global,
    groups: &[RawGroup],
    known: &BTreeMap<String, u32>,
    node: &RawNode,
) -> Result<(), GraphFault>
    ensures ok { OnOk result (node_fault groups.now (in_map known.now) node.now ≡ None) }
    ensures err { IfErr result (λ e. Tells (node_fault groups.now (in_map known.now) node.now) e) }
{
    let name = node.name.text();
    let path = node.path.text();
    check_name(alloc, path, "name", is_known(known, name), name)?;
    check_work(alloc, groups, known, path, &node.work)
}

fn known_inputs(alloc: Global, inputs: &[Name]) -> Result<BTreeMap<String, u32>, Memory>
    ensures { IfOk result (λ known. IsKnown known inputs.now) }
{
    let mut known = BTreeMap::new(alloc);
    for input in inputs {
        add(alloc, &mut known, input.text(), 0)?;
    }
    Ok(known)
}

/// Refuses the first node that is wrong, in a list that has inputs of these names.
pub(crate) fn check_nodes(
    alloc: Global,
    groups: &[RawGroup],
    inputs: &[Name],
    nodes: &[RawNode],
) -> Result<(), GraphFault>
    ensures ok { OnOk result (nodes_fault groups.now inputs.now nodes.now ≡ None) }
    ensures err { IfErr result (λ e. Tells (nodes_fault groups.now inputs.now nodes.now) e) }
{
    let mut known = known_inputs(alloc, inputs)?;
    for node in nodes {
        check_node(alloc, groups, &known, node)?;
        add(alloc, &mut known, node.name.text(), 0)?;
    }
    Ok(())
}

// ---- groups

fn check_input(
    alloc: Global,
    path: &str,
    k: usize,
    before: &[Name],
    name: &str,
) -> Result<(), GraphFault>
    ensures ok { OnOk result (name_fault (input_path path.now k) (is_among before.now name.now) name.now ≡ None) }
    ensures err { let row = name_fault (input_path path.now k) (is_among before.now name.now) name.now in
        IfErr result (λ e. Tells row e) }
{
    let member = format!(in alloc; "inputs[{k}]")?;
    check_name(alloc, path, member.as_str(), is_among(before, name), name)
}

fn check_inputs(alloc: Global, path: &str, inputs: &[Name]) -> Result<(), GraphFault>
    ensures ok { OnOk result (inputs_fault path.now 0 [] inputs.now ≡ None) }
    ensures err { IfErr result (λ e. Tells (inputs_fault path.now 0 [] inputs.now) e) }
{
    for k in 0..inputs.len() {
        check_input(alloc, path, k, &inputs[..k], inputs[k].text())?;
    }
    Ok(())
}

fn is_group(groups: &[RawGroup], name: &str) -> bool
    ensures { result ≡ is_group groups.now name.now }
{
    groups.iter().any(|group| group.name.text() == name)
}

fn any_named(nodes: &[RawNode], name: &str) -> bool
    ensures { result ≡ list_any (λ n. bytes_eq n.name name.now) nodes.now }
{
    nodes.iter().any(|node| node.name.text() == name)
}

fn has_node(nodes: &[RawNode], name: &str) -> bool
    ensures { result ≡ is_among (node_names nodes.now) name.now }
{
    any_named(nodes, name)
}

fn check_group(
    alloc: Global,
    path: &str,
    before: &[RawGroup],
    group: &RawGroup,
) -> Result<(), GraphFault>
    ensures ok { OnOk result (group_fault path.now before.now group.now ≡ None) }
    ensures err { IfErr result (λ e. Tells (group_fault path.now before.now group.now) e) }
{
    let name = group.name.text();
    check_name(alloc, path, "name", is_group(before, name), name)?;
    check_inputs(alloc, path, group.inputs.items())?;
    check_nodes(alloc, before, group.inputs.items(), group.nodes.items())?;
    if has_node(group.nodes.items(), group.output.text()) {
        Ok(())
    } else {
        Err(refuse(alloc, GraphCode::UnknownOutput, path, "output"))
    }
}

fn check_group_at(
    alloc: Global,
    k: usize,
    before: &[RawGroup],
    group: &RawGroup,
) -> Result<(), GraphFault>
    ensures ok { OnOk result (group_fault (inside (codes "groups") k) before.now group.now ≡ None) }
    ensures err { IfErr result (λ e. Tells (group_fault (inside (codes "groups") k) before.now group.now) e) }
{
    let path = format!(in alloc; "groups[{k}]")?;
    check_group(alloc, path.as_str(), before, group)
}

/// Refuses the first group that is wrong, in the order of the file. The latest stands first.
pub(crate) fn check_groups(alloc: Global, groups: &[RawGroup]) -> Result<(), GraphFault>
    ensures ok { OnOk result (groups_fault 0 [] (reverse groups.now) ≡ None) }
    ensures err { IfErr result (λ e. Tells (groups_fault 0 [] (reverse groups.now)) e) }
{
    for k in 0..groups.len() {
        let at = groups.len() - 1 - k;
        check_group_at(alloc, k, &groups[at + 1..], &groups[at])?;
    }
    Ok(())
}
