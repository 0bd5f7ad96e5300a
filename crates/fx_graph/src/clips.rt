//! The clips of a node: which of them is refused, and which node each is connected to.
ghost use Rattle.std.specs.Prelude.{◌≡◌, not, ◌&&◌, map, None, IfOk, IfErr, OnOk, is_none};
ghost use Rattle.std.specs.List.{list_any, find};
ghost use Rattle.std.specs.Option.{option_copied};
ghost use Rattle.std.specs.Str.{bytes_eq};
ghost use Rattle.std.specs.BTreeMap.{get_by_text};
ghost use Rattle.fx_graph.specs.Refusal.{Tells};
ghost use Rattle.fx_graph.specs.Uses.{is_input, is_connected, connection, unknown_clip, missing_clip, lost_clip, clip_fault};

use crate::places::place;
use crate::refuse::refuse_clip;
use fx_base::{Memory, Name};
use fx_text::{GraphCode, GraphFault, RawClip};
use std::alloc::Global;
use std::collections::BTreeMap;
use std::marker::Model;

/// An input clip as the effect describes it.
#[derive(Drop)]
pub(crate) struct Input {
    pub(crate) name: Name,
    pub(crate) optional: bool,
}

impl Model for Input {
    ghost use Rattle.fx_effect.specs.Shape.{Clip};

    ghost Value = { Clip };

    ghost view = { λ i. record { name = i.name; optional = i.optional } };
}

/// Refuses the first clip that isn't an input clip of the effect, then the first one in the effect's order
/// that is missing, then the first one that names no earlier node.
pub(crate) fn check_clips(
    alloc: Global,
    path: &str,
    places: &BTreeMap<String, u32>,
    inputs: &[Input],
    clips: &[RawClip],
) -> Result<(), GraphFault>
    ensures ok { OnOk result (clip_fault path.now (get_by_text places.now) inputs.now clips.now ≡ None) }
    ensures err { IfErr result (λ e. Tells (clip_fault path.now (get_by_text places.now) inputs.now clips.now) e) }
{
    check_known(alloc, path, inputs, clips)?;
    check_required(alloc, path, inputs, clips)?;
    check_earlier(alloc, path, places, clips)
}

fn check_known(
    alloc: Global,
    path: &str,
    inputs: &[Input],
    clips: &[RawClip],
) -> Result<(), GraphFault>
    ensures ok { OnOk result (unknown_clip path.now inputs.now clips.now ≡ None) }
    ensures err { IfErr result (λ e. Tells (unknown_clip path.now inputs.now clips.now) e) }
{
    match first_unknown(inputs, clips) {
        None => Ok(()),
        Some(clip) => Err(refuse_clip(alloc, GraphCode::UnknownClip, path, clip.name.text())),
    }
}

fn check_required(
    alloc: Global,
    path: &str,
    inputs: &[Input],
    clips: &[RawClip],
) -> Result<(), GraphFault>
    ensures ok { OnOk result (missing_clip path.now inputs.now clips.now ≡ None) }
    ensures err { IfErr result (λ e. Tells (missing_clip path.now inputs.now clips.now) e) }
{
    match first_missing(inputs, clips) {
        None => Ok(()),
        Some(input) => Err(refuse_clip(alloc, GraphCode::ClipMissing, path, input.name.text())),
    }
}

fn check_earlier(
    alloc: Global,
    path: &str,
    places: &BTreeMap<String, u32>,
    clips: &[RawClip],
) -> Result<(), GraphFault>
    ensures ok { OnOk result (lost_clip path.now (get_by_text places.now) clips.now ≡ None) }
    ensures err { IfErr result (λ e. Tells (lost_clip path.now (get_by_text places.now) clips.now) e) }
{
    match first_lost(places, clips) {
        None => Ok(()),
        Some(clip) => Err(refuse_clip(alloc, GraphCode::NoEarlierNode, path, clip.name.text())),
    }
}

fn first_unknown<'a>(inputs: &[Input], clips: &'a [RawClip]) -> Option<&'a RawClip>
    ensures { option_copied result ≡ find (λ r. not (is_input inputs.now r.name)) clips.now }
{
    clips
        .iter()
        .find(|clip| !is_input(inputs, clip.name.text()))
}

fn first_missing<'a>(inputs: &'a [Input], clips: &[RawClip]) -> Option<&'a Input>
    ensures { option_copied result ≡ find (λ i. not i.optional && not (is_connected clips.now i.name)) inputs.now }
{
    inputs.iter().find(|input| !input.optional && !is_connected(clips, input.name.text()))
}

fn first_lost<'a>(places: &BTreeMap<String, u32>, clips: &'a [RawClip]) -> Option<&'a RawClip>
    ensures { option_copied result ≡ find (λ r. is_none (get_by_text places.now r.node)) clips.now }
{
    clips
        .iter()
        .find(|clip| place(places, clip.node.text()).is_none())
}

fn is_input(inputs: &[Input], name: &str) -> bool
    ensures { result ≡ is_input inputs.now name.now }
{
    inputs.iter().any(|input| input.name.text() == name)
}

fn is_connected(clips: &[RawClip], name: &str) -> bool
    ensures { result ≡ is_connected clips.now name.now }
{
    clips.iter().any(|clip| clip.name.text() == name)
}

/// The node of each input clip.
pub(crate) fn connections(
    alloc: Global,
    places: &BTreeMap<String, u32>,
    inputs: &[Input],
    clips: &[RawClip],
) -> Result<Vec<Option<u32>>, Memory>
    ensures { IfOk result (λ found. found.items ≡ map (connection (get_by_text places.now) clips.now) inputs.now) }
{
    let mut found = Vec::new(alloc);
    for input in inputs {
        found.push(connection(places, clips, input))?;
    }
    Ok(found)
}

fn connection(places: &BTreeMap<String, u32>, clips: &[RawClip], input: &Input) -> Option<u32>
    ensures { result ≡ connection (get_by_text places.now) clips.now input.now }
{
    match clip_of(clips, input.name.text()) {
        Some(clip) => place(places, clip.node.text()),
        None => None,
    }
}

fn clip_of<'a>(clips: &'a [RawClip], name: &str) -> Option<&'a RawClip>
    ensures { option_copied result ≡ find (λ r. bytes_eq r.name name.now) clips.now }
{
    clips.iter().find(|clip| clip.name.text() == name)
}
