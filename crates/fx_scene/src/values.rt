//! What an effect is asked with at a frame.
ghost use Rattle.std.specs.Prelude.{◌≡◌, map, is_some, IfOk};
ghost use Rattle.fx_params.specs.Parameter.{value_at};
ghost use Rattle.fx_graph.specs.Shown.{does_of};
ghost use Rattle.fx_graph.specs.Kept.{use_values};
ghost use Rattle.fx_scene.specs.Rows.{row_in};
ghost use Rattle.fx_scene.specs.Scenes.{values_at};

use fx_base::{Memory, Rect};
use fx_effect::{Flags, Numbers, Values};
use fx_graph::Work;
use fx_params::Param;
use std::alloc::Global;

/// The values of what a node does at a frame, in a project of this extent.
pub(crate) fn values_of<E>(
    alloc: Global,
    project: Rect,
    work: &Work<E>,
    frame: i64,
) -> Result<Values, Memory>
    ensures { IfOk result (λ v. v ≡ values_at project frame (does_of work.now)) }
{
    match work {
        Work::Source { .. } => use_values(alloc, project, &[], &[], frame),
        Work::Effect { clips, params, .. } => {
            use_values(alloc, project, clips.as_slice(), params.as_slice(), frame)
        }
    }
}

/// The values of these clips and parameters at a frame.
pub fn use_values(
    alloc: Global,
    project: Rect,
    clips: &[Option<u32>],
    params: &[Param],
    frame: i64,
) -> Result<Values, Memory>
    ensures { IfOk result (λ v. v ≡ use_values project frame clips.now params.now) }
{
    Ok(Values {
        frame,
        numbers: numbers_of(alloc, params, frame)?,
        connected: connected_of(alloc, clips)?,
        project,
    })
}

/// The values of these clips and of parameters that are lent, at a frame.
pub(crate) fn values_with(
    alloc: Global,
    project: Rect,
    clips: &[Option<u32>],
    row: &[&Param],
    frame: i64,
) -> Result<Values, Memory>
    ensures { IfOk result (λ v. v ≡ use_values project frame clips.now (row_in row.now)) }
{
    Ok(Values {
        frame,
        numbers: numbers_with(alloc, row, frame)?,
        connected: connected_of(alloc, clips)?,
        project,
    })
}

// The number of each parameter at a frame.
fn numbers_of(alloc: Global, params: &[Param], frame: i64) -> Result<Numbers, Memory>
    ensures { IfOk result (λ numbers. numbers ≡ map (λ p. value_at p frame) params.now) }
{
    let mut numbers = Vec::new(alloc);
    for param in params {
        numbers.push(param.value_at(frame))?;
    }
    Ok(Numbers::of(numbers))
}

// The number of each parameter that is lent, at a frame.
fn numbers_with(alloc: Global, row: &[&Param], frame: i64) -> Result<Numbers, Memory>
    ensures { IfOk result (λ numbers. numbers ≡ map (λ p. value_at p.now frame) row.now) }
{
    let mut numbers = Vec::new(alloc);
    for param in row {
        numbers.push(param.value_at(frame))?;
    }
    Ok(Numbers::of(numbers))
}

// Whether each clip is connected.
fn connected_of(alloc: Global, clips: &[Option<u32>]) -> Result<Flags, Memory>
    ensures { IfOk result (λ flags. flags ≡ map is_some clips.now) }
{
    let mut flags = Vec::new(alloc);
    for clip in clips {
        flags.push(clip.is_some())?;
    }
    Ok(Flags::of(flags))
}
