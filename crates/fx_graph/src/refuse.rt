//! Refusals with their paths.
ghost use Rattle.std.specs.Prelude.{◌≡◌, ◌++◌, IfOk, Some, codes};
ghost use Rattle.fx_graph.specs.Refusal.{refusal, node_path, clip_path, param_path, Tells};

use fx_base::Memory;
use fx_text::{GraphCode, GraphFault, GraphPath};
use std::alloc::Global;

/// The refusal of a member of the node at a path.
pub fn refuse(alloc: Global, code: GraphCode, path: &str, member: &str) -> GraphFault
    ensures { Tells (Some (refusal code (node_path path.now member.now))) result }
{
    match node_path(alloc, path, member) {
        Ok(path) => GraphFault::Refused(code, path),
        Err(_) => GraphFault::Memory,
    }
}

fn node_path(alloc: Global, path: &str, member: &str) -> Result<GraphPath, Memory>
    ensures { IfOk result (λ made. made ≡ node_path path.now member.now) }
{
    let text = format!(in alloc; "{path}.{member}")?;
    Ok(GraphPath::of(text))
}

/// The refusal of a clip of the node at a path.
pub fn refuse_clip(alloc: Global, code: GraphCode, path: &str, clip: &str) -> GraphFault
    ensures { Tells (Some (refusal code (clip_path path.now clip.now))) result }
{
    match clip_path(alloc, path, clip) {
        Ok(path) => GraphFault::Refused(code, path),
        Err(_) => GraphFault::Memory,
    }
}

fn clip_path(alloc: Global, path: &str, clip: &str) -> Result<GraphPath, Memory>
    ensures { IfOk result (λ made. made ≡ clip_path path.now clip.now) }
{
    let text = format!(in alloc; "{path}.clips.{clip}")?;
    Ok(GraphPath::of(text))
}

/// The refusal of a parameter of the node at a path.
pub fn refuse_param(alloc: Global, code: GraphCode, path: &str, param: &str) -> GraphFault
    ensures { Tells (Some (refusal code (param_path path.now param.now))) result }
{
    match param_path(alloc, path, param) {
        Ok(path) => GraphFault::Refused(code, path),
        Err(_) => GraphFault::Memory,
    }
}

fn param_path(alloc: Global, path: &str, param: &str) -> Result<GraphPath, Memory>
    ensures { IfOk result (λ made. made ≡ param_path path.now param.now) }
{
    let text = format!(in alloc; "{path}.params.{param}")?;
    Ok(GraphPath::of(text))
}

/// The refusal at a path.
pub fn refuse_at(alloc: Global, code: GraphCode, path: &str) -> GraphFault
    ensures { Tells (Some (refusal code path.now)) result }
{
    match String::from_str(alloc, path) {
        Ok(path) => GraphFault::Refused(code, GraphPath::of(path)),
        Err(_) => GraphFault::Memory,
    }
}
