//! The graph and the frames of a number.
ghost use Rattle.std.specs.Prelude.{◌≡◌, ◌≤◌, IfOk};
ghost use Rattle.fx_bench.specs.Graphs.{graph_text};
ghost use Rattle.fx_bench.specs.Frames.{AreFrames, behind_graph};

use crate::frames::frames;
use crate::generator::Generator;
use crate::graph::graph_text;
use fx_base::{Memory, Name};
use std::alloc::Global;

/// The bytes of a graph file, and the names and the bytes of the files of its source's frames.
#[derive(Debug, Drop)]
pub struct Bench {
    pub graph: Vec<u8>,
    pub frames: Vec<(Name, Vec<u8>)>,
}

/// Makes the graph of a number: four frames of 320 by 240 pixels of r, g, b and a in bytes (Netpbm, the manual page
/// "pam"), through nine effects and a merge. The numbers in it are drawn by a linear congruential generator of 32
/// bits. `Memory` comes where memory is wanting.
pub fn make(alloc: Global, number: u32) -> Result<Bench, Memory>
    requires { number ≤ 999999 }
    ensures graph { IfOk result (λ bench. bench.graph.items ≡ graph_text number) }
    ensures frames { IfOk result (λ bench. AreFrames (behind_graph number) 4 bench.frames.items) }
{
    let mut draws = Generator::of(number);
    let graph = graph_text(alloc, &mut draws)?;
    let frames = frames(alloc, &mut draws)?;
    Ok(Bench { graph, frames })
}
