//! What is known of every run: a range that is rendered in stretches has the files of one run. And what is known of the
//! frames that are made of a number.
ghost use Rattle.fx_scene.specs.Scenes.{graph_shown};
ghost use Rattle.fx_runs.specs.Made.{FramesArePam};
ghost use Rattle.fx_runs.specs.Stretches.{StretchesMakeWhole, StretchesWantNoMore, RunsAreSuch};

use fx_graph::Graph;
use fx_scene::laws::value_depends_on_reach;
use fx_shipped::Shipped;

/// A range of frames may be rendered in stretches, in mode `render`, by runs in any order and on any machines, and a
/// stretch more than once: the files are those of one run, and a stretch wants no source frame that the range doesn't
/// want. It computes nothing.
pub fn stretches_make_the_whole(graph: &Graph<Shipped>)
    ensures runs { RunsAreSuch }
    ensures files { StretchesMakeWhole (graph_shown graph.now) }
    ensures wants { StretchesWantNoMore (graph_shown graph.now) }
{
    value_depends_on_reach(graph);
    // A pattern keeps by its type that it gives different frames different names.
    let _pattern = &graph.file;
}

/// Each frame that a bench makes is a PAM file (Netpbm, the manual page "pam"), and is read as the image whose samples
/// are drawn one after the other. It computes nothing.
pub fn made_frames_are_pam()
    ensures { FramesArePam }
{}
