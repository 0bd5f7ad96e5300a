//! What takes leave as it is.
ghost use Rattle.std.specs.Prelude.{ℕ, List};
ghost use Rattle.fx_scene.specs.Uses.{UsesTell, wanting};
ghost use Rattle.fx_scene.specs.declared.take.Edit.{Edit as AnyEdit};
ghost use Rattle.fx_scene.specs.Takes.{AreTakes, EditsKeep, ErasTell};
ghost use Rattle.fx_scene.specs.Holds.{HeldSuffice, MadeIsRight, PicturesStay, RightIsMade};
ghost use Rattle.fx_scene.specs.Right.{RightByOne, RightStays};
ghost use Rattle.fx_scene.specs.Scenes.{graph_shown};

use crate::scene::Scene;
use fx_effect::Catalogue;
use fx_graph::Graph;

/// Takes with the same era of a node have the same of it: its values, its pixels at each frame and place, what it reads
/// and what it wants. It computes nothing.
pub fn eras_tell<E: Catalogue>(graph: &Graph<E>)
    ensures { let g = graph_shown graph.now in (takes : List (List AnyEdit)) → AreTakes E.meaning g takes
        → ErasTell E.meaning g takes }
{
    let _nodes = &graph.nodes;
}

/// An image that is right at one take is right at each take of the same era, and stays right where more frames were
/// fetched. It computes nothing.
pub fn right_stays<E: Catalogue>(graph: &Graph<E>)
    ensures one { let g = graph_shown graph.now in (takes : List (List AnyEdit)) → AreTakes E.meaning g takes
        → RightByOne E.meaning g takes }
    ensures more { let g = graph_shown graph.now in (takes : List (List AnyEdit)) → AreTakes E.meaning g takes
        → RightStays E.meaning g takes }
{
    let _nodes = &graph.nodes;
}

/// Where a scene holds what is wanted at a frame, it shows of what is reached there the same as all that was fetched. It
/// computes nothing.
pub fn held_suffice<E: Catalogue>(graph: &Graph<E>)
    ensures { HeldSuffice E.meaning (graph_shown graph.now) }
{
    let _nodes = &graph.nodes;
}

/// Edits of a graph's parameters leave its nodes such as a graph keeps. It computes nothing.
pub fn edits_keep<E: Catalogue>(graph: &Graph<E>)
    ensures { (takes : List (List AnyEdit)) → EditsKeep E.meaning (graph_shown graph.now) takes }
{
    let _nodes = &graph.nodes;
}

/// Uses tell what is due at a moment and what is held. It computes nothing.
pub fn uses_tell<E: Catalogue>(graph: &Graph<E>)
    ensures { let g = graph_shown graph.now in (takes : List (List AnyEdit)) (first count : ℕ)
        → UsesTell (wanting E.meaning g takes first count) }
{
    let _nodes = &graph.nodes;
}

/// A picture stays what it is where more source frames were fetched than those that it wants. It computes nothing.
pub fn pictures_stay<E: Catalogue>(graph: &Graph<E>)
    ensures { let g = graph_shown graph.now in (takes : List (List AnyEdit)) → AreTakes E.meaning g takes
        → PicturesStay E.meaning g takes }
{
    let _nodes = &graph.nodes;
}

/// An image that was made from what a scene holds is right under its key, and one that is right under a key is what would
/// be made. It computes nothing.
pub fn made_is_right<E: Catalogue>(graph: &Graph<E>)
    ensures made { let g = graph_shown graph.now in (takes : List (List AnyEdit)) → AreTakes E.meaning g takes
        → MadeIsRight E.meaning g takes }
    ensures right { let g = graph_shown graph.now in (takes : List (List AnyEdit)) → AreTakes E.meaning g takes
        → RightIsMade E.meaning g takes }
{
    let _nodes = &graph.nodes;
}

/// Of the takes of every scene: what is right under a key stays right, what was made is right, and what is right is what
/// would be made. It computes nothing.
pub fn scene_tiles<E: Catalogue>(scene: &Scene<E>)
    ensures stays { RightStays E.meaning scene.now.script.written scene.now.script.takes }
    ensures made { MadeIsRight E.meaning scene.now.script.written scene.now.script.takes }
    ensures right { RightIsMade E.meaning scene.now.script.written scene.now.script.takes }
{
    let _graph = scene.graph();
    scene.is_played();
}
