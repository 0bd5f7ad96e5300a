//! Nodes at frames, each as images that together have its whole region of definition.
ghost use Rattle.std.specs.Prelude.{◌≡◌, ◌<◌, ◌≤◌, length, map, IfOk, OnOk, OnErr};
ghost use Rattle.std.specs.Arc.{arc_value};
ghost use Rattle.std.specs.BTreeSet.{IsOrdered};
ghost use Rattle.fx_effect.specs.Asked.{IsWindow};
ghost use Rattle.fx_scene.specs.Reach.{IsNearFrame, IsPlace, node_frame_cmp};
ghost use Rattle.fx_scene.specs.Sites.{IsAsked, StandsIn, effect_at};
ghost use Rattle.fx_eval.specs.Setups.{IsSetup, IsFree, setup_nodes};
ghost use Rattle.fx_eval.specs.Wholes.{AreWhole, IsOrder, IsReady, IsWhole, KeepsUnread};
ghost use Rattle.fx_eval.specs.Readers.{Makes};
ghost use Rattle.fx_eval.specs.Filled.{AreWindows};
ghost use Rattle.fx_eval.specs.Cuts.{pieces};
ghost use Rattle.fx_eval.specs.Flights.{IsIdle, Drops, after_renders};
ghost use Rattle.fx_eval.specs.Renders.{renders_at, renders_of};
ghost use Rattle.fx_scene.specs.Nodes.{Effect};
ghost use Rattle.fx_scene.specs.Scenes.{graph_shown};

use crate::areas::areas_of;
use crate::cuts::cut;
use crate::inputs::inputs_of;
use crate::readers::{last_readers, let_go};
use crate::setup::Setup;
use crate::window::window_of;
use fx_actions::region_of_definition;
use fx_base::{Memory, Rect};
use fx_core::Core;
use fx_effect::{Catalogue, Inputs, Values};
use fx_gate::GateSeat;
use fx_image::Image;
use fx_scene::site::{EffectNode, NodeAt, node_at, source_area};
use fx_scene::{Key, NodeFrame, frames_read, reads_of, use_values};
use std::alloc::Global;
use std::collections::{BTreeMap, BTreeSet};
use std::rt::Clock;
use std::sync::{Arc, Wait};

/// What is made of a node at a frame: its region of definition, and for an effect images that together have
/// it. A source has none, since its frame is held by the store.
#[derive(Drop)]
pub(crate) struct Whole {
    pub area: Rect,
    pub images: Vec<Arc<Image>>,
}

/// Makes each of these nodes at frames in their order, so that what one reads is made before it. Each is let go
/// when the last that reads it is made: so of those that are read as few are kept as that order allows.
pub(crate) fn wholes<R: Wait + Clock, E: Catalogue + Drop>(
    rt: &R,
    alloc: Global,
    setup: &Setup<'_, E>,
    core: &mut Core<Key, Image>,
    seat: &mut GateSeat,
    node_frames: &BTreeSet<NodeFrame>,
) -> Result<BTreeMap<NodeFrame, Whole>, Memory>
    requires setup { IsSetup E.meaning E.number_of setup.now }
    requires idle { IsIdle core.old }
    requires free { IsFree setup.now seat.old }
    requires order { let count = length setup.now.graph.now.nodes.items in
        IsOrder (setup_nodes E.meaning setup.now) count node_frames.now }
    ensures whole { IfOk result (AreWhole (setup_nodes E.meaning setup.now)) }
    ensures kept { IfOk result (KeepsUnread (setup_nodes E.meaning setup.now) node_frames.now) }
    ensures lands { let nodes = setup_nodes E.meaning setup.now in
        OnOk result (core.new ≡ after_renders core.old (renders_of nodes node_frames.now.keys)) }
    ensures once { OnOk result (IsOrdered node_frame_cmp node_frames.now) }
    ensures drops { OnErr result (Drops core.old core.new) }
    ensures seat { seat.new ≡ seat.old }
{
    let last = last_readers(alloc, setup.graph, node_frames)?;
    let mut made = BTreeMap::new(alloc);
    for node_frame in node_frames {
        make(rt, alloc, setup, core, seat, &last, *node_frame, &mut made)?;
    }
    Ok(made)
}

// Makes a node at a frame, and lets go what it reads as the last.
fn make<R: Wait + Clock, E: Catalogue + Drop>(
    rt: &R,
    alloc: Global,
    setup: &Setup<'_, E>,
    core: &mut Core<Key, Image>,
    seat: &mut GateSeat,
    last: &BTreeMap<NodeFrame, NodeFrame>,
    node_frame: NodeFrame,
    made: &mut BTreeMap<NodeFrame, Whole>,
) -> Result<(), Memory>
    requires setup { IsSetup E.meaning E.number_of setup.now }
    requires place { IsPlace (length setup.now.graph.now.nodes.items) node_frame.node node_frame.frame }
    requires whole { AreWhole (setup_nodes E.meaning setup.now) made.old }
    requires ready { IsReady (setup_nodes E.meaning setup.now node_frame.node) node_frame.frame made.old }
    requires idle { IsIdle core.old }
    requires free { IsFree setup.now seat.old }
    ensures whole { OnOk result (AreWhole (setup_nodes E.meaning setup.now) made.new) }
    ensures makes { OnOk result (Makes last.now node_frame made.old made.new) }
    ensures lands { let nodes = setup_nodes E.meaning setup.now in
        OnOk result (core.new ≡ after_renders core.old (renders_at nodes node_frame.node node_frame.frame)) }
    ensures drops { OnErr result (Drops core.old core.new) }
    ensures seat { seat.new ≡ seat.old }
{
    let whole = whole_of(rt, alloc, setup, core, seat, made, node_frame)?;
    made.insert(node_frame, whole)?;
    let reads = reads_of(alloc, setup.graph, node_frame)?;
    let_go(&reads, node_frame, last, made);
    Ok(())
}

fn whole_of<R: Wait + Clock, E: Catalogue + Drop>(
    rt: &R,
    alloc: Global,
    setup: &Setup<'_, E>,
    core: &mut Core<Key, Image>,
    seat: &mut GateSeat,
    made: &BTreeMap<NodeFrame, Whole>,
    node_frame: NodeFrame,
) -> Result<Whole, Memory>
    requires setup { IsSetup E.meaning E.number_of setup.now }
    requires place { IsPlace (length setup.now.graph.now.nodes.items) node_frame.node node_frame.frame }
    requires whole { AreWhole (setup_nodes E.meaning setup.now) made.now }
    requires ready { IsReady (setup_nodes E.meaning setup.now node_frame.node) node_frame.frame made.now }
    requires idle { IsIdle core.old }
    requires free { IsFree setup.now seat.old }
    ensures whole { IfOk result (IsWhole (setup_nodes E.meaning setup.now) node_frame.node node_frame.frame) }
    ensures lands { let nodes = setup_nodes E.meaning setup.now in
        OnOk result (core.new ≡ after_renders core.old (renders_at nodes node_frame.node node_frame.frame)) }
    ensures drops { OnErr result (Drops core.old core.new) }
    ensures seat { seat.new ≡ seat.old }
{
    match node_at(setup.graph, node_frame.node) {
        NodeAt::Source(source) => Ok(Whole {
            area: source_area(setup.store, node_frame, source),
            images: Vec::new(alloc),
        }),
        NodeAt::Effect(node) => {
            let frame = node_frame.frame;
            effect_whole(rt, alloc, setup, core, seat, made, &node, frame)
        }
    }
}

fn effect_whole<R: Wait + Clock, E: Catalogue + Drop>(
    rt: &R,
    alloc: Global,
    setup: &Setup<'_, E>,
    core: &mut Core<Key, Image>,
    seat: &mut GateSeat,
    made: &BTreeMap<NodeFrame, Whole>,
    node: &EffectNode<'_, E>,
    frame: i64,
) -> Result<Whole, Memory>
    requires setup { IsSetup E.meaning E.number_of setup.now }
    requires there { StandsIn (graph_shown setup.now.graph.now) node.now }
    requires near { IsNearFrame node.now.place frame }
    requires whole { AreWhole (setup_nodes E.meaning setup.now) made.now }
    requires ready { IsReady (Effect (effect_at E.meaning setup.now.graph.now.project node.now)) frame made.now }
    requires idle { IsIdle core.old }
    requires free { IsFree setup.now seat.old }
    ensures whole { IfOk result (IsWhole (setup_nodes E.meaning setup.now) node.now.place frame) }
    ensures lands { let nodes = setup_nodes E.meaning setup.now in
        OnOk result (core.new ≡ after_renders core.old (renders_at nodes node.now.place frame)) }
    ensures drops { OnErr result (Drops core.old core.new) }
    ensures seat { seat.new ≡ seat.old }
{
    let project = setup.graph.project;
    let values = use_values(alloc, project, node.clips, node.params, frame)?;
    let reads = frames_read(alloc, node.effect, node.names, &values)?;
    let frames = reads.as_slice();
    let areas = areas_of(alloc, made, node, project, frame, frames)?;
    let area = region_of_definition(
        alloc,
        node.effect,
        node.context,
        node.optional,
        &values,
        areas.as_slice(),
    )?;
    let inputs = inputs_of(alloc, setup, made, node, frame, frames)?;
    let images = images_of(rt, alloc, setup, core, seat, node, area, &values, &inputs)?;
    Ok(Whole { area, images })
}

// Images that together are a region of a node.
fn images_of<R: Wait + Clock, E: Catalogue + Drop>(
    rt: &R,
    alloc: Global,
    setup: &Setup<'_, E>,
    core: &mut Core<Key, Image>,
    seat: &mut GateSeat,
    node: &EffectNode<'_, E>,
    area: Rect,
    values: &Values,
    inputs: &Inputs<'_>,
) -> Result<Vec<Arc<Image>>, Memory>
    requires setup { IsSetup E.meaning E.number_of setup.now }
    requires asked { IsAsked (graph_shown setup.now.graph.now) node.now values.now inputs.now }
    requires area { IsWindow area }
    requires idle { IsIdle core.old }
    requires free { IsFree setup.now seat.old }
    ensures windows { let m = E.meaning node.now.effect.now in let depth = node.now.depth in
        IfOk result (λ images.
        AreWindows m values.now inputs.now depth node.now.components area (map arc_value images.items)) }
    ensures lands { OnOk result (core.new ≡ after_renders core.old (pieces area)) }
    ensures drops { OnErr result (Drops core.old core.new) }
    ensures seat { seat.new ≡ seat.old }
{
    let cuts = cut(alloc, area)?;
    let mut images = Vec::new(alloc);
    for region in &cuts {
        let image = window_of(rt, alloc, setup, core, seat, node, *region, values, inputs)?;
        images.push(image)?;
    }
    Ok(images)
}
