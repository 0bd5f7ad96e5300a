//! The parts of a scene, what its nodes are asked with, and what a region is kept under.
use crate::same::{same, same_at};
use crate::tile::counting::effect::Counted;
use crate::tile::counting::{GRAPH, graph_of, scene_of};
use fx_base::{Memory, Rect};
use fx_core::Permit;
use fx_effect::Values;
use fx_scene::laws::scene_nodes;
use fx_scene::{Key, Scene};
use std::alloc::Global;
use std::process::Abort;
use std::sync::Arc;

const WHOLE: Rect = Rect {
    x1: 0,
    y1: 0,
    x2: 8,
    y2: 8,
};

const PART: Rect = Rect {
    x1: 2,
    y1: 0,
    x2: 4,
    y2: 2,
};

// The scene of the number 7.
fn scene<'a>(rt: &(impl Abort + AllocGlobal)) -> (Scene<Counted<'a>>, Permit) {
    let graph = graph_of(rt.alloc(), GRAPH).ok().expect(rt, "refused");
    scene_of(rt.alloc(), graph).expect(rt, "no scene")
}

// What a node is asked with, where it is one of the scene's.
fn asked(
    alloc: Global,
    scene: &Scene<Counted<'_>>,
    node: u32,
    frame: i64,
) -> Result<Values, Memory> {
    if node as usize >= scene.graph().nodes.len() {
        return Err(Memory);
    }
    scene.values(alloc, node, frame)
}

// And what a region of it is kept under.
fn key_of(
    alloc: Global,
    scene: &Scene<Counted<'_>>,
    node: u32,
    frame: i64,
    region: Rect,
) -> Result<Arc<Key>, Memory> {
    if node as usize >= scene.graph().nodes.len() {
        return Err(Memory);
    }
    scene.key(alloc, node, frame, region)
}

#[test]
fn a_scene_has_its_parts(rt: HostRuntime) {
    let (scene, permit) = scene(&rt);
    scene_nodes(&scene);
    same(&rt, (permit.scene, scene.number()), (7, 7));
    same(&rt, scene.graph().output, 6);
    same(&rt, scene.store().frame(0, 3).is_some(), true);
    same(&rt, scene.store().frame(0, 4).is_some(), false);
}

// A node, its frame, and the parameters' numbers and the connected clips that it is asked with.
const ASKED: &[(u32, i64, &[i64], &[bool])] = &[
    // The source.
    (0, 3, &[], &[]),
    // The parameter as it is where the graph does not name it, and both numbers that it may have.
    (1, 3, &[0], &[true]),
    (3, 3, &[0], &[true]),
    (4, -9, &[1], &[true]),
];

#[test]
fn a_node_is_asked_with_its_values(rt: HostRuntime) {
    let (scene, _) = scene(&rt);
    for (node, frame, numbers, connected) in ASKED {
        let values = asked(rt.alloc(), &scene, *node, *frame).expect(&rt, "no values");
        same_at(&rt, &node, values.frame, *frame);
        same_at(&rt, &node, values.numbers.items(), *numbers);
        same_at(&rt, &node, values.connected.items(), *connected);
        same_at(&rt, &node, values.project, WHOLE);
    }
}

#[test]
fn a_region_has_its_key(rt: HostRuntime) {
    let (scene, _) = scene(&rt);
    let key = key_of(rt.alloc(), &scene, 4, 3, PART).expect(&rt, "no key");
    same(
        &rt,
        (key.node, key.frame, key.region, key.era),
        (4, 3, PART, 0),
    );
    same(&rt, key.values.number(0), 1);
    // A node, its frame and region, and whether that has the same key.
    let others = [
        (4, 3, PART, true),
        (3, 3, PART, false),
        (4, 2, PART, false),
        (4, 3, WHOLE, false),
    ];
    for (node, frame, region, is_same) in others {
        let other = key_of(rt.alloc(), &scene, node, frame, region).expect(&rt, "no key");
        same_at(&rt, &(node, frame, region), other == key, is_same);
    }
}
