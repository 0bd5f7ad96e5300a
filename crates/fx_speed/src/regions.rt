//! Regions of a frame of 1,920 by 1,080 pixels through a graph of twelve nodes: of each node that is reached, and what
//! each tile of 64 by 64 pixels of each needs.
ghost use Rattle.std.specs.Prelude.{All, IfOk, pos};
ghost use Rattle.fx_base.specs.Rect.{IsWithin};
ghost use Rattle.fx_scene.specs.Areas.{area};
ghost use Rattle.fx_scene.specs.Sites.{scene_nodes};
ghost use Rattle.fx_region.specs.Tables.{Has, IsMadeOf};
ghost use Rattle.fx_speed.specs.Reached.{IsReachedAt};

use crate::graph::graph_of;
use fx_actions::Asking;
use fx_base::{Grid, Memory, Name, Rect};
use fx_effect::Catalogue;
use fx_graph::Graph;
use fx_outside::SureLibrary;
use fx_region::{Regions, demand_by};
use fx_scene::{NodeFrame, Scene, reach, wants};
use fx_seq::{Store, Wanted};
use fx_shipped::Shipped;
use std::alloc::Global;

// The frame that is asked for, between the ends of the fade.
const FRAME: u32 = 11;

// The tiles round the picture, of which each node has some.
const ROUND: Rect = Rect {
    x1: -64,
    y1: -64,
    x2: 1984,
    y2: 1152,
};

const GRAPH: &str =
    r#"{"ofxr":1,"project":{"width":1920,"height":1080,"depth":"byte","components":"RGBA"},"output":{"node":"n","file":"o####.pam","format":"RGB_ALPHA"},"range":{"first":0,"last":23},"nodes":[{"name":"plate","source":"p####.pam","first":0,"last":23,"outside":"hold"},{"name":"blur","effect":"boxblur","clips":{"Source":"plate"},"params":{"rx":2,"ry":2}},{"name":"gain","effect":"gain","clips":{"Source":"blur"},"params":{"gain":"1.2"}},{"name":"colour","effect":"saturation","clips":{"Source":"gain"},"params":{"amount":"1.5"}},{"name":"blend","effect":"frameblend","clips":{"Source":"plate"},"params":{"radius":1}},{"name":"fade","effect":"dissolve","clips":{"SourceFrom":"colour","SourceTo":"blend"},"params":{"Transition":{"keys":[[0,0],[23,1]]}}},{"name":"order","effect":"shuffle","clips":{"Source":"fade"}},{"name":"move","effect":"translate","clips":{"Source":"order"},"params":{"dx":"10.25"}},{"name":"squares","effect":"checker"},{"name":"grain","effect":"grain","params":{"amount":"0.1"}},{"name":"over","effect":"merge","clips":{"A":"move","B":"squares"},"params":{"operation":"over"}},{"name":"n","effect":"merge","clips":{"A":"over","B":"grain"},"params":{"operation":"plus"}}]}"#;

/// Makes the regions of the frame so many times, and asks each time what each tile of each node needs: the number of
/// what is needed. Where the graph or its frames are refused it is want of memory.
pub(crate) fn ask_regions(alloc: Global, times: u32) -> Result<u64, Memory> {
    let scene = scene(alloc)?;
    let node_frames = node_frames_of(alloc, &scene)?;
    last_needs(alloc, &scene, &node_frames, times)
}

// How many parts each tile of each of these nodes needs, asked so many times.
fn last_needs<E: Catalogue>(
    alloc: Global,
    scene: &Scene<E>,
    node_frames: &[NodeFrame],
    times: u32,
) -> Result<u64, Memory>
    requires { All (IsReachedAt E.meaning scene.now (pos FRAME)) node_frames.now }
{
    let mut needs = 0;
    for _ in 0..times {
        needs = needs_of_frame(alloc, scene, node_frames)?;
    }
    Ok(needs)
}

// ---- the scene

fn scene(alloc: Global) -> Result<Scene<Shipped>, Memory> {
    let Ok(graph) = graph_of(alloc, GRAPH) else {
        return Err(Memory);
    };
    let store = store_of(alloc, &graph)?;
    let (scene, _permit) = Scene::new(graph, store, 1);
    Ok(scene)
}

// The frames that the graph wants.
fn store_of(alloc: Global, graph: &Graph<Shipped>) -> Result<Store, Memory> {
    let wanted = wants(alloc, graph, FRAME, FRAME)?;
    let mut library = SureLibrary::new(alloc, files_of(alloc, &wanted)?);
    match Store::fill(alloc, &mut library, &wanted, 100_000_000, 8192) {
        Ok(store) => Ok(store),
        Err(_) => Err(Memory),
    }
}

// The files of these frames: zeros, of the project's extent.
fn files_of(alloc: Global, wanted: &[Wanted]) -> Result<Vec<(Name, Vec<u8>)>, Memory> {
    let mut files = Vec::new(alloc);
    for frame in wanted {
        files.push(file_of(alloc, frame.name.text())?)?;
    }
    Ok(files)
}

fn file_of(alloc: Global, name: &str) -> Result<(Name, Vec<u8>), Memory> {
    let mut bytes = b"P7\nWIDTH 1920\nHEIGHT 1080\nDEPTH 1\nMAXVAL 255\nENDHDR\n".to_vec(alloc)?;
    bytes.resize(bytes.len() + 1920 * 1080, 0)?;
    let name = String::from_str(alloc, name)?;
    Ok((Name::of(name), bytes))
}

// ---- what is asked

// The nodes at frames that are reached.
fn node_frames_of<E: Catalogue>(alloc: Global, scene: &Scene<E>) -> Result<Vec<NodeFrame>, Memory>
    ensures { IfOk result (λ node_frames. All (IsReachedAt E.meaning scene.now (pos FRAME)) node_frames.items) }
{
    let frame = i64::from(FRAME);
    let reached = reach(alloc, scene.graph(), frame, frame)?;
    let mut node_frames = Vec::new(alloc);
    for node_frame in &reached {
        node_frames.push(*node_frame)?;
    }
    Ok(node_frames)
}

// How many parts each tile of each of these nodes needs.
fn needs_of_frame<E: Catalogue>(
    alloc: Global,
    scene: &Scene<E>,
    node_frames: &[NodeFrame],
) -> Result<u64, Memory>
    requires { All (IsReachedAt E.meaning scene.now (pos FRAME)) node_frames.now }
{
    let regions = Regions::of(alloc, scene, i64::from(FRAME))?;
    let tiles = Grid { side: 64 }.tiles_of(alloc, ROUND)?;
    let mut asking = Asking::new(alloc)?;
    let mut needs = 0u64;
    for node_frame in node_frames {
        let more = needs_of_node(alloc, &mut asking, scene, &regions, *node_frame, &tiles)?;
        needs = needs.wrapping_add(more);
    }
    Ok(needs)
}

// How many parts each of these tiles of a node needs.
fn needs_of_node<E: Catalogue>(
    alloc: Global,
    asking: &mut Asking,
    scene: &Scene<E>,
    regions: &Regions,
    node_frame: NodeFrame,
    tiles: &[Rect],
) -> Result<u64, Memory>
    requires regions { IsMadeOf E.meaning scene.now regions.now }
    requires reached { Has regions.now node_frame.node node_frame.frame }
{
    let area = regions.rod(node_frame.node, node_frame.frame);
    let mut needs = 0u64;
    for tile in tiles {
        let more = needs_of_tile(alloc, asking, scene, regions, node_frame, tile.meet(area))?;
        needs = needs.wrapping_add(more);
    }
    Ok(needs)
}

// How many parts a tile needs.
fn needs_of_tile<E: Catalogue>(
    alloc: Global,
    asking: &mut Asking,
    scene: &Scene<E>,
    regions: &Regions,
    node_frame: NodeFrame,
    tile: Rect,
) -> Result<u64, Memory>
    requires regions { IsMadeOf E.meaning scene.now regions.now }
    requires reached { Has regions.now node_frame.node node_frame.frame }
    requires within { IsWithin tile (area (scene_nodes E.meaning scene.now) node_frame.node node_frame.frame) }
{
    if tile.is_empty() {
        return Ok(0);
    }
    let NodeFrame { node, frame } = node_frame;
    let needs = demand_by(
        alloc,
        asking,
        scene,
        regions,
        node,
        frame,
        tile,
        Grid { side: 64 },
    )?;
    Ok(needs.len() as u64)
}
