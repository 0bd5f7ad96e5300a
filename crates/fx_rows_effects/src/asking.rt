//! One effect through all its actions: what it describes, what it answers, and what it renders.
ghost use Rattle.std.specs.Prelude.{◌≡◌, ◌≢◌, ◌<◌, IfOk, IfSome, Some, is_some, map, length, slice_get};
ghost use Rattle.std.specs.List.{Contains};
ghost use Rattle.fx_base.specs.Bounds.{none};
ghost use Rattle.fx_base.specs.Rect.{IsFrame};
ghost use Rattle.fx_image.specs.Part.{IsPart, SamePart};
ghost use Rattle.fx_pixel.specs.Pixel.{IsOfDepth, components_of};
ghost use Rattle.fx_effect.specs.Asked.{IsWindow};
ghost use Rattle.fx_life.specs.Plugin.{MayRenderIn, Rendering};
ghost use Rattle.fx_scene.specs.Scenes.{graph_shown};
ghost use Rattle.fx_scene.specs.Sites.{StandsIn};
ghost use Rattle.fx_shipped.specs.Shipped.{meaning_of};
ghost use Rattle.fx_rows_effects.specs.Asked.{IsSmallWindow, source_region};

use crate::graphs::{file_of, graph_of};
use crate::same::{same, same_at};
use fx_actions::{frames_needed, identity, region_of_definition, regions_of_interest};
use fx_base::{Memory, Rect};
use fx_core::Ticket;
use fx_effect::{
    Context, Identity, ImageEffect, Inputs, Piece, Steps, Values, descriptor, window_args,
};
use fx_gate::Gates;
use fx_graph::Graph;
use fx_image::{Image, Part};
use fx_life::{Running, Use};
use fx_params::{ParamDef, ParamKind};
use fx_pixel::{Components, Depth, Pixel};
use fx_props::PropSet;
use fx_scene::site::{EffectNode, NodeAt, node_at, seen_components};
use fx_scene::use_values;
use fx_shipped::Shipped;
use std::alloc::Global;
use std::process::Abort;
use std::rt::Clock;
use std::sync::{Arc, Wait};

/// The bounds of a rectangle: left, bottom, right and top.
pub type Bounds = (i64, i64, i64, i64);

/// A parameter: its name, kind, least and greatest number, the one that it starts with, and its choices.
pub type Parameter = (
    &'static str,
    ParamKind,
    i64,
    i64,
    i64,
    &'static [&'static str],
);

/// A frame of an input clip: the clip, the frame, and its pixels.
pub type Frame = (u32, i64, Picture);

/// The samples of pixels, as r, g, b and a.
pub type Pixels = &'static [[u16; 4]];

/// An effect's row: its use by a node of a graph file whose project has a width, what it describes, what it answers at
/// frame 7, and the pixels of the window at each depth at which it is rendered.
#[derive(Clone, Copy)]
pub struct Row {
    pub used: &'static str,
    pub width: u32,
    pub label: &'static str,
    pub contexts: &'static [&'static str],
    pub depths: &'static [&'static str],
    pub temporal: i64,
    pub tiles: i64,
    pub safety: &'static str,
    pub clips: &'static [Clip],
    pub params: &'static [Parameter],
    pub window: Window,
    pub region: Bounds,
    pub interest: &'static [Bounds],
    pub frames: &'static [&'static [(i64, i64)]],
    pub identity: Identity,
    pub sources: &'static [Frame],
    pub bytes: Pixels,
    pub shorts: Option<Pixels>,
}

/// An input clip: its name, whether it may be left unconnected, and its components.
#[derive(Clone, Copy)]
pub struct Clip {
    pub name: &'static str,
    pub optional: i64,
    pub components: &'static [&'static str],
}

/// The window that is asked for: columns 1 to 4 of row 0, or columns 0 and 1.
#[derive(Clone, Copy)]
pub enum Window {
    Right,
    Left,
}

impl Window {
    fn rect(self) -> Rect
        ensures { IsSmallWindow result }
    {
        match self {
            Window::Right => Rect {
                x1: 1,
                y1: 0,
                x2: 5,
                y2: 1,
            },
            Window::Left => Rect {
                x1: 0,
                y1: 0,
                x2: 2,
                y2: 1,
            },
        }
    }
}

/// The pixels of columns 0 to 3 of row 0, as r, g, b and a.
#[derive(Clone, Copy)]
pub enum Picture {
    First,
    Second,
    Mask,
    Dim,
    Greys,
}

impl Picture {
    fn pixels(self) -> [[u16; 4]; 4] {
        match self {
            Picture::First => [
                [1, 1, 1, 1],
                [10, 200, 30, 128],
                [0, 255, 254, 255],
                [3, 2, 1, 0],
            ],
            Picture::Second => [
                [2, 2, 2, 2],
                [20, 0, 0, 255],
                [0, 0, 0, 0],
                [255, 255, 255, 255],
            ],
            Picture::Mask => [[0, 0, 0, 0], [0, 0, 0, 128], [0, 0, 0, 0], [0, 0, 0, 255]],
            Picture::Dim => [
                [20, 200, 1, 0],
                [100, 30, 7, 255],
                [0, 0, 199, 201],
                [250, 250, 250, 250],
            ],
            Picture::Greys => [
                [50, 50, 50, 255],
                [100, 100, 100, 255],
                [0, 0, 0, 0],
                [0, 0, 0, 0],
            ],
        }
    }
}

/// Takes the effect of each row through all its actions.
pub fn effect_rows<R: Abort + Wait + Clock + AllocGlobal>(rt: &R, rows: &[Row]) {
    for row in rows {
        effect_row(rt, row);
    }
}

fn effect_row<R: Abort + Wait + Clock + AllocGlobal>(rt: &R, row: &Row) {
    let graph = used_in(rt, row, "byte");
    let node = effect_in(&graph).expect(rt, row.label);
    answered(rt, &graph, &node, row);
    renders(rt, &graph, &node, row, Depth::Byte, row.bytes);
    if let Some(shorts) = row.shorts {
        let graph = used_in(rt, row, "short");
        let node = effect_in(&graph).expect(rt, row.label);
        renders(rt, &graph, &node, row, Depth::Short, shorts);
    }
}

// A graph of this depth with the row's effect, behind a source for each clip that it may have.
fn used_in(rt: &(impl Abort + AllocGlobal), row: &Row, depth: &str) -> Graph<Shipped> {
    let alloc = rt.alloc();
    let width = row.width;
    let used = row.used;
    let project = format!(in alloc;
        r#"{{"width":{width},"height":1,"depth":"{depth}","components":"RGBA"}}"#
    ).expect(rt, "no project");
    let nodes = format!(in alloc;
        r#"{{"name":"s","source":"s#","first":0,"last":9}},{{"name":"t","source":"t#","first":0,"last":9}},{{"name":"m","source":"m#","first":0,"last":9,"components":"Alpha"}},{{"name":"z",{used}}}"#
    ).expect(rt, "no nodes");
    let text = file_of(alloc, project.as_str(), "o#.pam", nodes.as_str()).expect(rt, "no text");
    graph_of(alloc, text.as_str()).ok().expect(rt, row.label)
}

// The effect that the graph renders.
fn effect_in(graph: &Graph<Shipped>) -> Option<EffectNode<'_, Shipped>>
    ensures { IfSome result (StandsIn (graph_shown graph.now)) }
{
    match node_at(graph, graph.output) {
        NodeAt::Source(_) => None,
        NodeAt::Effect(node) => Some(node),
    }
}

fn rect_of(bounds: &Bounds) -> Rect {
    let (left, bottom, right, top) = *bounds;
    Rect::of(left, bottom, right, top)
}

// ---- what it describes

fn described(alloc: Global, effect: Shipped) -> Result<PropSet, Memory> {
    let mut set = descriptor(alloc)?;
    effect.describe(alloc, &mut set)?;
    Ok(set)
}

fn describes(rt: &impl Abort, alloc: Global, effect: Shipped, row: &Row) {
    let set = described(alloc, effect).expect(rt, "no descriptor");
    same(rt, set.get_text("OfxPropLabel", 0), Ok(row.label));
    texts(
        rt,
        &set,
        "OfxImageEffectPropSupportedContexts",
        row.contexts,
    );
    texts(
        rt,
        &set,
        "OfxImageEffectPropSupportedPixelDepths",
        row.depths,
    );
    let temporal = set.get_int("OfxImageEffectPropTemporalClipAccess", 0);
    let tiles = set.get_int("OfxImageEffectPropSupportsTiles", 0);
    let wanted = (Ok(row.temporal), Ok(row.tiles));
    same_at(rt, &row.label, (temporal, tiles), wanted);
    let safety = set.get_text("OfxImageEffectPluginRenderThreadSafety", 0);
    same_at(rt, &row.label, safety, Ok(row.safety));
}

// The property has these texts and no others.
fn texts(rt: &impl Abort, set: &PropSet, name: &str, wanted: &[&str]) {
    let count = set.dimension(name).expect(rt, name);
    same_at(rt, &name, count as usize, wanted.len());
    for (index, text) in (0..count).zip(wanted) {
        same_at(rt, &name, set.get_text(name, index), Ok(*text));
    }
}

fn describes_in(rt: &impl Abort, alloc: Global, effect: Shipped, context: Context, row: &Row)
    requires { Contains (meaning_of effect).shape.contexts context }
{
    let mut sets = Vec::new(alloc);
    let mut defs = Vec::new(alloc);
    let described = effect.describe_in_context(alloc, context, &mut sets, &mut defs);
    assert!(rt; described.is_ok());
    let lengths = (sets.len(), defs.len());
    same_at(rt, &row.label, lengths, (row.clips.len(), row.params.len()));
    for (set, clip) in sets.iter().zip(row.clips) {
        same_clip(rt, set, clip);
    }
    for (def, wanted) in defs.iter().zip(row.params) {
        same_parameter(rt, def, wanted);
    }
}

fn same_clip(rt: &impl Abort, set: &PropSet, clip: &Clip) {
    same(rt, set.get_text("OfxPropName", 0), Ok(clip.name));
    let optional = set.get_int("OfxImageClipPropOptional", 0);
    same_at(rt, &clip.name, optional, Ok(clip.optional));
    texts(
        rt,
        set,
        "OfxImageEffectPropSupportedComponents",
        clip.components,
    );
}

fn same_parameter(rt: &impl Abort, def: &ParamDef, wanted: &Parameter) {
    let (name, kind, least, greatest, start, choices) = *wanted;
    same(rt, def.name.text(), name);
    same_at(rt, &name, def.kind, kind);
    let numbers = (def.least, def.greatest, def.start);
    same_at(rt, &name, numbers, (least, greatest, start));
    same_at(rt, &name, def.choices.items().len(), choices.len());
    for (choice, text) in def.choices.items().iter().zip(choices) {
        same(rt, choice.text(), *text);
    }
}

// ---- what it answers

// What an effect answers for a window.
#[derive(Drop)]
struct Answers {
    region: Rect,
    interest: Vec<Rect>,
    frames: Vec<Vec<(i64, i64)>>,
    identity: Identity,
}

fn answered(
    rt: &(impl Abort + AllocGlobal),
    graph: &Graph<Shipped>,
    node: &EffectNode<'_, Shipped>,
    row: &Row,
)
    requires { StandsIn (graph_shown graph.now) node.now }
{
    let alloc = rt.alloc();
    describes(rt, alloc, *node.effect, row);
    describes_in(rt, alloc, *node.effect, node.context, row);
    let found = answers_of(alloc, graph, node, row.window.rect());
    same_answers(rt, &found.expect(rt, "no answers"), row);
}

fn answers_of(
    alloc: Global,
    graph: &Graph<Shipped>,
    node: &EffectNode<'_, Shipped>,
    window: Rect,
) -> Result<Answers, Memory>
    requires there { StandsIn (graph_shown graph.now) node.now }
    requires window { IsWindow window }
{
    let values = use_values(alloc, graph.project, node.clips, node.params, 7)?;
    let regions = regions_of(alloc, node.clips)?;
    let region = region_of_definition(
        alloc,
        node.effect,
        node.context,
        node.optional,
        &values,
        regions.as_slice(),
    )?;
    Ok(Answers {
        region,
        interest: regions_of_interest(alloc, node.effect, node.names, &values, window)?,
        frames: frames_needed(alloc, node.effect, node.names, &values)?,
        identity: identity(node.effect, &values, &window_args(alloc, 7, window)?),
    })
}

// Where the source of each clip has pixels.
fn regions_of(alloc: Global, clips: &[Option<u32>]) -> Result<Vec<Rect>, Memory>
    ensures { IfOk result (λ regions. regions.items ≡ map source_region (map is_some clips.now)) }
{
    let mut regions = Vec::new(alloc);
    for clip in clips {
        regions.push(source_region(clip.is_some()))?;
    }
    Ok(regions)
}

fn source_region(connected: bool) -> Rect
    ensures { result ≡ source_region connected }
{
    if connected {
        Rect::of(0, 0, 4, 1)
    } else {
        Rect::of(0, 0, 0, 0)
    }
}

fn same_answers(rt: &impl Abort, found: &Answers, row: &Row) {
    same_at(rt, &row.label, found.region, rect_of(&row.region));
    same_at(rt, &row.label, found.interest.len(), row.interest.len());
    for (region, wanted) in found.interest.iter().zip(row.interest) {
        same_at(rt, &row.label, *region, rect_of(wanted));
    }
    same_at(rt, &row.label, found.frames.len(), row.frames.len());
    for (spans, wanted) in found.frames.iter().zip(row.frames) {
        same_at(rt, &row.label, spans.as_slice(), *wanted);
    }
    same_at(rt, &row.label, found.identity, row.identity);
}

// ---- what it renders

// Renders the row's window, and compares its depth and its pixels.
fn renders<R: Abort + Wait + Clock + AllocGlobal>(
    rt: &R,
    graph: &Graph<Shipped>,
    node: &EffectNode<'_, Shipped>,
    row: &Row,
    depth: Depth,
    wanted: Pixels,
)
    requires { StandsIn (graph_shown graph.now) node.now }
{
    let image = rendered(rt, rt.alloc(), graph, node, row).expect(rt, "no image");
    let form = (image.depth(), image.components());
    same_at(rt, &row.label, form, (depth, Components::Rgba));
    same_pixels(rt, row.label, &image, wanted);
}

// Renders the row's window.
fn rendered<R: Abort + Wait + Clock>(
    rt: &R,
    alloc: Global,
    graph: &Graph<Shipped>,
    node: &EffectNode<'_, Shipped>,
    row: &Row,
) -> Result<Image, Memory>
    requires { StandsIn (graph_shown graph.now) node.now }
{
    let values = use_values(alloc, graph.project, node.clips, node.params, 7)?;
    let shown = seen_components(alloc, node.masks, node.components)?;
    let inputs = inputs_of(alloc, node.depth, shown.as_slice(), row.sources)?;
    let window = row.window.rect();
    let mut image = Image::new(alloc, window, node.depth, node.components, 1024)?;
    let mut part = image.part(window);
    let stamped = lived(rt, alloc, node, &values, &inputs, &mut part)?;
    assert!(rt; stamped, "{}", row.label);
    Ok(image)
}

// Renders the part's rectangle by the second of two instances, from their loading to their unloading. Answers whether it
// was stamped.
fn lived<R: Wait + Clock>(
    rt: &R,
    alloc: Global,
    node: &EffectNode<'_, Shipped>,
    values: &Values,
    inputs: &Inputs<'_>,
    part: &mut Part<'_>,
) -> Result<bool, Memory>
    requires supported { Contains (meaning_of node.now.effect.now).shape.contexts node.now.context }
    requires part { IsPart part.old }
    requires window { part.old.rect ≢ none }
    requires frame { IsFrame values.now.frame }
    requires may { let image = part.old.image.now in
        MayRenderIn node.now.context (meaning_of node.now.effect.now).shape values.now inputs.now image.depth
        image.components }
    ensures { SamePart part.old part.new }
{
    let context = node.context;
    let uses = [Use { node: 3, context }, Use { node: 4, context }];
    let running = Running::start(alloc, *node.effect, &uses, 0, 9)?;
    let mut ticket = Ticket {
        scene: 1,
        number: 2,
        stamped: false,
    };
    let outcome = second_renders(rt, alloc, &running, values, inputs, &mut ticket, part);
    let Ticket {
        scene: _,
        number: _,
        stamped,
    } = ticket;
    running.finish();
    outcome?;
    Ok(stamped)
}

// Renders the part's rectangle by the second instance, which is that of node 4, under a hold of its gate.
fn second_renders<R: Wait + Clock>(
    rt: &R,
    alloc: Global,
    running: &Running<Shipped>,
    values: &Values,
    inputs: &Inputs<'_>,
    ticket: &mut Ticket,
    part: &mut Part<'_>,
) -> Result<(), Memory>
    requires two { 1 < length running.now.sequences }
    requires second { IfSome (slice_get running.now.sequences 1) (λ s. s.node ≡ 4) }
    requires part { IsPart part.old }
    requires window { part.old.rect ≢ none }
    requires frame { IsFrame values.now.frame }
    requires may { let image = part.old.image.now in let shape = (meaning_of running.now.effect).shape in
        (s : Rendering) → slice_get running.now.sequences 1 ≡ Some s
        → MayRenderIn s.context shape values.now inputs.now image.depth image.components }
    ensures { SamePart part.old part.new }
{
    let (gates, mut seat) = Gates::new(alloc, 69)?;
    let Some(gate) = running.gate_of(4) else {
        let mut free = Gates::free(alloc);
        return running.render(alloc, 1, values, inputs, &mut free, ticket, part);
    };
    let mut hold = gates.hold(rt, &mut seat, gate);
    let outcome = running.render(alloc, 1, values, inputs, &mut hold, ticket, part);
    gates.release(&mut seat, hold);
    outcome
}

fn inputs_of(
    alloc: Global,
    depth: Depth,
    shown: &[Components],
    frames: &[Frame],
) -> Result<Inputs<'static>, Memory>
    ensures depth { IfOk result (λ inputs. inputs.depth ≡ depth) }
    ensures shown { IfOk result (λ inputs. inputs.components ≡ shown.now) }
{
    let mut inputs = Inputs::new(alloc, depth, shown.to_vec(alloc)?)?;
    for frame in frames {
        push_frame(alloc, depth, shown, frame, &mut inputs)?;
    }
    Ok(inputs)
}

fn push_frame(
    alloc: Global,
    depth: Depth,
    shown: &[Components],
    frame: &Frame,
    inputs: &mut Inputs<'static>,
) -> Result<(), Memory>
    requires { inputs.old.components ≡ shown.now }
    ensures depth { inputs.new.depth ≡ inputs.old.depth }
    ensures shown { inputs.new.components ≡ inputs.old.components }
{
    let (number, at, picture) = *frame;
    let clip = number as usize;
    if clip < shown.len() {
        let image = image_of(alloc, depth, shown[clip], &picture.pixels())?;
        image.pixels_fit();
        let piece = Piece::Tile {
            cut: image.rect(),
            image: Arc::new(alloc, image)?,
            through: Steps::of(Vec::new(alloc)),
        };
        inputs.push(alloc, number, at, piece)?;
    }
    Ok(())
}

// An image of one row with these pixels.
fn image_of(
    alloc: Global,
    depth: Depth,
    components: Components,
    pixels: &[[u16; 4]; 4],
) -> Result<Image, Memory> {
    let mut image = Image::new(alloc, Rect::of(0, 0, 4, 1), depth, components, 32)?;
    let [first, second, third, fourth] = pixels;
    image.put(0, 0, pixel_of(depth, components, first));
    image.put(1, 0, pixel_of(depth, components, second));
    image.put(2, 0, pixel_of(depth, components, third));
    image.put(3, 0, pixel_of(depth, components, fourth));
    Ok(image)
}

// The pixel of these samples. None is greater than the depth's greatest.
fn pixel_of(depth: Depth, components: Components, samples: &[u16; 4]) -> Pixel
    ensures depth { IsOfDepth depth result }
    ensures components { components_of result ≡ components }
{
    let [r, g, b, a] = *samples;
    let greatest = depth.greatest() as u16;
    match components {
        Components::Rgba => Pixel::Rgba {
            r: r.min(greatest),
            g: g.min(greatest),
            b: b.min(greatest),
            a: a.min(greatest),
        },
        Components::Alpha => Pixel::Alpha { a: a.min(greatest) },
    }
}

// Compares an image with its pixels by rows from the bottom. Behind the last one they are zero.
fn same_pixels(rt: &impl Abort, label: &str, image: &Image, wanted: &[[u16; 4]]) {
    let rect = image.rect();
    let mut left = wanted.iter();
    for y in rect.y1..rect.y2 {
        for x in rect.x1..rect.x2 {
            let samples = left.next().copied().unwrap_or([0, 0, 0, 0]);
            let pixel = pixel_of(image.depth(), image.components(), &samples);
            same_at(rt, &(label, x, y), image.at(x, y), pixel);
        }
    }
}
