//! What is there before a frame is drawn.
ghost use Rattle.std.specs.Prelude.{◌≡◌, ◌*◌, ◌^◌, ◌≤◌, ◌≤ℤ◌, pos, neg_ℤ, All, IfOk, vec_len};
ghost use Rattle.fx_base.specs.declared.limits.TheConstants.{LAST_FRAME};
ghost use Rattle.fx_effect.specs.Shape.{IsProject};
ghost use Rattle.fx_image.specs.Bands.{IsLayout};
ghost use Rattle.fx_pam.specs.Laws.{components_for};
ghost use Rattle.fx_region.specs.Counts.{window_tiles};
ghost use Rattle.fx_tile.specs.Moments.{IsGround, IsWindowTile, layout_over};

use crate::render::row_bytes_of;
use fx_base::{Grid, Memory, Rect};
use fx_effect::Catalogue;
use fx_image::{Image, Layout};
use fx_pixel::{Components, Depth, Format};
use fx_region::Regions;
use fx_scene::Scene;
use std::alloc::Global;

/// The regions of a frame's nodes, its window tiles, so many in each column of the grid's rows, and the bands of an
/// image for its picture, one for each row of the grid.
#[derive(Drop)]
pub(crate) struct Ground {
    pub regions: Regions,
    pub tiles: Vec<Rect>,
    pub columns: usize,
    pub layout: Layout,
    pub bands: Vec<Image>,
}

/// What is there before a frame of the scene is drawn over tiles of the grid.
pub(crate) fn ground_of<E: Catalogue>(
    alloc: Global,
    scene: &Scene<E>,
    grid: Grid,
    frame: i64,
) -> Result<Ground, Memory>
    requires low { neg_ℤ (pos LAST_FRAME) ≤ℤ frame }
    requires high { frame ≤ℤ pos LAST_FRAME }
    ensures { IfOk result (IsGround E.meaning scene.now grid frame) }
{
    let graph = scene.graph();
    let regions = Regions::of(alloc, scene, frame)?;
    let tiles = window_tiles(alloc, grid, graph.project)?;
    let layout = layout_over(graph.project, graph.depth, graph.format, grid);
    let bands = Image::in_bands(alloc, &layout)?.into_bands(alloc)?;
    let columns = tiles.len() / bands.len();
    Ok(Ground {
        regions,
        tiles,
        columns,
        layout,
        bands,
    })
}

// The tiles of a grid that hold a pixel of the project's extent, each cut to it.
fn window_tiles(alloc: Global, grid: Grid, project: Rect) -> Result<Vec<Rect>, Memory>
    requires { IsProject project }
    ensures tiles { IfOk result (λ tiles. tiles.items ≡ window_tiles grid project) }
    ensures few { IfOk result (λ tiles. vec_len tiles ≤ 2 ^ 32) }
    ensures each { IfOk result (λ tiles. All (IsWindowTile project) tiles.items) }
{
    // Reading it tells the proof that it has from 1 to 1,024 pixels.
    let _side = grid.side;
    let mut tiles = grid.tiles_of(alloc, project)?;
    for tile in tiles.iter_mut() {
        *tile = project.meet(*tile);
    }
    Ok(tiles)
}

// How a picture over the project's extent is laid out in bands as high as a row of the grid.
fn layout_over(project: Rect, depth: Depth, format: Format, grid: Grid) -> Layout
    requires { IsProject project }
    ensures layout { result ≡ layout_over project depth format grid }
    ensures laid { IsLayout result }
    ensures side { 1 ≤ grid }
{
    let components = components_for(format);
    let row_bytes = row_bytes_of(project, depth, components);
    Layout {
        rect: project,
        depth,
        components,
        row_bytes,
        band_rows: grid.side,
    }
}

fn components_for(format: Format) -> Components
    ensures { result ≡ components_for format }
{
    match format {
        Format::Grayscale => Components::Alpha,
        Format::Rgb | Format::RgbAlpha => Components::Rgba,
    }
}
