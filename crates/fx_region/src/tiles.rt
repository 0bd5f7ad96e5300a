//! The tiles of a grid that are needed of a node.
ghost use Rattle.std.specs.Prelude.{◌≡◌, ◌++◌, ◌+ℤ◌, ◌-ℤ◌, ◌≤ℤ◌, ◌<ℤ◌, false, length, map, negsuc, pos, OnOk};
ghost use Rattle.std.specs.List.{flat_map};
ghost use Rattle.fx_base.specs.Grid.{tile_of, tiles_between, tiles_of};
ghost use Rattle.fx_base.specs.Rect.{IsNear, is_empty};
ghost use Rattle.fx_scene.specs.Areas.{area};
ghost use Rattle.fx_scene.specs.Nodes.{AreNodes};
ghost use Rattle.fx_region.specs.Ends.{end_of, end_shown};
ghost use Rattle.fx_region.specs.Needs.{frame_needs, need_shown, needed, tile_needs};
ghost use Rattle.fx_scene.specs.Sites.{site_nodes};
ghost use Rattle.fx_region.specs.Tables.{Has, IsTable};

use crate::ends::{End, Need};
use crate::following::find;
use crate::regions::Regions;
use fx_actions::Asking;
use fx_base::{Grid, Memory, Rect};
use fx_effect::Catalogue;
use fx_scene::site::Site;
use std::alloc::Global;

/// Adds each tile that is needed of a node at a frame.
pub(crate) fn add_tiles<E: Catalogue>(
    alloc: Global,
    asking: &mut Asking,
    site: &Site<'_, E>,
    regions: &Regions,
    grid: Grid,
    clip: u32,
    m: u32,
    frame: i64,
    interest: Rect,
    needs: &mut Vec<Need>,
) -> Result<(), Memory>
    requires nodes { AreNodes (site_nodes E.meaning site.now) }
    requires table { IsTable (site_nodes E.meaning site.now) (length site.now.graph.now.nodes.items) regions.now }
    requires there { Has regions.now m frame }
    ensures { let nodes = site_nodes E.meaning site.now in
        OnOk result (map need_shown needs.new.items ≡ map need_shown needs.old.items
        ++ frame_needs (end_of nodes) (area nodes) grid interest clip m frame) }
{
    let cut = interest.meet(regions.rod(m, frame));
    if cut.is_empty() {
        return Ok(());
    }
    add_rows(
        alloc, asking, site, regions, grid, clip, m, frame, cut, needs,
    )
}

// Adds each tile that holds a pixel of a region.
fn add_rows<E: Catalogue>(
    alloc: Global,
    asking: &mut Asking,
    site: &Site<'_, E>,
    regions: &Regions,
    grid: Grid,
    clip: u32,
    m: u32,
    frame: i64,
    cut: Rect,
    needs: &mut Vec<Need>,
) -> Result<(), Memory>
    requires nodes { AreNodes (site_nodes E.meaning site.now) }
    requires table { IsTable (site_nodes E.meaning site.now) (length site.now.graph.now.nodes.items) regions.now }
    requires there { Has regions.now m frame }
    requires near { IsNear cut }
    requires some { is_empty cut ≡ false }
    ensures { let nodes = site_nodes E.meaning site.now in
        let shown = tile_needs (end_of nodes) (area nodes) clip m frame in
        OnOk result (map need_shown needs.new.items
        ≡ map need_shown needs.old.items ++ flat_map shown (tiles_of grid cut)) }
{
    let (left, right) = span(grid, cut.x1, cut.x2);
    let (bottom, top) = span(grid, cut.y1, cut.y2);
    for j in bottom..top {
        add_row(
            alloc, asking, site, regions, grid, clip, m, frame, j, left, right, needs,
        )?;
    }
    Ok(())
}

// Adds each tile of row j from column `left` up to column `right`.
fn add_row<E: Catalogue>(
    alloc: Global,
    asking: &mut Asking,
    site: &Site<'_, E>,
    regions: &Regions,
    grid: Grid,
    clip: u32,
    m: u32,
    frame: i64,
    j: i64,
    left: i64,
    right: i64,
    needs: &mut Vec<Need>,
) -> Result<(), Memory>
    requires nodes { AreNodes (site_nodes E.meaning site.now) }
    requires table { IsTable (site_nodes E.meaning site.now) (length site.now.graph.now.nodes.items) regions.now }
    requires there { Has regions.now m frame }
    requires j_low { negsuc 1073741823 ≤ℤ j }
    requires j_high { j ≤ℤ pos 1073741824 }
    requires left_low { negsuc 1073741823 ≤ℤ left }
    requires right_high { right ≤ℤ pos 1073741825 }
    ensures { let nodes = site_nodes E.meaning site.now in
        let shown = tile_needs (end_of nodes) (area nodes) clip m frame in
        OnOk result (map need_shown needs.new.items
        ≡ map need_shown needs.old.items ++ flat_map shown (tiles_between grid j left right)) }
{
    for i in left..right {
        add_tile(
            alloc,
            asking,
            site,
            regions,
            clip,
            m,
            frame,
            grid.tile(i, j),
            needs,
        )?;
    }
    Ok(())
}

// Adds a tile of a node at a frame.
fn add_tile<E: Catalogue>(
    alloc: Global,
    asking: &mut Asking,
    site: &Site<'_, E>,
    regions: &Regions,
    clip: u32,
    m: u32,
    frame: i64,
    tile: Rect,
    needs: &mut Vec<Need>,
) -> Result<(), Memory>
    requires nodes { AreNodes (site_nodes E.meaning site.now) }
    requires table { IsTable (site_nodes E.meaning site.now) (length site.now.graph.now.nodes.items) regions.now }
    requires there { Has regions.now m frame }
    ensures { let nodes = site_nodes E.meaning site.now in
        OnOk result (map need_shown needs.new.items ≡ map need_shown needs.old.items
        ++ tile_needs (end_of nodes) (area nodes) clip m frame tile) }
{
    let cut = tile.meet(regions.rod(m, frame));
    let end = find(alloc, asking, site, regions, m, frame, cut)?;
    add_need(needs, clip, frame, end)
}

// Adds a need, unless it is found nowhere.
fn add_need(needs: &mut Vec<Need>, clip: u32, frame: i64, end: End) -> Result<(), Memory>
    ensures { OnOk result (map need_shown needs.new.items
        ≡ map need_shown needs.old.items ++ needed clip frame (end_shown end)) }
{
    match end {
        End::Void => Ok(()),
        End::Frame { .. } => Ok(needs.push(Need { clip, frame, end })?),
        End::Render { .. } => Ok(needs.push(Need { clip, frame, end })?),
    }
}

// The columns or rows of tiles in which coordinates from low up to high lie: the first, and the one behind the last.
fn span(grid: Grid, low: i64, high: i64) -> (i64, i64)
    requires some { low <ℤ high }
    requires low { negsuc 1073741823 ≤ℤ low }
    requires high { high ≤ℤ pos 1073741824 }
    ensures first { result.0 ≡ tile_of grid low }
    ensures end { result.1 ≡ tile_of grid (high -ℤ pos 1) +ℤ pos 1 }
    ensures low { negsuc 1073741823 ≤ℤ result.0 }
    ensures high { result.1 ≤ℤ pos 1073741825 }
{
    let end = tile_of(grid, high - 1) + 1;
    (tile_of(grid, low), end)
}

// The column or row of tiles in which a coordinate lies.
fn tile_of(grid: Grid, x: i64) -> i64
    requires low { negsuc 1073741823 ≤ℤ x }
    requires high { x ≤ℤ pos 1073741824 }
    ensures value { result ≡ tile_of grid x }
    ensures low { negsuc 1073741823 ≤ℤ result }
    ensures high { result ≤ℤ pos 1073741824 }
{
    x.div_euclid(i64::from(grid.side))
}
