//! Where a tile of the picture of a frame is found.
ghost use Rattle.std.specs.Prelude.{◌≡◌, ◌+◌, ◌<◌, ◌≤◌, IfOk};
ghost use Rattle.fx_base.specs.declared.limits.TheConstants.{MOST_NODES};
ghost use Rattle.fx_region.specs.Ends.{end_of, end_shown};
ghost use Rattle.fx_region.specs.Tables.{Has};
ghost use Rattle.fx_scene.specs.Sites.{scene_nodes};
ghost use Rattle.fx_tile.specs.Counts.{CountsEnd, CountsRises};
ghost use Rattle.fx_tile.specs.Kept.{KeepsSeat, made_of};
ghost use Rattle.fx_tile.specs.Moments.{IsFoundTile};
ghost use Rattle.fx_tile.specs.Setups.{IsReady, IsSeat, IsSetup, IsTileOf, end_renders};
ghost use Rattle.fx_tile.specs.Tiles.{IsRegion};

use crate::count::{RenderCount, TileCount};
use crate::setup::Setup;
use crate::share::TileSeat;
use crate::tile::tile_for;
use fx_base::{Memory, Rect};
use fx_effect::Catalogue;
use fx_image::Image;
use fx_region::{End, Need, follow_by};
use std::alloc::Global;
use std::rt::Clock;
use std::sync::{Arc, Wait};

/// Where a tile of the picture is found, as the need of a clip that shows it, the image of its render where it is one,
/// and what became of it. No pixel of the picture is written yet.
#[derive(Drop)]
pub(crate) struct FoundTile {
    pub tile: Rect,
    pub need: Need,
    pub image: Option<Arc<Image>>,
    pub count: TileCount,
}

/// Finds a tile of the picture of a frame at which the regions are those of the output's node: what is to be rendered
/// for it is asked of the directories.
pub(crate) fn found_tile<R: Wait + Clock, E: Catalogue + Drop>(
    rt: &R,
    alloc: Global,
    setup: &Setup<'_, E>,
    seat: &mut TileSeat<E>,
    frame: i64,
    tile: Rect,
) -> Result<FoundTile, Memory>
    requires setup { IsSetup E.meaning E.number_of setup.now }
    requires reached { Has setup.now.regions.now setup.now.scene.now.graph.output frame }
    requires seat { IsSeat setup.now seat.old }
    requires region { IsRegion tile }
    ensures tile { IfOk result (λ found. found.tile ≡ tile) }
    ensures found { IfOk result (IsFoundTile E.meaning setup.now frame) }
    ensures rises { let nodes = scene_nodes E.meaning setup.now.scene.now in
        let end = end_of nodes setup.now.scene.now.graph.output frame tile in
        let r = end_renders nodes setup.now.shared.now.grid end in
        IfOk result (λ found. CountsRises r (made_of seat.old) (made_of seat.new) found.count) }
    ensures seat { KeepsSeat seat.old seat.new }
{
    let output = setup.graph.output;
    let end = follow_by(
        alloc,
        &mut seat.asking,
        setup.scene,
        setup.regions,
        output,
        frame,
        tile,
    )?;
    at_end(rt, alloc, setup, seat, frame, tile, end)
}

// A tile that is found at this end.
fn at_end<R: Wait + Clock, E: Catalogue + Drop>(
    rt: &R,
    alloc: Global,
    setup: &Setup<'_, E>,
    seat: &mut TileSeat<E>,
    frame: i64,
    tile: Rect,
    end: End,
) -> Result<FoundTile, Memory>
    requires setup { IsSetup E.meaning E.number_of setup.now }
    requires seat { IsSeat setup.now seat.old }
    requires few { setup.now.graph.now.output < MOST_NODES }
    requires ready { IsReady E.meaning setup.now (setup.now.graph.now.output + 1) end }
    ensures tile { IfOk result (λ found. found.tile ≡ tile) }
    ensures need { IfOk result (λ found. found.need ≡ record { clip = 0; frame = frame; end = end }) }
    ensures image { let nodes = scene_nodes E.meaning setup.now.scene.now in
        IfOk result (λ found. IsTileOf nodes end found.image) }
    ensures count { IfOk result (λ found. CountsEnd (end_shown end) found.count) }
    ensures rises { let nodes = scene_nodes E.meaning setup.now.scene.now in
        let r = end_renders nodes setup.now.shared.now.grid (end_shown end) in
        IfOk result (λ found. CountsRises r (made_of seat.old) (made_of seat.new) found.count) }
    ensures seat { KeepsSeat seat.old seat.new }
{
    let mut sum = RenderCount { landed: 0, hits: 0 };
    let next = setup.graph.output + 1;
    let image = tile_for(rt, alloc, setup, seat, &mut sum, next, &end)?;
    let count = count_of(&end, sum);
    let need = Need {
        clip: 0,
        frame,
        end,
    };
    Ok(FoundTile {
        tile,
        need,
        image,
        count,
    })
}

// What became of a tile that is found so, with what was counted for it.
fn count_of(end: &End, sum: RenderCount) -> TileCount
    ensures end { CountsEnd (end_shown end.now) result }
    ensures landed { result.landed ≡ sum.landed }
    ensures hits { result.hits ≡ sum.hits }
{
    let none = TileCount {
        void_tiles: 0,
        passed: 0,
        asked: 0,
        landed: sum.landed,
        hits: sum.hits,
    };
    match end {
        End::Void => TileCount {
            void_tiles: 1,
            ..none
        },
        End::Frame { .. } => TileCount { passed: 1, ..none },
        End::Render { .. } => TileCount { asked: 1, ..none },
    }
}
