//! A render that is asked of a directory: it is kept there, or it is rendered here and landed.
ghost use Rattle.std.specs.Prelude.{◌≡◌, ◌≤◌, All, IfOk, IfSome, IsTrue, OnOk, sum_by};
ghost use Rattle.std.specs.Arc.{arc_value};
ghost use Rattle.fx_base.specs.declared.limits.TheConstants.{MOST_TILE_SIDE};
ghost use Rattle.fx_core.specs.Flight.{Stands};
ghost use Rattle.fx_scene.specs.Right.{IsTile};
ghost use Rattle.fx_scene.specs.Scripts.{IsRightFor};
ghost use Rattle.fx_scene.specs.Sites.{scene_nodes};
ghost use Rattle.fx_scene.specs.Scenes.{node_values};
ghost use Rattle.fx_tile.specs.Setups.{AreNeeds, AreTilesOf, IsFound, IsKeyOf, IsReady, IsRenderable, IsSeat, IsSetup, IsTileOf, MayBeTileOf, MayBeTilesOf, renders_needed, renders_of};
ghost use Rattle.fx_tile.specs.Counts.{AskedOnce, Fetched, Follows, Lands, Met, one_if_some};
ghost use Rattle.fx_tile.specs.Kept.{KeepsSeat, Loses, made_of, row_in, seat_in};

use crate::count::RenderCount;
use crate::kept::{ask, drop_flight, is_whole, land};
use crate::render::rendered;
use crate::setup::Setup;
use crate::share::TileSeat;
use fx_actions::Asking;
use fx_base::{Grid, Memory, Rect};
use fx_core::{Answer, Flight, Ticket};
use fx_effect::Catalogue;
use fx_image::Image;
use fx_region::{End, Need, demand_by};
use fx_scene::Key;
use fx_turn::Pause;
use std::alloc::Global;
use std::rt::Clock;
use std::sync::{Arc, Wait};

/// The image of a region of an effect's node at a frame: kept, or rendered here and landed. Waits while another
/// renders it.
#[cycle(fetching)]
pub(crate) fn fetch<R: Wait + Clock, E: Catalogue + Drop>(
    rt: &R,
    alloc: Global,
    setup: &Setup<'_, E>,
    seat: &mut TileSeat<E>,
    sum: &mut RenderCount,
    node: u32,
    frame: i64,
    region: Rect,
) -> Result<Arc<Image>, Memory>
    requires setup { IsSetup E.meaning E.number_of setup.now }
    requires seat { IsSeat setup.now seat.old }
    requires renderable { IsRenderable E.meaning setup.now node frame region }
    ensures tile { let nodes = scene_nodes E.meaning setup.now.scene.now in
        IfOk result (λ image. IsTile nodes node frame region (arc_value image)) }
    ensures seat { KeepsSeat seat.old seat.new }
    ensures fetched { let r = renders_needed E.meaning setup.now node frame region in
        OnOk result (Fetched r (made_of seat.old) (made_of seat.new)) }
    ensures follows { OnOk result
        (Follows sum.old sum.new (made_of seat.old) (made_of seat.new)) }
{
    let key = setup.scene.key(alloc, node, frame, region)?;
    let mut pause = Pause::new();
    for _ in rt.forever() {
        let key = Arc::try_clone(&key)?;
        match fetch_unless_busy(rt, alloc, setup, seat, sum, node, frame, region, key)? {
            Some(image) => return Ok(image),
            None => pause.wait(rt),
        }
    }
    unreachable!()
}

// The same, asked for once under its key. `None` comes where another renders it.
#[cycle(fetching)]
fn fetch_unless_busy<R: Wait + Clock, E: Catalogue + Drop>(
    rt: &R,
    alloc: Global,
    setup: &Setup<'_, E>,
    seat: &mut TileSeat<E>,
    sum: &mut RenderCount,
    node: u32,
    frame: i64,
    region: Rect,
    key: Arc<Key>,
) -> Result<Option<Arc<Image>>, Memory>
    requires setup { IsSetup E.meaning E.number_of setup.now }
    requires seat { IsSeat setup.now seat.old }
    requires renderable { IsRenderable E.meaning setup.now node frame region }
    requires key { IsKeyOf setup.now.scene.now node frame region (arc_value key) }
    ensures tile { let nodes = scene_nodes E.meaning setup.now.scene.now in
        IfOk result (λ found. IfSome found (λ image. IsTile nodes node frame region (arc_value image))) }
    ensures seat { KeepsSeat seat.old seat.new }
    ensures asked { let r = renders_needed E.meaning setup.now node frame region in
        IfOk result (λ found. AskedOnce found r (made_of seat.old) (made_of seat.new)) }
    ensures follows { OnOk result
        (Follows sum.old sum.new (made_of seat.old) (made_of seat.new)) }
{
    let whole = is_whole(setup, node);
    match ask(rt, alloc, setup.shared, seat, whole, key)? {
        Answer::Here(image) => {
            sum.add_hit()?;
            Ok(Some(image))
        }
        Answer::Busy => Ok(None),
        Answer::Fly(flight) => {
            let image = made(
                rt, alloc, setup, seat, sum, whole, node, frame, region, flight,
            )?;
            Ok(Some(image))
        }
    }
}

// Renders under a flight and lands it. Where memory is wanting the flight is dropped.
#[cycle(fetching)]
fn made<R: Wait + Clock, E: Catalogue + Drop>(
    rt: &R,
    alloc: Global,
    setup: &Setup<'_, E>,
    seat: &mut TileSeat<E>,
    sum: &mut RenderCount,
    whole: bool,
    node: u32,
    frame: i64,
    region: Rect,
    flight: Flight<Key>,
) -> Result<Arc<Image>, Memory>
    requires setup { IsSetup E.meaning E.number_of setup.now }
    requires seat { IsSeat setup.now seat.old }
    requires renderable { IsRenderable E.meaning setup.now node frame region }
    requires key { IsKeyOf setup.now.scene.now node frame region (arc_value flight.key) }
    requires own { Stands (seat_in whole seat.old).aloft flight }
    ensures tile { let nodes = scene_nodes E.meaning setup.now.scene.now in
        IfOk result (λ image. IsTile nodes node frame region (arc_value image)) }
    ensures loses { Loses whole flight seat.old seat.new }
    ensures fetched { let r = renders_needed E.meaning setup.now node frame region in
        OnOk result (Fetched r (made_of seat.old) (made_of seat.new)) }
    ensures follows { OnOk result
        (Follows sum.old sum.new (made_of seat.old) (made_of seat.new)) }
{
    let mut flight = flight;
    match image_of(
        rt,
        alloc,
        setup,
        seat,
        sum,
        node,
        frame,
        region,
        &mut flight.ticket,
    ) {
        Ok(image) => landed(rt, alloc, setup, seat, sum, whole, flight, image),
        Err(memory) => {
            drop_flight(rt, setup.shared, seat, whole, flight);
            Err(memory)
        }
    }
}

// Lands an image, which is handed back too. Where memory is wanting the flight is dropped.
fn landed<R: Wait + Clock, E: Catalogue + Drop>(
    rt: &R,
    alloc: Global,
    setup: &Setup<'_, E>,
    seat: &mut TileSeat<E>,
    sum: &mut RenderCount,
    whole: bool,
    flight: Flight<Key>,
    image: Arc<Image>,
) -> Result<Arc<Image>, Memory>
    requires seat { IsSeat setup.now seat.old }
    requires own { Stands (seat_in whole seat.old).aloft flight }
    requires stamped { IsTrue flight.ticket.stamped }
    requires right { let scene = (row_in whole setup.now.shared.now).name.scene.value in
        IsRightFor E.meaning scene (arc_value flight.key) (arc_value image) }
    ensures same { IfOk result (λ tile. arc_value tile ≡ arc_value image) }
    ensures loses { Loses whole flight seat.old seat.new }
    ensures landed { OnOk result (Lands (made_of seat.old) (made_of seat.new)) }
    ensures follows { OnOk result
        (Follows sum.old sum.new (made_of seat.old) (made_of seat.new)) }
{
    let shared = setup.shared;
    let Ok(kept) = Arc::try_clone(&image) else {
        drop_flight(rt, shared, seat, whole, flight);
        return Err(Memory);
    };
    match land(rt, alloc, shared, seat, whole, flight, kept) {
        Ok(()) => {
            sum.add_landed()?;
            Ok(image)
        }
        Err((flight, _, memory)) => {
            drop_flight(rt, shared, seat, whole, flight);
            Err(memory)
        }
    }
}

// The image, rendered under a ticket once what it needs is there.
#[cycle(fetching)]
fn image_of<R: Wait + Clock, E: Catalogue + Drop>(
    rt: &R,
    alloc: Global,
    setup: &Setup<'_, E>,
    seat: &mut TileSeat<E>,
    sum: &mut RenderCount,
    node: u32,
    frame: i64,
    region: Rect,
    ticket: &mut Ticket,
) -> Result<Arc<Image>, Memory>
    requires setup { IsSetup E.meaning E.number_of setup.now }
    requires seat { IsSeat setup.now seat.old }
    requires renderable { IsRenderable E.meaning setup.now node frame region }
    ensures tile { let nodes = scene_nodes E.meaning setup.now.scene.now in
        IfOk result (λ image. IsTile nodes node frame region (arc_value image)) }
    ensures seat { KeepsSeat seat.old seat.new }
    ensures met { let r = renders_needed E.meaning setup.now node frame region in
        OnOk result (Met r (made_of seat.old) (made_of seat.new)) }
    ensures follows { OnOk result
        (Follows sum.old sum.new (made_of seat.old) (made_of seat.new)) }
    ensures number { ticket.new.number ≡ ticket.old.number }
    ensures stamped { OnOk result (IsTrue ticket.new.stamped) }
{
    let needs = needs_of(alloc, &mut seat.asking, setup, node, frame, region)?;
    let tiles = gathered(rt, alloc, setup, seat, sum, node, needs.as_slice())?;
    rendered(
        rt,
        alloc,
        setup,
        &mut seat.gates,
        node,
        frame,
        region,
        needs.as_slice(),
        tiles.as_slice(),
        ticket,
    )
}

fn needs_of<E: Catalogue>(
    alloc: Global,
    asking: &mut Asking,
    setup: &Setup<'_, E>,
    node: u32,
    frame: i64,
    region: Rect,
) -> Result<Vec<Need>, Memory>
    requires setup { IsSetup E.meaning E.number_of setup.now }
    requires renderable { IsRenderable E.meaning setup.now node frame region }
    ensures needs { IfOk result (λ needs. AreNeeds E.meaning setup.now node frame region needs.items) }
    ensures ready { IfOk result (λ needs. All (λ need. IsReady E.meaning setup.now node need.end) needs.items) }
    ensures renders { let needed = renders_needed E.meaning setup.now node frame region in
        IfOk result (λ needs. renders_of needs.items ≡ needed) }
{
    let grid = with_side(setup.shared.grid);
    let needs = demand_by(
        alloc,
        asking,
        setup.scene,
        setup.regions,
        node,
        frame,
        region,
        grid,
    )?;
    Ok(needs)
}

// The grid, whose side has from 1 to 1,024 pixels.
fn with_side(grid: Grid) -> Grid
    ensures same { result ≡ grid }
    ensures some { 1 ≤ grid }
    ensures few { grid ≤ MOST_TILE_SIDE }
{
    grid
}

// An image for each need that is a render. Those that others render are waited for once the rest is there, so that
// workers with the same needs render one each.
#[cycle(fetching)]
fn gathered<R: Wait + Clock, E: Catalogue + Drop>(
    rt: &R,
    alloc: Global,
    setup: &Setup<'_, E>,
    seat: &mut TileSeat<E>,
    sum: &mut RenderCount,
    node: u32,
    needs: &[Need],
) -> Result<Vec<Option<Arc<Image>>>, Memory>
    requires setup { IsSetup E.meaning E.number_of setup.now }
    requires seat { IsSeat setup.now seat.old }
    requires ready { All (λ need. IsReady E.meaning setup.now node need.end) needs.now }
    ensures tiles { let nodes = scene_nodes E.meaning setup.now.scene.now in
        IfOk result (λ tiles. AreTilesOf nodes needs.now tiles.items) }
    ensures seat { KeepsSeat seat.old seat.new }
    ensures met { OnOk result
        (Met (renders_of needs.now) (made_of seat.old) (made_of seat.new)) }
    ensures follows { OnOk result
        (Follows sum.old sum.new (made_of seat.old) (made_of seat.new)) }
{
    let mut early = gathered_unless_busy(rt, alloc, setup, seat, sum, node, needs)?;
    let mut tiles = Vec::new(alloc);
    for i in 0..needs.len() {
        let tile = match early[i].take() {
            Some(tile) => Some(tile),
            None => tile_for(rt, alloc, setup, seat, sum, node, &needs[i].end)?,
        };
        tiles.push(tile)?;
    }
    Ok(tiles)
}

// The same, where no other renders them.
#[cycle(fetching)]
fn gathered_unless_busy<R: Wait + Clock, E: Catalogue + Drop>(
    rt: &R,
    alloc: Global,
    setup: &Setup<'_, E>,
    seat: &mut TileSeat<E>,
    sum: &mut RenderCount,
    node: u32,
    needs: &[Need],
) -> Result<Vec<Option<Arc<Image>>>, Memory>
    requires setup { IsSetup E.meaning E.number_of setup.now }
    requires seat { IsSeat setup.now seat.old }
    requires ready { All (λ need. IsReady E.meaning setup.now node need.end) needs.now }
    ensures tiles { let nodes = scene_nodes E.meaning setup.now.scene.now in
        IfOk result (λ tiles. MayBeTilesOf nodes needs.now tiles.items) }
    ensures seat { KeepsSeat seat.old seat.new }
    ensures met { IfOk result (λ tiles.
        Met (sum_by one_if_some tiles.items) (made_of seat.old) (made_of seat.new)) }
    ensures follows { OnOk result
        (Follows sum.old sum.new (made_of seat.old) (made_of seat.new)) }
{
    let mut tiles = Vec::new(alloc);
    for need in needs {
        let tile = tile_unless_busy(rt, alloc, setup, seat, sum, node, &need.end)?;
        tiles.push(tile)?;
    }
    Ok(tiles)
}

// The image of an end that is a render, where no other renders it.
#[cycle(fetching)]
fn tile_unless_busy<R: Wait + Clock, E: Catalogue + Drop>(
    rt: &R,
    alloc: Global,
    setup: &Setup<'_, E>,
    seat: &mut TileSeat<E>,
    sum: &mut RenderCount,
    node: u32,
    end: &End,
) -> Result<Option<Arc<Image>>, Memory>
    requires setup { IsSetup E.meaning E.number_of setup.now }
    requires seat { IsSeat setup.now seat.old }
    requires ready { IsReady E.meaning setup.now node end.now }
    ensures tile { let nodes = scene_nodes E.meaning setup.now.scene.now in
        IfOk result (MayBeTileOf nodes end.now) }
    ensures seat { KeepsSeat seat.old seat.new }
    ensures met { IfOk result (λ tile.
        Met (one_if_some tile) (made_of seat.old) (made_of seat.new)) }
    ensures follows { OnOk result
        (Follows sum.old sum.new (made_of seat.old) (made_of seat.new)) }
{
    match end {
        End::Void | End::Frame { .. } => Ok(None),
        End::Render {
            node: m,
            frame,
            region,
            cut: _,
            through: _,
        } => {
            let key = setup.scene.key(alloc, *m, *frame, *region)?;
            fetch_unless_busy(rt, alloc, setup, seat, sum, *m, *frame, *region, key)
        }
    }
}

/// The image of an end that is a render, of a node before this one.
#[cycle(fetching)]
pub(crate) fn tile_for<R: Wait + Clock, E: Catalogue + Drop>(
    rt: &R,
    alloc: Global,
    setup: &Setup<'_, E>,
    seat: &mut TileSeat<E>,
    sum: &mut RenderCount,
    node: u32,
    end: &End,
) -> Result<Option<Arc<Image>>, Memory>
    requires setup { IsSetup E.meaning E.number_of setup.now }
    requires seat { IsSeat setup.now seat.old }
    requires ready { IsReady E.meaning setup.now node end.now }
    ensures tile { let nodes = scene_nodes E.meaning setup.now.scene.now in
        IfOk result (IsTileOf nodes end.now) }
    ensures seat { KeepsSeat seat.old seat.new }
    ensures found { OnOk result (IsFound E.meaning setup.now end.now (made_of seat.old) (made_of seat.new)) }
    ensures follows { OnOk result
        (Follows sum.old sum.new (made_of seat.old) (made_of seat.new)) }
{
    match end {
        End::Void | End::Frame { .. } => Ok(None),
        End::Render {
            node: m,
            frame,
            region,
            cut: _,
            through: _,
        } => match fetch(rt, alloc, setup, seat, sum, *m, *frame, *region) {
            Ok(tile) => Ok(Some(tile)),
            Err(memory) => Err(memory),
        },
    }
}
