//! The bands of the picture of a frame, batch by batch: workers find the tiles of a batch one by one, and then write its
//! bands one by one. So the tiles of all of a large frame need not be held at once.
ghost use Rattle.std.specs.Prelude.{◌≡◌, ◌↔◌, ◌<◌, ◌≤◌, ◌+◌, ◌*◌, ◌++◌, ◌^◌, All, IfErr, IfOk, IfSome, IsSome, drop, length, map, min, take, vec_len};
ghost use Rattle.fx_pool.specs.Weights.{plus, weigh};
ghost use Rattle.fx_region.specs.Ends.{end_of};
ghost use Rattle.fx_scene.specs.Sites.{scene_nodes};
ghost use Rattle.fx_tile.specs.Counts.{CanCount, both_counts};
ghost use Rattle.fx_tile.specs.Moments.{AreBandsOf, AreTilesAt, AreWorkers, ComeBack, CountsTiles, IsFoundTile, ShowEach, count_of_all, count_weight, job_picture, picture_at, rects_of, seat_weight};

use crate::bands::BandJob;
use crate::count::TileCount;
use crate::found::FoundTile;
use crate::job::TileJob;
use crate::setup::Setup;
use crate::share::TileSeat;
use fx_base::{Memory, Rect};
use fx_effect::Catalogue;
use fx_image::{Image, Layout};
use fx_outside::Pace;
use fx_pool::{Worked, WorkedItems, work, work_items};
use std::alloc::Global;
use std::mem;
use std::rt::Clock;
use std::sync::Wait;
use std::thread::Threads;

// How many bytes of bands are drawn at once, where one band has no more.
const BATCH_BYTES: u64 = 16_777_216;

/// How many bands of a picture are drawn at once.
pub(crate) fn batch_of(layout: &Layout) -> usize
    ensures { 0 < result }
{
    let band_bytes = layout.row_bytes as u64 * layout.band_rows as u64;
    (BATCH_BYTES / band_bytes.max(1)).max(1) as usize
}

/// Bands that were drawn, what became of their tiles together, and the seats of those who drew them.
#[derive(Drop)]
pub(crate) struct Drawn<E: Catalogue> {
    pub bands: Vec<Image>,
    pub count: TileCount,
    pub seats: Vec<TileSeat<E>>,
}

/// Draws the bands of the picture of a frame, at most so many at once, by one worker for each seat: workers find the
/// window tiles of these bands, so many to each, in one draw a tile, and then write the bands, in one draw a band. The
/// seats come back so, as many, at `Memory` too.
pub(crate) fn draw_bands<
    R: Threads + Wait + Clock + Sync,
    E: Catalogue + Send + Sync + Drop,
    P: Pace,
>(
    rt: &R,
    alloc: Global,
    pace: &P,
    setup: &Setup<'_, E>,
    frame: i64,
    tiles: &[Rect],
    columns: usize,
    batch: usize,
    bands: Vec<Image>,
    seats: Vec<TileSeat<E>>,
) -> Result<Drawn<E>, (Vec<TileSeat<E>>, Memory)>
    requires tiles { AreTilesAt E.meaning E.number_of setup.now frame tiles.now }
    requires some { 0 < batch }
    requires bands { AreBandsOf setup.now.scene.now.graph columns tiles.now bands.items }
    requires few_bands { vec_len bands ≤ 2 ^ 32 }
    requires workers { AreWorkers setup.now.shared.now seats }
    ensures all { IfOk result (λ r. vec_len r.bands ≡ vec_len bands) }
    ensures show { let picture = picture_at E.meaning setup.now frame in
        IfOk result (λ r. ShowEach picture bands.items r.bands.items) }
    ensures count { let nodes = scene_nodes E.meaning setup.now.scene.now in
        let ends = map (end_of nodes setup.now.scene.now.graph.output frame) tiles.now in
        IfOk result (λ r. CountsTiles nodes setup.now.shared.now.grid ends r.count) }
    ensures rises { IfOk result (λ r.
        weigh seat_weight r.seats.items ≡ plus (weigh seat_weight seats.items) (count_weight r.count)) }
    ensures seats { IfOk result (λ r. ComeBack setup.now.shared.now seats r.seats) }
    ensures back { IfErr result (λ r. ComeBack setup.now.shared.now seats r.0) }
{
    let mut left = bands;
    let mut drawn = Drawn {
        bands: Vec::new(alloc),
        count: TileCount::none(),
        seats,
    };
    'batches: while !left.is_empty() {
        let Drawn {
            bands: done,
            count,
            seats,
        } = drawn;
        let next = match first_of(&mut left, batch) {
            Ok(next) => next,
            Err(memory) => return Err((seats, memory)),
        };
        let own = tiles_behind(tiles, columns, done.len(), next.len());
        let more = draw_batch(rt, alloc, pace, setup, frame, own, columns, next, seats)?;
        drawn = together(done, count, more)?;
    }
    Ok(drawn)
}

// The first bands, so many where there are as many. The others are left.
fn first_of(bands: &mut Vec<Image>, count: usize) -> Result<Vec<Image>, Memory>
    ensures many { IfOk result (λ first. vec_len first ≡ min count (vec_len bands.old)) }
    ensures first { IfOk result (λ first. first.items ≡ take (vec_len first) bands.old.items) }
    ensures left { IfOk result (λ first. bands.new.items ≡ drop (vec_len first) bands.old.items) }
    ensures all { IfOk result (λ first. vec_len first + vec_len bands.new ≡ vec_len bands.old) }
{
    let rest = bands.split_off(count.min(bands.len()))?;
    Ok(mem::replace(bands, rest))
}

// The tiles of so many bands behind the first ones.
fn tiles_behind(tiles: &[Rect], columns: usize, first: usize, count: usize) -> &[Rect]
    requires { first * columns + count * columns ≤ length tiles.now }
    ensures { result.now ≡ take (count * columns) (drop (first * columns) tiles.now) }
{
    let start = first * columns;
    &tiles[start..start + count * columns]
}

// Bands that were drawn with their count, and a batch more.
fn together<E: Catalogue>(
    mut bands: Vec<Image>,
    count: TileCount,
    more: Drawn<E>,
) -> Result<Drawn<E>, (Vec<TileSeat<E>>, Memory)>
    ensures bands { IfOk result (λ r. r.bands.items ≡ bands.items ++ more.bands.items) }
    ensures many { IfOk result (λ r. vec_len r.bands ≡ vec_len bands + vec_len more.bands) }
    ensures count { IfOk result (λ r. r.count ≡ both_counts count more.count) }
    ensures seats { IfOk result (λ r. r.seats ≡ more.seats) }
    ensures back { IfErr result (λ r. r.0 ≡ more.seats) }
{
    let Drawn {
        bands: mut next,
        count: other,
        seats,
    } = more;
    let Some(count) = count.plus(other) else {
        return Err((seats, Memory));
    };
    match bands.append(&mut next) {
        Ok(()) => Ok(Drawn {
            bands,
            count,
            seats,
        }),
        Err(_) => Err((seats, Memory)),
    }
}

// Draws these bands of a frame, which have these tiles.
fn draw_batch<R: Threads + Wait + Clock + Sync, E: Catalogue + Send + Sync + Drop, P: Pace>(
    rt: &R,
    alloc: Global,
    pace: &P,
    setup: &Setup<'_, E>,
    frame: i64,
    tiles: &[Rect],
    columns: usize,
    bands: Vec<Image>,
    seats: Vec<TileSeat<E>>,
) -> Result<Drawn<E>, (Vec<TileSeat<E>>, Memory)>
    requires tiles { AreTilesAt E.meaning E.number_of setup.now frame tiles.now }
    requires bands { AreBandsOf setup.now.scene.now.graph columns tiles.now bands.items }
    requires few_bands { vec_len bands ≤ 2 ^ 32 }
    requires workers { AreWorkers setup.now.shared.now seats }
    ensures all { IfOk result (λ r. vec_len r.bands ≡ vec_len bands) }
    ensures show { let picture = picture_at E.meaning setup.now frame in
        IfOk result (λ r. ShowEach picture bands.items r.bands.items) }
    ensures count { let nodes = scene_nodes E.meaning setup.now.scene.now in
        let ends = map (end_of nodes setup.now.scene.now.graph.output frame) tiles.now in
        IfOk result (λ r. CountsTiles nodes setup.now.shared.now.grid ends r.count) }
    ensures rises { IfOk result (λ r.
        weigh seat_weight r.seats.items ≡ plus (weigh seat_weight seats.items) (count_weight r.count)) }
    ensures seats { IfOk result (λ r. ComeBack setup.now.shared.now seats r.seats) }
    ensures back { IfErr result (λ r. ComeBack setup.now.shared.now seats r.0) }
{
    let all = find_all(rt, alloc, pace, setup, frame, tiles, seats)?;
    let Found {
        tiles: found,
        count,
        seats,
    } = all;
    let job = BandJob {
        setup,
        frame,
        found: found.as_slice(),
        columns,
    };
    let (bands, seats) = write_all(rt, alloc, pace, &job, bands, seats)?;
    Ok(Drawn {
        bands,
        count,
        seats,
    })
}

// The window tiles of a frame as they were found, what became of them together, and the seats of those who found them.
#[derive(Drop)]
struct Found<E: Catalogue> {
    tiles: Vec<(u64, FoundTile)>,
    count: TileCount,
    seats: Vec<TileSeat<E>>,
}

// Finds the window tiles of a frame.
fn find_all<R: Threads + Wait + Clock + Sync, E: Catalogue + Send + Sync + Drop, P: Pace>(
    rt: &R,
    alloc: Global,
    pace: &P,
    setup: &Setup<'_, E>,
    frame: i64,
    tiles: &[Rect],
    seats: Vec<TileSeat<E>>,
) -> Result<Found<E>, (Vec<TileSeat<E>>, Memory)>
    requires tiles { AreTilesAt E.meaning E.number_of setup.now frame tiles.now }
    requires workers { AreWorkers setup.now.shared.now seats }
    ensures tiles { IfOk result (λ r. rects_of r.tiles.items ≡ tiles.now) }
    ensures found { IfOk result (λ r. All (λ f. IsFoundTile E.meaning setup.now frame f.1) r.tiles.items) }
    ensures count { let nodes = scene_nodes E.meaning setup.now.scene.now in
        let ends = map (end_of nodes setup.now.scene.now.graph.output frame) tiles.now in
        IfOk result (λ r. CountsTiles nodes setup.now.shared.now.grid ends r.count) }
    ensures rises { IfOk result (λ r.
        weigh seat_weight r.seats.items ≡ plus (weigh seat_weight seats.items) (count_weight r.count)) }
    ensures seats { IfOk result (λ r. ComeBack setup.now.shared.now seats r.seats) }
    ensures back { IfErr result (λ r. ComeBack setup.now.shared.now seats r.0) }
{
    let job = TileJob {
        setup,
        frame,
        tiles,
    };
    let Worked { seats, outs: tiles } = work(rt, alloc, pace, tiles.len() as u64, seats, &job)?;
    match count_all(&tiles) {
        Some(count) => Ok(Found {
            tiles,
            count,
            seats,
        }),
        None => Err((seats, Memory)),
    }
}

// The counts of all tiles together, where no sum is past the greatest number.
fn count_all(tiles: &[(u64, FoundTile)]) -> Option<TileCount>
    ensures some { IsSome result ↔ CanCount (count_of_all tiles.now) }
    ensures sum { IfSome result (λ sum. sum ≡ count_of_all tiles.now) }
{
    let mut sum = TileCount::none();
    for (_, found) in tiles {
        sum = sum.plus(found.count)?;
    }
    Some(sum)
}

// Writes these bands of the picture of a frame.
fn write_all<R: Threads + Wait + Clock + Sync, E: Catalogue + Send + Sync + Drop, P: Pace>(
    rt: &R,
    alloc: Global,
    pace: &P,
    job: &BandJob<'_, E>,
    bands: Vec<Image>,
    seats: Vec<TileSeat<E>>,
) -> Result<(Vec<Image>, Vec<TileSeat<E>>), (Vec<TileSeat<E>>, Memory)>
    requires found { let setup = job.now.setup.now in
        All (λ f. IsFoundTile E.meaning setup job.now.frame f.1) job.now.found.now }
    requires bands { let graph = job.now.setup.now.scene.now.graph in
        AreBandsOf graph job.now.columns (rects_of job.now.found.now) bands.items }
    requires few { vec_len bands ≤ 2 ^ 32 }
    requires workers { AreWorkers job.now.setup.now.shared.now seats }
    ensures all { IfOk result (λ r. vec_len r.0 ≡ vec_len bands) }
    ensures show { IfOk result (λ r. ShowEach (job_picture E.meaning job.now) bands.items r.0.items) }
    ensures rises { IfOk result (λ r. weigh seat_weight r.1.items ≡ weigh seat_weight seats.items) }
    ensures seats { IfOk result (λ r. ComeBack job.now.setup.now.shared.now seats r.1) }
    ensures back { IfErr result (λ r. ComeBack job.now.setup.now.shared.now seats r.0) }
{
    let WorkedItems {
        seats,
        items,
        outs: _,
    } = work_items(rt, alloc, pace, bands, seats, job)?;
    Ok((items, seats))
}
