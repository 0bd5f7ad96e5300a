//! The tiles of a frame as a job for workers.
use crate::found::{FoundTile, found_tile};
use crate::setup::Setup;
use crate::share::TileSeat;
use fx_base::{Memory, Rect};
use fx_effect::Catalogue;
use fx_pool::Job;
use std::alloc::Global;
use std::rt::Clock;
use std::sync::Wait;

/// The window tiles of the picture of a frame, each of which is found by whoever draws its number.
#[derive(Drop)]
pub(crate) struct TileJob<'a, E: Catalogue> {
    pub setup: &'a Setup<'a, E>,
    pub frame: i64,
    pub tiles: &'a [Rect],
}

impl<E: Catalogue + Send + Sync + Drop> Job for TileJob<'_, E> {
    ghost use Rattle.fx_tile.specs.Moments.{IsDrawn, IsFree, MayDraw, count_weight, seat_weight};

    type Seat = TileSeat<E>;

    type Out = FoundTile;

    ghost fits = { λ job seat. IsFree job.setup.now.shared.now seat };

    ghost takes = { λ job index. MayDraw E.meaning E.number_of job index };

    ghost right = { λ job index out. IsDrawn E.meaning job index out };

    ghost weight = { λ seat. seat_weight seat };

    ghost out_weight = { λ out. count_weight out.count };

    fn turn<R: Wait + Clock>(
        &self,
        rt: &R,
        alloc: Global,
        seat: &mut TileSeat<E>,
        index: u64,
    ) -> Result<FoundTile, Memory> {
        self.draw(rt, alloc, seat, index)
    }
}

impl<E: Catalogue + Drop> TileJob<'_, E> {
    ghost use Rattle.std.specs.Prelude.{◌≡◌, IfOk};
    ghost use Rattle.fx_pool.specs.Weights.{plus};
    ghost use Rattle.fx_tile.specs.Moments.{IsDrawn, IsFree, MayDraw, count_weight, seat_weight};

    // Finds the tile of a number.
    fn draw<R: Wait + Clock>(
        &self,
        rt: &R,
        alloc: Global,
        seat: &mut TileSeat<E>,
        index: u64,
    ) -> Result<FoundTile, Memory>
        requires may { MayDraw E.meaning E.number_of self.now index }
        requires free { IsFree self.now.setup.now.shared.now seat.old }
        ensures drawn { IfOk result (IsDrawn E.meaning self.now index) }
        ensures free { IsFree self.now.setup.now.shared.now seat.new }
        ensures rises { IfOk result (λ out.
            seat_weight seat.new ≡ plus (seat_weight seat.old) (count_weight out.count)) }
    {
        let tile = self.tiles[index as usize];
        let found = found_tile(rt, alloc, self.setup, seat, self.frame, tile);
        seat.directory.finds_none();
        seat.wholes.finds_none();
        found
    }
}
