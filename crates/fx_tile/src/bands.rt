//! The bands of a frame as a job for workers.
use crate::found::FoundTile;
use crate::setup::Setup;
use crate::share::TileSeat;
use crate::window::show;
use fx_base::Memory;
use fx_effect::Catalogue;
use fx_image::Image;
use fx_pool::ItemJob;
use std::alloc::Global;
use std::rt::Clock;
use std::sync::Wait;

/// The bands of the picture of a frame whose tiles were found, so many to each band. Whoever takes a band writes the
/// rows of its tiles into it.
#[derive(Drop)]
pub(crate) struct BandJob<'a, E: Catalogue> {
    pub setup: &'a Setup<'a, E>,
    pub frame: i64,
    pub found: &'a [(u64, FoundTile)],
    pub columns: usize,
}

impl<E: Catalogue + Send + Sync + Drop> ItemJob<Image> for BandJob<'_, E> {
    ghost use Rattle.fx_tile.specs.Moments.{IsFree, MayWrite, ShowsPicture, job_picture, seat_weight};

    type Seat = TileSeat<E>;

    type Out = ();

    ghost fits = { λ job seat. IsFree job.setup.now.shared.now seat };

    ghost takes = { λ job index band. MayWrite E.meaning job index band };

    ghost right = { λ job index before after out. ShowsPicture (job_picture E.meaning job) before after };

    ghost weight = { λ seat. seat_weight seat };

    ghost out_weight = { λ out. (0, 0) };

    fn turn<R: Wait + Clock>(
        &self,
        _rt: &R,
        alloc: Global,
        _seat: &mut TileSeat<E>,
        index: u64,
        band: &mut Image,
    ) -> Result<(), Memory> {
        self.write(alloc, index as usize, band)
    }
}

impl<E: Catalogue> BandJob<'_, E> {
    ghost use Rattle.std.specs.Prelude.{◌≡◌, All, OnOk};
    ghost use Rattle.fx_image.specs.Stored.{SameFrame};
    ghost use Rattle.fx_tile.specs.Moments.{Cover, IsBand, IsFoundTile, MayWrite, ShowsPicture, ShowsTiles, WritesTile, job_picture, rects_of};

    // Writes the band with this index.
    fn write(&self, alloc: Global, index: usize, band: &mut Image) -> Result<(), Memory>
        requires { MayWrite E.meaning self.now index band.old }
        ensures { OnOk result (ShowsPicture (job_picture E.meaning self.now) band.old band.new) }
    {
        let first = index * self.columns;
        let tiles = &self.found[first..first + self.columns];
        self.write_tiles(alloc, tiles, band)
    }

    // Writes as much of these tiles as lies in the band.
    fn write_tiles(
        &self,
        alloc: Global,
        tiles: &[(u64, FoundTile)],
        band: &mut Image,
    ) -> Result<(), Memory>
        requires found { All (λ f. IsFoundTile E.meaning self.now.setup.now self.now.frame f.1) tiles.now }
        requires band { IsBand self.now.setup.now.scene.now.graph band.old }
        ensures frame { SameFrame band.old band.new }
        ensures tiles { OnOk result (ShowsTiles (job_picture E.meaning self.now) (rects_of tiles.now) band.new) }
    {
        for (_, found) in tiles {
            self.write_tile(alloc, found, band)?;
        }
        Ok(())
    }

    // Writes as much of a tile as lies in the band.
    fn write_tile(&self, alloc: Global, found: &FoundTile, band: &mut Image) -> Result<(), Memory>
        requires found { IsFoundTile E.meaning self.now.setup.now self.now.frame found.now }
        requires band { IsBand self.now.setup.now.scene.now.graph band.old }
        ensures frame { SameFrame band.old band.new }
        ensures writes { OnOk result
            (WritesTile (job_picture E.meaning self.now) found.now.tile band.old band.new) }
    {
        let rect = band.rect();
        let place = found.tile.meet(rect);
        let mut out = band.part(rect);
        show(alloc, self.setup, found, place, &mut out)
    }
}
