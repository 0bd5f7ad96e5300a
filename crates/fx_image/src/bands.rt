//! Images in bands, which are moved: a band is an image of its own, which a worker may write, and no
//! pixel is copied where an image is cut into its bands or put together from them.
ghost use Rattle.std.specs.Prelude.{◌≡◌, ◌<◌, ◌*◌, ℤ, IfOk};
ghost use Rattle.fx_base.specs.Rect.{rows, IsNear};
ghost use Rattle.fx_pixel.specs.Pixel.{zero};
ghost use Rattle.fx_image.specs.Stored.{shown};
ghost use Rattle.fx_image.specs.Bands.{layout_of, IsLayout, band_rect, AreBands, AreWhole, ShowBands};

use crate::image::rows_in;
use crate::rows::Rows;
use crate::{Image, Layout};
use fx_base::{Memory, Rect};
use std::alloc::Global;

impl Image {
    /// An image whose pixels are all zero, in bands.
    pub fn in_bands(alloc: Global, layout: &Layout) -> Result<Image, Memory>
        requires { IsLayout layout.now }
        ensures layout { IfOk result (λ image. layout_of image ≡ layout.now) }
        ensures zero { IfOk result (λ image. (x y : ℤ) → shown image x y ≡ zero layout.now.components) }
    {
        // Reading it tells the proof that its bounds are a rectangle's.
        let rect = layout.rect;
        let _bounds = rect.x1;
        let step = layout.band_rows as usize;
        let rows = Rows::in_blocks(alloc, layout.row_bytes as usize, rows_in(rect), step)?;
        Ok(Image {
            rect,
            depth: layout.depth,
            components: layout.components,
            rows,
        })
    }

    /// Cuts an image into its bands: whole rows that follow one another from the bottom, together the
    /// image.
    pub fn into_bands(self, alloc: Global) -> Result<Vec<Image>, Memory>
        ensures bands { IfOk result (λ bands. AreBands (layout_of self) bands.items) }
        ensures whole { IfOk result (λ bands. AreWhole (layout_of self) bands.items) }
        ensures pixels { IfOk result (λ bands. ShowBands self bands.items) }
    {
        let Image {
            rect,
            depth,
            components,
            rows,
        } = self;
        let step = rows.step();
        let all = rows.into_bands(alloc)?;
        let mut bands = Vec::new(alloc);
        for own in all {
            let place = band_rect(rect, step, bands.len());
            bands.push(Image {
                rect: place,
                depth,
                components,
                rows: own,
            })?;
        }
        Ok(bands)
    }

    /// Puts an image together from its bands. Its pixels are theirs.
    pub fn of_bands(alloc: Global, layout: &Layout, bands: Vec<Image>) -> Result<Image, Memory>
        requires layout { IsLayout layout.now }
        requires bands { AreBands layout.now bands.items }
        ensures layout { IfOk result (λ image. layout_of image ≡ layout.now) }
        ensures whole { IfOk result (λ _. AreWhole layout.now bands.items) }
        ensures pixels { IfOk result (λ image. ShowBands image bands.items) }
    {
        let mut all = Vec::new(alloc);
        for band in bands {
            let Image {
                rect: _,
                depth: _,
                components: _,
                rows,
            } = band;
            all.push(rows)?;
        }
        // Reading it tells the proof that its bounds are a rectangle's.
        let rect = layout.rect;
        let _bounds = rect.x1;
        let pitch = layout.row_bytes as usize;
        let step = layout.band_rows as usize;
        let rows = Rows::of_bands(alloc, pitch, rows_in(rect), step, all)?;
        Ok(Image {
            rect,
            depth: layout.depth,
            components: layout.components,
            rows,
        })
    }
}

// Band k of a rectangle.
fn band_rect(rect: Rect, height: usize, k: usize) -> Rect
    requires near { IsNear rect }
    requires there { k * height < rows rect }
    requires some_rows { 0 < height }
    ensures { result ≡ band_rect rect height k }
{
    let all = rows_in(rect);
    let low = k * height;
    let high = low + height.min(all - low);
    Rect::of(
        rect.x1,
        rect.y1 + low as i64,
        rect.x2,
        rect.y1 + high as i64,
    )
}
