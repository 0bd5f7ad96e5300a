//! The loop over the rows of a window, which effects share.
ghost use Rattle.std.specs.Prelude.{◌≡◌, ℕ, ℤ, pos, ◌+ℤ◌, List, length};
ghost use Rattle.fx_base.specs.Bounds.{Bounds};
ghost use Rattle.fx_pixel.specs.declared.Depth.{Depth};
ghost use Rattle.fx_pixel.specs.declared.Components.{Components};
ghost use Rattle.fx_pixel.specs.declared.Pixel.{Pixel};
ghost use Rattle.fx_image.specs.Part.{IsPart, IsWritten};
ghost use Rattle.fx_effect.specs.Rows.{IsRow, ShowsRow};

use fx_base::Rect;
use fx_image::Part;
use fx_pixel::{Components, Depth};

/// What makes the pixels of a row at once. It decides on depth and components once a row, works with
/// bytes of which it knows nothing at the start of a row, and with cells that keep from row to row what
/// it says.
pub trait RowKernel {
    // the depths and components of which it makes pixels
    ghost makes: { Self → Depth → Components → Type 0 };

    // the pixel at a column and a row
    ghost pixel: { Self → Depth → Components → ℤ → ℤ → Pixel };

    // how many cells and bytes it works with
    ghost cell_count: { Self → Depth → Components → Bounds → ℕ } = { λ _ _ _ _. 0 };

    ghost byte_count: { Self → Depth → Components → Bounds → ℕ } = { λ _ _ _ _. 0 };

    // what the cells have before row y of the rectangle is made
    ghost ready: { Self → Depth → Components → Bounds → ℤ → List ℕ → Type 0 } = { λ _ _ _ _ _ _. Unit {0} };

    /// Writes all pixels of row y of the rectangle: their samples in the order r, g, b, a, a short
    /// sample with the more significant byte first.
    fn fill_row(
        &self,
        depth: Depth,
        components: Components,
        rect: Rect,
        y: i64,
        cells: &mut [u64],
        bytes: &mut [u8],
        row: &mut [u8],
    )
        requires makes { makes self.now depth components }
        requires row { IsRow depth components rect y row.old }
        requires cells { length cells.old ≡ cell_count self.now depth components rect }
        requires bytes { length bytes.old ≡ byte_count self.now depth components rect }
        requires ready { ready self.now depth components rect y cells.old }
        ensures shows { ShowsRow depth components rect y (pixel self.now depth components) row.new }
        ensures next { ready self.now depth components rect (y +ℤ pos 1) cells.new };
}

/// Fills a part with a kernel's pixels, row by row from the bottom. No other pixel of the image changes.
pub fn fill_with<K: RowKernel>(kernel: &K, cells: &mut [u64], bytes: &mut [u8], out: &mut Part<'_>)
    requires part { IsPart out.old }
    requires makes { let image = out.old.image.now in K.makes kernel.now image.depth image.components }
    requires cells { let image = out.old.image.now in
        length cells.old ≡ K.cell_count kernel.now image.depth image.components out.old.rect }
    requires bytes { let image = out.old.image.now in
        length bytes.old ≡ K.byte_count kernel.now image.depth image.components out.old.rect }
    requires ready { let image = out.old.image.now in
        K.ready kernel.now image.depth image.components out.old.rect out.old.rect.y1 cells.old }
    ensures written { let image = out.old.image.now in
        IsWritten out.old out.new (K.pixel kernel.now image.depth image.components) }
{
    let rect = out.rect();
    let depth = out.depth();
    let components = out.components();
    for y in rect.y1..rect.y2 {
        kernel.fill_row(depth, components, rect, y, cells, bytes, out.row_mut(y));
    }
}
