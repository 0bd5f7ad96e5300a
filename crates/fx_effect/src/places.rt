//! The loop over the places of a window, for pixels that read no clip: zero outside the project's extent.
ghost use Rattle.std.specs.Prelude.{◌≡◌, ℤ, if◌then◌else◌};
ghost use Rattle.fx_base.specs.Rect.{within};
ghost use Rattle.fx_pixel.specs.declared.Depth.{Depth};
ghost use Rattle.fx_pixel.specs.declared.Components.{Components};
ghost use Rattle.fx_pixel.specs.declared.Pixel.{Pixel};
ghost use Rattle.fx_pixel.specs.Pixel.{IsOfDepth, components_of, zero};
ghost use Rattle.fx_image.specs.Part.{IsPart, IsWritten};
ghost use Rattle.fx_effect.specs.Rows.{IsRow, ShowsRow};

use crate::{RowKernel, fill_with};
use fx_base::{Rect, offset};
use fx_image::Part;
use fx_image::samples::set_pixel;
use fx_pixel::{Components, Depth, Pixel};

/// What makes the pixel at a place.
pub trait PlaceKernel {
    // what it asks of its own parameters
    ghost is_ready: { Self → Depth → Components → Type 0 };

    // the pixel at a column and a row
    ghost of: { Self → Depth → Components → ℤ → ℤ → Pixel };

    fn place(&self, depth: Depth, components: Components, x: i64, y: i64) -> Pixel
        requires { is_ready self.now depth components }
        ensures value { result ≡ of self.now depth components x y }
        ensures depth { IsOfDepth depth result }
        ensures components { components_of result ≡ components };
}

// The rows of a render.
#[derive(Drop)]
struct PlaceRows<'a, K> {
    kernel: &'a K,
    project: Rect,
}

impl<'a, K: PlaceKernel> PlaceRows<'a, K> {
    #[inline(always)]
    fn fill_each(&self, depth: Depth, components: Components, rect: Rect, y: i64, row: &mut [u8])
        requires ready { K.is_ready self.now.kernel.now depth components }
        requires row { IsRow depth components rect y row.old }
        ensures { let of = K.of self.now.kernel.now depth components in
            ShowsRow depth components rect y
            (λ x y. if within self.now.project x y then of x y else zero components) row.new }
    {
        let left = rect.x1;
        for i in 0..offset(left, rect.x2) {
            let p = self.pixel(depth, components, left + i as i64, y);
            set_pixel(depth, row, i, p);
        }
    }

    fn pixel(&self, depth: Depth, components: Components, x: i64, y: i64) -> Pixel
        requires { K.is_ready self.now.kernel.now depth components }
        ensures value { let of = K.of self.now.kernel.now depth components in
            result ≡ (if within self.now.project x y then of x y else zero components) }
        ensures depth { IsOfDepth depth result }
        ensures components { components_of result ≡ components }
    {
        if self.project.holds(x, y) {
            self.kernel.place(depth, components, x, y)
        } else {
            Pixel::zero(components)
        }
    }
}

impl<'a, K: PlaceKernel> RowKernel for PlaceRows<'a, K> {
    ghost makes = { λ k depth c. K.is_ready k.kernel.now depth c };

    ghost pixel = { λ k depth c x y. if within k.project x y then K.of k.kernel.now depth c x y else zero c };

    fn fill_row(
        &self,
        depth: Depth,
        components: Components,
        rect: Rect,
        y: i64,
        _cells: &mut [u64],
        _bytes: &mut [u8],
        row: &mut [u8],
    ) {
        match (depth, components) {
            (Depth::Byte, Components::Rgba) => {
                self.fill_each(Depth::Byte, Components::Rgba, rect, y, row);
            }
            (Depth::Byte, Components::Alpha) => {
                self.fill_each(Depth::Byte, Components::Alpha, rect, y, row);
            }
            (Depth::Short, Components::Rgba) => {
                self.fill_each(Depth::Short, Components::Rgba, rect, y, row);
            }
            (Depth::Short, Components::Alpha) => {
                self.fill_each(Depth::Short, Components::Alpha, rect, y, row);
            }
        }
    }
}

/// Fills a part with what the kernel makes of the places of a rectangle, and with zero outside it.
pub fn fill_places<K: PlaceKernel>(kernel: &K, project: Rect, out: &mut Part<'_>)
    requires part { IsPart out.old }
    requires ready { let image = out.old.image.now in K.is_ready kernel.now image.depth image.components }
    ensures written { let image = out.old.image.now in let of = K.of kernel.now image.depth image.components in
        IsWritten out.old out.new (λ x y. if within project x y then of x y else zero image.components) }
{
    fill_with(&PlaceRows { kernel, project }, &mut [], &mut [], out);
}
