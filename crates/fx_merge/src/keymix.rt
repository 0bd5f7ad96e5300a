//! The effect keymix.
ghost use Rattle.std.specs.Prelude.{◌≡◌, ◌≤◌, ◌+◌, ◌*◌, ℕ, length, IfOk, OnOk, vec_len, if◌then◌else◌};
ghost use Rattle.fx_base.specs.Rect.{columns};
ghost use Rattle.fx_pixel.specs.Pixel.{greatest, IsOfDepth, components_of};
ghost use Rattle.fx_pixel.specs.declared.Components.TheVariants as samples;
ghost use Rattle.fx_image.specs.Part.{IsPart, SamePart, IsWritten};
ghost use Rattle.fx_image.specs.Stored.{pixel_size, pixel_in};
ghost use Rattle.fx_effect.specs.Given.{row_pixel, ShowsClip};
ghost use Rattle.fx_effect.specs.Shape.{IsLawful};
ghost use Rattle.fx_merge.specs.Keymix.{keymix, keymix_shape, keyed, has_mask};
ghost use Rattle.fx_merge.specs.KeymixLaws.{keymix_laws};

use fx_base::{Memory, Rect, offset};
use fx_core::Ticket;
use fx_effect::{
    Context, Description, Identity, ImageEffect, Inputs, PointKernel, Reply, RowKernel, Safety,
    Values, clip_set, fill_points, fill_with,
};
use fx_gate::Hold;
use fx_image::Part;
use fx_image::samples::{pixel, pixel_size, set_pixel};
use fx_kernel::mixed;
use fx_params::ParamDef;
use fx_pixel::{Components, Depth, Pixel};
use fx_props::PropSet;
use std::alloc::Global;

/// Mixes its clips A and B by the a of its clip Mask: A where the mask has the greatest sample, B where it
/// has 0. Without a mask it is A. It has no parameters.
#[derive(Clone, Copy, Debug, PartialEq, Eq)]
pub struct Keymix;

// The places of the clips.
const A: u32 = 0;

const B: u32 = 1;

const MASK: u32 = 2;

impl ImageEffect for Keymix {
    ghost meaning = { λ _. keymix };

    ghost laws = { λ _. keymix_laws };

    fn describe(&self, alloc: Global, descriptor: &mut PropSet) -> Result<Reply, Memory> {
        let description = Description {
            label: "keymix",
            contexts: &[Context::General],
            depths: &[Depth::Byte, Depth::Short],
            temporal: false,
            tiles: true,
            safety: Safety::FullySafe,
        };
        description.write(alloc, descriptor)?;
        Ok(Reply::Ok)
    }

    fn describe_in_context(
        &self,
        alloc: Global,
        _context: Context,
        clips: &mut Vec<PropSet>,
        _params: &mut Vec<ParamDef>,
    ) -> Result<Reply, Memory> {
        let components = [Components::Rgba, Components::Alpha];
        clips.push(clip_set(alloc, "A", false, &components)?)?;
        clips.push(clip_set(alloc, "B", false, &components)?)?;
        clips.push(clip_set(alloc, "Mask", true, &[Components::Alpha])?)?;
        Ok(Reply::Ok)
    }

    fn get_region_of_definition(
        &self,
        _alloc: Global,
        _values: &Values,
        _regions: &[Rect],
        _in_args: &PropSet,
        _out_args: &mut PropSet,
    ) -> Result<Reply, Memory> {
        // The default is the hull of the regions of A and B, since Mask is optional.
        Ok(Reply::Default)
    }

    fn get_regions_of_interest(
        &self,
        _alloc: Global,
        _values: &Values,
        _in_args: &PropSet,
        _out_args: &mut PropSet,
    ) -> Result<Reply, Memory> {
        Ok(Reply::Default)
    }

    fn get_frames_needed(
        &self,
        _alloc: Global,
        _values: &Values,
        _in_args: &PropSet,
        _out_args: &mut PropSet,
    ) -> Result<Reply, Memory> {
        Ok(Reply::Default)
    }

    fn is_identity(&self, values: &Values, _in_args: &PropSet) -> Identity {
        if masked(values) {
            Identity::No
        } else {
            Identity::Same {
                clip: A,
                frame: values.frame,
            }
        }
    }

    fn render(
        &self,
        alloc: Global,
        values: &Values,
        _in_args: &PropSet,
        inputs: &Inputs<'_>,
        _hold: &mut Hold,
        ticket: &mut Ticket,
        out: &mut Part<'_>,
    ) -> Result<(), Memory> {
        mix(alloc, masked(values), inputs, values.frame, out)?;
        ticket.stamped = true;
        Ok(())
    }
}

// Whether there is a mask.
fn masked(values: &Values) -> bool
    ensures { result ≡ has_mask values.now }
{
    values.connected.items().get(2).copied().unwrap_or(false)
}

// Fills a part with A and B at a frame, mixed by the mask, or with A where there is no mask.
fn mix(
    alloc: Global,
    masked: bool,
    inputs: &Inputs<'_>,
    frame: i64,
    out: &mut Part<'_>,
) -> Result<(), Memory>
    requires part { IsPart out.old }
    requires a { let image = out.old.image.now in ShowsClip inputs.now 0 image.depth image.components }
    requires b { let image = out.old.image.now in ShowsClip inputs.now 1 image.depth image.components }
    requires mask { ShowsClip inputs.now 2 out.old.image.now.depth samples.Alpha }
    ensures same_part { SamePart out.old out.new }
    ensures written { let m = greatest out.old.image.now.depth in let of = row_pixel inputs.now in
        OnOk result (IsWritten out.old out.new
        (λ x y. if masked then keyed m (of 0 frame x y) (of 1 frame x y) (of 2 frame x y) else of 0 frame x y)) }
{
    if masked {
        return KeyRows { inputs, frame }.render(alloc, out);
    }
    fill_points(&Kept, inputs, A, frame, out);
    Ok(())
}

// A pixel as it is.
#[derive(Clone, Copy)]
struct Kept;

impl PointKernel for Kept {
    ghost is_ready = { λ _. Unit {0} };

    ghost of = { λ _ depth p. p };

    #[inline(always)]
    fn point(&self, _depth: Depth, p: Pixel) -> Pixel {
        p
    }
}

// The rows of a render with a mask. The bytes have room for a row of B and behind it one of the mask.
#[derive(Drop)]
struct KeyRows<'a, 'b> {
    inputs: &'a Inputs<'b>,
    frame: i64,
}

impl<'a, 'b> KeyRows<'a, 'b> {
    fn render(&self, alloc: Global, out: &mut Part<'_>) -> Result<(), Memory>
        requires part { IsPart out.old }
        requires a { let image = out.old.image.now in
            ShowsClip self.now.inputs.now 0 image.depth image.components }
        requires b { let image = out.old.image.now in
            ShowsClip self.now.inputs.now 1 image.depth image.components }
        requires mask { ShowsClip self.now.inputs.now 2 out.old.image.now.depth samples.Alpha }
        ensures same_part { SamePart out.old out.new }
        ensures written { let m = greatest out.old.image.now.depth in
            let of = row_pixel self.now.inputs.now in let t = self.now.frame in
            OnOk result (IsWritten out.old out.new (λ x y. keyed m (of 0 t x y) (of 1 t x y) (of 2 t x y))) }
    {
        let row = out.row_bytes();
        let rect = out.rect();
        let columns = offset(rect.x1, rect.x2);
        let mask = columns * pixel_size(out.depth(), Components::Alpha);
        let mut bytes = blank_bytes(alloc, row + mask)?;
        fill_with(self, &mut [], bytes.as_mut_slice(), out);
        Ok(())
    }
}

impl<'a, 'b> RowKernel for KeyRows<'a, 'b> {
    ghost makes = { λ k depth c. ShowsClip k.inputs.now 0 depth c × ShowsClip k.inputs.now 1 depth c
        × ShowsClip k.inputs.now 2 depth samples.Alpha };

    ghost pixel = { λ k depth c x y. let of = row_pixel k.inputs.now in
        keyed (greatest depth) (of 0 k.frame x y) (of 1 k.frame x y) (of 2 k.frame x y) };

    ghost byte_count = { λ k depth c rect. columns rect * pixel_size depth c
        + columns rect * pixel_size depth samples.Alpha };

    fn fill_row(
        &self,
        depth: Depth,
        components: Components,
        rect: Rect,
        y: i64,
        _cells: &mut [u64],
        bytes: &mut [u8],
        row: &mut [u8],
    ) {
        let (other, mask) = bytes.split_at_mut(row.len());
        self.inputs.read_row(A, self.frame, rect, y, row);
        self.inputs.read_row(B, self.frame, rect, y, other);
        self.inputs.read_row(MASK, self.frame, rect, y, mask);
        key_row(depth, components, other, mask, row);
    }
}

// Mixes each pixel of a row with the one at its place in another, by the mask's there.
fn key_row(depth: Depth, components: Components, other: &[u8], mask: &[u8], row: &mut [u8])
    requires other { length other.now ≡ length row.old }
    requires mask { (i : ℕ) → let size = pixel_size depth components in let own = pixel_size depth samples.Alpha in
        i * size + size ≤ length row.old → i * own + own ≤ length mask.now }
    ensures { let size = pixel_size depth components in (i : ℕ) → i * size + size ≤ length row.old
        → pixel_in depth components row.new i ≡ keyed (greatest depth) (pixel_in depth components row.old i)
        (pixel_in depth components other.now i) (pixel_in depth samples.Alpha mask.now i) }
{
    match (depth, components) {
        (Depth::Byte, Components::Rgba) => {
            key_each(Depth::Byte, Components::Rgba, other, mask, row)
        }
        (Depth::Byte, Components::Alpha) => {
            key_each(Depth::Byte, Components::Alpha, other, mask, row)
        }
        (Depth::Short, Components::Rgba) => {
            key_each(Depth::Short, Components::Rgba, other, mask, row)
        }
        (Depth::Short, Components::Alpha) => {
            key_each(Depth::Short, Components::Alpha, other, mask, row)
        }
    }
}

#[inline(always)]
fn key_each(depth: Depth, components: Components, other: &[u8], mask: &[u8], row: &mut [u8])
    requires other { length other.now ≡ length row.old }
    requires mask { (i : ℕ) → let size = pixel_size depth components in let own = pixel_size depth samples.Alpha in
        i * size + size ≤ length row.old → i * own + own ≤ length mask.now }
    ensures { let size = pixel_size depth components in (i : ℕ) → i * size + size ≤ length row.old
        → pixel_in depth components row.new i ≡ keyed (greatest depth) (pixel_in depth components row.old i)
        (pixel_in depth components other.now i) (pixel_in depth samples.Alpha mask.now i) }
{
    for i in 0..row.len() / pixel_size(depth, components) {
        let p = pixel(depth, components, row, i);
        let q = pixel(depth, components, other, i);
        let weight = pixel(depth, Components::Alpha, mask, i);
        set_pixel(depth, row, i, key(depth, p, q, weight));
    }
}

// A pixel of A and one of B, mixed by the mask's.
#[inline(always)]
fn key(depth: Depth, p: Pixel, q: Pixel, mask: Pixel) -> Pixel
    requires a { IsOfDepth depth p }
    requires b { IsOfDepth depth q }
    requires mask { IsOfDepth depth mask }
    requires same { components_of q ≡ components_of p }
    requires alpha { components_of mask ≡ samples.Alpha }
    ensures value { result ≡ keyed (greatest depth) p q mask }
    ensures depth { IsOfDepth depth result }
    ensures components { components_of result ≡ components_of p }
{
    match (p, q, mask) {
        (
            Pixel::Rgba { r, g, b, a },
            Pixel::Rgba {
                r: red,
                g: green,
                b: blue,
                a: alpha,
            },
            Pixel::Alpha { a: weight },
        ) => Pixel::Rgba {
            r: mixed(depth, weight, r, red),
            g: mixed(depth, weight, g, green),
            b: mixed(depth, weight, b, blue),
            a: mixed(depth, weight, a, alpha),
        },
        (Pixel::Alpha { a }, Pixel::Alpha { a: alpha }, Pixel::Alpha { a: weight }) => {
            Pixel::Alpha {
                a: mixed(depth, weight, a, alpha),
            }
        }
        _ => unreachable!(),
    }
}

// Bytes to work with.
fn blank_bytes(alloc: Global, count: usize) -> Result<Vec<u8>, Memory>
    ensures { IfOk result (λ bytes. vec_len bytes ≡ count) }
{
    let mut bytes = Vec::new(alloc);
    bytes.resize(count, 0)?;
    Ok(bytes)
}
