ghost use Rattle.std.specs.Prelude.{◌≡◌, [], ◌∷◌, pos};
ghost use Rattle.fx_base.specs.Rect.{Holds, IsNear, columns, rows};
ghost use Rattle.fx_pixel.specs.Pixel.{IsOfDepth, components_of};
ghost use Rattle.fx_pixel.specs.declared.Components.TheVariants.{Rgba as RgbaSamples};
ghost use Rattle.fx_pixel.specs.declared.Depth.TheVariants.{Byte};
ghost use Rattle.fx_effect.specs.Placed.{IsPiece};

use crate::same::{same, same_at};
use fx_base::Rect;
use fx_effect::{
    Context, Description, Flags, Inputs, Numbers, Piece, Safety, Step, Steps, Values, clip_set,
    descriptor,
};
use fx_image::Image;
use fx_pixel::{Components, Depth, Pixel};
use fx_props::PropSet;
use std::alloc::Global;
use std::process::Abort;
use std::sync::Arc;

const GREY: Pixel = Pixel::Rgba {
    r: 32768,
    g: 32768,
    b: 32768,
    a: 32768,
};

const BYTE_GREY: Pixel = Pixel::Rgba {
    r: 128,
    g: 128,
    b: 128,
    a: 128,
};

const FOUR: Pixel = Pixel::Rgba {
    r: 1,
    g: 2,
    b: 3,
    a: 4,
};

const CLEAR: Pixel = Pixel::Rgba {
    r: 0,
    g: 0,
    b: 0,
    a: 0,
};

#[test]
fn numbers_are_given_back(rt: HostRuntime) {
    let numbers = Numbers::of([-1, 2].to_vec(rt.alloc()).expect(&rt, "no numbers"));
    same(&rt, numbers.items(), [-1, 2].as_slice());
    same(&rt, numbers.into_items().as_slice(), [-1, 2].as_slice());
}

#[test]
fn flags_are_given_back(rt: HostRuntime) {
    let flags = Flags::of([true, false].to_vec(rt.alloc()).expect(&rt, "no flags"));
    same(&rt, flags.items(), [true, false].as_slice());
    same(&rt, flags.into_items().as_slice(), [true, false].as_slice());
}

// Values at frame 3 of the numbers 7 and -8.
fn values_of(rt: &(impl Abort + AllocGlobal), connected: bool) -> Values {
    let numbers = [7, -8].to_vec(rt.alloc()).expect(rt, "no numbers");
    let connected = [connected].to_vec(rt.alloc()).expect(rt, "no flags");
    Values {
        frame: 3,
        numbers: Numbers::of(numbers),
        connected: Flags::of(connected),
        project: Rect::of(0, 0, 2, 1),
    }
}

#[test]
fn values_differ_by_their_flags(rt: HostRuntime) {
    let values = values_of(&rt, true);
    same(&rt, (values.number(1), values.number(2)), (-8, 0));
    let others = values_of(&rt, false);
    assert!(rt; values == values && values != others);
}

// To bytes as Alpha.
const STEP: Step = Step {
    depth: Depth::Byte,
    components: Components::Alpha,
};

// GREY, once it was a byte.
const REPEATED: Pixel = Pixel::Rgba {
    r: 32896,
    g: 32896,
    b: 32896,
    a: 32896,
};

// And back to short samples as RGBA.
#[test]
fn steps_are_taken_and_given_back(rt: HostRuntime) {
    let steps = Steps::of([STEP].to_vec(rt.alloc()).expect(&rt, "no steps"));
    same(&rt, steps.items(), [STEP].as_slice());
    let back = steps.convert(GREY, Depth::Short, Depth::Short, Components::Rgba);
    same(&rt, back, REPEATED);
    same(&rt, steps.into_items().as_slice(), [STEP].as_slice());
}

// An image of two pixels, one of them this one.
fn pair(rt: &(impl Abort + AllocGlobal), rect: Rect, depth: Depth, x: i64, p: Pixel) -> Image
    requires near { IsNear rect }
    requires two { columns rect ≡ 2 }
    requires row { rows rect ≡ 1 }
    requires place { Holds rect x (pos 0) }
    requires components { components_of p ≡ RgbaSamples }
    requires depth { IsOfDepth depth p }
    ensures { (result.rect ≡ rect) × (result.depth ≡ depth) × (result.components ≡ RgbaSamples) }
{
    let mut image = Image::new(rt.alloc(), rect, depth, Components::Rgba, 16).expect(
        rt, "no image",
    );
    image.put(x, 0, p);
    image
}

// The whole of an image that is shared.
fn tile<'a>(rt: &(impl Abort + AllocGlobal), image: Image) -> Piece<'a>
    ensures { IsPiece result }
{
    image.pixels_fit();
    let cut = image.rect();
    Piece::Tile {
        image: Arc::new(rt.alloc(), image).expect(rt, "no tile"),
        cut,
        through: Steps::of(Vec::new(rt.alloc())),
    }
}

// The whole of an image that is lent.
fn frame(alloc: Global, image: &Image) -> Piece<'_>
    ensures { IsPiece result }
{
    Piece::Frame {
        view: image.view(image.rect()),
        through: Steps::of(Vec::new(alloc)),
    }
}

// The two pieces, one behind the other.
fn inputs_of<'a>(rt: &(impl Abort + AllocGlobal), first: Piece<'a>, second: Piece<'a>) -> Inputs<'a>
    requires first { IsPiece first }
    requires second { IsPiece second }
    ensures depth { result.depth ≡ Byte }
    ensures components { result.components ≡ RgbaSamples ∷ [] }
{
    let alloc = rt.alloc();
    let components = [Components::Rgba].to_vec(alloc).expect(rt, "no clip");
    let mut inputs = Inputs::new(alloc, Depth::Byte, components).expect(rt, "no inputs");
    inputs.push(alloc, 0, 5, first).expect(rt, "no first");
    inputs.push(alloc, 0, 5, second).expect(rt, "no second");
    inputs
}

// The bytes of the columns -1 to 3.
const SHOWN: [u8; 20] = [
    0, 0, 0, 0, 0, 0, 0, 0, 1, 2, 3, 4, 128, 128, 128, 128, 0, 0, 0, 0,
];

fn shows_rows(rt: &impl Abort, inputs: &Inputs<'_>)
    requires depth { inputs.now.depth ≡ Byte }
    requires components { inputs.now.components ≡ RgbaSamples ∷ [] }
{
    inputs.pixels_fit();
    let mut row = [9; 20];
    inputs.read_row(0, 5, Rect::of(-1, 0, 4, 1), 0, &mut row);
    same(rt, row.as_slice(), SHOWN.as_slice());
    let mut covered = [9; 12];
    inputs.read_row(0, 5, Rect::of(0, 0, 3, 1), 0, &mut covered);
    same(rt, covered.as_slice(), &SHOWN[4..16]);
}

fn shows_pixels(rt: &impl Abort, inputs: &Inputs<'_>)
    requires { inputs.now.components ≡ RgbaSamples ∷ [] }
{
    let (four, grey) = (inputs.at(0, 5, 1, 0), inputs.at(0, 5, 2, 0));
    let clear = inputs.at(0, 4, 1, 0);
    same(rt, (four, grey, clear), (FOUR, BYTE_GREY, CLEAR));
}

// A piece of bytes with the columns 0 and 1, and one of short samples behind it with the columns 1 and 2.
#[test]
fn rows_are_read_from_pieces(rt: HostRuntime) {
    let short = pair(&rt, Rect::of(1, 0, 3, 1), Depth::Short, 2, GREY);
    let byte = pair(&rt, Rect::of(0, 0, 2, 1), Depth::Byte, 1, FOUR);
    let tile = tile(&rt, byte);
    let inputs = inputs_of(&rt, tile, frame(rt.alloc(), &short));
    shows_rows(&rt, &inputs);
    shows_pixels(&rt, &inputs);
}

// The texts of a description, by their names and indices.
const TEXTS: &[(&str, u32, &str)] = &[
    ("OfxPropLabel", 0, "Invert"),
    (
        "OfxImageEffectPropSupportedContexts",
        0,
        "OfxImageEffectContextFilter",
    ),
    (
        "OfxImageEffectPropSupportedContexts",
        1,
        "OfxImageEffectContextGeneral",
    ),
    (
        "OfxImageEffectPropSupportedPixelDepths",
        0,
        "OfxBitDepthByte",
    ),
    (
        "OfxImageEffectPropSupportedPixelDepths",
        1,
        "OfxBitDepthShort",
    ),
    (
        "OfxImageEffectPluginRenderThreadSafety",
        0,
        "OfxImageEffectRenderFullySafe",
    ),
];

const INVERT: Description<'static> = Description {
    label: "Invert",
    contexts: &[Context::Filter, Context::General],
    depths: &[Depth::Byte, Depth::Short],
    temporal: false,
    tiles: true,
    safety: Safety::FullySafe,
};

fn text_in<'a>(set: &'a PropSet, name: &str, index: u32) -> &'a str {
    set.get_text(name, index).ok().unwrap_or("")
}

#[test]
fn a_filter_describes_itself(rt: HostRuntime) {
    let mut set = descriptor(rt.alloc()).expect(&rt, "no descriptor");
    INVERT
        .write(rt.alloc(), &mut set)
        .expect(&rt, "no description");
    for &(name, index, text) in TEXTS {
        same_at(&rt, &name, text_in(&set, name, index), text);
    }
    let temporal = set.get_int("OfxImageEffectPropTemporalClipAccess", 0);
    same(&rt, temporal, Ok(0));
    let tiles = set.get_int("OfxImageEffectPropSupportsTiles", 0);
    same(&rt, tiles, Ok(1));
}

#[test]
fn a_clip_is_described(rt: HostRuntime) {
    let clip = clip_set(rt.alloc(), "Mask", true, &[Components::Alpha]).expect(&rt, "no clip");
    same(&rt, text_in(&clip, "OfxPropName", 0), "Mask");
    same(&rt, clip.get_int("OfxImageClipPropOptional", 0), Ok(1));
    let components = text_in(&clip, "OfxImageEffectPropSupportedComponents", 0);
    same(&rt, components, "OfxImageComponentAlpha");
}
