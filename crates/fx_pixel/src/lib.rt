//! Pixels: how deep a sample is, which samples a pixel has, and in which format a picture is written
//! (OpenFX 1.4, "Pixel Depths" and "Image Components"; half and float depths are left out).
#![tactic(auto)]

ghost use Rattle.std.specs.Prelude.{◌≡◌, ◌≤◌};
ghost use Rattle.fx_pixel.specs.declared.Pixel.TheVariants.{Rgba as PixelRgba};
ghost use Rattle.fx_pixel.specs.Pixel.{greatest, size, count, zero, IsOfDepth, components_of, convert_sample, at_depth, with_components, convert};

/// How deep each sample is.
#[derive(Clone, Copy, Debug, PartialEq, Eq)]
pub enum Depth {
    /// A byte: samples from 0 to 255.
    Byte,
    /// Two bytes: samples from 0 to 65535.
    Short,
}

/// Which samples a pixel has.
#[derive(Clone, Copy, Debug, PartialEq, Eq)]
pub enum Components {
    Rgba,
    Alpha,
}

/// The samples of a pixel. Each goes up to the depth's greatest.
#[derive(Clone, Copy, Debug, PartialEq, Eq)]
pub enum Pixel {
    Rgba { r: u16, g: u16, b: u16, a: u16 },
    Alpha { a: u16 },
}

/// Which samples of a picture a file holds.
#[derive(Clone, Copy, Debug, PartialEq, Eq)]
pub enum Format {
    RgbAlpha,
    Rgb,
    Grayscale,
}

impl Depth {
    /// The greatest sample.
    pub fn greatest(self) -> u32
        ensures { result ≡ greatest self }
    {
        match self {
            Depth::Byte => 255,
            Depth::Short => 65535,
        }
    }

    /// How many bytes a sample has.
    pub fn size(self) -> u32
        ensures { result ≡ size self }
    {
        match self {
            Depth::Byte => 1,
            Depth::Short => 2,
        }
    }
}

impl Components {
    /// How many samples a pixel has.
    pub fn count(self) -> u32
        ensures { result ≡ count self }
    {
        match self {
            Components::Rgba => 4,
            Components::Alpha => 1,
        }
    }
}

impl Pixel {
    /// The pixel whose samples are all 0: what an image shows outside its region.
    pub fn zero(c: Components) -> Pixel
        ensures value { result ≡ zero c }
        ensures components { components_of result ≡ c }
        ensures depth { (depth : Depth) → IsOfDepth depth result }

        // Every conversion keeps it.
        ensures stays { (from to : Depth) (d : Components) → convert from to d result ≡ zero d }
    {
        match c {
            Components::Rgba => Pixel::Rgba {
                r: 0,
                g: 0,
                b: 0,
                a: 0,
            },
            Components::Alpha => Pixel::Alpha { a: 0 },
        }
    }

    /// The pixel at another depth and with other components: byte to short is `v * 257`, short to byte
    /// `(v * 255 + 32767) / 65535`; RGBA to Alpha takes a, and Alpha to RGBA repeats it.
    pub fn convert(self, from: Depth, to: Depth, c: Components) -> Pixel
        requires { IsOfDepth from self }
        ensures value { result ≡ convert from to c self }
        ensures depth { IsOfDepth to result }
        ensures components { components_of result ≡ c }
    {
        match self {
            Pixel::Rgba { r, g, b, a } => with_components(
                c,
                convert_sample(from, to, r),
                convert_sample(from, to, g),
                convert_sample(from, to, b),
                convert_sample(from, to, a),
            ),
            Pixel::Alpha { a } => {
                let a = convert_sample(from, to, a);
                with_components(c, a, a, a, a)
            }
        }
    }
}

fn convert_sample(from: Depth, to: Depth, v: u16) -> u16
    requires { v ≤ greatest from }
    ensures value { result ≡ convert_sample from to v }
    ensures bound { result ≤ greatest to }
{
    match (from, to) {
        (Depth::Byte, Depth::Short) => v * 257,
        (Depth::Short, Depth::Byte) => ((u32::from(v) * 255 + 32767) / 65535) as u16,
        _ => v,
    }
}

// The pixel of these samples, or of a alone.
fn with_components(c: Components, r: u16, g: u16, b: u16, a: u16) -> Pixel
    ensures { result ≡ with_components c (PixelRgba r g b a) }
{
    match c {
        Components::Rgba => Pixel::Rgba { r, g, b, a },
        Components::Alpha => Pixel::Alpha { a },
    }
}
