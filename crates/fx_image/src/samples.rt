//! Samples and pixels in the bytes of a row: a pixel's samples stand in the order r, g, b, a, a short
//! sample with the more significant byte first. Kernels read and write rows through these.
ghost use Rattle.std.specs.Prelude.{◌≡◌, ◌≢◌, ◌≤◌, ◌<◌, ◌⊎◌, ◌+◌, ◌*◌, ℕ, length, slice_index};
ghost use Rattle.fx_pixel.specs.Pixel.{size, greatest, components_of, IsOfDepth};
ghost use Rattle.fx_image.specs.Stored.{pixel_size, sample_in, pixel_in};

use fx_pixel::{Components, Depth, Pixel};

/// How many bytes a pixel has.
pub fn pixel_size(depth: Depth, components: Components) -> usize
    ensures value { result ≡ pixel_size depth components }
    ensures small { result ≤ 8 }
{
    (components.count() * depth.size()) as usize
}

/// Sample i of a row, counted from the left.
pub fn sample(depth: Depth, row: &[u8], i: usize) -> u16
    requires { size depth * i + size depth ≤ length row.now }
    ensures value { result ≡ sample_in depth row.now i }
    ensures bound { result ≤ greatest depth }
{
    match depth {
        Depth::Byte => u16::from(row[i]),
        Depth::Short => 256 * u16::from(row[2 * i]) + u16::from(row[2 * i + 1]),
    }
}

/// Sets sample i of a row. No other sample of the row changes.
pub fn set_sample(depth: Depth, row: &mut [u8], i: usize, s: u16)
    requires room { size depth * i + size depth ≤ length row.old }
    requires depth { s ≤ greatest depth }
    ensures there { sample_in depth row.new i ≡ s }
    ensures others { (j : ℕ) → j ≢ i → sample_in depth row.new j ≡ sample_in depth row.old j }
{
    match depth {
        Depth::Byte => row[i] = s as u8,
        Depth::Short => {
            let [high, low] = s.to_be_bytes();
            row[2 * i] = high;
            row[2 * i + 1] = low;
        }
    }
}

/// Pixel i of a row, counted from the left.
pub fn pixel(depth: Depth, components: Components, row: &[u8], i: usize) -> Pixel
    requires { i * pixel_size depth components + pixel_size depth components ≤ length row.now }
    ensures value { result ≡ pixel_in depth components row.now i }
    ensures depth { IsOfDepth depth result }
    ensures components { components_of result ≡ components }
{
    match components {
        Components::Rgba => Pixel::Rgba {
            r: sample(depth, row, 4 * i),
            g: sample(depth, row, 4 * i + 1),
            b: sample(depth, row, 4 * i + 2),
            a: sample(depth, row, 4 * i + 3),
        },
        Components::Alpha => Pixel::Alpha {
            a: sample(depth, row, i),
        },
    }
}

/// Sets pixel i of a row. No other pixel of the row changes.
pub fn set_pixel(depth: Depth, row: &mut [u8], i: usize, p: Pixel)
    requires room { let size = pixel_size depth (components_of p) in i * size + size ≤ length row.old }
    requires depth { IsOfDepth depth p }
    ensures there { pixel_in depth (components_of p) row.new i ≡ p }
    ensures others { let c = components_of p in
        (j : ℕ) → j ≢ i → pixel_in depth c row.new j ≡ pixel_in depth c row.old j }
{
    match p {
        Pixel::Rgba { r, g, b, a } => {
            set_sample(depth, row, 4 * i, r);
            set_sample(depth, row, 4 * i + 1, g);
            set_sample(depth, row, 4 * i + 2, b);
            set_sample(depth, row, 4 * i + 3, a);
        }
        Pixel::Alpha { a } => set_sample(depth, row, i, a),
    }
}

/// Copies `count` pixels into a row, from its pixel `first` on. No other pixel of the row changes.
pub fn copy_pixels(
    depth: Depth,
    components: Components,
    source: &[u8],
    row: &mut [u8],
    first: usize,
    count: usize,
)
    requires source { length source.now ≡ count * pixel_size depth components }
    requires room { (first + count) * pixel_size depth components ≤ length row.old }
    ensures copied { (i : ℕ) → i < count
        → pixel_in depth components row.new (first + i) ≡ pixel_in depth components source.now i }
    ensures others { (j : ℕ) → (j < first) ⊎ (first + count ≤ j)
        → pixel_in depth components row.new j ≡ pixel_in depth components row.old j }
{
    let size = pixel_size(depth, components);
    row[first * size..(first + count) * size].copy_from_slice(source);
}

/// It computes nothing: its contract tells a proof that each byte is below 256.
pub fn are_bytes(bytes: &[u8])
    ensures { (i : ℕ) → slice_index bytes.now i < 256 }
{}
