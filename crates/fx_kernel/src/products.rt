//! Products of samples, where the greatest sample stands for 1. Each divides by the greatest sample of
//! a depth, which is a constant where the depth is decided outside of the loop.
ghost use Rattle.std.specs.Prelude.{◌≡◌, ◌≤◌, ◌*◌};
ghost use Rattle.fx_pixel.specs.Pixel.{greatest};
ghost use Rattle.fx_kernel.specs.Samples.{rounded};
ghost use Rattle.fx_kernel.specs.Blends.{product, mixed};

use fx_pixel::Depth;

/// A number divided by the greatest sample of the depth, to the nearest and halves up.
#[inline(always)]
pub fn divided(depth: Depth, n: u64) -> u16
    requires { n ≤ greatest depth * greatest depth }
    ensures value { result ≡ rounded n (greatest depth) }
    ensures bound { result ≤ greatest depth }
{
    match depth {
        Depth::Byte => ((2 * n + 255) / 510) as u16,
        Depth::Short => ((2 * n + 65535) / 131070) as u16,
    }
}

/// The product of two samples of the depth.
#[inline(always)]
pub fn product(depth: Depth, a: u16, b: u16) -> u16
    requires a { a ≤ greatest depth }
    requires b { b ≤ greatest depth }
    ensures value { result ≡ product (greatest depth) a b }
    ensures bound { result ≤ greatest depth }
{
    divided(depth, u64::from(a) * u64::from(b))
}

/// The mean of two samples that a third one weighs: `a` where it is the greatest, and `b` where it is 0.
#[inline(always)]
pub fn mixed(depth: Depth, weight: u16, a: u16, b: u16) -> u16
    requires weight { weight ≤ greatest depth }
    requires a { a ≤ greatest depth }
    requires b { b ≤ greatest depth }
    ensures value { result ≡ mixed (greatest depth) weight a b }
    ensures bound { result ≤ greatest depth }
{
    let rest = depth.greatest() as u64 - u64::from(weight);
    divided(
        depth,
        u64::from(a) * u64::from(weight) + u64::from(b) * rest,
    )
}
