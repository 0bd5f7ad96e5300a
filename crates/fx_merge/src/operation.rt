//! The operations of merge. Each is a type of its own, so that the loop over the pixels is made for it and
//! doesn't ask at each sample which one it is.
ghost use Rattle.std.specs.Prelude.{◌≡◌, ◌≤◌, ◌<◌, ℕ, slice_index};
ghost use Rattle.fx_pixel.specs.Pixel.{greatest};
ghost use Rattle.fx_merge.specs.Merge.{operated};
ghost use Rattle.fx_merge.specs.declared.operation.Operation.{Operation as Operations};
ghost use Rattle.fx_merge.specs.declared.operation.Operation.TheVariants as operation;

use fx_kernel::{lanes, product};
use fx_pixel::Depth;
use std::simd::prelude::*;

/// What merge makes of a sample of A and one of B.
#[derive(Clone, Copy, Debug, PartialEq, Eq)]
pub enum Operation {
    /// A, and B as far as A's pixel lets it through by its a.
    Over,
    /// The sum, up to the greatest sample.
    Plus,
    /// The product, where the greatest sample stands for 1.
    Multiply,
    /// The sum less the product.
    Screen,
    Min,
    Max,
    /// A less B, down to 0.
    Minus,
}

/// One of the operations.
pub trait SampleRule {
    ghost operation: { Operations };

    /// What it makes of a sample of A and one of B, where `alpha` is the a of A's pixel.
    fn sample(&self, depth: Depth, alpha: u16, a: u16, b: u16) -> u16
        requires alpha { alpha ≤ greatest depth }
        requires a { a ≤ greatest depth }
        requires b { b ≤ greatest depth }
        ensures value { result ≡ operated operation (greatest depth) alpha a b }
        ensures bound { result ≤ greatest depth };

    /// The same of 32 samples of 8 bits at once.
    fn lanes(&self, alpha: u8x32, a: u8x32, b: u8x32) -> u8x32
        ensures { (i : ℕ) → i < 32 → slice_index result i
            ≡ operated operation 255 (slice_index alpha i) (slice_index a i) (slice_index b i) };
}

#[derive(Clone, Copy)]
pub struct Over;

impl SampleRule for Over {
    ghost operation = { operation.Over };

    #[inline(always)]
    fn sample(&self, depth: Depth, alpha: u16, a: u16, b: u16) -> u16 {
        let greatest = depth.greatest();
        let through = product(depth, b, (greatest - u32::from(alpha)) as u16);
        (u32::from(a) + u32::from(through)).min(greatest) as u16
    }

    #[inline(always)]
    fn lanes(&self, alpha: u8x32, a: u8x32, b: u8x32) -> u8x32 {
        a.saturating_add(lanes::product(b, !alpha))
    }
}

#[derive(Clone, Copy)]
pub struct Plus;

impl SampleRule for Plus {
    ghost operation = { operation.Plus };

    #[inline(always)]
    fn sample(&self, depth: Depth, _alpha: u16, a: u16, b: u16) -> u16 {
        (u32::from(a) + u32::from(b)).min(depth.greatest()) as u16
    }

    #[inline(always)]
    fn lanes(&self, _alpha: u8x32, a: u8x32, b: u8x32) -> u8x32 {
        a.saturating_add(b)
    }
}

#[derive(Clone, Copy)]
pub struct Multiply;

impl SampleRule for Multiply {
    ghost operation = { operation.Multiply };

    #[inline(always)]
    fn sample(&self, depth: Depth, _alpha: u16, a: u16, b: u16) -> u16 {
        product(depth, a, b)
    }

    #[inline(always)]
    fn lanes(&self, _alpha: u8x32, a: u8x32, b: u8x32) -> u8x32 {
        lanes::product(a, b)
    }
}

#[derive(Clone, Copy)]
pub struct Screen;

impl SampleRule for Screen {
    ghost operation = { operation.Screen };

    #[inline(always)]
    fn sample(&self, depth: Depth, _alpha: u16, a: u16, b: u16) -> u16 {
        let both = product(depth, a, b);
        (u32::from(a) + u32::from(b) - u32::from(both)) as u16
    }

    #[inline(always)]
    fn lanes(&self, _alpha: u8x32, a: u8x32, b: u8x32) -> u8x32 {
        // No lane of this wraps: the product is no more than a, and the whole no more than 255.
        b + (a - lanes::product(a, b))
    }
}

#[derive(Clone, Copy)]
pub struct Min;

impl SampleRule for Min {
    ghost operation = { operation.Min };

    #[inline(always)]
    fn sample(&self, _depth: Depth, _alpha: u16, a: u16, b: u16) -> u16 {
        a.min(b)
    }

    #[inline(always)]
    fn lanes(&self, _alpha: u8x32, a: u8x32, b: u8x32) -> u8x32 {
        a.simd_min(b)
    }
}

#[derive(Clone, Copy)]
pub struct Max;

impl SampleRule for Max {
    ghost operation = { operation.Max };

    #[inline(always)]
    fn sample(&self, _depth: Depth, _alpha: u16, a: u16, b: u16) -> u16 {
        a.max(b)
    }

    #[inline(always)]
    fn lanes(&self, _alpha: u8x32, a: u8x32, b: u8x32) -> u8x32 {
        a.simd_max(b)
    }
}

#[derive(Clone, Copy)]
pub struct Minus;

impl SampleRule for Minus {
    ghost operation = { operation.Minus };

    #[inline(always)]
    fn sample(&self, _depth: Depth, _alpha: u16, a: u16, b: u16) -> u16 {
        a.saturating_sub(b)
    }

    #[inline(always)]
    fn lanes(&self, _alpha: u8x32, a: u8x32, b: u8x32) -> u8x32 {
        a.saturating_sub(b)
    }
}
