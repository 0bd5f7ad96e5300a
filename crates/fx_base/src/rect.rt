//! Rectangles of pixels: half open, with the y axis upwards (OpenFX 1.4, "Coordinate Systems").
//! Contracts see a rectangle as its four bounds, and the set of its places by the word `Holds`.
ghost use Rattle.std.specs.Int.{int_gap};
ghost use Rattle.std.specs.Prelude.{◌≡◌, ◌↔◌, ◌≤◌, ◌+◌, ◌^◌, ℕ, ℤ, pos, negsuc, ◌+ℤ◌, ◌*ℤ◌, ◌≤ℤ◌, ◌<ℤ◌, ◌&&◌, IsTrue};
ghost use Rattle.fx_base.specs.Bounds.{Bounds, none};
ghost use Rattle.fx_base.specs.Rect.{Holds, IsWithin, IsNear, IsUpTo, IsStep, Reaches, within, rect_of, columns, rows, meet, hull, grown, shifted, stretched, floor, ceiling, cover};

use crate::Fix;
use std::marker::Model;

/// The pixels with `x1 <= x < x2` and `y1 <= y < y2`. The one empty rectangle is (0, 0, 0, 0).
#[derive(Clone, Copy, Debug, PartialEq, Eq, Hash)]
pub struct Rect {
    pub x1: i64,
    pub y1: i64,
    pub x2: i64,
    pub y2: i64,
}

impl Model for Rect {
    ghost use Rattle.fx_base.specs.Bounds.{Bounds, IsRect};

    ghost Value = { Bounds };

    ghost view = { λ r. record { x1 = r.x1; y1 = r.y1; x2 = r.x2; y2 = r.y2 } };

    ghost invariant = { λ r. IsRect (record { x1 = r.x1; y1 = r.y1; x2 = r.x2; y2 = r.y2 }) };

    ghost inverse = { λ b. record { x1 = b.x1; y1 = b.y1; x2 = b.x2; y2 = b.y2 } };
}

impl Rect {
    /// The rectangle of these bounds, or the empty one where they hold no pixel.
    pub fn of(x1: i64, y1: i64, x2: i64, y2: i64) -> Rect
        ensures { result ≡ rect_of x1 y1 x2 y2 }
    {
        if x1 < x2 && y1 < y2 {
            Rect { x1, y1, x2, y2 }
        } else {
            Rect {
                x1: 0,
                y1: 0,
                x2: 0,
                y2: 0,
            }
        }
    }

    /// Whether it holds no pixel.
    pub fn is_empty(self) -> bool
        ensures bounds { IsTrue result ↔ (self ≡ none) }
        ensures places { IsTrue result ↔ ((x y : ℤ) → Holds self x y → ⊥) }
    {
        self.x1 >= self.x2
    }

    /// How many columns it has.
    pub fn width(self) -> u64
        ensures value { result ≡ columns self }
        ensures near { IsNear self → result ≤ 2 ^ 31 }
    {
        offset(self.x1, self.x2) as u64
    }

    /// How many rows it has.
    pub fn height(self) -> u64
        ensures value { result ≡ rows self }
        ensures near { IsNear self → result ≤ 2 ^ 31 }
    {
        offset(self.y1, self.y2) as u64
    }

    /// Whether it holds the pixel at column x and row y.
    pub fn holds(self, x: i64, y: i64) -> bool
        ensures { result ≡ within self x y }
    {
        (self.x1 <= x) & (x < self.x2) & (self.y1 <= y) & (y < self.y2)
    }

    /// Whether the other rectangle holds each pixel of this one. The empty one is within every one.
    pub fn within(self, other: Rect) -> bool
        ensures { IsTrue result ↔ IsWithin self other }
    {
        if self.is_empty() {
            return true;
        }
        (other.x1 <= self.x1)
            & (self.x2 <= other.x2)
            & (other.y1 <= self.y1)
            & (self.y2 <= other.y2)
    }

    /// The pixels that both hold.
    pub fn meet(self, other: Rect) -> Rect
        ensures bounds { result ≡ meet self other }
        ensures places { (x y : ℤ) → within result x y ≡ (within self x y && within other x y) }
        ensures reach { (n : ℕ) → IsUpTo n self → IsUpTo n result }
    {
        Rect::of(
            self.x1.max(other.x1),
            self.y1.max(other.y1),
            self.x2.min(other.x2),
            self.y2.min(other.y2),
        )
    }

    /// The smallest rectangle that holds both, which is the other one where one is empty.
    pub fn hull(self, other: Rect) -> Rect
        ensures bounds { result ≡ hull self other }
        ensures holds_self { IsWithin self result }
        ensures holds_other { IsWithin other result }
        ensures smallest { (t : Bounds) → IsWithin self t → IsWithin other t → IsWithin result t }
        ensures reach { (n : ℕ) → IsUpTo n self → IsUpTo n other → IsUpTo n result }
    {
        if self.is_empty() {
            other
        } else if other.is_empty() {
            self
        } else {
            Rect {
                x1: self.x1.min(other.x1),
                y1: self.y1.min(other.y1),
                x2: self.x2.max(other.x2),
                y2: self.y2.max(other.y2),
            }
        }
    }

    /// The rectangle with h more columns and v more rows on either side: the pixels that lie at most
    /// h columns and v rows away from one of its own. The empty one stays empty. Bounds lie between
    /// -2^30 and 2^30, and h and v between 0 and 2^30.
    pub fn grow(self, h: i64, v: i64) -> Rect
        requires near { IsNear self }
        requires h_low { pos 0 ≤ℤ h }
        requires h_high { h ≤ℤ pos 1073741824 }
        requires v_low { pos 0 ≤ℤ v }
        requires v_high { v ≤ℤ pos 1073741824 }
        ensures bounds { result ≡ grown self h v }
        ensures places { (x y : ℤ) → Holds result x y ↔ Reaches self h v x y }
        ensures reach { (n k : ℕ) → h ≤ℤ pos k → v ≤ℤ pos k → IsUpTo n self → IsUpTo (n + k) result }
    {
        self.stretched(-h, -v, h, v)
    }

    /// The rectangle moved by dx columns to the right and dy rows up. The empty one stays empty.
    /// Bounds, dx and dy lie between -2^30 and 2^30.
    pub fn shift(self, dx: i64, dy: i64) -> Rect
        requires near { IsNear self }
        requires dx_low { negsuc 1073741823 ≤ℤ dx }
        requires dx_high { dx ≤ℤ pos 1073741824 }
        requires dy_low { negsuc 1073741823 ≤ℤ dy }
        requires dy_high { dy ≤ℤ pos 1073741824 }
        ensures bounds { result ≡ shifted self dx dy }
        ensures places { (x y : ℤ) → within result (x +ℤ dx) (y +ℤ dy) ≡ within self x y }
        ensures reach { (n k : ℕ) → IsStep k dx → IsStep k dy → IsUpTo n self → IsUpTo (n + k) result }
    {
        self.stretched(dx, dy, dx, dy)
    }

    // Each bound moved, so that no column and no row is lost. The empty one stays empty.
    fn stretched(self, left: i64, bottom: i64, right: i64, top: i64) -> Rect
        requires near { IsNear self }
        requires columns { left ≤ℤ right }
        requires rows { bottom ≤ℤ top }
        requires low { (negsuc 1073741823 ≤ℤ left) × (negsuc 1073741823 ≤ℤ bottom) }
        requires high { (right ≤ℤ pos 1073741824) × (top ≤ℤ pos 1073741824) }
        ensures { result ≡ stretched self left bottom right top }
    {
        if self.is_empty() {
            return self;
        }
        Rect {
            x1: self.x1 + left,
            y1: self.y1 + bottom,
            x2: self.x2 + right,
            y2: self.y2 + top,
        }
    }

    /// The pixels of a rectangle in canonical coordinates (OpenFX 1.4, "Coordinate Systems"): from the
    /// floors of x1 and y1 to the ceilings of x2 and y2. Where x1 < x2 and y1 < y2, those are the
    /// pixels whose squares, one unit wide and high, have a part in it.
    pub fn cover(x1: Fix, y1: Fix, x2: Fix, y2: Fix) -> Rect
        ensures bounds { result ≡ cover x1 y1 x2 y2 }
        ensures places { (x y : ℤ) → Holds result x y
            ↔ ((x1.raw <ℤ ((x +ℤ pos 1) *ℤ pos 65536))
            × ((x *ℤ pos 65536) <ℤ x2.raw)
            × (y1.raw <ℤ ((y +ℤ pos 1) *ℤ pos 65536))
            × ((y *ℤ pos 65536) <ℤ y2.raw)) }
    {
        Rect::of(floor(x1), floor(y1), ceiling(x2), ceiling(y2))
    }
}

/// How many columns or rows lie from one coordinate on before another.
pub fn offset(from: i64, to: i64) -> usize
    requires { from ≤ℤ to }
    ensures { result ≡ int_gap from to }
{
    to.abs_diff(from) as usize
}

fn floor(number: Fix) -> i64
    ensures { result ≡ floor number }
{
    number.raw.div_euclid(65536)
}

fn ceiling(number: Fix) -> i64
    ensures { result ≡ ceiling number }
{
    (-(-i128::from(number.raw)).div_euclid(65536)) as i64
}
