//! Grids of square tiles. Contracts see a grid as the side of its tiles.
ghost use Rattle.std.specs.Prelude.{◌≡◌, ◌++◌, ℤ, pos, negsuc, ◌+ℤ◌, ◌-ℤ◌, ◌*ℤ◌, ◌≤◌, ◌≤ℤ◌, ◌<ℤ◌, ◌↔◌, AllPairs, IfOk, OnOk};
ghost use Rattle.std.specs.List.{Contains};
ghost use Rattle.fx_base.specs.Bounds.{Bounds};
ghost use Rattle.fx_base.specs.Rect.{IsNear};
ghost use Rattle.fx_base.specs.Grid.{tile_at, tile_of, tiles_between, tiles_of, IsTileOf, IsBefore};

use crate::{Memory, Rect};
use std::alloc::Global;
use std::marker::Model;

/// A grid of square tiles of so many pixels a side, from 1 to 1,024. Tile (0, 0) has its bottom left
/// corner at the pixel (0, 0).
#[derive(Clone, Copy, Debug, PartialEq, Eq, Hash)]
pub struct Grid {
    pub side: u32,
}

impl Model for Grid {
    ghost use Rattle.std.specs.Prelude.{ℕ, ◌≤◌};
    ghost use Rattle.fx_base.specs.declared.limits.TheConstants.{MOST_TILE_SIDE};

    ghost Value = { ℕ };

    ghost view = { λ grid. grid.side };

    ghost invariant = { λ grid. (1 ≤ grid.side) × (grid.side ≤ MOST_TILE_SIDE) };

    ghost inverse = { λ side. record { side = side } };
}

impl Grid {
    /// The tile in column i and row j, which lie between -2^30 and 2^30.
    pub fn tile(self, i: i64, j: i64) -> Rect
        requires i_low { negsuc 1073741823 ≤ℤ i }
        requires i_high { i ≤ℤ pos 1073741824 }
        requires j_low { negsuc 1073741823 ≤ℤ j }
        requires j_high { j ≤ℤ pos 1073741824 }
        ensures { result ≡ tile_at self i j }
    {
        let left = self.edge(i);
        let bottom = self.edge(j);
        let side = i64::from(self.side);
        Rect {
            x1: left,
            y1: bottom,
            x2: left + side,
            y2: bottom + side,
        }
    }

    /// The tiles that hold a pixel of the rectangle, whole, by rising row and then rising column. Its
    /// bounds lie between -2^30 and 2^30.
    pub fn tiles_of(self, alloc: Global, r: Rect) -> Result<Vec<Rect>, Memory>
        requires { IsNear r }
        ensures tiles { IfOk result (λ tiles. tiles.items ≡ tiles_of self r) }

        // Each tile of the grid that holds a pixel of it, and no other rectangle; each once, since they rise.
        ensures listed { IfOk result (λ tiles. (tile : Bounds) → Contains tiles.items tile ↔ IsTileOf self r tile) }
        ensures rising { IfOk result (λ tiles. AllPairs IsBefore tiles.items) }
    {
        let mut tiles = Vec::new(alloc);
        if r.is_empty() {
            return Ok(tiles);
        }
        let (left, right) = self.span(r.x1, r.x2);
        let (bottom, top) = self.span(r.y1, r.y2);
        for j in bottom..top {
            self.add_row(j, left, right, &mut tiles)?;
        }
        Ok(tiles)
    }

    // Appends the tiles of row j from column `left` up to column `right`.
    fn add_row(self, j: i64, left: i64, right: i64, tiles: &mut Vec<Rect>) -> Result<(), Memory>
        requires j_low { negsuc 1073741823 ≤ℤ j }
        requires j_high { j ≤ℤ pos 1073741824 }
        requires left_low { negsuc 1073741823 ≤ℤ left }
        requires right_high { right ≤ℤ pos 1073741825 }
        ensures { OnOk result (tiles.new.items ≡ tiles.old.items ++ tiles_between self j left right) }
    {
        for i in left..right {
            tiles.push(self.tile(i, j))?;
        }
        Ok(())
    }

    // The columns of tiles in which coordinates from low up to high lie: the first, and the one behind the last.
    fn span(self, low: i64, high: i64) -> (i64, i64)
        requires some { low <ℤ high }
        requires low { negsuc 1073741823 ≤ℤ low }
        requires high { high ≤ℤ pos 1073741824 }
        ensures first { result.0 ≡ tile_of self low }
        ensures end { result.1 ≡ tile_of self (high -ℤ pos 1) +ℤ pos 1 }
        ensures low { negsuc 1073741823 ≤ℤ result.0 }
        ensures side { 1 ≤ self }
        ensures high { result.1 ≤ℤ pos 1073741825 }
    {
        let end = self.tile_of(high - 1) + 1;
        (self.tile_of(low), end)
    }

    // The lesser coordinate of a column or row of tiles.
    fn edge(self, i: i64) -> i64
        requires low { negsuc 1073741823 ≤ℤ i }
        requires high { i ≤ℤ pos 1073741824 }
        ensures value { result ≡ i *ℤ pos self }
        ensures low { negsuc 1099511627775 ≤ℤ result }
        ensures high { result ≤ℤ pos 1099511627776 }
    {
        i * i64::from(self.side)
    }

    // The column or row of tiles in which a coordinate lies.
    fn tile_of(self, x: i64) -> i64
        requires low { negsuc 1073741823 ≤ℤ x }
        requires high { x ≤ℤ pos 1073741824 }
        ensures value { result ≡ tile_of self x }
        ensures low { negsuc 1073741823 ≤ℤ result }
        ensures high { result ≤ℤ pos 1073741824 }
    {
        x.div_euclid(i64::from(self.side))
    }
}
