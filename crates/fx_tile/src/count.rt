//! What becomes of a tile of the picture, and what its renders count.
ghost use Rattle.std.specs.Prelude.{◌≡◌, ◌↔◌, ◌+◌, IfSome, IsSome, OnOk};
ghost use Rattle.fx_tile.specs.Counts.{CanCount, both_counts, no_count};
ghost use Rattle.fx_tile.specs.Seats.{CanTotal, both_totals};

use fx_base::Memory;
use fx_core::Totals;

/// What became of tiles of the picture: so many are found nowhere, in a source's frame, and in a render. For these so
/// many renders landed, and so many were found kept. Of one tile, one of the first three is 1 and the others are 0.
#[derive(Clone, Copy, Debug, Drop, PartialEq, Eq)]
pub struct TileCount {
    pub void_tiles: u64,
    pub passed: u64,
    pub asked: u64,
    pub landed: u64,
    pub hits: u64,
}

impl TileCount {
    /// The count of no tile.
    pub fn none() -> TileCount
        ensures { result ≡ no_count }
    {
        TileCount {
            void_tiles: 0,
            passed: 0,
            asked: 0,
            landed: 0,
            hits: 0,
        }
    }

    /// Both counts together, where no sum is past the greatest number.
    pub fn plus(self, other: TileCount) -> Option<TileCount>
        ensures some { IsSome result ↔ CanCount (both_counts self other) }
        ensures both { IfSome result (λ sum. sum ≡ both_counts self other) }
    {
        Some(TileCount {
            void_tiles: self.void_tiles.checked_add(other.void_tiles)?,
            passed: self.passed.checked_add(other.passed)?,
            asked: self.asked.checked_add(other.asked)?,
            landed: self.landed.checked_add(other.landed)?,
            hits: self.hits.checked_add(other.hits)?,
        })
    }
}

/// How many renders landed, and how many were found kept, so far.
#[derive(Clone, Copy, Debug, Drop)]
pub(crate) struct RenderCount {
    pub landed: u64,
    pub hits: u64,
}

impl RenderCount {
    // One more was found kept. `Memory` comes where the count would pass the greatest number.
    pub(crate) fn add_hit(&mut self) -> Result<(), Memory>
        ensures { OnOk result (self.new ≡ record self.old { hits = self.old.hits + 1 }) }
    {
        let Some(hits) = self.hits.checked_add(1) else {
            return Err(Memory);
        };
        self.hits = hits;
        Ok(())
    }

    // One more landed, in the same way.
    pub(crate) fn add_landed(&mut self) -> Result<(), Memory>
        ensures { OnOk result (self.new ≡ record self.old { landed = self.old.landed + 1 }) }
    {
        let Some(landed) = self.landed.checked_add(1) else {
            return Err(Memory);
        };
        self.landed = landed;
        Ok(())
    }
}

/// The counts of two directories together, where no sum is past the greatest number.
pub(crate) fn both_totals(first: Totals, second: Totals) -> Option<Totals>
    ensures some { IsSome result ↔ CanTotal (both_totals first second) }
    ensures both { IfSome result (λ sum. sum ≡ both_totals first second) }
{
    Some(Totals {
        asks: first.asks.checked_add(second.asks)?,
        hits: first.hits.checked_add(second.hits)?,
        busies: first.busies.checked_add(second.busies)?,
        flights: first.flights.checked_add(second.flights)?,
        landed: first.landed.checked_add(second.landed)?,
        dropped: first.dropped.checked_add(second.dropped)?,
        evicted: first.evicted.checked_add(second.evicted)?,
    })
}
