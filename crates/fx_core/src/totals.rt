//! The counts of a core.

/// What a core counted: `asks` is the sum of `hits`, `busies` and `flights`, and `flights` is the sum of
/// `landed`, `dropped` and the flights that still stand.
#[derive(Clone, Copy, Debug, PartialEq, Eq)]
pub struct Totals {
    /// Asks, each of which had one answer.
    pub asks: u64,
    /// Asks that were answered by a kept value.
    pub hits: u64,
    /// Asks for a key that was flying.
    pub busies: u64,
    /// Asks that were answered by a flight.
    pub flights: u64,
    /// Flights that were landed.
    pub landed: u64,
    /// Flights that were dropped.
    pub dropped: u64,
    /// Kept values that had to go for a new one.
    pub evicted: u64,
}

impl Totals {
    /// Nothing was counted.
    pub(crate) const NONE: Totals = Totals {
        asks: 0,
        hits: 0,
        busies: 0,
        flights: 0,
        landed: 0,
        dropped: 0,
        evicted: 0,
    };
}
