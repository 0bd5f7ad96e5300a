//! How much a frame counts for that lies some steps back.
ghost use Rattle.std.specs.Prelude.{◌≡◌, ◌≤◌, ◌<◌, ◌+◌, ◌-◌, ◌*◌, ◌/◌};
ghost use Rattle.fx_time.specs.Echo.{weighed};

/// Weighs samples that lie `back` of `count` steps back. It multiplies by a reciprocal in the place of a
/// division, since the count is known only when it runs.
#[derive(Clone, Copy, Debug)]
pub struct Weight {
    count: usize,
    back: usize,
    factor: u64,
    ghost few: { count ≤ 8 },
    ghost within: { back ≤ count },
    ghost small: { factor ≤ 4294967297 },
    ghost value: { factor ≡ (count + 1 - back) * 4294967296 / (count + 1) + 1 },
}

impl Weight {
    pub fn of(count: usize, back: usize) -> Weight
        requires few { count ≤ 8 }
        requires within { back ≤ count }
        ensures count { result.count ≡ count }
        ensures back { result.back ≡ back }
    {
        let weight = (count + 1 - back) as u64;
        let factor = (weight << 32) / (count + 1) as u64 + 1;
        Weight {
            count,
            back,
            factor,
        }
    }

    /// A sample times as many parts as it counts for, rounded down. It is no greater.
    #[inline(always)]
    pub fn weighed(self, s: u16) -> u16
        ensures value { result ≡ weighed self.count self.back s }
        ensures bound { result ≤ s }
    {
        ((u64::from(s) * self.factor) >> 32) as u16
    }
}
