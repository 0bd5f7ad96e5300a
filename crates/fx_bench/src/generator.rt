//! Numbers drawn from a number.
ghost use Rattle.std.specs.Prelude.{◌≡◌, ◌<◌, ◌/◌};
ghost use Rattle.fx_bench.specs.Generator.{next_state};

/// A linear congruential generator of 32 bits.
#[derive(Drop)]
pub(crate) struct Generator {
    state: u32,
}

impl Generator {
    /// The generator that begins with a number.
    pub(crate) fn of(number: u32) -> Generator
        ensures { result.state ≡ number }
    {
        Generator { state: number }
    }

    /// The next number, from 0 to 65,535.
    pub(crate) fn next(&mut self) -> u32
        ensures state { self.new.state ≡ next_state self.old.state }
        ensures value { result ≡ self.new.state / 65536 }
        ensures small { result < 65536 }
    {
        let next = (1_664_525 * u64::from(self.state) + 1_013_904_223) % (1 << 32);
        self.state = next as u32;
        self.state / 65536
    }
}
