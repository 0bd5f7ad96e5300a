//! How a thread waits for another. It lets others run a few times, since most waits are short, and then sleeps, so that
//! a long wait takes no processor from those who work.
use std::rt::Clock;
use std::thread;
use std::time::Duration;

// How often others may run before the first sleep.
const YIELDS: u32 = 32;

// The first sleep and the longest, in microseconds.
const SHORTEST: u32 = 16;

const LONGEST: u32 = 512;

/// What a thread does between two looks at what it waits for. Each pause is as long as the one before or twice as long,
/// up to about half a millisecond.
#[derive(Drop)]
pub struct Pause {
    yields: u32,
    micros: u32,
}

impl Pause {
    /// No pause yet.
    pub fn new() -> Pause {
        Pause {
            yields: 0,
            micros: SHORTEST,
        }
    }

    /// Lets others run, or sleeps where that was done often enough.
    pub fn wait<R: Clock>(&mut self, rt: &R) {
        if self.yields < YIELDS {
            self.yields += 1;
            thread::yield_now();
        } else {
            thread::sleep(rt, Duration::from_micros(u64::from(self.micros)));
            self.micros = LONGEST.min(self.micros.saturating_mul(2));
        }
    }
}
