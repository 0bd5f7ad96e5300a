//! Two calls, on two threads, that wait for each other.
use std::sync::atomic::{AtomicBool, Ordering};
use std::thread;

/// Neither of the two goes on before the other has come.
#[derive(Drop)]
pub(crate) struct Meeting {
    first: AtomicBool,
    second: AtomicBool,
    gave_up: AtomicBool,
}

// How often the one that waits looks for the other before it gives up.
const TURNS: u32 = 100_000_000;

impl Meeting {
    /// Neither has come.
    pub(crate) fn new() -> Meeting {
        Meeting {
            first: AtomicBool::new(false),
            second: AtomicBool::new(false),
            gave_up: AtomicBool::new(false),
        }
    }

    /// The first comes. It waits for the second the first time that it comes.
    pub(crate) fn first_comes(&self) {
        self.meet(&self.first, &self.second);
    }

    /// The second comes. It waits for the first the first time that it comes.
    pub(crate) fn second_comes(&self) {
        self.meet(&self.second, &self.first);
    }

    /// Whether both came, and neither gave up.
    pub(crate) fn was_kept(&self) -> bool {
        self.first.load(Ordering::SeqCst)
            && self.second.load(Ordering::SeqCst)
            && !self.gave_up.load(Ordering::SeqCst)
    }

    fn meet(&self, mine: &AtomicBool, other: &AtomicBool) {
        if mine.swap(true, Ordering::SeqCst) {
            return;
        }
        for _ in 0..TURNS {
            if other.load(Ordering::SeqCst) {
                return;
            }
            thread::yield_now();
        }
        self.gave_up.store(true, Ordering::SeqCst);
    }
}
