//! What an effect notes of its actions, and counts of its calls.
use crate::tile::counting::course::Action;
use fx_base::Memory;
use std::process::Abort;
use std::sync::atomic::{AtomicBool, AtomicU64, Ordering};
use std::thread;

// How many actions there is room for.
const ROOM: usize = 128;

// How often a call looks for another one in each turn, before it lets other threads run. On a busy machine that takes
// long, and on an idle one nearly no time, and in both the looks of all turns have to take some time, and not too much.
const LOOKS: u32 = 20_000;

/// The actions of a plug-in in the order in which they came, and its calls of render: all together, or those of each
/// of two instances.
#[derive(Drop)]
pub(crate) struct Notes {
    actions: Vec<AtomicU64>,
    noted: AtomicU64,
    first: Gauge,
    second: Gauge,
    at_first: u32,
    later: u32,
    was_joined: AtomicBool,
    lacks_memory: AtomicBool,
}

impl Notes {
    /// Nothing is noted yet. The first call of render is to look for another one for so many turns, and each later
    /// one for so many.
    pub(crate) fn new(rt: &(impl Abort + AllocGlobal), at_first: u32, later: u32) -> Notes {
        let mut actions = Vec::new(rt.alloc());
        for _ in 0..ROOM {
            actions.push(AtomicU64::new(0)).expect(rt, "no room");
        }
        Notes {
            actions,
            noted: AtomicU64::new(0),
            first: Gauge::new(),
            second: Gauge::new(),
            at_first,
            later,
            was_joined: AtomicBool::new(false),
            lacks_memory: AtomicBool::new(false),
        }
    }

    /// The next call of render is to lack memory.
    pub(crate) fn lack_memory(&self) {
        self.lacks_memory.store(true, Ordering::SeqCst);
    }

    /// Notes an action.
    pub(crate) fn note(&self, action: Action) {
        let place = self.noted.fetch_add(1, Ordering::SeqCst);
        if let Some(slot) = self.actions.get(place as usize) {
            slot.store(action as u64, Ordering::SeqCst);
        }
    }

    /// The numbers of the actions, and 0 for each that had no room.
    pub(crate) fn numbers(&self, rt: &(impl Abort + AllocGlobal)) -> Vec<u64> {
        let mut numbers = Vec::new(rt.alloc());
        for place in 0..self.noted.load(Ordering::SeqCst) {
            let slot = self.actions.get(place as usize);
            let number = slot.map_or(0, |slot| slot.load(Ordering::SeqCst));
            numbers.push(number).expect(rt, "no number");
        }
        numbers
    }

    /// Notes and counts a call of render that begins, by the first instance or the second, and looks whether another
    /// one begins after it.
    pub(crate) fn begin_call(&self, second: bool) -> Result<(), Memory> {
        if self.lacks_memory.swap(false, Ordering::SeqCst) {
            return Err(Memory);
        }
        self.note(Action::Render);
        let gauge = self.gauge(second);
        let earlier = gauge.begin();
        let turns = if earlier == 0 {
            self.at_first
        } else {
            self.later
        };
        if gauge.is_joined(earlier, turns) {
            self.was_joined.store(true, Ordering::SeqCst);
        }
        Ok(())
    }

    /// Counts a call that ends.
    pub(crate) fn end_call(&self, second: bool) {
        self.gauge(second).end();
    }

    /// How many calls began.
    pub(crate) fn calls(&self) -> u64 {
        let first = self.first.begun.load(Ordering::SeqCst);
        first.wrapping_add(self.second.begun.load(Ordering::SeqCst))
    }

    /// How many calls that are counted together were under way at once, at most.
    pub(crate) fn most_at_once(&self) -> u64 {
        let first = self.first.most.load(Ordering::SeqCst);
        first.max(self.second.most.load(Ordering::SeqCst))
    }

    /// Whether a call began while another one looked for it.
    pub(crate) fn was_joined(&self) -> bool {
        self.was_joined.load(Ordering::SeqCst)
    }

    fn gauge(&self, second: bool) -> &Gauge {
        if second { &self.second } else { &self.first }
    }
}

// How many calls began, how many are under way, and how many were so at once, at most.
#[derive(Drop)]
struct Gauge {
    begun: AtomicU64,
    under_way: AtomicU64,
    most: AtomicU64,
}

impl Gauge {
    fn new() -> Gauge {
        Gauge {
            begun: AtomicU64::new(0),
            under_way: AtomicU64::new(0),
            most: AtomicU64::new(0),
        }
    }

    // How many calls began before this one.
    fn begin(&self) -> u64 {
        let others = self.under_way.fetch_add(1, Ordering::SeqCst);
        self.most
            .fetch_max(others.wrapping_add(1), Ordering::SeqCst);
        self.begun.fetch_add(1, Ordering::SeqCst)
    }

    // Whether a call begins after this one, which so many began before, within so many turns.
    fn is_joined(&self, earlier: u64, turns: u32) -> bool {
        for _ in 0..turns {
            if self.is_followed(earlier) {
                return true;
            }
            thread::yield_now();
        }
        false
    }

    // The same within one turn.
    fn is_followed(&self, earlier: u64) -> bool {
        for _ in 0..LOOKS {
            if self.begun.load(Ordering::SeqCst) > earlier.wrapping_add(1) {
                return true;
            }
        }
        false
    }

    fn end(&self) {
        self.under_way.fetch_sub(1, Ordering::SeqCst);
    }
}
