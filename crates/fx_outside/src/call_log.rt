//! Which calls of an object in memory fail: those with given numbers, counted from 1.
ghost use Rattle.std.specs.Prelude.{◌≡◌, ◌≤◌, OnOk, OnErr};
ghost use Rattle.fx_outside.specs.Calls.{no_calls, is_next_to_fail, after_call, with_fault};

use fx_base::Name;
use std::alloc::{AllocError, Global};
use std::marker::Model;

/// The calls that came, and those that failed.
#[derive(Drop)]
pub struct CallLog {
    failing: Vec<u64>,
    calls: u64,
    faults: u64,
    last: Name,
}

impl Model for CallLog {
    ghost use Rattle.fx_outside.specs.Calls.{Calls};

    ghost Value = { Calls };

    ghost view = { λ t. record { failing = t.failing.items; calls = t.calls; faults = t.faults; last = t.last } };
}

impl CallLog {
    pub fn new(alloc: Global, failing: Vec<u64>) -> CallLog
        ensures { result ≡ no_calls failing.items }
    {
        CallLog {
            failing,
            calls: 0,
            faults: 0,
            last: Name::of(String::new(alloc)),
        }
    }

    /// Counts a call, and says whether it is to fail.
    pub fn is_failing(&mut self) -> bool
        ensures fails { result ≡ is_next_to_fail self.old }
        ensures counted { self.new ≡ after_call self.old }
    {
        self.calls = self.calls.saturating_add(1);
        self.failing.contains(&self.calls)
    }

    /// Notes that the call failed, which had this name. Where memory is wanting, nothing changed.
    pub fn note_fault(&mut self, alloc: Global, name: &str) -> Result<(), AllocError>
        ensures ok { OnOk result (self.new ≡ with_fault name.now self.old) }
        ensures err { OnErr result (self.new ≡ self.old) }
        ensures later { self.old.faults ≤ self.new.faults }
    {
        let last = String::from_str(alloc, name)?;
        self.last = Name::of(last);
        self.faults = self.faults.saturating_add(1);
        Ok(())
    }
}
