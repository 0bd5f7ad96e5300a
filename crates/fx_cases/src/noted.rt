//! A library and a depot that note in which order their calls came, and of which two calls may wait for each other.
ghost use Rattle.fx_outside.specs.Objects.{depot_calls, depot_files, library_calls, library_files};

use crate::meeting::Meeting;
use fx_outside::{Depot, FetchFault, Library, MemoryDepot, MemoryLibrary, PutFault};
use std::alloc::{AllocError, Global};
use std::sync::atomic::{AtomicU64, Ordering};

/// The calls of one object: the turn of each among those of all objects, and the name that was asked for.
#[derive(Drop)]
pub(crate) struct Calls<'t> {
    turns: &'t AtomicU64,
    noted: Vec<(u64, String)>,
}

impl<'t> Calls<'t> {
    /// None yet. The turns are counted for all objects together.
    pub(crate) fn new(alloc: Global, turns: &'t AtomicU64) -> Calls<'t> {
        Calls {
            turns,
            noted: Vec::new(alloc),
        }
    }

    fn note(&mut self, alloc: Global, name: &str) -> Result<(), AllocError> {
        let name = String::from_str(alloc, name)?;
        let turn = self.turns.fetch_add(1, Ordering::SeqCst);
        match self.noted.push((turn, name)) {
            Ok(()) => Ok(()),
            Err(_) => Err(AllocError),
        }
    }

    // The name of this turn, if it was one of these calls.
    fn at(&self, turn: u64) -> Option<&str> {
        for call in &self.noted {
            if call.0 == turn {
                return Some(call.1.as_str());
            }
        }
        None
    }
}

/// The call of this name, if there is one, waits for another one.
#[derive(Clone, Copy)]
pub(crate) struct Awaited<'t> {
    pub(crate) name: Option<&'t str>,
    pub(crate) meeting: &'t Meeting,
}

impl<'t> Awaited<'t> {
    // Whether the call of this name waits.
    fn is(&self, name: &str) -> bool {
        match self.name {
            Some(awaited) => awaited == name,
            None => false,
        }
    }
}

/// A library in memory that notes its fetches.
#[derive(Drop)]
pub(crate) struct NotedLibrary<'t> {
    pub(crate) library: MemoryLibrary,
    pub(crate) calls: Calls<'t>,
    pub(crate) awaited: Awaited<'t>,
}

impl<'t> Library for NotedLibrary<'t> {
    ghost tells = { Unit {0} };

    ghost file = { λ l. library_files l.library };

    ghost faults = { λ l. (library_calls l.library).faults };

    ghost last = { λ l. (library_calls l.library).last };

    fn fetch(&mut self, alloc: Global, name: &str) -> Result<Vec<u8>, FetchFault> {
        if self.calls.note(alloc, name).is_err() {
            return Err(FetchFault::Memory);
        }
        if self.awaited.is(name) {
            self.awaited.meeting.first_comes();
        }
        self.library.fetch(alloc, name)
    }
}

/// A depot in memory that notes its puts.
#[derive(Drop)]
pub(crate) struct NotedDepot<'t> {
    pub(crate) depot: MemoryDepot,
    pub(crate) calls: Calls<'t>,
    pub(crate) awaited: Awaited<'t>,
}

impl<'t> Depot for NotedDepot<'t> {
    ghost tells = { Unit {0} };

    ghost file = { λ d. depot_files d.depot };

    ghost faults = { λ d. (depot_calls d.depot).faults };

    ghost last = { λ d. (depot_calls d.depot).last };

    fn put(&mut self, alloc: Global, name: &str, bytes: &[u8]) -> Result<(), PutFault> {
        if self.calls.note(alloc, name).is_err() {
            return Err(PutFault::Memory);
        }
        if self.awaited.is(name) {
            self.awaited.meeting.second_comes();
        }
        self.depot.put(alloc, name, bytes)
    }
}

fn add_call(what: &str, name: &str, text: &mut String) -> Result<(), AllocError> {
    text.push_str(what)?;
    text.push_str(name)?;
    text.push('\n')
}

fn add_calls(fetches: &Calls<'_>, puts: &Calls<'_>, text: &mut String) -> Result<(), AllocError> {
    let count = fetches.noted.len() as u64 + puts.noted.len() as u64;
    for turn in 0..count {
        if let Some(name) = fetches.at(turn) {
            add_call("fetch ", name, text)?;
        } else if let Some(name) = puts.at(turn) {
            add_call("put ", name, text)?;
        }
    }
    Ok(())
}

/// A line for each call of both, in their order.
pub(crate) fn calls_of(
    alloc: Global,
    fetches: &Calls<'_>,
    puts: &Calls<'_>,
) -> Result<String, AllocError> {
    let mut text = String::new(alloc);
    add_calls(fetches, puts, &mut text)?;
    Ok(text)
}
