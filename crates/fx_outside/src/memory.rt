//! The outside in memory: objects that tell what they hold, and fail exactly at the calls with given
//! numbers, counted from 1.
ghost use Rattle.std.specs.Prelude.{◌≡◌, ◌≢◌, ◌≤◌, ◌⊎◌, ◌++◌, ℕ, List, [], true, OnOk, OnErr, IfOk, IsErrOf, option_map, None, Some};
ghost use Rattle.fx_outside.specs.Memory.{first_of};
ghost use Rattle.fx_outside.specs.Outside.{SameFiles, Sets};
ghost use Rattle.fx_outside.specs.Calls.{no_calls, is_next_to_fail, after_call, after_fault};
ghost use Rattle.fx_outside.specs.Objects.{library_files, library_calls, depot_files, depot_calls, sink_bytes, sink_calls};

use crate::call_log::CallLog;
use crate::files::{bytes_of, first_of, keep};
use crate::{Depot, FetchFault, Library, PutFault, Sink};
use fx_base::Name;
use std::alloc::Global;
use std::collections::BTreeMap;

/// A library that holds its files.
#[derive(Drop)]
pub struct MemoryLibrary {
    files: Vec<(Name, Vec<u8>)>,
    log: CallLog,
}

impl MemoryLibrary {
    /// Files by their names, which differ, and the numbers of the fetches that are to fail.
    pub fn new(alloc: Global, files: Vec<(Name, Vec<u8>)>, failing: Vec<u64>) -> MemoryLibrary
        ensures files { library_files result ≡ first_of files.items }
        ensures calls { library_calls result ≡ no_calls failing.items }
    {
        MemoryLibrary {
            files,
            log: CallLog::new(alloc, failing),
        }
    }
}

impl Library for MemoryLibrary {
    ghost tells = { Unit {0} };

    ghost file = { library_files };

    ghost faults = { λ l. (library_calls l).faults };

    ghost last = { λ l. (library_calls l).last };

    fn fetch(&mut self, alloc: Global, name: &str) -> Result<Vec<u8>, FetchFault>
        ensures bytes { IfOk result (λ bytes. library_files self.old name.now ≡ Some bytes.items) }
        ensures same { SameFiles (library_files self.old) (library_files self.new) }
        ensures later { (library_calls self.old).faults ≤ (library_calls self.new).faults }
        ensures listed { OnOk result (is_next_to_fail (library_calls self.old) ≢ true) }
        ensures only_listed { IsErrOf result FetchFault.Failed
            → (is_next_to_fail (library_calls self.old) ≡ true) ⊎ (library_files self.old name.now ≡ None) }
        ensures failed { IsErrOf result FetchFault.Failed
            → library_calls self.new ≡ after_fault name.now (library_calls self.old) }
        ensures passed { (IsErrOf result FetchFault.Failed → ⊥)
            → library_calls self.new ≡ after_call (library_calls self.old) }
    {
        if self.log.is_failing() {
            self.log.note_fault(alloc, name)?;
            return Err(FetchFault::Failed);
        }
        match first_of(&self.files, name) {
            Some(file) => Ok(file.1.to_vec(alloc)?),
            None => {
                self.log.note_fault(alloc, name)?;
                Err(FetchFault::Failed)
            }
        }
    }
}

/// A depot that holds what is put.
#[derive(Drop)]
pub struct MemoryDepot {
    files: BTreeMap<String, Vec<u8>>,
    log: CallLog,
}

impl MemoryDepot {
    /// An empty depot, and the numbers of the puts that are to fail.
    pub fn new(alloc: Global, failing: Vec<u64>) -> MemoryDepot
        ensures empty { (name : List ℕ) → depot_files result name ≡ None }
        ensures calls { depot_calls result ≡ no_calls failing.items }
    {
        MemoryDepot {
            files: BTreeMap::new(alloc),
            log: CallLog::new(alloc, failing),
        }
    }

    /// The bytes put under a name: `None` where there are none.
    pub fn get(&self, name: &str) -> Option<&[u8]>
        ensures { option_map (λ bytes. bytes.now) result ≡ depot_files self.now name.now }
    {
        bytes_of(&self.files, name)
    }
}

impl Depot for MemoryDepot {
    ghost tells = { Unit {0} };

    ghost file = { depot_files };

    ghost faults = { λ d. (depot_calls d).faults };

    ghost last = { λ d. (depot_calls d).last };

    fn put(&mut self, alloc: Global, name: &str, bytes: &[u8]) -> Result<(), PutFault>
        ensures ok { OnOk result (Sets name.now bytes.now (depot_files self.old) (depot_files self.new)) }
        ensures err { OnErr result (SameFiles (depot_files self.old) (depot_files self.new)) }
        ensures later { (depot_calls self.old).faults ≤ (depot_calls self.new).faults }
        ensures listed { OnOk result (is_next_to_fail (depot_calls self.old) ≢ true) }
        ensures only_listed { IsErrOf result PutFault.Failed → is_next_to_fail (depot_calls self.old) ≡ true }
        ensures failed { IsErrOf result PutFault.Failed
            → depot_calls self.new ≡ after_fault name.now (depot_calls self.old) }
        ensures passed { (IsErrOf result PutFault.Failed → ⊥)
            → depot_calls self.new ≡ after_call (depot_calls self.old) }
    {
        if self.log.is_failing() {
            self.log.note_fault(alloc, name)?;
            return Err(PutFault::Failed);
        }
        keep(alloc, &mut self.files, name, bytes)?;
        Ok(())
    }
}

/// A sink that holds what is written.
#[derive(Drop)]
pub struct MemorySink {
    bytes: Vec<u8>,
    log: CallLog,
}

impl MemorySink {
    /// An empty sink, and the numbers of the writes that are to fail.
    pub fn new(alloc: Global, failing: Vec<u64>) -> MemorySink
        ensures empty { sink_bytes result ≡ [] }
        ensures calls { sink_calls result ≡ no_calls failing.items }
    {
        MemorySink {
            bytes: Vec::new(alloc),
            log: CallLog::new(alloc, failing),
        }
    }

    /// All that was written.
    pub fn bytes(&self) -> &[u8]
        ensures { result.now ≡ sink_bytes self.now }
    {
        self.bytes.as_slice()
    }
}

impl Sink for MemorySink {
    ghost tells = { Unit {0} };

    ghost written = { sink_bytes };

    ghost faults = { λ s. (sink_calls s).faults };

    fn write(&mut self, alloc: Global, bytes: &[u8]) -> Result<(), PutFault>
        ensures ok { OnOk result (sink_bytes self.new ≡ sink_bytes self.old ++ bytes.now) }
        ensures err { OnErr result (sink_bytes self.new ≡ sink_bytes self.old) }
        ensures later { (sink_calls self.old).faults ≤ (sink_calls self.new).faults }
        ensures listed { OnOk result (is_next_to_fail (sink_calls self.old) ≢ true) }
        ensures only_listed { IsErrOf result PutFault.Failed → is_next_to_fail (sink_calls self.old) ≡ true }
        ensures failed { IsErrOf result PutFault.Failed
            → sink_calls self.new ≡ after_fault [] (sink_calls self.old) }
        ensures passed { (IsErrOf result PutFault.Failed → ⊥)
            → sink_calls self.new ≡ after_call (sink_calls self.old) }
    {
        if self.log.is_failing() {
            self.log.note_fault(alloc, "")?;
            return Err(PutFault::Failed);
        }
        self.bytes.extend_from_slice(bytes)?;
        Ok(())
    }
}
