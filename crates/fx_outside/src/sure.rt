//! The outside in memory that is sure: objects that tell what they hold and never answer `Failed`. Only
//! memory can be wanting.
ghost use Rattle.std.specs.Prelude.{◌≡◌, ◌++◌, ℕ, List, [], OnOk, OnErr, IfOk, IsErrOf, option_map, None, Some};
ghost use Rattle.fx_outside.specs.Memory.{first_of};
ghost use Rattle.fx_outside.specs.Outside.{SameFiles, Sets};
ghost use Rattle.fx_outside.specs.Sure.{or_empty, sure_library_files, sure_depot_files, sure_sink_bytes};

use crate::files::{bytes_of, first_of, keep};
use crate::{Depot, FetchFault, Library, PutFault, Sink};
use fx_base::Name;
use std::alloc::Global;
use std::collections::BTreeMap;

/// A library that has bytes for every name: those of its file, and none where it has no such file.
#[derive(Drop)]
pub struct SureLibrary {
    files: Vec<(Name, Vec<u8>)>,
}

impl SureLibrary {
    /// Files by their names, which differ. Every other name has the empty text.
    pub fn new(_alloc: Global, files: Vec<(Name, Vec<u8>)>) -> SureLibrary
        ensures { sure_library_files result ≡ or_empty (first_of files.items) }
    {
        SureLibrary { files }
    }
}

impl Library for SureLibrary {
    ghost tells = { Unit {0} };

    ghost file = { sure_library_files };

    ghost faults = { λ _. 0 };

    ghost last = { λ _. [] };

    fn fetch(&mut self, alloc: Global, name: &str) -> Result<Vec<u8>, FetchFault>
        ensures bytes { IfOk result (λ bytes. sure_library_files self.old name.now ≡ Some bytes.items) }
        ensures same { SameFiles (sure_library_files self.old) (sure_library_files self.new) }
        ensures never_failed { IsErrOf result FetchFault.Failed → ⊥ }
    {
        match first_of(&self.files, name) {
            Some(file) => Ok(file.1.to_vec(alloc)?),
            None => Ok(Vec::new(alloc)),
        }
    }
}

/// A depot that holds what is put, and takes every put.
#[derive(Drop)]
pub struct SureDepot {
    files: BTreeMap<String, Vec<u8>>,
}

impl SureDepot {
    /// An empty depot.
    pub fn new(alloc: Global) -> SureDepot
        ensures { (name : List ℕ) → sure_depot_files result name ≡ None }
    {
        SureDepot {
            files: BTreeMap::new(alloc),
        }
    }

    /// The bytes put under a name: `None` where there are none.
    pub fn get(&self, name: &str) -> Option<&[u8]>
        ensures { option_map (λ bytes. bytes.now) result ≡ sure_depot_files self.now name.now }
    {
        bytes_of(&self.files, name)
    }
}

impl Depot for SureDepot {
    ghost tells = { Unit {0} };

    ghost file = { sure_depot_files };

    ghost faults = { λ _. 0 };

    ghost last = { λ _. [] };

    fn put(&mut self, alloc: Global, name: &str, bytes: &[u8]) -> Result<(), PutFault>
        ensures ok { OnOk result (Sets name.now bytes.now (sure_depot_files self.old) (sure_depot_files self.new)) }
        ensures err { OnErr result (SameFiles (sure_depot_files self.old) (sure_depot_files self.new)) }
        ensures never_failed { IsErrOf result PutFault.Failed → ⊥ }
    {
        keep(alloc, &mut self.files, name, bytes)?;
        Ok(())
    }
}

/// A sink that holds what is written, and takes every write.
#[derive(Drop)]
pub struct SureSink {
    bytes: Vec<u8>,
}

impl SureSink {
    /// An empty sink.
    pub fn new(alloc: Global) -> SureSink
        ensures { sure_sink_bytes result ≡ [] }
    {
        SureSink {
            bytes: Vec::new(alloc),
        }
    }

    /// All that was written.
    pub fn bytes(&self) -> &[u8]
        ensures { result.now ≡ sure_sink_bytes self.now }
    {
        self.bytes.as_slice()
    }
}

impl Sink for SureSink {
    ghost tells = { Unit {0} };

    ghost written = { sure_sink_bytes };

    ghost faults = { λ _. 0 };

    fn write(&mut self, alloc: Global, bytes: &[u8]) -> Result<(), PutFault>
        ensures ok { OnOk result (sure_sink_bytes self.new ≡ sure_sink_bytes self.old ++ bytes.now) }
        ensures err { OnErr result (sure_sink_bytes self.new ≡ sure_sink_bytes self.old) }
        ensures never_failed { IsErrOf result PutFault.Failed → ⊥ }
    {
        self.bytes.extend_from_slice(bytes)?;
        Ok(())
    }
}
