//! The outside for real: files by their paths from the working folder, and the standard streams. They
//! tell nothing of what they hold, and count their faults. This is the edge that is trusted.
//!
//! A fetch leaves nothing behind, so it answers `Memory` wherever memory is wanting, and `Failed` only where opening or
//! reading failed or the file is too long. A put and a write answer `Memory` only before they touch the outside: once a
//! file is open or a byte was taken, whatever goes wrong is a fault. Each fault is counted.
ghost use Rattle.std.specs.Prelude.{◌≡◌, ◌≤◌, ◌<◌, ◌+◌, ◌^◌, ◌⊎◌, None, Some, [], IfOk, IfErr, IfSome, OnOk, OnErr, IsErrOf, vec_len};
ghost use Rattle.std.specs.Io.KnownBytes.{Appends};
ghost use Rattle.fx_outside.specs.Outside.{HasRisen};
ghost use Rattle.fx_outside.specs.Real.{GivenByOne, too_many, stream, stream_faults};
ghost use Rattle.fx_outside.specs.Calls.{one_more};

use crate::watched::Watched;
use crate::{Depot, FetchFault, Library, PutFault, Sink};
use fx_base::Name;
use std::alloc::Global;
use std::fs::OpenFile;
use std::io::{ErrorKind, Read, Write};
use std::rt::Files;
use std::{fs, io};

// The longest file that is read, in bytes, where no less is said.
const LONGEST: u64 = 1 << 32;

// How many calls failed, and the name of the last that did.
#[derive(Drop)]
struct Faults {
    count: u64,
    last: Name,
}

impl Faults {
    fn none(alloc: Global) -> Faults
        ensures { result.count ≡ 0 }
    {
        Faults {
            count: 0,
            last: Name::of(String::new(alloc)),
        }
    }

    fn note(&mut self, name: Name)
        ensures count { self.new.count ≡ one_more self.old.count }
        ensures later { self.old.count ≤ self.new.count }
        ensures last { self.new.last ≡ name }
    {
        self.last = name;
        self.count = self.count.saturating_add(1);
    }
}

fn is_memory(e: &io::Error) -> bool {
    e.kind() == ErrorKind::OutOfMemory
}

// All that the reader gives. It fails only where a read failed or the reader gave so many bytes or more, so it is Ok
// wherever neither is so and memory is not wanting. Where `length` is how many bytes there are, no byte is moved.
fn read_all<F: Read + Drop>(
    alloc: Global,
    reader: &mut Watched<F>,
    length: usize,
    too_many: u64,
) -> Result<Vec<u8>, FetchFault>
    ensures all { IfOk result (λ bytes. IfSome (F.remaining reader.old.reader) (λ given. bytes.items ≡ given)) }
    ensures fits { IfOk result (λ bytes. vec_len bytes < too_many) }
    ensures failed { IsErrOf result FetchFault.Failed → (1 ≤ reader.new.failed) ⊎ (too_many ≤ reader.new.given) }
{
    let mut bytes = room_for(alloc, length);
    // Asking for as many as are too many shows whether there are.
    let read = (&mut *reader).take(too_many).read_to_end(&mut bytes);
    match read {
        Ok(_) if (bytes.len() as u64) < too_many => Ok(bytes),
        _ if 0 < reader.failed() => Err(FetchFault::Failed),
        _ if too_many <= reader.given() => Err(FetchFault::Failed),
        _ => Err(FetchFault::Memory),
    }
}

// An empty vector with room for so many bytes and one, by which a read that gives nothing needs no more room. Where
// there is no such room it grows as it is filled.
fn room_for(alloc: Global, length: usize) -> Vec<u8>
    ensures { result.items ≡ [] }
{
    match Vec::with_capacity(alloc, length.saturating_add(1)) {
        Ok(bytes) => bytes,
        Err(_) => Vec::new(alloc),
    }
}

// How long an open file says that it is. It serves to make room at once, and for nothing else.
fn length_of<F: OpenFile>(file: &F) -> usize {
    match file.metadata() {
        Ok(data) => usize::try_from(data.len()).unwrap_or(0),
        Err(_) => 0,
    }
}

// Writes all the bytes. Whatever goes wrong is a fault.
fn write_all<W: Write>(writer: &mut W, bytes: &[u8]) -> Result<(), PutFault>
    ensures all { OnOk result (Appends (W.contents writer.old) (W.contents writer.new) bytes.now) }
    ensures failed { IfErr result (λ fault. fault ≡ PutFault.Failed) }
{
    writer.write_all(bytes).map_err(|_| PutFault::Failed)
}

// Reads the file of this name, which comes back where that fails. So many bytes or more are a fault.
fn read_file<R: Files>(
    rt: &R,
    alloc: Global,
    name: Name,
    too_many: u64,
) -> Result<Vec<u8>, (Name, FetchFault)>
    ensures all { IfOk result (λ bytes. GivenByOne R.File.remaining bytes.items) }
    ensures fits { IfOk result (λ bytes. vec_len bytes < too_many) }
    ensures named { IfErr result (λ e. e.0 ≡ name) }
{
    let read = match fs::open(rt, name.text()) {
        Ok(file) => {
            let length = length_of(&file).min(too_many as usize);
            read_all(alloc, &mut Watched::new(file), length, too_many)
        }
        Err(e) if is_memory(&e) => Err(FetchFault::Memory),
        Err(_) => Err(FetchFault::Failed),
    };
    match read {
        Ok(bytes) => Ok(bytes),
        Err(fault) => Err((name, fault)),
    }
}

// Writes the file of this name, which comes back where that fails.
fn write_file<R: Files>(rt: &R, name: Name, bytes: &[u8]) -> Result<(), (Name, PutFault)>
    ensures { IfErr result (λ e. e.0 ≡ name) }
{
    let written = match fs::create(rt, name.text()) {
        Ok(mut file) => write_all(&mut file, bytes),
        Err(e) if is_memory(&e) => Err(PutFault::Memory),
        Err(_) => Err(PutFault::Failed),
    };
    match written {
        Ok(()) => Ok(()),
        Err(fault) => Err((name, fault)),
    }
}

/// The files that can be read. A file of more than 2^32 bytes is a fault.
#[derive(Drop)]
pub struct FileLibrary<'r, R: Files> {
    rt: &'r R,
    // How many bytes of a file are a fault.
    too_many: u64,
    faults: Faults,
}

impl<'r, R: Files> FileLibrary<'r, R> {
    /// No fault yet.
    pub fn new(rt: &'r R, alloc: Global) -> FileLibrary<'r, R>
        ensures limit { too_many result ≡ 2 ^ 32 + 1 }
        ensures none { ⟦<FileLibrary<'r, R> as Library>⟧.faults result ≡ 0 }
    {
        FileLibrary {
            rt,
            too_many: LONGEST + 1,
            faults: Faults::none(alloc),
        }
    }

    /// As `new`, but a file of more than `longest` bytes is a fault already.
    pub fn within(rt: &'r R, alloc: Global, longest: u32) -> FileLibrary<'r, R>
        ensures limit { too_many result ≡ longest + 1 }
        ensures none { ⟦<FileLibrary<'r, R> as Library>⟧.faults result ≡ 0 }
    {
        FileLibrary {
            rt,
            too_many: u64::from(longest) + 1,
            faults: Faults::none(alloc),
        }
    }
}

impl<'r, R: Files> Library for FileLibrary<'r, R> {
    ghost tells = { ⊥ };

    ghost file = { λ l name. None };

    ghost faults = { λ l. l.faults.count };

    ghost last = { λ l. l.faults.last };

    fn fetch(&mut self, alloc: Global, name: &str) -> Result<Vec<u8>, FetchFault>
        ensures read { IfOk result (λ bytes. GivenByOne R.File.remaining bytes.items) }
        ensures fits { IfOk result (λ bytes. vec_len bytes < too_many self.old) }
        ensures limit_stays { too_many self.new ≡ too_many self.old }
        ensures bytes { ⊥ → IfOk result (λ bytes. None ≡ Some bytes.items) }
        ensures later { self.old.faults.count ≤ self.new.faults.count }
        ensures failed { IsErrOf result FetchFault.Failed → HasRisen self.old.faults.count self.new.faults.count }
        ensures named { IsErrOf result FetchFault.Failed → self.new.faults.last ≡ name.now }
        ensures last_stays { (IsErrOf result FetchFault.Failed → ⊥) → self.new.faults.last ≡ self.old.faults.last }
        ensures count_stays { (IsErrOf result FetchFault.Failed → ⊥) → self.new.faults.count ≡ self.old.faults.count }
    {
        let copy = Name::of(String::from_str(alloc, name)?);
        match read_file(self.rt, alloc, copy, self.too_many) {
            Ok(bytes) => Ok(bytes),
            Err((_, FetchFault::Memory)) => Err(FetchFault::Memory),
            Err((read, FetchFault::Failed)) => {
                self.faults.note(read);
                Err(FetchFault::Failed)
            }
        }
    }
}

/// The files that can be written. One that is there is replaced.
#[derive(Drop)]
pub struct FileDepot<'r, R: Files> {
    rt: &'r R,
    faults: Faults,
}

impl<'r, R: Files> FileDepot<'r, R> {
    /// No fault yet.
    pub fn new(rt: &'r R, alloc: Global) -> FileDepot<'r, R>
        ensures { ⟦<FileDepot<'r, R> as Depot>⟧.faults result ≡ 0 }
    {
        FileDepot {
            rt,
            faults: Faults::none(alloc),
        }
    }
}

impl<'r, R: Files> Depot for FileDepot<'r, R> {
    ghost tells = { ⊥ };

    ghost file = { λ d name. None };

    ghost faults = { λ d. d.faults.count };

    ghost last = { λ d. d.faults.last };

    fn put(&mut self, alloc: Global, name: &str, bytes: &[u8]) -> Result<(), PutFault> {
        let copy = Name::of(String::from_str(alloc, name)?);
        match write_file(self.rt, copy, bytes) {
            Ok(()) => Ok(()),
            Err((_, PutFault::Memory)) => Err(PutFault::Memory),
            Err((written, PutFault::Failed)) => {
                self.faults.note(written);
                Err(PutFault::Failed)
            }
        }
    }
}

/// A standard stream. It never answers `Memory`.
#[derive(Drop)]
pub struct StdSink<W: Write + Drop> {
    writer: W,
    faults: u64,
}

impl<W: Write + Drop> StdSink<W> {
    /// The stream that this writer writes to. No fault yet.
    pub fn new(writer: W) -> StdSink<W>
        ensures stream { stream result ≡ writer }
        ensures none { stream_faults result ≡ 0 }
    {
        StdSink { writer, faults: 0 }
    }
}

impl<W: Write + Drop> Sink for StdSink<W> {
    ghost tells = { ⊥ };

    ghost written = { λ s. [] };

    ghost faults = { stream_faults };

    fn write(&mut self, _alloc: Global, bytes: &[u8]) -> Result<(), PutFault>
        ensures all { OnOk result (Appends (W.contents (stream self.old)) (W.contents (stream self.new)) bytes.now) }
        ensures later { stream_faults self.old ≤ stream_faults self.new }
        ensures failed { OnErr result (HasRisen (stream_faults self.old) (stream_faults self.new)) }
        ensures count_stays { OnOk result (stream_faults self.new ≡ stream_faults self.old) }
        ensures no_memory { IsErrOf result PutFault.Memory → ⊥ }
    {
        match write_all(&mut self.writer, bytes) {
            Ok(()) => Ok(()),
            Err(_) => {
                self.faults = self.faults.saturating_add(1);
                Err(PutFault::Failed)
            }
        }
    }
}
