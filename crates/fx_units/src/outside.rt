use crate::same::{same, same_at};
use fx_base::Name;
use fx_outside::{
    Depot, FetchFault, FileDepot, FileLibrary, FreePace, Library, MemoryDepot, MemoryLibrary,
    MemorySink, Pace, PutFault, Sink, StdSink, SureDepot, SureLibrary, SureSink,
};
use std::fs;
use std::process::Abort;

fn add_file(
    rt: &(impl Abort + AllocGlobal),
    files: &mut Vec<(Name, Vec<u8>)>,
    name: &str,
    bytes: &[u8],
) {
    let name = String::from_str(rt.alloc(), name).expect(rt, "no name");
    let bytes = bytes.to_vec(rt.alloc()).expect(rt, "no bytes");
    files.push((Name::of(name), bytes)).expect(rt, "no file");
}

// The library has these bytes under the name.
fn same_file(
    rt: &(impl Abort + AllocGlobal),
    library: &mut impl Library,
    name: &str,
    bytes: &[u8],
) {
    let fetched = library.fetch(rt.alloc(), name).expect(rt, name);
    same_at(rt, &name, fetched.as_slice(), bytes);
}

fn fails(rt: &(impl Abort + AllocGlobal), library: &mut impl Library, name: &str) {
    let fault = library.fetch(rt.alloc(), name).err();
    same_at(rt, &name, fault, Some(FetchFault::Failed));
}

// A library of a and b whose second and fourth fetch fail.
fn failing(rt: &(impl Abort + AllocGlobal)) -> MemoryLibrary {
    let mut files = Vec::new(rt.alloc());
    add_file(rt, &mut files, "a", b"two");
    add_file(rt, &mut files, "b", b"");
    let failing = [2, 4].to_vec(rt.alloc()).expect(rt, "no list");
    MemoryLibrary::new(rt.alloc(), files, failing)
}

#[test]
fn library_fails_as_listed(rt: HostRuntime) {
    let mut library = failing(&rt);
    same_file(&rt, &mut library, "a", b"two");
    fails(&rt, &mut library, "a");
    same_file(&rt, &mut library, "b", b"");
    fails(&rt, &mut library, "a");
    fails(&rt, &mut library, "c");
    same_file(&rt, &mut library, "a", b"two");
}

// A name, the bytes that are put under it, and the answer.
type Put = (&'static str, &'static [u8], Result<(), PutFault>);

fn puts(rt: &(impl Abort + AllocGlobal), depot: &mut impl Depot, rows: &[Put]) {
    for &(name, bytes, wanted) in rows {
        same_at(rt, &name, depot.put(rt.alloc(), name, bytes), wanted);
    }
}

const ONE_IS_REFUSED: &[Put] = &[
    ("a", b"one", Ok(())),
    ("b", b"", Ok(())),
    ("a", b"two", Err(PutFault::Failed)),
];

#[test]
fn depot_fails_as_listed(rt: HostRuntime) {
    let failing = [3].to_vec(rt.alloc()).expect(&rt, "no list");
    let mut depot = MemoryDepot::new(rt.alloc(), failing);
    same(&rt, depot.get("a"), None);
    puts(&rt, &mut depot, ONE_IS_REFUSED);
    same(&rt, depot.get("a"), Some(b"one".as_slice()));
    puts(&rt, &mut depot, &[("a", b"three", Ok(()))]);
    same(&rt, depot.get("a"), Some(b"three".as_slice()));
    same(&rt, depot.get("b"), Some(b"".as_slice()));
}

// Bytes that are written, and the answer.
type Written = (&'static [u8], Result<(), PutFault>);

fn writes(rt: &(impl Abort + AllocGlobal), sink: &mut impl Sink, rows: &[Written]) {
    for &(bytes, wanted) in rows {
        same_at(rt, &bytes, sink.write(rt.alloc(), bytes), wanted);
    }
}

#[test]
fn sink_fails_as_listed(rt: HostRuntime) {
    let failing = [2].to_vec(rt.alloc()).expect(&rt, "no list");
    let mut sink = MemorySink::new(rt.alloc(), failing);
    let rows = [
        (b"ab".as_slice(), Ok(())),
        (b"c".as_slice(), Err(PutFault::Failed)),
        (b"d".as_slice(), Ok(())),
    ];
    writes(&rt, &mut sink, &rows);
    same(&rt, sink.bytes(), b"abd".as_slice());
    FreePace.before_draw(0);
}

// A library of a.
fn sure(rt: &(impl Abort + AllocGlobal)) -> SureLibrary {
    let mut files = Vec::new(rt.alloc());
    add_file(rt, &mut files, "a", b"two");
    SureLibrary::new(rt.alloc(), files)
}

#[test]
fn sure_library_has_every_name(rt: HostRuntime) {
    let mut library = sure(&rt);
    same_file(&rt, &mut library, "a", b"two");
    same_file(&rt, &mut library, "b", b"");
    same_file(&rt, &mut library, "a", b"two");
}

const THREE_PUTS: &[Put] = &[
    ("a", b"one", Ok(())),
    ("b", b"", Ok(())),
    ("a", b"three", Ok(())),
];

#[test]
fn sure_depot_takes_every_put(rt: HostRuntime) {
    let mut depot = SureDepot::new(rt.alloc());
    same(&rt, depot.get("a"), None);
    puts(&rt, &mut depot, THREE_PUTS);
    same(&rt, depot.get("a"), Some(b"three".as_slice()));
    same(&rt, depot.get("b"), Some(b"".as_slice()));
    same(&rt, depot.get("c"), None);
}

#[test]
fn sure_sink_takes_every_write(rt: HostRuntime) {
    let mut sink = SureSink::new(rt.alloc());
    same(&rt, sink.bytes().len(), 0);
    let rows = [(b"ab".as_slice(), Ok(())), (b"c".as_slice(), Ok(()))];
    writes(&rt, &mut sink, &rows);
    same(&rt, sink.bytes(), b"abc".as_slice());
}

const REAL: &str = "fx_outside_test.bin";

// The second is the shorter one.
const PUT_TWICE: &[Put] = &[
    (REAL, b"longer than the next", Ok(())),
    (REAL, b"\x00\xff", Ok(())),
];

const NOT_PUT: &[Put] = &[
    ("no_such_folder/file", b"x", Err(PutFault::Failed)),
    ("/dev/full", b"x", Err(PutFault::Failed)),
];

#[test]
fn real_files_are_written_and_read(rt: HostRuntime) {
    let mut depot = FileDepot::new(&rt, rt.alloc());
    let mut library = FileLibrary::new(&rt, rt.alloc());
    puts(&rt, &mut depot, PUT_TWICE);
    same_file(&rt, &mut library, REAL, b"\x00\xff");
    fails(&rt, &mut library, "no_such_folder/file");
    fails(&rt, &mut library, ".");
    puts(&rt, &mut depot, NOT_PUT);
}

const STREAM: &str = "fx_outside_stream.bin";

const TWO_WRITES: &[Written] = &[(b"", Ok(())), (b"two ", Ok(())), (b"writes\n", Ok(()))];

#[test]
fn a_stream_takes_all_bytes_or_fails(rt: HostRuntime) {
    let mut stream = StdSink::new(fs::create(&rt, STREAM).expect(&rt, STREAM));
    writes(&rt, &mut stream, TWO_WRITES);
    let mut library = FileLibrary::new(&rt, rt.alloc());
    same_file(&rt, &mut library, STREAM, b"two writes\n");
    let mut full = StdSink::new(fs::create(&rt, "/dev/full").expect(&rt, "/dev/full"));
    writes(&rt, &mut full, &[(b"x", Err(PutFault::Failed))]);
    writes(&rt, &mut StdSink::new(rt.stdout()), &[(b"", Ok(()))]);
}

// A file of the system's own says that it has no bytes, and gives some.
#[test]
fn a_file_is_read_whole_whatever_length_it_says(rt: HostRuntime) {
    let alloc = rt.alloc();
    let name = "/proc/version";
    let read = FileLibrary::new(&rt, alloc)
        .fetch(alloc, name)
        .expect(&rt, name);
    same(&rt, read.starts_with(b"Linux version"), true);
}

// The most bytes that are read, and how many of three are.
const LIMITS: &[(u32, Result<usize, FetchFault>)] = &[
    (3, Ok(3)),
    (4, Ok(3)),
    (u32::MAX, Ok(3)),
    (2, Err(FetchFault::Failed)),
    (0, Err(FetchFault::Failed)),
];

const LIMITED: &str = "fx_outside_limit.bin";

#[test]
fn a_file_is_read_up_to_the_longest(rt: HostRuntime) {
    let mut depot = FileDepot::new(&rt, rt.alloc());
    puts(&rt, &mut depot, &[(LIMITED, b"abc", Ok(()))]);
    for &(longest, wanted) in LIMITS {
        let mut library = FileLibrary::within(&rt, rt.alloc(), longest);
        let read = match library.fetch(rt.alloc(), LIMITED) {
            Ok(bytes) => Ok(bytes.len()),
            Err(fault) => Err(fault),
        };
        same_at(&rt, &longest, read, wanted);
    }
}
