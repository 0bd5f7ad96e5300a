//! What is told of a part that is other than wanted.
ghost use Rattle.std.specs.Prelude.{◌≡◌, ◌==◌, ◌≤◌, ◌↔◌, IfOk, IsTrue, length, option_map};

use std::alloc::{AllocError, Global};
use std::io::Print;

/// A run: its file, its case and its words.
#[derive(Clone, Copy)]
pub(crate) struct At<'a> {
    pub(crate) file: &'a str,
    pub(crate) name: &'a str,
    pub(crate) words: &'a [String],
}

// How many bytes are shown from the first that differs on.
const SHOWN: usize = 32;

// Tells what was wanted of a part, and what was found. That it can't be told is no fault: the program's status says that
// a case fails.
fn tell<R: Print>(rt: &R, at: &At<'_>, part: &str, wanted: &str, found: &str) {
    let At { file, name, words } = *at;
    let _ = println!(rt; "{file}: {name}: {words:?}: {part}: wanted {wanted}, found {found}");
}

/// Whether the status is the one that is wanted.
pub(crate) fn status_is<R: Print>(rt: &R, at: &At<'_>, wanted: u8, found: u8) -> bool
    ensures { result ≡ (wanted == found) }
{
    let At { file, name, words } = *at;
    if wanted != found {
        let _ = println!(rt; "{file}: {name}: {words:?}: status: wanted {wanted}, found {found}");
    }
    wanted == found
}

/// Whether two that were to wait for each other met.
pub(crate) fn is_kept<R: Print>(rt: &R, at: &At<'_>, part: &str, kept: bool) -> bool
    ensures { result ≡ kept }
{
    if !kept {
        tell(rt, at, part, "two at once", "one that waited alone");
    }
    kept
}

// The bytes as text where they are one.
fn shown_text(alloc: Global, bytes: &[u8]) -> Result<String, AllocError> {
    let text = String::from_utf8_lossy(alloc, bytes)?;
    format!(in alloc; "{text:?}")
}

/// Whether what was written is the text that is wanted.
pub(crate) fn text_is<R: Print>(
    rt: &R,
    alloc: Global,
    at: &At<'_>,
    part: &str,
    wanted: &str,
    found: &[u8],
) -> Result<bool, AllocError>
    ensures { IfOk result (λ right. IsTrue right ↔ (wanted.now ≡ found.now)) }
{
    if wanted.as_bytes() == found {
        return Ok(true);
    }
    let wanted = shown_text(alloc, wanted.as_bytes())?;
    let found = shown_text(alloc, found)?;
    tell(rt, at, part, wanted.as_str(), found.as_str());
    Ok(false)
}

// How many digits bytes begin with.
fn digits(bytes: &[u8]) -> usize
    ensures { result ≤ length bytes.now }
{
    for at in 0..bytes.len() {
        if !bytes[at].is_ascii_digit() {
            return at;
        }
    }
    bytes.len()
}

// How many bytes a byte that is wanted takes of those that were found, and 0 where they are others.
fn taken(wanted: u8, found: &[u8]) -> usize
    ensures { result ≤ length found.now }
{
    match found.first() {
        _ if wanted == b'*' => digits(found),
        Some(first) if *first == wanted => 1,
        _ => 0,
    }
}

// Whether a text is the one that is wanted, in which `*` stands for a number.
fn is_like(wanted: &[u8], found: &[u8]) -> bool {
    let mut rest = found;
    for byte in wanted {
        let taken = taken(*byte, rest);
        if taken == 0 {
            return false;
        }
        rest = &rest[taken..];
    }
    rest.is_empty()
}

/// Whether a report is the one that is wanted, in which `*` stands for a number.
pub(crate) fn report_is<R: Print>(
    rt: &R,
    alloc: Global,
    at: &At<'_>,
    wanted: &str,
    found: &[u8],
) -> Result<bool, AllocError> {
    if is_like(wanted.as_bytes(), found) {
        return Ok(true);
    }
    text_is(rt, alloc, at, "out", wanted, found)
}

// How many bytes two files begin with both.
fn same_front(one: &[u8], other: &[u8]) -> usize {
    let least = one.len().min(other.len());
    for at in 0..least {
        if one[at] != other[at] {
            return at;
        }
    }
    least
}

// How many bytes there are, and those from a place on.
fn shown_bytes(alloc: Global, bytes: &[u8], from: usize) -> Result<String, AllocError> {
    let from = from.min(bytes.len());
    let to = from + SHOWN.min(bytes.len() - from);
    let digits = hex::encode(alloc, &bytes[from..to])?;
    let count = bytes.len();
    format!(in alloc; "{count} bytes with {digits} from byte {from} on")
}

// What is told of a file that may be absent.
fn shown_file(alloc: Global, bytes: Option<&[u8]>, from: usize) -> Result<String, AllocError> {
    match bytes {
        Some(bytes) => shown_bytes(alloc, bytes, from),
        None => format!(in alloc; "no file"),
    }
}

/// Whether a file has the bytes that are wanted, or is absent where none are.
pub(crate) fn bytes_are<R: Print>(
    rt: &R,
    alloc: Global,
    at: &At<'_>,
    name: &str,
    wanted: Option<&[u8]>,
    found: Option<&[u8]>,
) -> Result<bool, AllocError>
    ensures { IfOk result (λ right. IsTrue right
        ↔ (option_map (λ b. b.now) wanted.entry ≡ option_map (λ b. b.now) found.entry)) }
{
    if wanted == found {
        return Ok(true);
    }
    let from = same_front(wanted.unwrap_or(&[]), found.unwrap_or(&[]));
    let wanted = shown_file(alloc, wanted, from)?;
    let found = shown_file(alloc, found, from)?;
    tell(rt, at, name, wanted.as_str(), found.as_str());
    Ok(false)
}
