//! The bytes of files as cases write them.
ghost use Rattle.std.specs.Prelude.{◌≤◌, IfOk};

use crate::fault::CaseFault;
use crate::graph::Members;
use serde_json::Value;
use std::alloc::{AllocError, Global};

// How often a piece or a row may stand there.
const MOST_TIMES: u64 = 1 << 20;

// How often a piece or a row stands there.
fn times_of(times: Option<u64>) -> Result<u64, CaseFault>
    ensures { IfOk result (λ times. times ≤ 1048576) }
{
    match times {
        Some(times) if times <= MOST_TIMES => Ok(times),
        _ => Err(CaseFault::of("how often")),
    }
}

// Appends the bytes of hexadecimal digits so often.
fn add_digits(
    alloc: Global,
    digits: &str,
    times: u64,
    bytes: &mut Vec<u8>,
) -> Result<(), CaseFault> {
    let part = hex::decode(alloc, digits)?;
    for _ in 0..times {
        bytes.extend_from_slice(part.as_slice())?;
    }
    Ok(())
}

// Appends the bytes of hexadecimal digits, as often as the number behind a `*` says.
fn add_piece(alloc: Global, piece: &str, bytes: &mut Vec<u8>) -> Result<(), CaseFault> {
    match piece.split_once('*') {
        Some((digits, times)) => {
            let times = times_of(times.parse::<u64>().ok())?;
            add_digits(alloc, digits, times, bytes)
        }
        None => add_digits(alloc, piece, 1, bytes),
    }
}

// Appends the bytes of pieces with spaces between them.
fn add_pieces(alloc: Global, row: &str, bytes: &mut Vec<u8>) -> Result<(), CaseFault> {
    for piece in row.split_whitespace() {
        add_piece(alloc, piece, bytes)?;
    }
    Ok(())
}

// Appends the bytes of a number and a text, which stands so often.
fn add_times(alloc: Global, pair: &[Value], bytes: &mut Vec<u8>) -> Result<(), CaseFault> {
    let [times, Value::String(row)] = pair else {
        return Err(CaseFault::of("rows"));
    };
    for _ in 0..times_of(times.as_u64())? {
        add_pieces(alloc, row.as_str(), bytes)?;
    }
    Ok(())
}

// Appends the bytes of a row: a text, or a number and a text that stands so often.
fn add_row(alloc: Global, row: &Value, bytes: &mut Vec<u8>) -> Result<(), CaseFault> {
    match row {
        Value::String(row) => add_pieces(alloc, row.as_str(), bytes),
        Value::Array(pair) => add_times(alloc, pair.as_slice(), bytes),
        _ => Err(CaseFault::of("rows")),
    }
}

fn add_rows(alloc: Global, rows: &[Value], bytes: &mut Vec<u8>) -> Result<(), CaseFault> {
    for row in rows {
        add_row(alloc, row, bytes)?;
    }
    Ok(())
}

fn add_line(line: &str, bytes: &mut Vec<u8>) -> Result<(), AllocError> {
    bytes.extend_from_slice(line.as_bytes())?;
    bytes.extend_from_slice(b"\n")
}

// Appends a header, whose lines stand with a comma and a space between them.
fn add_header(lines: &str, bytes: &mut Vec<u8>) -> Result<(), AllocError> {
    add_line("P7", bytes)?;
    for line in lines.split(", ") {
        add_line(line, bytes)?;
    }
    add_line("ENDHDR", bytes)
}

// Appends the bytes of a frame: its header and its rows from the top.
fn add_frame(alloc: Global, members: &Members, bytes: &mut Vec<u8>) -> Result<(), CaseFault> {
    match (members.get("pam"), members.get("rows")) {
        (Some(Value::String(header)), Some(Value::Array(rows))) => {
            add_header(header.as_str(), bytes)?;
            add_rows(alloc, rows.as_slice(), bytes)
        }
        _ => Err(CaseFault::of("a file")),
    }
}

// Appends the bytes of a value as JSON, without spaces.
fn add_json(alloc: Global, value: &Value, bytes: &mut Vec<u8>) -> Result<(), AllocError> {
    let text = value.to_string(alloc)?;
    bytes.extend_from_slice(text.as_bytes())
}

// Appends the bytes that one member says.
fn add_member(
    alloc: Global,
    name: &str,
    value: &Value,
    bytes: &mut Vec<u8>,
) -> Result<(), CaseFault> {
    match (name, value) {
        ("text", Value::String(text)) => Ok(bytes.extend_from_slice(text.as_bytes())?),
        ("hex", Value::String(digits)) => add_pieces(alloc, digits.as_str(), bytes),
        ("json", value) => Ok(add_json(alloc, value, bytes)?),
        _ => Err(CaseFault::of("a file")),
    }
}

// Appends the bytes of a file with one member, or of a header and its rows.
fn add_file(alloc: Global, members: &Members, bytes: &mut Vec<u8>) -> Result<(), CaseFault> {
    if members.len() == 2 {
        return add_frame(alloc, members, bytes);
    }
    if members.len() != 1 {
        return Err(CaseFault::of("a file"));
    }
    for (name, value) in members.iter() {
        add_member(alloc, name.as_str(), value, bytes)?;
    }
    Ok(())
}

// What is said of a file: by one object, or under the name of a frame that the cases share.
fn said_of<'v>(frames: Option<&'v Value>, file: &'v Value) -> Option<&'v Value> {
    match (file, frames) {
        (Value::String(name), Some(Value::Object(frames))) => frames.get(name.as_str()),
        _ => Some(file),
    }
}

/// The bytes of a file: as one object says, or under the name of a frame that the cases share.
pub(crate) fn bytes_of(
    alloc: Global,
    frames: Option<&Value>,
    file: &Value,
) -> Result<Vec<u8>, CaseFault> {
    let Some(Value::Object(members)) = said_of(frames, file) else {
        return Err(CaseFault::of("a file"));
    };
    let mut bytes = Vec::new(alloc);
    add_file(alloc, members, &mut bytes)?;
    Ok(bytes)
}
