//! The header of a PAM file: lines up to `ENDHDR`.
ghost use Rattle.std.specs.Prelude.{◌≡◌, ◌≤◌, ◌<◌, ◌+◌, ◌==◌, length, reverse, IfOk, IfErr};
ghost use Rattle.std.specs.List.{position};
ghost use Rattle.fx_pam.specs.Header.{is_blank, without_blanks, trimmed, is_space, without_spaces, number_in, number_behind, tuple_type_behind, saying_of, lines_of, header_of, no_numbers};
ghost use Rattle.fx_pam.specs.Seen.{seen, Leads, reading_of};

use crate::PamField;
use crate::numbers::{HeaderNumbers, HeaderSoFar};

/// What a line of the header says.
#[derive(Clone, Copy, Debug, PartialEq, Eq)]
pub enum Said {
    Nothing,
    End,
    Number(PamField, u32),
    Wrong,
}

fn is_blank(b: u8) -> bool
    ensures { result ≡ is_blank b }
{
    (b == b' ') | (b == b'\t') | (b == b'\r')
}

fn is_space(b: u8) -> bool
    ensures { result ≡ is_space b }
{
    (b == b' ') | (b == b'\t')
}

fn without_blanks(line: &[u8]) -> &[u8]
    ensures { result.now ≡ without_blanks line.now }
{
    let mut rest = line;
    while let [first, behind @ ..] = rest {
        if !is_blank(*first) {
            return rest;
        }
        rest = behind;
    }
    rest
}

fn without_blanks_behind(line: &[u8]) -> &[u8]
    ensures { result.now ≡ reverse (without_blanks (reverse line.now)) }
{
    let mut rest = line;
    while let [before @ .., last] = rest {
        if !is_blank(*last) {
            return rest;
        }
        rest = before;
    }
    rest
}

fn trimmed(line: &[u8]) -> &[u8]
    ensures { result.now ≡ trimmed line.now }
{
    without_blanks_behind(without_blanks(line))
}

fn without_spaces(text: &[u8]) -> &[u8]
    ensures { result.now ≡ without_spaces text.now }
{
    let mut rest = text;
    while let [first, behind @ ..] = rest {
        if !is_space(*first) {
            return rest;
        }
        rest = behind;
    }
    rest
}

fn number_in(digits: &[u8]) -> Option<u32>
    ensures { result ≡ number_in digits.now }
{
    if digits.is_empty() {
        return None;
    }
    let mut value = 0u64;
    for b in digits {
        if !b.is_ascii_digit() {
            return None;
        }
        value = (value * 10 + u64::from(*b - b'0')).min(999_999_999);
    }
    Some(value as u32)
}

// What a line says that begins with the word of a number, by what stands behind the word.
fn number_behind(field: PamField, text: &[u8]) -> Said
    ensures { seen result ≡ number_behind field text.now }
{
    match text {
        [first, behind @ ..] if is_space(*first) => match number_in(without_spaces(behind)) {
            Some(n) => Said::Number(field, n),
            None => Said::Wrong,
        },
        _ => Said::Wrong,
    }
}

fn tuple_type_behind(text: &[u8]) -> Said
    ensures { seen result ≡ tuple_type_behind text.now }
{
    match text {
        [] => Said::Nothing,
        [first, ..] if is_space(*first) => Said::Nothing,
        _ => Said::Wrong,
    }
}

// What a trimmed line says.
fn saying_of(line: &[u8]) -> Said
    ensures { seen result ≡ saying_of line.now }
{
    if line.is_empty() || line[0] == b'#' {
        Said::Nothing
    } else if line == b"ENDHDR".as_slice() {
        Said::End
    } else if line.starts_with(b"WIDTH") {
        number_behind(PamField::Width, &line[5..])
    } else if line.starts_with(b"HEIGHT") {
        number_behind(PamField::Height, &line[6..])
    } else if line.starts_with(b"DEPTH") {
        number_behind(PamField::Depth, &line[5..])
    } else if line.starts_with(b"MAXVAL") {
        number_behind(PamField::Maxval, &line[6..])
    } else if line.starts_with(b"TUPLTYPE") {
        tuple_type_behind(&line[8..])
    } else {
        Said::Wrong
    }
}

// What a line leads to: the numbers to go on with, all four of them, or a wrong header.
#[derive(Clone, Copy, Debug, PartialEq, Eq)]
enum AfterLine {
    On(HeaderSoFar),
    Complete(HeaderNumbers),
    Wrong,
}

fn after_line(so_far: HeaderSoFar, said: Said) -> AfterLine
    ensures { Leads so_far (seen said) result }
{
    match said {
        Said::Nothing => AfterLine::On(so_far),
        Said::End => match so_far.complete() {
            Some(numbers) => AfterLine::Complete(numbers),
            None => AfterLine::Wrong,
        },
        Said::Number(field, n) => match so_far.number(field) {
            Some(_) => AfterLine::Wrong,
            None => AfterLine::On(so_far.with(field, n)),
        },
        Said::Wrong => AfterLine::Wrong,
    }
}

// Where the first line ends, if a line feed ends it.
fn line_end(bytes: &[u8]) -> Option<usize>
    ensures { result ≡ position (λ b. b == 10) bytes.now }
{
    bytes.iter().position(|b| *b == b'\n')
}

/// The numbers of a header and the bytes behind it, or the number of its first wrong line. The bytes
/// are those behind the line `P7`, which has number 1.
pub fn read_header(bytes: &[u8]) -> Result<(HeaderNumbers, &[u8]), u64>
    ensures { reading_of result ≡ header_of 2 no_numbers (lines_of bytes.now) }
{
    let mut rest = bytes;
    let mut line = 2u64;
    let mut so_far = HeaderSoFar::NONE;
    while let Some(end) = line_end(rest) {
        let said = saying_of(trimmed(&rest[..end]));
        rest = &rest[end + 1..];
        match after_line(so_far, said) {
            AfterLine::On(next) => so_far = next,
            AfterLine::Complete(numbers) => return Ok((numbers, rest)),
            AfterLine::Wrong => return Err(line),
        }
        line += 1;
    }
    Err(line)
}
