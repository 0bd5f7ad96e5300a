//! Patterns of file names: `frame.####.pam` names a file for each frame. Contracts see a pattern as
//! its bytes.
ghost use Rattle.std.specs.Prelude.{◌≡◌, ℕ, List, ◌+◌, ◌++◌, ◌≤◌, ◌<◌, ◌^◌, length, OnOk, IfOk, string_bytes};
ghost use Rattle.fx_base.specs.Pattern.{runs, pattern_of, name_of, without_signs, padded_decimal};

use crate::limits::MOST_PATTERN_BYTES;
use crate::{Memory, Name};
use std::alloc::{AllocError, Global};
use std::marker::Model;

/// A text with at most one run of `#`.
#[derive(Debug, Drop)]
pub struct Pattern {
    text: String,
}

impl Model for Pattern {
    ghost use Rattle.std.specs.Prelude.{◌≡◌, ℕ, List, Some, string_bytes};
    ghost use Rattle.fx_base.specs.Pattern.{pattern_of};

    ghost Value = { List ℕ };

    ghost view = { λ pattern. string_bytes pattern.text };

    ghost invariant = { λ pattern. pattern_of (string_bytes pattern.text) ≡ Some (string_bytes pattern.text) };
}

impl Pattern {
    /// The pattern that reads as this text: `None` where the text is empty, longer than 1,024 bytes,
    /// has a byte 0, or has two or more runs of `#`.
    pub fn of(alloc: Global, text: &str) -> Result<Option<Pattern>, Memory>
        ensures { IfOk result (λ found. found ≡ pattern_of text.now) }
    {
        let bytes = text.as_bytes();
        if bytes.is_empty()
            || bytes.len() > MOST_PATTERN_BYTES
            || bytes.contains(&0)
            || runs_of(bytes) > 1
        {
            return Ok(None);
        }
        let text = String::from_str(alloc, text)?;
        Ok(Some(Pattern { text }))
    }

    /// How many runs of `#` it has: 0 or 1.
    pub fn runs(&self) -> u32
        ensures value { result ≡ runs self.now }
        ensures small { result ≤ 1 }
    {
        let text = self.text.as_bytes();
        runs_of(text) as u32
    }

    /// The name of a frame's file: the run of n signs gives way to the frame's number in decimal, with
    /// leading zeros to n digits at least. Without a run it is the pattern's own text.
    pub fn name(&self, alloc: Global, frame: u32) -> Result<Name, Memory>
        ensures value { IfOk result (λ name. name ≡ name_of self.now frame) }

        // With a run, different frames have different names.
        ensures apart { (other : ℕ) → other < 2 ^ 32 → runs self.now ≡ 1
            → name_of self.now other ≡ name_of self.now frame → other ≡ frame }
    {
        Ok(Name::of(name_text(alloc, self.text.as_str(), frame)?))
    }
}

fn runs_of(text: &[u8]) -> usize
    ensures { result ≡ runs text.now }
{
    let mut count = 0usize;
    let mut was = false;
    for b in text {
        let is = *b == b'#';
        if is && !was {
            count += 1;
        }
        was = is;
    }
    count
}

// What stands behind the signs in front.
fn without_signs(text: &str) -> &str
    ensures value { result.now ≡ without_signs text.now }
    ensures shorter { length result.now ≤ length text.now }
{
    let mut rest = text;
    while let Some(next) = rest.strip_prefix('#') {
        rest = next;
    }
    rest
}

// A number in decimal, with leading zeros to a width.
fn push_padded(alloc: Global, out: &mut String, width: usize, n: u32) -> Result<(), AllocError>
    ensures { OnOk result (string_bytes out.new ≡ string_bytes out.old ++ padded_decimal width n) }
{
    let digits = n.to_string(alloc)?;
    let zeros = width.saturating_sub(digits.len());
    for i in 0..zeros {
        let _place = i;
        out.push('0')?;
    }
    out.push_str(digits.as_str())
}

fn name_text(alloc: Global, text: &str, frame: u32) -> Result<String, AllocError>
    ensures { IfOk result (λ name. string_bytes name ≡ name_of text.now frame) }
{
    match text.split_once('#') {
        None => String::from_str(alloc, text),
        Some((before, behind)) => {
            let rest = without_signs(behind);
            let mut name = String::from_str(alloc, before)?;
            push_padded(alloc, &mut name, 1 + (behind.len() - rest.len()), frame)?;
            name.push_str(rest)?;
            Ok(name)
        }
    }
}
