//! Fixed-point numbers, which stand where OpenFX has doubles: a whole number of units of 1/65536.
ghost use Rattle.std.specs.Prelude.{◌≡◌, ◌≤◌, ◌<◌, ◌+◌, ◌-◌, ◌*◌, ◌^◌, ◌==◌, ℤ, pos, negsuc, ◌*ℤ◌, ◌≤ℤ◌, neg_ℤ, option_map, length, position, Some, IfSome};
ghost use Rattle.fx_base.specs.Fix.{digits_up_to, millionths_at, millionths, rounded, raw_of_text};

/// A whole number of units of 1/65536.
#[derive(Clone, Copy, Debug, PartialEq, Eq)]
pub struct Fix {
    pub raw: i64,
}

impl Fix {
    /// The fixed-point number of a whole number.
    pub fn of_whole(n: i64) -> Fix
        requires low { negsuc 1073741823 ≤ℤ n }
        requires high { n ≤ℤ pos 1073741824 }
        ensures { result.raw ≡ n *ℤ pos 65536 }
    {
        Fix { raw: n * 65536 }
    }

    /// The number that a text writes: perhaps a minus, 1 to 9 digits, and then perhaps a point and
    /// 1 to 6 digits. It is rounded to the nearest unit, and halves up. `None` where the text has
    /// another form.
    pub fn parse(text: &str) -> Option<Fix>
        ensures { option_map (λ fix. fix.raw) result ≡ raw_of_text text.now }
    {
        match raw_of_text(text.as_bytes()) {
            Some(raw) => Some(Fix { raw }),
            None => None,
        }
    }
}

#[tactic(auto, unfolding(crate::specs::Fix::raw_of_text))]
fn raw_of_text(text: &[u8]) -> Option<i64>
    ensures { result ≡ raw_of_text text.now }
{
    if !text.is_empty() && text[0] == b'-' {
        match millionths(&text[1..]) {
            Some(m) => Some(rounded_below(m)),
            None => None,
        }
    } else {
        match millionths(text) {
            Some(m) => Some(rounded_above(m)),
            None => None,
        }
    }
}

// From millionths to units of 1/65536, of a number that isn't negative.
fn rounded_above(millionths: u64) -> i64
    requires { millionths < 2000000000000000 }
    ensures { result ≡ rounded (pos millionths) }
{
    ((131072 * i128::from(millionths) + 1000000).div_euclid(2000000)) as i64
}

// The same of its negative.
fn rounded_below(millionths: u64) -> i64
    requires { millionths < 2000000000000000 }
    ensures { result ≡ rounded (neg_ℤ (pos millionths)) }
{
    ((131072 * -i128::from(millionths) + 1000000).div_euclid(2000000)) as i64
}

fn millionths(text: &[u8]) -> Option<u64>
    ensures value { result ≡ millionths text.now }
    ensures small { IfSome result (λ n. n < 2000000000000000) }
{
    match point_of(text) {
        Some(point) => around(point, text),
        None => match digits(text, 9) {
            Some(whole) => Some(whole * 1000000),
            None => None,
        },
    }
}

fn point_of(text: &[u8]) -> Option<usize>
    ensures { result ≡ position (λ b. b == 46) text.now }
{
    text.iter().position(|b| *b == b'.')
}

// The digits on both sides of a point.
fn around(point: usize, text: &[u8]) -> Option<u64>
    requires { point < length text.now }
    ensures value { result ≡ millionths_at (Some point) text.now }
    ensures small { IfSome result (λ n. n < 2000000000000000) }
{
    let Some(whole) = digits(&text[..point], 9) else {
        return None;
    };
    let decimals = &text[point + 1..];
    match digits(decimals, 6) {
        Some(part) => Some(whole * 1000000 + scaled(part, decimals.len())),
        None => None,
    }
}

// Digits behind a point as millionths.
fn scaled(part: u64, digits: usize) -> u64
    requires part { part < 1000000000 }
    requires digits { digits ≤ 6 }
    ensures value { result ≡ part * 10 ^ (6 - digits) }
    ensures small { result ≤ 1000000 * part }
{
    match digits {
        0 => part * 1000000,
        1 => part * 100000,
        2 => part * 10000,
        3 => part * 1000,
        4 => part * 100,
        5 => part * 10,
        _ => part,
    }
}

// 1 to `most` digits.
fn digits(text: &[u8], most: usize) -> Option<u64>
    requires { most ≤ 9 }
    ensures value { result ≡ digits_up_to most text.now }
    ensures small { IfSome result (λ n. n < 1000000000) }
{
    if text.is_empty() || text.len() > most {
        return None;
    }
    let mut value = 0u64;
    for b in text {
        if !b.is_ascii_digit() {
            return None;
        }
        value = value * 10 + u64::from(*b - b'0');
    }
    Some(value)
}
