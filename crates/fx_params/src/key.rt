//! A key: the value that a parameter has at a frame, and the way from one key to the next.
ghost use Rattle.std.specs.Prelude.{◌≡◌, ℤ, pos, negsuc, ◌+ℤ◌, ◌-ℤ◌, ◌*ℤ◌, ◌≤ℤ◌, ◌<ℤ◌};
ghost use Rattle.std.specs.Int.{int_div_euclid};
ghost use Rattle.fx_base.specs.Rect.{IsFrame};
ghost use Rattle.fx_params.specs.Parameter.{between};

/// The value at a frame.
#[derive(Clone, Copy, Debug, PartialEq, Eq)]
pub struct Key {
    pub frame: i64,
    pub value: i64,
}

impl Key {
    /// The value at a frame from this key on and before the next one: on the straight line between
    /// the two, rounded down.
    pub(crate) fn toward(self, next: Key, frame: i64) -> i64
        requires this_frame { IsFrame self.frame }
        requires next_frame { IsFrame next.frame }
        requires from { self.frame ≤ℤ frame }
        requires to { frame <ℤ next.frame }
        ensures { result ≡ between self next frame }
    {
        let rise = distance(self.value, next.value);
        let part = distance(self.frame, frame);
        let whole = distance(self.frame, next.frame);
        moved(self.value, share(rise, part, whole))
    }
}

// In wide numbers, so that it fits at any two ends.
fn distance(from: i64, to: i64) -> i128
    ensures value { result ≡ to -ℤ from }
    ensures low { negsuc 18446744073709551615 ≤ℤ result }
    ensures high { result ≤ℤ pos 18446744073709551616 }
{
    i128::from(to) - i128::from(from)
}

fn moved(from: i64, by: i128) -> i64
    requires low { negsuc 9223372036854775807 ≤ℤ (from +ℤ by) }
    requires high { (from +ℤ by) ≤ℤ pos 9223372036854775807 }
    ensures { result ≡ from +ℤ by }
{
    (i128::from(from) + by) as i64
}

// The share of a rise that `part` frames of `whole` have, rounded down.
fn share(rise: i128, part: i128, whole: i128) -> i128
    requires steepest_down { negsuc 18446744073709551615 ≤ℤ rise }
    requires steepest_up { rise ≤ℤ pos 18446744073709551616 }
    requires started { pos 0 ≤ℤ part }
    requires unfinished { part <ℤ whole }
    requires near { whole ≤ℤ pos 2147483648 }
    ensures { result ≡ int_div_euclid (rise *ℤ part) whole }
{
    (rise * part).div_euclid(whole)
}
