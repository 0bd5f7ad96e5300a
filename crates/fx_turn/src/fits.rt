//! What a value means to the row that keeps it.
ghost use Rattle.std.specs.Prelude.{◌≡◌, ℕ, List, length};
ghost use Rattle.fx_turn.specs.Claims.{NumbersDiffer};

/// Whether a value fits a row's name, what it counts, and which claims stand on it.
///
/// Of two names the first may have `grown` to the second: what fits the one then fits the other.
/// A tally is six numbers. A claim is a number with a mark, and the numbers of a value differ.
pub trait Fits<N> {
    /// What a claim has beside its number: plain data.
    type Mark;

    ghost fits: { N → Self → Type 0 };

    ghost tally: { Self → List ℕ };

    ghost claims: { Self → List (ℕ × Self.Mark) };

    ghost grown: { N → N → Type 0 };

    ghost six_numbers: { (v : Self) → length (tally v) ≡ 6 };

    ghost numbers_differ: { (n : N) (v : Self) → fits n v → NumbersDiffer (claims v) };

    ghost still_fits: { (old new : N) (v : Self) → grown old new → fits old v → fits new v };
}
