//! What a value means to the directory that keeps it.
ghost use Rattle.std.specs.Prelude.{◌≡◌, true};

/// Whether a value suits a name under a key. Under equal keys the same values do.
///
/// Of two names the first may have `grown` to the second: what suits the one then suits the other.
pub trait Suits<N, K: Eq> {
    ghost suits: { N → K → Self → Type 0 };

    ghost grown: { N → N → Type 0 };

    ghost same_key: { (n : N) (j k : K) (v : Self) → K.eq j k ≡ true → suits n j v → suits n k v };

    ghost still_suits: { (old new : N) (k : K) (v : Self) → grown old new → suits old k v → suits new k v };
}
