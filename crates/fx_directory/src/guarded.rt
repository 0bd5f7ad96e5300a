//! The core as a row's value.
use crate::home::Home;
use crate::suits::Suits;
use fx_core::Core;
use fx_turn::Fits;
use std::hash::Hash;
use std::marker::Model;

/// A core, as a value of a row. It lies on the heap, since each turn moves the value out of its slot and in again.
#[derive(Drop)]
pub(crate) struct Guarded<K: Eq + Hash, V> {
    pub(crate) core: Box<Core<K, V>>,
}

impl<K: Eq + Hash, V> Model for Guarded<K, V> {
    ghost use Rattle.fx_core.specs.State.{State};

    ghost Value = { State K V };

    ghost view = { λ g. g.core.value };
}

// It fits where it is sound, has the row's scene and capacity, and each kept value suits the name under
// its key. It counts what its totals count, evictions apart, and claims the flights that stand, each with
// its key as the mark.
impl<N, K: Eq + Hash, V: Suits<N, K>> Fits<Home<N>> for Guarded<K, V> {
    ghost use Rattle.std.proofs.Common.{refl};
    ghost use Rattle.fx_directory.specs.Keeps.{AtHome, tally_of, at_home_differ, still_at_home};
    ghost use Rattle.fx_directory.specs.Rows.{HasGrown};

    type Mark = K;

    ghost fits = { λ home g. AtHome K.eq V.suits home g };

    ghost tally = { λ g. tally_of g.totals };

    ghost claims = { λ g. g.flying };

    ghost grown = { HasGrown V.grown };

    ghost six_numbers = { λ _. refl };

    ghost numbers_differ = { λ home g. at_home_differ K.eq V.suits home g };

    ghost still_fits = { λ old new g. still_at_home K.eq V.suits V.grown V.still_suits old new g };
}
