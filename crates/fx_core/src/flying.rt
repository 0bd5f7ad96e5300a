//! The keys in flight. Contracts see a list of numbers and keys.
ghost use Rattle.std.specs.Prelude.{◌≡◌, ◌==◌, [], ◌∷◌, ◌++◌, position, OnOk, OnErr};
ghost use Rattle.std.specs.Arc.{arc_value};
ghost use Rattle.std.specs.Map.{remove_entry};
ghost use Rattle.std.specs.List.{list_any};

use fx_base::Memory;
use std::alloc::Global;
use std::marker::Model;
use std::sync::Arc;

/// The flights that stand, each with its number and its key, in the order in which they began.
#[derive(Drop)]
pub struct Flying<K> {
    flights: Vec<(u64, Arc<K>)>,
}

impl<K> Model for Flying<K> {
    ghost use Rattle.std.specs.Prelude.{ℕ, List};
    ghost use Rattle.fx_core.specs.Seen.{flying_of};

    ghost Value = { List (ℕ × K) };

    ghost view = { λ flying. flying_of flying.flights.items };
}

impl<K> Flying<K> {
    /// No flight.
    pub fn new(alloc: Global) -> Flying<K>
        ensures { result ≡ [] }
    {
        Flying {
            flights: Vec::new(alloc),
        }
    }

    /// Whether a key flies.
    pub fn has(&self, key: &Arc<K>) -> bool
    where
        K: Eq,
        ensures { result ≡ list_any (λ f. K.eq (arc_value key.now) f.1) self.now }
    {
        any_flies(self.flights.as_slice(), key)
    }

    /// A key flies under a number from now on.
    pub fn begin(&mut self, number: u64, key: Arc<K>) -> Result<(), Memory>
    where
        K: Drop,
        ensures ok { OnOk result (self.new ≡ self.old ++ (number, arc_value key) ∷ []) }
        ensures unchanged { OnErr result (self.new ≡ self.old) }
    {
        self.flights.push((number, key))?;
        Ok(())
    }

    /// Nothing flies under a number any more.
    pub fn end(&mut self, number: u64)
    where
        K: Drop,
        ensures { self.new ≡ remove_entry (λ n. n == number) self.old }
    {
        take_off(&mut self.flights, number);
    }
}

fn any_flies<K: Eq>(flights: &[(u64, Arc<K>)], key: &Arc<K>) -> bool
    ensures { result ≡ list_any (λ f. K.eq (arc_value key.now) (arc_value f.1)) flights.now }
{
    flights.iter().any(|f| *key == f.1)
}

fn place_of<K>(flights: &[(u64, Arc<K>)], number: u64) -> Option<usize>
    ensures { result ≡ position (λ f. f.0 == number) flights.now }
{
    flights.iter().position(|f| f.0 == number)
}

// Takes the first flight of this number out.
fn take_off<K: Drop>(flights: &mut Vec<(u64, Arc<K>)>, number: u64)
    ensures { flights.new.items ≡ remove_entry (λ n. n == number) flights.old.items }
{
    if let Some(place) = place_of(flights.as_slice(), number) {
        drop(flights.remove(place));
    }
}
