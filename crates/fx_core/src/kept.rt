//! The kept values, the most recently used first. Contracts see them as a list of keys and values
//! with a capacity.
ghost use Rattle.std.specs.Prelude.{◌≡◌, ◌≤◌, [], length, option_map, option_copied, IfOk, OnErr, IfErr, OnOk, IsOk, None};
ghost use Rattle.std.specs.Arc.{arc_value};
ghost use Rattle.std.specs.Map.{lookup};
ghost use Rattle.fx_core.specs.Step.{with_front, is_full, with_new};

use fx_base::Memory;
use lru::LruCache;
use std::alloc::{AllocFailed, Global};
use std::hash::Hash;
use std::marker::Model;
use std::num::NonZeroUsize;
use std::sync::Arc;

/// The kept values under their keys. With capacity 0 there is no cache.
#[derive(Drop)]
pub struct Kept<K: Eq + Hash, V> {
    cache: Option<LruCache<Arc<K>, Arc<V>>>,
}

impl<K: Eq + Hash, V> Model for Kept<K, V> {
    ghost use Rattle.fx_core.specs.Shelf.{Shelf};
    ghost use Rattle.fx_core.specs.Seen.{shelf_of};

    ghost Value = { Shelf K V };

    ghost view = { λ kept. shelf_of kept.cache };
}

impl<K: Eq + Hash + Drop, V: Drop> Kept<K, V> {
    /// Nothing, of at most so many.
    pub fn new(alloc: Global, capacity: u32) -> Result<Kept<K, V>, Memory>
        ensures { IfOk result (λ kept. (kept.entries ≡ []) × (kept.capacity ≡ capacity)) }
    {
        let cache = match NonZeroUsize::new(capacity as usize) {
            Some(capacity) => Some(LruCache::sparse(alloc, capacity)?),
            None => None,
        };
        Ok(Kept { cache })
    }

    /// The value that is kept under a key. The order stays.
    pub fn find(&self, key: &Arc<K>) -> Option<&Arc<V>>
        ensures { option_map arc_value (option_copied result)
            ≡ lookup (K.eq (arc_value key.now)) self.now.entries }
    {
        match &self.cache {
            Some(cache) => cache.peek(key),
            None => None,
        }
    }

    /// Brings the entry of a key to the front.
    pub fn bring_to_front(&mut self, key: &Arc<K>)
        ensures entries { self.new.entries ≡ with_front (K.eq (arc_value key.now)) self.old.entries }
        ensures capacity { self.new.capacity ≡ self.old.capacity }
    {
        let Some(cache) = &mut self.cache else {
            return;
        };
        cache.promote(key);
    }

    /// Keeps a value under a new key, at the front, and says whether the last entry had to go. The
    /// pair comes back where memory is wanting.
    pub fn put(&mut self, key: Arc<K>, value: Arc<V>) -> Result<bool, (Arc<K>, Arc<V>)>
        requires { lookup (K.eq (arc_value key)) self.old.entries ≡ None }
        ensures entries { OnOk result (self.new.entries
            ≡ with_new self.old.capacity self.old.entries (arc_value key, arc_value value)) }
        ensures capacity { self.new.capacity ≡ self.old.capacity }
        ensures evicted { IfOk result (λ evicted. evicted ≡ is_full self.old.capacity self.old.entries) }
        ensures unchanged { OnErr result (self.new ≡ self.old) }
        ensures back { IfErr result (λ pair. pair ≡ (key, value)) }
        ensures no_room { self.old.capacity ≡ 0 → IsOk result }
    {
        let Some(cache) = &mut self.cache else {
            return Ok(false);
        };
        let full = cache.len() == cache.cap().get();
        match cache.put(key, value) {
            Ok(_) => Ok(full),
            Err(AllocFailed { value: pair }) => Err(pair),
        }
    }
}
