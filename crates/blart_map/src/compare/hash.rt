//! Hashes of maps.
ghost use Rattle.std.specs.Prelude.{◌++◌};
ghost use Rattle.std.specs.Hash as fed;
ghost use Rattle.std.specs.Hash.{on_Alike, items_Alike, and-Alike};
ghost use Rattle.blart_map.specs.Content.{pairs};

use crate::map::TreeMap;
use blart_keys::AsBytes;
use std::hash::{Hash, Hasher};

impl<K: AsBytes + Hash, V: Hash, const PREFIX_LEN: usize> Hash for TreeMap<K, V, PREFIX_LEN> {
    ghost hash_input = { λ m. fed.slice (λ p. K.hash_input p.0 ++ V.hash_input p.1) (pairs m) };

    ghost respects_eq = { (on_Alike (λ m. pairs m)
        (items_Alike (and-Alike (on_Alike (λ p. p.0) (record { fed = K.respects_eq }))
        (on_Alike (λ p. p.1) (record { fed = V.respects_eq }))))).fed };

    /// Feeds the hasher the number of pairs, by `write_usize`, and then each key and its value.
    /// Equal maps feed the same.
    ///
    /// Cost: one pass over the map.
    fn hash<H: Hasher>(&self, state: &mut H) {
        art_walk::hash(self.iter(), state);
    }
}
