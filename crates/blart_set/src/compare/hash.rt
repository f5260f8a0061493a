//! Hashes of sets.
ghost use Rattle.std.specs.Hash as fed;
ghost use Rattle.std.specs.Hash.{on_Alike, items_Alike};
ghost use Rattle.blart_set.specs.Elements.{elements};

use crate::set::TreeSet;
use blart_keys::AsBytes;
use std::hash::{Hash, Hasher};

impl<K: AsBytes + Hash, const PREFIX_LEN: usize> Hash for TreeSet<K, PREFIX_LEN> {
    ghost hash_input = { λ s. fed.slice K.hash_input (elements s) };

    ghost respects_eq = { (on_Alike (λ s. elements s)
        (items_Alike (record { fed = K.respects_eq }))).fed };

    /// Feeds the hasher the number of elements, by `write_usize`, and then each element. Equal sets
    /// feed it the same.
    ///
    /// Cost: one pass over the set.
    fn hash<H: Hasher>(&self, state: &mut H) {
        self.map.hash(state);
    }
}
