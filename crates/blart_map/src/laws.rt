//! Laws of the definitions that contracts cite, each as a function whose contract is the law.
ghost use Rattle.std.specs.Prelude.{◌≡◌, ◌++◌, List, false};
ghost use Rattle.blart_keys.specs.Bulk.{IsAppended};
ghost use Rattle.blart_keys.specs.Content.{IsPut, IsOver};
ghost use Rattle.blart_keys.specs.Steps.{bytes};
ghost use Rattle.blart_keys.specs.Stored.{overlaps};
ghost use Rattle.blart_map.specs.Content.{pairs};

use crate::map::TreeMap;
use blart_keys::AsBytes;

impl<K: AsBytes, V, const PREFIX_LEN: usize> TreeMap<K, V, PREFIX_LEN> {
    /// Does nothing. Its contract is a law of insertions: if a key does not conflict with the map,
    /// exactly one list satisfies `IsPut`, the clause `put` of an insertion of its pair.
    ///
    /// Cost: none.
    pub fn put_law(&self)
        ensures { (pair : K × V) → overlaps K.bytes (pairs self.now) (K.bytes pair.0) ≡ false
            → (S : List (K × V)) × IsPut (bytes K.bytes) (pairs self.now) pair S
            × ((T : List (K × V)) → IsPut (bytes K.bytes) (pairs self.now) pair T → T ≡ S) }
    {
        self.law();
    }

    /// Does nothing. Its contract is a law of [`TreeMap::prefix_insert`]: for any pair exactly one
    /// list satisfies `IsOver`, which says what the map becomes.
    ///
    /// Cost: none.
    pub fn over_law(&self)
        ensures { (pair : K × V)
            → (S : List (K × V)) × IsOver (bytes K.bytes) (pairs self.now) pair S
            × ((T : List (K × V)) → IsOver (bytes K.bytes) (pairs self.now) pair T → T ≡ S) }
    {
        self.law();
    }

    /// Does nothing. Its contract is a law of [`TreeMap::split_off`] and [`TreeMap::append`]: if
    /// the pairs are parted in two, and the upper part is appended to the lower, they are the same
    /// list again.
    ///
    /// Cost: none.
    pub fn parts_law(&self)
        ensures { (low high S : List (K × V)) → pairs self.now ≡ low ++ high
            → IsAppended (bytes K.bytes) low high S → S ≡ pairs self.now }
    {
        self.law();
    }
}
