//! Moves the pairs of one map into another.
ghost use Rattle.std.specs.Prelude.{◌≡◌, ◌≢◌, ◌++◌, ℕ, List, [], OnOk, OnErr};
ghost use Rattle.blart_keys.specs.Bulk.{IsAppended};
ghost use Rattle.blart_keys.specs.Content.{IsContent};
ghost use Rattle.blart_keys.specs.Steps.{bytes};
ghost use Rattle.blart_keys.specs.Stored.{pair_at};
ghost use Rattle.blart_map.specs.Bulk.{or_else};
ghost use Rattle.blart_map.specs.Content.{pairs};

use crate::map::TreeMap;
use art_edits::move_into;
use blart_keys::NoPrefixesBytes;
use std::alloc::AllocError;

impl<K: NoPrefixesBytes + Drop, V: Drop, const PREFIX_LEN: usize> TreeMap<K, V, PREFIX_LEN> {
    /// Moves all pairs of the other map into this one. The other map is empty then. If both have a
    /// key with the same bytes, the other map's pair is kept. If all keys of the other map are
    /// greater than all keys of this one, as after a [`TreeMap::split_off`], the pairs of the other
    /// map follow the pairs of this one.
    ///
    /// It allocates room for all pairs of the map that has fewer, before any pair moves. If that
    /// fails, both maps are unchanged. If either map is empty, it does not allocate.
    ///
    /// Cost: allocates for the pairs of the map that has fewer, and then makes one insertion for
    /// each of them. The records of that map are freed whole. If that is this map, the two are
    /// exchanged.
    ///
    /// ```
    /// left.insert(U32Key::new(1), 'a')?;
    /// left.insert(U32Key::new(2), 'b')?;
    /// right.insert(U32Key::new(2), 'c')?;
    /// left.append(&mut right)?;
    /// assert_eq!(left.get(&U32Key::new(2)), Some(&'c'));
    /// assert!(right.is_empty());
    /// ```
    #[tactic(auto, unfolding(crate::specs::Content::pairs))]
    pub fn append(&mut self, other: &mut Self) -> Result<(), AllocError>
        ensures found { OnOk result ((q : List ℕ) → pair_at K.bytes (pairs self.new) q
            ≡ or_else (pair_at K.bytes (pairs other.old) q) (pair_at K.bytes (pairs self.old) q)) }
        ensures appended { OnOk result
            (IsAppended (bytes K.bytes) (pairs self.old) (pairs other.old) (pairs self.new)) }
        ensures joined { OnOk result ((S : List (K × V)) → IsContent (bytes K.bytes) S
            → S ≡ pairs self.old ++ pairs other.old → pairs self.new ≡ S) }
        ensures emptied { OnOk result (pairs other.new ≡ []) }
        ensures err { OnErr result (self.new ≡ self.old) }
        ensures other_err { OnErr result (other.new ≡ other.old) }
        ensures refused { OnErr result (pairs self.old ≢ []) }
        ensures other_refused { OnErr result (pairs other.old ≢ []) }
    {
        self.law();
        other.law();
        move_into(&mut other.tree, &mut self.tree, self.alloc)
    }
}
