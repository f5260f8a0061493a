//! The value of a key, which is placed first if none is stored.
ghost use Rattle.std.specs.Prelude.{◌≡◌, false, None, IfOk, OnErr};
ghost use Rattle.std.specs.Borrow.{sem};
ghost use Rattle.std.specs.Option.{unwrap_or, UnwrapsOrElse};
ghost use Rattle.blart_keys.specs.Stored.{value_at, has};
ghost use Rattle.blart_map.specs.Content.{pairs};
ghost use Rattle.blart_map.specs.Lent.{lends_key_ok};

use crate::map::TreeMap;
use blart_keys::NoPrefixesBytes;
use std::alloc::AllocError;

impl<K: NoPrefixesBytes + Drop, V: Drop, const PREFIX_LEN: usize> TreeMap<K, V, PREFIX_LEN> {
    /// Returns a mutable reference to the value of the key. If no value is stored, it first places
    /// the pair. A stored key is unchanged, and the key that was handed in is then dropped.
    ///
    /// Returns an error only if the bytes are new. The map is then unchanged.
    ///
    /// Cost: one descent, and for new bytes also an insertion.
    ///
    /// ```
    /// *map.get_or_insert(U32Key::new(258), 0)? += 1;
    /// assert_eq!(map.get(&U32Key::new(258)), Some(&1));
    /// ```
    pub fn get_or_insert(&mut self, key: K, value: V) -> Result<&mut V, AllocError>
        ensures* writes_back { sem 𝓛
            (lends_key_ok K.row V.row PREFIX_LEN.row K.AsBytes self.entry key result) }
        ensures value { IfOk result
            (λ r. r.now ≡ unwrap_or (value_at K.bytes (pairs self.old) (K.bytes key)) value) }
        ensures absent { OnErr result (has K.bytes (pairs self.old) (K.bytes key) ≡ false) }
    {
        match self.leaf_of_disjoint(&key) {
            Some(id) => Ok(self.value_mut(id)),
            None => match self.place_new(key, value) {
                Ok(id) => Ok(self.value_mut(id)),
                Err(refused) => Err(refused),
            },
        }
    }

    /// Returns a mutable reference to the value of the key. If no value is stored, it first places
    /// the key with the value that the closure returns. The closure is called only then, once there
    /// is room.
    ///
    /// Returns an error only if the bytes are new. The map is then unchanged.
    ///
    /// Cost: one descent, and for new bytes also an insertion.
    #[tactic(auto, using(art_edits::proofs::Placed::SettingAt::new_none), unfolding(crate::specs::Content::pairs))]
    pub fn get_or_insert_with<F: FnOnce() -> V + Drop>(
        &mut self,
        key: K,
        value: F,
    ) -> Result<&mut V, AllocError>
        requires { value_at K.bytes (pairs self.old) (K.bytes key) ≡ None → F.pre value }
        ensures* writes_back { sem 𝓛
            (lends_key_ok K.row V.row PREFIX_LEN.row K.AsBytes self.entry key result) }
        ensures value { IfOk result (λ r. UnwrapsOrElse
            (value_at K.bytes (pairs self.old) (K.bytes key)) (F.post value) r.now) }
        ensures absent { OnErr result (has K.bytes (pairs self.old) (K.bytes key) ≡ false) }
    {
        match self.leaf_of_disjoint(&key) {
            Some(leaf) => Ok(self.value_mut(leaf)),
            None => match self.place_new_with(key, value) {
                Ok(id) => Ok(self.value_mut(id)),
                Err(refused) => Err(refused),
            },
        }
    }
}
