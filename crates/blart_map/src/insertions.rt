//! Insertions.
ghost use Rattle.std.specs.Prelude.{◌≡◌, ◌+◌, ℕ, List, true, false, length, option_map, is_some, OnOk, IfOk, OnErr, IfErr, Some, if◌then◌else◌};
ghost use Rattle.blart_keys.specs.Bytes.{begins};
ghost use Rattle.blart_keys.specs.Steps.{Puts, Inserts};
ghost use Rattle.blart_keys.specs.Stored.{kept, pair_at, pair_at_front, value_at, has, overlaps, Updates, Refuses};
ghost use Rattle.blart_map.specs.Content.{pairs};
ghost use Rattle.blart_keys.specs.Routed.{OverlapsToo};

use crate::map::TreeMap;
use art_edits::{insert, insert_disjoint, replace};
use blart_keys::{AsBytes, NoPrefixesBytes, TryInsertError};
use std::alloc::AllocError;

impl<K: AsBytes + Drop, V: Drop, const PREFIX_LEN: usize> TreeMap<K, V, PREFIX_LEN> {
    /// Sets the value of the stored key with these bytes and returns the old value, or inserts the
    /// pair and returns `None`. A stored key is unchanged, and the key that was handed in is then
    /// dropped. [`TreeMap::replace_entry`] replaces both the key and the value.
    ///
    /// Returns the error `Prefix` exactly if the key conflicts, and `Memory` only if the bytes are
    /// new. If it returns an error, the map is unchanged.
    ///
    /// Cost: an insertion.
    ///
    /// ```
    /// assert_eq!(map.try_insert("cat", 1)?, None);
    /// assert_eq!(map.try_insert("cat", 2)?, Some(1));
    /// assert!(matches!(map.try_insert("cats", 3), Err(TryInsertError::Prefix(_))));
    /// assert_eq!(map.get(&"cat"), Some(&2));
    /// ```
    #[tactic(auto, unfolding(crate::specs::Content::pairs))]
    pub fn try_insert(&mut self, key: K, value: V) -> Result<Option<V>, TryInsertError>
        ensures old { IfOk result
            (λ old. old ≡ value_at K.bytes (pairs self.old) (K.bytes key)) }
        ensures updates { OnOk result
            (Updates K.bytes (pairs self.old) (pairs self.new) (K.bytes key)
            (Some (kept K.bytes (pairs self.old) (key, value)))) }
        ensures len { IfOk result
            (λ old. length (pairs self.new)
            ≡ length (pairs self.old) + (if is_some old then 0 else 1)) }
        ensures fronts { OnOk result ((r : List ℕ) → begins (K.bytes key) r ≡ true
            → pair_at_front K.bytes (pairs self.new) r
            ≡ Some (kept K.bytes (pairs self.old) (key, value))) }
        ensures routes { OnOk result ((r : List ℕ) → pair_at_front K.bytes (pairs self.new) r
            ≡ (if begins (K.bytes key) r then Some (kept K.bytes (pairs self.old) (key, value))
            else pair_at_front K.bytes (pairs self.old) r)) }
        ensures overlapped { OnOk result
            (OverlapsToo K.bytes (pairs self.old) (pairs self.new) (K.bytes key)) }
        ensures err { OnErr result (self.new ≡ self.old) }
        ensures free { OnOk result (overlaps K.bytes (pairs self.old) (K.bytes key) ≡ false) }
        ensures why { IfErr result (Refuses K.bytes (pairs self.old) (K.bytes key)) }
        ensures put { Puts K.bytes (option_map (λ pair. pair.1))
            (pairs self.old) (key, value) (kept K.bytes (pairs self.old) (key, value)) result
            (pairs self.new) }
    {
        self.law();
        insert(&mut self.tree, key, value)
    }

    /// Replaces the pair with the same bytes and returns the old pair, or inserts the pair and
    /// returns `None`. The key that was handed in is always stored. Returns errors like
    /// [`TreeMap::try_insert`].
    ///
    /// Cost: an insertion.
    #[tactic(auto, unfolding(crate::specs::Content::pairs))]
    pub fn replace_entry(&mut self, key: K, value: V) -> Result<Option<(K, V)>, TryInsertError>
        ensures old { IfOk result (λ old. old ≡ pair_at K.bytes (pairs self.old) (K.bytes key)) }
        ensures updates { OnOk result
            (Updates K.bytes (pairs self.old) (pairs self.new) (K.bytes key)
            (Some (key, value))) }
        ensures len { IfOk result
            (λ old. length (pairs self.new)
            ≡ length (pairs self.old) + (if is_some old then 0 else 1)) }
        ensures fronts { OnOk result ((r : List ℕ) → begins (K.bytes key) r ≡ true
            → pair_at_front K.bytes (pairs self.new) r ≡ Some (key, value)) }
        ensures routes { OnOk result ((r : List ℕ) → pair_at_front K.bytes (pairs self.new) r
            ≡ (if begins (K.bytes key) r then Some (key, value)
            else pair_at_front K.bytes (pairs self.old) r)) }
        ensures overlapped { OnOk result
            (OverlapsToo K.bytes (pairs self.old) (pairs self.new) (K.bytes key)) }
        ensures err { OnErr result (self.new ≡ self.old) }
        ensures free { OnOk result (overlaps K.bytes (pairs self.old) (K.bytes key) ≡ false) }
        ensures why { IfErr result (Refuses K.bytes (pairs self.old) (K.bytes key)) }
        ensures put { Puts K.bytes (λ pair. pair) (pairs self.old) (key, value) (key, value)
            result (pairs self.new) }
    {
        self.law();
        replace(&mut self.tree, key, value)
    }
}

impl<K: NoPrefixesBytes + Drop, V: Drop, const PREFIX_LEN: usize> TreeMap<K, V, PREFIX_LEN> {
    /// Sets the value of the stored key with these bytes and returns the old value, or inserts the
    /// pair and returns `None`. A stored key is unchanged, and the key that was handed in is then
    /// dropped. Keys of this type never conflict.
    ///
    /// Returns an error only if the bytes are new. The map is then unchanged.
    ///
    /// Cost: an insertion.
    ///
    /// ```
    /// assert_eq!(map.insert(U32Key::new(258), 'a')?, None);
    /// assert_eq!(map.insert(U32Key::new(258), 'b')?, Some('a'));
    /// ```
    #[tactic(auto, unfolding(crate::specs::Content::pairs))]
    pub fn insert(&mut self, key: K, value: V) -> Result<Option<V>, AllocError>
        ensures old { IfOk result
            (λ old. old ≡ value_at K.bytes (pairs self.old) (K.bytes key)) }
        ensures updates { OnOk result
            (Updates K.bytes (pairs self.old) (pairs self.new) (K.bytes key)
            (Some (kept K.bytes (pairs self.old) (key, value)))) }
        ensures len { IfOk result
            (λ old. length (pairs self.new)
            ≡ length (pairs self.old) + (if is_some old then 0 else 1)) }
        ensures fronts { OnOk result ((r : List ℕ) → begins (K.bytes key) r ≡ true
            → pair_at_front K.bytes (pairs self.new) r
            ≡ Some (kept K.bytes (pairs self.old) (key, value))) }
        ensures routes { OnOk result ((r : List ℕ) → pair_at_front K.bytes (pairs self.new) r
            ≡ (if begins (K.bytes key) r then Some (kept K.bytes (pairs self.old) (key, value))
            else pair_at_front K.bytes (pairs self.old) r)) }
        ensures err { OnErr result (self.new ≡ self.old) }
        ensures absent { OnErr result (has K.bytes (pairs self.old) (K.bytes key) ≡ false) }
        ensures put { Inserts K.bytes (pairs self.old) (key, value)
            (kept K.bytes (pairs self.old) (key, value)) result (pairs self.new) }
    {
        self.law();
        insert_disjoint(&mut self.tree, key, value)
    }
}
