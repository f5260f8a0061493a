//! An insertion in place of all related pairs.
ghost use Rattle.std.specs.Prelude.{◌≡◌, ℕ, List, true, false, OnOk, OnErr, Some, if◌then◌else◌};
ghost use Rattle.blart_keys.specs.Bytes.{begins};
ghost use Rattle.blart_keys.specs.Content.{IsContent, IsOver};
ghost use Rattle.blart_keys.specs.Steps.{bytes, PutsOver};
ghost use Rattle.blart_keys.specs.Stored.{pair_at_front, has, overlaps, Overwrites};
ghost use Rattle.art_tree.specs.Leaves.{leaf_in, with_pair};
ghost use Rattle.blart_map.specs.Content.{pairs};
ghost use Rattle.art_edits.specs.Spans.{Spans, thinned};
ghost use Rattle.blart_keys.specs.Routed.{spared_item};
ghost use Rattle.art_tree.specs.Pairs.{pairs_of};

use crate::map::TreeMap;
use art_edits::leave_one;
use art_tree::{LeafId, Point};
use blart_keys::AsBytes;
use std::alloc::AllocError;

impl<K: AsBytes + Drop, V: Drop, const PREFIX_LEN: usize> TreeMap<K, V, PREFIX_LEN> {
    /// Inserts the pair in place of all pairs whose keys are related to its key.
    ///
    /// If there are such pairs, it does not allocate. If it returns an error, the map is unchanged.
    ///
    /// Cost: one descent, and one for each related pair but one. If there are none, an insertion.
    ///
    /// ```
    /// map.try_insert("car", 1)?;
    /// map.try_insert("cat", 2)?;
    /// map.prefix_insert("ca", 3)?;
    /// assert_eq!(map.len(), 1);
    /// assert_eq!(map.prefix_get(&"cat"), Some(&3));
    /// ```
    #[tactic(auto, unfolding(crate::specs::Content::pairs))]
    pub fn prefix_insert(&mut self, key: K, value: V) -> Result<(), AllocError>
        ensures over { OnOk result
            (Overwrites K.bytes (pairs self.old) (key, value) (pairs self.new)) }
        ensures fronts { OnOk result ((r : List ℕ) → begins (K.bytes key) r ≡ true
            → pair_at_front K.bytes (pairs self.new) r ≡ Some (key, value)) }
        ensures routes { OnOk result ((r : List ℕ) → pair_at_front K.bytes (pairs self.new) r
            ≡ (if begins (K.bytes key) r then Some (key, value)
            else spared_item (bytes K.bytes) (K.bytes key)
            (pair_at_front K.bytes (pairs self.old) r))) }
        ensures err { OnErr result (self.new ≡ self.old) }
        ensures free { OnErr result (overlaps K.bytes (pairs self.old) (K.bytes key) ≡ false) }
        ensures absent { OnErr result (has K.bytes (pairs self.old) (K.bytes key) ≡ false) }
        ensures put { PutsOver K.bytes (pairs self.old) (key, value) result (pairs self.new) }
    {
        self.tree.law();
        match self.tree.point(key.as_bytes()) {
            Point::Related { first, last } => {
                self.overwrite(first, last, key, value);
                Ok(())
            }
            Point::Exact(id) => {
                self.tree.swap(id, key, value);
                Ok(())
            }
            point => {
                self.tree.make_room(&point)?;
                self.tree.place(point, key, value);
                Ok(())
            }
        }
    }

    /// Places the pair in place of the related pairs, from the first leaf to the last, under the id
    /// of the last leaf.
    pub(crate) fn overwrite(&mut self, first: LeafId, last: LeafId, key: K, value: V)
        requires { Spans K.bytes self.old (K.bytes key) first last }
        ensures over { IsOver (bytes K.bytes) (pairs_of self.old) (key, value)
            (pairs_of self.new) }
        ensures now { leaf_in self.new last ≡ Some (key, value) }
        ensures exact { self.new
            ≡ with_pair (thinned K.bytes self.old (K.bytes key) last) last (key, value) }
        ensures content { IsContent (bytes K.bytes) (pairs_of self.old) }
    {
        self.tree.law();
        leave_one(&mut self.tree, first, last, key.as_bytes());
        self.tree.law();
        self.tree.swap(last, key, value);
        self.tree.law();
    }
}
