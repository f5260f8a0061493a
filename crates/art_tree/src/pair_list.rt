//! Lists of pairs outside of any tree.
ghost use Rattle.std.specs.Prelude.{◌≡◌, ◌+◌, ◌<◌, ◌≤◌, ◌++◌, [], ◌∷◌, length, option_copied, OnOk, OnErr};
ghost use Rattle.blart_keys.specs.Walks.{TakesFirst, TakesLast};
ghost use Rattle.art_tree.specs.PairList.{IsLastKey, ReplacesLast};

use art_rows::Leaves;
use art_slots::Visits;
use std::alloc::{AllocError, Global};
use std::marker::Model;
use std::mem::replace;

/// A list of pairs outside of any tree. A contract sees the pairs in their order, and how many
/// more have room at the end.
///
/// [`Tree::into_pairs`](crate::Tree::into_pairs) returns the pairs of a tree, and
/// [`Tree::from_pairs`](crate::Tree::from_pairs) makes a tree of pairs in byte order.
#[derive(Drop)]
pub struct Pairs<K, V> {
    pub(crate) leaves: Leaves<K, V>,
}

impl<K, V> Model for Pairs<K, V> {
    ghost use Rattle.art_tree.specs.PairList.{PairList, pair_list_code};

    ghost Value = { PairList K V };

    ghost coded = { pair_list_code K.code V.code };

    ghost use Rattle.art_tree.specs.Leaves.{end_room as leaves_end_room};
    ghost use Rattle.art_tree.specs.Pairs.{pairs_of};

    ghost view = { λ p. record {
      pairs = pairs_of p.leaves.pairs;
      end_room = leaves_end_room p.leaves;
    } };
}

impl<K, V> Pairs<K, V> {
    /// Returns a list with no pairs and no room. Does not allocate.
    ///
    /// Cost: constant.
    pub fn new(alloc: Global) -> Self
        ensures pairs { result.pairs ≡ [] }
        ensures room { result.end_room ≡ 0 }
    {
        Pairs {
            leaves: Leaves::new(alloc),
        }
    }

    /// Returns the number of pairs.
    ///
    /// Cost: reads a count.
    pub fn len(&self) -> usize
        ensures { result ≡ length self.now.pairs }
    {
        self.leaves.len()
    }

    /// Returns the key of the last pair, or `None` if there are no pairs. Does not allocate.
    ///
    /// Cost: reads one pair.
    pub fn last_key(&self) -> Option<&K>
        ensures { IsLastKey self.now.pairs (option_copied result) }
    {
        self.leaves.law();
        let Some(last) = self.leaves.last() else {
            return None;
        };
        let (key, _) = self.leaves.read(last, &mut Visits::new());
        Some(key)
    }
}

impl<K: Drop, V: Drop> Pairs<K, V> {
    /// Makes room for `count` more pairs at the end. Returns an error if it fails to allocate. No
    /// error comes if `count` is zero, or if there is room for `count + 64` pairs. The pairs are
    /// unchanged in each case.
    ///
    /// Cost: allocates the missing rows, each of 64 pairs.
    pub fn reserve(&mut self, count: usize) -> Result<(), AllocError>
        ensures pairs { self.new.pairs ≡ self.old.pairs }
        ensures grows { self.old.end_room ≤ self.new.end_room }
        ensures ok { OnOk result (count ≤ self.new.end_room) }
        ensures some { OnErr result (0 < count) }
        ensures short { OnErr result (self.old.end_room < count + 64) }
    {
        self.leaves.reserve_end(count)
    }

    /// Adds a pair at the end. The caller has made room for it. Does not allocate.
    ///
    /// Cost: constant.
    #[inline]
    pub fn push(&mut self, key: K, value: V)
        requires { 0 < self.old.end_room }
        ensures pushed { self.new.pairs ≡ self.old.pairs ++ (key, value) ∷ [] }
        ensures room { self.old.end_room ≤ self.new.end_room + 1 }
    {
        self.leaves.law();
        let _id = self.leaves.push(key, value);
    }

    /// Removes the first pair and returns it, or returns `None` if there are no pairs. Does not
    /// allocate.
    ///
    /// Cost: reads one pair, and moves up to 63 ids of a row.
    #[inline]
    pub fn take_first(&mut self) -> Option<(K, V)>
        ensures { TakesFirst self.old.pairs result self.new.pairs }
    {
        self.leaves.take_first()
    }

    /// Removes the last pair and returns it, or returns `None` if there are no pairs. Does not
    /// allocate.
    ///
    /// Cost: reads one pair.
    #[inline]
    pub fn take_last(&mut self) -> Option<(K, V)>
        ensures { TakesLast self.old.pairs result self.new.pairs }
    {
        self.leaves.take_last()
    }

    /// Replaces the value of the last pair and returns the old value. The list is not empty. Does
    /// not allocate.
    ///
    /// Cost: reads one pair.
    pub fn replace_last(&mut self, value: V) -> V
        requires { 0 < length self.old.pairs }
        ensures replaced { ReplacesLast self.old.pairs result value self.new.pairs }
        ensures room { self.new.end_room ≡ self.old.end_room }
    {
        self.leaves.law();
        let Some(last) = self.leaves.last() else {
            unreachable!()
        };
        replace(self.leaves.value_mut(last), value)
    }
}
