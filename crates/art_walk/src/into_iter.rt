//! Iterators by value over all pairs, over all keys, and over all values of a tree.
ghost use Rattle.std.specs.Prelude.{◌≡◌, length, map, Some, IfSome};
ghost use Rattle.std.specs.Iterator.{YieldsFirst, YieldsLast, UpTo, item_count};
ghost use Rattle.std.specs.Iterator.SizeHint.{IsWithinCount};
ghost use Rattle.art_tree.specs.Pairs.{pairs_of};

use art_tree::{Pairs, Tree};
use blart_keys::AsBytes;
use std::iter::{DoubleEndedIterator, FusedIterator, Iterator};
use std::marker::Model;

/// The pairs of a tree by value from both ends, in byte order of their keys. The inner nodes are
/// freed whole at the start, and each step removes one pair. Dropping the walk drops the remaining
/// pairs in a loop.
#[derive(Drop)]
pub struct IntoIter<K: AsBytes, V, const PREFIX_LEN: usize> {
    pairs: Pairs<K, V>,
}

impl<K: AsBytes, V, const PREFIX_LEN: usize> Model for IntoIter<K, V, PREFIX_LEN> {
    ghost use Rattle.std.specs.Prelude.{List};

    ghost Value = { List (K × V) };

    ghost view = { λ it. it.pairs.pairs };
}

impl<K: AsBytes, V, const PREFIX_LEN: usize> IntoIter<K, V, PREFIX_LEN> {
    /// Returns the number of remaining pairs.
    ///
    /// Cost: reads a count.
    pub fn len(&self) -> usize
        ensures { result ≡ length self.now }
    {
        self.pairs.len()
    }
}

impl<K: AsBytes + Drop, V: Drop, const PREFIX_LEN: usize> IntoIter<K, V, PREFIX_LEN> {
    /// Returns an iterator over all pairs of the tree.
    ///
    /// Cost: frees the inner nodes at once.
    pub fn new(tree: Tree<K, V, PREFIX_LEN>) -> Self
        ensures { result ≡ pairs_of tree.pairs }
    {
        IntoIter {
            pairs: tree.into_pairs(),
        }
    }
}

impl<K: AsBytes + Drop, V: Drop, const PREFIX_LEN: usize> Iterator for IntoIter<K, V, PREFIX_LEN> {
    type Item = (K, V);

    ghost next_gives = { YieldsFirst (λ rest. rest) };

    ghost remaining = { item_count (λ rest. rest) };

    /// Returns the first remaining pair, or `None` if none remains.
    ///
    /// Cost: removes one leaf.
    fn next(&mut self) -> Option<(K, V)> {
        self.pairs.take_first()
    }

    /// Both bounds are the number of remaining pairs.
    ///
    /// Cost: reads a count.
    fn size_hint(&self) -> (usize, Option<usize>)
        ensures lower { IsWithinCount result.0 (item_count (λ rest. rest) self.now) }
        ensures upper { IfSome result.1 (UpTo (item_count (λ rest. rest) self.now)) }
        ensures exact { result ≡ (length self.now, Some (length self.now)) }
    {
        (self.len(), Some(self.len()))
    }
}

impl<K: AsBytes + Drop, V: Drop, const PREFIX_LEN: usize> DoubleEndedIterator
    for IntoIter<K, V, PREFIX_LEN> {
    ghost next_back_gives = { YieldsLast (λ rest. rest) };

    /// Returns the last remaining pair, or `None` if none remains.
    ///
    /// Cost: removes one leaf.
    fn next_back(&mut self) -> Option<(K, V)> {
        self.pairs.take_last()
    }
}

impl<K: AsBytes + Drop, V: Drop, const PREFIX_LEN: usize> FusedIterator
    for IntoIter<K, V, PREFIX_LEN> {}

/// The keys of a tree by value from both ends, in byte order. Each step drops the value of the key
/// that it returns. Dropping the walk drops the remaining pairs.
#[derive(Drop)]
pub struct IntoKeys<K: AsBytes, V, const PREFIX_LEN: usize> {
    key_iter: IntoIter<K, V, PREFIX_LEN>,
}

impl<K: AsBytes, V, const PREFIX_LEN: usize> Model for IntoKeys<K, V, PREFIX_LEN> {
    ghost use Rattle.std.specs.Prelude.{List, map};

    ghost Value = { List K };

    ghost view = { λ it. map (λ p. p.0) it.key_iter };
}

impl<K: AsBytes, V, const PREFIX_LEN: usize> IntoKeys<K, V, PREFIX_LEN> {
    /// Returns the number of keys that are left.
    ///
    /// Cost: reads a count.
    pub fn len(&self) -> usize
        ensures { result ≡ length self.now }
    {
        self.key_iter.len()
    }
}

impl<K: AsBytes + Drop, V: Drop, const PREFIX_LEN: usize> IntoKeys<K, V, PREFIX_LEN> {
    /// Returns an iterator over all keys of the tree.
    ///
    /// Cost: frees the inner nodes at once.
    pub fn new(tree: Tree<K, V, PREFIX_LEN>) -> Self
        ensures { result ≡ map (λ p. p.0) (pairs_of tree.pairs) }
    {
        IntoKeys {
            key_iter: IntoIter::new(tree),
        }
    }
}

impl<K: AsBytes + Drop, V: Drop, const PREFIX_LEN: usize> Iterator for IntoKeys<K, V, PREFIX_LEN> {
    type Item = K;

    ghost next_gives = { YieldsFirst (λ rest. rest) };

    ghost remaining = { item_count (λ rest. rest) };

    /// Returns the first key that is left, or `None` if none is left.
    ///
    /// Cost: removes one leaf.
    fn next(&mut self) -> Option<K> {
        Some(self.key_iter.next()?.0)
    }

    /// Both bounds are the number of keys that are left.
    ///
    /// Cost: reads a count.
    fn size_hint(&self) -> (usize, Option<usize>)
        ensures lower { IsWithinCount result.0 (item_count (λ rest. rest) self.now) }
        ensures upper { IfSome result.1 (UpTo (item_count (λ rest. rest) self.now)) }
        ensures exact { result ≡ (length self.now, Some (length self.now)) }
    {
        self.key_iter.size_hint()
    }
}

impl<K: AsBytes + Drop, V: Drop, const PREFIX_LEN: usize> DoubleEndedIterator
    for IntoKeys<K, V, PREFIX_LEN> {
    ghost next_back_gives = { YieldsLast (λ rest. rest) };

    /// Returns the last key that is left, or `None` if none is left.
    ///
    /// Cost: removes one leaf.
    fn next_back(&mut self) -> Option<K> {
        Some(self.key_iter.next_back()?.0)
    }
}

impl<K: AsBytes + Drop, V: Drop, const PREFIX_LEN: usize> FusedIterator
    for IntoKeys<K, V, PREFIX_LEN> {}

/// The values of a tree by value from both ends, in byte order of their keys. Each step drops the
/// key of the value that it returns. Dropping the walk drops the remaining pairs.
#[derive(Drop)]
pub struct IntoValues<K: AsBytes, V, const PREFIX_LEN: usize> {
    value_iter: IntoIter<K, V, PREFIX_LEN>,
}

impl<K: AsBytes, V, const PREFIX_LEN: usize> Model for IntoValues<K, V, PREFIX_LEN> {
    ghost use Rattle.std.specs.Prelude.{List, map};

    ghost Value = { List V };

    ghost view = { λ it. map (λ p. p.1) it.value_iter };
}

impl<K: AsBytes, V, const PREFIX_LEN: usize> IntoValues<K, V, PREFIX_LEN> {
    /// Returns the number of values that are left.
    ///
    /// Cost: reads a count.
    pub fn len(&self) -> usize
        ensures { result ≡ length self.now }
    {
        self.value_iter.len()
    }
}

impl<K: AsBytes + Drop, V: Drop, const PREFIX_LEN: usize> IntoValues<K, V, PREFIX_LEN> {
    /// Returns an iterator over all values of the tree.
    ///
    /// Cost: frees the inner nodes at once.
    pub fn new(tree: Tree<K, V, PREFIX_LEN>) -> Self
        ensures { result ≡ map (λ p. p.1) (pairs_of tree.pairs) }
    {
        IntoValues {
            value_iter: IntoIter::new(tree),
        }
    }
}

impl<K: AsBytes + Drop, V: Drop, const PREFIX_LEN: usize> Iterator
    for IntoValues<K, V, PREFIX_LEN> {
    type Item = V;

    ghost next_gives = { YieldsFirst (λ rest. rest) };

    ghost remaining = { item_count (λ rest. rest) };

    /// Returns the first value that is left, or `None` if none is left.
    ///
    /// Cost: removes one leaf.
    fn next(&mut self) -> Option<V> {
        Some(self.value_iter.next()?.1)
    }

    /// Both bounds are the number of values that are left.
    ///
    /// Cost: reads a count.
    fn size_hint(&self) -> (usize, Option<usize>)
        ensures lower { IsWithinCount result.0 (item_count (λ rest. rest) self.now) }
        ensures upper { IfSome result.1 (UpTo (item_count (λ rest. rest) self.now)) }
        ensures exact { result ≡ (length self.now, Some (length self.now)) }
    {
        self.value_iter.size_hint()
    }
}

impl<K: AsBytes + Drop, V: Drop, const PREFIX_LEN: usize> DoubleEndedIterator
    for IntoValues<K, V, PREFIX_LEN> {
    ghost next_back_gives = { YieldsLast (λ rest. rest) };

    /// Returns the last value that is left, or `None` if none is left.
    ///
    /// Cost: removes one leaf.
    fn next_back(&mut self) -> Option<V> {
        Some(self.value_iter.next_back()?.1)
    }
}

impl<K: AsBytes + Drop, V: Drop, const PREFIX_LEN: usize> FusedIterator
    for IntoValues<K, V, PREFIX_LEN> {}
