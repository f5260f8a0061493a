//! Iterators over all pairs, over all keys, and over all values.
ghost use Rattle.std.specs.Prelude.{◌≡◌, length, map, Some, IfSome};
ghost use Rattle.std.specs.Iterator.{YieldsFirstBy, YieldsLastBy, YieldsFirstRef, YieldsLastRef, UpTo, item_count};
ghost use Rattle.std.specs.Iterator.SizeHint.{IsWithinCount};
ghost use Rattle.art_tree.specs.Pairs.{pairs_of};

use crate::cursor::Cursor;
use art_tree::{Tree, Walk};
use blart_keys::AsBytes;
use std::iter::{DoubleEndedIterator, FusedIterator, Iterator};
use std::marker::Model;

/// The pairs of a tree, from both ends, in byte order of their keys. Each step makes one visit.
/// Once no pair is left, each step returns `None`.
#[derive(Drop)]
pub struct Iter<'a, K, V, const PREFIX_LEN: usize> {
    walk: Walk<'a, K, V>,
    left: usize,
}

impl<'a, K, V, const PREFIX_LEN: usize> Model for Iter<'a, K, V, PREFIX_LEN> {
    ghost use Rattle.std.specs.Prelude.{◌≡◌, List, length};

    ghost Value = { List (K × V) };

    ghost view = { λ it. it.walk };

    ghost invariant = { λ it. it.left ≡ length it.walk };
}

impl<'a, K: AsBytes, V, const PREFIX_LEN: usize> Iter<'a, K, V, PREFIX_LEN> {
    /// Returns an iterator over all pairs of the tree.
    ///
    /// Cost: no visit.
    pub fn new(tree: &'a Tree<K, V, PREFIX_LEN>) -> Self
        ensures { result ≡ pairs_of tree.now.pairs }
    {
        let cursor = Cursor::all(tree);
        Iter {
            walk: Walk::new(tree, cursor.ends),
            left: tree.len(),
        }
    }
}

impl<'a, K, V, const PREFIX_LEN: usize> Iter<'a, K, V, PREFIX_LEN> {
    /// Returns the number of pairs that are left.
    ///
    /// Cost: reads a count.
    pub fn len(&self) -> usize
        ensures { result ≡ length self.now }
    {
        self.left
    }
}

impl<'a, K, V, const PREFIX_LEN: usize> Iterator for Iter<'a, K, V, PREFIX_LEN> {
    type Item = (&'a K, &'a V);

    ghost next_gives = { YieldsFirstBy (λ item. (item.0.now, item.1.now)) (λ rest. rest) };

    ghost remaining = { item_count (λ rest. rest) };

    /// Returns the first pair that is left, or `None` if none is left.
    ///
    /// Cost: one visit.
    #[inline(always)]
    fn next(&mut self) -> Option<(&'a K, &'a V)> {
        let pair = self.walk.next()?;
        self.left -= 1;
        Some(pair)
    }

    /// Both bounds are the number of pairs that are left.
    ///
    /// Cost: reads a count.
    fn size_hint(&self) -> (usize, Option<usize>)
        ensures lower { IsWithinCount result.0 (item_count (λ rest. rest) self.now) }
        ensures upper { IfSome result.1 (UpTo (item_count (λ rest. rest) self.now)) }
        ensures exact { result ≡ (length self.now, Some (length self.now)) }
    {
        (self.left, Some(self.left))
    }
}

impl<'a, K, V, const PREFIX_LEN: usize> DoubleEndedIterator for Iter<'a, K, V, PREFIX_LEN> {
    ghost next_back_gives = { YieldsLastBy (λ item. (item.0.now, item.1.now)) (λ rest. rest) };

    /// Returns the last pair that is left, or `None` if none is left.
    ///
    /// Cost: one visit.
    #[inline(always)]
    fn next_back(&mut self) -> Option<(&'a K, &'a V)> {
        let pair = self.walk.next_back()?;
        self.left -= 1;
        Some(pair)
    }
}

impl<'a, K, V, const PREFIX_LEN: usize> FusedIterator for Iter<'a, K, V, PREFIX_LEN> {}

/// The keys of a tree, from both ends, in byte order. Each step makes one visit. Once no key is
/// left, each step returns `None`.
#[derive(Drop)]
pub struct Keys<'a, K, V, const PREFIX_LEN: usize> {
    key_iter: Iter<'a, K, V, PREFIX_LEN>,
}

impl<'a, K, V, const PREFIX_LEN: usize> Model for Keys<'a, K, V, PREFIX_LEN> {
    ghost use Rattle.std.specs.Prelude.{List, map};

    ghost Value = { List K };

    ghost view = { λ it. map (λ p. p.0) it.key_iter };
}

impl<'a, K: AsBytes, V, const PREFIX_LEN: usize> Keys<'a, K, V, PREFIX_LEN> {
    /// Returns an iterator over all keys of the tree.
    ///
    /// Cost: no visit.
    pub fn new(tree: &'a Tree<K, V, PREFIX_LEN>) -> Self
        ensures { result ≡ map (λ p. p.0) (pairs_of tree.now.pairs) }
    {
        Keys {
            key_iter: Iter::new(tree),
        }
    }
}

impl<'a, K, V, const PREFIX_LEN: usize> Keys<'a, K, V, PREFIX_LEN> {
    /// Returns the number of keys that are left.
    ///
    /// Cost: reads a count.
    pub fn len(&self) -> usize
        ensures { result ≡ length self.now }
    {
        self.key_iter.len()
    }
}

impl<'a, K, V, const PREFIX_LEN: usize> Iterator for Keys<'a, K, V, PREFIX_LEN> {
    type Item = &'a K;

    ghost next_gives = { YieldsFirstRef (λ rest. rest) };

    ghost remaining = { item_count (λ rest. rest) };

    /// Returns the first key that is left, or `None` if none is left.
    ///
    /// Cost: one visit.
    #[inline(always)]
    fn next(&mut self) -> Option<&'a K> {
        Some(self.key_iter.next()?.0)
    }

    /// Both bounds are the number of keys that are left.
    ///
    /// Cost: reads a count.
    fn size_hint(&self) -> (usize, Option<usize>)
        ensures lower { IsWithinCount result.0 (item_count (λ rest. rest) self.now) }
        ensures upper { IfSome result.1 (UpTo (item_count (λ rest. rest) self.now)) }
        ensures exact { result ≡ (length self.now, Some (length self.now)) }
    {
        self.key_iter.size_hint()
    }
}

impl<'a, K, V, const PREFIX_LEN: usize> DoubleEndedIterator for Keys<'a, K, V, PREFIX_LEN> {
    ghost next_back_gives = { YieldsLastRef (λ rest. rest) };

    /// Returns the last key that is left, or `None` if none is left.
    ///
    /// Cost: one visit.
    #[inline(always)]
    fn next_back(&mut self) -> Option<&'a K> {
        Some(self.key_iter.next_back()?.0)
    }
}

impl<'a, K, V, const PREFIX_LEN: usize> FusedIterator for Keys<'a, K, V, PREFIX_LEN> {}

/// The values of a tree, from both ends, in byte order of their keys. Each step makes one visit.
/// Once no value is left, each step returns `None`.
#[derive(Drop)]
pub struct Values<'a, K, V, const PREFIX_LEN: usize> {
    value_iter: Iter<'a, K, V, PREFIX_LEN>,
}

impl<'a, K, V, const PREFIX_LEN: usize> Model for Values<'a, K, V, PREFIX_LEN> {
    ghost use Rattle.std.specs.Prelude.{List, map};

    ghost Value = { List V };

    ghost view = { λ it. map (λ p. p.1) it.value_iter };
}

impl<'a, K: AsBytes, V, const PREFIX_LEN: usize> Values<'a, K, V, PREFIX_LEN> {
    /// Returns an iterator over all values of the tree.
    ///
    /// Cost: no visit.
    pub fn new(tree: &'a Tree<K, V, PREFIX_LEN>) -> Self
        ensures { result ≡ map (λ p. p.1) (pairs_of tree.now.pairs) }
    {
        Values {
            value_iter: Iter::new(tree),
        }
    }
}

impl<'a, K, V, const PREFIX_LEN: usize> Values<'a, K, V, PREFIX_LEN> {
    /// Returns the number of values that are left.
    ///
    /// Cost: reads a count.
    pub fn len(&self) -> usize
        ensures { result ≡ length self.now }
    {
        self.value_iter.len()
    }
}

impl<'a, K, V, const PREFIX_LEN: usize> Iterator for Values<'a, K, V, PREFIX_LEN> {
    type Item = &'a V;

    ghost next_gives = { YieldsFirstRef (λ rest. rest) };

    ghost remaining = { item_count (λ rest. rest) };

    /// Returns the first value that is left, or `None` if none is left.
    ///
    /// Cost: one visit.
    #[inline(always)]
    fn next(&mut self) -> Option<&'a V> {
        Some(self.value_iter.next()?.1)
    }

    /// Both bounds are the number of values that are left.
    ///
    /// Cost: reads a count.
    fn size_hint(&self) -> (usize, Option<usize>)
        ensures lower { IsWithinCount result.0 (item_count (λ rest. rest) self.now) }
        ensures upper { IfSome result.1 (UpTo (item_count (λ rest. rest) self.now)) }
        ensures exact { result ≡ (length self.now, Some (length self.now)) }
    {
        self.value_iter.size_hint()
    }
}

impl<'a, K, V, const PREFIX_LEN: usize> DoubleEndedIterator for Values<'a, K, V, PREFIX_LEN> {
    ghost next_back_gives = { YieldsLastRef (λ rest. rest) };

    /// Returns the last value that is left, or `None` if none is left.
    ///
    /// Cost: one visit.
    #[inline(always)]
    fn next_back(&mut self) -> Option<&'a V> {
        Some(self.value_iter.next_back()?.1)
    }
}

impl<'a, K, V, const PREFIX_LEN: usize> FusedIterator for Values<'a, K, V, PREFIX_LEN> {}
