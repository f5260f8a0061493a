//! Splits a map in two.
ghost use Rattle.std.specs.Prelude.{◌≡◌, ◌≢◌, ◌<◌, ◌+◌, ◌++◌, ℕ, List, [], length, OnOk, IfOk, OnErr, None, if◌then◌else◌};
ghost use Rattle.std.specs.declared.ops.Bound.TheVariants.{Included, Excluded, Unbounded};
ghost use Rattle.blart_keys.specs.Bytes.{less};
ghost use Rattle.blart_keys.specs.Content.{between};
ghost use Rattle.blart_keys.specs.Steps.{bytes};
ghost use Rattle.blart_keys.specs.Stored.{pair_at};
ghost use Rattle.blart_map.specs.Content.{pairs};

use crate::map::TreeMap;
use art_edits::part;
use art_tree::Tree;
use art_walk::Range;
use blart_keys::AsBytes;
use std::alloc::AllocError;
use std::ops::Bound;

impl<K: AsBytes + Drop, V: Drop, const PREFIX_LEN: usize> TreeMap<K, V, PREFIX_LEN> {
    /// Keeps the pairs whose keys' bytes are less than the query's, and returns a map of the
    /// others.
    ///
    /// It allocates before any pair moves. If that fails, the map is unchanged. If either side has
    /// no pairs, it does not allocate.
    ///
    /// Cost: it counts the pairs of the smaller side. If one side has at least three times the
    /// pairs of the other, the pairs of the smaller side move one by one. If those are the pairs
    /// that this map keeps, the two maps are exchanged. Otherwise the pairs that this map keeps
    /// move, and the inner nodes of both maps are made anew, each once. So the number of pairs that
    /// it reads is at most proportional to the number of pairs of the smaller side.
    ///
    /// ```
    /// map.try_insert("ant", 1)?;
    /// map.try_insert("bee", 2)?;
    /// map.try_insert("cat", 3)?;
    /// let rest = map.split_off(&"bee")?;
    /// assert_eq!(map.last_key_value(), Some((&"ant", &1)));
    /// assert_eq!(rest.first_key_value(), Some((&"bee", &2)));
    /// ```
    #[tactic(auto, unfolding(crate::specs::Content::pairs))]
    pub fn split_off<Q: AsBytes>(&mut self, query: &Q) -> Result<Self, AllocError>
        ensures kept { OnOk result ((r : List ℕ) → pair_at K.bytes (pairs self.new) r
            ≡ (if less r (Q.bytes query.now) then pair_at K.bytes (pairs self.old) r else None)) }
        ensures given { IfOk result (λ rest. (r : List ℕ) → pair_at K.bytes (pairs rest) r
            ≡ (if less r (Q.bytes query.now) then None else pair_at K.bytes (pairs self.old) r)) }
        ensures whole { IfOk result (λ rest. pairs self.old ≡ pairs self.new ++ pairs rest) }
        ensures below { OnOk result (pairs self.new
            ≡ between (bytes K.bytes) (pairs self.old) Unbounded (Excluded (Q.bytes query.now))) }
        ensures from { IfOk result (λ rest. pairs rest
            ≡ between (bytes K.bytes) (pairs self.old) (Included (Q.bytes query.now)) Unbounded) }
        ensures err { OnErr result (self.new ≡ self.old) }
        ensures refused { OnErr result
            (between (bytes K.bytes) (pairs self.old) (Included (Q.bytes query.now)) Unbounded
            ≢ []) }
        ensures below_refused { OnErr result
            (between (bytes K.bytes) (pairs self.old) Unbounded (Excluded (Q.bytes query.now))
            ≢ []) }
    {
        self.law();
        let mut tree = Tree::new(self.alloc);
        let count = self.count_from(query);
        if let Err(refused) = part(&mut self.tree, &mut tree, count, self.alloc) {
            drop(tree);
            return Err(refused);
        }
        Ok(TreeMap {
            tree,
            alloc: self.alloc,
        })
    }
}

impl<K: AsBytes, V, const PREFIX_LEN: usize> TreeMap<K, V, PREFIX_LEN> {
    /// Returns the number of keys whose bytes are not less than the query's.
    fn count_from<Q: AsBytes>(&self, query: &Q) -> usize
        ensures { result ≡ length (between (bytes K.bytes) (pairs self.now)
            (Included (Q.bytes query.now)) Unbounded) }
    {
        self.law();
        let low = self.range(Bound::Unbounded, Bound::Excluded(query));
        let high = self.range(Bound::Included(query), Bound::Unbounded);
        count_after(low, high, self.len())
    }
}

/// Returns the number of pairs of the second of two walks, which together have `len` pairs. It goes
/// no further than the shorter walk.
fn count_after<K, V, const P: usize>(
    low: Range<'_, K, V, P>,
    high: Range<'_, K, V, P>,
    len: usize,
) -> usize
    requires { length low + length high ≡ len }
    ensures { result ≡ length high.entry }
{
    let (mut low, mut high) = (low, high);
    let mut count = 0;
    while let Some(_) = high.next() {
        if low.next().is_none() {
            return len - count;
        }
        count += 1;
    }
    count
}
