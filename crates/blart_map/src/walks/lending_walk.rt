//! Some values, each by a mutable reference.
ghost use Rattle.std.specs.Prelude.{◌≡◌, List, [], Bool, true, length, map, filter, is_some, Some, None, MatchOption, IfNone, ⊤};
ghost use Rattle.std.specs.Borrow.{sem};
ghost use Rattle.art_tree.specs.Leaves.{leaf_in};
ghost use Rattle.art_tree.specs.Pairs.{pairs_of};
ghost use Rattle.art_walk.specs.Lent.{walk_fits, numbers};
ghost use Rattle.blart_map.specs.Content.{pairs, Numbered};
ghost use Rattle.blart_map.specs.EachWritten.{CallableInTurn, WritesLeft, WritesWhere, LeavesPair, TakesAtPair, ActsOnPair, ActsWhere};

use crate::map::TreeMap;
use art_tree::{LeafId, Visits};
use art_walk::{BelowFront, Cursor, InRange, InSubtree, write_pairs};
use blart_keys::AsBytes;
use std::marker::PhantomData;

/// The values whose keys are within two bounds, each by a mutable reference.
///
/// ```
/// map.try_insert("cat", 1)?;
/// let low = "b";
/// let mut walk = map.range_mut(Bound::Included(&low), Bound::Unbounded);
/// if let Some(value) = walk.next() {
///     *value = 2;
/// }
/// assert_eq!(map.get(&"cat"), Some(&2));
/// ```
pub type RangeMut<'a, K, V, const PREFIX_LEN: usize> = LendingWalk<'a, K, V, InRange, PREFIX_LEN>;

/// The values whose keys begin with some bytes, each by a mutable reference.
///
/// ```
/// map.try_insert("car", 1)?;
/// map.try_insert("cat", 2)?;
/// let mut walk = map.prefix_mut(b"ca");
/// if let Some(value) = walk.next_back() {
///     *value = 3;
/// }
/// assert_eq!(map.get(&"cat"), Some(&3));
/// ```
pub type PrefixMut<'a, K, V, const PREFIX_LEN: usize> = LendingWalk<
    'a,
    K,
    V,
    BelowFront,
    PREFIX_LEN,
>;

/// The values of the pairs to which a key is related, each by a mutable reference.
///
/// ```
/// map.try_insert("cat", 1)?;
/// if let PrefixKind::Inner(entry) = map.prefix_entry("ca").kind() {
///     let mut walk = entry.iter_mut();
///     if let Some(value) = walk.next() {
///         *value = 2;
///     }
/// }
/// assert_eq!(map.get(&"cat"), Some(&2));
/// ```
pub type SubtreeIterMut<'a, K, V, const PREFIX_LEN: usize> = LendingWalk<
    'a,
    K,
    V,
    InSubtree,
    PREFIX_LEN,
>;

/// Some values of a map, from both ends, in byte order of their keys, each by a mutable reference.
/// Each step makes one visit. Once no value is left, each step returns `None`.
///
/// The example of [`PrefixMut`] shows it.
#[derive(Drop)]
pub struct LendingWalk<'a, K: AsBytes, V, M, const PREFIX_LEN: usize> {
    map: &'a mut TreeMap<K, V, PREFIX_LEN>,
    cursor: Cursor,
    lent: Option<LeafId>,
    /// How the walk was opened. Only the type says so.
    kind: PhantomData<M>,
    ghost fits: { walk_fits cursor lent (numbers map.now) ≡ true },
}

impl<'a, K: AsBytes, V, M, const PREFIX_LEN: usize> LendingWalk<'a, K, V, M, PREFIX_LEN> {
    ghost use Rattle.blart_map.specs.LendingWalk.{lending_map, lending_last, lending_left, lends_first, lends_last, lends_pair, lending_with, LendsWhere};
    ghost use Rattle.blart_map.specs.OnceWritten.{once_written};

    /// Returns a walk over what the cursor has left of the map.
    pub(crate) fn of(map: &'a mut TreeMap<K, V, PREFIX_LEN>, cursor: Cursor) -> Self
        requires { walk_fits cursor None (numbers map.old) ≡ true }
        ensures same_map { result.map.ghost_name ≡ map.entry.ghost_name }
        ensures unchanged { result.map.now ≡ map.old }
        ensures same_cursor { result.cursor ≡ cursor }
        ensures none_lent { result.lent ≡ None }
    {
        LendingWalk {
            map,
            cursor,
            lent: None,
            kind: PhantomData,
        }
    }

    /// Returns a mutable reference to the first value that is left, or `None` if no value is left.
    ///
    /// Cost: one visit.
    #[inline(always)]
    pub fn next(&mut self) -> Option<&mut V>
        ensures* writes_back { sem 𝓛
            (lends_first K.row V.row M.row PREFIX_LEN.row K.AsBytes self.entry result) }
        ensures end { IfNone result (lending_left self.old ≡ []) }
    {
        let id = self.map.step(&mut self.cursor, &mut Visits::new())?;
        self.lent = Some(id);
        Some(self.map.value_mut(id))
    }

    /// Returns a mutable reference to the last value that is left, or `None` if no value is left.
    ///
    /// Cost: one visit.
    #[inline(always)]
    pub fn next_back(&mut self) -> Option<&mut V>
        ensures* writes_back { sem 𝓛
            (lends_last K.row V.row M.row PREFIX_LEN.row K.AsBytes self.entry result) }
        ensures end { IfNone result (lending_left self.old ≡ []) }
    {
        let id = self.map.step_back(&mut self.cursor, &mut Visits::new())?;
        self.lent = Some(id);
        Some(self.map.value_mut(id))
    }

    /// Returns the key of the value that was returned last. The walk must have returned a value.
    ///
    /// Cost: one visit, which is not counted.
    pub fn key(&self) -> &K
        requires { is_some (lending_last self.now) ≡ true }
        ensures { MatchOption (lending_last self.now) ⊤
            (λ id. (v : V) × (leaf_in (lending_map self.now).now id ≡ Some (result.now, v))) }
    {
        let id = self.lent.unwrap();
        self.map.leaf(id).0
    }

    /// Returns the key of the value that was returned last, and a mutable reference to that value.
    /// The walk must have returned a value.
    ///
    /// The lemma `pair_written` says that a write through it is a write of the value that `next`
    /// returned, and `pair_written_back` the same of `next_back`.
    ///
    /// Cost: reads the leaf.
    ///
    /// ```
    /// let mut walk = map.prefix_mut(b"ca");
    /// while let Some(_seen) = walk.next() {
    ///     let (key, value) = walk.pair();
    ///     *value = key.len();
    /// }
    /// ```
    pub fn pair(&mut self) -> (&K, &mut V)
        requires { is_some (lending_last self.old) ≡ true }
        ensures* writes_back { sem 𝓛
            (lends_pair K.row V.row M.row PREFIX_LEN.row K.AsBytes self.entry result) }
        ensures value { MatchOption (lending_last self.old) ⊤
            (λ id. leaf_in (lending_map self.old).now id ≡ Some (result.0.now, result.1.now)) }
        ensures same_left { (w : V) → lending_left (lending_with self.old w)
            ≡ lending_left self.old }
    {
        self.map.numbers_law();
        let id = self.lent.unwrap();
        self.map.leaf_mut(id)
    }

    /// Calls the closure once on the key and the value of each pair that is left, in byte order of
    /// the keys. Each value is then what the closure wrote, and the keys are unchanged. Does not
    /// allocate.
    ///
    /// Suppose that no call changes the closure, and each leaves the value that a function `h` of
    /// the pair returns. Then the pairs become what `h` makes of them. The clause `within` says so,
    /// over the pairs that pass a test, of a walk that has returned no value yet, and `acts` of any
    /// walk. For every closure, `each` and `left` say which calls were made, and that each value is
    /// what its call wrote: `each` of a walk that has returned no value yet.
    ///
    /// Cost: one visit for each value.
    ///
    /// ```
    /// map.try_insert("car", 1)?;
    /// map.try_insert("dog", 2)?;
    /// map.prefix_mut(b"ca").for_each(|_, value| *value = 0);
    /// assert_eq!(map.get(&"car"), Some(&0));
    /// assert_eq!(map.get(&"dog"), Some(&2));
    /// ```
    #[tactic(auto, using(art_walk::proofs::Lending::from_test))]
    pub fn for_each<F: FnMut(&K, &mut V) + Drop>(self, f: F)
        requires { CallableInTurn (LeavesPair F.FnMut) (TakesAtPair F.FnMut) f
            (pairs_of (lending_left self)) }
        ensures left { WritesLeft (LeavesPair F.FnMut) (lending_left self.entry)
            (lending_map self.entry).now f self.exit.0.now }
        ensures keys { map (λ p. p.0) (pairs self.exit.0.now)
            ≡ map (λ p. p.0) (pairs (lending_map self.entry).now) }
        ensures len { length (pairs self.exit.0.now)
            ≡ length (pairs (lending_map self.entry).now) }
        ensures each { (S T : List (Numbered K V)) (test : K × V → Bool)
            → LendsWhere self.entry test S → T ≡ self.exit.0.now
            → WritesWhere (LeavesPair F.FnMut) test (pairs S) f (pairs T) }
        ensures acts { (h : K × V → K × V) → ActsOnPair F.FnMut f h
            → pairs self.exit.0.now ≡ once_written (λ p. (h p).1) self.entry }
        ensures within { (S T : List (Numbered K V)) (test : Numbered K V → Bool)
            (h : K × V → K × V) → T ≡ self.exit.0.now → (lending_map self.entry).now ≡ S
            → lending_left self.entry ≡ filter test S → ActsWhere F.FnMut f test h
            → pairs T ≡ map h (pairs S) }
    {
        let LendingWalk { map, cursor, .. } = self;
        write_pairs(&mut map.tree, cursor, f);
    }
}
