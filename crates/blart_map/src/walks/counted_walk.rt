//! All values, each by a mutable reference.
ghost use Rattle.std.specs.Prelude.{◌≡◌, ℕ, List, [], true, length, map, option_map, is_some, Some, None, MatchOption, IfNone, ⊤};
ghost use Rattle.std.specs.Borrow.{sem};
ghost use Rattle.blart_keys.specs.Stored.{pair_at, value_at};
ghost use Rattle.art_tree.specs.Leaves.{leaf_in};
ghost use Rattle.art_tree.specs.Pairs.{pairs_of};
ghost use Rattle.art_walk.specs.Lent.{count_fits, numbers};
ghost use Rattle.blart_map.specs.Content.{pairs, Numbered};
ghost use Rattle.blart_map.specs.EachWritten.{CallableInTurn, WritesLeft, WritesEach, LeavesValue, TakesAtValue, LeavesPair, TakesAtPair, ActsOnValue, ActsOnPair};

use crate::map::TreeMap;
use art_tree::{LeafId, Visits};
use art_walk::{Cursor, ValuesAlone, WithKeys, write_pairs, write_values};
use blart_keys::AsBytes;
use std::marker::PhantomData;

/// All values of a map, each by a mutable reference, with its key.
///
/// ```
/// map.try_insert("cat", 1)?;
/// let mut walk = map.iter_mut();
/// assert_eq!(walk.len(), 1);
/// if let Some(value) = walk.next_back() {
///     *value = 2;
/// }
/// assert_eq!(map.get(&"cat"), Some(&2));
/// ```
pub type IterMut<'a, K, V, const PREFIX_LEN: usize> = CountedWalk<'a, K, V, WithKeys, PREFIX_LEN>;

/// All values of a map, each by a mutable reference. It has no `key` and no `pair`.
///
/// ```
/// map.try_insert("cat", 1)?;
/// let mut walk = map.values_mut();
/// if let Some(value) = walk.next() {
///     *value = 2;
/// }
/// assert_eq!(map.get(&"cat"), Some(&2));
/// ```
pub type ValuesMut<'a, K, V, const PREFIX_LEN: usize> = CountedWalk<
    'a,
    K,
    V,
    ValuesAlone,
    PREFIX_LEN,
>;

/// The values of a map, from both ends, in byte order of their keys, each by a mutable reference.
/// Each step makes one visit. Once no value is left, each step returns `None`.
///
/// The example of [`IterMut`] shows it.
#[derive(Drop)]
pub struct CountedWalk<'a, K: AsBytes, V, M, const PREFIX_LEN: usize> {
    map: &'a mut TreeMap<K, V, PREFIX_LEN>,
    cursor: Cursor,
    lent: Option<LeafId>,
    left: usize,
    /// Whether keys are returned too. Only the type says so.
    kind: PhantomData<M>,
    ghost fits: { count_fits cursor lent left (numbers map.now) ≡ true },
}

impl<'a, K: AsBytes, V, const PREFIX_LEN: usize> CountedWalk<'a, K, V, WithKeys, PREFIX_LEN> {
    ghost use Rattle.blart_map.specs.CountedWalk.{counted_map, counted_last, counted_left, LendsAll, lends_pair, counted_with};
    ghost use Rattle.blart_map.specs.OnceWritten.{all_once_written};

    /// Calls the closure once on the key and the value of each pair that is left, in byte order of
    /// the keys. Each value is then what the closure wrote, and the keys are unchanged. Does not
    /// allocate.
    ///
    /// Suppose that no call changes the closure, and each leaves the value that a function `h` of
    /// the pair returns. Then the pairs become what `h` makes of them. The clauses `all` and
    /// `stored` say so of a walk that has returned no value yet, and `acts` of any walk. For every
    /// closure, `each` and `left` say which calls were made, and that each value is what its call
    /// wrote.
    ///
    /// Cost: one visit for each value.
    ///
    /// ```
    /// map.try_insert("cat", 1)?;
    /// map.try_insert("horse", 2)?;
    /// map.iter_mut().for_each(|key, value| *value = value.wrapping_add(key.len()));
    /// assert_eq!(map.get(&"horse"), Some(&7));
    /// ```
    #[tactic(auto, using(art_walk::proofs::Lending::count_test, art_walk::proofs::Lending::from_test))]
    pub fn for_each<F: FnMut(&K, &mut V) + Drop>(self, f: F)
        requires { CallableInTurn (LeavesPair F.FnMut) (TakesAtPair F.FnMut) f
            (pairs_of (counted_left self)) }
        ensures left { WritesLeft (LeavesPair F.FnMut) (counted_left self.entry)
            (counted_map self.entry).now f self.exit.0.now }
        ensures keys { map (λ p. p.0) (pairs self.exit.0.now)
            ≡ map (λ p. p.0) (pairs (counted_map self.entry).now) }
        ensures len { length (pairs self.exit.0.now)
            ≡ length (pairs (counted_map self.entry).now) }
        ensures each { (S T : List (Numbered K V)) → LendsAll self.entry S
            → T ≡ self.exit.0.now → WritesEach (LeavesPair F.FnMut) (pairs S) f (pairs T) }
        ensures acts { (h : K × V → K × V) → ActsOnPair F.FnMut f h
            → pairs self.exit.0.now ≡ all_once_written (λ p. (h p).1) self.entry }
        ensures all { (S T : List (Numbered K V)) (h : K × V → K × V) → LendsAll self.entry S
            → T ≡ self.exit.0.now → ActsOnPair F.FnMut f h → pairs T ≡ map h (pairs S) }
        ensures stored { (S T : List (Numbered K V)) (h : K × V → K × V) (q : List ℕ)
            → LendsAll self.entry S → T ≡ self.exit.0.now → ActsOnPair F.FnMut f h
            → pair_at K.bytes (pairs T) q ≡ option_map h (pair_at K.bytes (pairs S) q) }
    {
        let CountedWalk { map, cursor, .. } = self;
        write_pairs(&mut map.tree, cursor, f);
    }

    /// Returns the key of the value that was returned last. The walk must have returned a value.
    ///
    /// Cost: one visit, which is not counted.
    pub fn key(&self) -> &K
        requires { is_some (counted_last self.now) ≡ true }
        ensures { MatchOption (counted_last self.now) ⊤
            (λ id. (v : V) × (leaf_in (counted_map self.now).now id ≡ Some (result.now, v))) }
    {
        let id = self.lent.unwrap();
        self.map.leaf(id).0
    }

    /// Returns the key of the value that was returned last, and a mutable reference to that value.
    /// The walk must have returned a value.
    ///
    /// The lemma `pair_written` says that a write through it is a write of the value that `next`
    /// returned, and `pair_written_back` the same of `next_back`.
    ///
    /// Cost: reads the leaf.
    ///
    /// ```
    /// let mut walk = map.iter_mut();
    /// while let Some(_seen) = walk.next() {
    ///     let (key, value) = walk.pair();
    ///     *value = key.len();
    /// }
    /// ```
    pub fn pair(&mut self) -> (&K, &mut V)
        requires { is_some (counted_last self.old) ≡ true }
        ensures* writes_back { sem 𝓛
            (lends_pair K.row V.row PREFIX_LEN.row K.AsBytes self.entry result) }
        ensures value { MatchOption (counted_last self.old) ⊤
            (λ id. leaf_in (counted_map self.old).now id ≡ Some (result.0.now, result.1.now)) }
        ensures same_left { (w : V) → counted_left (counted_with self.old w)
            ≡ counted_left self.old }
    {
        self.map.numbers_law();
        let id = self.lent.unwrap();
        self.map.leaf_mut(id)
    }
}

impl<'a, K: AsBytes, V, const PREFIX_LEN: usize> CountedWalk<'a, K, V, ValuesAlone, PREFIX_LEN> {
    ghost use Rattle.blart_map.specs.CountedWalk.{counted_map, counted_left, LendsAll};
    ghost use Rattle.blart_map.specs.OnceWritten.{all_once_written};

    /// Calls the closure once on each value that is left, in byte order of the keys. Each value is
    /// then what the closure wrote, and the keys are unchanged. Does not allocate.
    ///
    /// Suppose that no call changes the closure, and each leaves the value that a function `h` of
    /// the pair returns. Then the pairs become what `h` makes of them. The clauses `all` and
    /// `stored` say so of a walk that has returned no value yet, and `acts` of any walk. For every
    /// closure, `each` and `left` say which calls were made, and that each value is what its call
    /// wrote.
    ///
    /// Cost: one visit for each value.
    ///
    /// ```
    /// map.try_insert("cat", 1)?;
    /// map.try_insert("dog", 2)?;
    /// map.values_mut().for_each(|value| *value = value.wrapping_add(1));
    /// assert_eq!(map.get(&"dog"), Some(&3));
    /// ```
    #[tactic(auto, using(art_walk::proofs::Lending::count_test, art_walk::proofs::Lending::from_test))]
    pub fn for_each<F: FnMut(&mut V) + Drop>(self, f: F)
        requires { CallableInTurn (LeavesValue F.FnMut) (TakesAtValue F.FnMut) f
            (pairs_of (counted_left self)) }
        ensures left { WritesLeft (LeavesValue F.FnMut) (counted_left self.entry)
            (counted_map self.entry).now f self.exit.0.now }
        ensures keys { map (λ p. p.0) (pairs self.exit.0.now)
            ≡ map (λ p. p.0) (pairs (counted_map self.entry).now) }
        ensures len { length (pairs self.exit.0.now)
            ≡ length (pairs (counted_map self.entry).now) }
        ensures each { (S T : List (Numbered K V)) → LendsAll self.entry S
            → T ≡ self.exit.0.now → WritesEach (LeavesValue F.FnMut) (pairs S) f (pairs T) }
        ensures acts { (h : K × V → K × V) → ActsOnValue F.FnMut f h
            → pairs self.exit.0.now ≡ all_once_written (λ p. (h p).1) self.entry }
        ensures all { (S T : List (Numbered K V)) (h : K × V → K × V) → LendsAll self.entry S
            → T ≡ self.exit.0.now → ActsOnValue F.FnMut f h → pairs T ≡ map h (pairs S) }
        ensures stored { (S T : List (Numbered K V)) (h : V → V) (q : List ℕ)
            → LendsAll self.entry S → T ≡ self.exit.0.now
            → ActsOnValue F.FnMut f (λ (p : K × V). (p.0, h p.1))
            → value_at K.bytes (pairs T) q ≡ option_map h (value_at K.bytes (pairs S) q) }
    {
        let CountedWalk { map, cursor, .. } = self;
        write_values(&mut map.tree, cursor, f);
    }
}

impl<'a, K: AsBytes, V, M, const PREFIX_LEN: usize> CountedWalk<'a, K, V, M, PREFIX_LEN> {
    ghost use Rattle.blart_map.specs.CountedWalk.{counted_left, lends_first, lends_last};

    /// Returns a walk over all pairs of the map.
    pub(crate) fn all(map: &'a mut TreeMap<K, V, PREFIX_LEN>) -> Self
        ensures same_map { result.map.ghost_name ≡ map.entry.ghost_name }
        ensures unchanged { result.map.now ≡ map.old }
        ensures left { counted_left result ≡ map.old }
        ensures none_lent { result.lent ≡ None }
    {
        let cursor = Cursor::all(&map.tree);
        let left = map.tree.len();
        CountedWalk {
            map,
            cursor,
            lent: None,
            left,
            kind: PhantomData,
        }
    }

    /// Returns the number of values that are left.
    ///
    /// Cost: reads a count.
    pub fn len(&self) -> usize
        ensures { result ≡ length (counted_left self.now) }
    {
        self.left
    }

    /// Returns a mutable reference to the first value that is left, or `None` if no value is left.
    ///
    /// Cost: one visit.
    #[inline(always)]
    pub fn next(&mut self) -> Option<&mut V>
        ensures* writes_back { sem 𝓛
            (lends_first K.row V.row M.row PREFIX_LEN.row K.AsBytes self.entry result) }
        ensures end { IfNone result (counted_left self.old ≡ []) }
    {
        let id = self.map.step(&mut self.cursor, &mut Visits::new())?;
        self.lent = Some(id);
        self.left -= 1;
        Some(self.map.value_mut(id))
    }

    /// Returns a mutable reference to the last value that is left, or `None` if no value is left.
    ///
    /// Cost: one visit.
    #[inline(always)]
    pub fn next_back(&mut self) -> Option<&mut V>
        ensures* writes_back { sem 𝓛
            (lends_last K.row V.row M.row PREFIX_LEN.row K.AsBytes self.entry result) }
        ensures end { IfNone result (counted_left self.old ≡ []) }
    {
        let id = self.map.step_back(&mut self.cursor, &mut Visits::new())?;
        self.lent = Some(id);
        self.left -= 1;
        Some(self.map.value_mut(id))
    }
}
