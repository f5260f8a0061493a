//! A walk over pairs, each of which is kept or taken.
ghost use Rattle.std.specs.Prelude.{◌≡◌, [], true, false, is_some, Some, None, MatchOption, IfNone, ⊤};
ghost use Rattle.std.specs.Borrow.{sem};
ghost use Rattle.art_tree.specs.Leaves.{leaf_in, without_number};
ghost use Rattle.art_walk.specs.Lent.{walk_fits, numbers};

use crate::map::TreeMap;
use art_tree::{LeafId, Visits};
use art_walk::Cursor;
use blart_keys::AsBytes;

/// A walk over the pairs within two bounds, from both ends, in byte order of their keys. It lends
/// one pair at a time, and each pair is then kept or removed from the map. Each step reads one
/// pair. Once no pair is left, each step returns `None`. If the walk is dropped while a pair is
/// undecided, that pair is kept.
///
/// ```
/// map.try_insert("cat", 1)?;
/// let mut walk = map.take_walk(Bound::<&&str>::Unbounded, Bound::Unbounded);
/// if let Some(value) = walk.lend() {
///     *value = 2;
/// }
/// if walk.undecided() {
///     assert_eq!(walk.take(), ("cat", 2));
/// }
/// assert!(map.is_empty());
/// ```
#[derive(Drop)]
pub struct TakeWalk<'a, K: AsBytes, V, const PREFIX_LEN: usize> {
    map: &'a mut TreeMap<K, V, PREFIX_LEN>,
    cursor: Cursor,
    lent: Option<LeafId>,
    ghost fits: { walk_fits cursor lent (numbers map.now) ≡ true },
}

impl<'a, K: AsBytes, V, const PREFIX_LEN: usize> TakeWalk<'a, K, V, PREFIX_LEN> {
    ghost use Rattle.blart_map.specs.TakeWalk.{take_map, take_undecided, take_left, lends_first, lends_last, lends_pair, take_with};

    /// Returns a walk over what the cursor has left of the map.
    pub(crate) fn of(map: &'a mut TreeMap<K, V, PREFIX_LEN>, cursor: Cursor) -> Self
        requires { walk_fits cursor None (numbers map.old) ≡ true }
        ensures same_map { result.map.ghost_name ≡ map.entry.ghost_name }
        ensures unchanged { result.map.now ≡ map.old }
        ensures same_cursor { result.cursor ≡ cursor }
        ensures decided { result.lent ≡ None }
    {
        TakeWalk {
            map,
            cursor,
            lent: None,
        }
    }

    /// Returns `true` if a pair is undecided: it is lent, and neither kept nor taken so far.
    ///
    /// Cost: none.
    pub fn undecided(&self) -> bool
        ensures { result ≡ is_some (take_undecided self.now) }
    {
        self.lent.is_some()
    }

    /// Lends the first pair that is left, and returns a mutable reference to its value, or `None`
    /// if no pair is left. No pair may be undecided.
    ///
    /// Cost: one visit.
    pub fn lend(&mut self) -> Option<&mut V>
        requires { is_some (take_undecided self.old) ≡ false }
        ensures* writes_back { sem 𝓛
            (lends_first K.row V.row PREFIX_LEN.row K.AsBytes self.entry result) }
        ensures end { IfNone result (take_left self.old ≡ []) }
    {
        let id = self.map.step(&mut self.cursor, &mut Visits::new())?;
        self.lent = Some(id);
        Some(self.map.value_mut(id))
    }

    /// Lends the last pair that is left, and returns a mutable reference to its value, or `None` if
    /// no pair is left. No pair may be undecided.
    ///
    /// Cost: one visit.
    pub fn lend_back(&mut self) -> Option<&mut V>
        requires { is_some (take_undecided self.old) ≡ false }
        ensures* writes_back { sem 𝓛
            (lends_last K.row V.row PREFIX_LEN.row K.AsBytes self.entry result) }
        ensures end { IfNone result (take_left self.old ≡ []) }
    {
        let id = self.map.step_back(&mut self.cursor, &mut Visits::new())?;
        self.lent = Some(id);
        Some(self.map.value_mut(id))
    }

    /// Returns the key of the lent pair. A pair must be undecided.
    ///
    /// Cost: one visit, which is not counted.
    pub fn key(&self) -> &K
        requires { is_some (take_undecided self.now) ≡ true }
        ensures { MatchOption (take_undecided self.now) ⊤
            (λ id. (v : V) × (leaf_in (take_map self.now).now id ≡ Some (result.now, v))) }
    {
        let id = self.lent.unwrap();
        self.map.leaf(id).0
    }

    /// Returns the key of the lent pair, and a mutable reference to its value. A pair must be
    /// undecided.
    ///
    /// Cost: reads the leaf.
    pub fn pair(&mut self) -> (&K, &mut V)
        requires { is_some (take_undecided self.old) ≡ true }
        ensures* writes_back { sem 𝓛
            (lends_pair K.row V.row PREFIX_LEN.row K.AsBytes self.entry result) }
        ensures value { MatchOption (take_undecided self.old) ⊤
            (λ id. leaf_in (take_map self.old).now id ≡ Some (result.0.now, result.1.now)) }
        ensures same_left { (w : V) → take_left (take_with self.old w) ≡ take_left self.old }
    {
        self.map.numbers_law();
        let id = self.lent.unwrap();
        self.map.leaf_mut(id)
    }

    /// Keeps the lent pair in the map, with the value that was written. A pair must be undecided.
    ///
    /// Cost: none.
    pub fn keep(&mut self)
        requires { is_some (take_undecided self.old) ≡ true }
        ensures same_map { (take_map self.new).ghost_name ≡ (take_map self.old).ghost_name }
        ensures unchanged { (take_map self.new).now ≡ (take_map self.old).now }
        ensures same_left { take_left self.new ≡ take_left self.old }
        ensures decided { take_undecided self.new ≡ None }
    {
        self.lent = None;
    }
}

impl<'a, K: AsBytes + Drop, V: Drop, const PREFIX_LEN: usize> TakeWalk<'a, K, V, PREFIX_LEN> {
    ghost use Rattle.blart_map.specs.TakeWalk.{take_map, take_undecided, take_left};

    /// Removes the lent pair from the map, and returns it with the value that was written. A pair
    /// must be undecided. Does not allocate.
    ///
    /// Cost: one descent.
    pub fn take(&mut self) -> (K, V)
        requires { is_some (take_undecided self.old) ≡ true }
        ensures same_map { (take_map self.new).ghost_name ≡ (take_map self.old).ghost_name }
        ensures taken { MatchOption (take_undecided self.old) ⊤
            (λ id. (leaf_in (take_map self.old).now id ≡ Some result)
            × ((take_map self.new).now ≡ without_number (take_map self.old).now id)) }
        ensures same_left { take_left self.new ≡ take_left self.old }
        ensures decided { take_undecided self.new ≡ None }
    {
        self.map.numbers_law();
        let id = self.lent.take().unwrap();
        self.map.take_leaf(id)
    }
}
