//! Room for some pairs that is made beforehand.
ghost use Rattle.std.specs.Prelude.{◌≡◌, ◌+◌, ◌<◌, ◌≤◌, ℕ, List, [], true, false, length, option_map, is_some, OnOk, IfOk, OnErr, Some, if◌then◌else◌};
ghost use Rattle.std.specs.Borrow.{sem};
ghost use Rattle.blart_keys.specs.Bytes.{begins};
ghost use Rattle.blart_keys.specs.Content.{IsContent, IsPut};
ghost use Rattle.blart_keys.specs.Steps.{bytes, Puts};
ghost use Rattle.blart_keys.specs.Stored.{kept, pair_at_front, value_at, overlaps, Updates};
ghost use Rattle.art_tree.specs.Content.{room};
ghost use Rattle.art_edits.specs.Reserved.{as_tried, added, added_ok};

use crate::map::TreeMap;
use art_edits::{insert_disjoint_reserved, insert_reserved};
use art_tree::Tree;
use blart_keys::{AsBytes, InsertPrefixError, NoPrefixesBytes};
use std::alloc::AllocError;
use std::mem::replace;

/// The pairs of a map, and room for some more. A [`Reserved`] holds it while it borrows the map.
///
/// The example of [`Reserved`] shows it.
#[derive(Drop)]
pub struct Room<K: AsBytes, V, const PREFIX_LEN: usize> {
    tree: Tree<K, V, PREFIX_LEN>,
    left: usize,
    ghost fits: { left ≤ room tree },
}

/// A map with room for some pairs, which [`TreeMap::reserve`] makes. Insertions here do not
/// allocate, so none runs out of memory.
///
/// The room counts down by one if a pair is added. It is unchanged if a stored key gets a new value
/// or a key conflicts.
///
/// This value holds the pairs, and the map is empty meanwhile. When it is dropped, the map has them
/// again. If it is forgotten instead, the map remains empty.
///
/// `M` is the map's type. `R` is the type of the value that holds the pairs, a [`Room`]. It is a
/// parameter since a proof would not learn what becomes of the map if the type named it in a field.
///
/// ```
/// let mut room = map.reserve(2)?;
/// assert_eq!(room.insert(7, 1), None);
/// assert_eq!(room.insert(7, 2), Some(1));
/// assert_eq!(room.left(), 1);
/// drop(room);
/// assert_eq!(map.get(&7u8), Some(&2));
/// ```
pub struct Reserved<'a, M, R: PutBack<M>> {
    map: &'a mut M,
    room: R,
}

/// A value that was taken out of a map, and can be put back.
///
/// The example of [`Reserved`] shows it.
pub trait PutBack<M>: Drop {
    /// The map, once it is put back.
    ghost filled: { Self → M };

    /// Replaces the content of the map by this value.
    ///
    /// Cost: drops the pairs that the map has.
    fn put_back(self, map: &mut M)
        ensures { map.new ≡ filled self };
}

impl<K: AsBytes + Drop, V: Drop, const PREFIX_LEN: usize> PutBack<TreeMap<K, V, PREFIX_LEN>>
    for Room<K, V, PREFIX_LEN> {
    ghost use Rattle.blart_map.specs.Reserved.{room_leaves};

    ghost filled = { λ r. room_leaves r };

    fn put_back(self, map: &mut TreeMap<K, V, PREFIX_LEN>) {
        let Room { tree, left: _ } = self;
        drop(replace(&mut map.tree, tree));
    }
}

impl<'a, M, R: PutBack<M>> Drop for Reserved<'a, M, R> {
    ghost use Rattle.blart_map.specs.Reserved.{reserved_room};

    fn drop(self)
        ensures { self.exit.0.now ≡ R.filled (reserved_room self.entry) }
    {
        let Reserved { map, room } = self;
        room.put_back(map);
    }
}

impl<K: AsBytes + Drop, V: Drop, const PREFIX_LEN: usize> TreeMap<K, V, PREFIX_LEN> {
    ghost use Rattle.blart_map.specs.Content.{pairs};
    ghost use Rattle.blart_map.specs.Reserved.{reserved_map, held, room_leaves, room_count, room_left, rests_if_full};

    /// Makes room for `count` more pairs, and returns a guard that fills the map. The map is empty
    /// until the guard is dropped.
    ///
    /// If it fails to allocate, the map is unchanged. If `count` is 0, it does not allocate.
    ///
    /// Cost: allocates for `count` pairs.
    ///
    /// ```
    /// let mut room = map.reserve(2)?;
    /// room.insert(U32Key::new(1), 'a');
    /// room.insert(U32Key::new(2), 'b');
    /// drop(room);
    /// assert_eq!(map.len(), 2);
    /// ```
    pub fn reserve(
        &mut self,
        count: usize,
    ) -> Result<Reserved<'_, Self, Room<K, V, PREFIX_LEN>>, AllocError>
        ensures* stands { sem 𝓛
            (rests_if_full K.row V.row PREFIX_LEN.row K.AsBytes self.entry result) }
        ensures same_map { IfOk result
            (λ r. (reserved_map r).ghost_name ≡ self.entry.ghost_name) }
        ensures unchanged { IfOk result (λ r. held r ≡ pairs self.old) }
        ensures meanwhile { IfOk result (λ r. (reserved_map r).now ≡ []) }
        ensures left { IfOk result (λ r. room_left r ≡ count) }
        ensures refused { OnErr result (0 < count) }
    {
        match self.take_room(count) {
            Ok(room) => Ok(Reserved { map: self, room }),
            Err(refused) => Err(refused),
        }
    }

    /// Makes room for `count` more pairs, and takes the pairs out of the map with it. The map is
    /// empty until the room is put back.
    ///
    /// If it fails to allocate, the map is unchanged.
    ///
    /// Cost: allocates for `count` pairs.
    pub fn take_room(&mut self, count: usize) -> Result<Room<K, V, PREFIX_LEN>, AllocError>
        ensures same { IfOk result (λ r. room_leaves r ≡ self.old) }
        ensures empty { OnOk result (self.new ≡ []) }
        ensures left { IfOk result (λ r. room_count r ≡ count) }
        ensures err { OnErr result (self.new ≡ self.old) }
        ensures refused { OnErr result (0 < count) }
    {
        self.tree.reserve(count)?;
        let tree = replace(&mut self.tree, Tree::new(self.alloc));
        Ok(Room { tree, left: count })
    }
}

impl<K: AsBytes, V, const PREFIX_LEN: usize> Room<K, V, PREFIX_LEN> {
    ghost use Rattle.blart_map.specs.Reserved.{room_count, room_pairs};

    /// Does nothing. Its contract says what holds of the pairs of every room.
    ///
    /// Cost: none.
    #[tactic(auto, unfolding(crate::specs::Content::pairs))]
    pub fn law(&self)
        ensures { IsContent (bytes K.bytes) (room_pairs self.now) }
    {
        self.tree.law();
    }

    /// Returns the number of pairs for which there is room.
    ///
    /// Cost: reads a count.
    pub fn left(&self) -> usize
        ensures { result ≡ room_count self.now }
    {
        self.left
    }
}

impl<K: AsBytes + Drop, V: Drop, const PREFIX_LEN: usize> Room<K, V, PREFIX_LEN> {
    ghost use Rattle.blart_map.specs.Reserved.{room_count, room_pairs};

    /// Inserts the pair, like [`Reserved::try_insert`].
    ///
    /// Cost: an insertion that does not allocate.
    #[tactic(auto, unfolding(crate::specs::Content::pairs))]
    pub fn try_insert(&mut self, key: K, value: V) -> Result<Option<V>, InsertPrefixError>
        requires { 0 < room_count self.old }
        ensures old { IfOk result
            (λ old. old ≡ value_at K.bytes (room_pairs self.old) (K.bytes key)) }
        ensures updates { OnOk result (Updates K.bytes (room_pairs self.old) (room_pairs self.new)
            (K.bytes key) (Some (kept K.bytes (room_pairs self.old) (key, value)))) }
        ensures len { IfOk result (λ old. length (room_pairs self.new)
            ≡ length (room_pairs self.old) + (if is_some old then 0 else 1)) }
        ensures routes { OnOk result ((r : List ℕ) → pair_at_front K.bytes (room_pairs self.new) r
            ≡ (if begins (K.bytes key) r
            then Some (kept K.bytes (room_pairs self.old) (key, value))
            else pair_at_front K.bytes (room_pairs self.old) r)) }
        ensures err { OnErr result (room_pairs self.new ≡ room_pairs self.old) }
        ensures free { OnOk result (overlaps K.bytes (room_pairs self.old) (K.bytes key) ≡ false) }
        ensures why { OnErr result (overlaps K.bytes (room_pairs self.old) (K.bytes key) ≡ true) }
        ensures put { Puts K.bytes (option_map (λ pair. pair.1)) (room_pairs self.old) (key, value)
            (kept K.bytes (room_pairs self.old) (key, value)) (as_tried result)
            (room_pairs self.new) }
        ensures left { room_count self.new + added_ok result ≡ room_count self.old }
    {
        self.law();
        // The count goes down first, so that it never promises more room than there is.
        self.left -= 1;
        let old = insert_reserved(&mut self.tree, key, value);
        self.left += !matches!(old, Ok(None)) as usize;
        old
    }
}

impl<K: NoPrefixesBytes + Drop, V: Drop, const PREFIX_LEN: usize> Room<K, V, PREFIX_LEN> {
    ghost use Rattle.blart_map.specs.Reserved.{room_count, room_pairs};

    /// Inserts the pair, like [`Reserved::insert`].
    ///
    /// Cost: an insertion that does not allocate.
    #[tactic(auto, unfolding(crate::specs::Content::pairs))]
    pub fn insert(&mut self, key: K, value: V) -> Option<V>
        requires { 0 < room_count self.old }
        ensures old { result ≡ value_at K.bytes (room_pairs self.old) (K.bytes key) }
        ensures updates { Updates K.bytes (room_pairs self.old) (room_pairs self.new) (K.bytes key)
            (Some (kept K.bytes (room_pairs self.old) (key, value))) }
        ensures len { length (room_pairs self.new)
            ≡ length (room_pairs self.old) + (if is_some result then 0 else 1) }
        ensures routes { (r : List ℕ) → pair_at_front K.bytes (room_pairs self.new) r
            ≡ (if begins (K.bytes key) r
            then Some (kept K.bytes (room_pairs self.old) (key, value))
            else pair_at_front K.bytes (room_pairs self.old) r) }
        ensures put { IsPut (bytes K.bytes) (room_pairs self.old)
            (kept K.bytes (room_pairs self.old) (key, value)) (room_pairs self.new) }
        ensures left { room_count self.new + added result ≡ room_count self.old }
    {
        self.law();
        self.left -= 1;
        let old = insert_disjoint_reserved(&mut self.tree, key, value);
        self.left += old.is_some() as usize;
        old
    }
}

impl<'a, K: AsBytes + Drop, V: Drop, const PREFIX_LEN: usize> Reserved<
    'a,
    TreeMap<K, V, PREFIX_LEN>,
    Room<K, V, PREFIX_LEN>,
> {
    ghost use Rattle.blart_map.specs.Reserved.{reserved_map, held, room_left};

    /// Returns the number of pairs for which there is room.
    ///
    /// Cost: reads a count.
    pub fn left(&self) -> usize
        ensures { result ≡ room_left self.now }
    {
        self.room.left()
    }

    /// Inserts the pair, like [`TreeMap::try_insert`]. There must be room for a pair, and a new
    /// pair uses it. It does not allocate, and returns an error only if the key conflicts.
    ///
    /// Cost: an insertion that does not allocate.
    pub fn try_insert(&mut self, key: K, value: V) -> Result<Option<V>, InsertPrefixError>
        requires { 0 < room_left self.old }
        ensures same_map { (reserved_map self.new).ghost_name
            ≡ (reserved_map self.old).ghost_name }
        ensures meanwhile { (reserved_map self.new).now ≡ (reserved_map self.old).now }
        ensures least { room_left self.old ≤ room_left self.new + 1 }
        ensures left { room_left self.new + added_ok result ≡ room_left self.old }
        ensures old { IfOk result
            (λ old. old ≡ value_at K.bytes (held self.old) (K.bytes key)) }
        ensures updates { OnOk result (Updates K.bytes (held self.old) (held self.new) (K.bytes key)
            (Some (kept K.bytes (held self.old) (key, value)))) }
        ensures len { IfOk result (λ old. length (held self.new)
            ≡ length (held self.old) + (if is_some old then 0 else 1)) }
        ensures routes { OnOk result ((r : List ℕ) → pair_at_front K.bytes (held self.new) r
            ≡ (if begins (K.bytes key) r then Some (kept K.bytes (held self.old) (key, value))
            else pair_at_front K.bytes (held self.old) r)) }
        ensures err { OnErr result (held self.new ≡ held self.old) }
        ensures free { OnOk result (overlaps K.bytes (held self.old) (K.bytes key) ≡ false) }
        ensures why { OnErr result (overlaps K.bytes (held self.old) (K.bytes key) ≡ true) }
        ensures put { Puts K.bytes (option_map (λ pair. pair.1)) (held self.old) (key, value)
            (kept K.bytes (held self.old) (key, value)) (as_tried result) (held self.new) }
    {
        self.room.try_insert(key, value)
    }
}

impl<'a, K: NoPrefixesBytes + Drop, V: Drop, const PREFIX_LEN: usize> Reserved<
    'a,
    TreeMap<K, V, PREFIX_LEN>,
    Room<K, V, PREFIX_LEN>,
> {
    ghost use Rattle.blart_map.specs.Reserved.{reserved_map, held, room_left};

    /// Inserts the pair, like [`TreeMap::insert`]. There must be room for a pair, and a new pair
    /// uses it. It does not allocate, and always succeeds.
    ///
    /// Cost: an insertion that does not allocate.
    pub fn insert(&mut self, key: K, value: V) -> Option<V>
        requires { 0 < room_left self.old }
        ensures same_map { (reserved_map self.new).ghost_name
            ≡ (reserved_map self.old).ghost_name }
        ensures meanwhile { (reserved_map self.new).now ≡ (reserved_map self.old).now }
        ensures least { room_left self.old ≤ room_left self.new + 1 }
        ensures left { room_left self.new + added result ≡ room_left self.old }
        ensures old { result ≡ value_at K.bytes (held self.old) (K.bytes key) }
        ensures updates { Updates K.bytes (held self.old) (held self.new) (K.bytes key)
            (Some (kept K.bytes (held self.old) (key, value))) }
        ensures len { length (held self.new)
            ≡ length (held self.old) + (if is_some result then 0 else 1) }
        ensures routes { (r : List ℕ) → pair_at_front K.bytes (held self.new) r
            ≡ (if begins (K.bytes key) r then Some (kept K.bytes (held self.old) (key, value))
            else pair_at_front K.bytes (held self.old) r) }
        ensures put { IsPut (bytes K.bytes) (held self.old)
            (kept K.bytes (held self.old) (key, value)) (held self.new) }
    {
        self.room.insert(key, value)
    }
}
