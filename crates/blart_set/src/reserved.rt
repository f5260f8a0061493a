//! Room for some elements, made beforehand.
ghost use Rattle.std.specs.Prelude.{◌≡◌, ◌+◌, ◌<◌, ◌≤◌, [], true, false, not, length, OnOk, IfOk, OnErr, if◌then◌else◌};
ghost use Rattle.std.specs.Borrow.{sem};
ghost use Rattle.blart_keys.specs.Content.{at, conflict, stores, IsPut};
ghost use Rattle.blart_keys.specs.Stored.{kept_item};
ghost use Rattle.blart_map.specs.Reserved.{room_leaves, room_count};
ghost use Rattle.blart_set.specs.Elements.{UpdatesElement};

use crate::insertions::told;
use crate::set::TreeSet;
use blart_keys::{AsBytes, InsertPrefixError, NoPrefixesBytes};
use blart_map::{PutBack, Room, TreeMap};
use std::alloc::AllocError;

/// A set with room for some elements, which [`TreeSet::reserve`] makes. Insertions here do not
/// allocate, so none runs out of memory.
///
/// The room counts down by one if an element is added. It is unchanged if the element's bytes are
/// stored or it conflicts.
///
/// This value holds the elements, and the set is empty meanwhile. When it is dropped, the set has
/// them again. If it is forgotten instead, the set remains empty.
///
/// `S` is the set's type, and `R` the type that holds the elements, as for the map's guard.
///
/// ```
/// let mut room = set.reserve(2)?;
/// assert!(room.insert(7));
/// assert!(!room.insert(7));
/// assert_eq!(room.left(), 1);
/// drop(room);
/// assert!(set.contains(&7u8));
/// ```
pub struct Reserved<'a, S, R: PutBack<S>> {
    set: &'a mut S,
    room: R,
}

impl<K: AsBytes + Drop, const PREFIX_LEN: usize> PutBack<TreeSet<K, PREFIX_LEN>>
    for Room<K, (), PREFIX_LEN> {
    ghost filled = { λ r. room_leaves r };

    fn put_back(self, set: &mut TreeSet<K, PREFIX_LEN>) {
        PutBack::<TreeMap<K, (), PREFIX_LEN>>::put_back(self, &mut set.map);
    }
}

impl<'a, S, R: PutBack<S>> Drop for Reserved<'a, S, R> {
    ghost use Rattle.blart_set.specs.Reserved.{reserved_room};

    fn drop(self)
        ensures { self.exit.0.now ≡ R.filled (reserved_room self.entry) }
    {
        let Reserved { set, room } = self;
        room.put_back(set);
    }
}

impl<K: AsBytes + Drop, const PREFIX_LEN: usize> TreeSet<K, PREFIX_LEN> {
    ghost use Rattle.blart_set.specs.Elements.{elements};
    ghost use Rattle.blart_set.specs.Reserved.{reserved_set, held_elements, elements_left, rests_if_full};

    /// Makes room for `count` more elements, and returns a guard that fills the set. The set is
    /// empty until the guard is dropped.
    ///
    /// If it fails to allocate, the set is unchanged. If `count` is 0, it does not allocate.
    ///
    /// Cost: allocates for `count` elements.
    ///
    /// ```
    /// let mut room = set.reserve(2)?;
    /// assert!(room.insert(2u8));
    /// assert!(room.insert(1u8));
    /// drop(room);
    /// assert_eq!(set.first(), Some(&1));
    /// ```
    pub fn reserve(
        &mut self,
        count: usize,
    ) -> Result<Reserved<'_, Self, Room<K, (), PREFIX_LEN>>, AllocError>
        ensures* stands { sem 𝓛
            (rests_if_full K.row PREFIX_LEN.row K.AsBytes self.entry result) }
        ensures same_set { IfOk result
            (λ r. (reserved_set r).ghost_name ≡ self.entry.ghost_name) }
        ensures unchanged { IfOk result (λ r. held_elements r ≡ elements self.old) }
        ensures meanwhile { IfOk result (λ r. (reserved_set r).now ≡ []) }
        ensures left { IfOk result (λ r. elements_left r ≡ count) }
        ensures refused { OnErr result (0 < count) }
    {
        match self.take_room(count) {
            Ok(room) => Ok(Reserved { set: self, room }),
            Err(refused) => Err(refused),
        }
    }

    /// Makes room for `count` more elements, and takes the elements out of the set with it.
    fn take_room(&mut self, count: usize) -> Result<Room<K, (), PREFIX_LEN>, AllocError>
        ensures same { IfOk result (λ r. room_leaves r ≡ self.old) }
        ensures empty { OnOk result (self.new ≡ []) }
        ensures left { IfOk result (λ r. room_count r ≡ count) }
        ensures err { OnErr result (self.new ≡ self.old) }
        ensures refused { OnErr result (0 < count) }
    {
        self.map.take_room(count)
    }
}

impl<'a, K: AsBytes + Drop, const PREFIX_LEN: usize> Reserved<
    'a,
    TreeSet<K, PREFIX_LEN>,
    Room<K, (), PREFIX_LEN>,
> {
    ghost use Rattle.blart_set.specs.Reserved.{reserved_set, held_elements, elements_left, added_new_ok};

    /// Returns the number of elements for which there is room.
    ///
    /// Cost: reads a count.
    pub fn left(&self) -> usize
        ensures { result ≡ elements_left self.now }
    {
        self.room.left()
    }

    /// Inserts the element, like [`TreeSet::try_insert`]. There must be room for an element, and a
    /// new element uses it. It does not allocate, and returns an error only if the element
    /// conflicts.
    ///
    /// Cost: an insertion that does not allocate.
    pub fn try_insert(&mut self, element: K) -> Result<bool, InsertPrefixError>
        requires { 0 < elements_left self.old }
        ensures same_set { (reserved_set self.new).ghost_name
            ≡ (reserved_set self.old).ghost_name }
        ensures meanwhile { (reserved_set self.new).now ≡ (reserved_set self.old).now }
        ensures least { elements_left self.old ≤ elements_left self.new + 1 }
        ensures left { elements_left self.new + added_new_ok result ≡ elements_left self.old }
        ensures new { IfOk result
            (λ new. new ≡ not (stores K.bytes (held_elements self.old) (K.bytes element))) }
        ensures put { OnOk result (IsPut K.bytes (held_elements self.old)
            (kept_item (at K.bytes (held_elements self.old) (K.bytes element)) element)
            (held_elements self.new)) }
        ensures updates { OnOk result (UpdatesElement K.bytes (held_elements self.old)
            (held_elements self.new) (K.bytes element) true) }
        ensures free { OnOk result
            (conflict K.bytes (held_elements self.old) (K.bytes element) ≡ false) }
        ensures len { IfOk result (λ new. length (held_elements self.new)
            ≡ length (held_elements self.old) + (if new then 1 else 0)) }
        ensures err { OnErr result (held_elements self.new ≡ held_elements self.old) }
        ensures why { OnErr result
            (conflict K.bytes (held_elements self.old) (K.bytes element) ≡ true) }
    {
        self.room.law();
        told(self.room.try_insert(element, ()))
    }
}

impl<'a, K: NoPrefixesBytes + Drop, const PREFIX_LEN: usize> Reserved<
    'a,
    TreeSet<K, PREFIX_LEN>,
    Room<K, (), PREFIX_LEN>,
> {
    ghost use Rattle.blart_set.specs.Reserved.{reserved_set, held_elements, elements_left, added_new};

    /// Inserts the element, like [`TreeSet::insert`]. There must be room for an element, and a new
    /// element uses it. It does not allocate, and always succeeds.
    ///
    /// Cost: an insertion that does not allocate.
    pub fn insert(&mut self, element: K) -> bool
        requires { 0 < elements_left self.old }
        ensures same_set { (reserved_set self.new).ghost_name
            ≡ (reserved_set self.old).ghost_name }
        ensures meanwhile { (reserved_set self.new).now ≡ (reserved_set self.old).now }
        ensures least { elements_left self.old ≤ elements_left self.new + 1 }
        ensures left { elements_left self.new + added_new result ≡ elements_left self.old }
        ensures new { result ≡ not (stores K.bytes (held_elements self.old) (K.bytes element)) }
        ensures put { IsPut K.bytes (held_elements self.old)
            (kept_item (at K.bytes (held_elements self.old) (K.bytes element)) element)
            (held_elements self.new) }
        ensures updates { UpdatesElement K.bytes (held_elements self.old)
            (held_elements self.new) (K.bytes element) true }
        ensures len { length (held_elements self.new)
            ≡ length (held_elements self.old) + (if result then 1 else 0) }
    {
        self.room.law();
        self.room.insert(element, ()).is_none()
    }
}
