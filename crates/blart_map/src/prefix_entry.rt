//! A key's place in a map, over the pairs to which it is related.
ghost use Rattle.std.specs.Prelude.{◌≡◌, None, Some, option_copied, IfOk, OnErr, IfSome};
ghost use Rattle.std.specs.Option.{unwrap_or, UnwrapsOrElse};
ghost use Rattle.std.specs.Fn.{FnOnceReturnsAt};
ghost use Rattle.blart_keys.specs.Entries.{Kind};
ghost use denote.Ref.{Bor};

use crate::map::TreeMap;
use crate::occupied::Occupied;
use crate::prefix_kind::PrefixKind;
use crate::prefix_occupied::PrefixOccupied;
use crate::vacant::VacantEntry;
use blart_keys::AsBytes;
use std::alloc::{AllocError, Global};
use std::default::MadeWith;

/// The entry of a key in a map: its pair, the pairs with which it conflicts, or a vacant entry.
///
/// Call [`PrefixEntry::kind`] first, as the example does: only the calls of [`PrefixKind`] have all
/// clauses, since the borrow checker of the language carries no clause about the map through an
/// enum in an enum. The calls of this type that insert do the same, but their contracts do not say
/// what the map is after a write or an error.
///
/// A call that inserts fails to allocate on `Vacant` alone. A closure or a default is called on
/// `Vacant` and `Inner` alone, once there is room. On `Inner` such a call removes all pairs to
/// which the key is related, and places the key.
///
/// ```
/// map.try_insert("car", 1)?;
/// map.try_insert("cat", 2)?;
/// *map.prefix_entry("ca").kind().or_insert(0)? = 1;
/// assert_eq!(map.len(), 1);
/// assert_eq!(map.get(&"ca"), Some(&1));
/// ```
#[derive(Drop)]
pub enum PrefixEntry<'a, K: AsBytes, V, const PREFIX_LEN: usize, T: 'a> {
    /// The key's bytes are stored, or the key conflicts with stored keys.
    Occupied(PrefixOccupied<'a, K, V, PREFIX_LEN, T>),
    /// The key is related to no stored key.
    Vacant(VacantEntry<'a, K, V, PREFIX_LEN, T>),
}

impl<'a, K: AsBytes, V, const PREFIX_LEN: usize, T: 'a> PrefixEntry<'a, K, V, PREFIX_LEN, T> {
    ghost use Rattle.blart_map.specs.PrefixEntry.{prefix_key, prefix_found};

    /// Returns the stored key if its bytes are stored, and otherwise the key that was handed in.
    ///
    /// Cost: one visit if the bytes are stored, and none otherwise.
    pub fn key(&self) -> &K
        ensures { prefix_key self.now ≡ Some result.now }
    {
        match self {
            PrefixEntry::Occupied(entry) => entry.key(),
            PrefixEntry::Vacant(entry) => entry.key(),
        }
    }

    /// Returns the stored key if its bytes are stored, or if it is the only one that conflicts. If
    /// several conflict, returns `None`, and if none is related, the key that was handed in.
    ///
    /// Cost: at most one visit.
    pub fn get_key(&self) -> Option<&K>
        ensures { option_copied result ≡ prefix_found self.now }
    {
        match self {
            PrefixEntry::Occupied(entry) => entry.get_key(),
            PrefixEntry::Vacant(entry) => Some(entry.key()),
        }
    }

    /// Returns the allocator of the map, with which `or_default` makes a value.
    fn allocator(&self) -> Global {
        match self {
            PrefixEntry::Occupied(PrefixOccupied::Leaf(entry)) => entry.map.allocator(),
            PrefixEntry::Occupied(PrefixOccupied::Inner(entry)) => entry.map.allocator(),
            PrefixEntry::Vacant(entry) => entry.map.allocator(),
        }
    }
}

impl<'a, K: AsBytes, V, const PREFIX_LEN: usize> PrefixEntry<
    'a,
    K,
    V,
    PREFIX_LEN,
    TreeMap<K, V, PREFIX_LEN>,
> {
    ghost use Rattle.blart_map.specs.PrefixKind.{IsKindOf};

    /// Returns the entry as one of three kinds, whose calls say what the map becomes.
    ///
    /// Cost: none.
    ///
    /// ```
    /// match map.prefix_entry("ca").kind() {
    ///     PrefixKind::Leaf(entry) => *entry.into_mut() += 1,
    ///     PrefixKind::Inner(entry) => *entry.insert(0) += 1,
    ///     PrefixKind::Vacant(entry) => *entry.insert(0)? += 1,
    /// }
    /// ```
    pub fn kind(self) -> PrefixKind<'a, K, V, PREFIX_LEN, TreeMap<K, V, PREFIX_LEN>>
        ensures { IsKindOf self.entry result }
    {
        match self {
            PrefixEntry::Occupied(PrefixOccupied::Leaf(entry)) => PrefixKind::Leaf(entry),
            PrefixEntry::Occupied(PrefixOccupied::Inner(entry)) => PrefixKind::Inner(entry),
            PrefixEntry::Vacant(entry) => PrefixKind::Vacant(entry),
        }
    }
}

impl<'a, K: AsBytes + Drop, V: Drop, const PREFIX_LEN: usize> PrefixEntry<
    'a,
    K,
    V,
    PREFIX_LEN,
    TreeMap<K, V, PREFIX_LEN>,
> {
    ghost use Rattle.blart_map.specs.PrefixEntry.{prefix_kind, prefix_key, prefix_value, IsPrefixSet, IsPrefixKeptOrSet, IsPrefixKeptOrMade};

    /// Sets the value, on `Inner` in place of all pairs to which the key is related, and returns
    /// the entry of the key's pair. See [`PrefixKind::insert_entry`], which has all clauses.
    ///
    /// Cost: as for [`PrefixKind::insert_entry`].
    pub fn insert_entry(self, value: V) -> Result<Occupied<'a, K, V, PREFIX_LEN>, AllocError>
        ensures set { IfOk result (IsPrefixSet self.entry value) }
        ensures vacant { OnErr result (prefix_kind self.entry ≡ Kind.Vacant) }
    {
        match self {
            PrefixEntry::Occupied(entry) => Ok(entry.insert_entry(value)),
            PrefixEntry::Vacant(entry) => entry.insert_entry(value),
        }
    }

    /// Returns the entry of the key's pair. If no value is stored, it first places the default, in
    /// place of all pairs to which the key is related. See [`PrefixKind::or_insert_entry`], which
    /// has all clauses.
    ///
    /// Cost: as for [`PrefixKind::or_insert_entry`].
    pub fn or_insert_entry(self, default: V) -> Result<Occupied<'a, K, V, PREFIX_LEN>, AllocError>
        ensures set { IfOk result (IsPrefixKeptOrSet self.entry default) }
        ensures vacant { OnErr result (prefix_kind self.entry ≡ Kind.Vacant) }
    {
        match self {
            PrefixEntry::Occupied(PrefixOccupied::Leaf(entry)) => Ok(entry),
            PrefixEntry::Occupied(PrefixOccupied::Inner(entry)) => Ok(entry.insert_entry(default)),
            PrefixEntry::Vacant(entry) => entry.insert_entry(default),
        }
    }

    /// Returns the entry of the key's pair, like [`PrefixEntry::or_insert_entry`], with the value
    /// that the closure returns. See [`PrefixKind::or_insert_with_entry`], which has all clauses.
    ///
    /// Cost: as for [`PrefixKind::or_insert_with_entry`].
    pub fn or_insert_with_entry<F: FnOnce() -> V + Drop>(
        self,
        default: F,
    ) -> Result<Occupied<'a, K, V, PREFIX_LEN>, AllocError>
        requires { prefix_value self ≡ None → F.pre default }
        ensures set { IfOk result (IsPrefixKeptOrMade self.entry (F.post default)) }
        ensures vacant { OnErr result (prefix_kind self.entry ≡ Kind.Vacant) }
    {
        match self {
            PrefixEntry::Occupied(PrefixOccupied::Leaf(entry)) => Ok(entry),
            PrefixEntry::Occupied(PrefixOccupied::Inner(entry)) => {
                Ok(entry.insert_entry(default()))
            }
            PrefixEntry::Vacant(entry) => entry.insert_entry_with(default),
        }
    }

    /// Returns the entry of the key's pair, like [`PrefixEntry::or_insert_with_entry`]. The closure
    /// takes the key that was handed in. See [`PrefixKind::or_insert_with_key_entry`], which has
    /// all clauses.
    ///
    /// Cost: as for [`PrefixKind::or_insert_with_key_entry`].
    pub fn or_insert_with_key_entry<F: FnOnce(&K) -> V + Drop>(
        self,
        default: F,
    ) -> Result<Occupied<'a, K, V, PREFIX_LEN>, AllocError>
        requires { prefix_value self ≡ None
            → (p : Bor K) → prefix_key self ≡ Some p.now → F.pre default p }
        ensures set { IfOk result (IsPrefixKeptOrMade self.entry
            (λ v. IfSome (prefix_key self.entry) (λ k. FnOnceReturnsAt F.FnOnce default k v))) }
        ensures vacant { OnErr result (prefix_kind self.entry ≡ Kind.Vacant) }
    {
        match self {
            PrefixEntry::Occupied(PrefixOccupied::Leaf(entry)) => Ok(entry),
            PrefixEntry::Occupied(PrefixOccupied::Inner(entry)) => {
                let value = default(entry.key());
                Ok(entry.insert_entry(value))
            }
            PrefixEntry::Vacant(entry) => entry.insert_entry_with_key(default),
        }
    }

    /// Returns the entry of the key's pair, like [`PrefixEntry::or_insert_with_entry`], with what
    /// [`MadeWith`] makes: the type's default, or an empty collection. See
    /// [`PrefixKind::or_default_entry`], which has all clauses.
    ///
    /// Cost: as for [`PrefixKind::or_default_entry`].
    pub fn or_default_entry(self) -> Result<Occupied<'a, K, V, PREFIX_LEN>, AllocError>
    where
        V: MadeWith<Global>,
        ensures set { IfOk result (IsPrefixKeptOrMade self.entry V.is_made_with) }
        ensures vacant { OnErr result (prefix_kind self.entry ≡ Kind.Vacant) }
    {
        let alloc = self.allocator();
        self.or_insert_with_entry(move || V::made_with(alloc))
    }

    /// Returns a mutable reference to the value, which it places like
    /// [`PrefixEntry::or_insert_entry`]. See [`PrefixKind::or_insert`], which has all clauses.
    ///
    /// Cost: as for [`PrefixKind::or_insert`].
    pub fn or_insert(self, default: V) -> Result<&'a mut V, AllocError>
        ensures value { IfOk result
            (λ r. r.now ≡ unwrap_or (prefix_value self.entry) default) }
        ensures vacant { OnErr result (prefix_kind self.entry ≡ Kind.Vacant) }
    {
        match self.or_insert_entry(default) {
            Ok(entry) => Ok(entry.into_mut()),
            Err(refused) => Err(refused),
        }
    }

    /// Returns a mutable reference to the value, which it places like
    /// [`PrefixEntry::or_insert_with_entry`]. See [`PrefixKind::or_insert_with`], which has all
    /// clauses.
    ///
    /// Cost: as for [`PrefixKind::or_insert_with`].
    pub fn or_insert_with<F: FnOnce() -> V + Drop>(
        self,
        default: F,
    ) -> Result<&'a mut V, AllocError>
        requires { prefix_value self ≡ None → F.pre default }
        ensures value { IfOk result
            (λ r. UnwrapsOrElse (prefix_value self.entry) (F.post default) r.now) }
        ensures vacant { OnErr result (prefix_kind self.entry ≡ Kind.Vacant) }
    {
        match self.or_insert_with_entry(default) {
            Ok(entry) => Ok(entry.into_mut()),
            Err(refused) => Err(refused),
        }
    }

    /// Returns a mutable reference to the value, which it places like
    /// [`PrefixEntry::or_insert_with_key_entry`]. See [`PrefixKind::or_insert_with_key`], which has
    /// all clauses.
    ///
    /// Cost: as for [`PrefixKind::or_insert_with_key`].
    pub fn or_insert_with_key<F: FnOnce(&K) -> V + Drop>(
        self,
        default: F,
    ) -> Result<&'a mut V, AllocError>
        requires { prefix_value self ≡ None
            → (p : Bor K) → prefix_key self ≡ Some p.now → F.pre default p }
        ensures value { IfOk result (λ r. UnwrapsOrElse (prefix_value self.entry)
            (λ v. IfSome (prefix_key self.entry) (λ k. FnOnceReturnsAt F.FnOnce default k v))
            r.now) }
        ensures vacant { OnErr result (prefix_kind self.entry ≡ Kind.Vacant) }
    {
        match self.or_insert_with_key_entry(default) {
            Ok(entry) => Ok(entry.into_mut()),
            Err(refused) => Err(refused),
        }
    }

    /// Returns a mutable reference to the value, which it places like
    /// [`PrefixEntry::or_default_entry`]. See [`PrefixKind::or_default`], which has all clauses.
    ///
    /// Cost: as for [`PrefixKind::or_default`].
    pub fn or_default(self) -> Result<&'a mut V, AllocError>
    where
        V: MadeWith<Global>,
        ensures value { IfOk result
            (λ r. UnwrapsOrElse (prefix_value self.entry) V.is_made_with r.now) }
        ensures vacant { OnErr result (prefix_kind self.entry ≡ Kind.Vacant) }
    {
        match self.or_default_entry() {
            Ok(entry) => Ok(entry.into_mut()),
            Err(refused) => Err(refused),
        }
    }
}
