//! The table, on the public calls of the map.
ghost use Rattle.std.specs.Prelude.{◌≡◌, ◌<◌, ◌≤◌, ◌+◌, ◌&&◌, ℕ, List, [], true, false, length, is_some, OnOk, IfOk, OnErr, IfErr, IfSome, None, Some, if◌then◌else◌};
ghost use Rattle.blart_keys.specs.Bytes.{begins};
ghost use Rattle.blart_keys.specs.Content.{under, IsContent};
ghost use Rattle.blart_keys.specs.KeyBytes.{vec_bytes};
ghost use Rattle.blart_keys.specs.Routed.{spared_item, OverlapsToo};
ghost use Rattle.blart_keys.specs.Steps.{bytes};
ghost use Rattle.blart_keys.specs.Stored.{pair_at_front, value_at, has, kept, overlaps, shown, CanCount, Updates, Overwrites, Refuses};
ghost use Rattle.blart_map.specs.Content.{pairs};

use blart_map::{DEFAULT_PREFIX_LEN, Prefix, TreeMap, TryInsertError, Visits};
use std::alloc::{AllocError, Global};
use std::marker::Model;

/// Mounts, each a path with its target. No mounted path is a prefix of another. For paths that nest
/// see [`Routes`](crate::Routes).
///
/// ```
/// let mut mounts = Mounts::new(alloc);
/// mounts.mount(Vec::from_slice(alloc, b"/api")?, 1)?;
/// mounts.mount(Vec::from_slice(alloc, b"/app")?, 2)?;
/// assert!(mounts.mount(Vec::from_slice(alloc, b"/api/v1")?, 3).is_err());
/// let (path, target) = mounts.resolve(b"/api/v1/users").unwrap();
/// // "/api" and 1
/// ```
#[derive(Drop)]
pub struct Mounts<V> {
    map: TreeMap<Vec<u8>, V, DEFAULT_PREFIX_LEN>,
}

impl<V> Model for Mounts<V> {
    ghost use Rattle.std.specs.Prelude.{ℕ, List, Vec};
    ghost use Rattle.std.specs.Global.{Global};
    ghost use Rattle.blart_map.specs.Content.{Numbered};

    ghost Value = { List (Numbered (Vec ℕ Global) V) };

    ghost view = { λ m. m.map };
}

impl<V> Mounts<V> {
    /// Returns a table with no mounts. Does not allocate.
    ///
    /// Cost: none.
    #[tactic(auto, unfolding(blart_keys::specs::Stored::pair_at_front))]
    pub fn new(alloc: Global) -> Self
        ensures empty { pairs result ≡ [] }
        ensures routes { (r : List ℕ) → pair_at_front vec_bytes (pairs result) r ≡ None }
    {
        Mounts {
            map: TreeMap::new(alloc),
        }
    }

    /// Does nothing. Its contract says what holds of every table: the mounts ascend by the bytes of
    /// their paths, no path is a prefix of another, and the number of mounts fits a `usize`.
    ///
    /// Cost: none.
    pub fn law(&self)
        ensures content { IsContent (bytes vec_bytes) (pairs self.now) }
        ensures fits { CanCount (pairs self.now) }
    {
        self.map.law();
    }

    /// Returns the number of mounts.
    ///
    /// Cost: reads a count.
    pub fn len(&self) -> usize
        ensures { result ≡ length (pairs self.now) }
    {
        self.map.len()
    }

    /// Returns the mount whose path is a prefix of `path`, with its target, or `None` if there is
    /// no such mount.
    ///
    /// Cost: a look-up.
    ///
    /// ```
    /// // "/api" is mounted
    /// assert!(mounts.resolve(b"/api/v1").is_some());
    /// assert!(mounts.resolve(b"/ap").is_none());
    /// ```
    pub fn resolve(&self, path: &[u8]) -> Option<(&Vec<u8>, &V)>
        ensures value { shown result ≡ pair_at_front vec_bytes (pairs self.now) path.now }
        ensures found { IfSome result (λ pair. begins pair.0.now.items path.now ≡ true) }
    {
        self.resolve_counted(path, &mut Visits::new())
    }

    /// Returns what [`Mounts::resolve`] returns, and counts the visits.
    ///
    /// Cost: at most n + 1 visits, if the path has n bytes, and none on an empty table. It makes at
    /// least one visit if it returns a mount.
    pub fn resolve_counted(&self, path: &[u8], visits: &mut Visits) -> Option<(&Vec<u8>, &V)>
        ensures value { shown result ≡ pair_at_front vec_bytes (pairs self.now) path.now }
        ensures found { IfSome result (λ pair. begins pair.0.now.items path.now ≡ true) }
        ensures counted { visits.new.count ≤ visits.old.count + length path.now + 1 }
        ensures grows { visits.old.count ≤ visits.new.count }
        ensures some_counted { IfSome result (λ _. visits.old.count < visits.new.count) }
        ensures empty { pairs self.now ≡ [] → visits.new.count ≡ visits.old.count }
    {
        self.map.prefix_get_key_value_counted(&path, visits)
    }

    /// Returns an iterator over the mounts whose paths begin with `front`, from both ends, in
    /// ascending order. If `front` is empty, these are all mounts. Does not allocate.
    ///
    /// Cost: an opening. Each step makes one visit.
    pub fn under(&self, front: &[u8]) -> Prefix<'_, Vec<u8>, V, DEFAULT_PREFIX_LEN>
        ensures value { result ≡ under (bytes vec_bytes) (pairs self.now) front.now }
        ensures fits { CanCount result }
    {
        self.map.prefix(front)
    }
}

impl<V: Drop> Mounts<V> {
    /// Mounts the target at the path, and returns the target that was mounted there before, or
    /// `None` if there was none. A path that is mounted is unchanged, and the one that was handed
    /// in is dropped.
    ///
    /// Returns the error `Prefix` exactly if another mounted path is a prefix of the path, or the
    /// path is a prefix of it. Returns `Memory` only if nothing is mounted at the path. After an
    /// error the table is unchanged.
    ///
    /// Cost: an insertion.
    pub fn mount(&mut self, path: Vec<u8>, target: V) -> Result<Option<V>, TryInsertError>
        ensures old { IfOk result (λ old. old ≡ value_at vec_bytes (pairs self.old) path.items) }
        ensures mounted { OnOk result
            (Updates vec_bytes (pairs self.old) (pairs self.new) path.items
            (Some (kept vec_bytes (pairs self.old) (path, target)))) }
        ensures routes { OnOk result ((r : List ℕ) → pair_at_front vec_bytes (pairs self.new) r
            ≡ (if begins path.items r then Some (kept vec_bytes (pairs self.old) (path, target))
            else pair_at_front vec_bytes (pairs self.old) r)) }
        ensures overlapped { OnOk result
            (OverlapsToo vec_bytes (pairs self.old) (pairs self.new) path.items) }
        ensures len { IfOk result (λ old. length (pairs self.new)
            ≡ length (pairs self.old) + (if is_some old then 0 else 1)) }
        ensures free { OnOk result (overlaps vec_bytes (pairs self.old) path.items ≡ false) }
        ensures why { IfErr result (Refuses vec_bytes (pairs self.old) path.items) }
        ensures refused { OnErr result (self.new ≡ self.old) }
    {
        self.map.try_insert(path, target)
    }

    /// Mounts the target at the path, in place of all mounts whose paths are a prefix of it or
    /// begin with it.
    ///
    /// If there are such mounts, it does not allocate. After an error the table is unchanged.
    ///
    /// Cost: one descent, and one for each related mount but one. If there are none, an insertion.
    pub fn mount_over(&mut self, path: Vec<u8>, target: V) -> Result<(), AllocError>
        ensures mounted { OnOk result
            (Overwrites vec_bytes (pairs self.old) (path, target) (pairs self.new)) }
        ensures routes { OnOk result ((r : List ℕ) → pair_at_front vec_bytes (pairs self.new) r
            ≡ (if begins path.items r then Some (path, target)
            else spared_item (bytes vec_bytes) path.items
            (pair_at_front vec_bytes (pairs self.old) r))) }
        ensures free { OnErr result (overlaps vec_bytes (pairs self.old) path.items ≡ false) }
        ensures absent { OnErr result (has vec_bytes (pairs self.old) path.items ≡ false) }
        ensures refused { OnErr result (self.new ≡ self.old) }
    {
        self.map.prefix_insert(path, target)
    }

    /// Removes the mount at the path and returns its target, or returns `None` if nothing is
    /// mounted there. Does not allocate.
    ///
    /// Cost: one descent.
    pub fn unmount(&mut self, path: &[u8]) -> Option<V>
        ensures old { result ≡ value_at vec_bytes (pairs self.old) path.now }
        ensures unmounted { Updates vec_bytes (pairs self.old) (pairs self.new) path.now None }
        ensures routes { (r : List ℕ) → pair_at_front vec_bytes (pairs self.new) r
            ≡ (if begins path.now r && has vec_bytes (pairs self.old) path.now then None
            else pair_at_front vec_bytes (pairs self.old) r) }
        ensures len { length (pairs self.new) + (if is_some result then 1 else 0)
            ≡ length (pairs self.old) }
    {
        self.map.remove(&path)
    }
}
