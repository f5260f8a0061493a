//! The table of paths that nest, on some tables of paths that do not.
ghost use Rattle.std.specs.Prelude.{◌≡◌, ◌==◌, ◌+◌, ◌*◌, ◌<◌, ◌≤◌, ◌&&◌, ℕ, List, [], true, false, length, leb, max, is_some, option_copied, OnOk, IfOk, OnErr, IfSome, None, Some, if◌then◌else◌};
ghost use Rattle.blart_keys.specs.Bounds.{is_from_start, slice_bound};
ghost use Rattle.blart_keys.specs.Bytes.{begins, less};
ghost use Rattle.blart_keys.specs.Content.{under, Ascends};
ghost use Rattle.blart_keys.specs.KeyBytes.{vec_bytes};
ghost use Rattle.blart_keys.specs.Steps.{bytes};
ghost use Rattle.blart_keys.specs.Stored.{value_at, has, kept, overlaps, shown, CanCount, Updates};
ghost use Rattle.prefix_router.specs.Best.{IsBest, is_shorter, StartsUnder};
ghost use Rattle.prefix_router.specs.Nesting.{fronts_of, longest_front, lead, longer, leads_by, IsLongestFront};

use crate::resolve_all::ResolveAll;
use crate::tables::{
    Table, add, drop_empty, first_under, longest, set_target, shortest, table_of, take, target_at,
};
use crate::under::Under;
use blart_map::Visits;
use std::alloc::{AllocError, Global};
use std::marker::Model;
use std::ops::Bound;

/// Mounts, each a path with its target. A mounted path may be a prefix of another. A path is
/// resolved to the longest mounted path that is a prefix of it.
///
/// The mounts are in some tables, in each of which no path is a prefix of another. A new table is
/// made only if each has a mount whose path is a prefix of the new path or begins with it. So if no
/// mount was removed and no two mounts nest, there is at most one table.
///
/// ```
/// let mut routes = Routes::new(alloc);
/// routes.mount(Vec::from_slice(alloc, b"/")?, 1)?;
/// routes.mount(Vec::from_slice(alloc, b"/api")?, 2)?;
/// let (path, target) = routes.resolve(b"/api/v1/users").unwrap();
/// // "/api" and 2
/// let (path, target) = routes.resolve(b"/about").unwrap();
/// // "/" and 1
/// ```
#[derive(Drop)]
pub struct Routes<V> {
    tables: Vec<Table<V>>,
    count: usize,
    alloc: Global,
}

impl<V> Model for Routes<V> {
    ghost use Rattle.std.specs.Prelude.{◌≡◌, length};
    ghost use Rattle.prefix_router.specs.Tables.{Nested, mounts_of, AreCounted};

    ghost Value = { Nested V };

    ghost view = { λ r. record { mounts = mounts_of r.tables.items; tables = length r.tables.items } };

    ghost invariant = { λ r. AreCounted r.tables.items r.count };
}

impl<V> Routes<V> {
    /// Returns a table with no mounts. Does not allocate.
    ///
    /// Cost: none.
    pub fn new(alloc: Global) -> Self
        ensures empty { result.mounts ≡ [] }
        ensures tables { result.tables ≡ 0 }
        ensures routes { (r : List ℕ) → lead vec_bytes result.mounts r ≡ None }
    {
        Routes {
            tables: Vec::new(alloc),
            count: 0,
            alloc,
        }
    }

    /// Does nothing. Its contract says what holds of every table: the mounts ascend by the bytes of
    /// their paths, and the number of mounts fits a `usize`.
    ///
    /// Cost: none.
    pub fn law(&self)
        ensures ascends { Ascends (bytes vec_bytes) self.now.mounts }
        ensures fits { CanCount self.now.mounts }
    {
        let _count = self.count;
    }

    /// Returns the number of mounts.
    ///
    /// Cost: reads a count.
    pub fn len(&self) -> usize
        ensures { result ≡ length self.now.mounts }
    {
        self.count
    }

    /// Returns `true` if there are no mounts.
    ///
    /// Cost: reads a count.
    pub fn is_empty(&self) -> bool
        ensures { result ≡ (length self.now.mounts == 0) }
    {
        self.count == 0
    }

    /// Returns the number of tables in which the mounts are. A call that resolves a path makes a
    /// look-up in each.
    ///
    /// Cost: reads a count.
    pub fn tables(&self) -> usize
        ensures { result ≡ self.now.tables }
    {
        self.tables.len()
    }

    /// Returns the target that is mounted at the path, or `None` if nothing is mounted there.
    ///
    /// Cost: a look-up in each table, up to the one that has the path.
    pub fn get(&self, path: &[u8]) -> Option<&V>
        ensures { option_copied result ≡ value_at vec_bytes self.now.mounts path.now }
    {
        target_at(&self.tables, path)
    }

    /// Returns the mount with the longest path that is a prefix of `path`, with its target, or
    /// `None` if no mounted path is a prefix of it.
    ///
    /// Cost: a look-up in each table.
    ///
    /// ```
    /// // "/" and "/api" are mounted
    /// assert!(routes.resolve(b"/api/v1").is_some());
    /// assert!(routes.resolve(b"api").is_none());
    /// ```
    pub fn resolve(&self, path: &[u8]) -> Option<(&Vec<u8>, &V)>
        ensures value { shown result ≡ longest_front vec_bytes self.now.mounts path.now }
        ensures longest { IsLongestFront vec_bytes self.now.mounts path.now (shown result) }
        ensures found { IfSome result (λ pair. begins pair.0.now.items path.now ≡ true) }
    {
        self.resolve_counted(path, &mut Visits::new())
    }

    /// Returns what [`Routes::resolve`] returns, and counts the visits.
    ///
    /// Cost: at most t * (n + 1) visits, if there are t tables and the path has n bytes. It makes
    /// at least one visit if it returns a mount.
    pub fn resolve_counted(&self, path: &[u8], visits: &mut Visits) -> Option<(&Vec<u8>, &V)>
        ensures value { shown result ≡ longest_front vec_bytes self.now.mounts path.now }
        ensures longest { IsLongestFront vec_bytes self.now.mounts path.now (shown result) }
        ensures found { IfSome result (λ pair. begins pair.0.now.items path.now ≡ true) }
        ensures counted { visits.new.count
            ≤ visits.old.count + self.now.tables * (length path.now + 1) }
        ensures grows { visits.old.count ≤ visits.new.count }
        ensures some_counted { IfSome result (λ _. visits.old.count < visits.new.count) }
    {
        longest(&self.tables, path, visits)
    }

    /// Returns an iterator over the mounts whose paths are prefixes of `path`, from the shortest to
    /// the longest. Does not allocate.
    ///
    /// Cost: none. Each step makes a look-up in each table.
    #[tactic(auto, using(blart_keys::proofs::StoredLemmas::can_count_filter))]
    pub fn resolve_all<'a>(&'a self, path: &'a [u8]) -> ResolveAll<'a, V>
        ensures value { result ≡ fronts_of vec_bytes self.now.mounts path.now }
        ensures fits { CanCount result }
    {
        self.law();
        ResolveAll::new(self, path)
    }

    /// Returns an iterator over the mounts whose paths begin with `front`, in ascending order. If
    /// `front` is empty, these are all mounts. Does not allocate.
    ///
    /// Cost: none. Each step makes an opening in each table, and one visit in each that has such a
    /// mount left.
    #[tactic(auto, using(blart_keys::proofs::StoredLemmas::can_count_filter))]
    pub fn under<'a>(&'a self, front: &'a [u8]) -> Under<'a, V>
        ensures value { result ≡ under (bytes vec_bytes) self.now.mounts front.now }
        ensures fits { CanCount result }
    {
        self.law();
        Under::new(self, front)
    }

    /// Returns the mount with the shortest path that is a prefix of `path` and has `least` bytes or
    /// more.
    pub(crate) fn shortest(&self, path: &[u8], least: usize) -> Option<(&Vec<u8>, &V)>
        ensures { IsBest vec_bytes (λ r. begins r path.now && leb least (length r)) is_shorter
            self.now.mounts (shown result) }
    {
        shortest(&self.tables, path, least)
    }

    /// Returns the mount with the least path that is not before the bound and begins with `front`.
    pub(crate) fn first_under(&self, front: &[u8], low: Bound<&[u8]>) -> Option<(&Vec<u8>, &V)>
        requires { StartsUnder front.now (slice_bound low) }
        ensures { IsBest vec_bytes
            (λ r. is_from_start (slice_bound low.entry) r && begins front.now r) less
            self.now.mounts (shown result) }
    {
        first_under(&self.tables, front, low)
    }
}

impl<V: Drop> Routes<V> {
    /// Mounts the target at the path, and returns the target that was mounted there before, or
    /// `None` if there was none. A path that is mounted is unchanged, and the one that was handed
    /// in is dropped.
    ///
    /// Returns an error only if nothing is mounted at the path. The table is then unchanged.
    ///
    /// Cost: a look-up and a descent in each table, and an insertion.
    pub fn mount(&mut self, path: Vec<u8>, target: V) -> Result<Option<V>, AllocError>
        ensures old { IfOk result (λ old. old ≡ value_at vec_bytes self.old.mounts path.items) }
        ensures mounted { OnOk result
            (Updates vec_bytes self.old.mounts self.new.mounts path.items
            (Some (kept vec_bytes self.old.mounts (path, target)))) }
        ensures routes { OnOk result ((r : List ℕ) → lead vec_bytes self.new.mounts r
            ≡ (if begins path.items r
            then Some (longer (lead vec_bytes self.old.mounts r) (path.items, target))
            else lead vec_bytes self.old.mounts r)) }
        ensures len { IfOk result (λ old. length self.new.mounts
            ≡ length self.old.mounts + (if is_some old then 0 else 1)) }
        ensures tables { self.new.tables ≤ self.old.tables + 1 }
        ensures flat { overlaps vec_bytes self.old.mounts path.items ≡ false
            → self.new.tables ≤ max self.old.tables 1 }
        ensures absent { OnErr result (has vec_bytes self.old.mounts path.items ≡ false) }
        ensures refused { OnErr result (self.new ≡ self.old) }
    {
        self.law();
        match table_of(&self.tables, path.as_slice()) {
            Some(place) => Ok(set_target(&mut self.tables, place, path, target)),
            None => {
                self.mount_new(path, target)?;
                self.law();
                Ok(None)
            }
        }
    }

    /// Mounts a target at a path at which nothing is mounted. If the call fails, the table is
    /// unchanged.
    fn mount_new(&mut self, path: Vec<u8>, target: V) -> Result<(), AllocError>
        requires { has vec_bytes self.old.mounts path.items ≡ false }
        ensures updates { OnOk result (Updates vec_bytes self.old.mounts self.new.mounts path.items
            (Some (path, target))) }
        ensures tables { self.new.tables ≤ self.old.tables + 1 }
        ensures flat { overlaps vec_bytes self.old.mounts path.items ≡ false
            → self.new.tables ≤ max self.old.tables 1 }
        ensures err { OnErr result (self.new ≡ self.old) }
    {
        let Some(count) = self.count.checked_add(1) else {
            return Err(AllocError);
        };
        add(&mut self.tables, self.alloc, path, target)?;
        self.count = count;
        Ok(())
    }

    /// Removes the mount at the path and returns its target, or returns `None` if nothing is
    /// mounted there. Does not allocate. A table that has no mount left is dropped.
    ///
    /// Cost: a look-up in each table, up to the one that has the path, and there one descent.
    pub fn unmount(&mut self, path: &[u8]) -> Option<V>
        ensures old { result ≡ value_at vec_bytes self.old.mounts path.now }
        ensures unmounted { Updates vec_bytes self.old.mounts self.new.mounts path.now None }
        ensures routes { (r : List ℕ) → lead vec_bytes self.new.mounts r
            ≡ (if leads_by path.now (lead vec_bytes self.old.mounts r)
            then lead vec_bytes self.new.mounts path.now
            else lead vec_bytes self.old.mounts r) }
        ensures len { length self.new.mounts + (if is_some result then 1 else 0)
            ≡ length self.old.mounts }
        ensures tables { self.new.tables ≤ self.old.tables }
    {
        self.law();
        let place = table_of(&self.tables, path)?;
        let target = take(&mut self.tables, place, path);
        self.count -= 1;
        drop_empty(&mut self.tables, place);
        target
    }
}
