//! A walk over the mounts whose paths begin with some bytes.
ghost use Rattle.std.specs.Prelude.{◌≡◌};
ghost use Rattle.std.specs.Iterator.{YieldsFirstBy, item_count};
ghost use Rattle.blart_keys.specs.Content.{under};
ghost use Rattle.blart_keys.specs.KeyBytes.{vec_bytes};
ghost use Rattle.blart_keys.specs.Steps.{bytes};

use crate::routes::Routes;
use std::iter::{FusedIterator, Iterator};
use std::marker::Model;
use std::ops::Bound;

/// The mounts whose paths begin with some bytes, in ascending order. Each step makes an opening in
/// each table, and one visit in each that has such a mount left. Once no mount is left, each step
/// returns `None`.
///
/// ```
/// // "/", "/api" and "/app" are mounted
/// let mut mounts = routes.under(b"/a");
/// assert_eq!(mounts.next().map(|(_, target)| *target), Some(2));
/// assert_eq!(mounts.next().map(|(_, target)| *target), Some(3));
/// assert_eq!(mounts.next(), None);
/// ```
#[derive(Drop)]
pub struct Under<'a, V> {
    routes: &'a Routes<V>,
    front: &'a [u8],
    /// Where the mounts that are left begin.
    low: Bound<&'a [u8]>,
}

impl<'a, V> Model for Under<'a, V> {
    ghost use Rattle.std.specs.Prelude.{ℕ, List, Vec, ◌&&◌, filter};
    ghost use Rattle.std.specs.Global.{Global};
    ghost use Rattle.blart_keys.specs.Bounds.{is_from_start, slice_bound};
    ghost use Rattle.blart_keys.specs.Bytes.{begins};
    ghost use Rattle.blart_keys.specs.KeyBytes.{vec_bytes};
    ghost use Rattle.prefix_router.specs.Best.{StartsUnder};

    ghost Value = { List (Vec ℕ Global × V) };

    ghost view = { λ it. filter (λ p. is_from_start (slice_bound it.low) (vec_bytes p.0) && begins it.front.now (vec_bytes p.0)) it.routes.now.mounts };

    ghost invariant = { λ it. StartsUnder it.front.now (slice_bound it.low) };
}

impl<'a, V> Under<'a, V> {
    /// Returns a walk over the mounts whose paths begin with `front`.
    pub(crate) fn new(routes: &'a Routes<V>, front: &'a [u8]) -> Self
        ensures { result ≡ under (bytes vec_bytes) routes.now.mounts front.now }
    {
        Under {
            routes,
            front,
            low: Bound::Included(front),
        }
    }
}

impl<'a, V> Iterator for Under<'a, V> {
    type Item = (&'a Vec<u8>, &'a V);

    ghost next_gives = { YieldsFirstBy (λ item. (item.0.now, item.1.now)) (λ rest. rest) };

    ghost remaining = { item_count (λ rest. rest) };

    /// Returns the first mount that is left, or `None` if none is left.
    ///
    /// Cost: an opening in each table, and one visit in each that has such a mount left.
    fn next(&mut self) -> Option<(&'a Vec<u8>, &'a V)> {
        self.routes.law();
        let mount = self.routes.first_under(self.front, self.low)?;
        self.low = Bound::Excluded(mount.0.as_slice());
        Some(mount)
    }
}

impl<'a, V> FusedIterator for Under<'a, V> {}
