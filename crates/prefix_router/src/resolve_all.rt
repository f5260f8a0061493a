//! A walk over the mounts whose paths are prefixes of a path.
ghost use Rattle.std.specs.Prelude.{◌≡◌};
ghost use Rattle.std.specs.Iterator.{YieldsFirstBy, item_count};
ghost use Rattle.blart_keys.specs.KeyBytes.{vec_bytes};
ghost use Rattle.prefix_router.specs.Nesting.{fronts_of};

use crate::routes::Routes;
use std::iter::{FusedIterator, Iterator};
use std::marker::Model;

/// The mounts whose paths are prefixes of a path, from the shortest to the longest. Each step makes
/// a look-up in each table. Once no mount is left, each step returns `None`.
///
/// ```
/// // "/" and "/api" are mounted
/// let mut fronts = routes.resolve_all(b"/api/v1");
/// assert_eq!(fronts.next().map(|(_, target)| *target), Some(1));
/// assert_eq!(fronts.next().map(|(_, target)| *target), Some(2));
/// assert_eq!(fronts.next(), None);
/// ```
#[derive(Drop)]
pub struct ResolveAll<'a, V> {
    routes: &'a Routes<V>,
    path: &'a [u8],
    /// The least number of bytes of the paths that are left.
    least: usize,
}

impl<'a, V> Model for ResolveAll<'a, V> {
    ghost use Rattle.std.specs.Prelude.{ℕ, List, Vec, ◌&&◌, leb, length, filter};
    ghost use Rattle.std.specs.Global.{Global};
    ghost use Rattle.blart_keys.specs.Bytes.{begins};
    ghost use Rattle.blart_keys.specs.KeyBytes.{vec_bytes};

    ghost Value = { List (Vec ℕ Global × V) };

    ghost view = { λ it. filter (λ p. begins (vec_bytes p.0) it.path.now && leb it.least (length (vec_bytes p.0))) it.routes.now.mounts };
}

impl<'a, V> ResolveAll<'a, V> {
    /// Returns a walk over the mounts whose paths are prefixes of `path`.
    pub(crate) fn new(routes: &'a Routes<V>, path: &'a [u8]) -> Self
        ensures { result ≡ fronts_of vec_bytes routes.now.mounts path.now }
    {
        ResolveAll {
            routes,
            path,
            least: 0,
        }
    }
}

impl<'a, V> Iterator for ResolveAll<'a, V> {
    type Item = (&'a Vec<u8>, &'a V);

    ghost next_gives = { YieldsFirstBy (λ item. (item.0.now, item.1.now)) (λ rest. rest) };

    ghost remaining = { item_count (λ rest. rest) };

    /// Returns the mount with the shortest path that is left, or `None` if none is left.
    ///
    /// Cost: a look-up in each table.
    fn next(&mut self) -> Option<(&'a Vec<u8>, &'a V)> {
        self.routes.law();
        let front = self.routes.shortest(self.path, self.least)?;
        self.least = front.0.len() + 1;
        Some(front)
    }
}

impl<'a, V> FusedIterator for ResolveAll<'a, V> {}
