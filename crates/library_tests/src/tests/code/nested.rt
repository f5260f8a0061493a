//! Paths that nest: what they are resolved to, beside a scan of all mounts.
use super::vector;
use prefix_router::Routes;
use std::iter::Iterator;
use std::process::Abort;

/// Mounts a target, and returns the old one.
fn mount(
    rt: &(impl Abort + AllocGlobal),
    routes: &mut Routes<usize>,
    path: &[u8],
    target: usize,
) -> Option<usize> {
    routes.mount(vector(rt, path), target).expect(rt, "memory")
}

/// Returns the number of bytes of the mount to which a path is resolved, and its target.
fn resolved(routes: &Routes<usize>, path: &[u8]) -> Option<(usize, usize)> {
    match routes.resolve(path) {
        Some((mount, target)) => Some((mount.len(), *target)),
        None => None,
    }
}

/// Returns the targets of the mounts that are prefixes of a path, as digits.
fn fronts(routes: &Routes<usize>, path: &[u8]) -> usize {
    let mut digits = 0usize;
    for (_, target) in routes.resolve_all(path) {
        digits = digits.wrapping_mul(10).wrapping_add(*target);
    }
    digits
}

/// Returns the targets of the mounts that begin with some bytes, as digits.
fn under(routes: &Routes<usize>, front: &[u8]) -> usize {
    let mut digits = 0usize;
    for (_, target) in routes.under(front) {
        digits = digits.wrapping_mul(10).wrapping_add(*target);
    }
    digits
}

/// Mounts paths of which one begins with another, and resolves paths.
fn nest(rt: &(impl Abort + AllocGlobal), routes: &mut Routes<usize>) {
    let mounts: [&[u8]; 4] = [b"/api", b"/api/v1", b"/", b"/app"];
    for (place, path) in mounts.iter().enumerate() {
        assert!(rt; mount(rt, routes, path, place).is_none());
    }
    assert!(rt; routes.len() == 4 && routes.tables() == 3);
    assert!(rt; resolved(routes, b"/api/v1/x") == Some((7, 1)));
    assert!(rt; resolved(routes, b"/apiary") == Some((4, 0)));
    assert!(rt; resolved(routes, b"/ap") == Some((1, 2)) && resolved(routes, b"").is_none());
    assert!(rt; routes.get(b"/api") == Some(&0) && routes.get(b"/ap").is_none());
    assert!(rt; mount(rt, routes, b"/api", 9) == Some(0) && routes.len() == 4);
    assert!(rt; fronts(routes, b"/api/v1/x") == 291 && fronts(routes, b"x") == 0);
    assert!(rt; under(routes, b"/ap") == 913 && under(routes, b"/api/") == 1);
}

/// Removes mounts. The paths that led to one lead to the next shorter one.
fn remove(rt: &impl Abort, routes: &mut Routes<usize>) {
    assert!(rt; routes.unmount(b"/app") == Some(3) && routes.unmount(b"/app").is_none());
    assert!(rt; routes.unmount(b"/api") == Some(9));
    assert!(rt; resolved(routes, b"/apiary") == Some((1, 2)) && under(routes, b"") == 21);
    assert!(rt; routes.unmount(b"/") == Some(2) && resolved(routes, b"/apiary").is_none());
    assert!(rt; routes.unmount(b"/api/v1") == Some(1));
    assert!(rt; routes.is_empty() && routes.len() == 0 && routes.tables() == 0);
}

/// Each path leads to the longest of four mounts that is a prefix of it, and after removals to the
/// next shorter one.
#[test]
fn mounts_and_removals(rt: HostRuntime) {
    let mut routes = Routes::new(rt.alloc());
    nest(&rt, &mut routes);
    remove(&rt, &mut routes);
    drop(routes);
}

/// A network with no bytes, one with a zero byte, and one within it.
#[test]
fn networks(rt: HostRuntime) {
    let mut routes = Routes::new(rt.alloc());
    for (path, target) in [
        (&[10u8, 0] as &[u8], 1),
        (&[], 2),
        (&[10, 0, 0, 7], 3),
        (&[0], 4),
    ] {
        mount(&rt, &mut routes, path, target);
    }
    let inner = resolved(&routes, &[10, 0, 0, 7]);
    let outer = resolved(&routes, &[10, 0, 0, 8]);
    let other = resolved(&routes, &[10, 1, 0, 0]);
    let all = under(&routes, &[]);
    drop(routes);
    assert!(rt; inner == Some((4, 3)) && outer == Some((2, 1)) && other == Some((0, 2)));
    assert!(rt; all == 2413);
}

/// Returns the next of some random numbers.
fn next_number(state: &mut u64) -> u64 {
    *state = state
        .wrapping_mul(6364136223846793005)
        .wrapping_add(1442695040888963407);
    *state >> 33
}

/// Returns a random path of less than `most` bytes. There are three bytes, one of them zero.
fn random_path(rt: &(impl Abort + AllocGlobal), state: &mut u64, most: u64) -> Vec<u8> {
    let mut path = vector(rt, b"");
    for _ in 0..next_number(state) % most.max(1) {
        let byte = [0, b'a', b'b'][(next_number(state) % 3) as usize];
        assert!(rt; path.push(byte).is_ok());
    }
    path
}

/// The mounts in no order, each of which a call looks at.
#[derive(Drop)]
struct Scan {
    mounts: Vec<(Vec<u8>, usize)>,
}

impl Scan {
    fn mount(&mut self, rt: &impl Abort, path: Vec<u8>, target: usize) -> Option<usize> {
        for mount in &mut self.mounts {
            if mount.0.as_slice() == path.as_slice() {
                let old = mount.1;
                mount.1 = target;
                return Some(old);
            }
        }
        assert!(rt; self.mounts.push((path, target)).is_ok());
        None
    }

    /// Returns the number of bytes of the longest mount that is a prefix of a path, and its target.
    fn resolve(&self, path: &[u8]) -> Option<(usize, usize)> {
        let mut best: Option<(usize, usize)> = None;
        for (mount, target) in &self.mounts {
            let is_longer = match best {
                Some((len, _)) => len < mount.len(),
                None => true,
            };
            if is_longer && path.starts_with(mount) {
                best = Some((mount.len(), *target));
            }
        }
        best
    }

    /// Returns how many mounts are prefixes of a path, and how many begin with it.
    fn count(&self, path: &[u8]) -> (usize, usize) {
        let (mut fronts, mut under) = (0usize, 0usize);
        for (mount, _) in &self.mounts {
            if path.starts_with(mount) {
                fronts = fronts.wrapping_add(1);
            }
            if mount.starts_with(path) {
                under = under.wrapping_add(1);
            }
        }
        (fronts, under)
    }
}

/// Checks that the walks yield as many mounts as a scan finds, in order.
fn assert_walks(rt: &impl Abort, routes: &Routes<usize>, scan: &Scan, path: &[u8]) {
    let (mut fronts, mut last) = (0usize, None);
    for (mount, _) in routes.resolve_all(path) {
        assert!(rt; path.starts_with(mount) && last < Some(mount.len()));
        last = Some(mount.len());
        fronts = fronts.wrapping_add(1);
    }
    let mut under = 0usize;
    let mut before: Option<&Vec<u8>> = None;
    for (mount, _) in routes.under(path) {
        let is_after = match before {
            Some(other) => other.as_slice() < mount.as_slice(),
            None => true,
        };
        assert!(rt; mount.starts_with(path) && is_after);
        before = Some(mount);
        under = under.wrapping_add(1);
    }
    assert!(rt; scan.count(path) == (fronts, under));
}

/// Resolves random paths, and checks each walk of some of them.
fn assert_resolved(
    rt: &(impl Abort + AllocGlobal),
    routes: &Routes<usize>,
    scan: &Scan,
    state: &mut u64,
    count: usize,
) {
    for place in 0..count {
        let path = random_path(rt, state, 10);
        assert!(rt; resolved(routes, &path) == scan.resolve(&path));
        if place % 100 == 0 {
            assert_walks(rt, routes, scan, &path);
        }
    }
}

/// Mounts random paths in both.
fn mount_random(
    rt: &(impl Abort + AllocGlobal),
    routes: &mut Routes<usize>,
    scan: &mut Scan,
    state: &mut u64,
) {
    for target in 0..40usize {
        let path = random_path(rt, state, 6);
        let old = mount(rt, routes, &path, target);
        assert!(rt; old == scan.mount(rt, path, target));
    }
    assert!(rt; routes.len() == scan.mounts.len());
}

/// Removes random paths from both.
fn unmount_random(
    rt: &(impl Abort + AllocGlobal),
    routes: &mut Routes<usize>,
    scan: &mut Scan,
    state: &mut u64,
) {
    for _ in 0..40usize {
        let path = random_path(rt, state, 6);
        let len = scan.mounts.len();
        scan.mounts
            .retain(|mount| mount.0.as_slice() != path.as_slice());
        let is_mounted = scan.mounts.len() < len;
        assert!(rt; routes.unmount(&path).is_some() == is_mounted);
    }
    assert!(rt; routes.len() == scan.mounts.len());
}

/// A hundred thousand random paths are resolved, after mounts and after removals, like by a scan.
#[test]
fn random_paths(rt: HostRuntime) {
    let mut routes = Routes::new(rt.alloc());
    let mut scan = Scan {
        mounts: Vec::new(rt.alloc()),
    };
    let mut state = 1;
    mount_random(&rt, &mut routes, &mut scan, &mut state);
    assert_resolved(&rt, &routes, &scan, &mut state, 50_000);
    unmount_random(&rt, &mut routes, &mut scan, &mut state);
    mount_random(&rt, &mut routes, &mut scan, &mut state);
    assert_resolved(&rt, &routes, &scan, &mut state, 50_000);
    drop(routes);
    drop(scan);
}
