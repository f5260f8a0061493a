//! A table of paths that nest, refused at each request.
use super::say_refused;
use prefix_router::Routes;
use std::process::Abort;

/// Paths, in no order. The third and the last are in tables of their own.
const PATHS: [&[u8]; 5] = [b"/api", b"/img", b"/api/v1", b"/app", b"/"];

/// Checks that exactly the first `count` paths are mounted, each with its place.
fn assert_mounted(rt: &impl Abort, routes: &Routes<usize>, count: usize) {
    assert!(rt; routes.len() == count);
    for place in 0..PATHS.len() {
        let is_right = match routes.get(PATHS[place]) {
            Some(target) => *target == place && place < count,
            None => place >= count,
        };
        assert!(rt; is_right);
    }
}

/// Mounts the path of a place. Returns whether there was memory for the path and its mount.
fn puts(rt: &impl AllocGlobal, routes: &mut Routes<usize>, place: usize) -> bool {
    // Refusals pause.
    let Ok(path) = Vec::from_slice(rt.alloc(), PATHS[place % 5]) else {
        return false;
    };
    // Refusals resume.
    matches!(routes.mount(path, place), Ok(None))
}

/// Mounts the path of a place. If the call is refused, checks that the table is unchanged and
/// mounts the path again.
fn mount_next(rt: &(impl Abort + AllocGlobal + Print), routes: &mut Routes<usize>, place: usize) {
    let tables = routes.tables();
    if !puts(rt, routes, place) {
        say_refused(rt);
        assert_mounted(rt, routes, place);
        assert!(rt; routes.tables() == tables);
        // Refusals pause.
        assert!(rt; puts(rt, routes, place));
        // Refusals resume.
    }
    assert_mounted(rt, routes, place.wrapping_add(1));
}

#[test]
fn routes(rt: HostRuntime) {
    let mut routes = Routes::new(rt.alloc());
    for place in 0..PATHS.len() {
        mount_next(&rt, &mut routes, place);
    }
    let tables = routes.tables();
    drop(routes);
    assert!(rt; tables == 3);
}

/// A mount at a mounted path allocates only for the path, and a removal not at all.
#[test]
fn mounted_paths(rt: HostRuntime) {
    let mut routes = Routes::new(rt.alloc());
    for place in 0..PATHS.len() {
        mount_next(&rt, &mut routes, place);
    }
    let made: Result<_, _> = Vec::from_slice(rt.alloc(), b"/api");
    let is_right = match made {
        Ok(path) => matches!(routes.mount(path, 7), Ok(Some(0))) && routes.get(b"/api") == Some(&7),
        Err(_) => {
            say_refused(&rt);
            routes.get(b"/api") == Some(&0)
        }
    };
    let is_removed = routes.unmount(b"/api").is_some() && routes.len() == 4;
    drop(routes);
    assert!(rt; is_right && is_removed);
}
