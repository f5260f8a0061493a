//! A table of mounts, refused at each request.
use super::say_refused;
use prefix_router::Mounts;
use std::process::Abort;

/// Paths, in no order. No path is a prefix of another.
const PATHS: [[u8; 4]; 3] = [*b"/app", *b"/img", *b"/api"];

/// Checks that exactly the first `count` paths are mounted, each with its place.
fn assert_mounted(rt: &impl Abort, mounts: &Mounts<usize>, count: usize) {
    assert!(rt; mounts.len() == count);
    for place in 0..PATHS.len() {
        let is_right = match mounts.resolve(PATHS[place].as_slice()) {
            Some((_, target)) => *target == place && place < count,
            None => place >= count,
        };
        assert!(rt; is_right);
    }
}

/// Mounts the path of a place, which is related to no other. Returns whether there was memory for
/// the path and its mount.
fn puts(rt: &impl AllocGlobal, mounts: &mut Mounts<usize>, over: bool, place: usize) -> bool {
    // Refusals pause.
    let Ok(path) = Vec::from_slice(rt.alloc(), &PATHS[place % 3]) else {
        return false;
    };
    // Refusals resume.
    if over {
        mounts.mount_over(path, place).is_ok()
    } else {
        matches!(mounts.mount(path, place), Ok(None))
    }
}

/// Mounts the path of a place. If the call is refused, checks that the table is unchanged and
/// mounts the path again.
fn mount_next(
    rt: &(impl Abort + AllocGlobal + Print),
    mounts: &mut Mounts<usize>,
    over: bool,
    place: usize,
) {
    if !puts(rt, mounts, over, place) {
        say_refused(rt);
        assert_mounted(rt, mounts, place);
        // Refusals pause.
        assert!(rt; puts(rt, mounts, over, place));
        // Refusals resume.
    }
    assert_mounted(rt, mounts, place.wrapping_add(1));
}

/// Mounts the paths in turn.
fn all_mounted(rt: &(impl Abort + AllocGlobal + Print), over: bool) -> Mounts<usize> {
    let mut mounts = Mounts::new(rt.alloc());
    for place in 0..PATHS.len() {
        mount_next(rt, &mut mounts, over, place);
    }
    mounts
}

#[test]
fn mounts(rt: HostRuntime) {
    drop(all_mounted(&rt, false));
}

/// A mount in the place of related mounts allocates only for the path.
#[test]
fn mounts_over(rt: HostRuntime) {
    let mut mounts = all_mounted(&rt, true);
    let made: Result<_, _> = Vec::from_slice(rt.alloc(), b"/ap");
    let is_right = match made {
        Ok(path) => mounts.mount_over(path, 7).is_ok() && mounts.len() == 2,
        Err(_) => {
            say_refused(&rt);
            mounts.len() == 3
        }
    };
    drop(mounts);
    assert!(rt; is_right);
}
