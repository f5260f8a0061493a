//! A site of five routes, and what a table resolves if mounts overlap.
ghost use Rattle.std.specs.Prelude.{◌≡◌, ◌≢◌, ◌&&◌, ℕ, List, Vec, [], ◌∷◌, true, false, IfOk, OnOk, option_map, None, Some, if◌then◌else◌};
ghost use Rattle.std.specs.Global.{Global};
ghost use Rattle.blart.specs.Words.{pairs, begins, related, has, overlaps, pair_at_front, value_at_front, vec_bytes};

use blart::TryInsertError;
use prefix_router::Mounts;
use std::alloc::{AllocError, Global};

/// What handles a path.
#[derive(Clone, Copy, Drop)]
pub enum Handler {
    /// The users.
    Users,
    /// The items for sale.
    Items,
    /// Pictures.
    Images,
    /// Style sheets.
    Styles,
    /// The state of the site.
    Health,
}

/// Mounts a handler. If the call fails, the site is unchanged.
fn mount(
    site: &mut Mounts<Handler>,
    alloc: Global,
    path: &[u8],
    handler: Handler,
) -> Result<(), TryInsertError>
    ensures { IfOk result (λ _. (r : List ℕ) → value_at_front vec_bytes (pairs site.new) r
        ≡ (if begins path.now r then Some handler
        else value_at_front vec_bytes (pairs site.old) r)) }
{
    let path = Vec::from_slice(alloc, path).map_err(TryInsertError::Memory)?;
    site.mount(path, handler)?;
    Ok(())
}

/// Mounts a handler for each first letter. If a mount fails, those before it remain.
fn mount_all(site: &mut Mounts<Handler>, alloc: Global) -> Result<(), TryInsertError>
    ensures { IfOk result (λ _. (r : List ℕ) → value_at_front vec_bytes (pairs site.new) r
        ≡ (if begins (47 ∷ 117 ∷ []) r then Some Handler.Users
        else if begins (47 ∷ 105 ∷ []) r then Some Handler.Items
        else if begins (47 ∷ 112 ∷ []) r then Some Handler.Images
        else if begins (47 ∷ 115 ∷ []) r then Some Handler.Styles
        else if begins (47 ∷ 104 ∷ []) r then Some Handler.Health
        else value_at_front vec_bytes (pairs site.old) r)) }
{
    mount(site, alloc, b"/h", Handler::Health)?;
    mount(site, alloc, b"/s", Handler::Styles)?;
    mount(site, alloc, b"/p", Handler::Images)?;
    mount(site, alloc, b"/i", Handler::Items)?;
    mount(site, alloc, b"/u", Handler::Users)
}

/// Returns the site. Each path resolves to the handler of its first letter, if there is one.
pub fn site(alloc: Global) -> Result<Mounts<Handler>, TryInsertError>
    ensures { IfOk result (λ site. (r : List ℕ) → value_at_front vec_bytes (pairs site) r
        ≡ (if begins (47 ∷ 117 ∷ []) r then Some Handler.Users
        else if begins (47 ∷ 105 ∷ []) r then Some Handler.Items
        else if begins (47 ∷ 112 ∷ []) r then Some Handler.Images
        else if begins (47 ∷ 115 ∷ []) r then Some Handler.Styles
        else if begins (47 ∷ 104 ∷ []) r then Some Handler.Health
        else None)) }
{
    let mut site = Mounts::new(alloc);
    mount_all(&mut site, alloc)?;
    Ok(site)
}

/// Returns the handler of `/users/7`: the users.
pub fn asked(alloc: Global) -> Result<Option<Handler>, TryInsertError>
    ensures { IfOk result (λ handler. handler ≡ Some Handler.Users) }
{
    let site = site(alloc)?;
    let handler = match site.resolve(b"/users/7") {
        Some((_, handler)) => Some(*handler),
        None => None,
    };
    drop(site);
    Ok(handler)
}

/// Returns the handler of a path, and the rest of the path after the mount.
#[tactic(auto, using(blart::proofs::CallerLemmas::begins_length))]
pub fn routed<'a>(site: &Mounts<Handler>, path: &'a [u8]) -> Option<(Handler, &'a [u8])>
    ensures { option_map (λ found. found.0) result
        ≡ value_at_front vec_bytes (pairs site.now) path.now }
{
    match site.resolve(path) {
        Some((mount, handler)) => Some((*handler, &path[mount.len()..])),
        None => None,
    }
}

/// Unmounts a handler. The paths that resolved to it resolve to nothing. All others resolve as
/// before.
pub fn take_down(site: &mut Mounts<Handler>, path: &[u8])
    ensures { (r : List ℕ) → value_at_front vec_bytes (pairs site.new) r
        ≡ (if begins path.now r && has vec_bytes (pairs site.old) path.now then None
        else value_at_front vec_bytes (pairs site.old) r) }
{
    site.unmount(path);
}

/// Mounts a target in the place of all mounts whose paths are related to this one. The paths that
/// start with it resolve to the target. Those that resolved to a mount whose path is a prefix of
/// this one resolve to nothing. All others resolve as before.
pub fn redirect<V: Drop>(site: &mut Mounts<V>, path: Vec<u8>, target: V) -> Result<(), AllocError>
    ensures below { OnOk result ((r : List ℕ) → begins path.items r ≡ true
        → value_at_front vec_bytes (pairs site.new) r ≡ Some target) }
    ensures stands { OnOk result ((r : List ℕ) (mount : Vec ℕ Global × V)
        → begins path.items r ≡ false
        → pair_at_front vec_bytes (pairs site.old) r ≡ Some mount
        → begins mount.0.items path.items ≡ false
        → pair_at_front vec_bytes (pairs site.new) r ≡ Some mount) }
    ensures gone { OnOk result ((r : List ℕ) (mount : Vec ℕ Global × V)
        → begins path.items r ≡ false
        → pair_at_front vec_bytes (pairs site.old) r ≡ Some mount
        → begins mount.0.items path.items ≡ true
        → pair_at_front vec_bytes (pairs site.new) r ≡ None) }
    ensures nowhere { OnOk result ((r : List ℕ) → begins path.items r ≡ false
        → pair_at_front vec_bytes (pairs site.old) r ≡ None
        → pair_at_front vec_bytes (pairs site.new) r ≡ None) }
{
    site.mount_over(path, target)
}

/// Mounts a target. Then no other can be mounted below it. A path that is not related is as free as
/// before.
pub fn claim<V: Drop>(site: &mut Mounts<V>, path: Vec<u8>, target: V) -> Result<(), TryInsertError>
    ensures below { OnOk result ((r : List ℕ) → begins path.items r ≡ true → r ≢ path.items
        → overlaps vec_bytes (pairs site.new) r ≡ true) }
    ensures others { OnOk result ((r : List ℕ) → related r path.items ≡ false
        → overlaps vec_bytes (pairs site.new) r ≡ overlaps vec_bytes (pairs site.old) r) }
{
    site.mount(path, target)?;
    Ok(())
}

/// Returns whether a mount below a new mount is refused. It is always true.
pub fn is_refused_below<V: Drop>(
    site: &mut Mounts<V>,
    path: Vec<u8>,
    target: V,
    below: Vec<u8>,
    other: V,
) -> Result<bool, TryInsertError>
    requires starts { begins path.items below.items ≡ true }
    requires differs { below.items ≢ path.items }
    ensures { IfOk result (λ refused. refused ≡ true) }
{
    site.mount(path, target)?;
    Ok(site.mount(below, other).is_err())
}
