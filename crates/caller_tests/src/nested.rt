//! A site whose routes nest, and where its paths lead.
ghost use Rattle.std.specs.Prelude.{◌≡◌, ℕ, List, [], ◌∷◌, true, false, length, unwrap_or, IfOk, OnOk, option_map, None, Some, if◌then◌else◌};
ghost use Rattle.blart.specs.Words.{begins, value_at, vec_bytes};
ghost use Rattle.prefix_router.specs.Nesting.{fronts_of, lead, leads_by};

use prefix_router::Routes;
use std::alloc::{AllocError, Global};
use std::iter::Iterator;

/// Mounts a target for all paths, one for paths that begin with `/a`, and one for those below
/// `/a/b`.
fn mount_all(site: &mut Routes<u32>, alloc: Global) -> Result<(), AllocError>
    requires { (r : List ℕ) → lead vec_bytes site.old.mounts r ≡ None }
    ensures { OnOk result ((r : List ℕ) → lead vec_bytes site.new.mounts r
        ≡ (if begins (47 ∷ 97 ∷ 47 ∷ 98 ∷ []) r then Some (47 ∷ 97 ∷ 47 ∷ 98 ∷ [], 3)
        else if begins (47 ∷ 97 ∷ []) r then Some (47 ∷ 97 ∷ [], 2)
        else if begins (47 ∷ []) r then Some (47 ∷ [], 1)
        else None)) }
{
    site.mount(Vec::from_slice(alloc, b"/")?, 1)?;
    site.mount(Vec::from_slice(alloc, b"/a")?, 2)?;
    site.mount(Vec::from_slice(alloc, b"/a/b")?, 3)?;
    Ok(())
}

/// Returns the site. Each path leads to the longest of its three routes that is a prefix of it.
pub fn site(alloc: Global) -> Result<Routes<u32>, AllocError>
    ensures { IfOk result (λ site. (r : List ℕ) → lead vec_bytes site.mounts r
        ≡ (if begins (47 ∷ 97 ∷ 47 ∷ 98 ∷ []) r then Some (47 ∷ 97 ∷ 47 ∷ 98 ∷ [], 3)
        else if begins (47 ∷ 97 ∷ []) r then Some (47 ∷ 97 ∷ [], 2)
        else if begins (47 ∷ []) r then Some (47 ∷ [], 1)
        else None)) }
{
    let mut site = Routes::new(alloc);
    mount_all(&mut site, alloc)?;
    Ok(site)
}

/// Returns the target to which a path leads, or a default.
pub fn target_or(site: &Routes<u32>, path: &[u8], default: u32) -> u32
    ensures { result ≡ unwrap_or (option_map (λ lead. lead.1)
        (lead vec_bytes site.now.mounts path.now)) default }
{
    match site.resolve(path) {
        Some((_, target)) => *target,
        None => default,
    }
}

/// Returns the rest of a path after the route to which it leads.
#[tactic(auto, using(blart::proofs::CallerLemmas::begins_length))]
pub fn rest<'a>(site: &Routes<u32>, path: &'a [u8]) -> &'a [u8] {
    match site.resolve(path) {
        Some((route, _)) => &path[route.len()..],
        None => path,
    }
}

/// Mounts a target. Paths that do not begin with the route lead where they led.
pub fn add<V: Drop>(site: &mut Routes<V>, path: Vec<u8>, target: V) -> Result<(), AllocError>
    ensures there { OnOk result (value_at vec_bytes site.new.mounts path.items ≡ Some target) }
    ensures others { OnOk result ((r : List ℕ) → begins path.items r ≡ false
        → lead vec_bytes site.new.mounts r ≡ lead vec_bytes site.old.mounts r) }
{
    site.mount(path, target)?;
    Ok(())
}

/// Removes a route. Paths that led to it lead where the route itself leads now, and all others
/// where they led.
pub fn take_down<V: Drop>(site: &mut Routes<V>, path: &[u8])
    ensures led { (r : List ℕ) → leads_by path.now (lead vec_bytes site.old.mounts r) ≡ true
        → lead vec_bytes site.new.mounts r ≡ lead vec_bytes site.new.mounts path.now }
    ensures others { (r : List ℕ) → leads_by path.now (lead vec_bytes site.old.mounts r) ≡ false
        → lead vec_bytes site.new.mounts r ≡ lead vec_bytes site.old.mounts r }
{
    site.unmount(path);
}

/// Returns how many routes are prefixes of a path.
pub fn depth<V>(site: &Routes<V>, path: &[u8]) -> usize
    ensures { result ≡ length (fronts_of vec_bytes site.now.mounts path.now) }
{
    site.resolve_all(path).count()
}
