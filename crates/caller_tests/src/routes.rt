//! Routes. No route is a prefix of another.
ghost use Rattle.std.specs.Prelude.{◌≡◌, ◌≢◌, ◌↔◌, ◌+◌, ◌<◌, ◌^◌, ℕ, List, true, false, option_map, unwrap_or, OnOk, OnErr, IsErrOf, Some};
ghost use Rattle.blart.specs.Words.{pairs, pair_at, value_at, value_at_front, overlaps, begins, related, slice_bytes};

use blart::{AsBytes, Map, TreeMap, TryInsertError};
use std::alloc::AllocError;
use std::marker::Model;

/// Returns the target of the route that is a prefix of the path, or 0 if there is none.
pub fn route(routes: &Map<&[u8], u32>, path: &[u8]) -> u32
    ensures { result ≡ unwrap_or (value_at_front slice_bytes (pairs routes.now) path.now) 0 }
{
    routes.prefix_get(&path).copied().unwrap_or(0)
}

/// Counts a path at the route that is its prefix. Returns whether there is one.
pub fn hit<K: AsBytes>(hits: &mut Map<K, u64>, path: &[u8]) -> bool
    requires { unwrap_or (value_at_front K.bytes (pairs hits.old) path.now) 0 + 1 < 2 ^ 64 }
    ensures counted { value_at_front K.bytes (pairs hits.new) path.now
        ≡ option_map (λ n. n + 1) (value_at_front K.bytes (pairs hits.old) path.now) }
    ensures others { (q : List ℕ) → begins q path.now ≡ false
        → pair_at K.bytes (pairs hits.new) q ≡ pair_at K.bytes (pairs hits.old) q }
{
    match hits.prefix_get_mut(&path) {
        Some(n) => {
            *n += 1;
            true
        }
        None => false,
    }
}

/// Inserts a route in the place of all routes that are a prefix of it or start with it. If the call
/// fails, the routes are unchanged.
pub fn take_over<K: AsBytes + Drop>(
    routes: &mut Map<K, u32>,
    front: K,
    target: u32,
) -> Result<(), AllocError>
    ensures routed { OnOk result ((path : List ℕ) → begins (K.bytes front) path ≡ true
        → value_at_front K.bytes (pairs routes.new) path ≡ Some target) }
    ensures others { (q : List ℕ) → related q (K.bytes front) ≡ false
        → pair_at K.bytes (pairs routes.new) q ≡ pair_at K.bytes (pairs routes.old) q }
    ensures refused { OnErr result (routes.new ≡ routes.old) }
{
    routes.prefix_insert(front, target)
}

/// The reason why a route was refused.
#[derive(Debug, Drop)]
pub enum AddError {
    /// It overlaps a stored route.
    Overlap,
    /// The call ran out of memory.
    Memory,
}

/// Routes. No route is a prefix of another.
#[derive(Drop)]
pub struct Table {
    routes: TreeMap<&'static [u8], u32, 16>,
}

impl Model for Table {
    ghost use Rattle.std.specs.Prelude.{ℕ, List};
    ghost use denote.Ref.{Bor};
    ghost use Rattle.blart.specs.Words.{Numbered};

    ghost Value = { List (Numbered (Bor (List ℕ)) ℕ) };

    ghost view = { λ t. t.routes };
}

impl Table {
    /// Adds a route, unless a stored one overlaps it. If the call fails, the table is unchanged.
    pub fn add(&mut self, front: &'static [u8], target: u32) -> Result<(), AddError>
        ensures added { OnOk result
            (value_at slice_bytes (pairs self.new) front.now ≡ Some target) }
        ensures others { (q : List ℕ) → q ≢ front.now
            → value_at slice_bytes (pairs self.new) q ≡ value_at slice_bytes (pairs self.old) q }
        ensures routes { OnOk result ((path : List ℕ) → begins front.now path ≡ true
            → value_at_front slice_bytes (pairs self.new) path ≡ Some target) }
        ensures below { OnOk result ((q : List ℕ) → begins front.now q ≡ true → q ≢ front.now
            → overlaps slice_bytes (pairs self.new) q ≡ true) }
        ensures overlap { IsErrOf result AddError.Overlap
            ↔ (overlaps slice_bytes (pairs self.old) front.now ≡ true) }
        ensures refused { OnErr result (self.new ≡ self.old) }
    {
        match self.routes.try_insert(front, target) {
            Ok(_) => Ok(()),
            Err(TryInsertError::Prefix(_)) => Err(AddError::Overlap),
            Err(TryInsertError::Memory(_)) => Err(AddError::Memory),
        }
    }
}
