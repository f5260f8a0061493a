//! Records by tenant and time, under a key type of the program's own.
ghost use Rattle.std.specs.Prelude.{◌≡◌, ◌+◌, ◌++◌, ℕ, List, true, false, length, None};
ghost use Rattle.std.specs.Int.{to_be_bytes, w32, w64};
ghost use Rattle.std.specs.declared.ops.Bound.TheVariants.{Included, Excluded};
ghost use Rattle.blart.specs.Words.{pairs, value_at, begins, under, between, in_order, bytes};

use blart::map::bounds_in_order;
use blart::{AsBytes, Map, NoPrefixesBytes};
use std::iter::Iterator;
use std::ops::Bound;

/// A tenant and a time, ordered by the tenant first: their big-endian bytes, one after the other.
#[derive(Clone, Copy)]
pub struct Stamp {
    bytes: [u8; 12],
}

impl Stamp {
    /// Returns the key of a tenant and a time.
    pub fn new(tenant: u32, time: u64) -> Self
        ensures { ⟦<Stamp as AsBytes>⟧.bytes result
            ≡ to_be_bytes w32 tenant ++ to_be_bytes w64 time }
    {
        let mut bytes = [0u8; 12];
        bytes[..4].copy_from_slice(&tenant.to_be_bytes());
        bytes[4..].copy_from_slice(&time.to_be_bytes());
        Stamp { bytes }
    }
}

impl AsBytes for Stamp {
    ghost use Rattle.std.specs.Prelude.{◌≡◌, length};

    ghost bytes = { λ s. s.bytes };

    ghost IsValue = { λ s. length s.bytes ≡ 12 };

    fn as_bytes(&self) -> &[u8] {
        &self.bytes
    }

    fn value_law(&self) {
        let _bytes = self.bytes;
    }
}

impl NoPrefixesBytes for Stamp {
    ghost use Rattle.std.proofs.Common.{◌∙◌, sym};
    ghost use Rattle.blart_keys.specs.KeyLaws.{begins_same_length};

    ghost no_fronts = { λ x y a b h. begins_same_length x.bytes y.bytes (a ∙ sym b) h };
}

/// Returns the number of records of a tenant.
pub fn count_of(records: &Map<Stamp, u64>, tenant: u32) -> usize
    ensures { result ≡ length (under (bytes (⟦<Stamp as AsBytes>⟧.bytes)) (pairs records.now)
        (to_be_bytes w32 tenant)) }
{
    records.prefix(&tenant.to_be_bytes()).count()
}

/// Removes the records of a tenant, and returns how many there were.
pub fn forget(records: &mut Map<Stamp, u64>, tenant: u32) -> usize
    ensures gone { (stamp : List ℕ) → begins (to_be_bytes w32 tenant) stamp ≡ true
        → value_at (⟦<Stamp as AsBytes>⟧.bytes) (pairs records.new) stamp ≡ None }
    ensures left { length (pairs records.new) + result ≡ length (pairs records.old) }
{
    records.remove_prefix(&tenant.to_be_bytes())
}

/// Returns the number of records from one stamp on and before another, or 0 if they are out of
/// order.
pub fn count_between(records: &Map<Stamp, u64>, low: &Stamp, high: &Stamp) -> usize
    ensures between { in_order (Included low.now.bytes) (Excluded high.now.bytes) ≡ true
        → result ≡ length (between (bytes (⟦<Stamp as AsBytes>⟧.bytes)) (pairs records.now)
        (Included low.now.bytes) (Excluded high.now.bytes)) }
    ensures none { in_order (Included low.now.bytes) (Excluded high.now.bytes) ≡ false
        → result ≡ 0 }
{
    let (low, high) = (Bound::Included(low), Bound::Excluded(high));
    if bounds_in_order(low, high) {
        records.range(low, high).count()
    } else {
        0
    }
}
