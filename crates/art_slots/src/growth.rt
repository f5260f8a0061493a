//! How slabs grow.
ghost use Rattle.std.specs.Prelude.{◌≡◌, ◌-◌, ◌<◌, OnOk, OnErr};
ghost use Rattle.slab.specs.Slab.{slab_len, HasRoomFor};

use slab::Slab;
use std::alloc::AllocError;

/// A slab that grows gets room for one more value per `GROWTH` values at least.
const GROWTH: usize = 4;

/// A slab that grows gets room for this number of values more at least.
const LEAST: usize = 4;

/// Makes room for `more` more values. A slab that grows by itself doubles its memory, and up to
/// half of it is not used. Here it grows by a quarter of its values, or by `LEAST` values, if that
/// is enough. If values come one at a time, each is moved a bounded number of times on average.
pub(crate) fn make_room<T>(slab: &mut Slab<T>, more: usize) -> Result<(), AllocError>
    ensures room { OnOk result (HasRoomFor slab.new more) }
    ensures needed { OnErr result (slab.old.capacity - slab_len slab.old < more) }
    ensures same { HasRoomFor slab.old more → slab.new ≡ slab.old }
    ensures rest { slab.new ≡ record slab.old { capacity = slab.new.capacity } }
{
    let len = slab.len();
    if more <= slab.capacity() - len {
        return Ok(());
    }
    slab.reserve_exact(more.max(len / GROWTH).max(LEAST))
}
