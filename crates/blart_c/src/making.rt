//! A map is made, and freed.
ghost use Rattle.std.specs.Prelude.{◌≡◌, IfOk};
ghost use Rattle.std.specs.Borrow.{sem};
ghost use Rattle.blart_c.specs.declared.handle.ArtMap.{ArtMap};
ghost use Rattle.blart_c.specs.Lent.{IsEmpty, Made, owns_map};

use crate::box_parts::BoxParts;
use crate::codes::NO_MEMORY;
use crate::handle::ArtMap;
use crate::tree::Tree;
use std::alloc::{AllocError, Global};

/// Makes a map with no pairs, and writes its handle to `out`. Returns `ADDED`. If memory runs out,
/// it returns `NO_MEMORY`, and `*out` is unchanged.
///
/// Cost: allocates two boxes.
#[unsafe(no_mangle)]
pub extern "C" fn art_new(alloc: Global, out: &mut *mut ArtMap) -> u32
    ensures* { sem 𝓛 (Made alloc result out.old out.new) }
{
    match boxed(alloc) {
        Ok(parts) => {
            let BoxParts { ptr, alloc: _ } = parts;
            *out = ptr;
            0
        }
        Err(_) => NO_MEMORY,
    }
}

/// Frees a map and all that it holds. `map` is a pointer that `art_new` wrote.
///
/// Cost: drops each pair, and frees all memory of the map.
#[unsafe(no_mangle)]
pub unsafe extern "C" fn art_free(alloc: Global, map: *mut ArtMap)
    ghost given: { ArtMap }
    requires* { sem 𝓛 (owns_map alloc map given) }
{
    release(BoxParts { ptr: map, alloc });
}

/// Makes an empty map in a box of its own, and its handle in another.
fn boxed(alloc: Global) -> Result<BoxParts<ArtMap, Global>, AllocError>
    ensures { IfOk result (λ parts. IsEmpty parts.value) }
{
    let tree = Box::new(alloc, Tree::new(alloc))?;
    let map = Box::new(alloc, ArtMap::from_box(tree))?;
    Ok(BoxParts::from_box(map))
}

/// Drops the map.
fn release(map: BoxParts<ArtMap, Global>) {
    drop(map.into_box());
}
