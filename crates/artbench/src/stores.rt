//! The stores of keys.
use crate::failure::Failure;
use crate::keys::Made;
use crate::sheet::Sheet;
use blart_keys::AsBytes;
use std::alloc::Global;

/// A map or another store of keys.
pub(crate) trait Store: Sized + Drop {
    /// The type of the keys.
    type Key: Made;

    /// Returns a store with no keys.
    fn empty(alloc: Global) -> Self;

    /// Stores a key, and its value if the store is a map. Returns whether the key was new.
    fn put(&mut self, key: Self::Key, value: u64) -> Result<bool, Failure>;

    /// Stores each key with its place. Returns the number of new keys.
    final fn store(&mut self, keys: Vec<Self::Key>) -> Result<u64, Failure> {
        let mut place = 0u64;
        let mut count = 0u64;
        for key in keys {
            count = count.wrapping_add(u64::from(self.put(key, place)?));
            place = place.wrapping_add(1);
        }
        Ok(count)
    }
}

/// Makes each key again, and returns a store of them.
pub(crate) fn filled<M: Store, K: AsBytes>(alloc: Global, keys: &[K], sheet: &mut Sheet) -> M {
    let keys = remade(alloc, keys, sheet);
    let mut map = M::empty(alloc);
    let stored = map.store(keys);
    sheet.checked(stored);
    map
}

/// Makes each key again. The sheet notes the failure if there is no memory for all.
pub(crate) fn remade<F: Made, K: AsBytes>(alloc: Global, keys: &[K], sheet: &mut Sheet) -> Vec<F> {
    let mut made = Vec::new(alloc);
    let pushed = remake(alloc, keys, &mut made);
    sheet.check(pushed);
    made
}

/// Makes each key again, and appends it.
fn remake<F: Made, K: AsBytes>(
    alloc: Global,
    keys: &[K],
    made: &mut Vec<F>,
) -> Result<(), Failure> {
    made.reserve_exact(keys.len())?;
    for key in keys {
        made.push(F::made(alloc, key.as_bytes())?)?;
    }
    Ok(())
}
