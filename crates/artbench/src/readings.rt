//! The bytes and values that a walk reads of each pair.

/// A choice of what a walk adds to its sum.
pub(crate) trait Reading {
    /// Returns the sum with a pair added.
    fn added(sum: u64, key: &[u8], value: u64) -> u64;
}

/// Adds the values and the lengths of the keys.
pub(crate) struct Lengths;

/// Adds the values and the first byte of each key.
pub(crate) struct FirstBytes;

/// Adds the values and the lengths of the keys. The sum depends on their order.
pub(crate) struct Order;

impl Reading for Lengths {
    fn added(sum: u64, key: &[u8], value: u64) -> u64 {
        sum.wrapping_add(value).wrapping_add(key.len() as u64)
    }
}

impl Reading for FirstBytes {
    fn added(sum: u64, key: &[u8], value: u64) -> u64 {
        let byte = match key.first() {
            Some(byte) => u64::from(*byte),
            None => 256,
        };
        sum.wrapping_add(value).wrapping_add(byte)
    }
}

impl Reading for Order {
    fn added(sum: u64, key: &[u8], value: u64) -> u64 {
        Lengths::added(sum.wrapping_mul(3), key, value)
    }
}
