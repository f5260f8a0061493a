//! The conditions of closures, with counts of their calls.
use crate::answered::Unanswered;
use crate::reading::Words;
use std::cell::Cell;

/// A condition of values: a value plus a number leaves a given remainder.
#[derive(Drop)]
pub struct ValuePick {
    modulus: u64,
    rest: u64,
    add: u64,
    asked: Cell<u64>,
}

impl ValuePick {
    /// Reads the next three words: the modulus, the remainder and the number to add.
    pub fn read(words: &mut Words<'_>) -> Result<ValuePick, Unanswered> {
        let modulus = words.modulus()?;
        let rest = words.number()?;
        let add = words.number()?;
        Ok(ValuePick {
            modulus,
            rest,
            add,
            asked: Cell::new(0),
        })
    }

    /// Adds the number to the value, and returns `true` if the sum leaves the remainder.
    pub fn picks(&self, value: &mut u64) -> bool {
        self.asked.set(self.asked.get().wrapping_add(1));
        *value = value.wrapping_add(self.add);
        value.checked_rem(self.modulus) == Some(self.rest)
    }

    /// Returns how often [`ValuePick::picks`] was called.
    pub fn asked(&self) -> u64 {
        self.asked.get()
    }
}

/// A condition of bytes: their sum leaves a given remainder.
#[derive(Drop)]
pub struct BytesPick {
    modulus: u64,
    rest: u64,
    asked: Cell<u64>,
}

impl BytesPick {
    /// Reads the next two words: the modulus and the remainder.
    pub fn read(words: &mut Words<'_>) -> Result<BytesPick, Unanswered> {
        let modulus = words.modulus()?;
        let rest = words.number()?;
        Ok(BytesPick {
            modulus,
            rest,
            asked: Cell::new(0),
        })
    }

    /// Returns `true` if the sum of the bytes leaves the remainder.
    pub fn picks(&self, bytes: &[u8]) -> bool {
        self.asked.set(self.asked.get().wrapping_add(1));
        let mut sum = 0u64;
        for byte in bytes {
            sum = sum.wrapping_add(u64::from(*byte));
        }
        sum.checked_rem(self.modulus) == Some(self.rest)
    }

    /// Returns how often [`BytesPick::picks`] was called.
    pub fn asked(&self) -> u64 {
        self.asked.get()
    }
}
