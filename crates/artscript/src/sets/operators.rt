//! The operators, which make a new set from the first and the second.
ghost use Rattle.std.specs.Prelude.{◌≡◌};

use crate::sets::calls::Sets;
use blart_keys::AsBytes;
use blart_set::TreeSet;
use script_words::{Answered, FixedKey, SetName, Shown, Text, Words, show_items};
use std::alloc::AllocError;

impl<K: FixedKey, const PREFIX_LEN: usize> Sets<K, PREFIX_LEN> {
    /// Makes the set that the named operator returns, and appends its elements.
    pub(crate) fn operate(&self, name: SetName, words: Words<'_>, text: &mut Text) -> Answered
        requires { (k j : K) → K.is_clone k j → K.bytes j ≡ K.bytes k }
    {
        words.end()?;
        let made: Result<_, _> = match name {
            SetName::Or => &self.first | &self.second,
            SetName::And => &self.first & &self.second,
            SetName::Xor => &self.first ^ &self.second,
            _ => &self.first - &self.second,
        };
        show_made(&made, text);
        drop(made);
        Ok(())
    }
}

/// Appends the elements of a set, or the error if the operator ran out of memory.
fn show_made<K: AsBytes + Shown + Drop, const P: usize>(
    made: &Result<TreeSet<K, P>, AllocError>,
    text: &mut Text,
) {
    match made {
        Ok(set) => {
            text.push(b"Ok(");
            show_items(set.iter(), text);
            text.push(b")");
        }
        Err(refused) => Err::<(), AllocError>(*refused).show(text),
    }
}
