//! A pair is copied out.
ghost use Rattle.std.specs.Prelude.{◌≡◌, length, option_map};
ghost use Rattle.blart_keys.specs.Stored.{shown};
ghost use Rattle.blart_c.specs.Held.{plain};
ghost use Rattle.blart_c.specs.Copied.{code_of, key_after, length_after, value_after};

use crate::codes::{FOUND, NONE, TOO_SMALL};

/// Copies the pair out. Returns `FOUND`; or `NONE` if there is no pair, and then nothing is
/// written; or `TOO_SMALL` if the key is longer than the buffer, and then only its length is
/// written.
pub(crate) fn copy_out(
    pair: Option<(&Vec<u8>, &u64)>,
    key: &mut [u8],
    len: &mut usize,
    value: &mut u64,
) -> u32
    ensures code { result ≡ code_of (option_map plain (shown pair.entry)) (length key.old) }
    ensures key { key.new ≡ key_after (option_map plain (shown pair.entry)) key.old }
    ensures len { len.new ≡ length_after (option_map plain (shown pair.entry)) len.old }
    ensures value { value.new
        ≡ value_after (option_map plain (shown pair.entry)) (length key.old) value.old }
{
    let Some((bytes, number)) = pair else {
        return NONE;
    };
    let n = bytes.len();
    *len = n;
    if n > key.len() {
        return TOO_SMALL;
    }
    key[..n].copy_from_slice(bytes.as_slice());
    *value = *number;
    FOUND
}
