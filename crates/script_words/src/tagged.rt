//! Keys with a tag that is not among their bytes.
ghost use Rattle.std.specs.Prelude.{◌≡◌, length, refl};
ghost use Rattle.std.proofs.Common.{◌∙◌, sym};
ghost use Rattle.std.proofs.lemmas.Slice.Eq.{bytes_eq-Decides};
ghost use Rattle.blart_keys.specs.KeyLaws.{begins_same_length};

use crate::answered::Unanswered;
use crate::keys::{FixedKey, ScriptKey, array_of};
use crate::text::{Shown, Text, show_bytes};
use blart_keys::{AsBytes, NoPrefixesBytes, OrderedBytes};

/// A key of three bytes, and a tag that no comparison reads.
#[derive(Clone, Copy)]
#[derive_where(PartialEq, Eq, PartialOrd, Ord, Hash, Debug)]
pub struct Tagged {
    bytes: [u8; 3],
    #[derive_where(skip)]
    tag: u64,
}

impl AsBytes for Tagged {
    ghost bytes = { λ k. k.bytes };

    ghost IsValue = { λ k. length k.bytes ≡ 3 };

    fn as_bytes(&self) -> &[u8] {
        &self.bytes
    }

    fn value_law(&self) {
        let _bytes = self.bytes;
    }
}

impl NoPrefixesBytes for Tagged {
    ghost no_fronts = { λ x y a b h. begins_same_length x.bytes y.bytes (a ∙ sym b) h };
}

impl OrderedBytes for Tagged {
    ghost ordered = { λ x y a b. refl };

    ghost equal_bytes = { λ x y a b. bytes_eq-Decides x.bytes y.bytes };
}

impl Shown for Tagged {
    fn show(&self, text: &mut Text) {
        show_bytes(&self.bytes, text);
        text.push(b"#");
        self.tag.show(text);
    }
}

impl ScriptKey for Tagged {
    fn from_vec(bytes: Vec<u8>) -> Result<Self, Unanswered> {
        let bytes = array_of(bytes)?;
        Ok(Tagged { bytes, tag: 0 })
    }

    fn with_tag(self, tag: u64) -> Result<Self, Unanswered> {
        let bytes = self.bytes;
        Ok(Tagged { bytes, tag })
    }
}

impl FixedKey for Tagged {}
