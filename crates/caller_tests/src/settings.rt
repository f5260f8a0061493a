//! Settings in sections. The bytes of a section are a prefix of the names of its settings.
ghost use Rattle.std.specs.Prelude.{◌≡◌, ◌+◌, ℕ, List, true, false, length, None};
ghost use Rattle.blart.specs.Words.{pairs, value_at, begins, under, bytes, elements, stores, slice_bytes};

use blart::{AsBytes, Map, TreeSet};

/// Removes a section, and returns the number of its settings.
pub fn drop_section<K: AsBytes + Drop, V: Drop>(settings: &mut Map<K, V>, section: &[u8]) -> usize
    ensures gone { (name : List ℕ) → begins section.now name ≡ true
        → value_at K.bytes (pairs settings.new) name ≡ None }
    ensures others { (name : List ℕ) → begins section.now name ≡ false
        → value_at K.bytes (pairs settings.new) name ≡ value_at K.bytes (pairs settings.old) name }
    ensures count { result ≡ length (under (bytes K.bytes) (pairs settings.old) section.now) }
    ensures left { length (pairs settings.new) + result ≡ length (pairs settings.old) }
{
    settings.remove_prefix(section)
}

/// Removes two sections that do not have the named setting, and returns the setting, which is
/// unchanged.
pub fn setting_beside(
    settings: &mut Map<&'static [u8], u64>,
    first: &[u8],
    second: &[u8],
    name: &[u8],
) -> Option<u64>
    requires first { begins first.now name.now ≡ false }
    requires second { begins second.now name.now ≡ false }
    ensures { result ≡ value_at slice_bytes (pairs settings.old) name.now }
{
    settings.remove_prefix(first);
    settings.remove_prefix(second);
    settings.get(&name).copied()
}

/// Removes all grants of a section, and returns whether a name is still granted. No name of the
/// section is.
pub fn is_granted_beside<const P: usize>(
    grants: &mut TreeSet<&'static [u8], P>,
    section: &[u8],
    name: &[u8],
) -> bool
    ensures inside { begins section.now name.now ≡ true → result ≡ false }
    ensures beside { begins section.now name.now ≡ false
        → result ≡ stores slice_bytes (elements grants.old) name.now }
{
    grants.remove_prefix(section);
    grants.contains(&name)
}
