//! Comparisons of byte lists.
ghost use Rattle.std.specs.Prelude.{◌≡◌, ◌≤◌, drop, length};
ghost use Rattle.blart_keys.specs.Bytes as spec;

/// Returns `true` if `a` is a prefix of `b`.
///
/// Cost: one pass over `a`.
pub(crate) fn begins(a: &[u8], b: &[u8]) -> bool
    ensures { result ≡ spec.begins a.now b.now }
{
    b.starts_with(a)
}

/// Returns the length of the longest common prefix.
#[tactic(auto, using(blart_keys::proofs::ByteLemmas::common_step, blart_keys::proofs::ByteLemmas::common_stop))]
pub(crate) fn common_len(a: &[u8], b: &[u8]) -> usize
    ensures { result ≡ length (spec.common a.now b.now) }
{
    let mut n = 0;
    while n < a.len() && n < b.len() && a[n] == b[n] {
        n += 1;
    }
    n
}

/// Returns the length of the longest common prefix of what two lists have after `start` bytes.
pub(crate) fn common_len_after(a: &[u8], b: &[u8], start: usize) -> usize
    requires a { start ≤ length a.now }
    requires b { start ≤ length b.now }
    ensures { result ≡ length (spec.common (drop start a.now) (drop start b.now)) }
{
    common_len(&a[start..], &b[start..])
}
