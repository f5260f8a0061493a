//! Counts of words, in a map whose keys are texts. One text may begin with another.
ghost use Rattle.std.specs.Prelude.{◌≡◌, ◌<◌, ◌≤◌, ◌+◌, ◌-◌, ◌^◌, [], ◌∷◌, ◌++◌, length, min, unwrap_or, Contains, IfOk, OnOk, OnErr, Some};
ghost use Rattle.blart.specs.Words.{pairs, value_at, zkey_bytes, zstr_bytes, zquery_room};

use blart::{Map, ZKey, ZKeyError, ZQuery, ZStr, zkey};
use std::alloc::{AllocError, Global};
use std::cmp::Reverse;

/// Returns the count of a word, which is 0 if the word is not counted.
pub fn count_of(counts: &Map<ZKey, u32>, query: &mut ZQuery, word: &[u8]) -> Result<u32, ZKeyError>
    ensures { IfOk result (λ count. count
        ≡ unwrap_or (value_at zkey_bytes (pairs counts.now) (word.now ++ 0 ∷ [])) 0) }
{
    query.set(word)?;
    Ok(counts.get(query).copied().unwrap_or(0))
}

/// Sets the count of a word and looks it up.
pub fn set_and_ask(
    counts: &mut Map<ZKey, u32>,
    alloc: Global,
    query: &mut ZQuery,
    word: &[u8],
    count: u32,
) -> Result<Option<u32>, ZKeyError>
    ensures { IfOk result (λ found. found ≡ Some count) }
{
    counts.insert(ZKey::from_bytes(alloc, word)?, count)?;
    query.set(word)?;
    Ok(counts.get(query).copied())
}

/// Sets the count of `car` and looks it up.
pub fn set_car(
    counts: &mut Map<ZKey, u32>,
    alloc: Global,
    count: u32,
) -> Result<Option<u32>, ZKeyError>
    ensures { IfOk result (λ found. found ≡ Some count) }
{
    counts.insert(ZKey::from_bytes(alloc, b"car")?, count)?;
    Ok(counts.get(&zkey!("car")).copied())
}

/// Returns the count of `car`.
pub fn cars(counts: &Map<ZKey, u32>) -> Option<u32>
    ensures { result ≡ value_at zkey_bytes (pairs counts.now) (99 ∷ 97 ∷ 114 ∷ 0 ∷ []) }
{
    counts.get(&zkey!("car")).copied()
}

/// Names `car` and `card` in a map whose keys are in the program.
pub fn name_both(names: &mut Map<ZStr<'static>, u32>) -> Result<(), AllocError>
    ensures { OnOk result
        (value_at zstr_bytes (pairs names.new) (99 ∷ 97 ∷ 114 ∷ 0 ∷ []) ≡ Some 1) }
{
    names.insert(zkey!("car"), 1)?;
    names.insert(zkey!("card"), 2)?;
    Ok(())
}

/// Sets a query to a word for which it has room. It fails only if the word has a zero.
pub fn next_word(query: &mut ZQuery, word: &[u8]) -> Result<(), ZKeyError>
    requires { length word.now < zquery_room query.old }
    ensures { OnErr result (Contains word.now 0) }
{
    query.set(word)
}

/// Sets a query to a word, and then to one that is no longer. The second call does not allocate.
pub fn two_words(query: &mut ZQuery, long: &[u8], short: &[u8]) -> Result<(), ZKeyError>
    requires { length short.now ≤ length long.now }
{
    query.set(long)?;
    next_word(query, short)
}

/// Adds one to the count of a word, unless that is the greatest count.
pub fn count_word(counts: &mut Map<ZKey, u64>, alloc: Global, word: &[u8]) -> Result<(), ZKeyError>
    ensures counted { OnOk result (value_at zkey_bytes (pairs counts.new) (word.now ++ 0 ∷ [])
        ≡ Some (min (unwrap_or
        (value_at zkey_bytes (pairs counts.old) (word.now ++ 0 ∷ [])) 0 + 1) (2 ^ 64 - 1))) }
    ensures refused { OnErr result (counts.new ≡ counts.old) }
{
    let key = ZKey::from_bytes(alloc, word)?;
    let count = counts.entry(key).or_insert(0)?;
    *count = count.saturating_add(1);
    Ok(())
}

/// Counts the words of a line. If a word fails, the words before it are counted.
pub fn count_words(
    counts: &mut Map<ZKey, u64>,
    alloc: Global,
    line: &str,
) -> Result<(), ZKeyError> {
    for word in line.split_whitespace() {
        count_word(counts, alloc, word.as_bytes())?;
    }
    Ok(())
}

/// Returns the most frequent of the words that begin with a prefix, at most `most`, each with its
/// count. Words with the same count are in byte order.
pub fn most_frequent<'a>(
    counts: &'a Map<ZKey, u64>,
    alloc: Global,
    prefix: &[u8],
    most: usize,
) -> Result<Vec<(u64, &'a ZKey)>, AllocError>
    ensures { IfOk result (λ found. length found.items ≤ most) }
{
    let mut found = Vec::new(alloc);
    for (word, count) in counts.prefix(prefix) {
        found.push((*count, word))?;
    }
    found.sort_by_key(|pair| Reverse(pair.0))?;
    found.truncate(most);
    Ok(found)
}
