//! The keys of a run, made from a seed.
use crate::failure::Failure;
use crate::keys::{Key, Made};
use blart_keys::AsBytes;
use rand::seq::SliceRandom;
use rand_core::{Rng, SeedableRng};
use rand_xoshiro::Xoshiro256PlusPlus;
use std::alloc::{AllocError, Global};

/// A kind of keys. No key of a kind is a prefix of another.
#[derive(Clone, Copy, PartialEq, Eq)]
pub(crate) enum Kind {
    /// Eight random bytes.
    Random,
    /// Texts like the addresses of pages, each with a zero byte at the end.
    Urls,
    /// The numbers from 0 on, in eight bytes, with the high byte first.
    Dense,
    /// Keys of one to three bytes, like the prefixes of networks. None is a prefix of another.
    Short,
    /// The same keys as `Random`, as arrays.
    Random8,
    /// Sixteen random bytes, as arrays.
    Random16,
    /// The same keys as `Dense`, as arrays.
    Dense8,
}

impl Kind {
    /// All kinds.
    pub(crate) const ALL: [Kind; 7] = [
        Kind::Random,
        Kind::Urls,
        Kind::Dense,
        Kind::Short,
        Kind::Random8,
        Kind::Random16,
        Kind::Dense8,
    ];

    /// Returns the word for the kind.
    pub(crate) fn name(self) -> &'static str {
        match self {
            Kind::Random => "random",
            Kind::Urls => "urls",
            Kind::Dense => "dense",
            Kind::Short => "short",
            Kind::Random8 => "random8",
            Kind::Random16 => "random16",
            Kind::Dense8 => "dense8",
        }
    }

    /// Returns whether the keys are arrays.
    pub(crate) fn is_of_arrays(self) -> bool {
        matches!(self, Kind::Random8 | Kind::Random16 | Kind::Dense8)
    }

    /// Appends the bytes of the key at a place, or of a missing key.
    fn write(
        self,
        key: &mut Vec<u8>,
        place: usize,
        missing: bool,
        rng: &mut Xoshiro256PlusPlus,
    ) -> Result<(), AllocError> {
        let random = rng.next_u64();
        match self {
            Kind::Random | Kind::Random8 => key.extend_from_slice(&random.to_be_bytes()),
            Kind::Random16 => {
                key.extend_from_slice(&random.to_be_bytes())?;
                key.extend_from_slice(&rng.next_u64().to_be_bytes())
            }
            Kind::Urls => write_url(key, random, missing),
            Kind::Dense | Kind::Dense8 if missing => {
                key.extend_from_slice(&(random | 1 << 63).to_be_bytes())
            }
            Kind::Dense | Kind::Dense8 => key.extend_from_slice(&(place as u64).to_be_bytes()),
            Kind::Short => write_short(key, random),
        }
    }

    /// Returns the length of a key's prefix that is searched for: so short that several keys start
    /// with it.
    fn front(self, len: usize) -> usize {
        match self {
            Kind::Random | Kind::Short | Kind::Random8 | Kind::Random16 => 2,
            Kind::Urls => len.saturating_sub(4),
            Kind::Dense | Kind::Dense8 => 7,
        }
    }
}

/// A prefix of stored keys.
#[derive(Drop)]
pub(crate) struct Front<K> {
    /// The least possible key with this prefix. The prefix is its first `len` bytes.
    pub(crate) least: K,
    len: usize,
}

impl<K: AsBytes> Front<K> {
    /// Returns the bytes of the prefix.
    pub(crate) fn bytes(&self) -> &[u8] {
        let bytes = self.least.as_bytes();
        bytes.split_at(self.len.min(bytes.len())).0
    }
}

/// The keys of a run.
#[derive(Drop)]
pub(crate) struct Workload<K> {
    alloc: Global,
    pub(crate) kind: Kind,
    /// The keys to be stored, in random order.
    pub(crate) keys: Vec<K>,
    /// The same keys, in order.
    pub(crate) sorted: Vec<K>,
    /// The same keys, in another random order.
    pub(crate) hits: Vec<K>,
    /// Keys of the same kind. Few of them or none are stored.
    pub(crate) misses: Vec<K>,
    /// Prefixes of stored keys.
    pub(crate) fronts: Vec<Front<K>>,
}

impl<K: Key> Workload<K> {
    /// Returns a workload of a kind, with no keys yet.
    pub(crate) fn new(alloc: Global, kind: Kind) -> Self {
        Workload {
            alloc,
            kind,
            keys: Vec::new(alloc),
            sorted: Vec::new(alloc),
            hits: Vec::new(alloc),
            misses: Vec::new(alloc),
            fronts: Vec::new(alloc),
        }
    }

    /// Makes `count` keys. The seed is always the same.
    pub(crate) fn fill(&mut self, count: usize) -> Result<(), Failure> {
        let mut rng = Xoshiro256PlusPlus::seed_from_u64(7);
        push_keys(
            &mut self.keys,
            self.alloc,
            self.kind,
            count,
            false,
            &mut rng,
        )?;
        self.keys.shuffle(&mut rng);
        push_orders(&self.keys, &mut self.sorted, &mut self.hits, &mut rng)?;
        push_keys(
            &mut self.misses,
            self.alloc,
            self.kind,
            count,
            true,
            &mut rng,
        )?;
        push_fronts(&mut self.fronts, self.alloc, self.kind, &self.hits)
    }
}

impl<K: AsBytes> Workload<K> {
    /// Appends the bytes of the keys whose place is no multiple of `number`.
    pub(crate) fn every(&self, number: usize, lists: &mut Vec<Vec<u8>>) -> Result<(), Failure> {
        for (place, key) in self.keys.iter().enumerate() {
            if place % number.max(1) != 0 {
                push_list(lists, self.alloc, key, b"")?;
            }
        }
        Ok(())
    }

    /// Appends as many paths as there are keys. Every second path is below a mount. The others are
    /// like them, but start with a missing key.
    pub(crate) fn paths(&self, lists: &mut Vec<Vec<u8>>) -> Result<(), Failure> {
        let mounts = (self.keys.len() / 10).max(1);
        for (place, other) in self.misses.iter().enumerate() {
            let key = match self.keys.get(place.wrapping_mul(7) % mounts) {
                Some(mount) if place % 2 == 0 => mount,
                _ => other,
            };
            push_list(lists, self.alloc, key, b"/index")?;
        }
        Ok(())
    }
}

/// Appends the bytes of a key, and some more after them.
fn push_list(
    lists: &mut Vec<Vec<u8>>,
    alloc: Global,
    key: &impl AsBytes,
    more: &[u8],
) -> Result<(), Failure> {
    let mut list = Vec::made(alloc, key.as_bytes())?;
    list.extend_from_slice(more)?;
    lists.push(list)?;
    Ok(())
}

/// Appends `count` keys of a kind.
fn push_keys<K: Key>(
    keys: &mut Vec<K>,
    alloc: Global,
    kind: Kind,
    count: usize,
    missing: bool,
    rng: &mut Xoshiro256PlusPlus,
) -> Result<(), Failure> {
    for place in 0..count {
        let mut key = Vec::new(alloc);
        kind.write(&mut key, place, missing, rng)?;
        keys.push(K::made(alloc, key.as_slice())?)?;
    }
    Ok(())
}

/// Appends the keys in order to one list, and in random order to another.
fn push_orders<K: Key>(
    keys: &[K],
    sorted: &mut Vec<K>,
    shuffled: &mut Vec<K>,
    rng: &mut Xoshiro256PlusPlus,
) -> Result<(), AllocError> {
    sorted.extend_from_slice(keys)?;
    sorted.sort()?;
    shuffled.extend_from_slice(keys)?;
    shuffled.shuffle(rng);
    Ok(())
}

/// Appends prefixes of the first 10,000 keys.
fn push_fronts<K: Key>(
    fronts: &mut Vec<Front<K>>,
    alloc: Global,
    kind: Kind,
    keys: &[K],
) -> Result<(), Failure> {
    for key in keys.iter().take(10_000) {
        let bytes = key.as_bytes();
        let len = kind.front(bytes.len()).min(bytes.len());
        let least = K::made(alloc, bytes.split_at(len).0)?;
        fronts.push(Front { least, len })?;
    }
    Ok(())
}

const HOSTS: [&str; 7] = [
    "https://www.example.com/",
    "https://www.news.site.org/",
    "https://www.shop.store.net/",
    "https://www.api.cloud.io/",
    "https://www.cdn.static.io/",
    "https://www.blog.writer.me/",
    "https://www.wiki.pedia.org/",
];

const WORDS: [&str; 18] = [
    "about/", "article/", "user/", "item/", "product/", "image/", "page/", "index/", "archive/",
    "tag/", "search/", "comment/", "list/", "view/", "edit/", "data/", "static/", "assets/",
];

/// Appends an address: a host, one to four words, a number and a zero byte. A missing key has a
/// letter before the number.
fn write_url(key: &mut Vec<u8>, random: u64, missing: bool) -> Result<(), AllocError> {
    write_word(key, &HOSTS, random)?;
    let words = 1 + (random >> 8) % 4;
    for place in 0..words {
        write_word(key, &WORDS, random >> (16 + 5 * place))?;
    }
    if missing {
        key.push(b'x')?;
    }
    write_number(key, (random >> 40) % 1_000_000)?;
    key.push(0)?;
    Ok(())
}

/// Appends one of the words.
fn write_word(key: &mut Vec<u8>, words: &[&str], random: u64) -> Result<(), AllocError> {
    match words.get((random % 32) as usize % words.len().max(1)) {
        Some(word) => key.extend_from_slice(word.as_bytes()),
        None => Ok(()),
    }
}

/// Appends the six decimal digits of a number.
fn write_number(key: &mut Vec<u8>, number: u64) -> Result<(), AllocError> {
    for unit in [100_000u64, 10_000, 1_000, 100, 10, 1] {
        key.push(b'0' + (number / unit % 10) as u8)?;
    }
    Ok(())
}

/// Appends a key. Its first byte tells whether it is the last. If not, the second byte tells
/// whether there is a third.
fn write_short(key: &mut Vec<u8>, random: u64) -> Result<(), AllocError> {
    let [first, second, third, ..] = random.to_be_bytes();
    key.push(first)?;
    if first % 8 > 0 {
        key.push(second)?;
        if second % 4 > 0 {
            key.push(third)?;
        }
    }
    Ok(())
}
