//! The bytes of keys of each type, and the texts of errors.
use crate::tests::assert_display;
use blart::{Map, zkey};
use blart_keys::{
    AsBytes, I32Key, I64Key, InsertPrefixError, Number, NumberKey, OrderedBytes, TryInsertError,
    U16Key, U32Key, U64Key, U128Key, ZKey, ZKeyError, ZQuery, ZStr,
};
use std::alloc::AllocError;
use std::boxed::BoxedSlice;
use std::cmp::Ordering;
use std::fmt::{Debug, Display};
use std::process::Abort;

/// Checks that the two keys have these bytes, and that the first is less.
fn assert_keys<K: OrderedBytes>(
    rt: &impl Abort,
    (low, low_bytes): (&K, &[u8]),
    (high, high_bytes): (&K, &[u8]),
) {
    assert!(rt; *low.as_bytes() == *low_bytes);
    assert!(rt; *high.as_bytes() == *high_bytes);
    assert!(rt; low < high && low == low && low != high);
}

/// Bytes and order of number keys, and of references to them.
#[test]
fn numbers(rt: HostRuntime) {
    let (one, two) = (U32Key::new(258), U32Key::new(65536));
    assert_keys(&rt, (&one, &[0, 0, 1, 2]), (&two, &[0, 1, 0, 0]));
    let (one, two) = (U64Key::new(1), U64Key::new(1 << 40));
    let bytes: [&[u8]; 2] = [&[0, 0, 0, 0, 0, 0, 0, 1], &[0, 0, 1, 0, 0, 0, 0, 0]];
    assert_keys(&rt, (&one, bytes[0]), (&two, bytes[1]));
    let (least, less) = (I32Key::new(-2147483648), I32Key::new(-1));
    assert_keys(&rt, (&least, &[0; 4]), (&less, &[0x7f, 0xff, 0xff, 0xff]));
    let (zero, most) = (I32Key::new(0), I32Key::new(2147483647));
    assert_keys(&rt, (&zero, &[0x80, 0, 0, 0]), (&most, &[0xff; 4]));
    assert_keys(
        &rt,
        (&&less, &[0x7f, 0xff, 0xff, 0xff]),
        (&&zero, &[0x80, 0, 0, 0]),
    );
    assert!(rt; one.get() == 1 && two.get() == 1 << 40);
    assert!(rt; least.get() == -2147483648);
}

/// Checks the key of each of these numbers: its bytes, its number, and that it is greater than the
/// key before it.
fn assert_numbers<T: Number<N>, const N: usize>(rt: &impl Abort, wanted: &[(T, [u8; N])]) {
    let mut last: Option<NumberKey<T, N>> = None;
    for (number, bytes) in wanted {
        let key: NumberKey<T, N> = NumberKey::new(*number);
        assert!(rt; key.as_bytes() == bytes.as_slice() && key.get() == *number);
        assert!(rt; key == NumberKey::from(*number));
        assert!(rt; (*number).to_key_bytes() == *bytes && T::from_key_bytes(bytes) == *number);
        if let Some(less) = last {
            less.order_law(&key);
            assert!(rt; less < key && less.cmp(&key) == Ordering::Less && less != key);
        }
        key.value_law();
        last = Some(key);
    }
}

/// The least, the greatest and some other numbers of each type.
#[test]
fn unsigned_numbers(rt: HostRuntime) {
    assert_numbers(
        &rt,
        &[
            (0u16, [0; 2]),
            (1, [0, 1]),
            (258, [1, 2]),
            (65535, [0xff; 2]),
        ],
    );
    assert_numbers(
        &rt,
        &[
            (0u32, [0; 4]),
            (258, [0, 0, 1, 2]),
            (0xffff_ffff, [0xff; 4]),
        ],
    );
    assert_numbers(
        &rt,
        &[
            (0u64, [0; 8]),
            (258, [0, 0, 0, 0, 0, 0, 1, 2]),
            (0xffff_ffff_ffff_ffff, [0xff; 8]),
        ],
    );
}

/// The same of `U128Key`.
#[test]
fn numbers_of_sixteen_bytes(rt: HostRuntime) {
    assert_numbers(
        &rt,
        &[
            (0u128, [0; 16]),
            (1, [0, 0, 0, 0, 0, 0, 0, 0, 0, 0, 0, 0, 0, 0, 0, 1]),
            (1 << 64, [0, 0, 0, 0, 0, 0, 0, 1, 0, 0, 0, 0, 0, 0, 0, 0]),
            (
                0x0102_0304_0506_0708_090a_0b0c_0d0e_0f10,
                [1, 2, 3, 4, 5, 6, 7, 8, 9, 10, 11, 12, 13, 14, 15, 16],
            ),
            (u128::MAX, [0xff; 16]),
        ],
    );
}

/// The same of `I32Key` and `I64Key`.
#[test]
fn signed_numbers(rt: HostRuntime) {
    assert_numbers(
        &rt,
        &[
            (i32::MIN, [0; 4]),
            (-1, [0x7f, 0xff, 0xff, 0xff]),
            (0, [0x80, 0, 0, 0]),
            (258, [0x80, 0, 1, 2]),
            (i32::MAX, [0xff; 4]),
        ],
    );
    assert_numbers(
        &rt,
        &[
            (i64::MIN, [0; 8]),
            (-258, [0x7f, 0xff, 0xff, 0xff, 0xff, 0xff, 0xfe, 0xfe]),
            (-1, [0x7f, 0xff, 0xff, 0xff, 0xff, 0xff, 0xff, 0xff]),
            (0, [0x80, 0, 0, 0, 0, 0, 0, 0]),
            (258, [0x80, 0, 0, 0, 0, 0, 1, 2]),
            (i64::MAX, [0xff; 8]),
        ],
    );
}

/// `From` makes a key of a number, and a number of a key.
#[test]
fn numbers_from_keys(rt: HostRuntime) {
    assert!(rt; u16::from(U16Key::from(258)) == 258 && u32::from(U32Key::from(258)) == 258);
    assert!(rt; u64::from(U64Key::from(1 << 40)) == 1 << 40);
    assert!(rt; u128::from(U128Key::from(1 << 100)) == 1 << 100);
    assert!(rt; i32::from(I32Key::from(-7)) == -7 && i64::from(I64Key::from(-7)) == -7);
    let key: U64Key = 5.into();
    assert!(rt; key == U64Key::new(5));
}

/// A map of signed numbers is walked in their order.
fn walk_numbers(rt: &(impl Abort + AllocGlobal), map: &mut Map<I64Key, i64>) {
    for number in [5, i64::MIN, -1, i64::MAX, 0, 4, -4294967296] {
        map.insert(I64Key::new(number), number).expect(rt, "memory");
    }
    let wanted = [i64::MIN, -4294967296, -1, 0, 4, 5, i64::MAX];
    assert!(rt; map.values().eq(&wanted));
    assert!(rt; map.first_key_value() == Some((&I64Key::new(i64::MIN), &i64::MIN)));
    assert!(rt; map.last_key_value() == Some((&I64Key::new(i64::MAX), &i64::MAX)));
    assert!(rt; map.get(&I64Key::new(-1)) == Some(&-1) && map.get(&I64Key::new(1)) == None);
}

/// A map of `I64Key`s is walked in the order of the numbers.
#[test]
fn numbers_in_a_map(rt: HostRuntime) {
    let mut map = Map::new(rt.alloc());
    walk_numbers(&rt, &mut map);
    drop(map);
}

/// Checks the same for keys that own their bytes.
fn assert_owners<K: OrderedBytes + Drop, E: Debug>(
    rt: &impl Abort,
    (low, low_bytes): (Result<K, E>, &[u8]),
    (high, high_bytes): (Result<K, E>, &[u8]),
) {
    let (low, high) = (low.expect(rt, "memory"), high.expect(rt, "memory"));
    assert_keys(rt, (&low, low_bytes), (&high, high_bytes));
    assert_keys(rt, (&&low, low_bytes), (&&high, high_bytes));
    drop(low);
    drop(high);
}

/// Bytes and order of `u8`, arrays, slices, lists and texts.
#[test]
fn bytes(rt: HostRuntime) {
    assert_keys(&rt, (&7u8, &[7]), (&8, &[8]));
    assert_keys(&rt, (&[1u8, 2], &[1, 2]), (&[1, 3], &[1, 3]));
    let (ab, abc): (&[u8], &[u8]) = (b"ab", b"abc");
    assert_keys(&rt, (&ab, ab), (&abc, abc));
    let low: Result<_, _> = Vec::from_slice(rt.alloc(), ab);
    let high: Result<_, _> = Vec::from_slice(rt.alloc(), abc);
    assert_owners(&rt, (low, ab), (high, abc));
    let low: Result<_, _> = BoxedSlice::from_slice(rt.alloc(), ab);
    let high: Result<_, _> = BoxedSlice::from_slice(rt.alloc(), abc);
    assert_owners(&rt, (low, ab), (high, abc));
    assert_keys(&rt, (&"ab", ab), (&"abc", abc));
    let low: Result<_, _> = "ab".to_string(rt.alloc());
    let high: Result<_, _> = "abc".to_string(rt.alloc());
    assert_owners(&rt, (low, ab), (high, abc));
}

fn zkey(rt: &(impl Abort + AllocGlobal), bytes: &[u8]) -> ZKey {
    ZKey::from_bytes(rt.alloc(), bytes).expect(rt, "memory")
}

/// Checks that the key of these bytes returns them, without the zero at its end.
fn assert_zkey(rt: &(impl Abort + AllocGlobal), bytes: &[u8], with_zero: &[u8]) {
    let key = zkey(rt, bytes);
    let is_right = *key.to_bytes() == *bytes && *key.as_bytes() == *with_zero;
    let copy = key.clone().expect(rt, "memory");
    let is_same = copy == key;
    drop(copy);
    drop(key);
    assert!(rt; is_right && is_same);
}

/// The bytes of `ZKey`s, also of the empty text, and the error for a text that contains a zero.
#[test]
fn zkeys(rt: HostRuntime) {
    let (ab, abc): (&[u8], &[u8]) = (b"ab\0", b"abc\0");
    let low = ZKey::from_bytes(rt.alloc(), b"ab");
    let high = ZKey::from_bytes(rt.alloc(), b"abc");
    assert_owners(&rt, (low, ab), (high, abc));
    assert_zkey(&rt, b"ab", ab);
    assert_zkey(&rt, b"abc", abc);
    assert_zkey(&rt, b"", b"\0");
    for bytes in [[1, 0, 2], [0, 1, 2], [1, 2, 0]] {
        let made = ZKey::from_bytes(rt.alloc(), &bytes);
        assert!(rt; made.err() == Some(ZKeyError::InnerZero));
    }
}

/// Checks that a query that is set to a text has the bytes of its key.
fn assert_query(rt: &(impl Abort + AllocGlobal), query: &mut ZQuery, text: &[u8]) {
    query.set(text).expect(rt, "memory");
    let key = zkey(rt, text);
    let is_same = query.as_bytes() == key.as_bytes();
    drop(key);
    assert!(rt; is_same);
}

/// A query is set to one text after the other. After an error it has no bytes.
#[test]
fn queries(rt: HostRuntime) {
    let mut query = ZQuery::new(rt.alloc());
    assert!(&rt; query.as_bytes().is_empty());
    for text in [b"car" as &[u8], b"cards", b"", b"a", b"\xff"] {
        assert_query(&rt, &mut query, text);
    }
    let inner_zero = query.set(b"a\0b");
    assert!(&rt; inner_zero == Err(ZKeyError::InnerZero) && query.as_bytes().is_empty());
    assert_query(&rt, &mut query, b"card");
    drop(query);
}

/// Texts of the program find the keys of a map, and are keys of another.
fn find_texts(
    rt: &(impl Abort + AllocGlobal),
    owned: &mut Map<ZKey, u8>,
    named: &mut Map<ZStr<'static>, u8>,
) {
    let mut query = ZQuery::new(rt.alloc());
    for (text, value) in [(b"car" as &[u8], 1), (b"card", 2), (b"", 3)] {
        owned.insert(zkey(rt, text), value).expect(rt, "memory");
        query.set(text).expect(rt, "memory");
        assert!(rt; owned.get(&query) == Some(&value));
    }
    drop(query);
    assert!(rt; owned.get(&zkey!("car")) == Some(&1) && owned.get(&zkey!("card")) == Some(&2));
    assert!(rt; owned.get(&zkey!("")) == Some(&3) && owned.get(&zkey!("ca")) == None);
    assert!(rt; owned.get(&"car") == None && owned.get(&"car\0") == Some(&1));
    named.insert(zkey!("card"), 2).expect(rt, "memory");
    named.insert(zkey!("car"), 1).expect(rt, "memory");
    assert!(rt; named.first_key_value() == Some((&zkey!("car"), &1)));
    assert!(rt; named.get(&ZStr::new("card\0")) == Some(&2) && zkey!("car") < zkey!("card"));
}

/// `zkey!` and a `ZQuery` find `car`, `card` and the empty text among `ZKey`s, and the text alone
/// does not. `ZStr`s are keys too.
#[test]
fn texts_find_keys(rt: HostRuntime) {
    let (mut owned, mut named) = (Map::new(rt.alloc()), Map::new(rt.alloc()));
    find_texts(&rt, &mut owned, &mut named);
    drop(owned);
    drop(named);
}

fn assert_debug<T: Debug>(rt: &(impl Abort + AllocGlobal), value: &T, want: &str) {
    let text = format!(in rt.alloc(); "{value:?}").expect(rt, "memory");
    let is_wanted = text.as_str() == want;
    drop(text);
    assert!(rt; is_wanted);
}

/// Checks what `Display` and `Debug` write for a key.
fn assert_shown<K: Debug + Display>(
    rt: &(impl Abort + AllocGlobal),
    key: &K,
    shown: &str,
    debug: &str,
) {
    assert_display(rt, key, shown);
    assert_debug(rt, key, debug);
}

/// What `Display` and `Debug` write.
#[test]
fn texts_of_numbers(rt: HostRuntime) {
    assert_shown(&rt, &U16Key::new(258), "258", "U16Key(258)");
    assert_shown(&rt, &U32Key::new(258), "258", "U32Key(258)");
    assert_shown(
        &rt,
        &U64Key::new(1 << 40),
        "1099511627776",
        "U64Key(1099511627776)",
    );
    let most = "340282366920938463463374607431768211455";
    let debug = "U128Key(340282366920938463463374607431768211455)";
    assert_shown(&rt, &U128Key::new(u128::MAX), most, debug);
    let clone = I32Key::new(-7).clone().expect(&rt, "memory");
    assert_shown(&rt, &clone, "-7", "I32Key(-7)");
    let debug = "I64Key(-9223372036854775808)";
    assert_shown(&rt, &I64Key::new(i64::MIN), "-9223372036854775808", debug);
    let text = format!(in rt.alloc(); "{:>5}|{:<4}|", U16Key::new(42), I64Key::new(-1));
    let text = text.expect(&rt, "memory");
    let is_padded = text.as_str() == "   42|-1  |";
    drop(text);
    assert!(rt; is_padded);
}

/// Checks what `Display` and `Debug` write for the key of these bytes.
fn assert_shown_zkey(rt: &(impl Abort + AllocGlobal), bytes: &[u8], shown: &str, debug: &str) {
    let key = zkey(rt, bytes);
    assert_shown(rt, &key, shown, debug);
    drop(key);
}

/// What `Display` and `Debug` write, also of a text that is not UTF-8.
#[test]
fn texts_of_zkeys(rt: HostRuntime) {
    assert_shown_zkey(&rt, b"ab", "ab", "ZKey(\"ab\")");
    assert_shown_zkey(&rt, b"", "", "ZKey(\"\")");
    assert_shown_zkey(&rt, b"it's", "it's", "ZKey(\"it's\")");
    let umlaut = "\u{fc}\"\n";
    assert_shown_zkey(&rt, umlaut.as_bytes(), umlaut, "ZKey(\"\u{fc}\\\"\\n\")");
    assert_shown_zkey(
        &rt,
        b"a\xffb\xc3",
        "a\u{fffd}b\u{fffd}",
        "ZKey(\"a\\xffb\\xc3\")",
    );
    assert_shown(&rt, &zkey!("ab"), "ab", "ZStr(\"ab\")");
    assert_shown(&rt, &zkey!(""), "", "ZStr(\"\")");
    let mut query = ZQuery::new(rt.alloc());
    assert_debug(&rt, &query, "ZQuery(\"\")");
    query.set(b"a\xff").expect(&rt, "a text");
    assert_debug(&rt, &query, "ZQuery(\"a\\xff\")");
    let text = format!(in rt.alloc(); "{:>5}|", zkey!("ab")).expect(&rt, "memory");
    let is_padded = text.as_str() == "   ab|";
    drop(text);
    assert!(rt; is_padded);
}

#[test]
fn texts_of_errors(rt: HostRuntime) {
    assert_debug(&rt, &ZKeyError::InnerZero, "InnerZero");
    assert_debug(&rt, &ZKeyError::Memory, "Memory");
    assert_display(&rt, &ZKeyError::InnerZero, "zero byte in key");
    assert_display(&rt, &ZKeyError::Memory, "out of memory");
    assert_display(&rt, &InsertPrefixError, "key conflicts");
    let conflict = TryInsertError::Prefix(InsertPrefixError);
    assert_display(&rt, &conflict, "key conflicts");
    let memory = TryInsertError::Memory(AllocError);
    assert_display(&rt, &memory, "out of memory");
}
