//! Arithmetic, names, lists and words of bits, with values worked by hand from the rules.
//! This project's own.
use rcp_base::{List, Name, abs, add, bits, div, mul, neg, rem, sub};
use std::test::Fail;

#[test]
fn arithmetic_stops_at_its_ends(rt: HostRuntime) {
    let (least, greatest) = (i64::MIN, i64::MAX);
    for (value, expected) in [
        (add(2, 3), 5),
        (add(greatest, 1), greatest),
        (sub(2, 3), -1),
        (sub(least, 1), least),
        (mul(-2, 3), -6),
        (mul(least, -1), greatest),
        (mul(greatest, -2), least),
        (div(7, 2), 3),
        (div(-7, 2), -3),
        (div(5, 0), 0),
        (div(least, -1), greatest),
        (rem(7, -2), 1),
        (rem(-7, 2), -1),
        (rem(5, 0), 0),
        (rem(least, -1), 0),
        (neg(3), -3),
        (neg(least), greatest),
        (abs(-3), 3),
        (abs(least), greatest),
    ] {
        assert_eq!(rt; value, expected);
    }
}

#[test]
fn names_are_read(rt: HostRuntime) -> Result<(), Fail> {
    for text in ["a", "a_1", "lets", "a2345678901234567890123456789012"] {
        let name = Name::read(text).ok_or("no name")?;
        assert_eq!(rt; name.bytes(), text.as_bytes());
    }
    for text in [
        "",
        "A",
        "1a",
        "_a",
        "a-b",
        "a b",
        "é",
        "let",
        "clamp",
        "a23456789012345678901234567890123",
    ] {
        assert!(rt; Name::read(text).is_none(), "{text}");
    }
    Ok(())
}

#[test]
fn lists_keep_their_items(rt: HostRuntime) -> Result<(), Fail> {
    let mut list = List::new(rt.alloc());
    for item in [4, 5, 6] {
        list.push(item)?;
    }
    assert_eq!(rt; list.len(), 3);
    list.set(1, 7);
    assert_eq!(rt; *list.get(1), 7);
    assert_eq!(rt; list.as_slice(), [4, 7, 6].as_slice());
    assert_eq!(rt; list.pop(), Some(6));
    assert_eq!(rt; list.len(), 2);
    Ok(())
}

#[test]
fn a_word_is_a_set_of_numbers(rt: HostRuntime) {
    let word = bits::with_bit(bits::with_bit(0, 63), 2);
    assert_eq!(rt; word, 0x8000_0000_0000_0004);
    assert_eq!(rt; bits::has_bit(word, 63), true);
    assert_eq!(rt; bits::has_bit(word, 3), false);
    assert_eq!(rt; bits::first_bit(word), Some(2));
    assert_eq!(rt; bits::without_bit(word, 2), 0x8000_0000_0000_0000);
    assert_eq!(rt; bits::first_bit(0), None);
}
