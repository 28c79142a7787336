//! Rows that are looked up, and numbers that are read from bytes.

use ej_tables::{Cursor, Row, Table};
use std::test::Fail;

static LETTERS: [Row; 3] = [
    Row {
        name: "a",
        arity: 0,
        number: 7,
    },
    Row {
        name: "b",
        arity: 0,
        number: 2,
    },
    Row {
        name: "a",
        arity: 1,
        number: 65535,
    },
];

#[test]
fn finds_rows(rt: HostRuntime) -> Result<(), Fail> {
    let letters: Table<3> = Table::new(&LETTERS);
    assert_eq!(rt; letters.find(b"a", 0), Some(7));
    assert_eq!(rt; letters.find(b"b", 0), Some(2));
    assert_eq!(rt; letters.find(b"a", 1), Some(65535));
    assert_eq!(rt; letters.find(b"b", 1), None);
    assert_eq!(rt; letters.find(b"", 0), None);
    assert_eq!(rt; letters.by_number(2).map(|row| row.name), Some("b"));
    assert!(rt; letters.by_number(3).is_none());
    Ok(())
}

const BYTES: [u8; 17] = [1, 2, 3, 4, 5, 6, 7, 8, 9, 10, 11, 12, 13, 14, 15, 255, 254];

#[test]
fn takes_numbers(rt: HostRuntime) -> Result<(), Fail> {
    let mut cursor = Cursor::new(&BYTES);
    assert_eq!(rt; cursor.take_u8(), Some(1));
    assert_eq!(rt; cursor.take_u16(), Some(0x0203));
    assert_eq!(rt; cursor.take_u32(), Some(0x04050607));
    assert_eq!(rt; cursor.take_u64(), Some(0x08090a0b0c0d0e0f));
    assert_eq!(rt; cursor.place(), 15);
    assert!(rt; cursor.take(3).is_none());
    assert_eq!(rt; cursor.take_u64(), None);
    assert_eq!(rt; cursor.take_u32(), None);
    assert_eq!(rt; cursor.place(), 15);
    assert_eq!(rt; cursor.take_u16(), Some(0xfffe));
    assert_eq!(rt; cursor.take_u16(), None);
    assert_eq!(rt; cursor.take_u8(), None);
    assert_eq!(rt; cursor.place(), 17);
    Ok(())
}
