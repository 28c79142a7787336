//! Bytes that are read from front to back, each number by the offset of its first byte.

ghost use Rattle.std.specs.Prelude.{◌≡◌, ◌+◌, ◌<◌, ◌≤◌, ◌^◌, length, IfOk, OnOk};
ghost use Rattle.class_file.specs.Gave.{Gave};
ghost use Rattle.jvm_code.specs.Reader as reader;

use crate::fault::ClassFault;
use ej_tables::Cursor;
use std::marker::Model;

/// The bytes that are left, and how many stand before them.
#[derive(Drop)]
pub(crate) struct Source<'a> {
    bytes: &'a [u8],
    cursor: Cursor<'a>,
    ghost same: { cursor.bytes ≡ bytes.now },
    ghost within: { cursor.place ≤ length bytes.now },
}

impl<'a> Model for Source<'a> {
    ghost use Rattle.std.specs.Prelude.{drop};
    ghost use Rattle.class_file.specs.Place.{Place};

    ghost Value = { Place };

    ghost view = { λ source. record { at = source.cursor.place; rest = drop source.cursor.place source.bytes.now } };
}

impl<'a> Source<'a> {
    /// The bytes, from the first on.
    pub fn new(bytes: &'a [u8]) -> Source<'a>
        ensures { result ≡ record { at = 0; rest = bytes.now } }
    {
        Source {
            bytes,
            cursor: Cursor::new(bytes),
        }
    }

    /// The offset of the next byte.
    pub fn at(&self) -> usize
        ensures at { result ≡ self.now.at }
        ensures fits { result + length self.now.rest < 2 ^ 64 }
    {
        self.cursor.place()
    }

    /// How many bytes are left.
    pub fn left(&self) -> usize
        ensures { result ≡ length self.now.rest }
    {
        self.bytes.len() - self.cursor.place()
    }

    /// The next byte.
    pub fn u1(&mut self) -> Result<u8, ClassFault>
        ensures read { Gave (λ n. n) (reader.u1 self.old.at self.old.rest) result self.new }
        ensures moves { OnOk result (self.new.at ≡ self.old.at + 1) }
    {
        let offset = self.cursor.place();
        match self.cursor.take_u8() {
            Some(n) => Ok(n),
            None => Err(ClassFault::NotClass { offset }),
        }
    }

    /// The number of two bytes.
    pub fn u2(&mut self) -> Result<u16, ClassFault>
        ensures read { Gave (λ n. n) (reader.u2 self.old.at self.old.rest) result self.new }
        ensures moves { OnOk result (self.new.at ≡ self.old.at + 2) }
    {
        let offset = self.cursor.place();
        match self.cursor.take_u16() {
            Some(n) => Ok(n),
            None => Err(ClassFault::NotClass { offset }),
        }
    }

    /// The number of four bytes.
    pub fn u4(&mut self) -> Result<u32, ClassFault>
        ensures read { Gave (λ n. n) (reader.u4 self.old.at self.old.rest) result self.new }
        ensures moves { OnOk result (self.new.at ≡ self.old.at + 4) }
    {
        let offset = self.cursor.place();
        match self.cursor.take_u32() {
            Some(n) => Ok(n),
            None => Err(ClassFault::NotClass { offset }),
        }
    }

    /// The number of eight bytes.
    pub fn u8(&mut self) -> Result<u64, ClassFault>
        ensures read { Gave (λ n. n) (reader.number 8 self.old.at self.old.rest) result self.new }
        ensures moves { OnOk result (self.new.at ≡ self.old.at + 8) }
    {
        let offset = self.cursor.place();
        match self.cursor.take_u64() {
            Some(n) => Ok(n),
            None => Err(ClassFault::NotClass { offset }),
        }
    }

    /// So many bytes.
    pub fn bytes(&mut self, count: usize) -> Result<&'a [u8], ClassFault>
        ensures read { Gave (λ piece. piece.now) (reader.bytes count self.old.at self.old.rest) result self.new }
        ensures moves { OnOk result (self.new.at ≡ self.old.at + count) }
        ensures count { IfOk result (λ piece. length piece.now ≡ count) }
    {
        let offset = self.cursor.place();
        match self.cursor.take(count) {
            Some(piece) => Ok(piece),
            None => Err(ClassFault::NotClass { offset }),
        }
    }

    /// The signed number of one byte.
    pub fn s1(&mut self) -> Result<i8, ClassFault>
        ensures read { Gave (λ n. n) (reader.s1 self.old.at self.old.rest) result self.new }
        ensures moves { OnOk result (self.new.at ≡ self.old.at + 1) }
    {
        Ok(self.u1()?.cast_signed())
    }

    /// The signed number of two bytes.
    pub fn s2(&mut self) -> Result<i16, ClassFault>
        ensures read { Gave (λ n. n) (reader.s2 self.old.at self.old.rest) result self.new }
        ensures moves { OnOk result (self.new.at ≡ self.old.at + 2) }
    {
        Ok(self.u2()?.cast_signed())
    }

    /// The signed number of four bytes.
    pub fn s4(&mut self) -> Result<i32, ClassFault>
        ensures read { Gave (λ n. n) (reader.s4 self.old.at self.old.rest) result self.new }
        ensures moves { OnOk result (self.new.at ≡ self.old.at + 4) }
    {
        Ok(self.u4()?.cast_signed())
    }

    /// The signed number of eight bytes.
    pub fn s8(&mut self) -> Result<i64, ClassFault>
        ensures read { Gave (λ n. n) (reader.s8 self.old.at self.old.rest) result self.new }
        ensures moves { OnOk result (self.new.at ≡ self.old.at + 8) }
    {
        Ok(self.u8()?.cast_signed())
    }
}
