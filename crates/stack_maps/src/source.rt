//! Bytes that are read from front to back.

ghost use Rattle.std.specs.Prelude.{◌≡◌, ◌≤◌, length};
ghost use Rattle.stack_maps.specs.Gave.{Gave};
ghost use Rattle.stack_maps.specs.Read as spec;

use crate::fault::MapFault;
use ej_tables::Cursor;
use std::marker::Model;

/// The bytes that are left.
#[derive(Drop)]
pub(crate) struct Source<'a> {
    bytes: &'a [u8],
    cursor: Cursor<'a>,
    ghost same: { cursor.bytes ≡ bytes.now },
    ghost within: { cursor.place ≤ length bytes.now },
}

impl<'a> Model for Source<'a> {
    ghost use Rattle.std.specs.Prelude.{ℕ, List, drop};

    ghost Value = { List ℕ };

    ghost view = { λ source. drop source.cursor.place source.bytes.now };
}

impl<'a> Source<'a> {
    /// All of the bytes.
    pub fn new(bytes: &'a [u8]) -> Source<'a>
        ensures { result ≡ bytes.now }
    {
        Source {
            bytes,
            cursor: Cursor::new(bytes),
        }
    }

    /// How many bytes are left.
    pub fn left(&self) -> usize
        ensures { result ≡ length self.now }
    {
        self.bytes.len() - self.cursor.place()
    }

    /// The next byte.
    pub fn u1(&mut self) -> Result<u8, MapFault>
        ensures { Gave (λ n. n) (spec.u1 self.old) result self.new }
    {
        match self.cursor.take_u8() {
            Some(n) => Ok(n),
            None => Err(MapFault::BadMap),
        }
    }

    /// The number of two bytes.
    pub fn u2(&mut self) -> Result<u16, MapFault>
        ensures { Gave (λ n. n) (spec.u2 self.old) result self.new }
    {
        match self.cursor.take_u16() {
            Some(n) => Ok(n),
            None => Err(MapFault::BadMap),
        }
    }
}
