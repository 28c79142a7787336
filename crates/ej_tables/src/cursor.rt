//! Reads big-endian numbers from bytes.

ghost use Rattle.std.specs.Prelude.{◌≡◌, ◌+◌, ◌≤◌, length, take, drop, IfSome};
ghost use Rattle.ej_tables.specs.Bytes.{AreBytes, Takes, TakesBytes};

use byteorder::{BigEndian, ByteOrder};
use std::marker::Model;

/// A place in bytes, from which numbers are taken one after another.
#[derive(Drop)]
pub struct Cursor<'a> {
    bytes: &'a [u8],
    place: usize,
    ghost within: { place ≤ length bytes.now },
}

impl<'a> Model for Cursor<'a> {
    ghost use Rattle.ej_tables.specs.Bytes.{Unread};

    ghost Value = { Unread };

    ghost view = { λ cursor. record { bytes = cursor.bytes.now; place = cursor.place } };
}

impl<'a> Cursor<'a> {
    /// A cursor before the first byte.
    pub fn new(bytes: &'a [u8]) -> Cursor<'a>
        ensures { result ≡ record { bytes = bytes.now; place = 0 } }
    {
        Cursor { bytes, place: 0 }
    }

    /// The number of bytes that are taken already.
    pub fn place(&self) -> usize
        ensures { result ≡ self.now.place }
    {
        self.place
    }

    /// The next byte. None where none is left.
    pub fn take_u8(&mut self) -> Option<u8>
        ensures { Takes 1 self.old result self.new }
    {
        let piece = self.take(1)?;
        Some(piece[0])
    }

    /// The number of the next two bytes, the high one first. None where fewer are left, and then the place stays.
    #[tactic(auto, using(crate::proofs::BytesLaw::number_taken))]
    pub fn take_u16(&mut self) -> Option<u16>
        ensures { Takes 2 self.old result self.new }
    {
        let piece = self.take(2)?;
        Some(BigEndian::read_u16(piece))
    }

    /// The number of the next four bytes, the highest first. None where fewer are left, and then the place stays.
    #[tactic(auto, using(crate::proofs::BytesLaw::number_taken))]
    pub fn take_u32(&mut self) -> Option<u32>
        ensures { Takes 4 self.old result self.new }
    {
        let piece = self.take(4)?;
        Some(BigEndian::read_u32(piece))
    }

    /// The number of the next eight bytes, the highest first. None where fewer are left, and then the place stays.
    #[tactic(auto, using(crate::proofs::BytesLaw::number_taken))]
    pub fn take_u64(&mut self) -> Option<u64>
        ensures { Takes 8 self.old result self.new }
    {
        let piece = self.take(8)?;
        Some(BigEndian::read_u64(piece))
    }

    /// So many of the next bytes. None where fewer are left, and then the place stays.
    pub fn take(&mut self, count: usize) -> Option<&'a [u8]>
        ensures taken { TakesBytes (λ piece. piece.now) count self.old result self.new }
        ensures bytes { IfSome result (λ piece. AreBytes piece.now) }
    {
        let bytes = self.bytes;
        if bytes.len() - self.place < count {
            return None;
        }
        let piece = piece(bytes, self.place, count);
        self.place += count;
        Some(piece)
    }
}

// That many bytes from that place on.
fn piece(bytes: &[u8], place: usize, count: usize) -> &[u8]
    requires { place + count ≤ length bytes.now }
    ensures piece { result.now ≡ take count (drop place bytes.now) }
    ensures bytes { AreBytes result.now }
{
    &bytes[place..place + count]
}
