//! The bytes of a file on the shelf.

ghost use Rattle.erjang_top.specs.Work.{GetsFile};

use crate::fault::Fault;
use ej_outside::{Got, Shelf, ShelfFault};
use std::alloc::Global;

/// The most bytes that a file may have.
const LONGEST_FILE: u64 = 67108864;

/// The bytes of a file.
///
/// # Errors
/// That there is no such file, that it has too many bytes, that it could not be read, or that memory was wanting.
pub(crate) fn get_file<S: Shelf>(alloc: Global, shelf: &mut S, file: &str) -> Result<Vec<u8>, Fault>
    ensures { GetsFile file.now (S.state shelf.old) result (S.state shelf.new) }
{
    match shelf.get(alloc, file, LONGEST_FILE) {
        Ok(Got::Bytes(bytes)) => Ok(bytes),
        Ok(Got::Absent) => Err(Fault::Absent),
        Ok(Got::Longer) => Err(Fault::Longer),
        Err(ShelfFault::Failed) => Err(Fault::ReadFailed),
        Err(ShelfFault::NoMemory) => Err(Fault::NoMemory),
    }
}
