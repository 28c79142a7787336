//! A shelf over files.

ghost use Rattle.std.specs.Prelude.{◌≡◌, ◌+◌, ◌≤◌, IfOk, IsTrue, vec_len};
ghost use Rattle.ej_outside.specs.FileShelf.{IsWithin};

use crate::calls::one_more;
use crate::std_sink::write_some;
use crate::{Failed, Got, Shelf, ShelfFault};
use std::alloc::Global;
use std::io::{ErrorKind, Read};
use std::marker::Model;
use std::rt::Files;
use std::{fs, io};

/// How many bytes are asked for in one read.
const PIECE: usize = 4096;

/// The files of the system as a shelf: a name is a path. It tells no contents.
#[derive(Drop)]
pub struct FileShelf<'a, R> {
    files: &'a R,
    read_faults: u64,
    put_faults: u64,
    misses: u64,
    longs: u64,
}

impl<'a, R> Model for FileShelf<'a, R> {
    ghost use Rattle.std.specs.Prelude.{None};
    ghost use Rattle.ej_outside.specs.Shelf.{ShelfState};
    ghost use Rattle.ej_outside.specs.FileShelf.{shelf_code};

    ghost Value = { ShelfState };

    ghost coded = { shelf_code };

    ghost view = { λ s. record { held = None; read_faults = s.read_faults; put_faults = s.put_faults; misses = s.misses; longs = s.longs } };
}

impl<'a, R: Files> FileShelf<'a, R> {
    ghost use Rattle.ej_outside.specs.FileShelf.{untold_shelf};

    /// A shelf over the files that `rt` reaches, with nothing counted.
    pub fn new(rt: &'a R) -> FileShelf<'a, R>
        ensures { result ≡ untold_shelf }
    {
        FileShelf {
            files: rt,
            read_faults: 0,
            put_faults: 0,
            misses: 0,
            longs: 0,
        }
    }
}

impl<'a, R: Files> Shelf for FileShelf<'a, R> {
    ghost use Rattle.ej_outside.specs.Shelf.{ShelfState, Gets, Puts};
    ghost use Rattle.ej_outside.specs.FileShelf.{after_get, after_put};

    ghost state = { λ s. s };

    /// The bytes of the file, if there are at most `limit` of them.
    ///
    /// `Absent` comes where there is no file of that path, `Longer` where more than `limit` bytes were read,
    /// `NoMemory` where memory was wanting, and `Failed` at every other error. At most 4,096 bytes more than
    /// the limit are read. An interrupted read is tried again.
    fn get(&mut self, alloc: Global, name: &str, limit: u64) -> Result<Got, ShelfFault>
        ensures owed { Gets self.old name.now limit result self.new }
        ensures counted { self.new ≡ after_get self.old result }
        ensures within { IsWithin result limit }
    {
        let answer = read_file(self.files, alloc, name, limit);
        match &answer {
            Ok(Got::Bytes(_)) | Err(ShelfFault::NoMemory) => {}
            Ok(Got::Absent) => self.misses = one_more(self.misses),
            Ok(Got::Longer) => self.longs = one_more(self.longs),
            Err(ShelfFault::Failed) => self.read_faults = one_more(self.read_faults),
        }
        answer
    }

    /// Writes the file anew, with these bytes. It makes no folder.
    ///
    /// `Failed` comes at every error; the file may then have a front of the bytes.
    fn put(&mut self, name: &str, bytes: &[u8]) -> Result<(), Failed>
        ensures owed { Puts self.old name.now bytes.now result self.new }
        ensures counted { self.new ≡ after_put self.old result }
    {
        let answer = write_file(self.files, name, bytes);
        if answer.is_err() {
            self.put_faults = one_more(self.put_faults);
        }
        answer
    }
}

/// The bytes of the file, if there are at most `limit` of them.
fn read_file<R: Files>(files: &R, alloc: Global, name: &str, limit: u64) -> Result<Got, ShelfFault>
    ensures { IsWithin result limit }
{
    match fs::open(files, name) {
        Ok(mut file) => read_all(&mut file, alloc, limit),
        Err(error) if error.kind() == ErrorKind::NotFound => Ok(Got::Absent),
        Err(error) => Err(fault_of(&error)),
    }
}

/// The bytes that are left to read, if there are at most `limit` of them.
pub(crate) fn read_all<F: Read>(file: &mut F, alloc: Global, limit: u64) -> Result<Got, ShelfFault>
    ensures { IsWithin result limit }
{
    let mut bytes = Vec::new(alloc);
    for _ in 0..u64::MAX {
        if read_piece(file, &mut bytes)? {
            return Ok(Got::Bytes(bytes));
        }
        if bytes.len() as u64 > limit {
            return Ok(Got::Longer);
        }
    }
    Err(ShelfFault::Failed)
}

/// Reads a piece onto the end of `bytes`, and answers whether the file had ended, so that there was none.
fn read_piece<F: Read>(file: &mut F, bytes: &mut Vec<u8>) -> Result<bool, ShelfFault>
    ensures { IfOk result (λ ended. IsTrue ended → vec_len bytes.new ≡ vec_len bytes.old) }
{
    let mut piece = [0; PIECE];
    match file.read(&mut piece) {
        Ok(count) => match bytes.extend_from_slice(&piece[..count]) {
            Ok(()) => Ok(count == 0),
            Err(_) => Err(ShelfFault::NoMemory),
        },
        Err(error) if error.kind() == ErrorKind::Interrupted => Ok(false),
        Err(error) => Err(fault_of(&error)),
    }
}

/// What an error of the system means to a read.
fn fault_of(error: &io::Error) -> ShelfFault {
    if error.kind() == ErrorKind::OutOfMemory {
        ShelfFault::NoMemory
    } else {
        ShelfFault::Failed
    }
}

/// Writes the file anew, with these bytes.
fn write_file<R: Files>(files: &R, name: &str, bytes: &[u8]) -> Result<(), Failed> {
    match fs::create(files, name) {
        Ok(mut file) => write_all(&mut file, bytes),
        Err(_) => Err(Failed),
    }
}

/// Writes all the bytes.
pub(crate) fn write_all<W: io::Write>(file: &mut W, bytes: &[u8]) -> Result<(), Failed> {
    let mut rest = bytes;
    while !rest.is_empty() {
        let count = write_some(file, rest)?;
        let (_, after) = rest.split_at(count);
        rest = after;
    }
    Ok(())
}
