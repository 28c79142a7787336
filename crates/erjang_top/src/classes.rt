//! Classes on the shelf, verified one by one.

ghost use Rattle.std.specs.Prelude.{map, string_bytes};
ghost use Rattle.erjang_top.specs.Verify.{ok_line};
ghost use Rattle.erjang_top.specs.VerifyWork.{VerifiesBytes, VerifiesFile, VerifiesNext, VerifiesAll};
ghost use Rattle.erjang_top.specs.Work.{WritesAll};

use crate::fault::{Fault, Stopped};
use crate::lines::{write_all, write_line};
use crate::shelf_file::get_file;
use class_file::parse;
use class_verifier::verify;
use ej_outside::{Failed, Shelf, Sink};
use std::alloc::Global;

/// Verifies the class of these bytes.
fn verify_bytes(alloc: Global, bytes: &[u8]) -> Result<(), Fault>
    ensures { VerifiesBytes bytes.now result }
{
    let class = parse(alloc, bytes)?;
    match verify(alloc, class) {
        Ok(_) => Ok(()),
        Err(refused) => Err(Fault::from(refused.fault)),
    }
}

/// Verifies the class in a file.
fn verify_file<S: Shelf>(alloc: Global, shelf: &mut S, file: &str) -> Result<(), Fault>
    ensures { VerifiesFile file.now (S.state shelf.old) result (S.state shelf.new) }
{
    let bytes = get_file(alloc, shelf, file)?;
    verify_bytes(alloc, bytes.as_slice())
}

/// Writes the line of a file that is verified.
fn write_ok<O: Sink>(out: &mut O, file: &str) -> Result<(), Failed>
    ensures { WritesAll (O.state out.old) (ok_line file.now) result (O.state out.new) }
{
    write_all(out, b"ok ")?;
    write_line(out, file, "\n")
}

/// Verifies the class in a file, and writes its line.
fn verify_next<'a, S: Shelf, O: Sink>(
    alloc: Global,
    shelf: &mut S,
    out: &mut O,
    file: &'a str,
) -> Result<(), Stopped<'a>>
    ensures { VerifiesNext file.now (S.state shelf.old) (S.state shelf.new) (O.state out.old) (O.state out.new) result }
{
    if let Err(fault) = verify_file(alloc, shelf, file) {
        return Err(Stopped::At(file, fault));
    }
    match write_ok(out, file) {
        Ok(()) => Ok(()),
        Err(Failed) => Err(Stopped::WriteFailed),
    }
}

/// Verifies the class in each file, up to the first that is refused. The line of each is written before the next is read.
pub(crate) fn verify_each<'a, S: Shelf, O: Sink>(
    alloc: Global,
    shelf: &mut S,
    out: &mut O,
    files: &'a [String],
) -> Result<(), Stopped<'a>>
    ensures { VerifiesAll (map string_bytes files.now) (S.state shelf.old) (S.state shelf.new) (O.state out.old) (O.state out.new) result }
{
    for file in files {
        if let Err(stopped) = verify_next(alloc, shelf, out, file.as_str()) {
            return Err(stopped);
        }
    }
    Ok(())
}
