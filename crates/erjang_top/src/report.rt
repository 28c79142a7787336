//! What is said of an outcome, and its status.

ghost use Rattle.std.specs.Prelude.{◌≡◌, ◌∷◌, [], ◌++◌, codes, IfOk, string_bytes};
ghost use Rattle.erjang_compile.specs.Messages.{message};
ghost use Rattle.erjang_top.specs.Answers.{NotBuilt, SameModule, OfClass, OfCode, Says, cause_text, usage_line};
ghost use Rattle.erjang_top.specs.Work.{SaysRefusal, Reports, ReportsAt};

use crate::fault::{Fault, Stopped};
use crate::lines::{write_all, write_line};
use class_file::ClassFault;
use class_verifier::VerifyFault;
use ej_outside::{Failed, Sink};
use erjang_compile::SourceFault;
use std::alloc::{AllocError, Global};

/// All is done.
const DONE: u8 = 0;

/// A file is refused.
const REFUSED: u8 = 1;

/// The words are not those of a command.
const USAGE: u8 = 2;

/// A file could not be read.
const READ_FAULT: u8 = 3;

/// A message or a line was not taken whole, or a class was not put.
const WRITE_FAULT: u8 = 4;

/// Memory was wanting.
const NO_MEMORY: u8 = 5;

/// Says something of a file: the status, or that of a write fault.
fn say<E: Sink>(err: &mut E, status: u8, file: &str, said: &str) -> u8
    ensures { Says status (file.now ++ said.now) result (E.state err.old) (E.state err.new) }
{
    match write_line(err, file, said) {
        Ok(()) => status,
        Err(Failed) => WRITE_FAULT,
    }
}

/// Says how the program is used.
pub(crate) fn usage<E: Sink>(err: &mut E) -> u8
    ensures { Says 2 usage_line result (E.state err.old) (E.state err.new) }
{
    let line =
        b"usage: erjang compile OUTDIR FILE... | beam SCRIPT FILE... | run SCRIPT CLASS... | verify CLASS... | sample N\n";
    match write_all(err, line) {
        Ok(()) => USAGE,
        Err(Failed) => WRITE_FAULT,
    }
}

/// What is said of a refused source behind its name, with the newline.
fn refusal(alloc: Global, fault: &SourceFault) -> Result<String, AllocError>
    ensures { IfOk result (λ said. string_bytes said ≡ codes ": " ++ message fault.now ++ 10 ∷ []) }
{
    format!(in alloc; ": {fault}\n")
}

/// What is said of a file whose module has an instruction that is not compiled so far, with the newline.
fn not_built(alloc: Global, func: usize, index: usize) -> Result<String, AllocError>
    ensures { IfOk result (λ said. string_bytes said ≡ cause_text (NotBuilt func index) ++ 10 ∷ []) }
{
    format!(in alloc; ": function {func}, instruction {index}: not built\n")
}

/// What is said of a file whose module has the name of an earlier one's, with the newline.
fn same_module(alloc: Global, earlier: usize) -> Result<String, AllocError>
    ensures { IfOk result (λ said. string_bytes said ≡ cause_text (SameModule earlier) ++ 10 ∷ []) }
{
    format!(in alloc; ": same module as file {earlier}\n")
}

/// What is said of bytes that are no class of the profile, behind their file's name, with the newline.
fn no_class(alloc: Global, fault: ClassFault) -> Result<String, AllocError>
    ensures { IfOk result (λ said. string_bytes said ≡ cause_text (OfClass fault) ++ 10 ∷ []) }
{
    format!(in alloc; ": {fault}\n")
}

/// What is said of a class that is not verified, behind its file's name, with the newline.
fn unverified(alloc: Global, fault: VerifyFault) -> Result<String, AllocError>
    ensures { IfOk result (λ said. string_bytes said ≡ cause_text (OfCode fault) ++ 10 ∷ []) }
{
    format!(in alloc; ": {fault}\n")
}

/// Says a line that took memory about a refused file.
fn refuse<E: Sink>(err: &mut E, file: &str, said: Result<String, AllocError>) -> u8
    ensures { SaysRefusal file.now said result (E.state err.old) (E.state err.new) }
{
    match said {
        Ok(said) => say(err, REFUSED, file, said.as_str()),
        Err(_) => NO_MEMORY,
    }
}

/// Says what is wrong with a file, and answers the status.
fn report_at<E: Sink>(alloc: Global, err: &mut E, file: &str, fault: Fault) -> u8
    ensures { ReportsAt file.now fault result (E.state err.old) (E.state err.new) }
{
    match fault {
        Fault::Absent => say(err, REFUSED, file, ": absent\n"),
        Fault::Longer => say(err, REFUSED, file, ": longer than 67108864 bytes\n"),
        Fault::ReadFailed => say(err, READ_FAULT, file, ": read failed\n"),
        Fault::Refused(fault) => refuse(err, file, refusal(alloc, &fault)),
        Fault::NotBuilt { func, index } => refuse(err, file, not_built(alloc, func, index)),
        Fault::SameModule { earlier } => refuse(err, file, same_module(alloc, earlier)),
        Fault::Class(fault) => refuse(err, file, no_class(alloc, fault)),
        Fault::Code(fault) => refuse(err, file, unverified(alloc, fault)),
        Fault::NoMemory => NO_MEMORY,
    }
}

/// Says on `err` what is to be said of an outcome, and answers its status.
pub(crate) fn report<E: Sink>(alloc: Global, err: &mut E, outcome: Result<(), Stopped<'_>>) -> u8
    ensures { Reports outcome.entry result (E.state err.old) (E.state err.new) }
{
    match outcome {
        Ok(()) => DONE,
        Err(Stopped::At(file, fault)) => report_at(alloc, err, file, fault),
        Err(Stopped::WriteFailed) => WRITE_FAULT,
        Err(Stopped::NoMemory) => NO_MEMORY,
    }
}
