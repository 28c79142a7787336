//! The program `erjang`: it hands its words, the system's files and its streams to `erjang_top::erjang`, and
//! ends with the status that comes back.
#![tactic(auto)]

use ej_outside::{FileShelf, StdSink};
use erjang_top::erjang;
use std::alloc::AllocError;
use std::env;
use std::io::ErrorKind;
use std::process::ExitCode;

/// The status where memory was wanting.
const NO_MEMORY: u8 = 5;

fn main(rt: HostRuntime) -> ExitCode {
    let Ok(words) = words(&rt) else {
        return ExitCode::from(NO_MEMORY);
    };
    let mut shelf = FileShelf::new(&rt);
    let mut out = StdSink::new(rt.stdout());
    let mut err = StdSink::new(rt.stderr());
    let status = erjang(rt.alloc(), words.as_slice(), &mut shelf, &mut out, &mut err);
    ExitCode::from(status)
}

/// The words behind the program's name, or none where one of them is not UTF-8.
fn words(rt: &HostRuntime) -> Result<Vec<String>, AllocError> {
    match env::args(rt) {
        Ok(args) => args.skip(1).collect(rt.alloc()),
        Err(error) if error.kind() == ErrorKind::OutOfMemory => Err(AllocError),
        Err(_) => Ok(Vec::new(rt.alloc())),
    }
}
