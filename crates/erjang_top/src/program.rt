//! The top call.

ghost use Rattle.std.specs.Prelude.{map, string_bytes, IfSome, IfNone};
ghost use Rattle.erjang_top.specs.Words.{command_of};
ghost use Rattle.erjang_top.specs.Program.{AnswersCommand, Usage};

use crate::classes::verify_each;
use crate::compile::compile;
use crate::report::{report, usage};
use crate::words::{Command, command_of};
use ej_outside::{Shelf, Sink};
use std::alloc::Global;

/// Does what the words say, and answers the status. The words leave out the program's name. There are 1 to 1,000 files, and
/// no word is empty.
///
/// `compile OUTDIR FILE...` puts the class of each source FILE under `OUTDIR/NAME.class`, where NAME is the mangled name of
/// its module. The files are read in the order of the words, and each is wholly checked before the next is read; then no
/// two modules may have one name; then the classes are put. It takes all its memory before the first put, and writes
/// nothing on `out`.
///
/// `verify FILE...` reads each class FILE in the order of the words, checks it wholly and writes `ok FILE` on `out`, before
/// the next is read. It stops at the first that is refused.
///
/// | Status | Cause | Line on `err` |
/// |---|---|---|
/// | 0 | the classes stand, or are verified | none |
/// | 1 | FILE is the first that is refused | `FILE: ` and the first cause |
/// | 2 | other words | how the program is used |
/// | 3 | FILE could not be read, and none before it is refused | `FILE: read failed` |
/// | 4 | a put failed, or a write on `out` or `err` | none, or a front of one of those |
/// | 5 | memory was wanting | none |
///
/// | First cause | When |
/// |---|---|
/// | `absent`, `longer than 67108864 bytes` | there is no such file, or it is too long |
/// | `form K: bad text`, `form K: too deep` | form K is the first that does not read |
/// | `form K: bad form` | form K is out of order, or not of its shape |
/// | `function F, instruction I: WORD outside the profile` | an instruction, a test or a builtin of that name that is not known |
/// | `function F, instruction I: bad instruction` | the form is no instruction |
/// | `label L: defined twice` | the module defines L a second time |
/// | `function F, instruction I: label L missing` | the instruction may not name L |
/// | `function F: bad entry` | the function does not begin as it has to |
/// | `function F, instruction I: bad arity` | a call or a fun of another arity than what it names |
/// | `function F: undefined slot` | no assignment of slots is good for the function |
/// | `function F: weight W above 32767` | the function weighs too much |
/// | `pool weight W above 65534` | the constants weigh too much |
/// | `function F, instruction I: literal of W bytes above 65535` | the print of a literal is too long |
/// | `function F, instruction I: not built` | the first instruction that is not compiled so far |
/// | `same module as file K` | every file is a module's, and this is the first with the name of an earlier one's, file K |
/// | `byte O: no class file`, `byte O: outside the profile` | of a class, the first field that fails: the format is broken, or the profile forbids it |
/// | `method M: bad stack map` | of a class, the first method that is at fault has no list of frames, or one that does not fit its code |
/// | `method M, offset O: not typed`, `.. not linked` | of a class, the first instruction that is at fault: its types are not fit, or it calls no method that there is |
///
/// Files count from 1; forms, functions, methods and the instructions of a function count from 0; WORD is in UTF-8; bytes
/// are counted in the file from 0, and offsets in the code of the method.
pub fn erjang<S: Shelf, O: Sink, E: Sink>(
    alloc: Global,
    words: &[String],
    shelf: &mut S,
    out: &mut O,
    err: &mut E,
) -> u8
    ensures usage { IfNone (command_of (map string_bytes words.now)) (Usage result (S.state shelf.old) (S.state shelf.new) (O.state out.old) (O.state out.new) (E.state err.old) (E.state err.new)) }
    ensures answers { IfSome (command_of (map string_bytes words.now)) (λ command. AnswersCommand command result (S.state shelf.old) (S.state shelf.new) (O.state out.old) (O.state out.new) (E.state err.old) (E.state err.new)) }
{
    match command_of(words) {
        None => usage(err),
        Some(Command::Compile(words)) => {
            let outcome = compile(alloc, shelf, words);
            report(alloc, err, outcome)
        }
        Some(Command::Verify(files)) => {
            let verified = verify_each(alloc, shelf, out, files);
            report(alloc, err, verified)
        }
    }
}
