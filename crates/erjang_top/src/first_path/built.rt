//! The first instruction of a module that is not compiled.

ghost use Rattle.std.specs.Prelude.{◌≡◌, true, map, MatchOption};
ghost use Rattle.std.specs.List.{list_all};
ghost use Rattle.erjang_top.specs.first_path.Built.{AllBuilt, FirstUnbuilt, FirstUnknown};
ghost use Rattle.erjang_top.specs.first_path.Opcode.{opcode, is_known as knows_opcode};

use crate::first_path::code::{Code, decode};
use beam_code::{Instr, Module};

/// An instruction of a module: the function and the instruction in it, both counted from 0.
#[derive(Clone, Copy)]
pub(crate) struct Place {
    pub(crate) func: usize,
    pub(crate) index: usize,
}

/// The first instruction of the module, in the order of the file, that is none of those that are read so far; none where
/// each is.
pub(crate) fn first_unbuilt(module: &Module) -> Option<Place>
    ensures { MatchOption result (AllBuilt «module».now) (λ place. FirstUnbuilt «module».now place.func place.index) }
{
    for (func, function) in module.functions.as_slice().iter().enumerate() {
        if let Some(index) = first_unknown(function.code.as_slice()) {
            return Some(Place { func, index });
        }
    }
    None
}

// The first of a function's instructions that is not read so far.
fn first_unknown(code: &[Instr]) -> Option<usize>
    ensures { MatchOption result (list_all knows_opcode (map opcode code.now) ≡ true) (FirstUnknown (map opcode code.now)) }
{
    for (index, instr) in code.iter().enumerate() {
        if !is_known(instr) {
            return Some(index);
        }
    }
    None
}

fn is_known(instr: &Instr) -> bool
    ensures { result ≡ knows_opcode (opcode instr.now) }
{
    match decode(instr) {
        Code::Other => false,
        _ => true,
    }
}
