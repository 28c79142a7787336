//! How a function begins.

ghost use Rattle.std.specs.Prelude.{◌≡◌, map};
ghost use Rattle.beam_code.specs.Code.{function_code, opcode as opcode_of};
ghost use Rattle.beam_code.specs.Labels as spec;
ghost use Rattle.beam_code.specs.Seen.{opcode_seen};

use crate::labels::defined_by;
use beam_code::{Function, Instr, Opcode};
use ej_term::Text;

/// Whether the function of the module of that name begins with a label, at most one `line`, and its head.
pub(crate) fn begins_well(owner: &Text, function: &Function) -> bool
    ensures { result ≡ spec.begins_well owner.now (function_code function.now) }
{
    match function.code.as_slice().split_first() {
        None => false,
        Some((first, rest)) => {
            defined_by(first.opcode()).is_some() && is_head(owner, function, without_line(rest))
        }
    }
}

// The code behind a `line`, where it begins with one.
fn without_line(code: &[Instr]) -> &[Instr]
    ensures { map opcode_of result.now ≡ spec.without_line (map opcode_of code.now) }
{
    match code.split_first() {
        None => code,
        Some((first, rest)) => { if is_line(first.opcode()) { rest } else { code } }
    }
}

fn is_line(opcode: Opcode<'_>) -> bool
    ensures { result ≡ spec.is_line (opcode_seen opcode.entry) }
{
    matches!(opcode, Opcode::Line)
}

// `func_info` of the function, then its entry label.
fn is_head(owner: &Text, function: &Function, code: &[Instr]) -> bool
    ensures { result ≡ spec.is_head owner.now (function_code function.now) (map opcode_of code.now) }
{
    match code {
        [info, entry, ..] => is_info(owner, function, info.opcode())
            && is_that(function.entry, defined_by(entry.opcode())),
        _ => false,
    }
}

fn is_info(owner: &Text, function: &Function, opcode: Opcode<'_>) -> bool
    ensures { result ≡ spec.is_info owner.now (function_code function.now) (opcode_seen opcode.entry) }
{
    match opcode {
        Opcode::FuncInfo {
            owner: module,
            name,
            arity,
        } => module == owner && name == &function.name && arity == u32::from(function.arity),
        _ => false,
    }
}

fn is_that(label: u32, defined: Option<u32>) -> bool
    ensures { result ≡ spec.is_that label defined }
{
    match defined {
        None => false,
        Some(defined) => defined == label,
    }
}
