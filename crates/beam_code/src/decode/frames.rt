//! Labels, the heads of functions, and frames.

ghost use Rattle.std.specs.Prelude.{◌≡◌, option_map};
ghost use Rattle.beam_code.specs.Decoded as spec;
ghost use Rattle.beam_code.specs.Opcode as o;
ghost use Rattle.beam_code.specs.Seen.{opcode_seen};

use crate::{Opcode, Operand, Src};

/// `{label,n}`
pub(super) fn label(operands: &[Operand]) -> Option<Opcode<'_>>
    ensures { option_map opcode_seen result ≡ spec.of_count o.Label operands.now }
{
    match operands {
        [Operand::Count(label)] => Some(Opcode::Label { label: *label }),
        _ => None,
    }
}

/// `{func_info,{atom,M},{atom,F},n}`
pub(super) fn func_info(operands: &[Operand]) -> Option<Opcode<'_>>
    ensures { option_map opcode_seen result ≡ spec.func_info operands.now }
{
    match operands {
        [
            Operand::Src(Src::Atom(owner)),
            Operand::Src(Src::Atom(name)),
            Operand::Count(arity),
        ] => Some(Opcode::FuncInfo {
            owner,
            name,
            arity: *arity,
        }),
        _ => None,
    }
}

/// `{allocate,n,Live}`, `{allocate_heap,n,H,Live}`
pub(super) fn allocate(operands: &[Operand]) -> Option<Opcode<'_>>
    ensures { option_map opcode_seen result ≡ spec.of_counts o.Allocate operands.now }
{
    match operands {
        [Operand::Count(size), Operand::Count(live)] => Some(Opcode::Allocate {
            size: *size,
            live: *live,
        }),
        _ => None,
    }
}

/// `{test_heap,H,Live}`
pub(super) fn test_heap(operands: &[Operand]) -> Option<Opcode<'_>>
    ensures { option_map opcode_seen result ≡ spec.of_count o.TestHeap operands.now }
{
    match operands {
        [Operand::Count(live)] => Some(Opcode::TestHeap { live: *live }),
        _ => None,
    }
}

/// `{deallocate,n}`
pub(super) fn deallocate(operands: &[Operand]) -> Option<Opcode<'_>>
    ensures { option_map opcode_seen result ≡ spec.of_count o.Deallocate operands.now }
{
    match operands {
        [Operand::Count(size)] => Some(Opcode::Deallocate { size: *size }),
        _ => None,
    }
}

/// `{trim,n,m}`
pub(super) fn trim(operands: &[Operand]) -> Option<Opcode<'_>>
    ensures { option_map opcode_seen result ≡ spec.of_counts o.Trim operands.now }
{
    match operands {
        [Operand::Count(dropped), Operand::Count(left)] => Some(Opcode::Trim {
            dropped: *dropped,
            left: *left,
        }),
        _ => None,
    }
}

/// `{init_yregs,{list,[d]}}`
pub(super) fn init_yregs(operands: &[Operand]) -> Option<Opcode<'_>>
    ensures { option_map opcode_seen result ≡ spec.init_yregs operands.now }
{
    match operands {
        [Operand::Regs(registers)] => Some(Opcode::InitYregs {
            registers: registers.as_slice(),
        }),
        _ => None,
    }
}
