//! Exceptions.

ghost use Rattle.std.specs.Prelude.{◌≡◌, option_map};
ghost use Rattle.beam_code.specs.Decoded as spec;
ghost use Rattle.beam_code.specs.Opcode as o;
ghost use Rattle.beam_code.specs.Seen.{unmatched_seen, opcode_seen};

use crate::{Opcode, Operand, Reg, Src, Unmatched};

/// `{'try',{y,n},{f,L}}`, `{'catch',{y,n},{f,L}}`
pub(super) fn try_or_catch(operands: &[Operand]) -> Option<Opcode<'_>>
    ensures { option_map opcode_seen result ≡ spec.try operands.now }
{
    match operands {
        [Operand::Reg(Reg::Y(slot)), Operand::Label(handler)] => Some(Opcode::Try {
            slot: *slot,
            handler: *handler,
        }),
        _ => None,
    }
}

/// `{try_end,{y,n}}`
pub(super) fn try_end(operands: &[Operand]) -> Option<Opcode<'_>>
    ensures { option_map opcode_seen result ≡ spec.of_slot o.TryEnd operands.now }
{
    match operands {
        [Operand::Reg(Reg::Y(slot))] => Some(Opcode::TryEnd { slot: *slot }),
        _ => None,
    }
}

/// `{try_case,{y,n}}`
pub(super) fn try_case(operands: &[Operand]) -> Option<Opcode<'_>>
    ensures { option_map opcode_seen result ≡ spec.of_slot o.TryCase operands.now }
{
    match operands {
        [Operand::Reg(Reg::Y(slot))] => Some(Opcode::TryCase { slot: *slot }),
        _ => None,
    }
}

/// `{catch_end,{y,n}}`
pub(super) fn catch_end(operands: &[Operand]) -> Option<Opcode<'_>>
    ensures { option_map opcode_seen result ≡ spec.of_slot o.CatchEnd operands.now }
{
    match operands {
        [Operand::Reg(Reg::Y(slot))] => Some(Opcode::CatchEnd { slot: *slot }),
        _ => None,
    }
}

/// `{badmatch,s}`, `{case_end,s}`, `{try_case_end,s}`
pub(super) fn unmatched(reason: Unmatched, operands: &[Operand]) -> Option<Opcode<'_>>
    ensures { option_map opcode_seen result ≡ spec.of_source (o.Unmatches (unmatched_seen reason)) operands.now }
{
    match operands {
        [Operand::Src(value)] => Some(Opcode::Unmatches { reason, value }),
        _ => None,
    }
}

/// `{bif,raise,{f,0},[d,s],d}`
pub(super) fn raise(operands: &[Operand]) -> Option<Opcode<'_>>
    ensures { option_map opcode_seen result ≡ spec.raise operands.now }
{
    match operands {
        [Operand::Label(_), Operand::Srcs(arguments), Operand::Reg(_)] => {
            raise_by(arguments.as_slice())
        }
        _ => None,
    }
}

fn raise_by(arguments: &[Src]) -> Option<Opcode<'_>>
    ensures { option_map opcode_seen result ≡ spec.raise_by arguments.now }
{
    match arguments {
        [Src::Reg(trace), reason] => Some(Opcode::Raise {
            trace: *trace,
            reason,
        }),
        _ => None,
    }
}
