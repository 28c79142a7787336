//! Receiving.

ghost use Rattle.std.specs.Prelude.{◌≡◌, option_map};
ghost use Rattle.beam_code.specs.Decoded as spec;
ghost use Rattle.beam_code.specs.Opcode as o;
ghost use Rattle.beam_code.specs.Seen.{opcode_seen};

use crate::{Marking, Opcode, Operand};

/// `{loop_rec,{f,L},d}`
pub(super) fn loop_rec(operands: &[Operand]) -> Option<Opcode<'_>>
    ensures { option_map opcode_seen result ≡ spec.loop_rec operands.now }
{
    match operands {
        [Operand::Label(fail), Operand::Reg(to)] => Some(Opcode::LoopRec {
            fail: *fail,
            to: *to,
        }),
        _ => None,
    }
}

/// `{loop_rec_end,{f,L}}`
pub(super) fn loop_rec_end(operands: &[Operand]) -> Option<Opcode<'_>>
    ensures { option_map opcode_seen result ≡ spec.of_label o.LoopRecEnd operands.now }
{
    match operands {
        [Operand::Label(label)] => Some(Opcode::LoopRecEnd { label: *label }),
        _ => None,
    }
}

/// `{wait,{f,L}}`
pub(super) fn wait(operands: &[Operand]) -> Option<Opcode<'_>>
    ensures { option_map opcode_seen result ≡ spec.of_label o.Wait operands.now }
{
    match operands {
        [Operand::Label(label)] => Some(Opcode::Wait { label: *label }),
        _ => None,
    }
}

/// `{wait_timeout,{f,L},s}`
pub(super) fn wait_timeout(operands: &[Operand]) -> Option<Opcode<'_>>
    ensures { option_map opcode_seen result ≡ spec.wait_timeout operands.now }
{
    match operands {
        [Operand::Label(label), Operand::Src(timeout)] => Some(Opcode::WaitTimeout {
            label: *label,
            timeout,
        }),
        _ => None,
    }
}

/// `{recv_marker_reserve,d}`
pub(super) fn marker_reserve(operands: &[Operand]) -> Option<Opcode<'_>>
    ensures { option_map opcode_seen result ≡ spec.of_register (λ to. o.RecvMarker (o.Reserve to)) operands.now }
{
    match operands {
        [Operand::Reg(to)] => Some(Opcode::RecvMarker {
            marking: Marking::Reserve { to: *to },
        }),
        _ => None,
    }
}

/// `{recv_marker_bind,d,d}`
pub(super) fn marker_bind(operands: &[Operand]) -> Option<Opcode<'_>>
    ensures { option_map opcode_seen result ≡ spec.of_registers (λ marker reference. o.RecvMarker (o.Bind marker reference)) operands.now }
{
    match operands {
        [Operand::Reg(marker), Operand::Reg(reference)] => Some(Opcode::RecvMarker {
            marking: Marking::Bind {
                marker: *marker,
                reference: *reference,
            },
        }),
        _ => None,
    }
}

/// `{recv_marker_use,d}`
pub(super) fn marker_use(operands: &[Operand]) -> Option<Opcode<'_>>
    ensures { option_map opcode_seen result ≡ spec.of_register (λ reference. o.RecvMarker (o.Use reference)) operands.now }
{
    match operands {
        [Operand::Reg(reference)] => Some(Opcode::RecvMarker {
            marking: Marking::Use {
                reference: *reference,
            },
        }),
        _ => None,
    }
}

/// `{recv_marker_clear,d}`
pub(super) fn marker_clear(operands: &[Operand]) -> Option<Opcode<'_>>
    ensures { option_map opcode_seen result ≡ spec.of_register (λ reference. o.RecvMarker (o.Clear reference)) operands.now }
{
    match operands {
        [Operand::Reg(reference)] => Some(Opcode::RecvMarker {
            marking: Marking::Clear {
                reference: *reference,
            },
        }),
        _ => None,
    }
}
