//! Spells instructions (JVMS SE 7, 6.5).

ghost use Rattle.std.specs.Prelude.{◌≡◌, ◌+◌, ◌++◌, length, replicate, OnOk};
ghost use Rattle.std.specs.Int.{cast_unsigned, w64};
ghost use Rattle.std.specs.List.{flat_map};
ghost use Rattle.jvm_code.specs.declared.class.Op.TheVariants as o;
ghost use Rattle.jvm_code.specs.Padding.{pad};
ghost use Rattle.jvm_code.specs.Spelling as spelling;

use crate::numbers::{push_s1, push_s2, push_s4, push_u1, push_u2, push_u4};
use jvm_code::{Op, Width};
use std::alloc::AllocError;

/// An instruction on a local: the first of the opcodes that have the local in them, or the opcode with an operand.
fn push_local(
    out: &mut Vec<u8>,
    first: u8,
    opcode: u8,
    width: Width,
    local: u16,
) -> Result<(), AllocError>
    ensures { OnOk result (out.new.items ≡ out.old.items ++ spelling.local_bytes first opcode width local) }
{
    match width {
        Width::Short => push_u1(out, first as u64 + local as u64),
        Width::Byte => {
            push_u1(out, opcode as u64)?;
            push_u1(out, local as u64)
        }
        Width::Wide => {
            push_u1(out, 196)?;
            push_u1(out, opcode as u64)?;
            push_u2(out, local as u64)
        }
    }
}

/// An opcode with an index of two bytes.
fn push_index(out: &mut Vec<u8>, opcode: u8, index: u16) -> Result<(), AllocError>
    ensures { OnOk result (out.new.items ≡ out.old.items ++ (spelling.u1 opcode ++ spelling.u2 index)) }
{
    push_u1(out, opcode as u64)?;
    push_u2(out, index as u64)
}

/// An opcode with a signed number of two bytes.
fn push_short(out: &mut Vec<u8>, opcode: u8, number: i16) -> Result<(), AllocError>
    ensures { OnOk result (out.new.items ≡ out.old.items ++ (spelling.u1 opcode ++ spelling.s2 number)) }
{
    push_u1(out, opcode as u64)?;
    push_s2(out, number)
}

/// The zeros in front of a switch's operands, whose opcode stands at that offset in the code.
fn push_padding(out: &mut Vec<u8>, pc: u16) -> Result<(), AllocError>
    ensures { OnOk result (out.new.items ≡ out.old.items ++ replicate (pad (pc + 1)) 0) }
{
    let count = (4 - (pc as usize + 1) % 4) % 4;
    out.extend_from_slice(&[0; 3][..count])
}

fn push_offsets(out: &mut Vec<u8>, offsets: &[i32]) -> Result<(), AllocError>
    ensures { OnOk result (out.new.items ≡ out.old.items ++ flat_map spelling.s4 offsets.now) }
{
    for offset in offsets {
        push_s4(out, *offset)?;
    }
    Ok(())
}

/// The high value of so many from the low one on, in two's complement of eight bytes.
fn high_of(low: i32, offsets: &[i32]) -> u64
    ensures { result ≡ cast_unsigned w64 (spelling.high_of low offsets.now) }
{
    (low as i64 + offsets.len() as i64 - 1).cast_unsigned()
}

#[tactic(auto, using(crate::proofs::HighValue::high))]
fn push_high(out: &mut Vec<u8>, low: i32, offsets: &[i32]) -> Result<(), AllocError>
    ensures { OnOk result (out.new.items ≡ out.old.items ++ spelling.s4 (spelling.high_of low offsets.now)) }
{
    push_u4(out, high_of(low, offsets))
}

/// What both switches begin with: the opcode, the padding and the offset of the default.
fn push_switch(out: &mut Vec<u8>, opcode: u8, pc: u16, default: i32) -> Result<(), AllocError>
    ensures { OnOk result (out.new.items ≡ out.old.items ++ (spelling.u1 opcode ++ (replicate (pad (pc + 1)) 0 ++ spelling.s4 default))) }
{
    push_u1(out, opcode as u64)?;
    push_padding(out, pc)?;
    push_s4(out, default)
}

/// The low and the high value, and the offsets.
fn push_values(out: &mut Vec<u8>, low: i32, offsets: &[i32]) -> Result<(), AllocError>
    ensures { OnOk result (out.new.items ≡ out.old.items ++ (spelling.s4 low ++ (spelling.s4 (spelling.high_of low offsets.now) ++ flat_map spelling.s4 offsets.now))) }
{
    push_s4(out, low)?;
    push_high(out, low, offsets)?;
    push_offsets(out, offsets)
}

fn push_pair(out: &mut Vec<u8>, pair: (i32, i32)) -> Result<(), AllocError>
    ensures { OnOk result (out.new.items ≡ out.old.items ++ spelling.pair_bytes pair) }
{
    push_s4(out, pair.0)?;
    push_s4(out, pair.1)
}

fn push_pairs(out: &mut Vec<u8>, pairs: &[(i32, i32)]) -> Result<(), AllocError>
    ensures { OnOk result (out.new.items ≡ out.old.items ++ flat_map spelling.pair_bytes pairs.now) }
{
    for pair in pairs {
        push_pair(out, *pair)?;
    }
    Ok(())
}

/// A `tableswitch` that stands at that offset in the code.
fn push_table(
    out: &mut Vec<u8>,
    pc: u16,
    default: i32,
    low: i32,
    offsets: &[i32],
) -> Result<(), AllocError>
    ensures { OnOk result (out.new.items ≡ out.old.items ++ spelling.op_bytes pc (o.TableSwitch default low offsets.now)) }
{
    push_switch(out, 170, pc, default)?;
    push_values(out, low, offsets)?;
    Ok(())
}

/// The count of pairs, and the pairs.
fn push_counted_pairs(out: &mut Vec<u8>, pairs: &[(i32, i32)]) -> Result<(), AllocError>
    ensures { OnOk result (out.new.items ≡ out.old.items ++ (spelling.u4 (length pairs.now) ++ flat_map spelling.pair_bytes pairs.now)) }
{
    push_u4(out, pairs.len() as u64)?;
    push_pairs(out, pairs)
}

/// An instruction that stands at an offset in its code.
fn push_op(out: &mut Vec<u8>, pc: u16, op: &Op) -> Result<(), AllocError>
    ensures { OnOk result (out.new.items ≡ out.old.items ++ spelling.op_bytes pc op.now) }
{
    match op {
        Op::Null => push_u1(out, 1),
        Op::IConst(value) => push_u1(out, 3 + value.cast_unsigned() as u64),
        Op::Bipush(value) => {
            push_u1(out, 16)?;
            push_s1(out, *value)
        }
        Op::Sipush(value) => push_short(out, 17, *value),
        Op::Ldc(index) => {
            push_u1(out, 18)?;
            push_u1(out, *index as u64)
        }
        Op::LdcW(index) => push_index(out, 19, *index),
        Op::Ldc2W(index) => push_index(out, 20, *index),
        Op::ILoad(width, local) => push_local(out, 26, 21, *width, *local),
        Op::ALoad(width, local) => push_local(out, 42, 25, *width, *local),
        Op::IStore(width, local) => push_local(out, 59, 54, *width, *local),
        Op::AStore(width, local) => push_local(out, 75, 58, *width, *local),
        Op::Pop => push_u1(out, 87),
        Op::Dup => push_u1(out, 89),
        Op::Swap => push_u1(out, 95),
        Op::IAdd => push_u1(out, 96),
        Op::ISub => push_u1(out, 100),
        Op::If(opcode, offset) | Op::IfIcmp(opcode, offset) | Op::IfAcmp(opcode, offset) => {
            push_short(out, *opcode, *offset)
        }
        Op::IfNull(null, offset) => push_short(out, if *null { 198 } else { 199 }, *offset),
        Op::Goto(offset) => push_short(out, 167, *offset),
        Op::TableSwitch(default, low, offsets) => {
            push_table(out, pc, *default, *low, offsets.as_slice())
        }
        Op::LookupSwitch(default, pairs) => {
            push_switch(out, 171, pc, *default)?;
            push_counted_pairs(out, pairs.as_slice())
        }
        Op::IReturn => push_u1(out, 172),
        Op::Invoke(index) => push_index(out, 184, *index),
    }
}

/// Appends instructions, each at its offset (4.7.3).
pub(crate) fn push_code(out: &mut Vec<u8>, code: &[(u16, Op)]) -> Result<(), AllocError>
    ensures { OnOk result (out.new.items ≡ out.old.items ++ spelling.code_bytes code.now) }
{
    for (pc, op) in code {
        push_op(out, *pc, op)?;
    }
    Ok(())
}
