//! Writes instructions (JVMS SE 7, chapter 6).

ghost use Rattle.std.specs.Prelude.{◌≡◌, ◌≤◌, ◌∷◌, ◌++◌, map, OnOk};
ghost use Rattle.std.specs.List.{flat_map, AllByRecursion};
ghost use Rattle.erjang_top.specs.first_path.ClassFile.{u2, op_bytes, local_bytes};
ghost use Rattle.erjang_top.specs.first_path.ModuleClass.{width_of, push_number};
ghost use Rattle.erjang_top.specs.first_path.Written.{op, op_fits};

use super::bytes::push_u2;
use std::alloc::AllocError;

const ICONST_0: u8 = 3;

const SIPUSH: u8 = 17;

const LDC_W: u8 = 19;

const LDC2_W: u8 = 20;

const ALOAD: u8 = 25;

const ALOAD_0: u8 = 42;

const ASTORE: u8 = 58;

const ASTORE_0: u8 = 75;

const IRETURN: u8 = 172;

const INVOKESTATIC: u8 = 184;

const WIDE: u8 = 196;

/// The greatest number that has an `iconst` of its own.
const LAST_ICONST: u8 = 5;

/// The greatest local that has an `aload` and an `astore` of its own.
const LAST_SHORT: u16 = 3;

/// The greatest local that an operand of one byte holds.
const LAST_BYTE: u16 = 255;

/// An instruction.
#[derive(Clone, Copy)]
pub enum Op {
    /// `iconst_0` to `iconst_5`
    IConst(u8),
    SIPush(i16),
    /// `ldc_w`, of the String at that index of the constant pool
    LdcW(u16),
    /// `ldc2_w`, of the Long at that index of the constant pool
    Ldc2W(u16),
    /// `aload` of a local, in its shortest form
    ALoad(u16),
    /// `astore` of a local, in its shortest form
    AStore(u16),
    /// `invokestatic`, of the method at that index of the constant pool
    InvokeStatic(u16),
    IReturn,
}

/// The instruction that pushes a number.
pub fn push_number(number: u8) -> Op
    ensures is { op result ≡ push_number number }
    ensures fits { op_fits result }
{
    if number <= LAST_ICONST {
        Op::IConst(number)
    } else {
        Op::SIPush(number as i16)
    }
}

/// Appends an instruction.
pub fn push_op(code: &mut Vec<u8>, instruction: Op) -> Result<(), AllocError>
    requires { op_fits instruction }
    ensures { OnOk result (code.new.items ≡ code.old.items ++ op_bytes (op instruction)) }
{
    match instruction {
        Op::IConst(value) => code.push(ICONST_0 + value)?,
        Op::SIPush(value) => {
            code.push(SIPUSH)?;
            code.extend_from_slice(&value.to_be_bytes())?;
        }
        Op::LdcW(index) => push_indexed(code, LDC_W, index)?,
        Op::Ldc2W(index) => push_indexed(code, LDC2_W, index)?,
        Op::ALoad(local) => push_local(code, ALOAD_0, ALOAD, local)?,
        Op::AStore(local) => push_local(code, ASTORE_0, ASTORE, local)?,
        Op::InvokeStatic(method) => push_indexed(code, INVOKESTATIC, method)?,
        Op::IReturn => code.push(IRETURN)?,
    }
    Ok(())
}

/// Appends instructions one after the other.
pub fn push_ops(code: &mut Vec<u8>, instructions: &[Op]) -> Result<(), AllocError>
    requires { AllByRecursion op_fits instructions.now }
    ensures { OnOk result (code.new.items ≡ code.old.items ++ flat_map op_bytes (map op instructions.now)) }
{
    for instruction in instructions {
        push_op(code, *instruction)?;
    }
    Ok(())
}

/// Appends an opcode and an index of the constant pool.
fn push_indexed(code: &mut Vec<u8>, opcode: u8, index: u16) -> Result<(), AllocError>
    ensures { OnOk result (code.new.items ≡ code.old.items ++ opcode ∷ u2 index) }
{
    code.push(opcode)?;
    push_u2(code, index)
}

/// Appends an instruction on a local: the one of the four from `first` on that has the local in it, or the
/// opcode with the local behind it, in two bytes where `wide` is before it.
fn push_local(code: &mut Vec<u8>, first: u8, opcode: u8, local: u16) -> Result<(), AllocError>
    requires { first ≤ 252 }
    ensures { OnOk result (code.new.items ≡ code.old.items ++ local_bytes first opcode (width_of local) local) }
{
    if local <= LAST_SHORT {
        code.push(first + local as u8)?;
        return Ok(());
    }
    if local <= LAST_BYTE {
        code.push(opcode)?;
        code.push(local as u8)?;
        return Ok(());
    }
    code.push(WIDE)?;
    push_indexed(code, opcode, local)
}
