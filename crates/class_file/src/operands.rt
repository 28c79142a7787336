//! Reads instructions by families of opcodes (JVMS SE 7, 6.5). What is wrong is told at the byte that is.

ghost use Rattle.std.specs.Prelude.{◌≡◌, slice_get};
ghost use Rattle.class_file.specs.Gave.{Gave};
ghost use Rattle.class_file.specs.Verdicts.{verdict_of};
ghost use Rattle.jvm_code.specs.ReadOps as spec;
ghost use Rattle.jvm_code.specs.Reader as reader;

use crate::fault::ClassFault;
use crate::source::Source;
use crate::verdict::{Verdict, settle};
use jvm_code::{Constant, Op, Width};

// An opcode that the profile does not have.
fn outside(source: &Source<'_>) -> Result<Op, ClassFault>
    ensures { Gave (λ op. op) (reader.outside source.now.at source.now.rest) result source.now }
{
    Err(ClassFault::OutsideProfile {
        offset: source.at(),
    })
}

// What `ldc` and `ldc_w` load.
fn loadable(pool: &[Constant], index: u16) -> Verdict
    ensures { verdict_of result ≡ spec.loadable (slice_get pool.now index) }
{
    match pool.get(index as usize) {
        Some(Constant::Integer(_)) => Verdict::Fine,
        Some(Constant::Str(_)) => Verdict::Fine,
        Some(Constant::Class(_)) => Verdict::Forbidden,
        _ => Verdict::Broken,
    }
}

// What `ldc2_w` loads.
fn loadable_wide(pool: &[Constant], index: u16) -> Verdict
    ensures { verdict_of result ≡ spec.loadable_wide (slice_get pool.now index) }
{
    match pool.get(index as usize) {
        Some(Constant::Long(_)) => Verdict::Fine,
        _ => Verdict::Broken,
    }
}

// What `invokestatic` calls.
fn callable(pool: &[Constant], index: u16) -> Verdict
    ensures { verdict_of result ≡ spec.callable (slice_get pool.now index) }
{
    match pool.get(index as usize) {
        Some(Constant::Methodref(_, _)) => Verdict::Fine,
        _ => Verdict::Broken,
    }
}

fn ldc(pool: &[Constant], source: &mut Source<'_>) -> Result<Op, ClassFault>
    ensures { Gave (λ op. op) (spec.ldc pool.now source.old.at source.old.rest) result source.new }
{
    let at = source.at();
    let index = source.u1()?;
    settle(loadable(pool, index as u16), at)?;
    Ok(Op::Ldc(index))
}

fn ldc_w(pool: &[Constant], source: &mut Source<'_>) -> Result<Op, ClassFault>
    ensures { Gave (λ op. op) (spec.ldc_w pool.now source.old.at source.old.rest) result source.new }
{
    let at = source.at();
    let index = source.u2()?;
    settle(loadable(pool, index), at)?;
    Ok(Op::LdcW(index))
}

fn ldc2_w(pool: &[Constant], source: &mut Source<'_>) -> Result<Op, ClassFault>
    ensures { Gave (λ op. op) (spec.ldc2_w pool.now source.old.at source.old.rest) result source.new }
{
    let at = source.at();
    let index = source.u2()?;
    settle(loadable_wide(pool, index), at)?;
    Ok(Op::Ldc2W(index))
}

/// `invokestatic`, behind its opcode.
pub(crate) fn invoke(pool: &[Constant], source: &mut Source<'_>) -> Result<Op, ClassFault>
    ensures { Gave (λ op. op) (spec.invoke pool.now source.old.at source.old.rest) result source.new }
{
    let at = source.at();
    let index = source.u2()?;
    settle(callable(pool, index), at)?;
    Ok(Op::Invoke(index))
}

/// A null, an integer or an entry of the pool is pushed.
pub(crate) fn constant(
    pool: &[Constant],
    opcode: u8,
    source: &mut Source<'_>,
) -> Result<Op, ClassFault>
    ensures { Gave (λ op. op) (spec.constant pool.now opcode source.old.at source.old.rest) result source.new }
{
    match opcode {
        1 => Ok(Op::Null),
        2..=8 => Ok(Op::IConst(opcode as i8 - 3)),
        16 => Ok(Op::Bipush(source.s1()?)),
        17 => Ok(Op::Sipush(source.s2()?)),
        18 => ldc(pool, source),
        19 => ldc_w(pool, source),
        20 => ldc2_w(pool, source),
        _ => outside(source),
    }
}

/// A local is loaded.
pub(crate) fn load(opcode: u8, source: &mut Source<'_>) -> Result<Op, ClassFault>
    ensures { Gave (λ op. op) (spec.load opcode source.old.at source.old.rest) result source.new }
{
    match opcode {
        21 => Ok(Op::ILoad(Width::Byte, source.u1()? as u16)),
        25 => Ok(Op::ALoad(Width::Byte, source.u1()? as u16)),
        26..=29 => Ok(Op::ILoad(Width::Short, opcode as u16 - 26)),
        42..=45 => Ok(Op::ALoad(Width::Short, opcode as u16 - 42)),
        _ => outside(source),
    }
}

/// A local is stored.
pub(crate) fn store(opcode: u8, source: &mut Source<'_>) -> Result<Op, ClassFault>
    ensures { Gave (λ op. op) (spec.store opcode source.old.at source.old.rest) result source.new }
{
    match opcode {
        54 => Ok(Op::IStore(Width::Byte, source.u1()? as u16)),
        58 => Ok(Op::AStore(Width::Byte, source.u1()? as u16)),
        59..=62 => Ok(Op::IStore(Width::Short, opcode as u16 - 59)),
        75..=78 => Ok(Op::AStore(Width::Short, opcode as u16 - 75)),
        _ => outside(source),
    }
}

/// The stack alone is used.
pub(crate) fn simple(opcode: u8, source: &mut Source<'_>) -> Result<Op, ClassFault>
    ensures { Gave (λ op. op) (spec.simple opcode source.old.at source.old.rest) result source.new }
{
    match opcode {
        87 => Ok(Op::Pop),
        89 => Ok(Op::Dup),
        95 => Ok(Op::Swap),
        96 => Ok(Op::IAdd),
        100 => Ok(Op::ISub),
        _ => outside(source),
    }
}

/// A branch on what stands on the stack.
pub(crate) fn branch(opcode: u8, source: &mut Source<'_>) -> Result<Op, ClassFault>
    ensures { Gave (λ op. op) (spec.branch opcode source.old.at source.old.rest) result source.new }
{
    match opcode {
        153..=158 => Ok(Op::If(opcode, source.s2()?)),
        159..=164 => Ok(Op::IfIcmp(opcode, source.s2()?)),
        165..=166 => Ok(Op::IfAcmp(opcode, source.s2()?)),
        167 => Ok(Op::Goto(source.s2()?)),
        _ => outside(source),
    }
}

fn widened(opcode: u8, source: &mut Source<'_>) -> Result<Op, ClassFault>
    ensures { Gave (λ op. op) (spec.widened opcode source.old.at source.old.rest) result source.new }
{
    match opcode {
        21 => Ok(Op::ILoad(Width::Wide, source.u2()?)),
        25 => Ok(Op::ALoad(Width::Wide, source.u2()?)),
        54 => Ok(Op::IStore(Width::Wide, source.u2()?)),
        58 => Ok(Op::AStore(Width::Wide, source.u2()?)),
        _ => outside(source),
    }
}

/// An instruction on a local of two bytes, behind `wide`.
pub(crate) fn wide(source: &mut Source<'_>) -> Result<Op, ClassFault>
    ensures { Gave (λ op. op) (spec.wide source.old.at source.old.rest) result source.new }
{
    let opcode = source.u1()?;
    widened(opcode, source)
}
