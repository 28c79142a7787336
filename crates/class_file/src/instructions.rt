//! Reads the instructions of a method (JVMS SE 7, 4.7.3 and 6.5).

ghost use Rattle.std.specs.Prelude.{◌≡◌, ◌+◌, ◌<◌, ◌^◌, length};
ghost use Rattle.class_file.specs.Gave.{Gave, Given};
ghost use Rattle.jvm_code.specs.ReadOps as spec;

use crate::fault::ClassFault;
use crate::operands::{branch, constant, invoke, load, simple, store, wide};
use crate::source::Source;
use crate::switches::{lookup_switch, table_switch};
use jvm_code::{Constant, Op};
use sqlite_items::Items;
use std::alloc::Global;

// An instruction from 170 on, behind its opcode.
fn control(
    alloc: Global,
    pool: &[Constant],
    opcode: u8,
    source: &mut Source<'_>,
) -> Result<Op, ClassFault>
    ensures { Gave (λ op. op) (spec.control pool.now opcode source.old.at source.old.rest) result source.new }
{
    match opcode {
        170 => table_switch(alloc, source),
        171 => lookup_switch(alloc, source),
        172 => Ok(Op::IReturn),
        184 => invoke(pool, source),
        196 => wide(source),
        198 => Ok(Op::IfNull(true, source.s2()?)),
        199 => Ok(Op::IfNull(false, source.s2()?)),
        _ => Err(ClassFault::OutsideProfile {
            offset: source.at(),
        }),
    }
}

// An instruction, behind its opcode.
fn behind(
    alloc: Global,
    pool: &[Constant],
    opcode: u8,
    source: &mut Source<'_>,
) -> Result<Op, ClassFault>
    ensures { Gave (λ op. op) (spec.behind pool.now opcode source.old.at source.old.rest) result source.new }
{
    match opcode {
        0..=20 => constant(pool, opcode, source),
        21..=53 => load(opcode, source),
        54..=86 => store(opcode, source),
        87..=152 => simple(opcode, source),
        153..=169 => branch(opcode, source),
        _ => control(alloc, pool, opcode, source),
    }
}

/// An instruction. The offset of the source is that in the code.
fn op(alloc: Global, pool: &[Constant], source: &mut Source<'_>) -> Result<Op, ClassFault>
    ensures { Gave (λ op. op) (spec.op pool.now source.old.at source.old.rest) result source.new }
{
    let opcode = source.u1()?;
    behind(alloc, pool, opcode, source)
}

/// The instructions of code that begins at the offset `start`, each with its offset in the code.
#[tactic(auto, using(crate::proofs::OpsRead::at_end, crate::proofs::OpsRead::stops))]
fn ops(
    alloc: Global,
    pool: &[Constant],
    start: usize,
    code: &[u8],
) -> Result<Items<(u16, Op)>, ClassFault>
    requires within { start + length code.now < 2 ^ 64 }
    requires short { length code.now < 2 ^ 16 }
    ensures { Given (λ ops. ops) (spec.ops (length code.now) pool.now start 0 code.now) result }
{
    let mut source = Source::new(code);
    let mut ops = Items::new(alloc);
    while source.left() > 0 {
        let pc = source.at();
        match op(alloc, pool, &mut source) {
            Ok(op) => {
                ops.push((pc as u16, op))?;
            }
            Err(fault) => return Err(fault.at(start + pc)),
        }
    }
    Ok(ops)
}

/// The code of so many bytes. Where fewer are left, what is wrong is the instruction whose bytes end.
pub(crate) fn code(
    alloc: Global,
    pool: &[Constant],
    count: u16,
    source: &mut Source<'_>,
) -> Result<Items<(u16, Op)>, ClassFault>
    ensures { Gave (λ ops. ops) (spec.code pool.now count source.old.at source.old.rest) result source.new }
{
    let start = source.at();
    let left = source.left();
    if left < count as usize {
        let bytes = source.bytes(left)?;
        ops(alloc, pool, start, bytes)?;
        return Err(ClassFault::NotClass {
            offset: start + left,
        });
    }
    let bytes = source.bytes(count as usize)?;
    ops(alloc, pool, start, bytes)
}
