//! Instructions that are made and told apart, and terms that hold what is foreign.

use beam_code::{Instr, Opcode, Operand, Reg, Src, holds_foreign};
use ej_term::{AsmTerm, Text};
use sqlite_items::Items;
use std::alloc::{AllocError, Global};
use std::test::Fail;

// `{move,{x,N},{y,2}}`.
fn moves(alloc: Global, number: u16) -> Result<Option<Instr>, AllocError> {
    let mut operands = Items::new(alloc);
    operands.push(Operand::Src(Src::Reg(Reg::X(number))))?;
    operands.push(Operand::Reg(Reg::Y(2)))?;
    match genop_table::instruction(b"move") {
        Some(row) => Ok(Instr::make(row, operands)),
        None => Ok(None),
    }
}

#[test]
fn fits_and_is_told(rt: HostRuntime) -> Result<(), Fail> {
    let instr = moves(rt.alloc(), 1023)?.ok_or("an instruction")?;
    let Opcode::Move { from, to } = instr.opcode() else {
        assert!(rt; false);
        return Ok(());
    };
    assert!(rt; matches!(from, Src::Reg(Reg::X(1023))));
    assert_eq!(rt; to, Reg::Y(2));
    assert!(rt; moves(rt.alloc(), 1024)?.is_none());
    Ok(())
}

#[test]
fn finds_what_is_foreign(rt: HostRuntime) -> Result<(), Fail> {
    let mut parts = Items::new(rt.alloc());
    parts.push(AsmTerm::Int(1))?;
    assert!(rt; !holds_foreign(&AsmTerm::Tuple(parts)));
    let mut parts = Items::new(rt.alloc());
    parts.push(AsmTerm::Opaque(Text::make(rt.alloc(), "1.5")?))?;
    assert!(rt; holds_foreign(&AsmTerm::Tuple(parts)));
    Ok(())
}
