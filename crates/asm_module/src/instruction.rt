//! An instruction of a form, or the first case by which it is refused.

ghost use Rattle.std.specs.Prelude.{◌≡◌, List, Option, option_map, option_and_then};
ghost use Rattle.genop_table.specs.InstructionRows.{instruction_of as row_seen};
ghost use Rattle.beam_code.specs.Parts.{parts_of};
ghost use Rattle.asm_module.specs.Instructions as spec;
ghost use Rattle.asm_module.specs.Seen.{Gives, ReadsAs, written_seen};

use crate::FormFault;
use crate::names::{
    Written, has_foreign, number_in, row_named, row_of, terms_of, unknown_name, written_form,
};
use crate::operands::operands_of;
use crate::part_fault::PartFault;
use beam_code::{Instr, Operand};
use ej_term::AsmTerm;
use genop_table::InstructionRow;
use sqlite_items::Items;
use std::alloc::Global;

/// The instruction of a form; function and index are told in the fault.
pub(crate) fn instruction(
    alloc: Global,
    func: usize,
    index: usize,
    term: &AsmTerm,
) -> Result<Instr, FormFault>
    ensures { Gives parts_of result (spec.instruction func index term.now) }
{
    let Some(written) = written_form(term) else {
        return Err(FormFault::BadInstruction { func, index });
    };
    let Some(row) = row_named(written.name) else {
        let name = written.name.clone()?;
        return Err(FormFault::OutsideProfile { func, index, name });
    };
    if has_foreign(term, &written) {
        let name = written.name.clone()?;
        return Err(FormFault::OutsideProfile { func, index, name });
    }
    if let Some(name) = unknown_name(row.genop, terms_of(&written)) {
        let name = name.clone()?;
        return Err(FormFault::OutsideProfile { func, index, name });
    }
    shaped(
        alloc,
        func,
        index,
        row_of(row, terms_of(&written)),
        &written,
    )
}

/// The instruction of that row, or the fault that no shape fits.
fn shaped(
    alloc: Global,
    func: usize,
    index: usize,
    row: Option<InstructionRow>,
    written: &Written<'_>,
) -> Result<Instr, FormFault>
    ensures { Gives parts_of result (spec.or_bad func index (option_and_then (λ r. spec.instruction_of r (written_seen written.now)) (option_map row_seen row))) }
{
    match of_row(alloc, row, written) {
        Ok(instr) => Ok(instr),
        Err(PartFault::Shape) => Err(FormFault::BadInstruction { func, index }),
        Err(PartFault::NoMemory) => Err(FormFault::NoMemory),
    }
}

fn of_row(
    alloc: Global,
    row: Option<InstructionRow>,
    written: &Written<'_>,
) -> Result<Instr, PartFault>
    ensures { ReadsAs parts_of result (option_and_then (λ r. spec.instruction_of r (written_seen written.now)) (option_map row_seen row)) }
{
    let row = row.ok_or(PartFault::Shape)?;
    instruction_of(alloc, row, written)
}

/// The instruction of that row: an atom where nothing stands behind the name, and else a tuple of what the places ask.
#[tactic(auto, unfolding(crate::specs::Instructions::instruction_of))]
fn instruction_of(
    alloc: Global,
    row: InstructionRow,
    written: &Written<'_>,
) -> Result<Instr, PartFault>
    ensures { ReadsAs parts_of result (spec.instruction_of (row_seen row) (written_seen written.now)) }
{
    match written.terms {
        Some(terms) => in_tuple(alloc, row, terms),
        None => bare(alloc, row).ok_or(PartFault::Shape),
    }
}

/// A tuple of what the row's places ask.
fn in_tuple(alloc: Global, row: InstructionRow, terms: &[AsmTerm]) -> Result<Instr, PartFault>
    ensures { ReadsAs parts_of result (spec.in_tuple (row_seen row) terms.now) }
{
    if row.places.is_empty() {
        return Err(PartFault::Shape);
    }
    let operands = operands_of(alloc, number_in(row.genop, terms), row.places, terms)?;
    Instr::make(row.number, operands).ok_or(PartFault::Shape)
}

/// An atom alone, of a row with nothing behind the name.
fn bare(alloc: Global, row: InstructionRow) -> Option<Instr>
    ensures { option_map parts_of result ≡ spec.bare row.number row.places.now }
{
    if !row.places.is_empty() {
        return None;
    }
    let operands: Items<Operand> = Items::new(alloc);
    Instr::make(row.number, operands)
}
