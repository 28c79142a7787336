//! The labels that code defines.

ghost use Rattle.std.specs.Prelude.{◌≡◌, ℕ, nat_eq, map, IfOk};
ghost use Rattle.indexmap.specs.IndexSet.{contains};
ghost use Rattle.beam_code.specs.Code.{opcode as opcode_of};
ghost use Rattle.beam_code.specs.Labels as spec;
ghost use Rattle.beam_code.specs.Seen.{opcode_seen};
ghost use Rattle.label_check.specs.Told.{Tells};

use crate::LabelFault;
use beam_code::{Instr, Opcode};
use indexmap::IndexSet;
use std::alloc::{AllocError, Global};

/// The label that the instruction defines, if it is one.
pub(crate) fn defined_by(opcode: Opcode<'_>) -> Option<u32>
    ensures { result ≡ spec.defined_by (opcode_seen opcode.entry) }
{
    match opcode {
        Opcode::Label { label } => Some(label),
        _ => None,
    }
}

/// The labels that the code defines. The error says that memory was wanting.
pub(crate) fn defined_in(alloc: Global, code: &[Instr]) -> Result<IndexSet<u32>, AllocError>
    ensures { IfOk result (λ labels. (n : ℕ) → contains nat_eq labels n ≡ spec.is_in (spec.defined_in (map opcode_of code.now)) n) }
{
    let mut labels: IndexSet<u32> = IndexSet::new(alloc);
    for instr in code {
        if let Some(label) = defined_by(instr.opcode()) {
            labels.insert(label)?;
        }
    }
    Ok(labels)
}

/// Adds the label, if it is one, behind those that were defined before. The error says that it was there, or that memory
/// was wanting.
pub(crate) fn define(before: &mut IndexSet<u32>, label: Option<u32>) -> Result<(), LabelFault>
    ensures told { Tells result (spec.twice before.old.keys label) }
    ensures added { IfOk result (λ _. before.new.keys ≡ spec.with_label before.old.keys label) }
{
    let Some(label) = label else {
        return Ok(());
    };
    match before.insert(label) {
        Ok(true) => Ok(()),
        Ok(false) => Err(LabelFault::Twice { label }),
        Err(_) => Err(LabelFault::NoMemory),
    }
}
