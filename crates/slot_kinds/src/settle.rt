//! The most defined good assignment: states of labels rise until each way of control from each of them is kept.

ghost use Rattle.std.specs.Prelude.{◌≡◌, ◌<◌, true, [], length, map};
ghost use Rattle.beam_code.specs.Code.{function_at, function_code, module_code, opcode as opcode_of};
ghost use Rattle.beam_code.specs.Good.{NoneGood};
ghost use Rattle.beam_code.specs.Labels.{KeepsLabelRules, defined_in, is_in, no_label_twice};
ghost use Rattle.slot_kinds.specs.Answer.{Answers};
ghost use Rattle.slot_kinds.specs.Segments.{behind};
ghost use Rattle.slot_kinds.specs.Best.{IsBest};
ghost use Rattle.slot_kinds.specs.Settles.{IsQuiet, SettlesTo};
ghost use Rattle.slot_kinds.specs.Tags.{NamesKnown};
ghost use Rattle.slot_kinds.specs.Tables.{TagsHeld, known, held, places, ArePlaces, Goes, Nothing, Refuses};
ghost use Rattle.slot_kinds.specs.Walks.{KeepsFrom, KeepsEach};

use crate::SlotFault;
use crate::table::Table;
use crate::walk::walk;
use beam_code::{Function, Instr, Module, SlotMap, SlotState};
use std::alloc::Global;

/// The most defined good assignment of slot states to the labels of the function of that number, from 0: good, and below
/// each good one at each label. The map lists exactly the labels of the function.
///
/// The error says that no assignment is good, or that memory was wanting.
pub fn kinds(alloc: Global, module: &Module, func: usize) -> Result<SlotMap, SlotFault>
    requires func_in_range { func < length «module».now.functions }
    requires ruled { KeepsLabelRules (module_code «module».now) }
    ensures { Answers (IsBest (function_at (module_code «module».now) func)) (NoneGood (function_at (module_code «module».now) func)) result }
{
    function_kinds(alloc, &module.functions.as_slice()[func])
}

fn function_kinds(alloc: Global, function: &Function) -> Result<SlotMap, SlotFault>
    requires distinct { no_label_twice (defined_in (map opcode_of function.now.code)) ≡ true }
    requires entered { is_in (defined_in (map opcode_of function.now.code)) function.now.entry ≡ true }
    requires names_known { NamesKnown (is_in (defined_in (map opcode_of function.now.code))) (map opcode_of function.now.code) }
    ensures { Answers (IsBest (function_code function.now)) (NoneGood (function_code function.now)) result }
{
    let code = function.code.as_slice();
    let mut table = Table::make(alloc, code)?;
    let entered = SlotState::entered(alloc, function.arity)?;
    match table.reach(alloc, function.entry, &entered) {
        Err(fault) => Err(fault),
        Ok(()) => match settle(alloc, code, &mut table) {
            Err(fault) => Err(fault),
            Ok(()) => Ok(table.into_map(alloc)?),
        },
    }
}

// Goes through the code behind each label that is pending, until none is.
fn settle(alloc: Global, code: &[Instr], table: &mut Table) -> Result<(), SlotFault>
    requires placed { ArePlaces (map opcode_of code.now) (places table.old) }
    requires quiet { IsQuiet (map opcode_of code.now) table.old }
    requires names_known { NamesKnown (known table.old) (map opcode_of code.now) }
    requires tags_known { TagsHeld table.old }
    ensures { Answers (λ _. SettlesTo (map opcode_of code.now) table.old table.new × (table.new.pending.keys ≡ [])) (Refuses (KeepsEach (map opcode_of code.now)) table.old) result }
{
    while let Some(label) = table.pending.pop_first() {
        match revisit(alloc, code, table, label) {
            Ok(()) => (),
            Err(fault) => return Err(fault),
        }
    }
    Ok(())
}

// Goes through the code behind a label, if the label is reached.
fn revisit(alloc: Global, code: &[Instr], table: &mut Table, label: u32) -> Result<(), SlotFault>
    requires placed { ArePlaces (map opcode_of code.now) (places table.old) }
    requires names_known { NamesKnown (known table.old) (map opcode_of code.now) }
    requires tags_known { TagsHeld table.old }
    ensures { Answers (λ _. Goes (KeepsFrom (behind label (map opcode_of code.now)) (held table.old label)) Nothing table.old table.new) (Refuses (KeepsFrom (behind label (map opcode_of code.now)) (held table.old label)) table.old) result }
{
    let Some(row) = table.rows.get(&label) else {
        return Ok(());
    };
    let place = row.place;
    let Some(state) = &row.state else {
        return Ok(());
    };
    let from = state.copy(alloc)?;
    walk(alloc, &code[place..], table, from)
}
