//! Code is gone through from a label, up to the next one.

ghost use Rattle.std.specs.Prelude.{◌≡◌, [], map, if◌then◌else◌, Some};
ghost use Rattle.beam_code.specs.Code.{opcode as opcode_of};
ghost use Rattle.beam_code.specs.Flow.{raised_from};
ghost use Rattle.beam_code.specs.FlowParts.{falls_as, labels_gone};
ghost use Rattle.beam_code.specs.Good.{GoToEach};
ghost use Rattle.beam_code.specs.Labels as named;
ghost use Rattle.beam_code.specs.Seen.{opcode_seen};
ghost use Rattle.beam_code.specs.Slots.{state_of};
ghost use Rattle.slot_kinds.specs.Answer.{Answers};
ghost use Rattle.slot_kinds.specs.Tags.{AreKnown, NamesKnown, TagsKnown};
ghost use Rattle.slot_kinds.specs.Tables.{known, Goes, Nothing, Refuses};
ghost use Rattle.slot_kinds.specs.Walks.{ReachesEach, ReachesAll, GoesOn, Passes, KeepsFrom};

use crate::SlotFault;
use crate::table::Table;
use beam_code::{Instr, Opcode, SlotState, Src, branches_of, enter, holds, leave, may_raise};
use std::alloc::Global;

/// Goes through code from a state, to where it no longer falls through, or comes to a label.
pub(crate) fn walk(
    alloc: Global,
    code: &[Instr],
    table: &mut Table,
    from: SlotState,
) -> Result<(), SlotFault>
    requires names_known { NamesKnown (known table.old) (map opcode_of code.now) }
    requires tags_known { TagsKnown (known table.old) (state_of from) }
    ensures { Answers (λ _. Goes (KeepsFrom (map opcode_of code.now) (Some (state_of from))) Nothing table.old table.new) (Refuses (KeepsFrom (map opcode_of code.now) (Some (state_of from))) table.old) result }
{
    let mut state = from;
    for instr in code {
        let opcode = instr.opcode();
        if let Some(label) = label_of(opcode) {
            return table.reach(alloc, label, &state);
        }
        match pass(alloc, opcode, table, &mut state) {
            Ok(true) => (),
            Ok(false) => return Ok(()),
            Err(fault) => return Err(fault),
        }
    }
    Err(SlotFault::NotSlotted)
}

// The label that the instruction is, if it is one.
fn label_of(opcode: Opcode<'_>) -> Option<u32>
    ensures { result ≡ named.defined_by (opcode_seen opcode.entry) }
{
    match opcode {
        Opcode::Label { label } => Some(label),
        _ => None,
    }
}

// Goes through an instruction that is no label. Tells whether it falls through, in the state that is then left.
fn pass(
    alloc: Global,
    opcode: Opcode<'_>,
    table: &mut Table,
    state: &mut SlotState,
) -> Result<bool, SlotFault>
    requires names_known { AreKnown (known table.old) (named.labels_named (opcode_seen opcode)) }
    requires tags_known { TagsKnown (known table.old) (state_of state.old) }
    ensures { Answers (λ falls. Passes (opcode_seen opcode.entry) (state_of state.old) (falls_as falls (state_of state.new)) table.old table.new) (Refuses (GoesOn (opcode_seen opcode.entry) (state_of state.old)) table.old) result }
{
    if !holds(opcode, state) {
        return Err(SlotFault::NotSlotted);
    }
    enter(opcode, state);
    match reach_all(alloc, opcode, table, state) {
        Err(fault) => Err(fault),
        Ok(()) => Ok(leave(alloc, opcode, state)?),
    }
}

// Reaches the labels that an instruction goes to, and those of the handlers of what it raises.
fn reach_all(
    alloc: Global,
    opcode: Opcode<'_>,
    table: &mut Table,
    state: &SlotState,
) -> Result<(), SlotFault>
    requires names_known { AreKnown (known table.old) (named.labels_named (opcode_seen opcode)) }
    requires tags_known { TagsKnown (known table.old) (state_of state.now) }
    ensures { Answers (λ _. Goes (ReachesAll (opcode_seen opcode.entry) (state_of state.now)) Nothing table.old table.new) (Refuses (ReachesAll (opcode_seen opcode.entry) (state_of state.now)) table.old) result }
{
    match reach_branches(alloc, opcode, table, state) {
        Err(fault) => Err(fault),
        Ok(()) => {
            if may_raise(opcode) {
                return reach_handlers(alloc, table, state);
            }
            Ok(())
        }
    }
}

fn reach_branches(
    alloc: Global,
    opcode: Opcode<'_>,
    table: &mut Table,
    state: &SlotState,
) -> Result<(), SlotFault>
    requires labels_known { AreKnown (known table.old) (labels_gone (opcode_seen opcode)) }
    requires tags_known { TagsKnown (known table.old) (state_of state.now) }
    ensures { Answers (λ _. Goes (ReachesEach (state_of state.now) (labels_gone (opcode_seen opcode.entry))) Nothing table.old table.new) (Refuses (ReachesEach (state_of state.now) (labels_gone (opcode_seen opcode.entry))) table.old) result }
{
    let branches = branches_of(opcode);
    match branches.label {
        None => reach_cases(alloc, table, branches.cases, state),
        Some(label) => match table.reach(alloc, label, state) {
            Err(fault) => Err(fault),
            Ok(()) => reach_cases(alloc, table, branches.cases, state),
        },
    }
}

fn reach_cases(
    alloc: Global,
    table: &mut Table,
    cases: &[(Src, u32)],
    state: &SlotState,
) -> Result<(), SlotFault>
    requires labels_known { AreKnown (known table.old) (map (λ c. c.1) cases.now) }
    requires tags_known { TagsKnown (known table.old) (state_of state.now) }
    ensures { Answers (λ _. Goes (ReachesEach (state_of state.now) (map (λ c. c.1) cases.now)) Nothing table.old table.new) (Refuses (ReachesEach (state_of state.now) (map (λ c. c.1) cases.now)) table.old) result }
{
    for (_, label) in cases {
        match table.reach(alloc, *label, state) {
            Ok(()) => (),
            Err(fault) => return Err(fault),
        }
    }
    Ok(())
}

fn reach_handlers(alloc: Global, table: &mut Table, state: &SlotState) -> Result<(), SlotFault>
    requires { TagsKnown (known table.old) (state_of state.now) }
    ensures { Answers (λ _. Goes (λ at. GoToEach at (raised_from (state_of state.now))) Nothing table.old table.new) (Refuses (λ at. GoToEach at (raised_from (state_of state.now))) table.old) result }
{
    let handlers = state.handlers();
    if handlers.is_empty() {
        return Ok(());
    }
    let caught = state.caught(alloc)?;
    reach_each(alloc, table, handlers, &caught)
}

fn reach_each(
    alloc: Global,
    table: &mut Table,
    labels: &[u32],
    state: &SlotState,
) -> Result<(), SlotFault>
    requires labels_known { AreKnown (known table.old) labels.now }
    requires tags_known { TagsKnown (known table.old) (state_of state.now) }
    ensures { Answers (λ _. Goes (ReachesEach (state_of state.now) labels.now) Nothing table.old table.new) (Refuses (ReachesEach (state_of state.now) labels.now) table.old) result }
{
    for label in labels {
        match table.reach(alloc, *label, state) {
            Ok(()) => (),
            Err(fault) => return Err(fault),
        }
    }
    Ok(())
}
