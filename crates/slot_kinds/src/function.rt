//! What a function weighs.

ghost use Rattle.std.specs.Prelude.{◌≡◌, ◌<◌, ◌||◌, ℕ, false, nat_eq, length, map as each, option_copied, option_map, IfOk, OnOk};
ghost use Rattle.std.specs.List.{sum};
ghost use Rattle.indexmap.specs.IndexSet.{contains};
ghost use Rattle.beam_code.specs.Code.{function_at, module_code, opcode as opcode_of};
ghost use Rattle.beam_code.specs.Flow.{flow};
ghost use Rattle.beam_code.specs.Good as good;
ghost use Rattle.beam_code.specs.Good.{Assignment, assignment_of};
ghost use Rattle.beam_code.specs.Labels.{is_in};
ghost use Rattle.beam_code.specs.Seen.{opcode_seen};
ghost use Rattle.beam_code.specs.Slots.{state_of};
ghost use Rattle.beam_code.specs.Weights as spec;
ghost use Rattle.beam_code.specs.Weights.{if_reached, saturated};
ghost use Rattle.slot_kinds.specs.Walked as walked;

use crate::back::{add_entries, back_count, pass};
use crate::counts::{counts_of, has_wide_tag, slots_in};
use crate::look_up::state_at;
use crate::weigh::{line, weighed};
use beam_code::{Instr, Module, Opcode, SlotMap, SlotState, enter, holds, leave};
use indexmap::IndexSet;
use std::alloc::{AllocError, Global};

/// The weight of the function of that number, from 0, under its slot map: an upper bound on the bytes of the method that it
/// becomes. It stays at 2^64-1. The error says that memory was wanting.
pub fn weight(alloc: Global, module: &Module, func: usize, map: &SlotMap) -> Result<u64, AllocError>
    requires func_in_range { func < length «module».now.functions }
    ensures { IfOk result (λ w. w ≡ spec.weight (assignment_of map.now) (function_at (module_code «module».now) func)) }
{
    let function = &module.functions.as_slice()[func];
    let code = function.code.as_slice();
    let inner = code_weight(alloc, code, map)?;
    let entries = entry_labels(alloc, code)?;
    Ok(
        line(64, 12, u64::from(function.arity))
            .saturating_add(inner)
            .saturating_add(entries_weight(code, map, &entries)),
    )
}

// The instructions with their charges.
fn code_weight(alloc: Global, code: &[Instr], map: &SlotMap) -> Result<u64, AllocError>
    ensures { IfOk result (λ w. w ≡ saturated (sum (each (spec.weight_at (spec.is_wide (assignment_of map.now) (each opcode_of code.now))) (spec.places_of (assignment_of map.now) (each opcode_of code.now))))) }
{
    let Some((first, rest)) = code.split_first() else {
        return Ok(0);
    };
    let wide = is_wide(code, map);
    let opcode = first.opcode();
    let begun = weighed(opcode, counts_of(&None), 0, wide);
    let before = next_state(alloc, opcode, map, None)?;
    Ok(begun.saturating_add(rest_weight(alloc, rest, map, wide, before)?))
}

// The instructions behind the first, from a state.
fn rest_weight(
    alloc: Global,
    code: &[Instr],
    map: &SlotMap,
    wide: bool,
    before: Option<SlotState>,
) -> Result<u64, AllocError>
    ensures { IfOk result (λ w. w ≡ saturated (walked.weighed_from wide (assignment_of map.now) (λ label. false) (option_map state_of before) (each opcode_of code.now))) }
{
    let mut passed: IndexSet<u32> = IndexSet::new(alloc);
    let mut state = before;
    let mut total: u64 = 0;
    for instr in code {
        let opcode = instr.opcode();
        let back = back_count(opcode, &passed);
        total = total.saturating_add(weighed(opcode, counts_of(&state), back, wide));
        pass(opcode, &mut passed)?;
        state = next_state(alloc, opcode, map, state)?;
    }
    Ok(total)
}

// The state before the next instruction.
fn next_state(
    alloc: Global,
    opcode: Opcode<'_>,
    map: &SlotMap,
    before: Option<SlotState>,
) -> Result<Option<SlotState>, AllocError>
    ensures { IfOk result (λ next. option_map state_of next ≡ good.next_state (assignment_of map.now) (opcode_seen opcode.entry) (option_map state_of before)) }
{
    match opcode {
        Opcode::Label { label } => copy(alloc, state_at(map, label)),
        _ => match before {
            Some(state) => after(alloc, opcode, state),
            None => Ok(None),
        },
    }
}

fn copy(alloc: Global, state: Option<&SlotState>) -> Result<Option<SlotState>, AllocError>
    ensures { IfOk result (λ copy. option_map state_of copy ≡ option_map state_of (option_copied state.entry)) }
{
    match state {
        Some(state) => Ok(Some(state.copy(alloc)?)),
        None => Ok(None),
    }
}

// The state after an instruction; none where it does not fall through, or its row does not hold.
fn after(
    alloc: Global,
    opcode: Opcode<'_>,
    before: SlotState,
) -> Result<Option<SlotState>, AllocError>
    ensures { IfOk result (λ next. option_map state_of next ≡ walked.after (flow (opcode_seen opcode.entry) (state_of before))) }
{
    let mut state = before;
    if !holds(opcode, &state) {
        return Ok(None);
    }
    enter(opcode, &mut state);
    if leave(alloc, opcode, &mut state)? {
        return Ok(Some(state));
    }
    Ok(None)
}

// Whether a state has a tag of more than one label.
fn is_wide(code: &[Instr], map: &SlotMap) -> bool
    ensures { result ≡ spec.is_wide (assignment_of map.now) (each opcode_of code.now) }
{
    for instr in code {
        if widens(instr.opcode(), map) {
            return true;
        }
    }
    false
}

fn widens(opcode: Opcode<'_>, map: &SlotMap) -> bool
    ensures { result ≡ walked.widens (assignment_of map.now) (opcode_seen opcode.entry) }
{
    match opcode {
        Opcode::Label { label } => is_wide_at(map, label),
        _ => false,
    }
}

fn is_wide_at(map: &SlotMap, label: u32) -> bool
    ensures { result ≡ walked.is_wide_at (assignment_of map.now label) }
{
    match state_at(map, label) {
        Some(state) => has_wide_tag(state.ys.as_slice()),
        None => false,
    }
}

// The labels at which the function is entered again.
fn entry_labels(alloc: Global, code: &[Instr]) -> Result<IndexSet<u32>, AllocError>
    ensures { IfOk result (λ entries. (at : Assignment) (label : ℕ) → contains nat_eq entries label ≡ is_in (spec.entry_labels at (each opcode_of code.now)) label) }
{
    let mut entries: IndexSet<u32> = IndexSet::new(alloc);
    let passed: IndexSet<u32> = IndexSet::new(alloc);
    let Some((first, rest)) = code.split_first() else {
        return Ok(entries);
    };
    add_entries(first.opcode(), &passed, &mut entries)?;
    add_all(alloc, rest, &mut entries)?;
    Ok(entries)
}

fn add_all(alloc: Global, code: &[Instr], entries: &mut IndexSet<u32>) -> Result<(), AllocError>
    ensures { OnOk result ((label : ℕ) → contains nat_eq entries.new label ≡ (contains nat_eq entries.old label || walked.makes_entries (λ l. false) (each opcode_of code.now) label)) }
{
    let mut passed: IndexSet<u32> = IndexSet::new(alloc);
    for instr in code {
        let opcode = instr.opcode();
        add_entries(opcode, &passed, entries)?;
        pass(opcode, &mut passed)?;
    }
    Ok(())
}

// What the labels that are entries weigh.
fn entries_weight(code: &[Instr], map: &SlotMap, entries: &IndexSet<u32>) -> u64
    ensures { result ≡ saturated (walked.entries_of (assignment_of map.now) (contains nat_eq entries.now) (each opcode_of code.now)) }
{
    let mut total: u64 = 0;
    for instr in code {
        total = total.saturating_add(entry_weight(instr.opcode(), map, entries));
    }
    total
}

fn entry_weight(opcode: Opcode<'_>, map: &SlotMap, entries: &IndexSet<u32>) -> u64
    ensures { result ≡ saturated (walked.entry_of (assignment_of map.now) (contains nat_eq entries.now) (opcode_seen opcode.entry)) }
{
    match opcode {
        Opcode::Label { label } => label_weight(label, map, entries),
        _ => 0,
    }
}

fn label_weight(label: u32, map: &SlotMap, entries: &IndexSet<u32>) -> u64
    ensures { result ≡ saturated (walked.entry_weighed (assignment_of map.now) (contains nat_eq entries.now) label) }
{
    if !entries.contains(&label) {
        return 0;
    }
    line(32, 12, slots_at(map, label))
}

fn slots_at(map: &SlotMap, label: u32) -> u64
    ensures { result ≡ if_reached spec.defined_slots (assignment_of map.now label) }
{
    match state_at(map, label) {
        Some(state) => slots_in(state),
        None => 0,
    }
}
