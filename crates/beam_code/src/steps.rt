//! What an instruction makes of slots.

ghost use Rattle.std.specs.Prelude.{◌≡◌, ◌<◌, true, false, length, map, Some, option_map, IfOk, OnOk};
ghost use Rattle.beam_code.specs.After.{IsAfter};
ghost use Rattle.beam_code.specs.Code.{function_at, module_code, opcode_at};
ghost use Rattle.beam_code.specs.Flow as spec;
ghost use Rattle.beam_code.specs.FlowParts as parts;
ghost use Rattle.beam_code.specs.Opcode as opcodes;
ghost use Rattle.beam_code.specs.Seen.{callee_seen, marking_seen, opcode_seen};
ghost use Rattle.beam_code.specs.SlotForm.{is_kind, is_undefined};
ghost use Rattle.beam_code.specs.Slots.{state_of};

use crate::{
    CallKind, Callee, Kind, Marking, Module, Opcode, Reg, SlotState, Src, StepFault,
    builtin_called, holds,
};
use sqlite_items::Items;
use std::alloc::{AllocError, Global};

/// Makes a state in which the row of an instruction holds the one in which it goes to its labels and raises.
pub fn enter(opcode: Opcode<'_>, state: &mut SlotState)
    requires allowed { parts.allows (opcode_seen opcode) (state_of state.old) ≡ true }
    ensures { state_of state.new ≡ parts.entered (opcode_seen opcode.entry) (state_of state.old) }
{
    match opcode {
        Opcode::Bif {
            live: Some(live),
            ..
        } => state.keep_live(live),
        Opcode::Wait { .. } | Opcode::WaitTimeout { .. } => state.clear(),
        Opcode::TryCase { slot } => state.untag(slot),
        _ => (),
    }
}

// The kind that a move writes.
fn moved(state: &SlotState, from: &Src) -> Kind
    requires { spec.is_moved (spec.kind_of (state_of state.now) from.now) ≡ true }
    ensures is { result ≡ spec.kind_of (state_of state.now) from.now }
    ensures defined { is_undefined result ≡ false }
    ensures formed { is_kind result ≡ true }
{
    match from {
        Src::Reg(register) => moved_kind(state, *register),
        _ => Kind::Term,
    }
}

fn moved_kind(state: &SlotState, register: Reg) -> Kind
    requires { spec.is_moved (spec.kind_in (state_of state.now) register) ≡ true }
    ensures is { result ≡ spec.kind_in (state_of state.now) register }
    ensures defined { is_undefined result ≡ false }
    ensures formed { is_kind result ≡ true }
{
    match state.kind(register) {
        Some(Kind::Trace) => Kind::Trace,
        Some(Kind::Marker) => Kind::Marker,
        _ => Kind::Term,
    }
}

fn write_terms(state: &mut SlotState, registers: &[Reg]) -> Result<(), AllocError>
    requires { parts.has_all (state_of state.old) registers.now ≡ true }
    ensures { OnOk result (spec.writes_terms registers.now (state_of state.old) ≡ Some (state_of state.new)) }
{
    for register in registers {
        state.write(*register, Kind::Term)?;
    }
    Ok(())
}

fn write_targets(state: &mut SlotState, gets: &[(Src, Reg)]) -> Result<(), AllocError>
    requires { parts.has_all (state_of state.old) (map (λ g. g.1) gets.now) ≡ true }
    ensures { OnOk result (spec.writes_terms (map (λ g. g.1) gets.now) (state_of state.old) ≡ Some (state_of state.new)) }
{
    for (_, to) in gets {
        state.write(*to, Kind::Term)?;
    }
    Ok(())
}

fn swap(state: &mut SlotState, one: Reg, other: Reg) -> Result<(), AllocError>
    requires { parts.allows (opcodes.Swap one other) (state_of state.old) ≡ true }
    ensures { OnOk result (parts.left (opcodes.Swap one other) (state_of state.old) ≡ Some (state_of state.new)) }
{
    let first = moved_kind(state, one);
    let second = moved_kind(state, other);
    state.write(one, second)?;
    state.write(other, first)
}

fn mark(state: &mut SlotState, marking: Marking) -> Result<(), AllocError>
    requires { parts.allows_marking (marking_seen marking) (state_of state.old) ≡ true }
    ensures { OnOk result (parts.left_by_marking (marking_seen marking) (state_of state.old) ≡ Some (state_of state.new)) }
{
    match marking {
        Marking::Reserve { to } => state.write(to, Kind::Marker),
        Marking::Bind { .. } | Marking::Use { .. } | Marking::Clear { .. } => Ok(()),
    }
}

fn comes_back(callee: Callee<'_>) -> bool
    ensures { result ≡ spec.comes_back (callee_seen callee.entry) }
{
    match builtin_called(callee) {
        Some(number) => genop_table::returns(number),
        None => true,
    }
}

/// Makes the state in which an instruction goes to its labels the one in which it falls through; false where it does not
/// fall through. The error says that memory was wanting.
pub fn leave(alloc: Global, opcode: Opcode<'_>, state: &mut SlotState) -> Result<bool, AllocError>
    requires entered_so { parts.IsEntered (opcode_seen opcode) (state_of state.old) }
    ensures { IfOk result (λ falls. parts.falls_as falls (state_of state.new) ≡ parts.left (opcode_seen opcode.entry) (state_of state.old)) }
{
    match opcode {
        Opcode::Move { from, to } => {
            let kind = moved(state, from);
            state.write(to, kind)?;
        }
        Opcode::Swap { one, other } => swap(state, one, other)?,
        Opcode::Allocate { size, live } => {
            state.keep_live(live);
            state.enframe(alloc, size as u16)?;
        }
        Opcode::TestHeap { live } => state.keep_live(live),
        Opcode::Deallocate { .. } => state.unframe(),
        Opcode::Trim { dropped, left } => state.drop_slots(dropped, left),
        Opcode::InitYregs { registers } => write_terms(state, registers)?,
        Opcode::Call {
            callee,
            kind: CallKind::Body,
            ..
        } => {
            if !comes_back(callee) {
                return Ok(false);
            }
            state.answer()?;
        }
        Opcode::MakeFun2 { .. } | Opcode::Send => state.answer()?,
        Opcode::MakeFun3 { to, .. }
        | Opcode::Bif { to, .. }
        | Opcode::PutList { to, .. }
        | Opcode::PutTuple2 { to, .. }
        | Opcode::Get { to, .. }
        | Opcode::PutMap { to, .. }
        | Opcode::LoopRec { to, .. } => state.write(to, Kind::Term)?,
        Opcode::GetList { head, tail, .. } => write_terms(state, &[head, tail])?,
        Opcode::SetTupleElement { tuple, .. } => state.write(tuple, Kind::Term)?,
        Opcode::GetMapElements { gets, .. } => write_targets(state, gets)?,
        Opcode::RecvMarker { marking } => mark(state, marking)?,
        Opcode::Try { slot, handler } => {
            let mut labels = Items::new(alloc);
            labels.push(handler)?;
            state.write(Reg::Y(slot), Kind::Tag(labels))?;
        }
        Opcode::TryEnd { slot } => state.untag(slot),
        Opcode::TryCase { .. } => state.take_exception()?,
        Opcode::CatchEnd { slot } => {
            state.untag(slot);
            state.answer()?;
        }
        Opcode::RawRaise | Opcode::BuildStacktrace => state.write(Reg::X(0), Kind::Term)?,
        Opcode::Call { .. }
        | Opcode::FuncInfo { .. }
        | Opcode::Return
        | Opcode::Jump { .. }
        | Opcode::SelectVal { .. }
        | Opcode::SelectTupleArity { .. }
        | Opcode::LoopRecEnd { .. }
        | Opcode::Wait { .. }
        | Opcode::Unmatches { .. }
        | Opcode::IfEnd
        | Opcode::Raise { .. } => return Ok(false),
        Opcode::Label { .. }
        | Opcode::Line
        | Opcode::Comment
        | Opcode::Test { .. }
        | Opcode::TestArity { .. }
        | Opcode::IsTaggedTuple { .. }
        | Opcode::HasMapFields { .. }
        | Opcode::RemoveMessage
        | Opcode::Timeout
        | Opcode::WaitTimeout { .. } => (),
    }
    Ok(true)
}

/// The state after the instruction of that index in the function of that number, both from 0, from the state before it;
/// none where control does not fall through. `NoRow` exactly where the row of the instruction does not hold.
pub fn after(
    alloc: Global,
    module: &Module,
    func: usize,
    index: usize,
    state: &SlotState,
) -> Result<Option<SlotState>, StepFault>
    requires func_in_range { func < length «module».now.functions }
    requires index_in_range { index < length (function_at (module_code «module».now) func).code }
    ensures { IsAfter (spec.flow (opcode_at (module_code «module».now) func index) (state_of state.now)) result }
{
    let opcode = opcode_of(module, func, index);
    if !holds(opcode, state) {
        return Err(StepFault::NoRow);
    }
    Ok(step(alloc, opcode, state)?)
}

fn opcode_of(module: &Module, func: usize, index: usize) -> Opcode<'_>
    requires func_in_range { func < length «module».now.functions }
    requires index_in_range { index < length (function_at (module_code «module».now) func).code }
    ensures { opcode_seen result ≡ opcode_at (module_code «module».now) func index }
{
    let function = &module.functions.as_slice()[func];
    function.code.as_slice()[index].opcode()
}

// The state after an instruction whose row holds.
fn step(
    alloc: Global,
    opcode: Opcode<'_>,
    state: &SlotState,
) -> Result<Option<SlotState>, AllocError>
    requires { parts.allows (opcode_seen opcode) (state_of state.now) ≡ true }
    ensures { IfOk result (λ next. option_map state_of next ≡ parts.left (opcode_seen opcode.entry) (parts.entered (opcode_seen opcode.entry) (state_of state.now))) }
{
    let mut next = state.copy(alloc)?;
    enter(opcode, &mut next);
    if leave(alloc, opcode, &mut next)? {
        return Ok(Some(next));
    }
    Ok(None)
}
