//! Where control goes from an instruction, and what the slots then hold.

ghost use Rattle.std.specs.Prelude.{◌≡◌, ◌<◌, ◌≤◌, ◌+◌, [], ◌∷◌, true, false, not, map, length, is_some, ◌&&◌, if◌then◌else◌, Option, None, Some, IfOk};
ghost use Rattle.std.specs.List.{list_all};
ghost use Rattle.beam_code.specs.Flow as spec;
ghost use Rattle.beam_code.specs.FlowParts as parts;
ghost use Rattle.beam_code.specs.FlowSeen.{branches_seen};
ghost use Rattle.beam_code.specs.Labels as labels;
ghost use Rattle.beam_code.specs.Seen.{callee_seen, kind_seen, marking_seen, opcode_seen};
ghost use Rattle.beam_code.specs.Slots.{state_of};
ghost use Rattle.beam_code.specs.Weights as weights;

use crate::{
    CallKind, Callee, Kind, LAST_REGISTER, MOST_SLOTS, Marking, Opcode, Reg, SlotState, Src,
};

/// The labels that an instruction goes to by itself: one or none, and those of its cases.
#[derive(Clone, Copy, Debug)]
pub struct Branches<'a> {
    pub label: Option<u32>,
    pub cases: &'a [(Src, u32)],
}

impl<'a> Branches<'a> {
    fn none() -> Branches<'a>
        ensures { branches_seen result ≡ [] }
    {
        Branches {
            label: None,
            cases: &[],
        }
    }

    fn to(label: u32) -> Branches<'a>
        ensures { branches_seen result ≡ label ∷ [] }
    {
        Branches {
            label: Some(label),
            cases: &[],
        }
    }

    fn failure(label: u32) -> Branches<'a>
        ensures { branches_seen result ≡ labels.failure label }
    {
        if label == 0 {
            return Branches::none();
        }
        Branches::to(label)
    }
}

/// The labels that an instruction goes to by itself, each as often as it is named.
pub fn branches_of(opcode: Opcode<'_>) -> Branches<'_>
    ensures { branches_seen result ≡ parts.labels_gone (opcode_seen opcode.entry) }
{
    match opcode {
        Opcode::Bif { fail, .. } | Opcode::PutMap { fail, .. } => Branches::failure(fail),
        Opcode::SelectVal { fail, cases, .. } | Opcode::SelectTupleArity { fail, cases, .. } => {
            Branches {
                label: Some(fail),
                cases,
            }
        }
        Opcode::GetMapElements { fail, .. }
        | Opcode::Test { fail, .. }
        | Opcode::TestArity { fail, .. }
        | Opcode::IsTaggedTuple { fail, .. }
        | Opcode::HasMapFields { fail, .. }
        | Opcode::LoopRec { fail, .. } => Branches::to(fail),
        Opcode::Jump { label }
        | Opcode::LoopRecEnd { label }
        | Opcode::Wait { label }
        | Opcode::WaitTimeout { label, .. } => Branches::to(label),
        _ => Branches::none(),
    }
}

/// Whether an instruction may raise.
pub fn may_raise(opcode: Opcode<'_>) -> bool
    ensures { result ≡ weights.may_raise (opcode_seen opcode.entry) }
{
    match opcode {
        Opcode::Call { kind, .. } => matches!(kind, CallKind::Body),
        Opcode::Bif { fail, .. } | Opcode::PutMap { fail, .. } => fail == 0,
        Opcode::FuncInfo { .. }
        | Opcode::Send
        | Opcode::GetList { .. }
        | Opcode::Get { .. }
        | Opcode::SetTupleElement { .. }
        | Opcode::WaitTimeout { .. }
        | Opcode::TryCase { .. }
        | Opcode::Unmatches { .. }
        | Opcode::IfEnd
        | Opcode::Raise { .. }
        | Opcode::RawRaise => true,
        _ => false,
    }
}

/// The number of the builtin that is called, if it is one.
pub fn builtin_called(callee: Callee<'_>) -> Option<u16>
    ensures { result ≡ spec.builtin_called (callee_seen callee.entry) }
{
    match callee {
        Callee::External { owner, name, arity } => {
            genop_table::builtin(owner.as_str().as_bytes(), name.as_str().as_bytes(), arity)
        }
        _ => None,
    }
}

fn is_term(state: &SlotState, register: Reg) -> bool
    ensures { result ≡ spec.is_term (spec.kind_in (state_of state.now) register) }
{
    matches!(state.kind(register), Some(Kind::Term))
}

fn is_optional(state: &SlotState, register: Reg) -> bool
    ensures { result ≡ spec.is_optional (spec.kind_in (state_of state.now) register) }
{
    matches!(state.kind(register), Some(Kind::Term | Kind::OptTerm))
}

fn is_tag(state: &SlotState, register: Reg) -> bool
    ensures { result ≡ spec.is_tag (spec.kind_in (state_of state.now) register) }
{
    matches!(state.kind(register), Some(Kind::Tag(_)))
}

fn is_trace(state: &SlotState, register: Reg) -> bool
    ensures { result ≡ spec.is_trace (spec.kind_in (state_of state.now) register) }
{
    matches!(state.kind(register), Some(Kind::Trace))
}

fn is_marker(state: &SlotState, register: Reg) -> bool
    ensures { result ≡ spec.is_marker (spec.kind_in (state_of state.now) register) }
{
    matches!(state.kind(register), Some(Kind::Marker))
}

fn is_moved(state: &SlotState, register: Reg) -> bool
    ensures { result ≡ spec.is_moved (spec.kind_in (state_of state.now) register) }
{
    matches!(
        state.kind(register),
        Some(Kind::Term | Kind::Trace | Kind::Marker)
    )
}

fn reads(state: &SlotState, source: &Src) -> bool
    ensures { result ≡ spec.reads (state_of state.now) source.now }
{
    match source {
        Src::Reg(register) => is_term(state, *register),
        _ => true,
    }
}

fn reads_all(state: &SlotState, sources: &[Src]) -> bool
    ensures { result ≡ spec.reads_all (state_of state.now) sources.now }
{
    for source in sources {
        if !reads(state, source) {
            return false;
        }
    }
    true
}

fn reads_pairs(state: &SlotState, pairs: &[(Src, Src)]) -> bool
    ensures { result ≡ spec.reads_pairs (state_of state.now) pairs.now }
{
    for (key, value) in pairs {
        if !reads(state, key) {
            return false;
        }
        if !reads(state, value) {
            return false;
        }
    }
    true
}

fn reads_keys(state: &SlotState, gets: &[(Src, Reg)]) -> bool
    ensures { result ≡ spec.reads_all (state_of state.now) (map (λ g. g.0) gets.now) }
{
    for (key, _) in gets {
        if !reads(state, key) {
            return false;
        }
    }
    true
}

// Whether the first x registers hold terms.
fn are_terms(state: &SlotState, count: u64) -> bool
    ensures { result ≡ spec.are_terms (state_of state.now) count }
{
    if count > u64::from(MOST_SLOTS) {
        return false;
    }
    for n in 0..count as u16 {
        if !is_term(state, Reg::X(n)) {
            return false;
        }
    }
    true
}

fn is_frame(state: &SlotState, size: u64) -> bool
    ensures { result ≡ spec.is_frame (state_of state.now).frame size }
{
    match state.frame {
        Some(frame) => u64::from(frame) == size,
        None => false,
    }
}

// Whether the register is there to be written.
fn has(state: &SlotState, register: Reg) -> bool
    ensures { result ≡ parts.has (state_of state.now) register }
{
    match register {
        Reg::X(n) => n <= LAST_REGISTER,
        Reg::Y(n) => (n as usize) < state.ys.len(),
    }
}

fn has_all(state: &SlotState, registers: &[Reg]) -> bool
    ensures { result ≡ parts.has_all (state_of state.now) registers.now }
{
    for register in registers {
        if !has(state, *register) {
            return false;
        }
    }
    true
}

fn has_targets(state: &SlotState, gets: &[(Src, Reg)]) -> bool
    ensures { result ≡ parts.has_all (state_of state.now) (map (λ g. g.1) gets.now) }
{
    for (_, to) in gets {
        if !has(state, *to) {
            return false;
        }
    }
    true
}

fn is_movable(state: &SlotState, from: &Src) -> bool
    ensures { result ≡ spec.is_moved (spec.kind_of (state_of state.now) from.now) }
{
    match from {
        Src::Reg(register) => is_moved(state, *register),
        _ => true,
    }
}

fn can_move(state: &SlotState, from: &Src, to: Reg) -> bool
    ensures { result ≡ (spec.is_moved (spec.kind_of (state_of state.now) from.now) && parts.has (state_of state.now) to) }
{
    is_movable(state, from) && has(state, to)
}

// Whether all that a call reads is terms.
fn are_arguments(state: &SlotState, callee: Callee<'_>, arity: u32) -> bool
    ensures { result ≡ spec.are_terms (state_of state.now) (spec.read_by (callee_seen callee.entry) arity) }
{
    match callee {
        Callee::Fun => are_terms(state, u64::from(arity) + 1),
        Callee::Apply => are_terms(state, u64::from(arity) + 2),
        _ => are_terms(state, u64::from(arity)),
    }
}

fn can_call(state: &SlotState, callee: Callee<'_>, arity: u32, kind: CallKind) -> bool
    ensures { result ≡ parts.allows_call (callee_seen callee.entry) arity (kind_seen kind) (state_of state.now) }
{
    if !are_arguments(state, callee, arity) {
        return false;
    }
    match kind {
        CallKind::Body => state.frame.is_some() || builtin_called(callee).is_some(),
        CallKind::Only => state.frame.is_none(),
        CallKind::Last { size } => is_frame(state, u64::from(size)),
    }
}

fn can_mark(state: &SlotState, marking: Marking) -> bool
    ensures { result ≡ parts.allows_marking (marking_seen marking) (state_of state.now) }
{
    match marking {
        Marking::Reserve { to } => has(state, to),
        Marking::Bind { marker, reference } => is_marker(state, marker)
            && is_term(state, reference),
        Marking::Use { reference } | Marking::Clear { reference } => is_term(state, reference),
    }
}

/// Whether the row of an instruction holds from a state.
pub fn holds(opcode: Opcode<'_>, state: &SlotState) -> bool
    ensures { result ≡ parts.allows (opcode_seen opcode.entry) (state_of state.now) }
{
    match opcode {
        Opcode::Move { from, to } => can_move(state, from, to),
        Opcode::Swap { one, other } => is_moved(state, one)
            && is_moved(state, other)
            && has(state, one)
            && has(state, other),
        Opcode::Allocate { size, .. } => state.frame.is_none() && size <= MOST_SLOTS as u32,
        Opcode::Deallocate { size } => is_frame(state, u64::from(size)),
        Opcode::Trim { dropped, left } => is_frame(state, u64::from(dropped) + u64::from(left)),
        Opcode::InitYregs { registers } => has_all(state, registers),
        Opcode::Call {
            callee,
            arity,
            kind,
        } => can_call(state, callee, arity, kind),
        Opcode::Return => state.frame.is_none() && is_term(state, Reg::X(0)),
        Opcode::MakeFun2 { free, .. } => are_terms(state, u64::from(free)),
        Opcode::MakeFun3 { to, free, .. } => reads_all(state, free) && has(state, to),
        Opcode::Send => are_terms(state, 2),
        Opcode::Bif { arguments, to, .. } => reads_all(state, arguments) && has(state, to),
        Opcode::PutList { head, tail, to } => reads(state, head)
            && reads(state, tail)
            && has(state, to),
        Opcode::PutTuple2 { to, elements } => reads_all(state, elements) && has(state, to),
        Opcode::GetList { from, head, tail } => is_term(state, from)
            && has_all(state, &[head, tail]),
        Opcode::Get { from, to, .. } => is_term(state, from) && has(state, to),
        Opcode::SetTupleElement { value, tuple, .. } => reads(state, value)
            && is_term(state, tuple)
            && has(state, tuple),
        Opcode::PutMap {
            from,
            to,
            pairs,
            ..
        } => reads(state, from) && reads_pairs(state, pairs) && has(state, to),
        Opcode::GetMapElements { from, gets, .. } => {
            reads(state, from) && reads_keys(state, gets) && has_targets(state, gets)
        }
        Opcode::SelectVal { value, .. } => reads(state, value),
        Opcode::SelectTupleArity { tuple, .. } => reads(state, tuple),
        Opcode::Test { arguments, .. } => reads_all(state, arguments),
        Opcode::TestArity { tuple, .. } => reads(state, tuple),
        Opcode::IsTaggedTuple { tuple, .. } => reads(state, tuple),
        Opcode::HasMapFields { from, keys, .. } => reads(state, from) && reads_all(state, keys),
        Opcode::LoopRec { to, .. } => has(state, to),
        Opcode::WaitTimeout { timeout, .. } => reads(state, timeout),
        Opcode::RecvMarker { marking } => can_mark(state, marking),
        Opcode::Try { slot, .. } => has(state, Reg::Y(slot)),
        Opcode::TryEnd { slot } => is_tag(state, Reg::Y(slot)),
        Opcode::TryCase { slot } | Opcode::CatchEnd { slot } => {
            is_tag(state, Reg::Y(slot)) && is_optional(state, Reg::X(0))
        }
        Opcode::Unmatches { value, .. } => reads(state, value),
        Opcode::Raise { trace, reason } => is_trace(state, trace) && reads(state, reason),
        Opcode::RawRaise => are_terms(state, 2) && is_trace(state, Reg::X(2)),
        Opcode::BuildStacktrace => is_trace(state, Reg::X(0)),
        Opcode::Label { .. }
        | Opcode::Line
        | Opcode::Comment
        | Opcode::FuncInfo { .. }
        | Opcode::TestHeap { .. }
        | Opcode::Jump { .. }
        | Opcode::RemoveMessage
        | Opcode::Timeout
        | Opcode::LoopRecEnd { .. }
        | Opcode::Wait { .. }
        | Opcode::IfEnd => true,
    }
}
