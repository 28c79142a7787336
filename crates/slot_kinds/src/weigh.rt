//! What an instruction weighs.

ghost use Rattle.std.specs.Prelude.{◌≡◌, ◌+◌, ◌*◌, not, ◌&&◌};
ghost use Rattle.beam_code.specs.Seen.{callee_seen, marking_seen, opcode_seen, piece_seen};
ghost use Rattle.beam_code.specs.Weights as spec;
ghost use Rattle.beam_code.specs.Weights.{saturated};
ghost use Rattle.slot_kinds.specs.Walked as walked;

use crate::counts::Counts;
use beam_code::{CallKind, Callee, Marking, Opcode, Piece, builtin_called, may_raise};

/// The weight of an instruction in its place, where it goes back to that many labels, in a function where some tag has
/// more than one label or where none has. It stays at 2^64-1.
pub(crate) fn weighed(opcode: Opcode<'_>, counts: Counts, back: u64, wide: bool) -> u64
    ensures { result ≡ saturated (walked.weighed wide (opcode_seen opcode.entry) counts back) }
{
    own_weight(opcode, counts.kept).saturating_add(charged(opcode, counts, back, wide))
}

fn charged(opcode: Opcode<'_>, counts: Counts, back: u64, wide: bool) -> u64
    ensures { result ≡ saturated (walked.charged wide (opcode_seen opcode.entry) counts back) }
{
    let entries = again(opcode, counts, back).saturating_mul(line(32, 8, counts.slots));
    entries
        .saturating_add(waiting_part(opcode, counts))
        .saturating_add(wide_part(opcode, counts, back, wide))
}

fn again(opcode: Opcode<'_>, counts: Counts, back: u64) -> u64
    ensures { result ≡ saturated (walked.again (opcode_seen opcode.entry) counts back) }
{
    let handled = may_raise(opcode) && counts.tagged && !saves(opcode);
    back.saturating_add(u64::from(handled))
        .saturating_add(u64::from(waits(opcode)))
}

fn waiting_part(opcode: Opcode<'_>, counts: Counts) -> u64
    ensures { result ≡ saturated (walked.waiting_part (opcode_seen opcode.entry) counts) }
{
    match opcode {
        Opcode::WaitTimeout { .. } => line(32, 12, counts.slots),
        _ => 0,
    }
}

fn wide_part(opcode: Opcode<'_>, counts: Counts, back: u64, wide: bool) -> u64
    ensures { result ≡ saturated (walked.wide_part wide (opcode_seen opcode.entry) counts back) }
{
    if !wide {
        return 0;
    }
    line(0, 8, counts.gaps).saturating_mul(saved_again(opcode, counts, back))
}

fn saved_again(opcode: Opcode<'_>, counts: Counts, back: u64) -> u64
    ensures { result ≡ saturated (walked.saved_again (opcode_seen opcode.entry) counts back) }
{
    let saved = may_raise(opcode) && counts.tagged && saves(opcode);
    again(opcode, counts, back).saturating_add(u64::from(saved))
}

fn waits(opcode: Opcode<'_>) -> bool
    ensures { result ≡ spec.waits (opcode_seen opcode.entry) }
{
    matches!(opcode, Opcode::Wait { .. } | Opcode::WaitTimeout { .. })
}

// A call whose weight goes by the slots of the frame.
fn saves(opcode: Opcode<'_>) -> bool
    ensures { result ≡ spec.saves (opcode_seen opcode.entry) }
{
    match opcode {
        Opcode::Call {
            callee,
            kind: CallKind::Body,
            ..
        } => builtin_called(callee).is_none(),
        _ => false,
    }
}

/// So much, and so much for each. It stays at 2^64-1.
pub(crate) fn line(base: u64, each: u64, count: u64) -> u64
    ensures { result ≡ saturated (base + each * count) }
{
    base.saturating_add(each.saturating_mul(count))
}

fn callee_weight(callee: Callee<'_>) -> u64
    ensures { result ≡ spec.callee_weight (callee_seen callee.entry) }
{
    match callee {
        Callee::Local { .. } => 96,
        _ => 128,
    }
}

fn call_weight(callee: Callee<'_>, arity: u32, kept: u64) -> u64
    ensures { result ≡ saturated (spec.call_weight (callee_seen callee.entry) arity kept) }
{
    if builtin_called(callee).is_some() {
        return line(48, 8, u64::from(arity));
    }
    line(callee_weight(callee), 12, u64::from(arity)).saturating_add(line(0, 24, kept))
}

fn own_weight(opcode: Opcode<'_>, kept: u64) -> u64
    ensures { result ≡ saturated (spec.own_weight (opcode_seen opcode.entry) kept) }
{
    match opcode {
        Opcode::FuncInfo { .. } => 32,
        Opcode::Move { .. } => 10,
        Opcode::Swap { .. } => 16,
        Opcode::Trim { left, .. } => line(0, 8, u64::from(left)),
        Opcode::InitYregs { registers } => line(0, 10, registers.len() as u64),
        Opcode::Call {
            callee,
            arity,
            kind: CallKind::Body,
        } => call_weight(callee, arity, kept),
        Opcode::Call { arity, .. } => line(64, 12, u64::from(arity)),
        Opcode::Return => 16,
        Opcode::MakeFun2 { free, .. } => line(32, 10, u64::from(free)),
        Opcode::MakeFun3 { free, .. } => line(32, 10, free.len() as u64),
        Opcode::Send => 40,
        Opcode::Bif { arguments, .. } => line(24, 8, arguments.len() as u64),
        Opcode::PutList { .. } => 22,
        Opcode::PutTuple2 { elements, .. } => line(12, 10, elements.len() as u64),
        Opcode::GetList { .. } => 56,
        Opcode::Get { piece, .. } => piece_weight(piece),
        Opcode::SetTupleElement { .. } => 48,
        Opcode::PutMap { pairs, .. } => line(40, 20, pairs.len() as u64),
        Opcode::GetMapElements { gets, .. } => line(16, 40, gets.len() as u64),
        Opcode::Jump { .. } => 5,
        Opcode::SelectVal { cases, .. } | Opcode::SelectTupleArity { cases, .. } => {
            line(24, 20, cases.len() as u64)
        }
        Opcode::Test { .. } | Opcode::TestArity { .. } | Opcode::IsTaggedTuple { .. } => 32,
        Opcode::HasMapFields { keys, .. } => line(16, 20, keys.len() as u64),
        Opcode::LoopRec { .. } => 24,
        Opcode::RemoveMessage | Opcode::Timeout | Opcode::LoopRecEnd { .. } | Opcode::Wait { .. } =>
            8,
        Opcode::WaitTimeout { .. } => 64,
        Opcode::RecvMarker { marking } => marking_weight(marking),
        Opcode::Try { .. } => 8,
        Opcode::TryEnd { .. } => 4,
        Opcode::TryCase { .. } => 48,
        Opcode::CatchEnd { .. } => 24,
        Opcode::Unmatches { .. } => 56,
        Opcode::IfEnd | Opcode::Raise { .. } => 32,
        Opcode::RawRaise => 40,
        Opcode::BuildStacktrace => 16,
        Opcode::Label { .. }
        | Opcode::Line
        | Opcode::Comment
        | Opcode::Allocate { .. }
        | Opcode::TestHeap { .. }
        | Opcode::Deallocate { .. } => 0,
    }
}

fn piece_weight(piece: Piece) -> u64
    ensures { result ≡ walked.piece_weight (piece_seen piece) }
{
    match piece {
        Piece::Head | Piece::Tail => 32,
        Piece::Element { .. } => 40,
    }
}

fn marking_weight(marking: Marking) -> u64
    ensures { result ≡ walked.marking_weight (marking_seen marking) }
{
    match marking {
        Marking::Reserve { .. } => 8,
        Marking::Bind { .. } | Marking::Use { .. } | Marking::Clear { .. } => 0,
    }
}
