//! The instruction that a row and its operands stand for.

ghost use Rattle.std.specs.Prelude.{◌≡◌, option_map};
ghost use Rattle.beam_code.specs.Decoded as spec;
ghost use Rattle.beam_code.specs.Seen.{opcode_seen};

mod branches;
mod calls;
mod data;
mod exceptions;
mod frames;
mod receives;

use crate::{CallKind, MapUpdate, Opcode, Operand, Piece, Unmatched};
use genop_table::Genop;

/// By the row's number. None where there is none, or the operands are not those of the row.
pub(crate) fn decoded_row(row: u16, operands: &[Operand]) -> Option<Opcode<'_>>
    ensures { option_map opcode_seen result ≡ spec.decoded_row row operands.now }
{
    match genop_table::row(row) {
        Some(row) => decoded(row.genop, operands),
        None => None,
    }
}

// By the row.
fn decoded(genop: Genop, operands: &[Operand]) -> Option<Opcode<'_>>
    ensures { option_map opcode_seen result ≡ spec.decoded genop operands.now }
{
    match genop {
        Genop::Label => frames::label(operands),
        Genop::Line => alone(Opcode::Line, operands),
        Genop::Comment => alone(Opcode::Comment, operands),
        Genop::FuncInfo => frames::func_info(operands),
        Genop::Move => data::moves(operands),
        Genop::Swap => data::swap(operands),
        Genop::Allocate => frames::allocate(operands),
        Genop::AllocateHeap => frames::allocate(operands),
        Genop::TestHeap => frames::test_heap(operands),
        Genop::Deallocate => frames::deallocate(operands),
        Genop::Trim => frames::trim(operands),
        Genop::InitYregs => frames::init_yregs(operands),
        Genop::Call => calls::local_call(CallKind::Body, operands),
        Genop::CallExt => calls::external_call(CallKind::Body, operands),
        Genop::CallFun => calls::call_fun(operands),
        Genop::Apply => calls::apply(operands),
        Genop::CallOnly => calls::local_call(CallKind::Only, operands),
        Genop::CallExtOnly => calls::external_call(CallKind::Only, operands),
        Genop::CallLast => calls::call_last(operands),
        Genop::CallExtLast => calls::call_ext_last(operands),
        Genop::ApplyLast => calls::apply_last(operands),
        Genop::Return => alone(Opcode::Return, operands),
        Genop::MakeFun2 => calls::make_fun2(operands),
        Genop::MakeFun3 => calls::make_fun3(operands),
        Genop::Send => alone(Opcode::Send, operands),
        Genop::Bif => data::bif(operands),
        Genop::GcBif => data::gc_bif(operands),
        Genop::PutList => data::put_list(operands),
        Genop::PutTuple2 => data::put_tuple2(operands),
        Genop::GetList => data::get_list(operands),
        Genop::GetHd => data::get(Piece::Head, operands),
        Genop::GetTl => data::get(Piece::Tail, operands),
        Genop::GetTupleElement => data::get_tuple_element(operands),
        Genop::SetTupleElement => data::set_tuple_element(operands),
        Genop::PutMapAssoc => data::put_map(MapUpdate::Assoc, operands),
        Genop::PutMapExact => data::put_map(MapUpdate::Exact, operands),
        Genop::GetMapElements => data::get_map_elements(operands),
        Genop::Jump => branches::jump(operands),
        Genop::SelectVal => branches::select_val(operands),
        Genop::SelectTupleArity => branches::select_tuple_arity(operands),
        Genop::Test => branches::test(operands),
        Genop::HasMapFields => branches::has_map_fields(operands),
        Genop::LoopRec => receives::loop_rec(operands),
        Genop::RemoveMessage => alone(Opcode::RemoveMessage, operands),
        Genop::Timeout => alone(Opcode::Timeout, operands),
        Genop::LoopRecEnd => receives::loop_rec_end(operands),
        Genop::Wait => receives::wait(operands),
        Genop::WaitTimeout => receives::wait_timeout(operands),
        Genop::RecvMarkerReserve => receives::marker_reserve(operands),
        Genop::RecvMarkerBind => receives::marker_bind(operands),
        Genop::RecvMarkerUse => receives::marker_use(operands),
        Genop::RecvMarkerClear => receives::marker_clear(operands),
        Genop::Try => exceptions::try_or_catch(operands),
        Genop::Catch => exceptions::try_or_catch(operands),
        Genop::TryEnd => exceptions::try_end(operands),
        Genop::TryCase => exceptions::try_case(operands),
        Genop::CatchEnd => exceptions::catch_end(operands),
        Genop::Badmatch => exceptions::unmatched(Unmatched::Badmatch, operands),
        Genop::CaseEnd => exceptions::unmatched(Unmatched::CaseEnd, operands),
        Genop::TryCaseEnd => exceptions::unmatched(Unmatched::TryCaseEnd, operands),
        Genop::IfEnd => alone(Opcode::IfEnd, operands),
        Genop::Raise => exceptions::raise(operands),
        Genop::RawRaise => alone(Opcode::RawRaise, operands),
        Genop::BuildStacktrace => alone(Opcode::BuildStacktrace, operands),
    }
}

// An instruction that has no operands.
fn alone<'a>(opcode: Opcode<'a>, operands: &[Operand]) -> Option<Opcode<'a>>
    ensures { option_map opcode_seen result ≡ spec.alone (opcode_seen opcode.entry) operands.now }
{
    match operands {
        [] => Some(opcode),
        _ => None,
    }
}
