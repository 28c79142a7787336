//! Registers, builtins, lists, tuples and maps.

ghost use Rattle.std.specs.Prelude.{◌≡◌, option_map};
ghost use Rattle.beam_code.specs.Decoded as spec;
ghost use Rattle.beam_code.specs.Opcode as o;
ghost use Rattle.beam_code.specs.Seen.{piece_seen, update_seen, opcode_seen};

use crate::{MapUpdate, Opcode, Operand, Piece};

/// `{move,s,d}`
pub(super) fn moves(operands: &[Operand]) -> Option<Opcode<'_>>
    ensures { option_map opcode_seen result ≡ spec.move operands.now }
{
    match operands {
        [Operand::Src(from), Operand::Reg(to)] => Some(Opcode::Move { from, to: *to }),
        _ => None,
    }
}

/// `{swap,d,d}`
pub(super) fn swap(operands: &[Operand]) -> Option<Opcode<'_>>
    ensures { option_map opcode_seen result ≡ spec.of_registers o.Swap operands.now }
{
    match operands {
        [Operand::Reg(one), Operand::Reg(other)] => Some(Opcode::Swap {
            one: *one,
            other: *other,
        }),
        _ => None,
    }
}

/// `{bif,N,{f,L},[s],d}`
pub(super) fn bif(operands: &[Operand]) -> Option<Opcode<'_>>
    ensures { option_map opcode_seen result ≡ spec.bif operands.now }
{
    match operands {
        [
            Operand::Name(builtin),
            Operand::Label(fail),
            Operand::Srcs(arguments),
            Operand::Reg(to),
        ] => Some(Opcode::Bif {
            builtin: *builtin,
            fail: *fail,
            live: None,
            arguments: arguments.as_slice(),
            to: *to,
        }),
        _ => None,
    }
}

/// `{gc_bif,N,{f,L},Live,[s],d}`
pub(super) fn gc_bif(operands: &[Operand]) -> Option<Opcode<'_>>
    ensures { option_map opcode_seen result ≡ spec.gc_bif operands.now }
{
    match operands {
        [
            Operand::Name(builtin),
            Operand::Label(fail),
            Operand::Count(live),
            Operand::Srcs(arguments),
            Operand::Reg(to),
        ] => Some(Opcode::Bif {
            builtin: *builtin,
            fail: *fail,
            live: Some(*live),
            arguments: arguments.as_slice(),
            to: *to,
        }),
        _ => None,
    }
}

/// `{put_list,s,s,d}`
pub(super) fn put_list(operands: &[Operand]) -> Option<Opcode<'_>>
    ensures { option_map opcode_seen result ≡ spec.put_list operands.now }
{
    match operands {
        [Operand::Src(head), Operand::Src(tail), Operand::Reg(to)] => Some(Opcode::PutList {
            head,
            tail,
            to: *to,
        }),
        _ => None,
    }
}

/// `{put_tuple2,d,{list,[s]}}`
pub(super) fn put_tuple2(operands: &[Operand]) -> Option<Opcode<'_>>
    ensures { option_map opcode_seen result ≡ spec.put_tuple2 operands.now }
{
    match operands {
        [Operand::Reg(to), Operand::Srcs(elements)] => Some(Opcode::PutTuple2 {
            to: *to,
            elements: elements.as_slice(),
        }),
        _ => None,
    }
}

/// `{get_list,d,d,d}`
pub(super) fn get_list(operands: &[Operand]) -> Option<Opcode<'_>>
    ensures { option_map opcode_seen result ≡ spec.get_list operands.now }
{
    match operands {
        [Operand::Reg(from), Operand::Reg(head), Operand::Reg(tail)] => Some(Opcode::GetList {
            from: *from,
            head: *head,
            tail: *tail,
        }),
        _ => None,
    }
}

/// `{get_hd,d,d}`, `{get_tl,d,d}`
pub(super) fn get(piece: Piece, operands: &[Operand]) -> Option<Opcode<'_>>
    ensures { option_map opcode_seen result ≡ spec.of_registers (o.Get (piece_seen piece)) operands.now }
{
    match operands {
        [Operand::Reg(from), Operand::Reg(to)] => Some(Opcode::Get {
            piece,
            from: *from,
            to: *to,
        }),
        _ => None,
    }
}

/// `{get_tuple_element,d,n,d}`
pub(super) fn get_tuple_element(operands: &[Operand]) -> Option<Opcode<'_>>
    ensures { option_map opcode_seen result ≡ spec.get_tuple_element operands.now }
{
    match operands {
        [Operand::Reg(from), Operand::Count(place), Operand::Reg(to)] => Some(Opcode::Get {
            piece: Piece::Element { place: *place },
            from: *from,
            to: *to,
        }),
        _ => None,
    }
}

/// `{set_tuple_element,s,d,n}`
pub(super) fn set_tuple_element(operands: &[Operand]) -> Option<Opcode<'_>>
    ensures { option_map opcode_seen result ≡ spec.set_tuple_element operands.now }
{
    match operands {
        [
            Operand::Src(value),
            Operand::Reg(tuple),
            Operand::Count(place),
        ] => Some(Opcode::SetTupleElement {
            value,
            tuple: *tuple,
            place: *place,
        }),
        _ => None,
    }
}

/// `{put_map_assoc,{f,L},s,d,n,{list,[s,s]}}`, `{put_map_exact,{f,L},s,d,n,{list,[s,s]}}`
pub(super) fn put_map(update: MapUpdate, operands: &[Operand]) -> Option<Opcode<'_>>
    ensures { option_map opcode_seen result ≡ spec.put_map (update_seen update) operands.now }
{
    match operands {
        [
            Operand::Label(fail),
            Operand::Src(from),
            Operand::Reg(to),
            Operand::Count(_),
            Operand::Pairs(pairs),
        ] => Some(Opcode::PutMap {
            update,
            fail: *fail,
            from,
            to: *to,
            pairs: pairs.as_slice(),
        }),
        _ => None,
    }
}

/// `{get_map_elements,{f,L},s,{list,[s,d]}}`
pub(super) fn get_map_elements(operands: &[Operand]) -> Option<Opcode<'_>>
    ensures { option_map opcode_seen result ≡ spec.get_map_elements operands.now }
{
    match operands {
        [
            Operand::Label(fail),
            Operand::Src(from),
            Operand::Gets(gets),
        ] => Some(Opcode::GetMapElements {
            fail: *fail,
            from,
            gets: gets.as_slice(),
        }),
        _ => None,
    }
}
