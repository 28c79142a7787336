//! Branches and tests.

ghost use Rattle.std.specs.Prelude.{◌≡◌, option_map};
ghost use Rattle.beam_code.specs.Decoded as spec;
ghost use Rattle.genop_table.specs.Tests.{arguments_of};
ghost use Rattle.beam_code.specs.declared.operand.Src.TheVariants as source;
ghost use Rattle.beam_code.specs.Opcode as o;
ghost use Rattle.beam_code.specs.Seen.{opcode_seen};

use crate::{LAST_COUNT, Opcode, Operand, Src};
use ej_term::Text;
use genop_table::TestArguments;

/// `{jump,{f,L}}`
pub(super) fn jump(operands: &[Operand]) -> Option<Opcode<'_>>
    ensures { option_map opcode_seen result ≡ spec.of_label o.Jump operands.now }
{
    match operands {
        [Operand::Label(label)] => Some(Opcode::Jump { label: *label }),
        _ => None,
    }
}

/// `{select_val,s,{f,L},{list,[s,{f,L}]}}`
pub(super) fn select_val(operands: &[Operand]) -> Option<Opcode<'_>>
    ensures { option_map opcode_seen result ≡ spec.of_cases o.SelectVal operands.now }
{
    match operands {
        [
            Operand::Src(value),
            Operand::Label(fail),
            Operand::Cases(cases),
        ] => Some(Opcode::SelectVal {
            value,
            fail: *fail,
            cases: cases.as_slice(),
        }),
        _ => None,
    }
}

/// `{select_tuple_arity,s,{f,L},{list,[n,{f,L}]}}`
pub(super) fn select_tuple_arity(operands: &[Operand]) -> Option<Opcode<'_>>
    ensures { option_map opcode_seen result ≡ spec.of_cases o.SelectTupleArity operands.now }
{
    match operands {
        [
            Operand::Src(tuple),
            Operand::Label(fail),
            Operand::Cases(cases),
        ] => Some(Opcode::SelectTupleArity {
            tuple,
            fail: *fail,
            cases: cases.as_slice(),
        }),
        _ => None,
    }
}

/// `{test,has_map_fields,{f,L},s,{list,[s]}}`
pub(super) fn has_map_fields(operands: &[Operand]) -> Option<Opcode<'_>>
    ensures { option_map opcode_seen result ≡ spec.has_map_fields operands.now }
{
    match operands {
        [
            Operand::Label(fail),
            Operand::Src(from),
            Operand::Srcs(keys),
        ] => Some(Opcode::HasMapFields {
            fail: *fail,
            from,
            keys: keys.as_slice(),
        }),
        _ => None,
    }
}

/// `{test,N,{f,L},[s]}`, `{test,test_arity,{f,L},[s,n]}`, `{test,is_tagged_tuple,{f,L},[s,n,{atom,T}]}`
pub(super) fn test(operands: &[Operand]) -> Option<Opcode<'_>>
    ensures { option_map opcode_seen result ≡ spec.test operands.now }
{
    match operands {
        [
            Operand::Name(test),
            Operand::Label(fail),
            Operand::Srcs(arguments),
        ] => { test_with(*test, *fail, arguments.as_slice()) }
        _ => None,
    }
}

fn test_with(test: u16, fail: u32, arguments: &[Src]) -> Option<Opcode<'_>>
    ensures { option_map opcode_seen result ≡ spec.test_with test fail arguments.now (arguments_of test) }
{
    match genop_table::test_arguments(test) {
        Some(TestArguments::SourceAndSize) => test_arity(fail, arguments),
        Some(TestArguments::SourceSizeAndTag) => is_tagged_tuple(fail, arguments),
        Some(TestArguments::OneSource | TestArguments::TwoSources) => Some(Opcode::Test {
            test,
            fail,
            arguments,
        }),
        None => None,
    }
}

fn test_arity(fail: u32, arguments: &[Src]) -> Option<Opcode<'_>>
    ensures { option_map opcode_seen result ≡ spec.test_arity fail arguments.now }
{
    match arguments {
        [tuple, number] => with_size(fail, tuple, size(number)),
        _ => None,
    }
}

fn with_size<'a>(fail: u32, tuple: &'a Src, size: Option<u32>) -> Option<Opcode<'a>>
    ensures { option_map opcode_seen result ≡ option_map (λ k. o.TestArity tuple.now fail k) size }
{
    Some(Opcode::TestArity {
        tuple,
        fail,
        size: size?,
    })
}

fn is_tagged_tuple(fail: u32, arguments: &[Src]) -> Option<Opcode<'_>>
    ensures { option_map opcode_seen result ≡ spec.is_tagged_tuple fail arguments.now }
{
    match arguments {
        [tuple, number, Src::Atom(tag)] => with_tag(fail, tuple, size(number), tag),
        _ => None,
    }
}

fn with_tag<'a>(fail: u32, tuple: &'a Src, size: Option<u32>, tag: &'a Text) -> Option<Opcode<'a>>
    ensures { option_map opcode_seen result ≡ option_map (λ k. o.IsTaggedTuple tuple.now fail k tag.now) size }
{
    Some(Opcode::IsTaggedTuple {
        tuple,
        fail,
        size: size?,
        tag,
    })
}

/// A size in the arguments of a test.
fn size(source: &Src) -> Option<u32>
    ensures { result ≡ spec.size source.now }
{
    match source {
        Src::Int(number) => count(*number),
        _ => None,
    }
}

fn count(number: i64) -> Option<u32>
    ensures { result ≡ spec.size (source.Int number) }
{
    if number < 0 {
        return None;
    }
    if number > i64::from(LAST_COUNT) {
        return None;
    }
    Some(number as u32)
}
