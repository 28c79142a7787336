//! The values that a module's code has in it.

ghost use Rattle.std.specs.Prelude.{◌≡◌, [], ◌∷◌, fold, map, IfOk, OnOk};
ghost use Rattle.std.specs.List.{filter_map};
ghost use Rattle.std.specs.Option.{option_map};
ghost use Rattle.erjang_top.specs.first_path.Opcode.{opcode};
ghost use Rattle.erjang_top.specs.first_path.Weights.{value_in as operand_in, with_value, distinct};
ghost use Rattle.erjang_top.specs.first_path.Code.{seen_source};
ghost use Rattle.erjang_top.specs.first_path.SeenValues.{seen_value, value_from, values_in};

use crate::first_path::code::{Code, Source, decode};
use beam_code::{Function, Instr};
use ej_term::Text;
use indexmap::IndexSet;
use std::alloc::{AllocError, Global};

/// A value that an instruction has in it.
#[derive(Clone, Copy, PartialEq, Eq, Hash)]
pub(crate) enum Value<'a> {
    Integer(i64),
    Atom(&'a Text),
    Nil,
}

/// Each value of the functions' code once, in the order of first use. The error says that memory was wanting.
pub(crate) fn distinct_values(
    alloc: Global,
    functions: &[Function],
) -> Result<IndexSet<Value<'_>>, AllocError>
    ensures { IfOk result (λ values. map seen_value values.keys ≡ distinct (values_in functions.now)) }
{
    let mut values: IndexSet<Value<'_>> = IndexSet::new(alloc);
    for function in functions {
        add_values(&mut values, function.code.as_slice())?;
    }
    Ok(values)
}

fn add_values<'a>(values: &mut IndexSet<Value<'a>>, code: &'a [Instr]) -> Result<(), AllocError>
    ensures { OnOk result (map seen_value values.new.keys ≡ fold with_value (map seen_value values.old.keys) (filter_map operand_in (map opcode code.now))) }
{
    for instr in code {
        add_value(values, instr)?;
    }
    Ok(())
}

fn add_value<'a>(values: &mut IndexSet<Value<'a>>, instr: &'a Instr) -> Result<(), AllocError>
    ensures { OnOk result (map seen_value values.new.keys ≡ fold with_value (map seen_value values.old.keys) (filter_map operand_in (opcode instr.now ∷ []))) }
{
    if let Some(value) = value_in(instr) {
        values.insert(value)?;
    }
    Ok(())
}

// The source operand, where it is no register.
fn value_in(instr: &Instr) -> Option<Value<'_>>
    ensures { option_map seen_value result ≡ operand_in (opcode instr.now) }
{
    match decode(instr) {
        Code::Move { from, .. } => value_of(from),
        _ => None,
    }
}

fn value_of(from: Source<'_>) -> Option<Value<'_>>
    ensures { option_map seen_value result ≡ value_from (seen_source from.entry) }
{
    match from {
        Source::X(_) => None,
        Source::Integer(number) => Some(Value::Integer(number)),
        Source::Atom(name) => Some(Value::Atom(name)),
        Source::Nil => Some(Value::Nil),
    }
}
