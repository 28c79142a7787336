//! How many different sizes and places, and external functions, the functions of a module name.

ghost use Rattle.std.specs.Prelude.{◌≡◌, ℕ, nat_eq, [], ◌∷◌, map, IfOk, OnOk};
ghost use Rattle.std.specs.List.{cons_option, filter_map, flat_map};
ghost use Rattle.indexmap.specs.IndexSet.{contains};
ghost use Rattle.beam_code.specs.Code.{function_code, opcode as opcode_of};
ghost use Rattle.beam_code.specs.ConstantsSeen.{externals_seen, numbers_seen};
ghost use Rattle.beam_code.specs.Pool.{HasDifferent, externals_in, numbers_in, size_in};
ghost use Rattle.slot_kinds.specs.Named.{Gains, code_in};
ghost use Rattle.slot_kinds.specs.Walked.{Adds};

use beam_code::{External, Function, Instr, Numbers, Src, external_of, numbers_of};
use ej_term::Text;
use indexmap::IndexSet;
use std::alloc::{AllocError, Global};

/// How many different sizes of tuples and places in them functions name.
pub(crate) fn number_count(alloc: Global, functions: &[Function]) -> Result<u64, AllocError>
    ensures { IfOk result (λ n. HasDifferent (flat_map numbers_in (code_in (map function_code functions.now))) n) }
{
    let mut seen: IndexSet<u64> = IndexSet::new(alloc);
    for function in functions {
        add_code(function.code.as_slice(), &mut seen)?;
    }
    Ok(seen.len() as u64)
}

fn add_code(code: &[Instr], seen: &mut IndexSet<u64>) -> Result<(), AllocError>
    ensures { OnOk result (Adds (contains nat_eq seen.old) (contains nat_eq seen.new) (flat_map numbers_in (map opcode_of code.now))) }
{
    for instr in code {
        add_numbers(numbers_of(instr.opcode()), seen)?;
    }
    Ok(())
}

fn add_numbers(numbers: Numbers<'_>, seen: &mut IndexSet<u64>) -> Result<(), AllocError>
    ensures { OnOk result (Adds (contains nat_eq seen.old) (contains nat_eq seen.new) (numbers_seen numbers.entry)) }
{
    add_first(numbers.first, seen)?;
    add_sizes(numbers.cases, seen)
}

fn add_first(number: Option<u32>, seen: &mut IndexSet<u64>) -> Result<(), AllocError>
    ensures { OnOk result (Adds (contains nat_eq seen.old) (contains nat_eq seen.new) (cons_option number [])) }
{
    match number {
        Some(number) => add(u64::from(number), seen),
        None => Ok(()),
    }
}

fn add_sizes(cases: &[(Src, u32)], seen: &mut IndexSet<u64>) -> Result<(), AllocError>
    ensures { OnOk result (Adds (contains nat_eq seen.old) (contains nat_eq seen.new) (filter_map (λ c. size_in c.0) cases.now)) }
{
    for (size, _) in cases {
        add_size(size, seen)?;
    }
    Ok(())
}

fn add_size(source: &Src, seen: &mut IndexSet<u64>) -> Result<(), AllocError>
    ensures { OnOk result (Adds (contains nat_eq seen.old) (contains nat_eq seen.new) (cons_option (size_in source.now) [])) }
{
    match size_of(source) {
        Some(size) => add(size, seen),
        None => Ok(()),
    }
}

fn size_of(source: &Src) -> Option<u64>
    ensures { result ≡ size_in source.now }
{
    match source {
        Src::Int(size) => u64::try_from(*size).ok(),
        _ => None,
    }
}

fn add(number: u64, seen: &mut IndexSet<u64>) -> Result<(), AllocError>
    ensures { OnOk result (Adds (contains nat_eq seen.old) (contains nat_eq seen.new) (number ∷ [])) }
{
    seen.insert(number)?;
    Ok(())
}

/// How many different external functions functions call.
pub(crate) fn external_count(alloc: Global, functions: &[Function]) -> Result<u64, AllocError>
    ensures { IfOk result (λ n. HasDifferent (flat_map externals_in (code_in (map function_code functions.now))) n) }
{
    let mut seen: IndexSet<(Text, Text, u8)> = IndexSet::new(alloc);
    for function in functions {
        add_calls(function.code.as_slice(), &mut seen)?;
    }
    Ok(seen.len() as u64)
}

fn add_calls(code: &[Instr], seen: &mut IndexSet<(Text, Text, u8)>) -> Result<(), AllocError>
    ensures { OnOk result (Gains seen.old.keys seen.new.keys (flat_map externals_in (map opcode_of code.now))) }
{
    for instr in code {
        add_call(external_of(instr.opcode()), seen)?;
    }
    Ok(())
}

fn add_call(
    external: Option<External<'_>>,
    seen: &mut IndexSet<(Text, Text, u8)>,
) -> Result<(), AllocError>
    ensures { OnOk result (Gains seen.old.keys seen.new.keys (externals_seen external.entry)) }
{
    match external {
        Some(external) => add_external(external, seen),
        None => Ok(()),
    }
}

fn add_external(
    external: External<'_>,
    seen: &mut IndexSet<(Text, Text, u8)>,
) -> Result<(), AllocError>
    ensures { OnOk result (Gains seen.old.keys seen.new.keys ((external.entry.owner.now, external.entry.name.now, external.entry.arity) ∷ [])) }
{
    let owner = external.owner.clone()?;
    let name = external.name.clone()?;
    seen.insert((owner, name, external.arity))?;
    Ok(())
}
