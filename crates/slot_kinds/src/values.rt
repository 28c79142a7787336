//! How many different values functions have in their code: the source operands that are no registers.

ghost use Rattle.std.specs.Prelude.{◌≡◌, [], ◌∷◌, map as each, not, IfOk, OnOk};
ghost use Rattle.std.specs.List.{flat_map};
ghost use Rattle.beam_code.specs.Code.{function_code, opcode as opcode_of};
ghost use Rattle.beam_code.specs.ConstantsSeen.{behind_first, more_seen, sources_seen};
ghost use Rattle.beam_code.specs.Pool.{HasDifferent, both, is_value, values_in};
ghost use Rattle.slot_kinds.specs.Named.{Gains, code_in, values};

use beam_code::{Function, Instr, MoreSources, Reg, Sources, Src, sources_of};
use indexmap::IndexSet;
use std::alloc::{AllocError, Global};

/// How many different values functions have in their code.
pub(crate) fn value_count(alloc: Global, functions: &[Function]) -> Result<u64, AllocError>
    ensures { IfOk result (λ n. HasDifferent (flat_map values_in (code_in (each function_code functions.now))) n) }
{
    let mut seen: IndexSet<Src> = IndexSet::new(alloc);
    for function in functions {
        add_code(alloc, function.code.as_slice(), &mut seen)?;
    }
    Ok(seen.len() as u64)
}

fn add_code(alloc: Global, code: &[Instr], seen: &mut IndexSet<Src>) -> Result<(), AllocError>
    ensures { OnOk result (Gains seen.old.keys seen.new.keys (flat_map values_in (each opcode_of code.now))) }
{
    for instr in code {
        add_sources(alloc, sources_of(instr.opcode()), seen)?;
    }
    Ok(())
}

fn add_sources(
    alloc: Global,
    sources: Sources<'_>,
    seen: &mut IndexSet<Src>,
) -> Result<(), AllocError>
    ensures { OnOk result (Gains seen.old.keys seen.new.keys (values (sources_seen sources.entry))) }
{
    add_first(alloc, sources.first, seen)?;
    add_more(alloc, sources.rest, seen)?;
    Ok(())
}

fn add_first(alloc: Global, first: Option<&Src>, seen: &mut IndexSet<Src>) -> Result<(), AllocError>
    ensures { OnOk result (Gains seen.old.keys seen.new.keys (values (behind_first first.entry []))) }
{
    match first {
        Some(source) => add(alloc, source, seen),
        None => Ok(()),
    }
}

fn add_more(
    alloc: Global,
    sources: MoreSources<'_>,
    seen: &mut IndexSet<Src>,
) -> Result<(), AllocError>
    ensures { OnOk result (Gains seen.old.keys seen.new.keys (values (more_seen sources.entry))) }
{
    match sources {
        MoreSources::Each(sources) => add_each(alloc, sources, seen),
        MoreSources::One(source) => add(alloc, source, seen),
        MoreSources::Atom(name) => add_value(Src::Atom(name.clone()?), seen),
        MoreSources::Pairs(pairs) => add_pairs(alloc, pairs, seen),
        MoreSources::Keys(gets) => add_keys(alloc, gets, seen),
        MoreSources::Cases(cases) => add_cases(alloc, cases, seen),
    }
}

fn add_each(alloc: Global, sources: &[Src], seen: &mut IndexSet<Src>) -> Result<(), AllocError>
    ensures { OnOk result (Gains seen.old.keys seen.new.keys (values sources.now)) }
{
    for source in sources {
        add(alloc, source, seen)?;
    }
    Ok(())
}

fn add_pairs(
    alloc: Global,
    pairs: &[(Src, Src)],
    seen: &mut IndexSet<Src>,
) -> Result<(), AllocError>
    ensures { OnOk result (Gains seen.old.keys seen.new.keys (values (both pairs.now))) }
{
    for (key, value) in pairs {
        add(alloc, key, seen)?;
        add(alloc, value, seen)?;
    }
    Ok(())
}

fn add_keys(alloc: Global, gets: &[(Src, Reg)], seen: &mut IndexSet<Src>) -> Result<(), AllocError>
    ensures { OnOk result (Gains seen.old.keys seen.new.keys (values (each (λ g. g.0) gets.now))) }
{
    for (key, _) in gets {
        add(alloc, key, seen)?;
    }
    Ok(())
}

fn add_cases(
    alloc: Global,
    cases: &[(Src, u32)],
    seen: &mut IndexSet<Src>,
) -> Result<(), AllocError>
    ensures { OnOk result (Gains seen.old.keys seen.new.keys (values (each (λ c. c.0) cases.now))) }
{
    for (value, _) in cases {
        add(alloc, value, seen)?;
    }
    Ok(())
}

fn add(alloc: Global, source: &Src, seen: &mut IndexSet<Src>) -> Result<(), AllocError>
    ensures { OnOk result (Gains seen.old.keys seen.new.keys (values (source.now ∷ []))) }
{
    if is_register(source) {
        return Ok(());
    }
    add_value(source.copy(alloc)?, seen)
}

fn is_register(source: &Src) -> bool
    ensures { result ≡ not (is_value source.now) }
{
    matches!(source, Src::Reg(_))
}

fn add_value(value: Src, seen: &mut IndexSet<Src>) -> Result<(), AllocError>
    ensures { OnOk result (Gains seen.old.keys seen.new.keys (value ∷ [])) }
{
    seen.insert(value)?;
    Ok(())
}
