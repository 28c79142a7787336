//! Whether operands fit a row of the table of instructions.

ghost use Rattle.std.specs.Prelude.{◌≡◌, ℕ, List, option_map};
ghost use Rattle.std.specs.List.{list_all};
ghost use Rattle.genop_table.specs.BuiltinRows.{builtin_of};
ghost use Rattle.genop_table.specs.Builtins.{stands_in_guards as is_guarding};
ghost use Rattle.genop_table.specs.declared.part.Limit.{Limit as LimitOf};
ghost use Rattle.beam_code.specs.declared.operand.Operand.TheVariants as operand;
ghost use Rattle.beam_code.specs.RowFits as spec;

use crate::{LAST_COUNT, LAST_REGISTER, Operand, Reg, Src, holds_foreign};
use genop_table::{BuiltinRow, Limit, Part, Place, Standing, TestArguments};

/// The largest count at a place with that limit.
fn most(limit: Limit) -> u32
    ensures { result ≡ spec.most limit }
{
    match limit {
        Limit::Arguments => 255,
        Limit::Size => 1024,
        _ => LAST_COUNT,
    }
}

fn is_register(register: Reg) -> bool
    ensures { result ≡ spec.is_register register }
{
    match register {
        Reg::X(number) | Reg::Y(number) => number <= LAST_REGISTER,
    }
}

fn is_register_within(limit: Limit, register: Reg) -> bool
    ensures { result ≡ spec.is_register_within limit register }
{
    match (limit, register) {
        (Limit::Slot, Reg::X(_)) => false,
        _ => is_register(register),
    }
}

fn is_source(source: &Src) -> bool
    ensures { result ≡ spec.is_source source.now }
{
    match source {
        Src::Reg(register) => is_register(*register),
        Src::Literal(term) => !holds_foreign(term),
        Src::Int(_) | Src::Atom(_) | Src::Nil => true,
    }
}

fn is_atom(source: &Src) -> bool
    ensures { result ≡ spec.is_atom source.now }
{
    matches!(source, Src::Atom(_))
}

fn is_source_within(limit: Limit, source: &Src) -> bool
    ensures { result ≡ spec.is_source_within limit source.now }
{
    match limit {
        Limit::Atom => is_atom(source),
        _ => is_source(source),
    }
}

fn is_count(source: &Src) -> bool
    ensures { result ≡ spec.is_count source.now }
{
    match source {
        Src::Int(number) => 0 <= *number && *number <= i64::from(LAST_COUNT),
        _ => false,
    }
}

fn is_target(label: u32) -> bool
    ensures { result ≡ spec.is_target label }
{
    label > 0
}

fn is_label_within(limit: Limit, label: u32) -> bool
    ensures { result ≡ spec.is_label_within limit label }
{
    match limit {
        Limit::Target => is_target(label),
        Limit::Raises => label == 0,
        _ => true,
    }
}

fn is_case_value(source: &Src) -> bool
    ensures { result ≡ spec.is_case_value source.now }
{
    matches!(source, Src::Int(_) | Src::Atom(_))
}

/// Whether the sources are those that a test with these arguments takes.
fn test_takes(takes: Option<TestArguments>, arguments: &[Src]) -> bool
    ensures { result ≡ spec.test_takes takes arguments.now }
{
    match takes {
        Some(TestArguments::OneSource) => is_one_source(arguments),
        Some(TestArguments::TwoSources) => are_two_sources(arguments),
        Some(TestArguments::SourceAndSize) => is_source_with_size(arguments),
        Some(TestArguments::SourceSizeAndTag) => is_source_with_tag(arguments),
        None => false,
    }
}

fn is_one_source(arguments: &[Src]) -> bool
    ensures { result ≡ spec.is_one_source arguments.now }
{
    match arguments {
        [source] => is_source(source),
        _ => false,
    }
}

fn are_two_sources(arguments: &[Src]) -> bool
    ensures { result ≡ spec.are_two_sources arguments.now }
{
    match arguments {
        [one, other] => is_source(one) && is_source(other),
        _ => false,
    }
}

fn is_source_with_size(arguments: &[Src]) -> bool
    ensures { result ≡ spec.is_source_with_size arguments.now }
{
    match arguments {
        [source, size] => is_source(source) && is_count(size),
        _ => false,
    }
}

fn is_source_with_tag(arguments: &[Src]) -> bool
    ensures { result ≡ spec.is_source_with_tag arguments.now }
{
    match arguments {
        [source, size, tag] => is_source(source) && is_count(size) && is_atom(tag),
        _ => false,
    }
}

/// Whether the sources are as many as the guard builtin takes.
fn builtin_takes(builtin: Option<BuiltinRow>, arguments: &[Src]) -> bool
    ensures { result ≡ spec.builtin_takes (option_map builtin_of builtin) arguments.now }
{
    match builtin {
        Some(row) => stands_in_guards(row.standing)
            && usize::from(row.arity) == arguments.len()
            && are_sources(arguments),
        None => false,
    }
}

fn stands_in_guards(standing: Standing) -> bool
    ensures { result ≡ is_guarding standing }
{
    matches!(standing, Standing::Guard)
}

/// Whether the sources are a register with the trace, and the reason.
fn raise_takes(arguments: &[Src]) -> bool
    ensures { result ≡ spec.raise_takes arguments.now }
{
    match arguments {
        [Src::Reg(trace), reason] => is_register(*trace) && is_source(reason),
        _ => false,
    }
}

fn are_sources(sources: &[Src]) -> bool
    ensures { result ≡ list_all spec.is_source sources.now }
{
    for source in sources {
        if !is_source(source) {
            return false;
        }
    }
    true
}

/// Whether the sources are within the limit of their place, behind the test or builtin of that number.
fn are_sources_within(limit: Limit, number: u16, sources: &[Src]) -> bool
    ensures { result ≡ spec.are_sources_within limit number sources.now }
{
    match limit {
        Limit::OfTest => test_takes(genop_table::test_arguments(number), sources),
        Limit::OfBuiltin => builtin_takes(genop_table::builtin_row(number), sources),
        Limit::OfRaise => raise_takes(sources),
        _ => are_sources(sources),
    }
}

fn are_cases(cases: &[(Src, u32)]) -> bool
    ensures { result ≡ list_all spec.is_case cases.now }
{
    for (value, label) in cases {
        if !is_case_value(value) {
            return false;
        }
        if !is_target(*label) {
            return false;
        }
    }
    true
}

fn are_arities(cases: &[(Src, u32)]) -> bool
    ensures { result ≡ list_all spec.is_arity cases.now }
{
    for (size, label) in cases {
        if !is_count(size) {
            return false;
        }
        if !is_target(*label) {
            return false;
        }
    }
    true
}

fn are_pairs(pairs: &[(Src, Src)]) -> bool
    ensures { result ≡ list_all spec.is_pair pairs.now }
{
    for (key, value) in pairs {
        if !is_source(key) {
            return false;
        }
        if !is_source(value) {
            return false;
        }
    }
    true
}

fn are_gets(pairs: &[(Src, Reg)]) -> bool
    ensures { result ≡ list_all spec.is_get pairs.now }
{
    for (key, register) in pairs {
        if !is_source(key) {
            return false;
        }
        if !is_register(*register) {
            return false;
        }
    }
    true
}

fn are_registers(registers: &[Reg]) -> bool
    ensures { result ≡ list_all spec.is_register registers.now }
{
    for register in registers {
        if !is_register(*register) {
            return false;
        }
    }
    true
}

/// Whether an operand stands for a place; the number is that of the test or builtin before it.
fn fits_place(number: u16, place: Place, operand: &Operand) -> bool
    ensures { result ≡ spec.fits_part number place.limit place.part operand.now }
{
    let Place { part, limit } = place;
    match operand {
        Operand::Src(source) => part == Part::Src && is_source_within(limit, source),
        Operand::Reg(register) => part == Part::Reg && is_register_within(limit, *register),
        Operand::Label(label) => part == Part::Label && is_label_within(limit, *label),
        Operand::Count(count) => part == Part::Count && *count <= most(limit),
        Operand::Name(_) => part == Part::Name,
        Operand::Ext(_, _, arity) => is_external(part, *arity),
        Operand::Srcs(sources) => part == Part::Srcs
            && are_sources_within(limit, number, sources.as_slice()),
        Operand::Regs(registers) => part == Part::Regs && are_registers(registers.as_slice()),
        Operand::Cases(cases) => fits_cases(part, cases.as_slice()),
        Operand::Pairs(pairs) => part == Part::Pairs && are_pairs(pairs.as_slice()),
        Operand::Gets(pairs) => part == Part::Gets && are_gets(pairs.as_slice()),
    }
}

// An arity of one byte is at most 255, as that of a call must be.
fn is_external(part: Part, _arity: u8) -> bool
    ensures { (number : ℕ) (limit : LimitOf) (owner name : List ℕ) → result ≡ spec.fits_part number limit part (operand.Ext owner name _arity) }
{
    part == Part::Ext
}

fn fits_cases(part: Part, cases: &[(Src, u32)]) -> bool
    ensures { (number : ℕ) (limit : LimitOf) → result ≡ spec.fits_part number limit part (operand.Cases cases.now) }
{
    match part {
        Part::Cases => are_cases(cases),
        Part::Arities => are_arities(cases),
        _ => false,
    }
}

/// Whether a part keeps an operand.
fn is_kept(part: Part) -> bool
    ensures { result ≡ spec.is_kept part }
{
    !matches!(part, Part::Need | Part::Any)
}

fn number_behind(number: u16, operand: &Operand) -> u16
    ensures { result ≡ spec.number_behind number operand.now }
{
    match operand {
        Operand::Name(number) => *number,
        _ => number,
    }
}

/// Whether there is a row of that number, and the operands stand for its places.
pub(crate) fn fits(row: u16, operands: &[Operand]) -> bool
    ensures { result ≡ spec.fits row operands.now }
{
    match genop_table::row(row) {
        Some(row) => fits_places(row.places, operands),
        None => false,
    }
}

fn fits_places(places: &[Place], operands: &[Operand]) -> bool
    ensures { result ≡ spec.fits_places 0 places.now operands.now }
{
    let mut rest = operands;
    let mut number = 0;
    for place in places {
        if is_kept(place.part) {
            let Some((operand, behind)) = rest.split_first() else {
                return false;
            };
            if !fits_place(number, *place, operand) {
                return false;
            }
            number = number_behind(number, operand);
            rest = behind;
        }
    }
    rest.is_empty()
}
