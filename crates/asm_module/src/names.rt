//! The names in an instruction's form.

ghost use Rattle.std.specs.Prelude.{◌≡◌, List, Option, Some, option_map, codes, if◌then◌else◌};
ghost use Rattle.genop_table.specs.InstructionRows.{instruction_of};
ghost use Rattle.genop_table.specs.Instructions.{spelling_of};
ghost use Rattle.asm_module.specs.Terms.{is_word as is_that_word};
ghost use Rattle.asm_module.specs.Instructions as spec;
ghost use Rattle.asm_module.specs.Seen.{written_seen};

use crate::terms::{atom, element_count, is_word, tagged};
use beam_code::holds_foreign;
use ej_term::{AsmTerm, Text};
use genop_table::{Genop, InstructionRow};

/// An instruction as it is written: its name, and the terms behind it, none where it is an atom alone.
#[derive(Clone, Copy)]
pub(crate) struct Written<'a> {
    pub(crate) name: &'a Text,
    pub(crate) terms: Option<&'a [AsmTerm]>,
}

/// An atom, or a tuple that begins with one.
pub(crate) fn written_form(term: &AsmTerm) -> Option<Written<'_>>
    ensures { option_map written_seen result ≡ spec.written term.now }
{
    if let Some(name) = atom(term) {
        return Some(Written { name, terms: None });
    }
    let (name, terms) = tagged(term)?;
    Some(Written {
        name,
        terms: Some(terms),
    })
}

/// The terms behind the name.
pub(crate) fn terms_of<'a>(written: &Written<'a>) -> &'a [AsmTerm]
    ensures { result.now ≡ spec.terms_of (written_seen written.now) }
{
    match written.terms {
        Some(terms) => terms,
        None => &[],
    }
}

/// The first row of that name.
#[tactic(auto, unfolding(crate::specs::Instructions::row_named))]
pub(crate) fn row_named(name: &Text) -> Option<InstructionRow>
    ensures { option_map instruction_of result ≡ spec.row_named name.now }
{
    genop_table::spelling(name.as_str().as_bytes(), 0)
}

/// Whether it is `{line,_}` or `{'%',_}`, in which anything may stand.
fn is_free(written: &Written<'_>) -> bool
    ensures { result ≡ spec.is_free (written_seen written.now) }
{
    if !is_word(written.name, "line") && !is_word(written.name, "%") {
        return false;
    }
    terms_of(written).len() == 1
}

/// Whether an opaque token, a pid or a reference is anywhere in an instruction that may not have one.
#[tactic(auto, unfolding(crate::specs::Instructions::has_foreign))]
pub(crate) fn has_foreign(term: &AsmTerm, written: &Written<'_>) -> bool
    ensures { result ≡ spec.has_foreign term.now (written_seen written.now) }
{
    holds_foreign(term) && !is_free(written)
}

#[tactic(auto, unfolding(crate::specs::Instructions::test_number))]
fn test_number(name: &Text) -> Option<u16>
    ensures { result ≡ spec.test_number name.now }
{
    genop_table::test(name.as_str().as_bytes())
}

/// The number of the builtin of the module `erlang` of that name and arity.
#[tactic(auto, unfolding(crate::specs::Instructions::erlang_number))]
fn erlang_number(name: &Text, arity: u8) -> Option<u16>
    ensures { result ≡ spec.erlang_number name.now arity }
{
    genop_table::builtin(b"erlang", name.as_str().as_bytes(), arity)
}

fn if_guard(number: u16) -> Option<u16>
    ensures { result ≡ spec.if_guard number }
{
    if !genop_table::guard(number) {
        return None;
    }
    Some(number)
}

/// The number of the guard builtin of that name and arity.
fn guard_number(name: &Text, arity: usize) -> Option<u16>
    ensures { result ≡ spec.guard_number name.now arity }
{
    if arity > 255 {
        return None;
    }
    match erlang_number(name, arity as u8) {
        Some(number) => if_guard(number),
        None => None,
    }
}

/// The atom that names the test or the builtin.
fn named(terms: &[AsmTerm]) -> Option<&Text>
    ensures { option_map (λ name. name.now) result ≡ spec.named terms.now }
{
    match terms.first() {
        Some(term) => atom(term),
        None => None,
    }
}

/// How many arguments there are, where the term at that place is a list.
fn argument_count(place: usize, terms: &[AsmTerm]) -> Option<usize>
    ensures { result ≡ spec.argument_count place terms.now }
{
    match terms.get(place) {
        Some(term) => element_count(term),
        None => None,
    }
}

/// Whether `gc_bif` may name the builtin, with so many arguments where these are a list, and else of any arity.
fn is_guard_with(name: &Text, arguments: Option<usize>) -> bool
    ensures { result ≡ spec.is_guard_with name.now arguments }
{
    match arguments {
        Some(arity) => guard_number(name, arity).is_some(),
        None => genop_table::is_guard_name(name.as_str().as_bytes()),
    }
}

fn are_two(arguments: Option<usize>) -> bool
    ensures { result ≡ spec.are_two arguments }
{
    match arguments {
        Some(count) => count == 2,
        None => true,
    }
}

/// Whether `bif` may name the builtin: `raise` with two arguments, or with what is no list, may stand there too.
fn is_bif(name: &Text, arguments: Option<usize>) -> bool
    ensures { result ≡ spec.is_bif name.now arguments }
{
    if is_word(name, "raise") {
        return are_two(arguments);
    }
    is_guard_with(name, arguments)
}

fn is_test(name: &Text) -> bool
    ensures { result ≡ spec.is_test name.now }
{
    if is_word(name, "has_map_fields") {
        return true;
    }
    test_number(name).is_some()
}

/// Whether the instruction may have that name in it.
fn is_known_in(genop: Genop, terms: &[AsmTerm], name: &Text) -> bool
    ensures { result ≡ spec.is_known_in genop terms.now name.now }
{
    match genop {
        Genop::Test => is_test(name),
        Genop::Bif => is_bif(name, argument_count(2, terms)),
        Genop::GcBif => is_guard_with(name, argument_count(3, terms)),
        _ => true,
    }
}

/// The name of what is no test, or no guard builtin of that arity.
#[tactic(auto, unfolding(crate::specs::Instructions::unknown_name))]
pub(crate) fn unknown_name(genop: Genop, terms: &[AsmTerm]) -> Option<&Text>
    ensures { option_map (λ name. name.now) result ≡ spec.unknown_name genop terms.now }
{
    let name = named(terms)?;
    if is_known_in(genop, terms, name) {
        return None;
    }
    Some(name)
}

/// The row of an instruction whose first row by name is that one: `raise` under `bif` and `has_map_fields` under
/// `test` have rows of their own.
#[tactic(auto, unfolding(crate::specs::Instructions::row_of))]
pub(crate) fn row_of(row: InstructionRow, terms: &[AsmTerm]) -> Option<InstructionRow>
    ensures { option_map instruction_of result ≡ spec.row_of (instruction_of row) terms.now }
{
    match named(terms) {
        Some(name) => row_with(row, name),
        None => Some(row),
    }
}

fn row_with(row: InstructionRow, name: &Text) -> Option<InstructionRow>
    ensures { option_map instruction_of result ≡ spec.row_with row.genop (instruction_of row) name.now }
{
    match row.genop {
        Genop::Bif => raise_or(row, name),
        Genop::Test => has_map_fields_or(row, name),
        _ => Some(row),
    }
}

fn raise_or(row: InstructionRow, name: &Text) -> Option<InstructionRow>
    ensures { option_map instruction_of result ≡ (if is_that_word name.now (codes "raise") then spelling_of (codes "bif") 1 else Some (instruction_of row)) }
{
    if is_word(name, "raise") {
        return genop_table::spelling(b"bif", 1);
    }
    Some(row)
}

fn has_map_fields_or(row: InstructionRow, name: &Text) -> Option<InstructionRow>
    ensures { option_map instruction_of result ≡ (if is_that_word name.now (codes "has_map_fields") then spelling_of (codes "test") 1 else Some (instruction_of row)) }
{
    if is_word(name, "has_map_fields") {
        return genop_table::spelling(b"test", 1);
    }
    Some(row)
}

/// The number of the test or guard builtin of that name.
fn number_for(genop: Genop, terms: &[AsmTerm], name: &Text) -> Option<u16>
    ensures { result ≡ spec.number_for genop terms.now name.now }
{
    match genop {
        Genop::Test => test_number(name),
        Genop::Bif => guard_number(name, argument_count(2, terms)?),
        Genop::GcBif => guard_number(name, argument_count(3, terms)?),
        _ => Some(0),
    }
}

/// The number of the test or guard builtin that the form names, 0 where it names none.
pub(crate) fn number_in(genop: Genop, terms: &[AsmTerm]) -> u16
    ensures { result ≡ spec.number_in genop terms.now }
{
    match named(terms) {
        Some(name) => number_for(genop, terms, name).unwrap_or(0),
        None => 0,
    }
}
