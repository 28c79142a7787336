//! Registers, labels, counts and sources, each one term of a form.

ghost use Rattle.std.specs.Prelude.{◌≡◌};
ghost use Rattle.asm_module.specs.Operands as spec;
ghost use Rattle.asm_module.specs.Seen.{Reads};

use crate::lists::Reader;
use crate::part_fault::PartFault;
use crate::terms::{atom, behind, integer, is_word, number, pair};
use beam_code::{LAST_COUNT, LAST_REGISTER, Reg, Src};
use ej_term::{AsmTerm, Text};
use std::alloc::Global;

/// A register of that name and number.
fn register_named(name: &Text, part: &AsmTerm) -> Option<Reg>
    ensures { result ≡ spec.register_named (name.now, part.now) }
{
    if is_word(name, "x") {
        return match number(u32::from(LAST_REGISTER), part) {
            Some(number) => Some(Reg::X(number as u16)),
            None => None,
        };
    }
    if is_word(name, "y") {
        return match number(u32::from(LAST_REGISTER), part) {
            Some(number) => Some(Reg::Y(number as u16)),
            None => None,
        };
    }
    None
}

/// `{x,N}` or `{y,N}`.
pub(crate) fn register_of(term: &AsmTerm) -> Option<Reg>
    ensures { result ≡ spec.register_of term.now }
{
    match pair(term) {
        Some((name, part)) => register_named(name, part),
        None => None,
    }
}

/// `{f,L}`.
pub(crate) fn label_of(term: &AsmTerm) -> Option<u32>
    ensures { result ≡ spec.label_of term.now }
{
    match behind("f", term) {
        Some(label) => number(LAST_COUNT, label),
        None => None,
    }
}

/// A count.
pub(crate) fn count_of(term: &AsmTerm) -> Option<u32>
    ensures { result ≡ spec.count_of term.now }
{
    number(LAST_COUNT, term)
}

/// An integer that a count may be, as a source.
pub(crate) fn size_of(term: &AsmTerm) -> Option<Src>
    ensures { result ≡ spec.size_of term.now }
{
    match count_of(term) {
        Some(number) => Some(Src::Int(i64::from(number))),
        None => None,
    }
}

/// An atom as a source.
fn atom_value(term: &AsmTerm) -> Result<Src, PartFault>
    ensures { Reads result (spec.atom_value term.now) }
{
    let name = atom(term).ok_or(PartFault::Shape)?;
    Ok(Src::Atom(name.clone()?))
}

/// A source of that name.
fn value_named(alloc: Global, name: &Text, part: &AsmTerm) -> Result<Src, PartFault>
    ensures { Reads result (spec.value_named (name.now, part.now)) }
{
    if is_word(name, "integer") {
        return Ok(Src::Int(integer(part).ok_or(PartFault::Shape)?));
    }
    if is_word(name, "atom") {
        return atom_value(part);
    }
    if is_word(name, "literal") {
        return Ok(Src::Literal(part.copy(alloc)?));
    }
    let register = register_named(name, part).ok_or(PartFault::Shape)?;
    Ok(Src::Reg(register))
}

/// `nil`.
fn nil_of(term: &AsmTerm) -> Option<Src>
    ensures { result ≡ spec.nil_of term.now }
{
    let name = atom(term)?;
    if !is_word(name, "nil") {
        return None;
    }
    Some(Src::Nil)
}

/// `{x,N}`, `{y,N}`, `{integer,I}`, `{atom,A}`, `nil` or `{literal,T}`.
pub(crate) fn source_of(alloc: Global, term: &AsmTerm) -> Result<Src, PartFault>
    ensures { Reads result (spec.source_of term.now) }
{
    match pair(term) {
        Some((name, part)) => value_named(alloc, name, part),
        None => nil_of(term).ok_or(PartFault::Shape),
    }
}

/// Reads a source.
pub(crate) struct SourceReader;

impl Reader for SourceReader {
    type Read = Src;

    ghost reads = { spec.source_of };

    fn read(alloc: Global, term: &AsmTerm) -> Result<Src, PartFault> {
        source_of(alloc, term)
    }
}

/// Reads an integer that a count may be, as a source.
pub(crate) struct SizeReader;

impl Reader for SizeReader {
    type Read = Src;

    ghost reads = { spec.size_of };

    fn read(_: Global, term: &AsmTerm) -> Result<Src, PartFault> {
        size_of(term).ok_or(PartFault::Shape)
    }
}

/// Reads a register.
pub(crate) struct RegisterReader;

impl Reader for RegisterReader {
    type Read = Reg;

    ghost reads = { spec.register_of };

    fn read(_: Global, term: &AsmTerm) -> Result<Reg, PartFault> {
        register_of(term).ok_or(PartFault::Shape)
    }
}

/// Reads a label.
pub(crate) struct LabelReader;

impl Reader for LabelReader {
    type Read = u32;

    ghost reads = { spec.label_of };

    fn read(_: Global, term: &AsmTerm) -> Result<u32, PartFault> {
        label_of(term).ok_or(PartFault::Shape)
    }
}
