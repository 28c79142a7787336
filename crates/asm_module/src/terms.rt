//! The parts of a form.

ghost use Rattle.std.specs.Prelude.{◌≡◌, List, map, length, Option, option_map, IfOk};
ghost use Rattle.asm_module.specs.Terms as spec;
ghost use Rattle.asm_module.specs.Elements.{elements_seen};

use ej_term::{AsmTerm, Text};
use sqlite_items::Items;
use std::alloc::{AllocError, Global};

/// Whether a name is that word.
pub(crate) fn is_word(name: &Text, word: &str) -> bool
    ensures { result ≡ spec.is_word name.now word.now }
{
    name.as_str() == word
}

/// An atom's name.
pub(crate) fn atom(term: &AsmTerm) -> Option<&Text>
    ensures { option_map (λ name. name.now) result ≡ spec.atom term.now }
{
    match term {
        AsmTerm::Atom(name) => Some(name),
        _ => None,
    }
}

/// An integer of 64 bits.
pub(crate) fn integer(term: &AsmTerm) -> Option<i64>
    ensures { result ≡ spec.integer term.now }
{
    match term {
        AsmTerm::Int(number) => Some(*number),
        _ => None,
    }
}

/// The integer, where it is from 0 to the largest.
fn up_to(most: u32, number: i64) -> Option<u32>
    ensures { result ≡ spec.up_to most number }
{
    if number < 0 {
        return None;
    }
    if number > i64::from(most) {
        return None;
    }
    Some(number as u32)
}

/// An integer from 0 to the largest.
pub(crate) fn number(most: u32, term: &AsmTerm) -> Option<u32>
    ensures { result ≡ spec.number most term.now }
{
    match integer(term) {
        Some(number) => up_to(most, number),
        None => None,
    }
}

/// A tuple's elements.
pub(crate) fn tuple(term: &AsmTerm) -> Option<&[AsmTerm]>
    ensures { option_map (λ parts. parts.now) result ≡ spec.tuple term.now }
{
    match term {
        AsmTerm::Tuple(parts) => Some(parts.as_slice()),
        _ => None,
    }
}

/// An atom and what stands behind it, of a tuple that begins with an atom.
pub(crate) fn tagged(term: &AsmTerm) -> Option<(&Text, &[AsmTerm])>
    ensures { option_map (λ t. (t.0.now, t.1.now)) result ≡ spec.tagged term.now }
{
    let parts = tuple(term)?;
    let (first, rest) = parts.split_first()?;
    let name = atom(first)?;
    Some((name, rest))
}

/// An atom and the one term behind it.
pub(crate) fn pair(term: &AsmTerm) -> Option<(&Text, &AsmTerm)>
    ensures { option_map (λ p. (p.0.now, p.1.now)) result ≡ spec.pair term.now }
{
    let (name, rest) = tagged(term)?;
    match rest {
        [part] => Some((name, part)),
        _ => None,
    }
}

/// The one term behind that word.
pub(crate) fn behind<'a>(word: &str, term: &'a AsmTerm) -> Option<&'a AsmTerm>
    ensures { option_map (λ part. part.now) result ≡ spec.behind word.now term.now }
{
    let (name, part) = pair(term)?;
    if !is_word(name, word) {
        return None;
    }
    Some(part)
}

/// The elements of a list: as they are, or made of a string's characters.
#[derive(Drop)]
pub(crate) enum ListOf<'a> {
    Terms(&'a [AsmTerm]),
    Characters(Items<AsmTerm>),
}

impl ListOf<'_> {
    pub(crate) fn as_slice(&self) -> &[AsmTerm]
        ensures { result.now ≡ elements_seen self.now }
    {
        match self {
            ListOf::Terms(terms) => terms,
            ListOf::Characters(terms) => terms.as_slice(),
        }
    }
}

/// The elements of a list or a string. The error says that memory was wanting.
pub(crate) fn elements(alloc: Global, term: &AsmTerm) -> Result<Option<ListOf<'_>>, AllocError>
    ensures { IfOk result (λ found. option_map elements_seen found ≡ spec.elements term.now) }
{
    match term {
        AsmTerm::List(parts, None) => Ok(Some(ListOf::Terms(parts.as_slice()))),
        AsmTerm::Str(characters) => Ok(Some(ListOf::Characters(integers(
            alloc,
            characters.as_slice(),
        )?))),
        _ => Ok(None),
    }
}

/// The integers of characters.
fn integers(alloc: Global, characters: &[u32]) -> Result<Items<AsmTerm>, AllocError>
    ensures { IfOk result (λ terms. terms ≡ map spec.integer_of characters.now) }
{
    let mut terms = Items::new(alloc);
    for character in characters {
        terms.push(AsmTerm::Int(i64::from(*character)))?;
    }
    Ok(terms)
}

/// How many elements a list or a string has.
pub(crate) fn element_count(term: &AsmTerm) -> Option<usize>
    ensures { result ≡ option_map length (spec.elements term.now) }
{
    match term {
        AsmTerm::List(parts, None) => Some(parts.len()),
        AsmTerm::Str(characters) => Some(characters.len()),
        _ => None,
    }
}
