//! The operands of an instruction's form, by the parts of its row's shape.

ghost use Rattle.std.specs.Prelude.{◌≡◌, List, Option, option_and_then};
ghost use Rattle.asm_module.specs.Terms.{each as each_of, elements as elements_of};
ghost use Rattle.asm_module.specs.Operands as spec;
ghost use Rattle.asm_module.specs.Seen.{Reads, ReadsAs};

use crate::lists::{each, each_element, each_listed, elements_in, pairs_listed};
use crate::part_fault::PartFault;
use crate::sources::{
    LabelReader, RegisterReader, SizeReader, SourceReader, count_of, label_of, register_of,
    size_of, source_of,
};
use crate::terms::{atom, behind, is_word, number, tagged};
use beam_code::{LAST_COUNT, Operand, Src};
use ej_term::AsmTerm;
use genop_table::{Limit, Part, Place, TestArguments};
use sqlite_items::Items;
use std::alloc::Global;

/// Module, name and arity of an external function.
fn external_named(owner: &AsmTerm, name: &AsmTerm, arity: &AsmTerm) -> Result<Operand, PartFault>
    ensures { Reads result (spec.external_named owner.now name.now arity.now) }
{
    let owner = atom(owner).ok_or(PartFault::Shape)?;
    let name = atom(name).ok_or(PartFault::Shape)?;
    let arity = number(255, arity).ok_or(PartFault::Shape)?;
    Ok(Operand::Ext(owner.clone()?, name.clone()?, arity as u8))
}

/// `{extfunc,M,F,A}`.
fn external_of(term: &AsmTerm) -> Result<Operand, PartFault>
    ensures { Reads result (spec.external_of term.now) }
{
    let (word, parts) = tagged(term).ok_or(PartFault::Shape)?;
    if !is_word(word, "extfunc") {
        return Err(PartFault::Shape);
    }
    match parts {
        [owner, name, arity] => external_named(owner, name, arity),
        _ => Err(PartFault::Shape),
    }
}

/// A source, a count, and sources.
fn sized(alloc: Global, terms: &[AsmTerm]) -> Result<Items<Src>, PartFault>
    ensures { Reads result (spec.sized terms.now) }
{
    let (first, behind) = terms.split_first().ok_or(PartFault::Shape)?;
    let (size, rest) = behind.split_first().ok_or(PartFault::Shape)?;
    let mut all = Items::new(alloc);
    all.push(source_of(alloc, first)?)?;
    all.push(size_of(size).ok_or(PartFault::Shape)?)?;
    all.append(each::<SourceReader>(alloc, rest)?)?;
    Ok(all)
}

fn takes_size(takes: Option<TestArguments>) -> bool
    ensures { result ≡ spec.takes_size takes }
{
    matches!(
        takes,
        Some(TestArguments::SourceAndSize | TestArguments::SourceSizeAndTag)
    )
}

/// The elements of a list as sources, of the arguments of a test.
fn test_sources(
    alloc: Global,
    takes: Option<TestArguments>,
    term: &AsmTerm,
) -> Result<Items<Src>, PartFault>
    ensures { Reads result (option_and_then (spec.test_sources takes) (elements_of term.now)) }
{
    let terms = elements_in(alloc, term)?;
    if takes_size(takes) {
        return sized(alloc, terms.as_slice());
    }
    each::<SourceReader>(alloc, terms.as_slice())
}

/// A list of sources, behind the test or builtin of that number.
fn sources_of(
    alloc: Global,
    limit: Limit,
    number: u16,
    term: &AsmTerm,
) -> Result<Items<Src>, PartFault>
    ensures { Reads result (spec.sources_of limit number term.now) }
{
    match limit {
        Limit::OfTest => test_sources(alloc, genop_table::test_arguments(number), term),
        Limit::OfBuiltin | Limit::OfRaise => each_element::<SourceReader>(alloc, term),
        _ => each_listed::<SourceReader>(alloc, term),
    }
}

/// The operand at a place of the shape; the number is that of the test or builtin that the form names.
fn operand_of(
    alloc: Global,
    limit: Limit,
    number: u16,
    part: Part,
    term: &AsmTerm,
) -> Result<Operand, PartFault>
    ensures { Reads result (spec.operand_of limit number part term.now) }
{
    Ok(match part {
        Part::Src => Operand::Src(source_of(alloc, term)?),
        Part::Reg => Operand::Reg(register_of(term).ok_or(PartFault::Shape)?),
        Part::Label => Operand::Label(label_of(term).ok_or(PartFault::Shape)?),
        Part::Count => Operand::Count(count_of(term).ok_or(PartFault::Shape)?),
        Part::Name => Operand::Name(number),
        Part::Ext => external_of(term)?,
        Part::Srcs => Operand::Srcs(sources_of(alloc, limit, number, term)?),
        Part::Cases => Operand::Cases(pairs_listed::<SourceReader, LabelReader>(alloc, term)?),
        Part::Arities => Operand::Cases(pairs_listed::<SizeReader, LabelReader>(alloc, term)?),
        Part::Pairs => Operand::Pairs(pairs_listed::<SourceReader, SourceReader>(alloc, term)?),
        Part::Gets => Operand::Gets(pairs_listed::<SourceReader, RegisterReader>(alloc, term)?),
        Part::Regs => Operand::Regs(each_listed::<RegisterReader>(alloc, term)?),
        Part::Need | Part::Any => return Err(PartFault::Shape),
    })
}

/// Whether the term is a count or `{alloc,_}`.
fn is_need(term: &AsmTerm) -> bool
    ensures { result ≡ spec.is_need term.now }
{
    count_of(term).is_some() || behind("alloc", term).is_some()
}

/// What is kept of a term: nothing of what is needed of the heap and of what is not looked at, and else its operand.
#[tactic(auto, unfolding(crate::specs::Operands::kept_of))]
fn kept_of(
    alloc: Global,
    place: &Place,
    number: u16,
    term: &AsmTerm,
) -> Result<Option<Operand>, PartFault>
    ensures { ReadsAs spec.one_or_none result (spec.kept_of place.now.limit number place.now.part term.now) }
{
    match place.part {
        Part::Need if is_need(term) => Ok(None),
        Part::Need => Err(PartFault::Shape),
        Part::Any => Ok(None),
        part => Ok(Some(operand_of(alloc, place.limit, number, part, term)?)),
    }
}

/// The operands of the terms behind an instruction's name, by the places of its row.
pub(crate) fn operands_of(
    alloc: Global,
    number: u16,
    places: &[Place],
    terms: &[AsmTerm],
) -> Result<Items<Operand>, PartFault>
    ensures { Reads result (spec.operands_of number places.now terms.now) }
{
    let mut operands = Items::new(alloc);
    let mut rest = terms;
    for place in places {
        let Some((term, behind)) = rest.split_first() else {
            return Err(PartFault::Shape);
        };
        if let Some(operand) = kept_of(alloc, place, number, term)? {
            operands.push(operand)?;
        }
        rest = behind;
    }
    if !rest.is_empty() {
        return Err(PartFault::Shape);
    }
    Ok(operands)
}
