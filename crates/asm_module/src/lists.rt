//! The lists in a form, each element read alike.

ghost use Rattle.std.specs.Prelude.{◌≡◌, Option, option_and_then};
ghost use Rattle.std.specs.Option.{option_zip};
ghost use Rattle.ej_term.specs.declared.asm_term.AsmTerm.{AsmTerm as AsmTermOf};
ghost use Rattle.asm_module.specs.Elements.{elements_seen};
ghost use Rattle.asm_module.specs.Operands as spec;
ghost use Rattle.asm_module.specs.Seen.{Reads, ReadsAs};
ghost use Rattle.asm_module.specs.Terms.{each as each_of, elements as elements_of};

use crate::part_fault::PartFault;
use crate::terms::{ListOf, behind, elements};
use ej_term::AsmTerm;
use sqlite_items::Items;
use std::alloc::Global;

/// How a part of a form is read from one term.
pub(crate) trait Reader {
    type Read: Drop;

    /// What the term is read as, where it has the part's shape.
    ghost reads: { AsmTermOf → Option Self.Read };

    fn read(alloc: Global, term: &AsmTerm) -> Result<Self::Read, PartFault>
        ensures { Reads result (reads term.now) };
}

/// What each term is read as.
pub(crate) fn each<R: Reader>(alloc: Global, terms: &[AsmTerm]) -> Result<Items<R::Read>, PartFault>
    ensures { Reads result (each_of R.reads terms.now) }
{
    let mut all = Items::new(alloc);
    for term in terms {
        all.push(R::read(alloc, term)?)?;
    }
    Ok(all)
}

/// A term with the one behind it.
fn both<A: Reader, B: Reader>(
    alloc: Global,
    first: &AsmTerm,
    second: &AsmTerm,
) -> Result<(A::Read, B::Read), PartFault>
    ensures { Reads result (option_zip (A.reads first.now) (B.reads second.now)) }
{
    let first = A::read(alloc, first)?;
    let second = B::read(alloc, second)?;
    Ok((first, second))
}

/// What the terms are read as two by two.
pub(crate) fn two_by_two<A: Reader, B: Reader>(
    alloc: Global,
    terms: &[AsmTerm],
) -> Result<Items<(A::Read, B::Read)>, PartFault>
    ensures { Reads result (spec.two_by_two A.reads B.reads terms.now) }
{
    let mut pairs = Items::new(alloc);
    let mut rest = terms;
    while let Some((first, behind)) = rest.split_first() {
        let Some((second, behind)) = behind.split_first() else {
            return Err(PartFault::Shape);
        };
        pairs.push(both::<A, B>(alloc, first, second)?)?;
        rest = behind;
    }
    Ok(pairs)
}

/// The elements of a list or a string.
pub(crate) fn elements_in(alloc: Global, term: &AsmTerm) -> Result<ListOf<'_>, PartFault>
    ensures { ReadsAs elements_seen result (elements_of term.now) }
{
    elements(alloc, term)?.ok_or(PartFault::Shape)
}

/// The elements of `{list,L}`.
fn listed(alloc: Global, term: &AsmTerm) -> Result<ListOf<'_>, PartFault>
    ensures { ReadsAs elements_seen result (spec.listed term.now) }
{
    let list = behind("list", term).ok_or(PartFault::Shape)?;
    elements_in(alloc, list)
}

/// What each element of a list or a string is read as.
pub(crate) fn each_element<R: Reader>(
    alloc: Global,
    term: &AsmTerm,
) -> Result<Items<R::Read>, PartFault>
    ensures { Reads result (option_and_then (each_of R.reads) (elements_of term.now)) }
{
    let terms = elements_in(alloc, term)?;
    each::<R>(alloc, terms.as_slice())
}

/// What each element of `{list,L}` is read as.
pub(crate) fn each_listed<R: Reader>(
    alloc: Global,
    term: &AsmTerm,
) -> Result<Items<R::Read>, PartFault>
    ensures { Reads result (option_and_then (each_of R.reads) (spec.listed term.now)) }
{
    let terms = listed(alloc, term)?;
    each::<R>(alloc, terms.as_slice())
}

/// What the elements of `{list,L}` are read as two by two.
pub(crate) fn pairs_listed<A: Reader, B: Reader>(
    alloc: Global,
    term: &AsmTerm,
) -> Result<Items<(A::Read, B::Read)>, PartFault>
    ensures { Reads result (option_and_then (spec.two_by_two A.reads B.reads) (spec.listed term.now)) }
{
    let terms = listed(alloc, term)?;
    two_by_two::<A, B>(alloc, terms.as_slice())
}
