//! Comparisons, and the builtin functions on booleans (Erlang Reference Manual, "Term Comparisons", "Boolean
//! Expressions").

ghost use Rattle.std.specs.Prelude.{◌≡◌, IfOk, not};
ghost use Rattle.ej_term.specs.Booleans as booleans;
ghost use Rattle.ej_term.specs.Outcome as outcome;
ghost use Rattle.ej_term.specs.Outcome.{Value};
ghost use Rattle.ej_term.specs.Tests as tests;
ghost use Rattle.term_heap.specs.View.{Holds, term_of, Keeps};
ghost use Rattle.term_ops.specs.Answers.{Gives};
ghost use Rattle.term_ops.specs.Choosing.{function_of, comparison_of};

use crate::answer::PureAnswer;
use crate::order::{equal, less};
use crate::raise::{badarg, boolean, value};
use crate::read::truth;
use std::alloc::{AllocError, Global};
use term_heap::{Heap, TermId};

/// A comparison of two terms.
#[derive(Clone, Copy, Debug)]
pub(crate) enum Comparison {
    Equal,
    Different,
    AtMost,
    Less,
    AtLeast,
    Greater,
}

impl Comparison {
    /// Whether it holds of these two.
    fn holds(self, alloc: Global, heap: &Heap, a: TermId, b: TermId) -> Result<bool, AllocError>
        requires first { Holds heap.now a }
        requires second { Holds heap.now b }
        ensures { IfOk result (λ r. r ≡ comparison_of self (term_of heap.now a) (term_of heap.now b)) }
    {
        match self {
            Comparison::Equal => equal(alloc, heap, a, b),
            Comparison::Different => Ok(!equal(alloc, heap, a, b)?),
            Comparison::AtMost => Ok(!less(alloc, heap, b, a)?),
            Comparison::Less => less(alloc, heap, a, b),
            Comparison::AtLeast => Ok(!less(alloc, heap, a, b)?),
            Comparison::Greater => less(alloc, heap, b, a),
        }
    }
}

/// Whether a comparison of two terms holds.
pub(crate) fn compared(
    alloc: Global,
    heap: &mut Heap,
    comparison: Comparison,
    a: TermId,
    b: TermId,
) -> Result<PureAnswer, AllocError>
    requires first { Holds heap.old a }
    requires second { Holds heap.old b }
    ensures keeps { Keeps heap.old heap.new }
    ensures answer { IfOk result (λ r. Gives heap.new r (Value (outcome.boolean (comparison_of comparison (term_of heap.old a) (term_of heap.old b))))) }
{
    let holds = comparison.holds(alloc, heap, a, b)?;
    boolean(heap, holds)
}

/// An operation on two booleans.
#[derive(Clone, Copy, Debug)]
pub(crate) enum Junction {
    Both,
    Either,
    Differ,
}

impl Junction {
    /// What it gives for these two.
    fn apply(self, a: bool, b: bool) -> bool
        ensures { result ≡ function_of self a b }
    {
        match self {
            Junction::Both => a && b,
            Junction::Either => a || b,
            Junction::Differ => a != b,
        }
    }
}

/// The other boolean; error badarg of anything else.
pub(crate) fn negated(heap: &mut Heap, a: TermId) -> Result<PureAnswer, AllocError>
    requires { Holds heap.old a }
    ensures keeps { Keeps heap.old heap.new }
    ensures answer { IfOk result (λ r. Gives heap.new r (booleans.negated (booleans.truth (term_of heap.old a)))) }
{
    match truth(heap, a) {
        Some(a) => boolean(heap, !a),
        None => badarg(heap),
    }
}

/// An operation on two booleans; error badarg of anything else.
pub(crate) fn joined(
    heap: &mut Heap,
    junction: Junction,
    a: TermId,
    b: TermId,
) -> Result<PureAnswer, AllocError>
    requires first { Holds heap.old a }
    requires second { Holds heap.old b }
    ensures keeps { Keeps heap.old heap.new }
    ensures answer { IfOk result (λ r. Gives heap.new r (booleans.joined (function_of junction) (booleans.truth (term_of heap.old a)) (booleans.truth (term_of heap.old b)))) }
{
    let Some(a) = truth(heap, a) else {
        return badarg(heap);
    };
    let Some(b) = truth(heap, b) else {
        return badarg(heap);
    };
    boolean(heap, junction.apply(a, b))
}

/// The greater of two terms, and the first where they are equal.
pub(crate) fn maximum(
    alloc: Global,
    heap: &mut Heap,
    a: TermId,
    b: TermId,
) -> Result<PureAnswer, AllocError>
    requires first { Holds heap.old a }
    requires second { Holds heap.old b }
    ensures keeps { Keeps heap.old heap.new }
    ensures answer { IfOk result (λ r. Gives heap.new r (Value (booleans.maximum (term_of heap.old a) (term_of heap.old b)))) }
{
    if less(alloc, heap, a, b)? {
        Ok(value(heap, b))
    } else {
        Ok(value(heap, a))
    }
}

/// The lesser of two terms, and the first where they are equal.
pub(crate) fn minimum(
    alloc: Global,
    heap: &mut Heap,
    a: TermId,
    b: TermId,
) -> Result<PureAnswer, AllocError>
    requires first { Holds heap.old a }
    requires second { Holds heap.old b }
    ensures keeps { Keeps heap.old heap.new }
    ensures answer { IfOk result (λ r. Gives heap.new r (Value (booleans.minimum (term_of heap.old a) (term_of heap.old b)))) }
{
    if less(alloc, heap, b, a)? {
        Ok(value(heap, b))
    } else {
        Ok(value(heap, a))
    }
}
