//! Tests of a tuple's size and first element, and of the count of a fun's arguments.

ghost use Rattle.std.specs.Prelude.{◌≡◌, IfOk};
ghost use Rattle.ej_term.specs.Tests as tests;
ghost use Rattle.term_heap.specs.View.{Holds, term_of, Keeps};
ghost use Rattle.ej_term.specs.Builtins as builtins;
ghost use Rattle.term_ops.specs.Answers.{Gives};

use crate::answer::PureAnswer;
use crate::order::equal;
use crate::raise::{badarg, boolean};
use crate::read::{arity, natural, tuple};
use std::alloc::{AllocError, Global};
use term_heap::{Heap, TermId};

/// Whether the first is a tuple of the size that is the second.
pub(crate) fn has_arity(heap: &Heap, id: TermId, size: TermId) -> bool
    requires first { Holds heap.now id }
    requires second { Holds heap.now size }
    ensures { result ≡ tests.has_arity (term_of heap.now id) (term_of heap.now size) }
{
    let Some(elements) = tuple(heap, id) else {
        return false;
    };
    let Some(n) = natural(heap, size) else {
        return false;
    };
    elements.len() as u64 == n
}

/// Whether the first is a fun that takes as many arguments as the second says.
pub(crate) fn takes(heap: &Heap, id: TermId, count: TermId) -> bool
    requires first { Holds heap.now id }
    requires second { Holds heap.now count }
    ensures { result ≡ tests.takes (term_of heap.now id) (term_of heap.now count) }
{
    let Some(arity) = arity(heap, id) else {
        return false;
    };
    let Some(n) = natural(heap, count) else {
        return false;
    };
    u64::from(arity) == n
}

/// `is_function/2`: whether the first is a fun that takes as many arguments as the second says; error badarg where
/// the second is no integer from 0.
pub(crate) fn is_function_of(
    heap: &mut Heap,
    id: TermId,
    count: TermId,
) -> Result<PureAnswer, AllocError>
    requires first { Holds heap.old id }
    requires second { Holds heap.old count }
    ensures keeps { Keeps heap.old heap.new }
    ensures answer { IfOk result (λ a. Gives heap.new a (builtins.is_function_of (term_of heap.old id) (term_of heap.old count))) }
{
    match natural(heap, count) {
        Some(_) => {
            let holds = takes(heap, id, count);
            boolean(heap, holds)
        }
        None => badarg(heap),
    }
}

/// Whether the first is a tuple whose first element is equal to the second.
pub(crate) fn begins_with(
    alloc: Global,
    heap: &Heap,
    id: TermId,
    tag: TermId,
) -> Result<bool, AllocError>
    requires first { Holds heap.now id }
    requires second { Holds heap.now tag }
    ensures { IfOk result (λ r. r ≡ tests.begins_with (term_of heap.now id) (term_of heap.now tag)) }
{
    let Some(elements) = tuple(heap, id) else {
        return Ok(false);
    };
    match elements.first() {
        Some(first) => equal(alloc, heap, *first, tag),
        None => Ok(false),
    }
}

/// Whether the first is a tuple of the size that is the second, and its first element is equal to the third.
pub(crate) fn is_tagged_tuple(
    alloc: Global,
    heap: &Heap,
    id: TermId,
    size: TermId,
    tag: TermId,
) -> Result<bool, AllocError>
    requires first { Holds heap.now id }
    requires second { Holds heap.now size }
    requires third { Holds heap.now tag }
    ensures { IfOk result (λ r. r ≡ tests.is_tagged_tuple (term_of heap.now id) (term_of heap.now size) (term_of heap.now tag)) }
{
    if has_arity(heap, id, size) {
        begins_with(alloc, heap, id, tag)
    } else {
        Ok(false)
    }
}
