//! Which of two terms is the lesser, and whether they are equal.

ghost use Rattle.std.specs.Prelude.{◌≡◌, IfOk};
ghost use Rattle.ej_term.specs.Tests as tests;
ghost use Rattle.term_heap.specs.View.{Holds, term_of};

use std::alloc::{AllocError, Global};
use std::cmp::Ordering;
use term_heap::{Heap, TermId, compare};

/// Whether the first goes before the second (Erlang Reference Manual, "Term Comparisons").
pub(crate) fn less(alloc: Global, heap: &Heap, a: TermId, b: TermId) -> Result<bool, AllocError>
    requires first { Holds heap.now a }
    requires second { Holds heap.now b }
    ensures { IfOk result (λ r. r ≡ tests.less (term_of heap.now a) (term_of heap.now b)) }
{
    let order = compare(alloc, heap, a, b)?;
    Ok(order == Ordering::Less)
}

/// Whether they are equal.
pub(crate) fn equal(alloc: Global, heap: &Heap, a: TermId, b: TermId) -> Result<bool, AllocError>
    requires first { Holds heap.now a }
    requires second { Holds heap.now b }
    ensures { IfOk result (λ r. r ≡ tests.equal (term_of heap.now a) (term_of heap.now b)) }
{
    let order = compare(alloc, heap, a, b)?;
    Ok(order == Ordering::Equal)
}
