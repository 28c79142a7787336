//! Lists of terms as their elements.

ghost use Rattle.std.specs.Prelude.{◌≡◌, option_map, IfOk, IfSome};
ghost use Rattle.ej_term.specs.Lists as lists;
ghost use Rattle.ej_term.specs.Term as term;
ghost use Rattle.ej_term.specs.Tests.{is_nil};
ghost use Rattle.term_heap.specs.View.{Holds, Stands, term_of, Keeps};
ghost use Rattle.term_heap.specs.Held.{HoldsEach, terms_at};
ghost use Rattle.term_ops.specs.Fronts.{IsFront};

use std::alloc::{AllocError, Global};
use term_heap::{Cell, Heap, TermId};

/// The head and the tail of a list that is not empty; None of anything else.
pub(crate) fn front(heap: &Heap, id: TermId) -> Option<(TermId, TermId)>
    requires { Holds heap.now id }
    ensures { IsFront heap.now (term_of heap.now id) result }
{
    match *heap.cell(id) {
        Cell::Cons(head, tail) => Some((head, tail)),
        _ => None,
    }
}

/// Whether the term is the empty list.
pub(crate) fn is_nil(heap: &Heap, id: TermId) -> bool
    requires { Holds heap.now id }
    ensures { result ≡ is_nil (term_of heap.now id) }
{
    matches!(heap.cell(id), Cell::Nil)
}

/// The elements of a proper list; None of anything else.
pub(crate) fn elements(
    alloc: Global,
    heap: &Heap,
    list: TermId,
) -> Result<Option<Vec<TermId>>, AllocError>
    requires { Holds heap.now list }
    ensures held { IfOk result (λ found. IfSome found (λ ids. HoldsEach heap.now ids.items)) }
    ensures elements { IfOk result (λ found. option_map (λ ids. terms_at heap.now ids.items) found ≡ lists.elements (term_of heap.now list)) }
{
    let mut ids = Vec::new(alloc);
    let mut rest = list;
    while let Some((head, tail)) = front(heap, rest) {
        ids.push(head)?;
        rest = tail;
    }
    if is_nil(heap, rest) {
        Ok(Some(ids))
    } else {
        Ok(None)
    }
}

/// The proper list of these elements.
pub(crate) fn list(heap: &mut Heap, ids: &[TermId]) -> Result<TermId, AllocError>
    requires { HoldsEach heap.old ids.now }
    ensures keeps { Keeps heap.old heap.new }
    ensures list { IfOk result (λ id. Stands heap.new id (term.list (terms_at heap.old ids.now))) }
{
    let nil = heap.nil()?;
    heap.list_onto(ids, nil)
}
