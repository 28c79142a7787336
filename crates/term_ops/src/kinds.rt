//! Tests of a term's kind (Erlang Reference Manual, "Guard Sequences").

ghost use Rattle.std.specs.Prelude.{◌≡◌};
ghost use Rattle.ej_term.specs.Tests as tests;
ghost use Rattle.term_heap.specs.View.{Holds, term_of};

use crate::read::truth;
use term_heap::{Cell, Heap, TermId};

pub(crate) fn is_integer(heap: &Heap, id: TermId) -> bool
    requires { Holds heap.now id }
    ensures { result ≡ tests.is_integer (term_of heap.now id) }
{
    matches!(heap.cell(id), Cell::Int(_))
}

pub(crate) fn is_atom(heap: &Heap, id: TermId) -> bool
    requires { Holds heap.now id }
    ensures { result ≡ tests.is_atom (term_of heap.now id) }
{
    matches!(heap.cell(id), Cell::Atom(_))
}

pub(crate) fn is_pid(heap: &Heap, id: TermId) -> bool
    requires { Holds heap.now id }
    ensures { result ≡ tests.is_pid (term_of heap.now id) }
{
    matches!(heap.cell(id), Cell::Pid(_, _))
}

pub(crate) fn is_reference(heap: &Heap, id: TermId) -> bool
    requires { Holds heap.now id }
    ensures { result ≡ tests.is_reference (term_of heap.now id) }
{
    matches!(heap.cell(id), Cell::Reference(_, _))
}

pub(crate) fn is_nil(heap: &Heap, id: TermId) -> bool
    requires { Holds heap.now id }
    ensures { result ≡ tests.is_nil (term_of heap.now id) }
{
    matches!(heap.cell(id), Cell::Nil)
}

pub(crate) fn is_nonempty_list(heap: &Heap, id: TermId) -> bool
    requires { Holds heap.now id }
    ensures { result ≡ tests.is_nonempty_list (term_of heap.now id) }
{
    matches!(heap.cell(id), Cell::Cons(_, _))
}

/// Nil, or a list of elements with whatever tail.
pub(crate) fn is_list(heap: &Heap, id: TermId) -> bool
    requires { Holds heap.now id }
    ensures { result ≡ tests.is_list (term_of heap.now id) }
{
    is_nil(heap, id) || is_nonempty_list(heap, id)
}

pub(crate) fn is_tuple(heap: &Heap, id: TermId) -> bool
    requires { Holds heap.now id }
    ensures { result ≡ tests.is_tuple (term_of heap.now id) }
{
    matches!(heap.cell(id), Cell::Tuple(_, _))
}

pub(crate) fn is_map(heap: &Heap, id: TermId) -> bool
    requires { Holds heap.now id }
    ensures { result ≡ tests.is_map (term_of heap.now id) }
{
    matches!(heap.cell(id), Cell::Map(_, _))
}

pub(crate) fn is_function(heap: &Heap, id: TermId) -> bool
    requires { Holds heap.now id }
    ensures { result ≡ tests.is_function (term_of heap.now id) }
{
    matches!(heap.cell(id), Cell::Fun { .. })
}

pub(crate) fn is_boolean(heap: &Heap, id: TermId) -> bool
    requires { Holds heap.now id }
    ensures { result ≡ tests.is_boolean (term_of heap.now id) }
{
    truth(heap, id).is_some()
}
