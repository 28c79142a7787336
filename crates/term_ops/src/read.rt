//! What terms of a heap are.

ghost use Rattle.std.specs.Prelude.{◌≡◌, option_map, IfSome};
ghost use Rattle.std.specs.Str.{chars};
ghost use Rattle.ej_term.specs.Booleans as booleans;
ghost use Rattle.term_heap.specs.View.{Holds, term_of};
ghost use Rattle.term_heap.specs.Held.{HoldsEach, terms_at};
ghost use Rattle.term_ops.specs.Parts.{integer_of, natural_of, truth_named, tuple_elements, arity_of};

use term_heap::{Cell, Heap, TermId};

/// The integer that a term is, or none.
pub(crate) fn integer(heap: &Heap, id: TermId) -> Option<i64>
    requires { Holds heap.now id }
    ensures { result ≡ integer_of (term_of heap.now id) }
{
    match *heap.cell(id) {
        Cell::Int(n) => Some(n),
        _ => None,
    }
}

/// The integer from 0 that a term is, or none.
pub(crate) fn natural(heap: &Heap, id: TermId) -> Option<u64>
    requires { Holds heap.now id }
    ensures { result ≡ natural_of (term_of heap.now id) }
{
    match *heap.cell(id) {
        Cell::Int(n) if n >= 0 => Some(n as u64),
        _ => None,
    }
}

/// The boolean that a term is, or none.
pub(crate) fn truth(heap: &Heap, id: TermId) -> Option<bool>
    requires { Holds heap.now id }
    ensures { result ≡ booleans.truth (term_of heap.now id) }
{
    match *heap.cell(id) {
        Cell::Atom(text) => boolean_named(heap.atom_text(text)),
        _ => None,
    }
}

/// The boolean of this name, or none.
fn boolean_named(name: &str) -> Option<bool>
    ensures { result ≡ truth_named (chars name.now) }
{
    match name {
        "true" => Some(true),
        "false" => Some(false),
        _ => None,
    }
}

/// The elements of a tuple, or none.
pub(crate) fn tuple(heap: &Heap, id: TermId) -> Option<&[TermId]>
    requires { Holds heap.now id }
    ensures held { IfSome result (λ ids. HoldsEach heap.now ids.now) }
    ensures elements { option_map (λ ids. terms_at heap.now ids.now) result ≡ tuple_elements (term_of heap.now id) }
{
    match *heap.cell(id) {
        Cell::Tuple(first, count) => Some(heap.parts(first, count)),
        _ => None,
    }
}

/// How many arguments a fun takes, or none.
pub(crate) fn arity(heap: &Heap, id: TermId) -> Option<u8>
    requires { Holds heap.now id }
    ensures { result ≡ arity_of (term_of heap.now id) }
{
    match *heap.cell(id) {
        Cell::Fun { arity, .. } => Some(arity),
        _ => None,
    }
}
