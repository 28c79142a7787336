//! The builtin functions that make tuples, and lists of them.

ghost use Rattle.std.specs.Prelude.{◌≡◌, option_map, IfOk, IfSome};
ghost use Rattle.ej_term.specs.Builtins as builtins;
ghost use Rattle.ej_term.specs.Tuples as tuples;
ghost use Rattle.term_heap.specs.View.{Holds, term_of, Keeps};
ghost use Rattle.term_heap.specs.Held.{HoldsEach, terms_at};
ghost use Rattle.term_ops.specs.Answers.{Gives};
ghost use Rattle.term_ops.specs.Parts.{tuple_or_badarg};

use crate::access::place_from_one;
use crate::answer::PureAnswer;
use crate::elements::{elements, list};
use crate::raise::badarg;
use crate::read::{natural, tuple};
use std::alloc::{AllocError, Global};
use term_heap::{Heap, TermId};

/// The most elements of a tuple that `make_tuple/2` makes.
const MOST_ELEMENTS: u64 = 16_777_215;

/// `setelement/3`: the tuple with another element at a place from 1; error badarg where there is none.
pub(crate) fn setelement(
    alloc: Global,
    heap: &mut Heap,
    place: TermId,
    id: TermId,
    value: TermId,
) -> Result<PureAnswer, AllocError>
    requires place { Holds heap.old place }
    requires tuple { Holds heap.old id }
    requires value { Holds heap.old value }
    ensures keeps { Keeps heap.old heap.new }
    ensures answer { IfOk result (λ a. Gives heap.new a (tuples.setelement (term_of heap.old place) (term_of heap.old id) (term_of heap.old value))) }
{
    match replaced(alloc, heap, place, id, value)? {
        Some(elements) => Ok(PureAnswer::Value(heap.tuple(&elements)?)),
        None => badarg(heap),
    }
}

/// The elements of a tuple with another one at a place from 1, or none.
fn replaced(
    alloc: Global,
    heap: &Heap,
    place: TermId,
    id: TermId,
    value: TermId,
) -> Result<Option<Vec<TermId>>, AllocError>
    requires place { Holds heap.now place }
    requires tuple { Holds heap.now id }
    requires value { Holds heap.now value }
    ensures held { IfOk result (λ found. IfSome found (λ ids. HoldsEach heap.now ids.items)) }
    ensures elements { IfOk result (λ found. tuple_or_badarg (option_map (λ ids. terms_at heap.now ids.items) found) ≡ tuples.setelement (term_of heap.now place) (term_of heap.now id) (term_of heap.now value)) }
{
    let Some(place) = place_from_one(heap, place) else {
        return Ok(None);
    };
    let Some(elements) = tuple(heap, id) else {
        return Ok(None);
    };
    if place >= elements.len() {
        return Ok(None);
    }
    let mut elements = Vec::from_slice(alloc, elements)?;
    elements[place] = value;
    Ok(Some(elements))
}

/// `tuple_to_list/1`: the list of a tuple's elements; error badarg of anything else.
pub(crate) fn tuple_to_list(
    alloc: Global,
    heap: &mut Heap,
    id: TermId,
) -> Result<PureAnswer, AllocError>
    requires { Holds heap.old id }
    ensures keeps { Keeps heap.old heap.new }
    ensures answer { IfOk result (λ a. Gives heap.new a (tuples.tuple_to_list (term_of heap.old id))) }
{
    let Some(parts) = tuple(heap, id) else {
        return badarg(heap);
    };
    let parts = Vec::from_slice(alloc, parts)?;
    Ok(PureAnswer::Value(list(heap, &parts)?))
}

/// `list_to_tuple/1`: the tuple of a proper list's elements; error badarg of anything else.
pub(crate) fn list_to_tuple(
    alloc: Global,
    heap: &mut Heap,
    id: TermId,
) -> Result<PureAnswer, AllocError>
    requires { Holds heap.old id }
    ensures keeps { Keeps heap.old heap.new }
    ensures answer { IfOk result (λ a. Gives heap.new a (builtins.list_to_tuple (term_of heap.old id))) }
{
    match elements(alloc, heap, id)? {
        Some(parts) => Ok(PureAnswer::Value(heap.tuple(&parts)?)),
        None => badarg(heap),
    }
}

/// `make_tuple/2`: a tuple of a size from 0 to 16777215, all of whose elements are one term; error badarg of
/// another size.
pub(crate) fn make_tuple(
    alloc: Global,
    heap: &mut Heap,
    size: TermId,
    value: TermId,
) -> Result<PureAnswer, AllocError>
    requires size { Holds heap.old size }
    requires value { Holds heap.old value }
    ensures keeps { Keeps heap.old heap.new }
    ensures answer { IfOk result (λ a. Gives heap.new a (tuples.make_tuple (term_of heap.old size) (term_of heap.old value))) }
{
    match natural(heap, size) {
        Some(size) if size <= MOST_ELEMENTS => {
            let elements = vec![in alloc; value; size as usize]?;
            Ok(PureAnswer::Value(heap.tuple(&elements)?))
        }
        _ => badarg(heap),
    }
}
