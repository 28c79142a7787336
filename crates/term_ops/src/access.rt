//! The parts of lists and tuples.

ghost use Rattle.std.specs.Prelude.{◌≡◌, option_map, IfOk, IfSome};
ghost use Rattle.ej_term.specs.Term.{Int};
ghost use Rattle.ej_term.specs.Outcome.{or_badarg};
ghost use Rattle.ej_term.specs.Lists as lists;
ghost use Rattle.ej_term.specs.Tuples as tuples;
ghost use Rattle.term_heap.specs.View.{Holds, term_of, Keeps};
ghost use Rattle.term_ops.specs.Answers.{Gives};
ghost use Rattle.term_ops.specs.Parts.{place_of};

use crate::answer::PureAnswer;
use crate::elements::front;
use crate::raise::{badarg, value};
use crate::read::{natural, tuple};
use std::alloc::AllocError;
use term_heap::{Heap, TermId};

/// `hd/1`: the first element of a list; error badarg of anything else.
pub(crate) fn head(heap: &mut Heap, list: TermId) -> Result<PureAnswer, AllocError>
    requires { Holds heap.old list }
    ensures keeps { Keeps heap.old heap.new }
    ensures answer { IfOk result (λ a. Gives heap.new a (lists.head (term_of heap.old list))) }
{
    match front(heap, list) {
        Some((head, _)) => Ok(value(heap, head)),
        None => badarg(heap),
    }
}

/// `tl/1`: what is behind the first element of a list; error badarg of anything else.
pub(crate) fn tail(heap: &mut Heap, list: TermId) -> Result<PureAnswer, AllocError>
    requires { Holds heap.old list }
    ensures keeps { Keeps heap.old heap.new }
    ensures answer { IfOk result (λ a. Gives heap.new a (lists.tail (term_of heap.old list))) }
{
    match front(heap, list) {
        Some((_, tail)) => Ok(value(heap, tail)),
        None => badarg(heap),
    }
}

/// `tuple_size/1`: how many elements a tuple has; error badarg of anything else.
pub(crate) fn tuple_size(heap: &mut Heap, id: TermId) -> Result<PureAnswer, AllocError>
    requires { Holds heap.old id }
    ensures keeps { Keeps heap.old heap.new }
    ensures answer { IfOk result (λ a. Gives heap.new a (tuples.tuple_size (term_of heap.old id))) }
{
    match size(heap, id) {
        Some(size) => Ok(PureAnswer::Value(heap.int(size)?)),
        None => badarg(heap),
    }
}

/// How many elements a tuple has, or none.
fn size(heap: &Heap, id: TermId) -> Option<i64>
    requires { Holds heap.now id }
    ensures { or_badarg (option_map Int result) ≡ tuples.tuple_size (term_of heap.now id) }
{
    let elements = tuple(heap, id)?;
    Some(elements.len() as i64)
}

/// `element/2`: the element of a tuple at a place from 1; error badarg where there is none.
pub(crate) fn element(heap: &mut Heap, place: TermId, id: TermId) -> Result<PureAnswer, AllocError>
    requires place { Holds heap.old place }
    requires tuple { Holds heap.old id }
    ensures keeps { Keeps heap.old heap.new }
    ensures answer { IfOk result (λ a. Gives heap.new a (tuples.element (term_of heap.old place) (term_of heap.old id))) }
{
    match element_at(heap, place, id) {
        Some(element) => Ok(value(heap, element)),
        None => badarg(heap),
    }
}

/// The element of a tuple at a place from 1, or none.
fn element_at(heap: &Heap, place: TermId, id: TermId) -> Option<TermId>
    requires place { Holds heap.now place }
    requires tuple { Holds heap.now id }
    ensures held { IfSome result (λ element. Holds heap.now element) }
    ensures element { or_badarg (option_map (term_of heap.now) result) ≡ tuples.element (term_of heap.now place) (term_of heap.now id) }
{
    let place = place_from_one(heap, place)?;
    let elements = tuple(heap, id)?;
    elements.get(place).copied()
}

/// The place from 0 of a place from 1; none of anything else.
pub(crate) fn place_from_one(heap: &Heap, place: TermId) -> Option<usize>
    requires { Holds heap.now place }
    ensures { result ≡ place_of (term_of heap.now place) }
{
    match natural(heap, place) {
        Some(place) if place > 0 => Some(place as usize - 1),
        _ => None,
    }
}
