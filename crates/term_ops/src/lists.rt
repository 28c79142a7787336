//! Builtin functions on lists (the OTP modules erlang and lists).

ghost use Rattle.std.specs.Prelude.{◌≡◌, IfOk};
ghost use Rattle.ej_term.specs.Lists as spec;
ghost use Rattle.term_heap.specs.View.{Holds, Stands, term_of, Keeps};
ghost use Rattle.term_heap.specs.Held.{HoldsEach, terms_at};
ghost use Rattle.term_ops.specs.Answers.{Gives};
ghost use Rattle.term_ops.specs.Found.{told, outcome_of, HoldsFound};

use crate::answer::PureAnswer;
use crate::bag::{bag, take};
use crate::elements::{elements, front, is_nil, list};
use crate::order::equal;
use crate::raise::{badarg, boolean, value};
use crate::read::{integer, tuple};
use std::alloc::{AllocError, Global};
use term_heap::{Heap, TermId};

/// `length/1`: the count of a proper list's elements.
pub(crate) fn length(alloc: Global, heap: &mut Heap, list: TermId) -> Result<PureAnswer, AllocError>
    requires { Holds heap.old list }
    ensures keeps { Keeps heap.old heap.new }
    ensures answer { IfOk result (λ a. Gives heap.new a (spec.length_of (term_of heap.old list))) }
{
    match elements(alloc, heap, list)? {
        Some(ids) => Ok(PureAnswer::Value(heap.int(ids.len() as i64)?)),
        None => badarg(heap),
    }
}

/// `++`: the elements of the first list, and then the second as the tail, whatever it is.
pub(crate) fn append(
    alloc: Global,
    heap: &mut Heap,
    front: TermId,
    back: TermId,
) -> Result<PureAnswer, AllocError>
    requires front { Holds heap.old front }
    requires back { Holds heap.old back }
    ensures keeps { Keeps heap.old heap.new }
    ensures answer { IfOk result (λ a. Gives heap.new a (spec.append (term_of heap.old front) (term_of heap.old back))) }
{
    match elements(alloc, heap, front)? {
        Some(ids) => Ok(PureAnswer::Value(heap.list_onto(&ids, back)?)),
        None => badarg(heap),
    }
}

/// `lists:reverse/2`: the elements of the first list turned round, and then the second as the tail, whatever it is.
pub(crate) fn reverse(
    alloc: Global,
    heap: &mut Heap,
    front: TermId,
    back: TermId,
) -> Result<PureAnswer, AllocError>
    requires front { Holds heap.old front }
    requires back { Holds heap.old back }
    ensures keeps { Keeps heap.old heap.new }
    ensures answer { IfOk result (λ a. Gives heap.new a (spec.reverse_onto (term_of heap.old front) (term_of heap.old back))) }
{
    match elements(alloc, heap, front)? {
        Some(mut ids) => {
            ids.reverse();
            Ok(PureAnswer::Value(heap.list_onto(&ids, back)?))
        }
        None => badarg(heap),
    }
}

/// `lists:member/2`: whether an element is equal to the term. It stops at the first that is.
pub(crate) fn member(
    alloc: Global,
    heap: &mut Heap,
    term: TermId,
    list: TermId,
) -> Result<PureAnswer, AllocError>
    requires term { Holds heap.old term }
    requires list { Holds heap.old list }
    ensures keeps { Keeps heap.old heap.new }
    ensures answer { IfOk result (λ a. Gives heap.new a (spec.member (term_of heap.old term) (term_of heap.old list))) }
{
    match is_member(alloc, heap, term, list)? {
        Some(truth) => boolean(heap, truth),
        None => badarg(heap),
    }
}

/// Whether an element is equal to the term; None where the end is reached and is not the empty list.
fn is_member(
    alloc: Global,
    heap: &Heap,
    term: TermId,
    list: TermId,
) -> Result<Option<bool>, AllocError>
    requires term { Holds heap.now term }
    requires list { Holds heap.now list }
    ensures { IfOk result (λ truth. told truth ≡ spec.member (term_of heap.now term) (term_of heap.now list)) }
{
    let mut rest = list;
    while let Some((head, tail)) = front(heap, rest) {
        if equal(alloc, heap, head, term)? {
            return Ok(Some(true));
        }
        rest = tail;
    }
    Ok(if is_nil(heap, rest) {
        Some(false)
    } else {
        None
    })
}

/// What a search of a list comes to.
#[derive(Clone, Copy, Debug)]
enum Found {
    /// The element that was searched for.
    Element(TermId),
    /// No such element.
    Absent,
    /// No such element, and what was searched is no proper list.
    NoList,
}

/// `lists:keyfind/3`: the first tuple whose element at the place from 1 is equal to the key. It stops there.
pub(crate) fn keyfind(
    alloc: Global,
    heap: &mut Heap,
    key: TermId,
    place: TermId,
    list: TermId,
) -> Result<PureAnswer, AllocError>
    requires key { Holds heap.old key }
    requires place { Holds heap.old place }
    requires list { Holds heap.old list }
    ensures keeps { Keeps heap.old heap.new }
    ensures answer { IfOk result (λ a. Gives heap.new a (spec.keyfind (term_of heap.old key) (term_of heap.old place) (term_of heap.old list))) }
{
    match integer(heap, place) {
        Some(place) if place > 0 => {
            let found = find_tuple(alloc, heap, (place - 1) as usize, key, list)?;
            found_value(heap, found)
        }
        _ => badarg(heap),
    }
}

/// The element that was found, or false, or the error `badarg` where what was searched is no proper list.
fn found_value(heap: &mut Heap, found: Found) -> Result<PureAnswer, AllocError>
    requires { HoldsFound heap.old found }
    ensures keeps { Keeps heap.old heap.new }
    ensures answer { IfOk result (λ a. Gives heap.new a (outcome_of heap.old found)) }
{
    match found {
        Found::Element(id) => Ok(value(heap, id)),
        Found::Absent => boolean(heap, false),
        Found::NoList => badarg(heap),
    }
}

/// The first tuple whose element at the place from 0 is equal to the key.
fn find_tuple(
    alloc: Global,
    heap: &Heap,
    place: usize,
    key: TermId,
    list: TermId,
) -> Result<Found, AllocError>
    requires key { Holds heap.now key }
    requires list { Holds heap.now list }
    ensures held { IfOk result (λ found. HoldsFound heap.now found) }
    ensures found { IfOk result (λ found. outcome_of heap.now found ≡ spec.find_tuple place (term_of heap.now key) (term_of heap.now list)) }
{
    let mut rest = list;
    while let Some((head, tail)) = front(heap, rest) {
        if has_key_at(alloc, heap, place, key, head)? {
            return Ok(Found::Element(head));
        }
        rest = tail;
    }
    Ok(if is_nil(heap, rest) {
        Found::Absent
    } else {
        Found::NoList
    })
}

/// Whether the term is a tuple whose element at the place from 0 is equal to the key.
fn has_key_at(
    alloc: Global,
    heap: &Heap,
    place: usize,
    key: TermId,
    id: TermId,
) -> Result<bool, AllocError>
    requires key { Holds heap.now key }
    requires id { Holds heap.now id }
    ensures { IfOk result (λ truth. truth ≡ spec.has_key_at place (term_of heap.now key) (term_of heap.now id)) }
{
    let Some(parts) = tuple(heap, id) else {
        return Ok(false);
    };
    match parts.get(place) {
        Some(part) => equal(alloc, heap, *part, key),
        None => Ok(false),
    }
}

/// `--`: the first list without the first element that is equal to each of the second.
///
/// With n elements in the first and m in the second it takes about (n + m) log m comparisons.
pub(crate) fn subtract(
    alloc: Global,
    heap: &mut Heap,
    front: TermId,
    back: TermId,
) -> Result<PureAnswer, AllocError>
    requires front { Holds heap.old front }
    requires back { Holds heap.old back }
    ensures keeps { Keeps heap.old heap.new }
    ensures answer { IfOk result (λ a. Gives heap.new a (spec.subtract (term_of heap.old front) (term_of heap.old back))) }
{
    let Some(parts) = elements(alloc, heap, front)? else {
        return badarg(heap);
    };
    let Some(others) = elements(alloc, heap, back)? else {
        return badarg(heap);
    };
    let left = without_each(alloc, heap, &parts, &others)?;
    Ok(PureAnswer::Value(list(heap, &left)?))
}

/// The parts without, for each of the others, the first that is equal to it.
fn without_each(
    alloc: Global,
    heap: &Heap,
    parts: &[TermId],
    others: &[TermId],
) -> Result<Vec<TermId>, AllocError>
    requires parts { HoldsEach heap.now parts.now }
    requires others { HoldsEach heap.now others.now }
    ensures held { IfOk result (λ left. HoldsEach heap.now left.items) }
    ensures left { IfOk result (λ left. terms_at heap.now left.items ≡ spec.without_each (terms_at heap.now parts.now) (terms_at heap.now others.now)) }
{
    let (keys, mut counts) = bag(alloc, heap, others)?;
    let mut left = Vec::new(alloc);
    for part in parts {
        if take(alloc, heap, &keys, &mut counts, *part)? {
            continue;
        }
        left.push(*part)?;
    }
    Ok(left)
}
