//! Loading a source's term into a heap.

ghost use Rattle.std.specs.Prelude.{◌≡◌, [], ◌∷◌, ◌++◌, length, map, slice_get, false, Some, IsSome, option_map, IfOk, OnOk};
ghost use Rattle.ej_term.specs.AsmValue.{value, has_opaque};
ghost use Rattle.ej_term.specs.Term.{Nil, Map, Empty};
ghost use Rattle.ej_term.specs.Lists.{list_onto as onto_list};
ghost use Rattle.ej_term.specs.Maps.{put_each};
ghost use Rattle.ej_term.specs.Digits.{string};
ghost use Rattle.ej_term.specs.Outcome.{number};
ghost use Rattle.term_heap.specs.View.{terms_in, Holds, Stands, term_of, Keeps};
ghost use Rattle.term_heap.specs.Held.{HoldsEach, terms_at};
ghost use Rattle.term_heap.specs.Loaded.{IsLoaded, Loads, Untouched};
ghost use Rattle.term_heap.specs.Preorder.{inner, paired, improper, made_of, applied, evaluated, one};

use crate::cell::TermId;
use crate::heap::{Entry, Heap};
use crate::preorder::preorder;
use ej_term::AsmTerm;
use std::alloc::{AllocError, Global};
use thiserror::Error;

/// Why a source's term was not loaded.
#[derive(Clone, Copy, Debug, PartialEq, Eq, Error)]
pub enum LoadFault {
    /// An opaque token is in it.
    #[error("an opaque token")]
    Opaque,
    /// Memory was wanting.
    #[error("out of memory")]
    NoMemory,
}

impl From<AllocError> for LoadFault {
    ghost use Rattle.std.specs.Prelude.{◌≡◌};
    ghost use Rattle.term_heap.specs.declared.load.LoadFault.TheVariants.{NoMemory};

    ghost from_gives = { λ _ fault. fault ≡ NoMemory };

    fn from(_: AllocError) -> LoadFault {
        LoadFault::NoMemory
    }
}

impl Heap {
    /// The term that a source's term stands for: a string is the list of its characters, and of a map's equal keys
    /// the later wins. It takes memory for the count of terms in the source, and holds no stack for their depth. (An
    /// `AsmTerm` itself is copied and dropped by recursion.)
    ///
    /// # Errors
    /// `Opaque` exactly where an opaque token is in the term; the heap is as it was then.
    pub fn load(&mut self, t: &AsmTerm) -> Result<TermId, LoadFault>
        ensures keeps { Keeps self.old self.new }
        ensures loads { Loads self.new t.now result }
        ensures untouched { Untouched result self.old self.new }
    {
        let order = preorder(self.alloc(), t)?;
        Ok(add_all(self, &order, t)?)
    }

    /// The list of these elements and then this tail.
    pub fn list_onto(&mut self, parts: &[TermId], tail: TermId) -> Result<TermId, AllocError>
        requires parts { HoldsEach self.old parts.now }
        requires tail { Holds self.old tail }
        ensures keeps { Keeps self.old self.new }
        ensures term { IfOk result (λ id. Stands self.new id (onto_list (terms_at self.old parts.now) (term_of self.old tail))) }
    {
        let mut list = tail;
        for at in (0..parts.len()).rev() {
            list = self.cons(parts[at], list)?;
        }
        Ok(list)
    }
}

/// Adds the terms of a list, each behind its parts, and answers the id of the last.
fn add_all(heap: &mut Heap, order: &[&AsmTerm], t: &AsmTerm) -> Result<TermId, AllocError>
    requires order { evaluated (map (λ x. x.now) order.now) [] ≡ option_map one (value t.now) }
    requires plain { has_opaque t.now ≡ false }
    ensures keeps { Keeps heap.old heap.new }
    ensures loaded { IfOk result (λ id. IsLoaded heap.new t.now id) }
{
    let mut ids = Vec::new(heap.alloc());
    for at in (0..order.len()).rev() {
        add_behind(heap, &mut ids, order[at])?;
    }
    match ids.pop() {
        Some(id) => Ok(id),
        None => unreachable!(),
    }
}

/// Adds a term whose parts are the last of these ids, and puts its id in their place.
fn add_behind(heap: &mut Heap, ids: &mut Vec<TermId>, t: &AsmTerm) -> Result<(), AllocError>
    requires held { HoldsEach heap.old ids.old.items }
    requires applied { IsSome (applied t.now (terms_at heap.old ids.old.items)) }
    ensures keeps { Keeps heap.old heap.new }
    ensures held { OnOk result (HoldsEach heap.new ids.new.items) }
    ensures terms { OnOk result (applied t.now (terms_at heap.old ids.old.items) ≡ Some (terms_at heap.new ids.new.items)) }
{
    let first = ids.len() - count_inner(t);
    let id = make(heap, t, ids.split_at(first).1)?;
    ids.truncate(first);
    push(ids, id)?;
    Ok(())
}

/// How many parts a term has.
#[tactic(auto, using(crate::proofs::Layers::inner_cases))]
fn count_inner(t: &AsmTerm) -> usize
    ensures { result ≡ length (inner t.now) }
{
    match t {
        AsmTerm::List(parts, None) => parts.as_slice().len(),
        AsmTerm::List(parts, Some(_)) => parts.as_slice().len() + 1,
        AsmTerm::Tuple(parts) => parts.as_slice().len(),
        AsmTerm::Map(pairs) => 2 * pairs.as_slice().len(),
        _ => 0,
    }
}

/// Adds a term, by the ids of its parts.
#[tactic(auto, using(crate::proofs::Layers::made_cases))]
fn make(heap: &mut Heap, t: &AsmTerm, parts: &[TermId]) -> Result<TermId, AllocError>
    requires held { HoldsEach heap.old parts.now }
    requires made { IsSome (made_of t.now (terms_at heap.old parts.now)) }
    ensures keeps { Keeps heap.old heap.new }
    ensures term { IfOk result (λ id. slice_get (terms_in heap.new) id.0 ≡ made_of t.now (terms_at heap.old parts.now)) }
{
    match t {
        AsmTerm::Int(n) => heap.int(*n),
        AsmTerm::Atom(name) => heap.atom(name.as_str()),
        AsmTerm::Str(characters) => add_string(heap, characters.as_slice()),
        AsmTerm::List(_, None) => add_proper(heap, parts),
        AsmTerm::List(_, Some(_)) => add_improper(heap, parts),
        AsmTerm::Tuple(_) => heap.tuple(parts),
        AsmTerm::Map(_) => add_map(heap, parts),
        AsmTerm::ExtFun(module, name, arity) => heap.fun(
            false,
            module.as_str(),
            name.as_str(),
            *arity,
            &[],
        ),
        AsmTerm::Pid(node, number) => heap.pid(*node, *number),
        AsmTerm::Ref(node, number) => heap.reference(*node, *number),
        AsmTerm::Opaque(_) => unreachable!(),
    }
}

/// Adds the list of these elements.
fn add_proper(heap: &mut Heap, elements: &[TermId]) -> Result<TermId, AllocError>
    requires { HoldsEach heap.old elements.now }
    ensures keeps { Keeps heap.old heap.new }
    ensures term { IfOk result (λ id. Stands heap.new id (onto_list (terms_at heap.old elements.now) Nil)) }
{
    let nil = heap.nil()?;
    heap.list_onto(elements, nil)
}

/// Adds the list of these but the first, which is its tail.
fn add_improper(heap: &mut Heap, parts: &[TermId]) -> Result<TermId, AllocError>
    requires held { HoldsEach heap.old parts.now }
    requires some { IsSome (improper (terms_at heap.old parts.now)) }
    ensures keeps { Keeps heap.old heap.new }
    ensures term { IfOk result (λ id. slice_get (terms_in heap.new) id.0 ≡ improper (terms_at heap.old parts.now)) }
{
    let (tail, elements) = parts.split_at(1);
    heap.list_onto(elements, tail[0])
}

/// Adds the map of these, each key followed by its value.
fn add_map(heap: &mut Heap, parts: &[TermId]) -> Result<TermId, AllocError>
    requires { HoldsEach heap.old parts.now }
    ensures keeps { Keeps heap.old heap.new }
    ensures term { IfOk result (λ id. Stands heap.new id (Map (put_each Empty (paired (terms_at heap.old parts.now))))) }
{
    let entries = entries_of(heap.alloc(), parts)?;
    heap.map(&entries)
}

/// What stands in twos, as keys with their values.
fn entries_of(alloc: Global, parts: &[TermId]) -> Result<Vec<Entry>, AllocError>
    ensures { IfOk result (λ entries. entries.items ≡ paired parts.now) }
{
    let mut entries = Vec::new(alloc);
    for at in 0..parts.len() / 2 {
        entries.push((parts[2 * at], parts[2 * at + 1]))?;
    }
    Ok(entries)
}

/// Adds the list of these characters.
fn add_string(heap: &mut Heap, characters: &[u32]) -> Result<TermId, AllocError>
    ensures keeps { Keeps heap.old heap.new }
    ensures term { IfOk result (λ id. Stands heap.new id (string characters.now)) }
{
    let mut list = heap.nil()?;
    for at in (0..characters.len()).rev() {
        let head = add_character(heap, characters[at])?;
        list = heap.cons(head, list)?;
    }
    Ok(list)
}

/// Adds a character's number.
fn add_character(heap: &mut Heap, character: u32) -> Result<TermId, AllocError>
    ensures keeps { Keeps heap.old heap.new }
    ensures term { IfOk result (λ id. Stands heap.new id (number character)) }
{
    heap.int(i64::from(character))
}

/// Adds an item at the end.
fn push<T: Drop>(items: &mut Vec<T>, item: T) -> Result<(), AllocError>
    ensures { OnOk result (items.new.items ≡ items.old.items ++ item ∷ []) }
{
    items.push(item)?;
    Ok(())
}
