//! Terms that a heap is given, loaded and made, and their order.

ghost use Rattle.std.specs.Prelude.{IfOk};
ghost use Rattle.term_heap.specs.View.{Holds, Keeps};

use ej_term::{AsmTerm, Text};
use sqlite_items::{Boxed, Items};
use std::alloc::{AllocError, Global};
use std::cmp::Ordering;
use std::test::Fail;
use term_heap::{Cell, Heap, LoadFault, TermId, compare};

// `#{b=>2,a=>1}`, or with an opaque token in place of 1
fn map(alloc: Global, opaque: bool) -> Result<AsmTerm, AllocError> {
    let last = if opaque {
        AsmTerm::Opaque(Text::make(alloc, "1.0")?)
    } else {
        AsmTerm::Int(1)
    };
    let mut pairs = Items::new(alloc);
    pairs.push((AsmTerm::Atom(Text::make(alloc, "b")?), AsmTerm::Int(2)))?;
    pairs.push((AsmTerm::Atom(Text::make(alloc, "a")?), last))?;
    Ok(AsmTerm::Map(pairs))
}

// `["a",{#{..}}|#Pid<0.1>]` with that map
fn source(alloc: Global, opaque: bool) -> Result<AsmTerm, AllocError> {
    let mut tuple = Items::new(alloc);
    tuple.push(map(alloc, opaque)?)?;
    let mut parts = Items::new(alloc);
    parts.push(AsmTerm::Str(Items::from_slice(alloc, &[97])?))?;
    parts.push(AsmTerm::Tuple(tuple))?;
    Ok(AsmTerm::List(parts, Some(Boxed::new(alloc, AsmTerm::Pid(0, 1))?)))
}

// the same by the makers
#[tactic(auto, using(crate::proofs::HeldEach::kept))]
fn built(heap: &mut Heap) -> Result<TermId, AllocError>
    ensures { IfOk result (λ id. Holds heap.new id) }
{
    let one = heap.int(1)?;
    let two = heap.int(2)?;
    let a = heap.atom("a")?;
    let b = heap.atom("b")?;
    let map = heap.map(&[(a, one), (b, two)])?;
    let tuple = heap.tuple(&[map])?;
    let character = heap.int(97)?;
    let nil = heap.nil()?;
    let string = heap.cons(character, nil)?;
    let tail = heap.pid(0, 1)?;
    heap.list_onto(&[string, tuple], tail)
}

#[test]
#[tactic(auto, using(crate::proofs::HeldEach::kept))]
fn loads_what_the_makers_make(rt: HostRuntime) -> Result<(), Fail> {
    let alloc = rt.alloc();
    let mut heap = Heap::new(alloc);
    let built = built(&mut heap)?;
    let source = source(alloc, false)?;
    match heap.load(&source) {
        Ok(loaded) => {
            let ordering = compare(alloc, &heap, loaded, built)?;
            assert!(rt; ordering == Ordering::Equal);
        }
        Err(_) => assert!(rt; false),
    }
    Ok(())
}

#[test]
fn an_opaque_token_is_not_loaded(rt: HostRuntime) -> Result<(), Fail> {
    let alloc = rt.alloc();
    let mut heap = Heap::new(alloc);
    let source = source(alloc, true)?;
    assert!(rt; heap.load(&source) == Err(LoadFault::Opaque));
    Ok(())
}

// terms of all kinds, by their order
fn made(heap: &mut Heap, place: usize) -> Result<TermId, AllocError>
    ensures keeps { Keeps heap.old heap.new }
    ensures held { IfOk result (λ id. Holds heap.new id) }
{
    match place {
        0 => heap.int(-7),
        1 => heap.int(64),
        2 => heap.atom("a"),
        3 => heap.atom("b"),
        4 => heap.reference(0, 5),
        5 => heap.fun(true, "m", "g", 1, &[]),
        6 => heap.fun(false, "m", "f", 0, &[]),
        7 => heap.pid(0, 1),
        8 => heap.pid(1, 0),
        9 => heap.tuple(&[]),
        10 => heap.map(&[]),
        11 => heap.nil(),
        _ => {
            let part = heap.int(1)?;
            heap.cons(part, part)
        }
    }
}

#[test]
#[tactic(auto, using(crate::proofs::HeldEach::kept))]
fn terms_rise_by_kind_and_value(rt: HostRuntime) -> Result<(), Fail> {
    let mut heap = Heap::new(rt.alloc());
    for place in 0..13 {
        for other in 0..13 {
            let a = made(&mut heap, place)?;
            let b = made(&mut heap, other)?;
            assert!(rt; compare(rt.alloc(), &heap, a, b)? == place.cmp(&other));
        }
    }
    Ok(())
}

#[test]
fn equal_keys_are_one(rt: HostRuntime) -> Result<(), Fail> {
    let mut heap = Heap::new(rt.alloc());
    let key = heap.int(1)?;
    let map = heap.map(&[(key, key), (key, key)])?;
    assert!(rt; matches!(heap.cell(map), Cell::Map(_, 1)));
    Ok(())
}

#[test]
fn an_atom_is_its_kind(rt: HostRuntime) -> Result<(), Fail> {
    let mut heap = Heap::new(rt.alloc());
    let term = heap.atom("a")?;
    assert!(rt; matches!(heap.cell(term), Cell::Atom(_)));
    Ok(())
}
