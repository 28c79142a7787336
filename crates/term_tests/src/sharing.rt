//! Terms that a heap makes once, and terms that share their parts.

ghost use Rattle.std.specs.Prelude.{IfOk};
ghost use Rattle.term_heap.specs.View.{Holds, Keeps};

use ej_term::{AsmTerm, Text};
use std::alloc::AllocError;
use std::cmp::Ordering;
use std::test::Fail;
use term_heap::{Heap, LoadFault, TermId, compare};

#[test]
fn nil_and_booleans_are_made_once(rt: HostRuntime) -> Result<(), Fail> {
    let mut heap = Heap::new(rt.alloc());
    let nil = heap.nil()?;
    assert!(rt; heap.nil()? == nil);
    let yes = heap.boolean(true)?;
    let no = heap.boolean(false)?;
    assert!(rt; yes != no);
    assert!(rt; heap.boolean(true)? == yes);
    assert!(rt; heap.boolean(false)? == no);
    assert!(rt; heap.atom("true")? == yes);
    assert!(rt; heap.atom("false")? == no);
    Ok(())
}

#[test]
fn small_integers_are_made_once(rt: HostRuntime) -> Result<(), Fail> {
    let mut heap = Heap::new(rt.alloc());
    let most = heap.int(1_023)?;
    let zero = heap.int(0)?;
    assert!(rt; heap.int(0)? == zero);
    assert!(rt; heap.int(1_023)? == most);
    let large = heap.int(1_024)?;
    assert!(rt; heap.int(1_024)? != large);
    let negative = heap.int(-1)?;
    assert!(rt; heap.int(-1)? != negative);
    Ok(())
}

#[test]
fn an_atom_is_made_once(rt: HostRuntime) -> Result<(), Fail> {
    let mut heap = Heap::new(rt.alloc());
    // the texts of a fun are no atoms yet
    heap.fun(false, "m", "f", 0, &[])?;
    let name = heap.atom("f")?;
    let other = heap.atom("g")?;
    assert!(rt; name != other);
    assert!(rt; heap.atom("f")? == name);
    assert!(rt; heap.atom("g")? == other);
    Ok(())
}

#[test]
fn a_refused_term_adds_nothing(rt: HostRuntime) -> Result<(), Fail> {
    let alloc = rt.alloc();
    let mut heap = Heap::new(alloc);
    let opaque = AsmTerm::Opaque(Text::make(alloc, "1.0")?);
    assert!(rt; heap.load(&opaque) == Err(LoadFault::Opaque));
    let mut fresh = Heap::new(alloc);
    assert!(rt; heap.pid(0, 1)? == fresh.pid(0, 1)?);
    Ok(())
}

// a tuple of twice the one before, so many times
#[tactic(auto, using(crate::proofs::HeldEach::kept))]
fn doubled(heap: &mut Heap, times: u32) -> Result<TermId, AllocError>
    ensures keeps { Keeps heap.old heap.new }
    ensures held { IfOk result (λ id. Holds heap.new id) }
{
    if times == 0 {
        return heap.nil();
    }
    let part = doubled(heap, times - 1)?;
    heap.tuple(&[part, part])
}

/// The tuple of these two.
#[tactic(auto, using(crate::proofs::HeldEach::kept))]
fn beside(heap: &mut Heap, first: TermId, second: TermId) -> Result<TermId, AllocError>
    requires first { Holds heap.old first }
    requires second { Holds heap.old second }
    ensures keeps { Keeps heap.old heap.new }
    ensures held { IfOk result (λ id. Holds heap.new id) }
{
    heap.tuple(&[first, second])
}

// 2^60 empty lists are told equal by their ids
#[test]
#[tactic(auto, using(crate::proofs::HeldEach::kept, crate::proofs::HeldEach::kept_twice))]
fn shared_parts_are_equal_at_once(rt: HostRuntime) -> Result<(), Fail> {
    let alloc = rt.alloc();
    let mut heap = Heap::new(alloc);
    let shared = doubled(&mut heap, 60)?;
    let one = heap.int(1)?;
    let two = heap.int(2)?;
    let first = beside(&mut heap, shared, one)?;
    let second = beside(&mut heap, shared, two)?;
    let again = beside(&mut heap, shared, one)?;
    assert!(rt; compare(alloc, &heap, first, second)? == Ordering::Less);
    assert!(rt; compare(alloc, &heap, first, again)? == Ordering::Equal);
    assert!(rt; compare(alloc, &heap, second, first)? == Ordering::Greater);
    Ok(())
}
