//! Maps that are made of other maps.

ghost use Rattle.std.specs.Prelude.{IfOk, IfSome};
ghost use Rattle.term_heap.specs.Entries.{HoldsEntries};
ghost use Rattle.term_heap.specs.View.{Holds, Keeps};

use std::alloc::{AllocError, Global};
use std::cmp::Ordering;
use std::test::Fail;
use term_heap::{Heap, TermId, compare};

/// The map with a value at a key.
#[tactic(auto, using(crate::proofs::HeldEach::kept))]
fn with(heap: &mut Heap, map: TermId, key: TermId, value: TermId) -> Result<TermId, AllocError>
    requires map { Holds heap.old map }
    requires key { Holds heap.old key }
    requires value { Holds heap.old value }
    ensures keeps { Keeps heap.old heap.new }
    ensures held { IfOk result (λ id. Holds heap.new id) }
{
    match heap.entries(map) {
        Some(entries) => heap.put_each(entries, &[(key, value)]),
        None => Ok(map),
    }
}

/// The map without a key.
#[tactic(auto, using(crate::proofs::HeldEach::kept))]
fn without(heap: &mut Heap, map: TermId, key: TermId) -> Result<TermId, AllocError>
    requires map { Holds heap.old map }
    requires key { Holds heap.old key }
    ensures keeps { Keeps heap.old heap.new }
    ensures held { IfOk result (λ id. Holds heap.new id) }
{
    let Some(entries) = heap.entries(map) else {
        return Ok(map);
    };
    match heap.remove(entries, key)? {
        Some(id) => Ok(id),
        None => Ok(map),
    }
}

/// The map of both maps' keys.
#[tactic(auto, using(crate::proofs::HeldEach::kept))]
fn merged(heap: &mut Heap, first: TermId, second: TermId) -> Result<TermId, AllocError>
    requires first { Holds heap.old first }
    requires second { Holds heap.old second }
    ensures keeps { Keeps heap.old heap.new }
    ensures held { IfOk result (λ id. Holds heap.new id) }
{
    let Some(firsts) = heap.entries(first) else {
        return Ok(first);
    };
    let Some(seconds) = heap.entries(second) else {
        return Ok(second);
    };
    heap.merge(firsts, seconds)
}

/// The value at a number, if a map has it as a key.
#[tactic(auto, using(crate::proofs::HeldEach::kept, crate::proofs::HeldEach::kept_twice))]
fn value(heap: &mut Heap, map: TermId, number: i64) -> Result<Option<TermId>, AllocError>
    requires { Holds heap.old map }
    ensures keeps { Keeps heap.old heap.new }
    ensures held { IfOk result (λ value. IfSome value (λ id. Holds heap.new id)) }
{
    let key = heap.int(number)?;
    match heap.entries(map) {
        Some(entries) => heap.value_at(entries, key),
        None => Ok(None),
    }
}

/// The count of a map's keys.
fn count(heap: &Heap, map: TermId) -> Option<usize>
    requires { Holds heap.now map }
{
    let entries = heap.entries(map)?;
    Some(heap.entry_count(entries))
}

/// The map of the numbers from 1 to the last, each as its own value, made key by key.
#[tactic(auto, using(crate::proofs::HeldEach::kept, crate::proofs::HeldEach::kept_twice))]
fn numbered(heap: &mut Heap, last: u16) -> Result<TermId, AllocError>
    ensures keeps { Keeps heap.old heap.new }
    ensures held { IfOk result (λ id. Holds heap.new id) }
{
    if last == 0 {
        return heap.map(&[]);
    }
    let map = numbered(heap, last - 1)?;
    let key = heap.int(i64::from(last))?;
    with(heap, map, key, key)
}

/// Whether the keys rise.
fn rises(alloc: Global, heap: &Heap, entries: &[(TermId, TermId)]) -> Result<bool, AllocError>
    requires { HoldsEntries heap.now entries.now }
{
    for at in 1..entries.len() {
        if compare(alloc, heap, entries[at - 1].0, entries[at].0)? != Ordering::Less {
            return Ok(false);
        }
    }
    Ok(true)
}

#[test]
#[tactic(auto, using(crate::proofs::HeldEach::kept, crate::proofs::HeldEach::kept_twice))]
fn a_map_has_each_key_that_was_put(rt: HostRuntime) -> Result<(), Fail> {
    let mut heap = Heap::new(rt.alloc());
    let map = numbered(&mut heap, 300)?;
    let (first, middle, last) = (heap.int(1)?, heap.int(150)?, heap.int(300)?);
    assert!(rt; count(&heap, map) == Some(300));
    assert!(rt; value(&mut heap, map, 1)? == Some(first));
    assert!(rt; value(&mut heap, map, 150)? == Some(middle));
    assert!(rt; value(&mut heap, map, 300)? == Some(last));
    assert!(rt; value(&mut heap, map, 0)? == None);
    assert!(rt; value(&mut heap, map, 301)? == None);
    Ok(())
}

#[test]
#[tactic(auto, using(crate::proofs::HeldEach::kept, crate::proofs::HeldEach::kept_twice))]
fn a_change_keeps_the_earlier_map(rt: HostRuntime) -> Result<(), Fail> {
    let mut heap = Heap::new(rt.alloc());
    let map = numbered(&mut heap, 40)?;
    let (seven, eight, nil) = (heap.int(7)?, heap.int(8)?, heap.nil()?);
    let changed = with(&mut heap, map, seven, nil)?;
    let fewer = without(&mut heap, changed, eight)?;
    let same = without(&mut heap, map, nil)?;
    assert!(rt; value(&mut heap, map, 7)? == Some(seven));
    assert!(rt; value(&mut heap, changed, 7)? == Some(nil));
    assert!(rt; value(&mut heap, changed, 8)? == Some(eight));
    assert!(rt; value(&mut heap, fewer, 8)? == None);
    assert!(rt; value(&mut heap, fewer, 7)? == Some(nil));
    assert!(rt; count(&heap, fewer) == Some(39));
    assert!(rt; same == map);
    Ok(())
}

#[test]
#[tactic(auto, using(crate::proofs::HeldEach::kept, crate::proofs::HeldEach::kept_twice))]
fn the_second_map_wins(rt: HostRuntime) -> Result<(), Fail> {
    let mut heap = Heap::new(rt.alloc());
    let many = numbered(&mut heap, 200)?;
    let (five, nil) = (heap.int(5)?, heap.nil()?);
    let few = heap.map(&[(five, nil), (nil, five)])?;
    // the few are put into the many, and then both are gone through
    let first = merged(&mut heap, many, few)?;
    let second = merged(&mut heap, few, many)?;
    assert!(rt; count(&heap, first) == Some(201));
    assert!(rt; count(&heap, second) == Some(201));
    assert!(rt; value(&mut heap, first, 5)? == Some(nil));
    assert!(rt; value(&mut heap, second, 5)? == Some(five));
    Ok(())
}

#[test]
#[tactic(auto, using(crate::proofs::HeldEach::kept, crate::proofs::HeldEach::kept_twice))]
fn entries_go_by_rising_keys(rt: HostRuntime) -> Result<(), Fail> {
    let alloc = rt.alloc();
    let mut heap = Heap::new(alloc);
    let many = numbered(&mut heap, 100)?;
    let nil = heap.nil()?;
    let (zero, word) = (heap.int(0)?, heap.atom("a")?);
    let few = heap.map(&[(nil, nil), (word, nil), (zero, nil)])?;
    let map = merged(&mut heap, few, many)?;
    let entries = heap.entries(map).expect(&rt, "a map");
    let list = heap.entry_list(alloc, entries)?;
    assert!(rt; list.len() == 103);
    assert!(rt; rises(alloc, &heap, &list)?);
    Ok(())
}
