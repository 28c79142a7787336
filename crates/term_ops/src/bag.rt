//! How many times each of some terms stands in a list.

ghost use Rattle.std.specs.Prelude.{◌≡◌, ℕ, ◌+◌, ◌-◌, ◌<◌, ◌^◌, length, get_or, IfOk, OnOk};
ghost use Rattle.ej_term.specs.Term.{Term};
ghost use Rattle.term_heap.specs.View.{Holds, term_of};
ghost use Rattle.term_heap.specs.Held.{HoldsEach, terms_at};
ghost use Rattle.term_ops.specs.SortedPlaces.{Ascending};
ghost use Rattle.term_ops.specs.Bags.{held, how_many, more, Taken, Among, UpTo};

use crate::sorted::place_of;
use std::alloc::{AllocError, Global};
use term_heap::{Heap, TermId, rising};

/// The distinct terms of these ids, by rising, and the count of each.
pub(crate) fn bag(
    alloc: Global,
    heap: &Heap,
    ids: &[TermId],
) -> Result<(Vec<TermId>, Vec<usize>), AllocError>
    requires { HoldsEach heap.now ids.now }
    ensures held { IfOk result (λ bag. HoldsEach heap.now bag.0.items) }
    ensures rise { IfOk result (λ bag. Ascending (terms_at heap.now bag.0.items)) }
    ensures as_many { IfOk result (λ bag. length bag.0.items ≡ length bag.1.items) }
    ensures counts { IfOk result (λ bag. (term : Term) → held (terms_at heap.now bag.0.items) bag.1.items term ≡ how_many (terms_at heap.now ids.now) term) }
{
    let keys = rising(alloc, heap, ids)?;
    let counts = counts(alloc, heap, &keys, ids)?;
    Ok((keys, counts))
}

/// How many of the ids stand for the term of each key.
fn counts(
    alloc: Global,
    heap: &Heap,
    keys: &[TermId],
    ids: &[TermId],
) -> Result<Vec<usize>, AllocError>
    requires keys { HoldsEach heap.now keys.now }
    requires rise { Ascending (terms_at heap.now keys.now) }
    requires ids { HoldsEach heap.now ids.now }
    requires among { (place : ℕ) → place < length ids.now → (d : TermId) → Among (term_of heap.now (get_or ids.now place d)) (terms_at heap.now keys.now) }
    ensures as_many { IfOk result (λ counts. length keys.now ≡ length counts.items) }
    ensures counts { IfOk result (λ counts. (term : Term) → held (terms_at heap.now keys.now) counts.items term ≡ how_many (terms_at heap.now ids.now) term) }
{
    let mut counts = vec![in alloc; 0; keys.len()]?;
    for id in ids {
        add(alloc, heap, keys, &mut counts, *id)?;
    }
    Ok(counts)
}

/// Counts one more of the id's term.
fn add(
    alloc: Global,
    heap: &Heap,
    keys: &[TermId],
    counts: &mut Vec<usize>,
    id: TermId,
) -> Result<(), AllocError>
    requires keys { HoldsEach heap.now keys.now }
    requires rise { Ascending (terms_at heap.now keys.now) }
    requires id { Holds heap.now id }
    requires among { Among (term_of heap.now id) (terms_at heap.now keys.now) }
    requires as_many { length keys.now ≡ length counts.old.items }
    requires room { UpTo (2 ^ 64 - 2) counts.old.items }
    ensures as_many { length counts.new.items ≡ length counts.old.items }
    ensures counts { OnOk result ((term : Term) → held (terms_at heap.now keys.now) counts.new.items term ≡ more (held (terms_at heap.now keys.now) counts.old.items) (term_of heap.now id) term) }
    ensures up_to { OnOk result ((most : ℕ) → UpTo most counts.old.items → UpTo (most + 1) counts.new.items) }
{
    match place_of(alloc, heap, keys, id)? {
        Ok(place) => {
            counts[place] += 1;
            Ok(())
        }
        Err(_) => unreachable!(),
    }
}

/// Takes one of the id's term out, and answers whether there was one.
pub(crate) fn take(
    alloc: Global,
    heap: &Heap,
    keys: &[TermId],
    counts: &mut Vec<usize>,
    id: TermId,
) -> Result<bool, AllocError>
    requires keys { HoldsEach heap.now keys.now }
    requires rise { Ascending (terms_at heap.now keys.now) }
    requires id { Holds heap.now id }
    requires as_many { length keys.now ≡ length counts.old.items }
    ensures as_many { length counts.new.items ≡ length counts.old.items }
    ensures taken { IfOk result (λ taken. Taken (held (terms_at heap.now keys.now) counts.old.items) (held (terms_at heap.now keys.now) counts.new.items) (term_of heap.now id) taken) }
{
    match place_of(alloc, heap, keys, id)? {
        Ok(place) => {
            if counts[place] == 0 {
                return Ok(false);
            }
            counts[place] -= 1;
            Ok(true)
        }
        Err(_) => Ok(false),
    }
}
