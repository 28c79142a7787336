//! The place of a term among others that rise.

ghost use Rattle.std.specs.Prelude.{IfOk};
ghost use Rattle.term_heap.specs.View.{Holds, term_of};
ghost use Rattle.term_heap.specs.Held.{HoldsEach, terms_at};
ghost use Rattle.term_ops.specs.SortedPlaces.{Ascending, IsPlace};

use std::alloc::{AllocError, Global};
use std::cmp::Ordering;
use term_heap::{Heap, TermId, compare};

/// The place of the key among keys that rise, or else the place where it is to go. It halves them.
pub(crate) fn place_of(
    alloc: Global,
    heap: &Heap,
    keys: &[TermId],
    key: TermId,
) -> Result<Result<usize, usize>, AllocError>
    requires keys { HoldsEach heap.now keys.now }
    requires rise { Ascending (terms_at heap.now keys.now) }
    requires key { Holds heap.now key }
    ensures { IfOk result (λ place. IsPlace (term_of heap.now key) (terms_at heap.now keys.now) place) }
{
    let mut low = 0;
    let mut high = keys.len();
    while low < high {
        let middle = low + (high - low) / 2;
        match compare(alloc, heap, key, keys[middle])? {
            Ordering::Less => high = middle,
            Ordering::Equal => return Ok(Ok(middle)),
            Ordering::Greater => low = middle + 1,
        }
    }
    Ok(Err(low))
}
