//! Looking for a key in a map.

ghost use Rattle.std.specs.Prelude.{IfOk};
ghost use Rattle.term_heap.specs.Entries.{entries_at};
ghost use Rattle.term_heap.specs.Maps.{listed, IsTree, IsPlace};
ghost use Rattle.term_heap.specs.View.{Holds, term_of};

use crate::cell::TermId;
use crate::heap::Heap;
use crate::order::compare;
use forest::Tree;
use std::alloc::AllocError;
use std::cmp::Ordering;

/// The place of a key among the entries of a map's tree, or else the place where it is to go, by a way down the tree.
pub(crate) fn place_of(
    heap: &Heap,
    tree: Tree,
    key: TermId,
) -> Result<Result<usize, usize>, AllocError>
    requires tree { IsTree heap.now tree }
    requires key { Holds heap.now key }
    ensures { IfOk result (λ place. IsPlace (term_of heap.now key) (entries_at heap.now (listed heap.now tree)) place) }
{
    let Some(top) = heap.maps().top(tree) else {
        return Ok(Err(0));
    };
    match compare(heap.alloc(), heap, key, top.item.0)? {
        Ordering::Less => place_of(heap, top.left, key),
        Ordering::Equal => Ok(Ok(heap.maps().len(top.left))),
        Ordering::Greater => {
            let before = heap.maps().len(top.left) + 1;
            match place_of(heap, top.right, key)? {
                Ok(place) => Ok(Ok(before + place)),
                Err(place) => Ok(Err(before + place)),
            }
        }
    }
}
