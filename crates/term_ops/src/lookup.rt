//! Looking for a key in a map.

ghost use Rattle.std.specs.Prelude.{◌≡◌, IfOk};
ghost use Rattle.term_heap.specs.View.{Holds, term_of};
ghost use Rattle.term_ops.specs.Lookups.{lookup_of, HoldsLookup, looked_up};

use std::alloc::AllocError;
use term_heap::{Heap, TermId};

/// What looking for a key comes to.
#[derive(Clone, Copy, Debug)]
pub(crate) enum Lookup {
    /// The value at the key.
    Value(TermId),
    /// The map does not have the key.
    NoKey,
    /// What was to be a map is none.
    NoMap,
}

/// Looks for the key in a map.
pub(crate) fn look_up(heap: &Heap, key: TermId, map: TermId) -> Result<Lookup, AllocError>
    requires key { Holds heap.now key }
    requires map { Holds heap.now map }
    ensures held { IfOk result (λ found. HoldsLookup heap.now found) }
    ensures found { IfOk result (λ found. lookup_of heap.now found ≡ looked_up (term_of heap.now key) (term_of heap.now map)) }
{
    let Some(entries) = heap.entries(map) else {
        return Ok(Lookup::NoMap);
    };
    match heap.value_at(entries, key)? {
        Some(value) => Ok(Lookup::Value(value)),
        None => Ok(Lookup::NoKey),
    }
}
