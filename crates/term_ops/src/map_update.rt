//! Builtin functions that make maps (the OTP module maps).

ghost use Rattle.std.specs.Prelude.{◌≡◌, option_map, option_and_then, IfOk, IfSome};
ghost use Rattle.ej_term.specs.Maps as spec;
ghost use Rattle.ej_term.specs.Lists as lists;
ghost use Rattle.term_heap.specs.View.{Holds, term_of, Keeps};
ghost use Rattle.term_heap.specs.Held.{HoldsEach, terms_at};
ghost use Rattle.term_heap.specs.Entries.{HoldsEntry, HoldsEntries, entry_of, entries_at};
ghost use Rattle.term_ops.specs.Answers.{Gives};
ghost use Rattle.term_ops.specs.Parts.{pair_in};

use crate::answer::PureAnswer;
use crate::elements::elements;
use crate::lookup::{Lookup, look_up};
use crate::maps::{badkey, badmap};
use crate::raise::{badarg, value};
use crate::read::tuple;
use std::alloc::{AllocError, Global};
use term_heap::{Heap, TermId};

/// A key and its value.
type Entry = (TermId, TermId);

/// `maps:put/3`: the map with this value at the key.
pub(crate) fn put(
    heap: &mut Heap,
    key: TermId,
    value: TermId,
    map: TermId,
) -> Result<PureAnswer, AllocError>
    requires key { Holds heap.old key }
    requires value { Holds heap.old value }
    requires map { Holds heap.old map }
    ensures keeps { Keeps heap.old heap.new }
    ensures answer { IfOk result (λ a. Gives heap.new a (spec.maps_put (term_of heap.old key) (term_of heap.old value) (term_of heap.old map))) }
{
    match heap.entries(map) {
        Some(entries) => Ok(PureAnswer::Value(heap.put_each(entries, &[(key, value)])?)),
        None => badmap(heap, map),
    }
}

/// `maps:update/3`: the map with this value at the key, which it has.
pub(crate) fn update(
    heap: &mut Heap,
    key: TermId,
    value: TermId,
    map: TermId,
) -> Result<PureAnswer, AllocError>
    requires key { Holds heap.old key }
    requires value { Holds heap.old value }
    requires map { Holds heap.old map }
    ensures keeps { Keeps heap.old heap.new }
    ensures answer { IfOk result (λ a. Gives heap.new a (spec.maps_update (term_of heap.old key) (term_of heap.old value) (term_of heap.old map))) }
{
    match look_up(heap, key, map)? {
        Lookup::Value(_) => put(heap, key, value, map),
        Lookup::NoKey => badkey(heap, key),
        Lookup::NoMap => badmap(heap, map),
    }
}

/// `maps:remove/2`: the map without the key.
pub(crate) fn remove(heap: &mut Heap, key: TermId, map: TermId) -> Result<PureAnswer, AllocError>
    requires key { Holds heap.old key }
    requires map { Holds heap.old map }
    ensures keeps { Keeps heap.old heap.new }
    ensures answer { IfOk result (λ a. Gives heap.new a (spec.maps_remove (term_of heap.old key) (term_of heap.old map))) }
{
    let Some(entries) = heap.entries(map) else {
        return badmap(heap, map);
    };
    match heap.remove(entries, key)? {
        Some(id) => Ok(PureAnswer::Value(id)),
        None => Ok(value(heap, map)),
    }
}

/// `maps:from_list/1`: the map of the tuples `{K,V}` of a proper list, of equal keys the later.
pub(crate) fn from_list(
    alloc: Global,
    heap: &mut Heap,
    list: TermId,
) -> Result<PureAnswer, AllocError>
    requires { Holds heap.old list }
    ensures keeps { Keeps heap.old heap.new }
    ensures answer { IfOk result (λ a. Gives heap.new a (spec.maps_from_list (term_of heap.old list))) }
{
    match entries(alloc, heap, list)? {
        Some(entries) => Ok(PureAnswer::Value(heap.map(&entries)?)),
        None => badarg(heap),
    }
}

/// The keys and values of a proper list of tuples `{K,V}`; None of anything else.
fn entries(alloc: Global, heap: &Heap, list: TermId) -> Result<Option<Vec<Entry>>, AllocError>
    requires { Holds heap.now list }
    ensures held { IfOk result (λ found. IfSome found (λ entries. HoldsEntries heap.now entries.items)) }
    ensures entries { IfOk result (λ found. option_map (λ entries. entries_at heap.now entries.items) found ≡ option_and_then spec.entries_of (lists.elements (term_of heap.now list))) }
{
    match elements(alloc, heap, list)? {
        Some(ids) => entries_of(alloc, heap, &ids),
        None => Ok(None),
    }
}

/// The keys and values of tuples `{K,V}`; None where one is none.
fn entries_of(alloc: Global, heap: &Heap, ids: &[TermId]) -> Result<Option<Vec<Entry>>, AllocError>
    requires { HoldsEach heap.now ids.now }
    ensures held { IfOk result (λ found. IfSome found (λ entries. HoldsEntries heap.now entries.items)) }
    ensures entries { IfOk result (λ found. option_map (λ entries. entries_at heap.now entries.items) found ≡ spec.entries_of (terms_at heap.now ids.now)) }
{
    let mut entries = Vec::new(alloc);
    for id in ids {
        let Some(entry) = entry(heap, *id) else {
            return Ok(None);
        };
        entries.push(entry)?;
    }
    Ok(Some(entries))
}

/// The key and the value of a tuple `{K,V}`; None of anything else.
fn entry(heap: &Heap, id: TermId) -> Option<Entry>
    requires { Holds heap.now id }
    ensures held { IfSome result (λ e. HoldsEntry heap.now e) }
    ensures entry { option_map (λ e. entry_of heap.now e) result ≡ spec.entry (term_of heap.now id) }
{
    match tuple(heap, id) {
        Some(parts) => pair(parts),
        None => None,
    }
}

/// Two ids; None of fewer or more.
fn pair(ids: &[TermId]) -> Option<Entry>
    ensures { result ≡ pair_in ids.now }
{
    match ids {
        [key, value] => Some((*key, *value)),
        _ => None,
    }
}

/// `maps:merge/2`: both maps' keys, with the values of the second where both have a key.
pub(crate) fn merge(
    heap: &mut Heap,
    first: TermId,
    second: TermId,
) -> Result<PureAnswer, AllocError>
    requires first { Holds heap.old first }
    requires second { Holds heap.old second }
    ensures keeps { Keeps heap.old heap.new }
    ensures answer { IfOk result (λ a. Gives heap.new a (spec.maps_merge (term_of heap.old first) (term_of heap.old second))) }
{
    let Some(firsts) = heap.entries(first) else {
        return badmap(heap, first);
    };
    let Some(seconds) = heap.entries(second) else {
        return badmap(heap, second);
    };
    Ok(PureAnswer::Value(heap.merge(firsts, seconds)?))
}
