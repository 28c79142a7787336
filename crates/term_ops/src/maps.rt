//! Builtin functions that read maps (the OTP modules erlang and maps).

ghost use Rattle.std.specs.Prelude.{◌≡◌, map, Some, None, IfOk};
ghost use Rattle.term_heap.specs.declared.cell.TermId.{TermId};
ghost use Rattle.ej_term.specs.Maps as spec;
ghost use Rattle.ej_term.specs.Maps.{entry_tuples};
ghost use Rattle.term_heap.specs.Cells.{from_entries};
ghost use Rattle.term_heap.specs.Entries.{HoldsEntries, entries_at};
ghost use Rattle.term_heap.specs.View.{Holds, Stands, term_of, Keeps};
ghost use Rattle.term_heap.specs.Held.{HoldsEach, terms_at};
ghost use Rattle.term_ops.specs.Answers.{Gives};

use crate::answer::PureAnswer;
use crate::elements::list;
use crate::lookup::{Lookup, look_up};
use crate::raise::{boolean, error_with, value};
use std::alloc::{AllocError, Global};
use term_heap::{Heap, TermId};

/// The error `{badmap,T}` of a term that is no map.
#[tactic(auto, using(crate::proofs::MapsWords::map_words))]
pub(crate) fn badmap(heap: &mut Heap, term: TermId) -> Result<PureAnswer, AllocError>
    requires { Holds heap.old term }
    ensures keeps { Keeps heap.old heap.new }
    ensures answer { IfOk result (λ a. Gives heap.new a (spec.badmap (term_of heap.old term))) }
{
    error_with(heap, "badmap", term)
}

/// The error `{badkey,K}` of a key that a map does not have.
#[tactic(auto, using(crate::proofs::MapsWords::map_words))]
pub(crate) fn badkey(heap: &mut Heap, key: TermId) -> Result<PureAnswer, AllocError>
    requires { Holds heap.old key }
    ensures keeps { Keeps heap.old heap.new }
    ensures answer { IfOk result (λ a. Gives heap.new a (spec.badkey (term_of heap.old key))) }
{
    error_with(heap, "badkey", key)
}

/// `map_size/1`: the count of a map's keys.
#[tactic(auto, using(crate::proofs::MapsLookup::size_of_entries))]
pub(crate) fn map_size(heap: &mut Heap, map: TermId) -> Result<PureAnswer, AllocError>
    requires { Holds heap.old map }
    ensures keeps { Keeps heap.old heap.new }
    ensures answer { IfOk result (λ a. Gives heap.new a (spec.map_size (term_of heap.old map))) }
{
    match heap.entries(map) {
        Some(entries) => {
            let count = heap.entry_count(entries) as i64;
            Ok(PureAnswer::Value(heap.int(count)?))
        }
        None => badmap(heap, map),
    }
}

/// `map_get/2` and `maps:get/2`: the value at a key.
#[tactic(auto, using(crate::proofs::MapsLookup::map_get_is))]
pub(crate) fn map_get(heap: &mut Heap, key: TermId, map: TermId) -> Result<PureAnswer, AllocError>
    requires key { Holds heap.old key }
    requires map { Holds heap.old map }
    ensures keeps { Keeps heap.old heap.new }
    ensures answer { IfOk result (λ a. Gives heap.new a (spec.map_get (term_of heap.old key) (term_of heap.old map))) }
{
    match look_up(heap, key, map)? {
        Lookup::Value(id) => Ok(value(heap, id)),
        Lookup::NoKey => badkey(heap, key),
        Lookup::NoMap => badmap(heap, map),
    }
}

/// `is_map_key/2` and `maps:is_key/2`: whether a map has a key.
#[tactic(auto, using(crate::proofs::MapsLookup::is_map_key_is))]
pub(crate) fn is_map_key(
    heap: &mut Heap,
    key: TermId,
    map: TermId,
) -> Result<PureAnswer, AllocError>
    requires key { Holds heap.old key }
    requires map { Holds heap.old map }
    ensures keeps { Keeps heap.old heap.new }
    ensures answer { IfOk result (λ a. Gives heap.new a (spec.is_map_key (term_of heap.old key) (term_of heap.old map))) }
{
    match look_up(heap, key, map)? {
        Lookup::Value(_) => boolean(heap, true),
        Lookup::NoKey => boolean(heap, false),
        Lookup::NoMap => badmap(heap, map),
    }
}

/// `maps:find/2`: `{ok,V}` with the value at a key, or `error`.
#[tactic(auto, using(crate::proofs::MapsLookup::maps_find_is))]
pub(crate) fn find(heap: &mut Heap, key: TermId, map: TermId) -> Result<PureAnswer, AllocError>
    requires key { Holds heap.old key }
    requires map { Holds heap.old map }
    ensures keeps { Keeps heap.old heap.new }
    ensures answer { IfOk result (λ a. Gives heap.new a (spec.maps_find (term_of heap.old key) (term_of heap.old map))) }
{
    match look_up(heap, key, map)? {
        Lookup::Value(id) => Ok(PureAnswer::Value(found(heap, id)?)),
        Lookup::NoKey => Ok(PureAnswer::Value(not_found(heap)?)),
        Lookup::NoMap => badmap(heap, map),
    }
}

/// `{ok,V}`.
#[tactic(auto, using(crate::proofs::MapsWords::map_words))]
fn found(heap: &mut Heap, value: TermId) -> Result<TermId, AllocError>
    requires { Holds heap.old value }
    ensures keeps { Keeps heap.old heap.new }
    ensures term { IfOk result (λ id. Stands heap.new id (spec.found (Some (term_of heap.old value)))) }
{
    let ok = heap.atom("ok")?;
    heap.tuple(&[ok, value])
}

/// `error`.
#[tactic(auto, using(crate::proofs::MapsWords::map_words))]
fn not_found(heap: &mut Heap) -> Result<TermId, AllocError>
    ensures keeps { Keeps heap.old heap.new }
    ensures term { IfOk result (λ id. Stands heap.new id (spec.found None)) }
{
    heap.atom("error")
}

/// `maps:keys/1`: the list of a map's keys, in their order.
pub(crate) fn keys(alloc: Global, heap: &mut Heap, map: TermId) -> Result<PureAnswer, AllocError>
    requires { Holds heap.old map }
    ensures keeps { Keeps heap.old heap.new }
    ensures answer { IfOk result (λ a. Gives heap.new a (spec.maps_keys (term_of heap.old map))) }
{
    let Some(entries) = heap.entries(map) else {
        return badmap(heap, map);
    };
    let entries = heap.entry_list(alloc, entries)?;
    let keys = keys_of(alloc, &entries)?;
    Ok(PureAnswer::Value(list(heap, &keys)?))
}

/// The keys of entries.
fn keys_of(alloc: Global, entries: &[(TermId, TermId)]) -> Result<Vec<TermId>, AllocError>
    ensures { IfOk result (λ keys. keys.items ≡ map (λ (e : TermId × TermId). e.0) entries.now) }
{
    let mut keys = Vec::new(alloc);
    for (key, _) in entries {
        keys.push(*key)?;
    }
    Ok(keys)
}

/// `maps:values/1`: the list of a map's values, in the order of their keys.
pub(crate) fn values(alloc: Global, heap: &mut Heap, map: TermId) -> Result<PureAnswer, AllocError>
    requires { Holds heap.old map }
    ensures keeps { Keeps heap.old heap.new }
    ensures answer { IfOk result (λ a. Gives heap.new a (spec.maps_values (term_of heap.old map))) }
{
    let Some(entries) = heap.entries(map) else {
        return badmap(heap, map);
    };
    let entries = heap.entry_list(alloc, entries)?;
    let values = values_of(alloc, &entries)?;
    Ok(PureAnswer::Value(list(heap, &values)?))
}

/// The values of entries.
fn values_of(alloc: Global, entries: &[(TermId, TermId)]) -> Result<Vec<TermId>, AllocError>
    ensures { IfOk result (λ values. values.items ≡ map (λ (e : TermId × TermId). e.1) entries.now) }
{
    let mut values = Vec::new(alloc);
    for (_, value) in entries {
        values.push(*value)?;
    }
    Ok(values)
}

/// `maps:to_list/1`: the list of a map's keys with their values as tuples `{K,V}`, in the order of the keys.
pub(crate) fn to_list(alloc: Global, heap: &mut Heap, map: TermId) -> Result<PureAnswer, AllocError>
    requires { Holds heap.old map }
    ensures keeps { Keeps heap.old heap.new }
    ensures answer { IfOk result (λ a. Gives heap.new a (spec.maps_to_list (term_of heap.old map))) }
{
    let Some(entries) = heap.entries(map) else {
        return badmap(heap, map);
    };
    let entries = heap.entry_list(alloc, entries)?;
    let tuples = tuples(alloc, heap, &entries)?;
    Ok(PureAnswer::Value(list(heap, &tuples)?))
}

/// The tuple `{K,V}` of each key and its value.
fn tuples(
    alloc: Global,
    heap: &mut Heap,
    entries: &[(TermId, TermId)],
) -> Result<Vec<TermId>, AllocError>
    requires { HoldsEntries heap.old entries.now }
    ensures keeps { Keeps heap.old heap.new }
    ensures held { IfOk result (λ tuples. HoldsEach heap.new tuples.items) }
    ensures tuples { IfOk result (λ tuples. terms_at heap.new tuples.items ≡ entry_tuples (from_entries (entries_at heap.old entries.now))) }
{
    let mut tuples = Vec::new(alloc);
    for (key, value) in entries {
        let tuple = heap.tuple(&[*key, *value])?;
        tuples.push(tuple)?;
    }
    Ok(tuples)
}
