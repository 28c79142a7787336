//! The call with which a process is started by a choice.

ghost use Rattle.std.specs.Prelude.{◌≡◌, ◌≤◌, false, length, map, Some, IfOk};
ghost use Rattle.std.specs.List.{list_any};
ghost use Rattle.ej_term.specs.AsmValue.{value, every, has_opaque as is_opaque};
ghost use Rattle.term_heap.specs.Held.{HoldsEach, terms_at};
ghost use Rattle.term_heap.specs.Loaded.{IsLoaded};
ghost use Rattle.term_heap.specs.View.{Keeps};
ghost use Rattle.proc_sched.specs.Loaded.{LoadsCall, LoadsList};

use ej_term::{AsmTerm, Text};
use ej_world::Begin;
use std::alloc::{AllocError, Global};
use term_heap::{Heap, LoadFault, TermId};

/// The call of that function of that module. At `Opaque` the heap is as it was.
pub(crate) fn load_call(
    alloc: Global,
    heap: &mut Heap,
    module: &Text,
    name: &Text,
    args: &[AsmTerm],
) -> Result<Begin<TermId>, LoadFault>
    ensures keeps { Keeps heap.old heap.new }
    ensures loads { LoadsCall «module».now name.now args.now heap.old heap.new result }
{
    let args = load_list(alloc, heap, args)?;
    let module = heap.atom(module.as_str())?;
    let name = heap.atom(name.as_str())?;
    Ok(Begin::Call(module, name, args))
}

/// The list of these terms.
fn load_list(alloc: Global, heap: &mut Heap, terms: &[AsmTerm]) -> Result<TermId, LoadFault>
    ensures keeps { Keeps heap.old heap.new }
    ensures loads { LoadsList terms.now heap.old heap.new result }
{
    if any_opaque(terms) {
        return Err(LoadFault::Opaque);
    }
    let ids = load_each(alloc, heap, terms)?;
    let nil = heap.nil()?;
    Ok(heap.list_onto(ids.as_slice(), nil)?)
}

/// Whether an opaque token is in one of the terms.
fn any_opaque(terms: &[AsmTerm]) -> bool
    ensures { result ≡ list_any is_opaque terms.now }
{
    terms.iter().any(AsmTerm::has_opaque)
}

/// The ids of these terms, none of which has an opaque token.
fn load_each(alloc: Global, heap: &mut Heap, terms: &[AsmTerm]) -> Result<Vec<TermId>, AllocError>
    requires { list_any is_opaque terms.now ≡ false }
    ensures keeps { Keeps heap.old heap.new }
    ensures held { IfOk result (λ ids. HoldsEach heap.new ids.items) }
    ensures terms { IfOk result (λ ids. every (map value terms.now) ≡ Some (terms_at heap.new ids.items)) }
{
    let mut ids = Vec::new(alloc);
    for at in 0..terms.len() {
        let id = load_one(heap, &terms[at])?;
        ids.push(id)?;
    }
    Ok(ids)
}

/// The id of a term without an opaque token.
fn load_one(heap: &mut Heap, term: &AsmTerm) -> Result<TermId, AllocError>
    requires { is_opaque term.now ≡ false }
    ensures keeps { Keeps heap.old heap.new }
    ensures loads { IfOk result (λ id. IsLoaded heap.new term.now id) }
{
    match heap.load(term) {
        Ok(id) => Ok(id),
        Err(LoadFault::NoMemory) => Err(AllocError),
        Err(LoadFault::Opaque) => unreachable!(),
    }
}
