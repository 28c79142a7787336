//! The builtin functions that raise exceptions (Erlang Reference Manual, "Errors and Error Handling").

ghost use Rattle.std.specs.Prelude.{◌≡◌, IfOk, codes};
ghost use Rattle.std.specs.Str.{chars};
ghost use Rattle.ej_term.specs.Builtins as builtins;
ghost use Rattle.ej_term.specs.Outcome.{Value};
ghost use Rattle.ej_term.specs.Term as term;
ghost use Rattle.term_heap.specs.View.{Holds, term_of, Keeps};
ghost use Rattle.term_ops.specs.Answers.{Gives};
ghost use Rattle.term_ops.specs.Parts.{class_of_name};

use crate::answer::PureAnswer;
use crate::elements::elements;
use crate::raise::raised;
use ej_term::Class3;
use std::alloc::{AllocError, Global};
use term_heap::{Cell, Heap, TermId};

/// `raise/3`: the exception of the class that the first names, with the second as its reason; the value badarg
/// where the first names no class, or the third is no proper list.
pub(crate) fn raise(
    alloc: Global,
    heap: &mut Heap,
    class: TermId,
    reason: TermId,
    trace: TermId,
) -> Result<PureAnswer, AllocError>
    requires named { Holds heap.old «class» }
    requires reason { Holds heap.old reason }
    requires trace { Holds heap.old trace }
    ensures keeps { Keeps heap.old heap.new }
    ensures answer { IfOk result (λ a. Gives heap.new a (builtins.raise (term_of heap.old «class») (term_of heap.old reason) (term_of heap.old trace))) }
{
    let Some(class) = class_named(heap, class) else {
        return badarg_value(heap);
    };
    match elements(alloc, heap, trace)? {
        Some(_) => Ok(raised(heap, class, reason)),
        None => badarg_value(heap),
    }
}

/// The class of an exception that an atom names, or none.
fn class_named(heap: &Heap, id: TermId) -> Option<Class3>
    requires { Holds heap.now id }
    ensures { result ≡ builtins.class_named (term_of heap.now id) }
{
    match *heap.cell(id) {
        Cell::Atom(text) => class_of_name(heap.atom_text(text)),
        _ => None,
    }
}

/// The class of this name, or none.
fn class_of_name(name: &str) -> Option<Class3>
    ensures { result ≡ class_of_name (chars name.now) }
{
    match name {
        "error" => Some(Class3::Error),
        "exit" => Some(Class3::Exit),
        "throw" => Some(Class3::Throw),
        _ => None,
    }
}

/// The atom `badarg`, as a value.
#[tactic(auto, using(crate::proofs::ReadWords::words))]
fn badarg_value(heap: &mut Heap) -> Result<PureAnswer, AllocError>
    ensures keeps { Keeps heap.old heap.new }
    ensures answer { IfOk result (λ a. Gives heap.new a (Value (term.atom (codes "badarg")))) }
{
    Ok(PureAnswer::Value(heap.atom("badarg")?))
}
