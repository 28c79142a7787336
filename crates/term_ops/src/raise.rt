//! Values and exceptions that builtin functions give.

ghost use Rattle.std.specs.Prelude.{◌≡◌, IfOk};
ghost use Rattle.std.specs.Str.{chars};
ghost use Rattle.ej_term.specs.Outcome as outcome;
ghost use Rattle.ej_term.specs.Outcome.{Value};
ghost use Rattle.term_heap.specs.View.{Holds, Stands, term_of, Keeps};
ghost use Rattle.term_ops.specs.Answers.{Gives};

use crate::answer::{PureAnswer, Raised};
use ej_term::Class3;
use std::alloc::AllocError;
use term_heap::{Heap, TermId};

/// The term of an id, as the value.
pub(crate) fn value(heap: &Heap, id: TermId) -> PureAnswer
    requires { Holds heap.now id }
    ensures { Gives heap.now result (Value (term_of heap.now id)) }
{
    PureAnswer::Value(id)
}

/// A boolean, as the value.
pub(crate) fn boolean(heap: &mut Heap, truth: bool) -> Result<PureAnswer, AllocError>
    ensures keeps { Keeps heap.old heap.new }
    ensures answer { IfOk result (λ a. Gives heap.new a (Value (outcome.boolean truth))) }
{
    Ok(PureAnswer::Value(heap.boolean(truth)?))
}

/// The exception of this class, with the term of an id as its reason.
pub(crate) fn raised(heap: &Heap, class: Class3, reason: TermId) -> PureAnswer
    requires { Holds heap.now reason }
    ensures { Gives heap.now result (outcome.Raised «class» (term_of heap.now reason)) }
{
    PureAnswer::Raised(Raised { class, reason })
}

/// The error whose reason is the atom of this name.
pub(crate) fn named_error(heap: &mut Heap, name: &str) -> Result<PureAnswer, AllocError>
    ensures keeps { Keeps heap.old heap.new }
    ensures answer { IfOk result (λ a. Gives heap.new a (outcome.named_error (chars name.now))) }
{
    let reason = heap.atom(name)?;
    Ok(PureAnswer::Raised(Raised {
        class: Class3::Error,
        reason,
    }))
}

/// The error `badarg`.
#[tactic(auto, using(crate::proofs::ReadWords::words))]
pub(crate) fn badarg(heap: &mut Heap) -> Result<PureAnswer, AllocError>
    ensures keeps { Keeps heap.old heap.new }
    ensures answer { IfOk result (λ a. Gives heap.new a outcome.badarg) }
{
    named_error(heap, "badarg")
}

/// The error `badarith`.
#[tactic(auto, using(crate::proofs::ReadWords::words))]
pub(crate) fn badarith(heap: &mut Heap) -> Result<PureAnswer, AllocError>
    ensures keeps { Keeps heap.old heap.new }
    ensures answer { IfOk result (λ a. Gives heap.new a outcome.badarith) }
{
    named_error(heap, "badarith")
}

/// The error `system_limit`.
#[tactic(auto, using(crate::proofs::ReadWords::words))]
pub(crate) fn system_limit(heap: &mut Heap) -> Result<PureAnswer, AllocError>
    ensures keeps { Keeps heap.old heap.new }
    ensures answer { IfOk result (λ a. Gives heap.new a outcome.system_limit) }
{
    named_error(heap, "system_limit")
}

/// The error whose reason is `{name,term}`.
pub(crate) fn error_with(
    heap: &mut Heap,
    name: &str,
    term: TermId,
) -> Result<PureAnswer, AllocError>
    requires { Holds heap.old term }
    ensures keeps { Keeps heap.old heap.new }
    ensures answer { IfOk result (λ a. Gives heap.new a (outcome.error_with (chars name.now) (term_of heap.old term))) }
{
    let name = heap.atom(name)?;
    let reason = heap.tuple(&[name, term])?;
    Ok(PureAnswer::Raised(Raised {
        class: Class3::Error,
        reason,
    }))
}
