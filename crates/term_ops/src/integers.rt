//! The builtin functions on integers.

ghost use Rattle.std.specs.Prelude.{◌≡◌, IfOk};
ghost use Rattle.ej_term.specs.Arithmetic as arithmetic;
ghost use Rattle.ej_term.specs.Outcome.{badarg, badarith};
ghost use Rattle.term_heap.specs.View.{Holds, term_of, Keeps};
ghost use Rattle.term_ops.specs.Answers.{Gives};
ghost use Rattle.term_ops.specs.Computing.{outcome_of, function_of, function_of_one};

use crate::answer::PureAnswer;
use crate::arithmetic::{Fault, Operation, Single, absolute};
use crate::raise::{badarg, badarith, system_limit};
use crate::read::integer;
use std::alloc::AllocError;
use term_heap::{Heap, TermId};

/// An operation on two integers; error badarith of anything else.
pub(crate) fn on_integers(
    heap: &mut Heap,
    operation: Operation,
    a: TermId,
    b: TermId,
) -> Result<PureAnswer, AllocError>
    requires first { Holds heap.old a }
    requires second { Holds heap.old b }
    ensures keeps { Keeps heap.old heap.new }
    ensures answer { IfOk result (λ r. Gives heap.new r (arithmetic.on_integers (function_of operation) (term_of heap.old a) (term_of heap.old b))) }
{
    let Some(m) = integer(heap, a) else {
        return badarith(heap);
    };
    let Some(n) = integer(heap, b) else {
        return badarith(heap);
    };
    give(heap, operation.apply(m, n))
}

/// An operation on one integer; error badarith of anything else.
pub(crate) fn on_integer(
    heap: &mut Heap,
    operation: Single,
    a: TermId,
) -> Result<PureAnswer, AllocError>
    requires { Holds heap.old a }
    ensures keeps { Keeps heap.old heap.new }
    ensures answer { IfOk result (λ r. Gives heap.new r (arithmetic.on_integer badarith (function_of_one operation) (term_of heap.old a))) }
{
    match integer(heap, a) {
        Some(n) => give(heap, operation.apply(n)),
        None => badarith(heap),
    }
}

/// How far an integer is from 0; error badarg of anything else.
pub(crate) fn abs(heap: &mut Heap, a: TermId) -> Result<PureAnswer, AllocError>
    requires { Holds heap.old a }
    ensures keeps { Keeps heap.old heap.new }
    ensures answer { IfOk result (λ r. Gives heap.new r (arithmetic.on_integer badarg arithmetic.absolute (term_of heap.old a))) }
{
    match integer(heap, a) {
        Some(n) => give(heap, absolute(n)),
        None => badarg(heap),
    }
}

/// The value, or the error that the fault is.
fn give(heap: &mut Heap, value: Result<i64, Fault>) -> Result<PureAnswer, AllocError>
    ensures keeps { Keeps heap.old heap.new }
    ensures answer { IfOk result (λ r. Gives heap.new r (outcome_of value)) }
{
    match value {
        Ok(n) => Ok(PureAnswer::Value(heap.int(n)?)),
        Err(Fault::BadArith) => badarith(heap),
        Err(Fault::SystemLimit) => system_limit(heap),
    }
}
