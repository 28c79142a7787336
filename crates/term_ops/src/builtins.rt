//! The builtin functions that have no effect.

ghost use Rattle.std.specs.Prelude.{◌≡◌, [], ◌∷◌, length, true, IfOk};
ghost use Rattle.ej_term.specs.Builtins as builtins;
ghost use Rattle.ej_term.specs.Builtins.{is_pure, is_of, rule, gives};
ghost use Rattle.ej_term.specs.Outcome.{Value};
ghost use Rattle.ej_term.specs.Outcome as outcome;
ghost use Rattle.ej_term.specs.Tests as tests;
ghost use Rattle.term_heap.specs.View.{Holds, term_of, Keeps};
ghost use Rattle.term_heap.specs.Held.{HoldsEach, terms_at};
ghost use Rattle.term_ops.specs.Answers.{Gives};

use crate::access::{element, head, tail, tuple_size};
use crate::answer::PureAnswer;
use crate::arithmetic::{Operation, Single};
use crate::booleans::{Comparison, Junction, compared, joined, maximum, minimum, negated};
use crate::digits::{atom_to_list, integer_to_list, list_to_integer};
use crate::exceptions::raise;
use crate::integers::{abs, on_integer, on_integers};
use crate::lists::{append, keyfind, length, member, reverse, subtract};
use crate::raise::{boolean, raised};
use crate::sized::is_function_of;
use crate::tuples::{list_to_tuple, make_tuple, setelement, tuple_to_list};
use crate::{guards, map_update, maps};
use ej_term::{Builtin, Class3, Test};
use std::alloc::{AllocError, Global};
use term_heap::{Heap, TermId};

/// What the builtin function of this number gives for the terms of these ids, of which there are as many as it
/// takes: its value, or the exception that it raises (the OTP modules erlang, lists and maps). The number is one
/// of a builtin function without an effect. The term of each earlier id stays, also where there was no memory.
pub fn pure(
    alloc: Global,
    heap: &mut Heap,
    number: u16,
    args: &[TermId],
) -> Result<PureAnswer, AllocError>
    requires held { HoldsEach heap.old args.now }
    requires number { is_pure number (length args.now) ≡ true }
    ensures keeps { Keeps heap.old heap.new }
    ensures answer { IfOk result (λ r. Gives heap.new r (builtins.pure number (terms_at heap.old args.now))) }
{
    let Some(builtin) = Builtin::numbered(number) else {
        unreachable!();
    };
    match args {
        [a] => of_one(alloc, heap, builtin, *a),
        [a, b] => of_two(alloc, heap, builtin, *a, *b),
        [a, b, c] => of_three(alloc, heap, builtin, *a, *b, *c),
        _ => unreachable!(),
    }
}

/// The builtin functions of one argument.
fn of_one(
    alloc: Global,
    heap: &mut Heap,
    builtin: Builtin,
    a: TermId,
) -> Result<PureAnswer, AllocError>
    requires held { Holds heap.old a }
    requires count { is_of (rule builtin) 1 ≡ true }
    ensures keeps { Keeps heap.old heap.new }
    ensures answer { IfOk result (λ r. Gives heap.new r (gives (rule builtin) (term_of heap.old a ∷ []))) }
{
    match builtin {
        Builtin::Negate => on_integer(heap, Single::Negation, a),
        Builtin::Plus => on_integer(heap, Single::Identity, a),
        Builtin::Bnot => on_integer(heap, Single::Complement, a),
        Builtin::Abs => abs(heap, a),
        Builtin::Not => negated(heap, a),
        Builtin::Hd => head(heap, a),
        Builtin::Tl => tail(heap, a),
        Builtin::Length => length(alloc, heap, a),
        Builtin::TupleSize => tuple_size(heap, a),
        Builtin::TupleToList => tuple_to_list(alloc, heap, a),
        Builtin::ListToTuple => list_to_tuple(alloc, heap, a),
        Builtin::MapSize => maps::map_size(heap, a),
        Builtin::MapsKeys => maps::keys(alloc, heap, a),
        Builtin::MapsValues => maps::values(alloc, heap, a),
        Builtin::MapsToList => maps::to_list(alloc, heap, a),
        Builtin::MapsFromList => map_update::from_list(alloc, heap, a),
        Builtin::AtomToList => atom_to_list(alloc, heap, a),
        Builtin::IntegerToList => integer_to_list(alloc, heap, a),
        Builtin::ListToInteger => list_to_integer(alloc, heap, a),
        Builtin::Error => Ok(raised(heap, Class3::Error, a)),
        Builtin::Exit => Ok(raised(heap, Class3::Exit, a)),
        Builtin::Throw => Ok(raised(heap, Class3::Throw, a)),
        Builtin::IsAtom => asked(heap, Test::IsAtom, a),
        Builtin::IsInteger => asked(heap, Test::IsInteger, a),
        Builtin::IsNumber => asked(heap, Test::IsNumber, a),
        Builtin::IsList => asked(heap, Test::IsList, a),
        Builtin::IsTuple => asked(heap, Test::IsTuple, a),
        Builtin::IsPid => asked(heap, Test::IsPid, a),
        Builtin::IsReference => asked(heap, Test::IsReference, a),
        Builtin::IsFunction => asked(heap, Test::IsFunction, a),
        Builtin::IsMap => asked(heap, Test::IsMap, a),
        Builtin::IsBoolean => asked(heap, Test::IsBoolean, a),
        Builtin::IsFloat => asked(heap, Test::IsFloat, a),
        Builtin::IsBinary => asked(heap, Test::IsBinary, a),
        _ => unreachable!(),
    }
}

/// What a test of one term says, as the value.
fn asked(heap: &mut Heap, test: Test, a: TermId) -> Result<PureAnswer, AllocError>
    requires held { Holds heap.old a }
    requires count { tests.is_of (tests.rule test) 1 ≡ true }
    ensures keeps { Keeps heap.old heap.new }
    ensures answer { IfOk result (λ r. Gives heap.new r (Value (outcome.boolean (tests.holds_by (tests.rule test) (term_of heap.old a ∷ []))))) }
{
    let holds = guards::of_one(heap, test, a);
    boolean(heap, holds)
}

/// The builtin functions of two arguments.
fn of_two(
    alloc: Global,
    heap: &mut Heap,
    builtin: Builtin,
    a: TermId,
    b: TermId,
) -> Result<PureAnswer, AllocError>
    requires first { Holds heap.old a }
    requires second { Holds heap.old b }
    requires count { is_of (rule builtin) 2 ≡ true }
    ensures keeps { Keeps heap.old heap.new }
    ensures answer { IfOk result (λ r. Gives heap.new r (gives (rule builtin) (term_of heap.old a ∷ term_of heap.old b ∷ []))) }
{
    match builtin {
        Builtin::Element => element(heap, a, b),
        Builtin::MapGet | Builtin::MapsGet => maps::map_get(heap, a, b),
        Builtin::IsMapKey | Builtin::MapsIsKey => maps::is_map_key(heap, a, b),
        Builtin::MapsFind => maps::find(heap, a, b),
        Builtin::MapsRemove => map_update::remove(heap, a, b),
        Builtin::MapsMerge => map_update::merge(heap, a, b),
        Builtin::IsFunctionOfArity => is_function_of(heap, a, b),
        Builtin::Max => maximum(alloc, heap, a, b),
        Builtin::Min => minimum(alloc, heap, a, b),
        Builtin::Append => append(alloc, heap, a, b),
        Builtin::SubtractList => subtract(alloc, heap, a, b),
        Builtin::MakeTuple => make_tuple(alloc, heap, a, b),
        Builtin::ListsReverse => reverse(alloc, heap, a, b),
        Builtin::ListsMember => member(alloc, heap, a, b),
        Builtin::ErrorWithArguments => Ok(raised(heap, Class3::Error, a)),
        Builtin::Equal => compared(alloc, heap, Comparison::Equal, a, b),
        Builtin::NotEqual => compared(alloc, heap, Comparison::Different, a, b),
        Builtin::AtMost => compared(alloc, heap, Comparison::AtMost, a, b),
        Builtin::Less => compared(alloc, heap, Comparison::Less, a, b),
        Builtin::AtLeast => compared(alloc, heap, Comparison::AtLeast, a, b),
        Builtin::Greater => compared(alloc, heap, Comparison::Greater, a, b),
        Builtin::ExactlyEqual => compared(alloc, heap, Comparison::Equal, a, b),
        Builtin::NotExactlyEqual => compared(alloc, heap, Comparison::Different, a, b),
        Builtin::And => joined(heap, Junction::Both, a, b),
        Builtin::Or => joined(heap, Junction::Either, a, b),
        Builtin::Xor => joined(heap, Junction::Differ, a, b),
        Builtin::Add => on_integers(heap, Operation::Plus, a, b),
        Builtin::Subtract => on_integers(heap, Operation::Minus, a, b),
        Builtin::Multiply => on_integers(heap, Operation::Times, a, b),
        Builtin::Div => on_integers(heap, Operation::Quotient, a, b),
        Builtin::Rem => on_integers(heap, Operation::Remainder, a, b),
        Builtin::Band => on_integers(heap, Operation::And, a, b),
        Builtin::Bor => on_integers(heap, Operation::Or, a, b),
        Builtin::Bxor => on_integers(heap, Operation::ExclusiveOr, a, b),
        Builtin::Bsl => on_integers(heap, Operation::ShiftLeft, a, b),
        Builtin::Bsr => on_integers(heap, Operation::ShiftRight, a, b),
        _ => unreachable!(),
    }
}

/// The builtin functions of three arguments.
fn of_three(
    alloc: Global,
    heap: &mut Heap,
    builtin: Builtin,
    a: TermId,
    b: TermId,
    c: TermId,
) -> Result<PureAnswer, AllocError>
    requires first { Holds heap.old a }
    requires second { Holds heap.old b }
    requires third { Holds heap.old c }
    requires count { is_of (rule builtin) 3 ≡ true }
    ensures keeps { Keeps heap.old heap.new }
    ensures answer { IfOk result (λ r. Gives heap.new r (gives (rule builtin) (term_of heap.old a ∷ term_of heap.old b ∷ term_of heap.old c ∷ []))) }
{
    match builtin {
        Builtin::SetElement => setelement(alloc, heap, a, b, c),
        Builtin::ListsKeyfind => keyfind(alloc, heap, a, b, c),
        Builtin::MapsPut => map_update::put(heap, a, b, c),
        Builtin::MapsUpdate => map_update::update(heap, a, b, c),
        Builtin::Raise => raise(alloc, heap, a, b, c),
        _ => unreachable!(),
    }
}
