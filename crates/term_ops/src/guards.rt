//! The tests of terms.

ghost use Rattle.std.specs.Prelude.{◌≡◌, [], ◌∷◌, length, true, IfOk};
ghost use Rattle.ej_term.specs.Tests as tests;
ghost use Rattle.ej_term.specs.Tests.{is_test, is_of, rule, holds_by};
ghost use Rattle.term_heap.specs.View.{Holds, term_of};
ghost use Rattle.term_heap.specs.Held.{HoldsEach, terms_at};

use crate::kinds::{
    is_atom, is_boolean, is_function, is_integer, is_list, is_map, is_nil, is_nonempty_list,
    is_pid, is_reference, is_tuple,
};
use crate::order::{equal, less};
use crate::sized::{has_arity, is_tagged_tuple, takes};
use ej_term::Test;
use std::alloc::{AllocError, Global};
use term_heap::{Heap, TermId};

/// Whether the test of this number, from 1 to 25, holds of the terms of these ids, of which there are as many as
/// it takes (Erlang Reference Manual, "Guard Sequences"; the OTP 24 genop table).
pub fn test(alloc: Global, heap: &Heap, number: u16, args: &[TermId]) -> Result<bool, AllocError>
    requires held { HoldsEach heap.now args.now }
    requires number { is_test number (length args.now) ≡ true }
    ensures { IfOk result (λ holds. holds ≡ tests.test number (terms_at heap.now args.now)) }
{
    let Some(test) = Test::numbered(number) else {
        unreachable!();
    };
    match args {
        [a] => Ok(of_one(heap, test, *a)),
        [a, b] => of_two(alloc, heap, test, *a, *b),
        [a, b, c] => is_tagged_tuple(alloc, heap, *a, *b, *c),
        _ => unreachable!(),
    }
}

/// The tests of one term.
pub(crate) fn of_one(heap: &Heap, test: Test, a: TermId) -> bool
    requires held { Holds heap.now a }
    requires count { is_of (rule test) 1 ≡ true }
    ensures { result ≡ holds_by (rule test) (term_of heap.now a ∷ []) }
{
    match test {
        Test::IsInteger | Test::IsNumber => is_integer(heap, a),
        Test::IsAtom => is_atom(heap, a),
        Test::IsPid => is_pid(heap, a),
        Test::IsReference => is_reference(heap, a),
        Test::IsNil => is_nil(heap, a),
        Test::IsList => is_list(heap, a),
        Test::IsNonemptyList => is_nonempty_list(heap, a),
        Test::IsTuple => is_tuple(heap, a),
        Test::IsBoolean => is_boolean(heap, a),
        Test::IsFunction => is_function(heap, a),
        Test::IsMap => is_map(heap, a),
        // of floats, binaries, bit strings and ports there are none
        Test::IsFloat | Test::IsBinary | Test::IsBitstring | Test::IsPort => false,
        _ => unreachable!(),
    }
}

/// The tests of two terms.
fn of_two(alloc: Global, heap: &Heap, test: Test, a: TermId, b: TermId) -> Result<bool, AllocError>
    requires first { Holds heap.now a }
    requires second { Holds heap.now b }
    requires count { is_of (rule test) 2 ≡ true }
    ensures { IfOk result (λ holds. holds ≡ holds_by (rule test) (term_of heap.now a ∷ term_of heap.now b ∷ [])) }
{
    match test {
        Test::Less => less(alloc, heap, a, b),
        Test::AtLeast => Ok(!less(alloc, heap, a, b)?),
        Test::Equal | Test::ExactlyEqual => equal(alloc, heap, a, b),
        Test::NotEqual | Test::NotExactlyEqual => Ok(!equal(alloc, heap, a, b)?),
        Test::TestArity => Ok(has_arity(heap, a, b)),
        Test::IsFunctionOfArity => Ok(takes(heap, a, b)),
        _ => unreachable!(),
    }
}
