//! Types at places, and an operand stack of them, whose top is the end of the list.

ghost use Rattle.std.specs.Prelude.{◌≡◌, ◌++◌, [], ◌∷◌, MatchOption, IfOk, reverse};
ghost use Rattle.jvm_code.specs.Typing as spec;
ghost use Rattle.class_verifier.specs.Seen.{Leaves, type_seen, types_seen, stack_seen, test_of};

use crate::types::{TypeRef, Wanted};
use jvm_code::VType;
use std::alloc::AllocError;

/// Puts a type behind others; a Long with the place behind it.
pub(crate) fn push<'a>(places: &mut Vec<TypeRef<'a>>, given: TypeRef<'a>) -> Result<(), AllocError>
    ensures { IfOk result (λ _. types_seen places.new.items ≡ types_seen places.old.items ++ spec.places_of (type_seen given.entry)) }
{
    places.push(given)?;
    if given.is_long() {
        places.push(TypeRef::Top)?;
    }
    Ok(())
}

/// Puts these types behind others, in their order.
pub(crate) fn push_all<'a>(
    places: &mut Vec<TypeRef<'a>>,
    given: &'a [VType],
) -> Result<(), AllocError>
    ensures { IfOk result (λ _. types_seen places.new.items ≡ types_seen places.old.items ++ spec.places given.now) }
{
    for one in given {
        push(places, TypeRef::of(one))?;
    }
    Ok(())
}

/// Takes the type on top. None where the stack is empty.
pub(crate) fn pop<'a>(stack: &mut Vec<TypeRef<'a>>) -> Option<TypeRef<'a>>
    ensures { MatchOption result (stack_seen stack.old.items ≡ []) (λ top. stack_seen stack.old.items ≡ type_seen top ∷ stack_seen stack.new.items) }
{
    stack.pop()
}

/// Takes the type on top. Tells whether there is one that is what is asked for.
pub(crate) fn pop_if(stack: &mut Vec<TypeRef<'_>>, wanted: Wanted) -> bool
    ensures { Leaves (spec.popped (test_of wanted) (stack_seen stack.old.items)) result stack.new.items }
{
    match pop(stack) {
        None => false,
        Some(top) => top.is(wanted),
    }
}

/// Takes two types. Tells whether there are such, and both are what is asked for.
pub(crate) fn pop_two(stack: &mut Vec<TypeRef<'_>>, wanted: Wanted) -> bool
    ensures { Leaves (spec.popped_twice (test_of wanted) (stack_seen stack.old.items)) result stack.new.items }
{
    if !pop_if(stack, wanted) {
        return false;
    }
    pop_if(stack, wanted)
}

/// Takes a value of a type, which is two places for a Long. Tells whether there is one that may stand for it.
pub(crate) fn pop_value(stack: &mut Vec<TypeRef<'_>>, wanted: &VType) -> bool
    ensures { Leaves (spec.taken (reverse (spec.places_of wanted.now)) (stack_seen stack.old.items)) result stack.new.items }
{
    if matches!(wanted, VType::Long) {
        if pop(stack).is_none() {
            return false;
        }
    }
    match pop(stack) {
        None => false,
        Some(top) => top.fits(wanted),
    }
}

/// Takes values of these types, the last of which is on top. Tells whether there are such.
pub(crate) fn pop_values(stack: &mut Vec<TypeRef<'_>>, wanted: &[VType]) -> bool
    ensures { Leaves (spec.taken (reverse (spec.places wanted.now)) (stack_seen stack.old.items)) result stack.new.items }
{
    let mut left = wanted.len();
    while left > 0 {
        left -= 1;
        if !pop_value(stack, &wanted[left]) {
            return false;
        }
    }
    true
}
