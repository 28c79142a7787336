//! Whether types may stand where others are wanted.

ghost use Rattle.std.specs.Prelude.{◌≡◌, ◌+◌, ◌≤◌, List, ◌++◌, length, drop, reverse, IfSome};
ghost use Rattle.jvm_code.specs.Typing as spec;
ghost use Rattle.jvm_code.specs.declared.types.VType.{VType as VTypeSeen};
ghost use Rattle.class_verifier.specs.Fits.{left_fits};
ghost use Rattle.class_verifier.specs.Seen.{state_seen, types_seen, stack_seen};

use crate::state::State;
use crate::types::TypeRef;
use jvm_code::{Frame, VType};

impl State<'_> {
    /// Whether it may stand where the state that the frame lists is wanted, in a method of so many locals.
    pub(crate) fn fits(&self, max_locals: u16, frame: &Frame) -> bool
        ensures { result ≡ spec.fits_state (state_seen self.now) (spec.state_of max_locals frame.now) }
    {
        locals_fit(&self.locals, max_locals, frame.locals.as_slice())
            && stack_fits(&self.stack, frame.stack.as_slice())
    }
}

// Whether locals may stand where these are wanted, and Top behind them up to so many.
fn locals_fit(locals: &[TypeRef<'_>], max_locals: u16, wanted: &[VType]) -> bool
    ensures { result ≡ spec.all_assignable (types_seen locals.now) (spec.filled max_locals (spec.places wanted.now)) }
{
    match fit_all(locals, wanted) {
        None => false,
        Some(end) => locals.len() == end.max(max_locals as usize),
    }
}

// Whether a stack may stand where this one is wanted, from the bottom up.
fn stack_fits(stack: &[TypeRef<'_>], wanted: &[VType]) -> bool
    ensures { result ≡ spec.all_assignable (stack_seen stack.now) (reverse (spec.places wanted.now)) }
{
    match fit_all(stack, wanted) {
        None => false,
        Some(end) => stack.len() == end,
    }
}

// How many places these types take, where the first places may stand for them. None where they may not.
fn fit_all(types: &[TypeRef<'_>], wanted: &[VType]) -> Option<usize>
    ensures rest { (rest : List VTypeSeen) → spec.all_assignable (types_seen types.now) (spec.places wanted.now ++ rest) ≡ left_fits (types_seen types.now) rest result }
    ensures count { IfSome result (λ end. end ≡ length (spec.places wanted.now)) }
    ensures within { IfSome result (λ end. end ≤ length types.now) }
{
    let mut end = 0;
    for one in wanted {
        match fit_at(types, end, one) {
            None => return None,
            Some(next) => end = next,
        }
    }
    Some(end)
}

// The place behind those of a type, where the places from there on may stand for it. None where they may not.
fn fit_at(types: &[TypeRef<'_>], place: usize, wanted: &VType) -> Option<usize>
    ensures rest { (rest : List VTypeSeen) → spec.all_assignable (drop place (types_seen types.now)) (spec.places_of wanted.now ++ rest) ≡ left_fits (types_seen types.now) rest result }
    ensures count { IfSome result (λ end. end ≡ place + length (spec.places_of wanted.now)) }
    ensures within { IfSome result (λ end. end ≤ length types.now) }
{
    if place >= types.len() {
        return None;
    }
    if !types[place].fits(wanted) {
        return None;
    }
    if !TypeRef::of(wanted).is_long() {
        return Some(place + 1);
    }
    if place + 1 >= types.len() {
        return None;
    }
    Some(place + 2)
}
