//! The walk over a method's code.

ghost use Rattle.std.specs.Prelude.{◌≡◌, None, Some, IfOk, if◌then◌else◌};
ghost use Rattle.jvm_code.specs.declared.class.Class.{Class as ClassSeen};
ghost use Rattle.jvm_code.specs.Instruction as instruction;
ghost use Rattle.jvm_code.specs.Verification as spec;
ghost use Rattle.class_verifier.specs.Calls.{IsCalled};
ghost use Rattle.class_verifier.specs.Links.{Are};
ghost use Rattle.class_verifier.specs.Seen.{state_seen};
ghost use Rattle.class_verifier.specs.Steps.{Stepped, before, behind, is_sound_at, linked_by};
ghost use Rattle.class_verifier.specs.Told.{Tells};

use crate::code_fault::CodeFault;
use crate::links::{Links, Signature};
use crate::scope::Scope;
use crate::state::State;
use crate::targets::{goes_on, reaches_each};
use jvm_code::Op;
use std::alloc::AllocError;

/// Goes through the method's code from a state at its beginning: what is wrong first with it, if anything is. Afterwards
/// the state is no longer of use.
pub(crate) fn walk<'a>(scope: &Scope<'a>, state: &mut State<'a>) -> Result<(), CodeFault>
    ensures { Tells result (spec.fault_from scope.now.class.now scope.now.method.now scope.now.frames scope.now.method.now.code (Some (state_seen state.old))) }
{
    let code = scope.method.code.as_slice();
    let mut comes = true;
    for (index, (pc, op)) in code.iter().enumerate() {
        if let Err(fault) = step(scope, state, comes, *pc, op, index + 1 == code.len()) {
            return Err(fault);
        }
        comes = goes_on(op);
    }
    Ok(())
}

// Goes over an instruction, which is come to in the state, or else only by a frame. The state becomes the one behind it.
fn step<'a>(
    scope: &Scope<'a>,
    state: &mut State<'a>,
    comes: bool,
    pc: u16,
    op: &Op,
    is_last: bool,
) -> Result<(), CodeFault>
    ensures { Stepped scope.now pc op.now (behind scope.now is_last pc op.now (before scope.now comes pc (state_seen state.old))) result (state_seen state.new) }
{
    let signature = called(scope.links, op);
    if !is_linked(op, signature) {
        return Err(CodeFault::NotLinked { offset: pc });
    }
    if type_step(scope, state, comes, pc, op, signature, is_last)? {
        return Ok(());
    }
    Err(CodeFault::NotTyped { offset: pc })
}

// The signature of what the instruction calls, if it calls what there is.
fn called<'a>(links: &'a Links, op: &Op) -> Option<&'a Signature>
    ensures signature { (class : ClassSeen) → Are class links.now.signatures.items → IsCalled class op.now result }
    ensures linked { (class : ClassSeen) → Are class links.now.signatures.items → instruction.is_linked class op.now ≡ linked_by op.now result }
{
    match op {
        Op::Invoke(index) => links.signature(*index),
        _ => None,
    }
}

fn is_linked(op: &Op, signature: Option<&Signature>) -> bool
    ensures { result ≡ linked_by op.now signature.entry }
{
    match op {
        Op::Invoke(_) => signature.is_some(),
        _ => true,
    }
}

// Types an instruction, and tells whether it is fit.
fn type_step<'a>(
    scope: &Scope<'a>,
    state: &mut State<'a>,
    comes: bool,
    pc: u16,
    op: &Op,
    signature: Option<&'a Signature>,
    is_last: bool,
) -> Result<bool, AllocError>
    requires { IsCalled scope.now.class.now op.now signature }
    ensures { IfOk result (λ ok. behind scope.now is_last pc op.now (before scope.now comes pc (state_seen state.old)) ≡ (if ok then Some (state_seen state.new) else None)) }
{
    if !come_to(scope, state, comes, pc)? {
        return Ok(false);
    }
    if !state.after(scope.class, scope.string, signature, op)? {
        return Ok(false);
    }
    Ok(is_sound(scope, state, pc, op, is_last))
}

// Enters the frame at the offset, if there is one. Tells whether an instruction may begin there.
fn come_to<'a>(
    scope: &Scope<'a>,
    state: &mut State<'a>,
    comes: bool,
    pc: u16,
) -> Result<bool, AllocError>
    ensures { IfOk result (λ ok. before scope.now comes pc (state_seen state.old) ≡ (if ok then Some (state_seen state.new) else None)) }
{
    let Some(frame) = scope.frames.at(i64::from(pc)) else {
        return Ok(comes);
    };
    if comes {
        if !state.fits(scope.method.max_locals, frame) {
            return Ok(false);
        }
    }
    state.enter(scope.method.max_locals, frame)?;
    Ok(true)
}

// Whether the stack is not too deep behind an instruction, each target is reached, and control does not run off the end.
fn is_sound(scope: &Scope<'_>, state: &State<'_>, pc: u16, op: &Op, is_last: bool) -> bool
    ensures { result ≡ is_sound_at scope.now is_last pc op.now (state_seen state.now) }
{
    state.depth() <= scope.method.max_stack as usize
        && reaches_each(scope, state, pc, op)
        && !(goes_on(op) && is_last)
}
