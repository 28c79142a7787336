//! What an instruction does to a state.

ghost use Rattle.std.specs.Prelude.{◌≡◌, ℕ, ℤ, IfOk, is_some, option_map, option_and_then, slice_get};
ghost use Rattle.jvm_code.specs.Entries.{utf8_at};
ghost use Rattle.jvm_code.specs.Instruction.{loaded_at, loaded_wide as wide, resolve};
ghost use Rattle.jvm_code.specs.Typing as spec;
ghost use Rattle.jvm_code.specs.Typing.{State as StateSeen};
ghost use Rattle.class_verifier.specs.Calls.{IsCalled, IsString};
ghost use Rattle.class_verifier.specs.Links.{signature_seen};
ghost use Rattle.class_verifier.specs.Seen.{Becomes, type_seen, state_seen, test_of};

use crate::links::Signature;
use crate::locals::{store, type_at};
use crate::operands::{pop, pop_if, pop_two, pop_values, push};
use crate::state::State;
use crate::types::{TypeRef, Wanted};
use ej_term::Text;
use jvm_code::{Class, Constant, Op, utf8_at};
use sqlite_items::at;
use std::alloc::AllocError;

impl<'a> State<'a> {
    /// Becomes the state behind an instruction of the class, given the signature of what it calls, where it calls what there
    /// is. Tells whether the state before allows it; where it does not, the state is no longer of use.
    pub(crate) fn after(
        &mut self,
        class: &Class,
        string: &'a Text,
        signature: Option<&'a Signature>,
        op: &Op,
    ) -> Result<bool, AllocError>
        requires string { IsString string.now }
        requires called { IsCalled class.now op.now signature }
        ensures { IfOk result (λ ok. (pc : ℕ) → Becomes (option_and_then (spec.after (state_seen self.old)) (resolve class.now pc op.now)) ok self.new) }
    {
        match op {
            Op::Null => self.push(TypeRef::Null),
            Op::IConst(_) | Op::Bipush(_) | Op::Sipush(_) => self.push(TypeRef::Integer),
            Op::Ldc(index) => self.push_given(loaded(class.pool.as_slice(), *index as u16, string)),
            Op::LdcW(index) => self.push_given(loaded(class.pool.as_slice(), *index, string)),
            Op::Ldc2W(index) => self.push_given(loaded_wide(class.pool.as_slice(), *index)),
            Op::ILoad(_, local) => self.load(*local, Wanted::Integer),
            Op::ALoad(_, local) => self.load(*local, Wanted::Reference),
            Op::IStore(_, local) => Ok(self.store(*local, Wanted::Integer)),
            Op::AStore(_, local) => Ok(self.store(*local, Wanted::Reference)),
            Op::Pop => Ok(pop_if(&mut self.stack, Wanted::Single)),
            Op::Dup => self.dup(),
            Op::Swap => self.swap(),
            Op::IAdd | Op::ISub => self.join(),
            Op::If(..) | Op::TableSwitch(..) | Op::LookupSwitch(..) | Op::IReturn => {
                Ok(pop_if(&mut self.stack, Wanted::Integer))
            }
            Op::IfIcmp(..) => Ok(pop_two(&mut self.stack, Wanted::Integer)),
            Op::IfAcmp(..) => Ok(pop_two(&mut self.stack, Wanted::Reference)),
            Op::IfNull(..) => Ok(pop_if(&mut self.stack, Wanted::Reference)),
            Op::Goto(_) => Ok(true),
            Op::Invoke(_) => self.call_found(signature),
        }
    }

    // Pushes a type.
    fn push(&mut self, given: TypeRef<'a>) -> Result<bool, AllocError>
        ensures { IfOk result (λ ok. Becomes (spec.pushed (state_seen self.old) (type_seen given.entry)) ok self.new) }
    {
        push(&mut self.stack, given)?;
        Ok(true)
    }

    // Pushes a type that there may be.
    fn push_given(&mut self, given: Option<TypeRef<'a>>) -> Result<bool, AllocError>
        ensures { IfOk result (λ ok. Becomes (option_and_then (λ t. spec.pushed (state_seen self.old) (type_seen t)) given.entry) ok self.new) }
    {
        match given {
            None => Ok(false),
            Some(one) => self.push(one),
        }
    }

    fn load(&mut self, local: u16, wanted: Wanted) -> Result<bool, AllocError>
        ensures { IfOk result (λ ok. Becomes (spec.loaded (state_seen self.old) (test_of wanted) (spec.type_at (state_seen self.old).locals local)) ok self.new) }
    {
        let held = type_at(&self.locals, local as usize);
        if !held.is(wanted) {
            return Ok(false);
        }
        self.push(held)
    }

    fn store(&mut self, local: u16, wanted: Wanted) -> bool
        ensures { Becomes (spec.moved (state_seen self.old) (test_of wanted) local (state_seen self.old).stack) result self.new }
    {
        match pop(&mut self.stack) {
            None => false,
            Some(top) => {
                if !top.is(wanted) {
                    return false;
                }
                store(&mut self.locals, local, top)
            }
        }
    }

    fn dup(&mut self) -> Result<bool, AllocError>
        ensures { IfOk result (λ ok. Becomes (spec.left (state_seen self.old) (spec.doubled (state_seen self.old).stack)) ok self.new) }
    {
        let Some(top) = pop(&mut self.stack) else {
            return Ok(false);
        };
        if !top.is(Wanted::Single) {
            return Ok(false);
        }
        push(&mut self.stack, top)?;
        push(&mut self.stack, top)?;
        Ok(true)
    }

    fn swap(&mut self) -> Result<bool, AllocError>
        ensures { IfOk result (λ ok. Becomes (spec.left (state_seen self.old) (spec.swapped (state_seen self.old).stack)) ok self.new) }
    {
        let Some(top) = pop(&mut self.stack) else {
            return Ok(false);
        };
        let Some(below) = pop(&mut self.stack) else {
            return Ok(false);
        };
        if !top.is(Wanted::Single) {
            return Ok(false);
        }
        if !below.is(Wanted::Single) {
            return Ok(false);
        }
        push(&mut self.stack, top)?;
        push(&mut self.stack, below)?;
        Ok(true)
    }

    // Two integers become one.
    fn join(&mut self) -> Result<bool, AllocError>
        ensures { IfOk result (λ ok. Becomes (spec.left (state_seen self.old) (spec.joined (state_seen self.old).stack)) ok self.new) }
    {
        if !pop_two(&mut self.stack, Wanted::Integer) {
            return Ok(false);
        }
        push(&mut self.stack, TypeRef::Integer)?;
        Ok(true)
    }

    // What a call does that has that signature, if it calls what there is.
    fn call_found(&mut self, signature: Option<&'a Signature>) -> Result<bool, AllocError>
        ensures { IfOk result (λ ok. Becomes (spec.left (state_seen self.old) (option_and_then (λ s. spec.called s (state_seen self.old).stack) (option_map (λ s. signature_seen s.now) signature.entry))) ok self.new) }
    {
        match signature {
            None => Ok(false),
            Some(one) => self.after_call(one),
        }
    }

    /// Becomes the state behind a call of that signature. Tells whether the state before allows it.
    pub(crate) fn after_call(&mut self, signature: &'a Signature) -> Result<bool, AllocError>
        ensures { IfOk result (λ ok. Becomes (spec.left (state_seen self.old) (spec.called (signature_seen signature.now) (state_seen self.old).stack)) ok self.new) }
    {
        if !pop_values(&mut self.stack, signature.takes.as_slice()) {
            return Ok(false);
        }
        if let Some(given) = &signature.gives {
            push(&mut self.stack, TypeRef::of(given))?;
        }
        Ok(true)
    }
}

// The type that `ldc` of an entry of the pool pushes, given that of strings. None where it loads no such entry.
fn loaded<'a>(pool: &[Constant], index: u16, string: &'a Text) -> Option<TypeRef<'a>>
    requires { IsString string.now }
    ensures { (s : StateSeen) → option_and_then (λ t. spec.pushed s (type_seen t)) result ≡ option_and_then (spec.after s) (loaded_at {T = ℤ} pool.now index) }
{
    match at(pool, index as usize) {
        Some(Constant::Integer(_)) => Some(TypeRef::Integer),
        Some(Constant::Str(text)) => {
            if utf8_at(pool, *text).is_some() {
                return Some(TypeRef::Class(string));
            }
            None
        }
        _ => None,
    }
}

// The type that `ldc2_w` of an entry of the pool pushes. None where it loads no such entry.
fn loaded_wide<'a>(pool: &[Constant], index: u16) -> Option<TypeRef<'a>>
    ensures { (s : StateSeen) → option_and_then (λ t. spec.pushed s (type_seen t)) result ≡ option_and_then (spec.after s) (option_and_then (wide {T = ℤ}) (slice_get pool.now index)) }
{
    match at(pool, index as usize) {
        Some(Constant::Long(_)) => Some(TypeRef::Long),
        _ => None,
    }
}
