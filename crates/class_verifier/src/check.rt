//! Checks methods, in their order.

ghost use Rattle.std.specs.Prelude.{◌≡◌, map};
ghost use Rattle.jvm_code.specs.Verification.{code_fault};
ghost use Rattle.stack_maps.specs.Read.{seen};
ghost use Rattle.class_verifier.specs.Checked as spec;
ghost use Rattle.class_verifier.specs.Checked.{Checks, ChecksMethod};
ghost use Rattle.class_verifier.specs.Links.{Are};
ghost use Rattle.class_verifier.specs.Told.{Tells};

use crate::code_fault::CodeFault;
use crate::fault::VerifyFault;
use crate::frames::frames;
use crate::known::Known;
use crate::links::Links;
use crate::scope::Scope;
use crate::state::State;
use crate::table::FrameTable;
use crate::walk::walk;
use jvm_code::{Class, Method};
use stack_maps::{MapFault, MapFrame};
use std::alloc::Global;

/// What is wrong first with the class, if anything is, or that memory was wanting.
pub(crate) fn check(alloc: Global, class: &Class) -> Result<(), VerifyFault>
    ensures { Checks class.now result }
{
    let links = Links::of(alloc, class)?;
    let known = Known::new(alloc)?;
    check_methods(alloc, class, &links, &known)
}

#[tactic(auto, using(crate::proofs::Checking::gone_none, crate::proofs::Checking::gone_all))]
fn check_methods(
    alloc: Global,
    class: &Class,
    links: &Links,
    known: &Known,
) -> Result<(), VerifyFault>
    requires { Are class.now links.now.signatures.items }
    ensures { Checks class.now result }
{
    for (number, method) in class.methods.as_slice().iter().enumerate() {
        if let Err(fault) = check_method(alloc, class, links, known, number, method) {
            return Err(fault);
        }
    }
    Ok(())
}

// What is wrong with the method of that number: its map, or else what is wrong first with its code.
fn check_method(
    alloc: Global,
    class: &Class,
    links: &Links,
    known: &Known,
    number: usize,
    method: &Method,
) -> Result<(), VerifyFault>
    requires { Are class.now links.now.signatures.items }
    ensures { ChecksMethod class.now method.now number result }
{
    match frames(alloc, class, method) {
        Err(MapFault::BadMap) => Err(VerifyFault::BadMap { method: number }),
        Err(MapFault::NoMemory) => Err(VerifyFault::NoMemory),
        Ok(frames) => match check_code(alloc, class, links, known, method, frames.as_slice()) {
            Ok(()) => Ok(()),
            Err(fault) => Err(in_method(number, fault)),
        },
    }
}

fn in_method(method: usize, fault: CodeFault) -> VerifyFault
    ensures { result ≡ spec.in_method method fault }
{
    match fault {
        CodeFault::NotTyped { offset } => VerifyFault::NotTyped { method, offset },
        CodeFault::NotLinked { offset } => VerifyFault::NotLinked { method, offset },
        CodeFault::NoMemory => VerifyFault::NoMemory,
    }
}

// What is wrong first with the code of a method that has these frames.
fn check_code(
    alloc: Global,
    class: &Class,
    links: &Links,
    known: &Known,
    method: &Method,
    frames: &[MapFrame],
) -> Result<(), CodeFault>
    requires { Are class.now links.now.signatures.items }
    ensures { Tells result (code_fault class.now method.now (map seen frames.now)) }
{
    if method.max_locals < 2 {
        return Err(CodeFault::NotTyped { offset: 0 });
    }
    let scope = Scope {
        class,
        method,
        frames: FrameTable::new(alloc, frames)?,
        links,
        string: &known.string,
    };
    let mut state = State::new(alloc);
    state.enter(method.max_locals, &known.first)?;
    walk(&scope, &mut state)
}
