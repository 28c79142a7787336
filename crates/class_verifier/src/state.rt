//! The types at a place of the code.

ghost use Rattle.std.specs.Prelude.{◌≡◌, ◌≤◌, [], length, IfOk};
ghost use Rattle.jvm_code.specs.Typing as spec;
ghost use Rattle.class_verifier.specs.Seen.{state_seen};

use crate::locals::fill;
use crate::operands::push_all;
use crate::types::TypeRef;
use jvm_code::Frame;
use std::alloc::{AllocError, Global};

/// The types of the locals, and of the operands from the bottom of the stack up. A Long takes two places.
#[derive(Drop)]
pub(crate) struct State<'a> {
    pub(crate) locals: Vec<TypeRef<'a>>,
    pub(crate) stack: Vec<TypeRef<'a>>,
}

impl<'a> State<'a> {
    /// A state with no locals and no operands.
    pub(crate) fn new(alloc: Global) -> State<'a>
        ensures { state_seen result ≡ record { locals = []; stack = [] } }
    {
        State {
            locals: Vec::new(alloc),
            stack: Vec::new(alloc),
        }
    }

    /// Becomes the state that the frame lists, in a method of so many locals.
    pub(crate) fn enter(&mut self, max_locals: u16, frame: &'a Frame) -> Result<(), AllocError>
        ensures { IfOk result (λ _. state_seen self.new ≡ spec.state_of max_locals frame.now) }
    {
        self.locals.clear();
        push_all(&mut self.locals, frame.locals.as_slice())?;
        fill(&mut self.locals, max_locals)?;
        self.stack.clear();
        push_all(&mut self.stack, frame.stack.as_slice())
    }

    /// How many places the stack has.
    pub(crate) fn depth(&self) -> usize
        ensures { result ≡ length (state_seen self.now).stack }
    {
        self.stack.len()
    }
}
