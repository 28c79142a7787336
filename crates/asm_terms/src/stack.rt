//! A stack.

ghost use Rattle.std.specs.Prelude.{◌≡◌, [], ◌∷◌, IfOk};
ghost use Rattle.asm_terms.specs.Stack.{popped};

use std::alloc::{AllocError, Global};
use std::marker::Model;

/// A stack, which contracts see as the list of its items from the top down.
#[derive(Drop)]
pub(crate) struct Stack<T> {
    items: Vec<T>,
}

impl<T> Model for Stack<T> {
    ghost use Rattle.std.specs.Prelude.{List, reverse};
    ghost use Rattle.std.specs.Coded.{coded_list};

    ghost Value = { List T };

    ghost coded = { coded_list T.code };

    ghost view = { λ stack. reverse stack.items.items };
}

impl<T: Drop> Stack<T> {
    /// The empty stack.
    pub(crate) fn new(alloc: Global) -> Stack<T>
        ensures { result ≡ [] }
    {
        Stack {
            items: Vec::new(alloc),
        }
    }

    /// The top item and the stack below it.
    pub(crate) fn pop(mut self) -> Option<(T, Stack<T>)>
        ensures { result ≡ popped self }
    {
        let top = self.items.pop()?;
        Some((top, self))
    }

    /// The stack with one more item on top.
    pub(crate) fn push(mut self, item: T) -> Result<Stack<T>, AllocError>
        ensures { IfOk result (λ stack. stack ≡ item ∷ self) }
    {
        self.items.push(item)?;
        Ok(self)
    }
}
