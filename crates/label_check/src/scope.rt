//! What the instructions of a function may name.

use indexmap::{IndexMap, IndexSet};

/// The labels that a function defines, and the entries of all functions, each with the arity of the first function
/// that has it.
#[derive(Clone, Copy)]
pub(crate) struct Scope<'a> {
    pub own: &'a IndexSet<u32>,
    pub entries: &'a IndexMap<u32, u8>,
}
