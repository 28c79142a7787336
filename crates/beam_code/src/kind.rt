//! What a slot of a function holds.

ghost use Rattle.std.specs.Prelude.{◌≡◌, IfOk};

use sqlite_items::Items;
use std::alloc::{AllocError, Global};

/// What a slot, an x or a y register, holds at a place of a function's code.
#[derive(Debug, Drop)]
pub enum Kind {
    /// Nothing that may be read.
    Undefined,
    /// A term.
    Term,
    /// A term, or null where an exception was caught.
    OptTerm,
    /// The tag of a `try` or `catch`, with the labels of its handlers, which rise.
    Tag(Items<u32>),
    /// The trace of an exception.
    Trace,
    /// The marker of a receive.
    Marker,
}

impl Kind {
    /// The same kind.
    pub fn copy(&self, alloc: Global) -> Result<Kind, AllocError>
        ensures { IfOk result (λ kind. kind ≡ self.now) }
    {
        Ok(match self {
            Kind::Undefined => Kind::Undefined,
            Kind::Term => Kind::Term,
            Kind::OptTerm => Kind::OptTerm,
            Kind::Tag(labels) => Kind::Tag(Items::from_slice(alloc, labels.as_slice())?),
            Kind::Trace => Kind::Trace,
            Kind::Marker => Kind::Marker,
        })
    }
}
