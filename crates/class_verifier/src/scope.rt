//! What is known where a method's code is gone through.

ghost use Rattle.class_verifier.specs.Calls.{IsString};
ghost use Rattle.class_verifier.specs.Links.{Are};

use crate::links::Links;
use crate::table::FrameTable;
use ej_term::Text;
use jvm_code::{Class, Method};

/// A method with its frames, each at its place, and what the calls of its class name.
#[derive(Drop)]
pub(crate) struct Scope<'a> {
    pub(crate) class: &'a Class,
    pub(crate) method: &'a Method,
    pub(crate) frames: FrameTable<'a>,
    pub(crate) links: &'a Links,
    /// The name of the class of strings.
    pub(crate) string: &'a Text,
    ghost linked: { Are class.now links.now.signatures.items },
    ghost named: { IsString string.now },
}
