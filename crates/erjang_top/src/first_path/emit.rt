//! Writes the class of a module.

ghost use Rattle.std.specs.Prelude.{IfOk};
ghost use Rattle.erjang_top.specs.first_path.Accepted.{Accepted};
ghost use Rattle.erjang_top.specs.first_path.ClassProfile.{ClassOf};
ghost use Rattle.erjang_top.specs.first_path.Emitted.{Emitted};
ghost use Rattle.erjang_top.specs.first_path.ModuleClass.{class_of};

mod atom;
mod bytes;
mod class;
mod constant;
mod exports;
mod function;
mod method;
mod names;
mod op;
mod pool;
mod select;

use beam_code::Module;
use class::write_class;
use std::alloc::{AllocError, Global};

/// The bytes of the module's class. The error says that memory was wanting.
pub(crate) fn emit(alloc: Global, source: &Module) -> Result<Vec<u8>, AllocError>
    requires { Accepted source.now }
    ensures emitted { IfOk result (λ class. Emitted source.now class.items) }
    ensures spelled { IfOk result (λ class. ClassOf class.items (class_of source.now)) }
{
    write_class(alloc, source)
}
