//! The names of classes and methods.

ghost use Rattle.std.specs.Prelude.{◌≡◌, IfOk};
ghost use Rattle.erjang_top.specs.Mangle.{class_name, method_name};

use crate::mangle::mangle;
use ej_term::Text;
use std::alloc::{AllocError, Global};

/// The package of the classes of modules.
const PACKAGE: &[u8] = b"erl/m/";

/// The name of a module's class.
pub fn class_name(alloc: Global, owner: &Text) -> Result<Vec<u8>, AllocError>
    ensures { IfOk result (λ name. name.items ≡ class_name owner.now) }
{
    let mut name = Vec::from_slice(alloc, PACKAGE)?;
    name.extend_from_slice(mangle(alloc, owner)?.as_bytes())?;
    Ok(name)
}

/// The name of a function's method.
pub fn method_name(alloc: Global, function: &Text, arity: u8) -> Result<Vec<u8>, AllocError>
    ensures { IfOk result (λ name. name.items ≡ method_name function.now arity) }
{
    let mut name = Vec::new(alloc);
    name.extend_from_slice(mangle(alloc, function)?.as_bytes())?;
    name.extend_from_slice(b"__")?;
    name.extend_from_slice(arity.to_string(alloc)?.as_bytes())?;
    Ok(name)
}
