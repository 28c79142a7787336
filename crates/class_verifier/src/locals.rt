//! The types of locals.

ghost use Rattle.std.specs.Prelude.{◌≡◌, None, Some, IfOk, if◌then◌else◌};
ghost use Rattle.jvm_code.specs.Typing as spec;
ghost use Rattle.class_verifier.specs.Seen.{type_seen, types_seen};

use crate::types::TypeRef;
use std::alloc::AllocError;

/// Fills the locals with Top, up to so many.
pub(crate) fn fill(locals: &mut Vec<TypeRef<'_>>, count: u16) -> Result<(), AllocError>
    ensures { IfOk result (λ _. types_seen locals.new.items ≡ spec.filled count (types_seen locals.old.items)) }
{
    while locals.len() < count as usize {
        locals.push(TypeRef::Top)?;
    }
    Ok(())
}

/// The type of a local; Top where there is no such local.
pub(crate) fn type_at<'a>(locals: &[TypeRef<'a>], local: usize) -> TypeRef<'a>
    ensures { type_seen result ≡ spec.type_at (types_seen locals.now) local }
{
    match locals.get(local) {
        None => TypeRef::Top,
        Some(held) => *held,
    }
}

/// Puts a type into a local. Tells whether there is such a local. Of a Long whose second place that is, nothing is left.
pub(crate) fn store<'a>(locals: &mut Vec<TypeRef<'a>>, local: u16, given: TypeRef<'a>) -> bool
    ensures { spec.stored (types_seen locals.old.items) local (type_seen given.entry) ≡ (if result then Some (types_seen locals.new.items) else None) }
{
    let at = local as usize;
    if at >= locals.len() {
        return false;
    }
    clear_half(locals, at);
    locals[at] = given;
    true
}

// Makes a Top of a Long whose second place that is.
fn clear_half(locals: &mut Vec<TypeRef<'_>>, at: usize)
    ensures { types_seen locals.new.items ≡ spec.without_half (types_seen locals.old.items) at }
{
    if at > 0 {
        if type_at(locals, at - 1).is_long() {
            locals[at - 1] = TypeRef::Top;
        }
    }
}
