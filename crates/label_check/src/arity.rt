//! The arguments and free variables of what an instruction names.

ghost use Rattle.std.specs.Prelude.{◌≡◌, ℕ, nat_eq, map, IfOk};
ghost use Rattle.indexmap.specs.IndexMap.{get};
ghost use Rattle.beam_code.specs.Labels as spec;
ghost use Rattle.beam_code.specs.Code.{function_code};
ghost use Rattle.beam_code.specs.Seen.{callee_seen, opcode_seen};
ghost use Rattle.label_check.specs.Seen.{seen_scope};

use crate::scope::Scope;
use beam_code::{Callee, Function, Opcode};
use indexmap::IndexMap;
use std::alloc::{AllocError, Global};

/// Each entry label of the functions, with the arity of the first function that has it. The error says that memory was
/// wanting.
pub(crate) fn arities_of(
    alloc: Global,
    functions: &[Function],
) -> Result<IndexMap<u32, u8>, AllocError>
    ensures { IfOk result (λ entries. (n : ℕ) → get nat_eq entries n ≡ spec.arity_of (map function_code functions.now) n) }
{
    let mut entries: IndexMap<u32, u8> = IndexMap::new(alloc);
    for function in functions {
        if !entries.contains_key(&function.entry) {
            entries.insert(function.entry, function.arity)?;
        }
    }
    Ok(entries)
}

/// Whether the instruction's arguments or free variables are those of what it names.
pub(crate) fn agrees(scope: &Scope<'_>, opcode: Opcode<'_>) -> bool
    ensures { result ≡ spec.agrees (seen_scope scope.now) (opcode_seen opcode.entry) }
{
    match opcode {
        Opcode::Call { callee, arity, .. } => calls_rightly(scope, callee, arity),
        Opcode::MakeFun2 { entry, free } => is_at_most(scope, entry, free as usize),
        Opcode::MakeFun3 { entry, free, .. } => is_at_most(scope, entry, free.len()),
        _ => true,
    }
}

// As many arguments as the function of that entry takes, or as are told behind the external function's name.
fn calls_rightly(scope: &Scope<'_>, callee: Callee<'_>, count: u32) -> bool
    ensures { result ≡ spec.calls_rightly (seen_scope scope.now) (callee_seen callee.entry) count }
{
    match callee {
        Callee::Local { label } => is_arity(scope, label, count),
        Callee::External { arity, .. } => count == u32::from(arity),
        Callee::Fun | Callee::Apply => true,
    }
}

fn is_arity(scope: &Scope<'_>, label: u32, count: u32) -> bool
    ensures { result ≡ spec.is_arity (get nat_eq scope.now.entries.now label) count }
{
    match scope.entries.get(&label) {
        None => false,
        Some(arity) => count == u32::from(*arity),
    }
}

// No more free variables than the function of that entry takes arguments.
fn is_at_most(scope: &Scope<'_>, label: u32, count: usize) -> bool
    ensures { result ≡ spec.is_at_most (get nat_eq scope.now.entries.now label) count }
{
    match scope.entries.get(&label) {
        None => false,
        Some(arity) => count <= usize::from(*arity),
    }
}
