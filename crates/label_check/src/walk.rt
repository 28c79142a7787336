//! The check of a module, function by function.

ghost use Rattle.std.specs.Prelude.{◌≡◌, ◌++◌, ℕ, nat_eq, [], map, IfOk};
ghost use Rattle.indexmap.specs.IndexMap.{get};
ghost use Rattle.beam_code.specs.Code.{function_code, module_code, opcode as opcode_of};
ghost use Rattle.beam_code.specs.Labels as spec;
ghost use Rattle.beam_code.specs.Labels.{KeepsLabelRules};
ghost use Rattle.beam_code.specs.Seen.{opcode_seen};
ghost use Rattle.label_check.specs.Seen.{seen_scope};
ghost use Rattle.label_check.specs.Told.{Tells};

use crate::LabelFault;
use crate::arity::{agrees, arities_of};
use crate::beginning::begins_well;
use crate::labels::{define, defined_by, defined_in};
use crate::named::missing;
use crate::scope::Scope;
use beam_code::{Function, Instr, Module, Opcode};
use ej_term::Text;
use indexmap::{IndexMap, IndexSet};
use std::alloc::Global;

/// Checks the label rules of a module: each function begins with a label, at most one `line`, `func_info` with the
/// module's name and its own name and arity, and the label that is its entry; no label is defined twice; calls within the
/// module and funs name entries of functions, and all else labels of the function it is in, with 0 for none; a call
/// has the arguments of what it calls, and a fun no more free variables than its function takes arguments.
///
/// Ok exactly where no rule is broken. Else the error is the first break in the order of the text, where a function's
/// beginning stands before its instructions and in one instruction a missing label before the arguments, or it says
/// that memory was wanting.
pub fn check(alloc: Global, module: &Module) -> Result<(), LabelFault>
    ensures first { Tells result (spec.first_break (module_code «module».now)) }
    ensures kept { IfOk result (λ _. KeepsLabelRules (module_code «module».now)) }
{
    check_functions(alloc, &module.name, module.functions.as_slice())
}

// The functions of a module of that name.
fn check_functions(alloc: Global, owner: &Text, functions: &[Function]) -> Result<(), LabelFault>
    ensures { Tells result (spec.break_from owner.now (spec.arity_of (map function_code functions.now)) 0 [] (map function_code functions.now)) }
{
    let entries = arities_of(alloc, functions)?;
    check_each(alloc, owner, &entries, functions)
}

// Each function, where these are the entries that may be named.
fn check_each(
    alloc: Global,
    owner: &Text,
    entries: &IndexMap<u32, u8>,
    functions: &[Function],
) -> Result<(), LabelFault>
    ensures { Tells result (spec.break_from owner.now (get nat_eq entries.now) 0 [] (map function_code functions.now)) }
{
    let mut before: IndexSet<u32> = IndexSet::new(alloc);
    for (func, function) in functions.iter().enumerate() {
        if let Err(fault) = check_function(alloc, owner, entries, &mut before, func, function) {
            return Err(fault);
        }
    }
    Ok(())
}

// A function; adds the labels that it defines.
fn check_function(
    alloc: Global,
    owner: &Text,
    entries: &IndexMap<u32, u8>,
    before: &mut IndexSet<u32>,
    func: usize,
    function: &Function,
) -> Result<(), LabelFault>
    ensures told { Tells result (spec.break_in owner.now (get nat_eq entries.now) func before.old.keys (function_code function.now)) }
    ensures added { IfOk result (λ _. before.new.keys ≡ before.old.keys ++ spec.defined_in (map opcode_of function.now.code)) }
{
    if !begins_well(owner, function) {
        return Err(LabelFault::BadEntry { func });
    }
    let code = function.code.as_slice();
    let own = defined_in(alloc, code)?;
    let scope = Scope { own: &own, entries };
    check_code(&scope, before, func, code)
}

// A function's code; adds the labels that it defines.
fn check_code(
    scope: &Scope<'_>,
    before: &mut IndexSet<u32>,
    func: usize,
    code: &[Instr],
) -> Result<(), LabelFault>
    ensures told { Tells result (spec.break_in_code (seen_scope scope.now) func 0 before.old.keys (map opcode_of code.now)) }
    ensures added { IfOk result (λ _. before.new.keys ≡ before.old.keys ++ spec.defined_in (map opcode_of code.now)) }
{
    for (index, instr) in code.iter().enumerate() {
        if let Err(fault) = check_instr(scope, before, func, index, instr.opcode()) {
            return Err(fault);
        }
    }
    Ok(())
}

// An instruction; adds the label that it defines.
fn check_instr(
    scope: &Scope<'_>,
    before: &mut IndexSet<u32>,
    func: usize,
    index: usize,
    opcode: Opcode<'_>,
) -> Result<(), LabelFault>
    ensures told { Tells result (spec.break_at (seen_scope scope.now) func index before.old.keys (opcode_seen opcode.entry)) }
    ensures added { IfOk result (λ _. before.new.keys ≡ spec.with_label before.old.keys (spec.defined_by (opcode_seen opcode.entry))) }
{
    match define(before, defined_by(opcode)) {
        Ok(()) => check_names(scope, func, index, opcode),
        Err(fault) => Err(fault),
    }
}

// What an instruction names.
fn check_names(
    scope: &Scope<'_>,
    func: usize,
    index: usize,
    opcode: Opcode<'_>,
) -> Result<(), LabelFault>
    ensures { Tells result (spec.misuse (seen_scope scope.now) func index (opcode_seen opcode.entry)) }
{
    if let Some(label) = missing(scope, opcode) {
        return Err(LabelFault::Missing { func, index, label });
    }
    if agrees(scope, opcode) {
        return Ok(());
    }
    Err(LabelFault::BadArity { func, index })
}
