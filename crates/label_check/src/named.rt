//! The labels that an instruction names.

ghost use Rattle.std.specs.Prelude.{◌≡◌, not, map, [], ◌∷◌};
ghost use Rattle.std.specs.List.{find};
ghost use Rattle.beam_code.specs.Labels as spec;
ghost use Rattle.beam_code.specs.Seen.{callee_seen, opcode_seen};
ghost use Rattle.label_check.specs.Seen.{seen_scope};

use crate::scope::Scope;
use beam_code::{Callee, Opcode, Src};

/// The first label that the instruction names and may not.
pub(crate) fn missing(scope: &Scope<'_>, opcode: Opcode<'_>) -> Option<u32>
    ensures { result ≡ spec.missing (seen_scope scope.now) (opcode_seen opcode.entry) }
{
    match missing_entry(scope, entry_named(opcode)) {
        Some(label) => Some(label),
        None => missing_label(scope, opcode),
    }
}

// The entry of a function of the module that the instruction names.
fn entry_named(opcode: Opcode<'_>) -> Option<u32>
    ensures { result ≡ spec.entry_named (opcode_seen opcode.entry) }
{
    match opcode {
        Opcode::Call { callee, .. } => entry_called(callee),
        Opcode::MakeFun2 { entry, .. } | Opcode::MakeFun3 { entry, .. } => Some(entry),
        _ => None,
    }
}

fn entry_called(callee: Callee<'_>) -> Option<u32>
    ensures { result ≡ spec.entry_called (callee_seen callee.entry) }
{
    match callee {
        Callee::Local { label } => Some(label),
        _ => None,
    }
}

// The entry, where no function has it.
fn missing_entry(scope: &Scope<'_>, label: Option<u32>) -> Option<u32>
    ensures { result ≡ spec.no_entry (seen_scope scope.now) label }
{
    let label = label?;
    if scope.entries.contains_key(&label) {
        return None;
    }
    Some(label)
}

// The first label of its own function that the instruction names, and that is not there.
fn missing_label(scope: &Scope<'_>, opcode: Opcode<'_>) -> Option<u32>
    ensures { result ≡ find (λ label. not ((seen_scope scope.now).is_own label)) (spec.labels_named (opcode_seen opcode.entry)) }
{
    match opcode {
        Opcode::Bif { fail, .. } | Opcode::PutMap { fail, .. } => missing_failure(scope, fail),
        Opcode::SelectVal { fail, cases, .. } | Opcode::SelectTupleArity { fail, cases, .. } => {
            missing_choice(scope, fail, cases)
        }
        Opcode::GetMapElements { fail, .. }
        | Opcode::Test { fail, .. }
        | Opcode::TestArity { fail, .. }
        | Opcode::IsTaggedTuple { fail, .. }
        | Opcode::HasMapFields { fail, .. }
        | Opcode::LoopRec { fail, .. } => missing_own(scope, fail),
        Opcode::Jump { label }
        | Opcode::LoopRecEnd { label }
        | Opcode::Wait { label }
        | Opcode::WaitTimeout { label, .. } => missing_own(scope, label),
        Opcode::Try { handler, .. } => missing_own(scope, handler),
        _ => None,
    }
}

fn missing_own(scope: &Scope<'_>, label: u32) -> Option<u32>
    ensures { result ≡ find (λ n. not ((seen_scope scope.now).is_own n)) (label ∷ []) }
{
    if scope.own.contains(&label) {
        return None;
    }
    Some(label)
}

// Label 0 is none.
fn missing_failure(scope: &Scope<'_>, label: u32) -> Option<u32>
    ensures { result ≡ find (λ n. not ((seen_scope scope.now).is_own n)) (spec.failure label) }
{
    if label == 0 {
        return None;
    }
    missing_own(scope, label)
}

fn missing_choice(scope: &Scope<'_>, fail: u32, cases: &[(Src, u32)]) -> Option<u32>
    ensures { result ≡ find (λ n. not ((seen_scope scope.now).is_own n)) (fail ∷ map (λ c. c.1) cases.now) }
{
    match missing_own(scope, fail) {
        Some(label) => Some(label),
        None => missing_case(scope, cases),
    }
}

fn missing_case(scope: &Scope<'_>, cases: &[(Src, u32)]) -> Option<u32>
    ensures { result ≡ find (λ n. not ((seen_scope scope.now).is_own n)) (map (λ c. c.1) cases.now) }
{
    for (_, label) in cases {
        if !scope.own.contains(label) {
            return Some(*label);
        }
    }
    None
}
