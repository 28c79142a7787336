//! The labels that instructions go back to, and those at which they have the function entered again.

ghost use Rattle.std.specs.Prelude.{◌≡◌, ◌≤◌, ◌||◌, ℕ, nat_eq, [], ◌∷◌, length, map, OnOk};
ghost use Rattle.std.specs.List.{filter};
ghost use Rattle.indexmap.specs.IndexSet.{contains};
ghost use Rattle.beam_code.specs.FlowSeen.{branches_seen, with_first};
ghost use Rattle.beam_code.specs.Labels.{defined_by, is_in};
ghost use Rattle.beam_code.specs.Seen.{opcode_seen};
ghost use Rattle.beam_code.specs.Weights as spec;
ghost use Rattle.slot_kinds.specs.Walked as walked;
ghost use Rattle.slot_kinds.specs.Walked.{Adds};

use beam_code::{Branches, Opcode, Src, branches_of};
use indexmap::IndexSet;
use std::alloc::AllocError;

/// How many labels of a branch were passed, each as often as it is named.
pub(crate) fn back_count(opcode: Opcode<'_>, passed: &IndexSet<u32>) -> u64
    ensures { result ≡ walked.back_count (contains nat_eq passed.now) (opcode_seen opcode.entry) }
{
    let branches = branch_labels(opcode);
    first_count(branches.label, passed) + cases_count(branches.cases, passed)
}

fn first_count(label: Option<u32>, passed: &IndexSet<u32>) -> u64
    ensures few { result ≤ 1 }
    ensures is { result ≡ length (filter (contains nat_eq passed.now) (with_first label [])) }
{
    match label {
        Some(label) => u64::from(passed.contains(&label)),
        None => 0,
    }
}

fn cases_count(cases: &[(Src, u32)], passed: &IndexSet<u32>) -> u64
    ensures few { result ≤ length cases.now }
    ensures is { result ≡ length (filter (contains nat_eq passed.now) (map (λ c. c.1) cases.now)) }
{
    let mut count: u64 = 0;
    for (_, label) in cases {
        if passed.contains(label) {
            count += 1;
        }
    }
    count
}

// The labels that a branch names; `wait` and `wait_timeout` are none.
fn branch_labels(opcode: Opcode<'_>) -> Branches<'_>
    ensures { branches_seen result ≡ spec.branch_labels (opcode_seen opcode.entry) }
{
    match opcode {
        Opcode::Wait { .. } | Opcode::WaitTimeout { .. } => Branches {
            label: None,
            cases: &[],
        },
        _ => branches_of(opcode),
    }
}

/// Adds the labels at which an instruction has the function entered again: those of a branch that were passed, those that
/// it waits at, and its handler.
pub(crate) fn add_entries(
    opcode: Opcode<'_>,
    passed: &IndexSet<u32>,
    entries: &mut IndexSet<u32>,
) -> Result<(), AllocError>
    ensures { OnOk result ((label : ℕ) → contains nat_eq entries.new label ≡ (contains nat_eq entries.old label || walked.makes_entry (contains nat_eq passed.now) (opcode_seen opcode.entry) label)) }
{
    add_entered(opcode, entries)?;
    add_back(branch_labels(opcode), passed, entries)
}

fn add_entered(opcode: Opcode<'_>, entries: &mut IndexSet<u32>) -> Result<(), AllocError>
    ensures { OnOk result (Adds (contains nat_eq entries.old) (contains nat_eq entries.new) (spec.entered_labels (opcode_seen opcode.entry))) }
{
    match opcode {
        Opcode::Wait { label } | Opcode::WaitTimeout { label, .. } => add(label, entries),
        Opcode::Try { handler, .. } => add(handler, entries),
        _ => Ok(()),
    }
}

fn add_back(
    branches: Branches<'_>,
    passed: &IndexSet<u32>,
    entries: &mut IndexSet<u32>,
) -> Result<(), AllocError>
    ensures { OnOk result (Adds (contains nat_eq entries.old) (contains nat_eq entries.new) (filter (contains nat_eq passed.now) (branches_seen branches.entry))) }
{
    add_first(branches.label, passed, entries)?;
    add_cases(branches.cases, passed, entries)
}

fn add_first(
    label: Option<u32>,
    passed: &IndexSet<u32>,
    entries: &mut IndexSet<u32>,
) -> Result<(), AllocError>
    ensures { OnOk result (Adds (contains nat_eq entries.old) (contains nat_eq entries.new) (filter (contains nat_eq passed.now) (with_first label []))) }
{
    match label {
        Some(label) => add_passed(label, passed, entries),
        None => Ok(()),
    }
}

fn add_cases(
    cases: &[(Src, u32)],
    passed: &IndexSet<u32>,
    entries: &mut IndexSet<u32>,
) -> Result<(), AllocError>
    ensures { OnOk result (Adds (contains nat_eq entries.old) (contains nat_eq entries.new) (filter (contains nat_eq passed.now) (map (λ c. c.1) cases.now))) }
{
    for (_, label) in cases {
        add_passed(*label, passed, entries)?;
    }
    Ok(())
}

fn add_passed(
    label: u32,
    passed: &IndexSet<u32>,
    entries: &mut IndexSet<u32>,
) -> Result<(), AllocError>
    ensures { OnOk result (Adds (contains nat_eq entries.old) (contains nat_eq entries.new) (filter (contains nat_eq passed.now) (label ∷ []))) }
{
    if passed.contains(&label) {
        return add(label, entries);
    }
    Ok(())
}

fn add(label: u32, entries: &mut IndexSet<u32>) -> Result<(), AllocError>
    ensures { OnOk result (Adds (contains nat_eq entries.old) (contains nat_eq entries.new) (label ∷ [])) }
{
    entries.insert(label)?;
    Ok(())
}

/// Adds the label that an instruction defines.
pub(crate) fn pass(opcode: Opcode<'_>, passed: &mut IndexSet<u32>) -> Result<(), AllocError>
    ensures { OnOk result ((label : ℕ) → contains nat_eq passed.new label ≡ walked.with_seen (contains nat_eq passed.old) (defined_by (opcode_seen opcode.entry)) label) }
{
    match opcode {
        Opcode::Label { label } => {
            passed.insert(label)?;
            Ok(())
        }
        _ => Ok(()),
    }
}
