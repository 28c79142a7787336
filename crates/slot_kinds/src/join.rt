//! What slots hold where two ways meet.

ghost use Rattle.std.specs.Prelude.{◌≡◌, ◌↔◌, true, false, unwrap_or, IfOk, IsTrue, option_copied};
ghost use Rattle.std.specs.List.{list_all};
ghost use Rattle.beam_code.specs.declared.kind.Kind.TheVariants.{Undefined, Tag};
ghost use Rattle.beam_code.specs.Flow.{is_tag as is_tag_in};
ghost use Rattle.beam_code.specs.SlotForm.{is_kind};
ghost use Rattle.beam_code.specs.Slots.{state_of};
ghost use Rattle.slot_kinds.specs.Answer.{Answers};
ghost use Rattle.slot_kinds.specs.Joins.{meeting, changes, IsMet, NoJoinKind, AreMet, Clash, JoinsTo, NoJoin};

use crate::SlotFault;
use crate::tags::united;
use beam_code::{Kind, SlotState};
use sqlite_items::Items;
use std::alloc::{AllocError, Global};

// What a kind becomes where it meets another, and whether that changed it.
#[derive(Drop)]
struct Met {
    kind: Kind,
    changed: bool,
}

// Joins kinds one by one; those past the end of a list are undefined.
fn join_kinds(
    alloc: Global,
    kinds: &[Kind],
    others: &[Kind],
) -> Result<(Items<Kind>, bool), SlotFault>
    requires formed { list_all is_kind kinds.now ≡ true }
    requires others_formed { list_all is_kind others.now ≡ true }
    ensures { Answers (λ j. AreMet kinds.now others.now j.0 j.1) (Clash kinds.now others.now) result }
{
    let mut joined = Items::new(alloc);
    let mut changed = false;
    for at in 0..kinds.len().max(others.len()) {
        match meet_listed(alloc, kinds.get(at), others.get(at)) {
            Ok(met) => {
                joined.push(met.kind)?;
                if met.changed {
                    changed = true;
                }
            }
            Err(fault) => return Err(fault),
        }
    }
    Ok((joined, changed))
}

fn meet_listed(alloc: Global, kind: Option<&Kind>, other: Option<&Kind>) -> Result<Met, SlotFault>
    ensures { Answers (λ m. IsMet (unwrap_or (option_copied kind.entry) Undefined) (unwrap_or (option_copied other.entry) Undefined) m.kind m.changed) (NoJoinKind (unwrap_or (option_copied kind.entry) Undefined) (unwrap_or (option_copied other.entry) Undefined)) result }
{
    let undefined = Kind::Undefined;
    meet(
        alloc,
        kind.unwrap_or(&undefined),
        other.unwrap_or(&undefined),
    )
}

fn meet(alloc: Global, kind: &Kind, other: &Kind) -> Result<Met, SlotFault>
    ensures { Answers (λ m. IsMet kind.now other.now m.kind m.changed) (NoJoinKind kind.now other.now) result }
{
    if let (Kind::Tag(labels), Kind::Tag(others)) = (kind, other) {
        return Ok(meet_tags(alloc, labels.as_slice(), others.as_slice())?);
    }
    if is_tag(kind) {
        return Err(SlotFault::NotSlotted);
    }
    if is_tag(other) {
        return Err(SlotFault::NotSlotted);
    }
    Ok(meet_plain(kind, other))
}

fn meet_tags(alloc: Global, labels: &[u32], others: &[u32]) -> Result<Met, AllocError>
    ensures { IfOk result (λ m. IsMet (Tag labels.now) (Tag others.now) m.kind m.changed) }
{
    let (all, changed) = united(alloc, labels, others)?;
    Ok(Met {
        kind: Kind::Tag(Items::from_vec(all)),
        changed,
    })
}

fn is_tag(kind: &Kind) -> bool
    ensures { result ≡ is_tag_in kind.now }
{
    matches!(kind, Kind::Tag(_))
}

// Where neither is a tag.
fn meet_plain(kind: &Kind, other: &Kind) -> Met
    requires kind_plain { is_tag_in kind.now ≡ false }
    requires other_plain { is_tag_in other.now ≡ false }
    ensures is { result.kind ≡ meeting kind.now other.now }
    ensures told { result.changed ≡ changes kind.now other.now }
{
    match kind {
        Kind::Undefined => stays(Kind::Undefined),
        Kind::Term => match other {
            Kind::Term => stays(Kind::Term),
            Kind::OptTerm => becomes(Kind::OptTerm),
            _ => becomes(Kind::Undefined),
        },
        Kind::OptTerm => match other {
            Kind::Term | Kind::OptTerm => stays(Kind::OptTerm),
            _ => becomes(Kind::Undefined),
        },
        Kind::Trace => match other {
            Kind::Trace => stays(Kind::Trace),
            _ => becomes(Kind::Undefined),
        },
        Kind::Marker => match other {
            Kind::Marker => stays(Kind::Marker),
            _ => becomes(Kind::Undefined),
        },
        Kind::Tag(_) => unreachable!(),
    }
}

fn stays(kind: Kind) -> Met
    ensures is { result.kind ≡ kind }
    ensures told { result.changed ≡ false }
{
    Met {
        kind,
        changed: false,
    }
}

fn becomes(kind: Kind) -> Met
    ensures is { result.kind ≡ kind }
    ensures told { result.changed ≡ true }
{
    Met {
        kind,
        changed: true,
    }
}

/// The least state that both are below; none where the other is below the state. The error says that there is none, or
/// that memory was wanting.
pub(crate) fn join(
    alloc: Global,
    state: &SlotState,
    other: &SlotState,
) -> Result<Option<SlotState>, SlotFault>
    ensures { Answers (JoinsTo state.now other.now) (NoJoin (state_of state.now) (state_of other.now)) result }
{
    if !is_same_frame(state.frame, other.frame) {
        return Err(SlotFault::NotSlotted);
    }
    match join_kinds(alloc, state.xs.as_slice(), other.xs.as_slice()) {
        Err(fault) => Err(fault),
        Ok((xs, xs_changed)) => {
            match join_kinds(alloc, state.ys.as_slice(), other.ys.as_slice()) {
                Err(fault) => Err(fault),
                Ok((ys, ys_changed)) => {
                    if xs_changed || ys_changed {
                        return Ok(Some(SlotState::make(state.frame, xs, ys)));
                    }
                    Ok(None)
                }
            }
        }
    }
}

fn is_same_frame(one: Option<u16>, other: Option<u16>) -> bool
    ensures { IsTrue result ↔ (one ≡ other) }
{
    match one {
        None => other.is_none(),
        Some(size) => match other {
            None => false,
            Some(other_size) => size == other_size,
        },
    }
}
