//! How many slots are defined before an instruction.

ghost use Rattle.std.specs.Prelude.{◌≡◌, ◌+◌};
ghost use Rattle.std.specs.List.{count_by, list_any};
ghost use Rattle.beam_code.specs.Flow.{is_tag};
ghost use Rattle.beam_code.specs.Weights.{is_wide_tag};
ghost use Rattle.slot_kinds.specs.Counted as counted;
ghost use Rattle.slot_kinds.specs.Counted.{is_defined};

use beam_code::{Kind, SlotState};

/// What the weight of an instruction goes by: how many slots are not undefined before it, of all and of the frame alone;
/// how many of the frame are; and whether the frame has a tag.
#[derive(Clone, Copy)]
pub(crate) struct Counts {
    pub slots: u64,
    pub kept: u64,
    pub gaps: u64,
    pub tagged: bool,
}

/// The counts of a state; none where it is not reached.
pub(crate) fn counts_of(before: &Option<SlotState>) -> Counts
    ensures { result ≡ counted.counts before.now }
{
    match before {
        None => Counts {
            slots: 0,
            kept: 0,
            gaps: 0,
            tagged: false,
        },
        Some(state) => counts_in(state),
    }
}

fn counts_in(state: &SlotState) -> Counts
    ensures { result ≡ counted.counts_in state.now }
{
    let kept = defined(state.ys.as_slice());
    Counts {
        slots: defined(state.xs.as_slice()) + kept,
        kept,
        gaps: state.ys.len() as u64 - kept,
        tagged: has_tag(state.ys.as_slice()),
    }
}

/// How many slots of a state are not undefined.
pub(crate) fn slots_in(state: &SlotState) -> u64
    ensures { result ≡ count_by is_defined state.now.xs + count_by is_defined state.now.ys }
{
    defined(state.xs.as_slice()) + defined(state.ys.as_slice())
}

fn defined(kinds: &[Kind]) -> u64
    ensures { result ≡ count_by is_defined kinds.now }
{
    let mut count: u64 = 0;
    for kind in kinds {
        if !matches!(kind, Kind::Undefined) {
            count += 1;
        }
    }
    count
}

fn has_tag(kinds: &[Kind]) -> bool
    ensures { result ≡ list_any is_tag kinds.now }
{
    for kind in kinds {
        if matches!(kind, Kind::Tag(_)) {
            return true;
        }
    }
    false
}

/// Whether the frame has a tag of more than one label.
pub(crate) fn has_wide_tag(kinds: &[Kind]) -> bool
    ensures { result ≡ list_any is_wide_tag kinds.now }
{
    for kind in kinds {
        if is_wide_tag(kind) {
            return true;
        }
    }
    false
}

fn is_wide_tag(kind: &Kind) -> bool
    ensures { result ≡ is_wide_tag kind.now }
{
    match kind {
        Kind::Tag(labels) => labels.len() > 1,
        _ => false,
    }
}
