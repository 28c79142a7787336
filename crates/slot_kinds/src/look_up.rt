//! The states that a slot map lists.

ghost use Rattle.std.specs.Prelude.{◌≡◌, option_copied, option_map};
ghost use Rattle.beam_code.specs.Good.{assignment_of};
ghost use Rattle.beam_code.specs.Slots.{state_of};

use beam_code::{SlotMap, SlotState};

/// The state that is listed at a label; none where the label is not reached.
pub(crate) fn state_at(map: &SlotMap, label: u32) -> Option<&SlotState>
    ensures { option_map state_of (option_copied result) ≡ assignment_of map.now label }
{
    let rows = map.at.as_slice();
    match rows.binary_search_by_key(&label, |row| row.0) {
        Ok(place) => rows[place].1.as_ref(),
        Err(_) => None,
    }
}
