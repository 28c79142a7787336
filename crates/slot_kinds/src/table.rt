//! The states of labels, while they are found.

ghost use Rattle.std.specs.Prelude.{◌≡◌, true, ◌<◌, ◌^◌, map, IfOk, OnOk};
ghost use Rattle.std.specs.Ordering.{nat_cmp};
ghost use Rattle.std.specs.BTreeMap.{get};
ghost use Rattle.beam_code.specs.Code.{opcode as opcode_of};
ghost use Rattle.beam_code.specs.Good.{GoesTo};
ghost use Rattle.beam_code.specs.Seen.{opcode_seen};
ghost use Rattle.beam_code.specs.Slots.{state_of};
ghost use Rattle.slot_kinds.specs.Answer.{Answers};
ghost use Rattle.slot_kinds.specs.Joins.{rank_of};
ghost use Rattle.slot_kinds.specs.Settles.{entry_of};
ghost use Rattle.slot_kinds.specs.Tags.{TagsKnown};
ghost use Rattle.slot_kinds.specs.Tables.{known, held, Goes, Nothing, Refuses};
ghost use Rattle.slot_kinds.specs.Rows.{Defines, IsFresh, Raises, RisesTo, NoRise};

use crate::SlotFault;
use crate::join::join;
use beam_code::{Instr, Opcode, SlotMap, SlotState};
use sqlite_items::Items;
use std::alloc::{AllocError, Global};
use std::collections::{BTreeMap, BTreeSet};

/// The place in the code behind a label, and the state in which the label is reached so far, if it is.
#[derive(Drop)]
pub(crate) struct Row {
    pub place: usize,
    pub state: Option<SlotState>,
}

/// The labels of a function, and those from which the code behind is still to be gone through.
#[derive(Drop)]
pub(crate) struct Table {
    pub rows: BTreeMap<u32, Row>,
    pub pending: BTreeSet<u32>,
}

impl Table {
    /// The labels of the code, none of them reached. The error says that memory was wanting.
    pub(crate) fn make(alloc: Global, code: &[Instr]) -> Result<Table, AllocError>
        ensures { IfOk result (IsFresh (map opcode_of code.now)) }
    {
        let mut rows = BTreeMap::new(alloc);
        for (index, instr) in code.iter().enumerate() {
            define(&mut rows, instr.opcode(), index + 1)?;
        }
        Ok(Table {
            rows,
            pending: BTreeSet::new(alloc),
        })
    }

    /// The label is reached in that state.
    pub(crate) fn reach(
        &mut self,
        alloc: Global,
        label: u32,
        state: &SlotState,
    ) -> Result<(), SlotFault>
        requires label_known { known self.old label ≡ true }
        requires tags_known { TagsKnown (known self.old) (state_of state.now) }
        ensures { Answers (λ _. Goes (λ at. GoesTo at (label, state_of state.now)) Nothing self.old self.new) (Refuses (λ at. GoesTo at (label, state_of state.now)) self.old) result }
    {
        let Some(row) = self.rows.get(&label) else {
            unreachable!()
        };
        let place = row.place;
        match risen(alloc, &row.state, state) {
            Err(fault) => Err(fault),
            Ok(None) => Ok(()),
            Ok(Some(higher)) => {
                let row = Row {
                    place,
                    state: Some(higher),
                };
                Ok(self.raise(label, row)?)
            }
        }
    }

    /// Each label with its state. The error says that memory was wanting.
    pub(crate) fn into_map(self, alloc: Global) -> Result<SlotMap, AllocError>
        ensures { IfOk result (λ m. m.at ≡ map entry_of self.rows.entries) }
    {
        let Table { mut rows, .. } = self;
        let count = rows.len();
        let mut at = Items::new(alloc);
        while let Some((label, row)) = rows.pop_first() {
            at.push((label, row.state))?;
        }
        prove!(at.len() == count);
        Ok(SlotMap { at })
    }

    // The label has that row, and is pending.
    fn raise(&mut self, label: u32, row: Row) -> Result<(), AllocError>
        ensures { OnOk result (Raises label row self.old self.new) }
    {
        self.rows.insert(label, row)?;
        self.pending.insert(label)?;
        Ok(())
    }
}

// The state that a label rises to where it is reached in another; none where that is below the one it has.
fn risen(
    alloc: Global,
    old: &Option<SlotState>,
    state: &SlotState,
) -> Result<Option<SlotState>, SlotFault>
    ensures { Answers (RisesTo old.now state.now) (NoRise old.now state.now) result }
{
    match old {
        None => Ok(Some(copied(alloc, state)?)),
        Some(old) => join(alloc, old, state),
    }
}

// The same state; its rank is below that of what is not reached.
fn copied(alloc: Global, state: &SlotState) -> Result<SlotState, AllocError>
    ensures { IfOk result (λ s. (state_of s ≡ state_of state.now) × (rank_of s < 2 ^ 130)) }
{
    let copy = state.copy(alloc)?;
    let _slots = copy.ys.len();
    Ok(copy)
}

// A row for the label that the instruction defines, if it is one that has none.
fn define(rows: &mut BTreeMap<u32, Row>, opcode: Opcode<'_>, place: usize) -> Result<(), AllocError>
    ensures { OnOk result (Defines (opcode_seen opcode.entry) place (get nat_cmp rows.old) (get nat_cmp rows.new)) }
{
    if let Opcode::Label { label } = opcode {
        if !rows.contains_key(&label) {
            rows.insert(label, Row { place, state: None })?;
        }
    }
    Ok(())
}
