//! What all slots of a function hold at a place of its code.

ghost use Rattle.std.specs.Prelude.{◌≡◌, ◌≤◌, true, false, length, map};
ghost use Rattle.std.specs.List.{list_all};
ghost use Rattle.beam_code.specs.SlotForm.{ends_undefined, is_kind, is_size, rises};

use crate::{Kind, Reg, kinds};
use sqlite_items::Items;
use std::alloc::{AllocError, Global};

/// The number of x registers, and the largest frame, in slots.
pub const MOST_SLOTS: u16 = 1024;

/// The size of the frame in slots, if there is one, and the kind of each x and y register from 0 on. An x register that
/// is not listed is undefined, and the last one listed is not; a y register is listed for each slot of the frame.
#[derive(Debug, Drop)]
pub struct SlotState {
    pub frame: Option<u16>,
    pub xs: Items<Kind>,
    pub ys: Items<Kind>,
    pub ghost xs_few: { length xs ≤ 1024 },
    pub ghost xs_end: { ends_undefined xs ≡ false },
    pub ghost xs_kinds: { list_all is_kind xs ≡ true },
    pub ghost ys_fit: { is_size frame (length ys) ≡ true },
    pub ghost ys_kinds: { list_all is_kind ys ≡ true },
}

/// The state at each label of a function, in rising order of the labels; none where a label is not reached.
#[derive(Debug, Drop)]
pub struct SlotMap {
    pub at: Items<(u32, Option<SlotState>)>,
    pub ghost labels_rise: { rises (map (λ e. e.0) at) ≡ true },
}

impl SlotState {
    ghost use Rattle.std.specs.Prelude.{◌≡◌, ◌+◌, ◌<◌, ◌≤◌, ℕ, true, false, not, length, Option, None, Some, option_copied, unwrap_or, IfOk, OnOk};
    ghost use Rattle.beam_code.specs.declared.kind.Kind.TheVariants.{Undefined, Term};
    ghost use Rattle.std.specs.List.{list_all};
    ghost use Rattle.beam_code.specs.Kinds.{IsFront};
    ghost use Rattle.beam_code.specs.SlotForm.{is_kind, is_size, is_undefined};
    ghost use Rattle.beam_code.specs.Slots.{state_of, listed, entry_state, has_slot, with_y};
    ghost use Rattle.beam_code.specs.Flow.{kind_in, writes, live, after_call, caught as caught_in, cleared, exception, framed, unframed, trimmed, is_frame};
    ghost use Rattle.beam_code.specs.Flow as flow;
    ghost use Rattle.beam_code.specs.FlowParts.{has};
    ghost use Rattle.beam_code.specs.Slots.{with_xs};

    /// What slots hold where a function of that many arguments is entered: these are terms, and there is no frame. The
    /// error says that memory was wanting.
    pub fn entered(alloc: Global, arity: u8) -> Result<SlotState, AllocError>
        ensures { IfOk result (λ s. state_of s ≡ entry_state arity) }
    {
        let xs = kinds::terms(alloc, arity as usize)?;
        Ok(SlotState {
            frame: None,
            xs,
            ys: Items::new(alloc),
        })
    }

    /// The state with these kinds of registers, where an x register that is not listed is undefined.
    pub fn make(frame: Option<u16>, xs: Items<Kind>, ys: Items<Kind>) -> SlotState
        requires xs_few { length xs ≤ 1024 }
        requires xs_kinds { list_all is_kind xs ≡ true }
        requires ys_fit { is_size frame (length ys) ≡ true }
        requires ys_kinds { list_all is_kind ys ≡ true }
        ensures is { state_of result ≡ record { frame = frame; xs = listed xs; ys = listed ys } }
        ensures xs_front { IsFront result.xs xs }
        ensures ys_same { result.ys ≡ ys }
    {
        let mut xs = xs;
        kinds::trim(&mut xs);
        SlotState { frame, xs, ys }
    }

    /// The same state. The error says that memory was wanting.
    pub fn copy(&self, alloc: Global) -> Result<SlotState, AllocError>
        ensures { IfOk result (λ s. state_of s ≡ state_of self.now) }
    {
        let xs = kinds::copies(alloc, self.xs.as_slice())?;
        let ys = kinds::copies(alloc, self.ys.as_slice())?;
        Ok(SlotState {
            frame: self.frame,
            xs,
            ys,
        })
    }

    /// What the state becomes where an exception is caught: a term or null in x0, every other x undefined. The error says
    /// that memory was wanting.
    pub fn caught(&self, alloc: Global) -> Result<SlotState, AllocError>
        ensures { IfOk result (λ s. state_of s ≡ caught_in (state_of self.now)) }
    {
        let mut xs = Items::new(alloc);
        xs.push(Kind::OptTerm)?;
        let ys = kinds::copies(alloc, self.ys.as_slice())?;
        Ok(SlotState {
            frame: self.frame,
            xs,
            ys,
        })
    }

    /// The kind of a register; none where nothing is listed, which is undefined.
    pub fn kind(&self, register: Reg) -> Option<&Kind>
        ensures { unwrap_or (option_copied result) Undefined ≡ kind_in (state_of self.now) register }
    {
        match register {
            Reg::X(n) => self.xs.get(n as usize),
            Reg::Y(n) => self.ys.get(n as usize),
        }
    }

    /// The labels of the handlers of what is raised: those of the tag in the lowest slot that has one.
    pub fn handlers(&self) -> &[u32]
        ensures { result.now ≡ flow.handlers (state_of self.now) }
    {
        kinds::first_tag(self.ys.as_slice())
    }

    // Writes a kind that is not undefined into a register that there is.
    pub(crate) fn write(&mut self, register: Reg, kind: Kind) -> Result<(), AllocError>
        requires there { has (state_of self.old) register ≡ true }
        requires defined { is_undefined kind ≡ false }
        requires formed { is_kind kind ≡ true }
        ensures { OnOk result (writes register kind (state_of self.old) ≡ Some (state_of self.new)) }
    {
        match register {
            Reg::X(n) => kinds::put(&mut self.xs, n as usize, kind),
            Reg::Y(n) => {
                self.ys.set(n as usize, kind);
                Ok(())
            }
        }
    }

    // Makes a slot of the frame undefined.
    pub(crate) fn untag(&mut self, slot: u16)
        requires { has_slot (state_of self.old) slot ≡ true }
        ensures { state_of self.new ≡ with_y slot Undefined (state_of self.old) }
    {
        self.ys.set(slot as usize, Kind::Undefined);
    }

    // Makes each x from that one on undefined.
    pub(crate) fn keep_live(&mut self, count: u32)
        ensures { state_of self.new ≡ live count (state_of self.old) }
    {
        kinds::shorten(&mut self.xs, count as usize);
        kinds::trim(&mut self.xs);
    }

    // Every x undefined.
    pub(crate) fn clear(&mut self)
        ensures { state_of self.new ≡ cleared (state_of self.old) }
    {
        kinds::shorten(&mut self.xs, 0);
    }

    // A term in x0, every other x undefined.
    pub(crate) fn answer(&mut self) -> Result<(), AllocError>
        ensures { OnOk result (state_of self.new ≡ after_call (state_of self.old)) }
    {
        kinds::shorten(&mut self.xs, 0);
        self.xs.push(Kind::Term)
    }

    // Class, reason and trace of an exception in x0, x1 and x2, every other x undefined.
    pub(crate) fn take_exception(&mut self) -> Result<(), AllocError>
        ensures { OnOk result (state_of self.new ≡ with_xs exception (state_of self.old)) }
    {
        kinds::shorten(&mut self.xs, 0);
        self.xs.push(Kind::Term)?;
        self.xs.push(Kind::Term)?;
        self.xs.push(Kind::Trace)
    }

    // A frame of that size with nothing in it.
    pub(crate) fn enframe(&mut self, alloc: Global, size: u16) -> Result<(), AllocError>
        ensures { OnOk result (state_of self.new ≡ framed size (state_of self.old)) }
    {
        let ys = kinds::undefined(alloc, size as usize)?;
        self.ys = ys;
        self.frame = Some(size);
        Ok(())
    }

    // No frame.
    pub(crate) fn unframe(&mut self)
        ensures { state_of self.new ≡ unframed (state_of self.old) }
    {
        kinds::shorten(&mut self.ys, 0);
        self.frame = None;
    }

    // The first slots of the frame gone, that many left.
    pub(crate) fn drop_slots(&mut self, dropped: u32, count: u32)
        requires { is_frame (state_of self.old).frame (dropped + count) ≡ true }
        ensures { state_of self.new ≡ trimmed dropped count (state_of self.old) }
    {
        kinds::behead(&mut self.ys, dropped as usize);
        if let Some(size) = self.frame {
            self.frame = Some(size - dropped as u16);
        }
    }
}
