//! Codes that can be run.

ghost use Rattle.std.specs.Prelude.{◌≡◌, IfOk};
ghost use Rattle.ej_world.specs.Choices.{Code};
ghost use Rattle.ej_world.specs.Lawful.{States, Lawful};
ghost use Rattle.term_heap.specs.View.{Keeps};
ghost use Rattle.term_heap.specs.declared.heap.Heap.{Heap};
ghost use Rattle.proc_sched.specs.Calls.{MayBegin, Begins, MayTurn, Turns, Deep, StaysSame};

use crate::view::{Outcome, View};
use ej_world::Begin;
use std::alloc::{AllocError, Global};
use term_heap::{Heap, TermId};

/// A code: how a process begins, what a turn does, and how many callers wait for a return.
///
/// Under a heap a state stands for one of the code that `code` gives; `is_state` says which of those a running or a waiting
/// process may have. Both calls only add to the heap, and a state stands for the same under a heap that was added to.
pub trait Process {
    type State: Drop;

    ghost Meaning: { Type 0 };

    ghost code: { Self → Code Meaning };

    ghost is_state: { Self → States Meaning };

    ghost means: { Heap → Self.State → Meaning };

    ghost holds: { Heap → Self.State → Type 0 };

    /// The state of a process that begins. A call is of two atoms, with a proper list of at most 255 elements.
    fn begin(
        &self,
        alloc: Global,
        heap: &mut Heap,
        how: &Begin<TermId>,
    ) -> Result<Self::State, AllocError>
        requires { MayBegin heap.old how.now }
        ensures keeps { Keeps heap.old heap.new }
        ensures begins { IfOk result (Begins (holds heap.new) (means heap.new) (code self.now) heap.old how.now) };

    /// A turn of so many transfers, at least 1. The state is one that `begin` of this code gave, changed by turns of it
    /// alone, none of which ended the process. After a turn that waits a message lies at the save place, or the timer is due.
    fn turn(
        &self,
        alloc: Global,
        heap: &mut Heap,
        state: &mut Self::State,
        view: &mut View,
        transfers: u32,
    ) -> Result<Outcome, AllocError>
        requires { MayTurn holds means (is_state self.now) heap.old state.old view.old transfers }
        ensures keeps { Keeps heap.old heap.new }
        ensures turns { IfOk result (Turns holds means (code self.now) transfers heap.old state.old view.old heap.new state.new view.new) };

    /// How many callers wait for a return.
    fn depth(&self, state: &Self::State) -> u64
        ensures { Deep holds means (code self.now) state.now result };

    ghost lawful: { (p : Self) → Lawful (code p) (is_state p) };

    ghost stays: { StaysSame holds means };
}
