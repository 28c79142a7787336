//! The processes and the signals between them, without the states of a code.

ghost use Rattle.std.specs.Prelude.{◌≡◌, ◌<◌, ◌≤◌, ℕ, [], ◌∷◌, length, None, Some, slice_get, IfOk, OnOk};
ghost use Rattle.std.specs.Option.{option_copied};
ghost use Rattle.ej_world.specs.World as world;
ghost use Rattle.ej_world.specs.declared.event.Event.TheVariants as event;
ghost use Rattle.term_heap.specs.declared.heap.Heap.{Heap};
ghost use Rattle.term_heap.specs.View.{Holds, term_of};
ghost use Rattle.proc_sched.specs.Seen.{HoldsEvent, event_of};
ghost use Rattle.proc_sched.specs.Stands.{IsNode, Does, world_of, seen_of, ready_at, due_at};
ghost use Rattle.proc_sched.specs.Nodes as node;

use crate::numbers;
use crate::signal::{Signal, sent};
use crate::slot::{Slot, Status};
use ej_world::Event;
use sqlite_items::Items;
use std::alloc::{AllocError, Global};
use std::collections::{BTreeMap, BTreeSet, VecDeque};
use term_heap::{Heap, TermId};

/// No number of a process reaches this, and the clock does not pass it.
pub(crate) const LIMIT: u64 = 4_611_686_018_427_387_904;

/// The processes by their numbers, and what is on its way between them.
///
/// Beside the processes stand the ready ones, and the deadlines to come of those that wait, so that neither is searched for.
#[derive(Debug, Drop)]
pub(crate) struct Node {
    pub(crate) alloc: Global,
    pub(crate) heap: Heap,
    pub(crate) clock: u64,
    pub(crate) next_ref: u64,
    pub(crate) slots: Vec<Slot>,
    /// The signals of each pair that has one, the first sent at the front.
    pub(crate) queues: BTreeMap<(u64, u64), VecDeque<Signal>>,
    pub(crate) ready: BTreeSet<u64>,
    /// Deadlines that are to come, with the process that waits for each.
    pub(crate) deadlines: BTreeSet<(u64, u64)>,
    /// The processes that have not ended, by rising numbers.
    pub(crate) live: Vec<u64>,
    pub(crate) events: Vec<Event<TermId>>,
}

impl Node {
    /// No processes, at the time 0.
    pub(crate) fn new(alloc: Global) -> Node
        ensures is_node { IsNode result }
        ensures world { world_of result ≡ world.empty }
        ensures events { seen_of result ≡ [] }
    {
        Node {
            alloc,
            heap: Heap::new(alloc),
            clock: 0,
            next_ref: 0,
            slots: Vec::new(alloc),
            queues: BTreeMap::new(alloc),
            ready: BTreeSet::new(alloc),
            deadlines: BTreeSet::new(alloc),
            live: Vec::new(alloc),
            events: Vec::new(alloc),
        }
    }

    /// The number of the next process.
    pub(crate) fn next_pid(&self) -> u64
        ensures { result ≡ world.next_pid (world_of self.now) }
    {
        self.slots.len() as u64
    }

    /// The process of that number, if there is one.
    pub(crate) fn slot(&self, number: u64) -> Option<&Slot>
        ensures { option_copied result ≡ slice_get self.now.slots.items number }
    {
        self.slots.get(number as usize)
    }

    /// Whether the process of that number is there, and ready.
    pub(crate) fn is_ready(&self, number: u64) -> bool
        ensures { result ≡ ready_at self.now.clock (slice_get (world_of self.now).processes number) }
    {
        match self.slot(number) {
            Some(slot) => slot.is_ready(self.clock),
            None => false,
        }
    }

    /// Whether the process of that number is there, and has not ended.
    pub(crate) fn is_live(&self, number: u64) -> bool
        ensures { result ≡ node.live_at (slice_get (world_of self.now).processes number) }
    {
        match self.slot(number) {
            Some(slot) => slot.is_live(),
            None => false,
        }
    }

    /// Appends an event.
    pub(crate) fn show(&mut self, event: Event<TermId>) -> Result<(), AllocError>
        requires is_node { IsNode self.old }
        requires held { HoldsEvent self.old.heap event }
        ensures { OnOk result (Does self.old self.new (node.shows (event_of self.old.heap event ∷ []) (world_of self.old))) }
    {
        self.events.push(event)?;
        Ok(())
    }

    /// Appends the ready processes.
    pub(crate) fn close(&mut self) -> Result<(), AllocError>
        requires { IsNode self.old }
        ensures { OnOk result (Does self.old self.new (node.shows (event.Ready (world.ready (world_of self.old)) ∷ []) (world_of self.old))) }
    {
        let mut numbers = Vec::new(self.alloc);
        for number in self.ready.iter() {
            numbers.push(*number)?;
        }
        self.show(Event::Ready(Items::from_vec(numbers)))
    }

    /// Makes the next process, which is among the live ones.
    pub(crate) fn add_slot(&mut self) -> Result<(), AllocError>
        ensures { OnOk result (node.Adds self.old self.new) }
    {
        let number = self.next_pid();
        self.slots.push(Slot::fresh(self.alloc))?;
        self.ready.insert(number)?;
        Ok(())
    }
}
