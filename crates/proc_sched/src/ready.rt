//! The processes that are ready, and those that wait for a time.

ghost use Rattle.std.specs.Prelude.{◌≡◌, ◌≤◌, [], None, Some, slice_get, OnOk, IfSome};
ghost use Rattle.std.specs.List.{find};
ghost use Rattle.ej_world.specs.Auto as auto;
ghost use Rattle.ej_world.specs.World as world;
ghost use Rattle.proc_sched.specs.Stands.{IsNode, Does, world_of, due_at};
ghost use Rattle.proc_sched.specs.Nodes as node;

use crate::node::{LIMIT, Node};
use ej_world::Event;
use std::alloc::AllocError;

impl Node {
    /// The deadline to come of a process, if it is there and has one.
    fn deadline(&self, number: u64) -> Option<u64>
        ensures { result ≡ due_at self.now.clock (slice_get (world_of self.now).processes number) }
    {
        match self.slot(number) {
            Some(slot) => slot.to_come(self.clock),
            None => None,
        }
    }

    /// Takes a process out of the ready ones and its deadline away, before it changes.
    pub(crate) fn leave(&mut self, number: u64)
        ensures { node.Leaves number self.old self.new }
    {
        self.leave_deadlines(number);
        self.ready.remove(&number);
    }

    fn leave_deadlines(&mut self, number: u64)
        ensures { node.LeavesDeadlines number self.old self.new }
    {
        if let Some(deadline) = self.deadline(number) {
            self.deadlines.remove(&(deadline, number));
        }
    }

    /// Puts a process to the ready ones and its deadline to the others, where it has them, after it changed.
    pub(crate) fn enter(&mut self, number: u64) -> Result<(), AllocError>
        ensures { OnOk result (node.Enters number self.old self.new) }
    {
        self.enter_ready(number)?;
        self.enter_deadlines(number)
    }

    fn enter_ready(&mut self, number: u64) -> Result<(), AllocError>
        ensures { OnOk result (node.EntersReady number self.old self.new) }
    {
        if self.is_ready(number) {
            self.ready.insert(number)?;
        }
        Ok(())
    }

    fn enter_deadlines(&mut self, number: u64) -> Result<(), AllocError>
        ensures { OnOk result (node.EntersDeadlines number self.old self.new) }
    {
        if let Some(deadline) = self.deadline(number) {
            self.deadlines.insert((deadline, number))?;
        }
        Ok(())
    }

    // ---- the next process, and the clock

    /// The least ready process above the one that ran last, else the least.
    pub(crate) fn next_ready(&self, last: Option<u64>) -> Option<u64>
        requires { IsNode self.now }
        ensures { result ≡ auto.next_ready last (world.ready (world_of self.now)) }
    {
        match last {
            Some(last) => self.ready_above(last).or(self.first_ready()),
            None => self.first_ready(),
        }
    }

    /// The least ready process.
    fn first_ready(&self) -> Option<u64>
        requires { IsNode self.now }
        ensures { result ≡ find (auto.above None) (world.ready (world_of self.now)) }
    {
        self.ready.first().copied()
    }

    /// The least ready process above that number.
    fn ready_above(&self, last: u64) -> Option<u64>
        requires { IsNode self.now }
        ensures { result ≡ find (auto.above (Some last)) (world.ready (world_of self.now)) }
    {
        let least = last.checked_add(1)?;
        self.ready.range(least..).next().copied()
    }

    /// The earliest deadline of the processes that wait, if the clock can come to it.
    pub(crate) fn next_deadline(&self) -> Option<u64>
        requires is_node { IsNode self.now }
        requires none_ready { world.ready (world_of self.now) ≡ [] }
        ensures deadline { result ≡ auto.to_come (auto.least (auto.deadlines (world_of self.now))) }
        ensures later { IfSome result (λ deadline. self.now.clock ≤ deadline) }
    {
        match self.deadlines.first() {
            Some((deadline, _)) if *deadline <= LIMIT => Some(*deadline),
            _ => None,
        }
    }

    /// Sets the clock, which does not go back, and wakes the processes whose timers are due.
    pub(crate) fn set_clock(&mut self, clock: u64) -> Result<(), AllocError>
        requires is_node { IsNode self.old }
        requires later { self.old.clock ≤ clock }
        ensures { OnOk result (Does self.old self.new (node.clocks clock (world_of self.old))) }
    {
        self.clock = clock;
        self.wake()?;
        self.show(Event::Clock(clock))
    }

    /// Puts the processes whose timers are due now to the ready ones.
    fn wake(&mut self) -> Result<(), AllocError>
        ensures { OnOk result (node.Wakes self.old self.new) }
    {
        while let Some((deadline, number)) = self.deadlines.first().copied() {
            if self.clock < deadline {
                break;
            }
            self.deadlines.pop_first();
            self.ready.insert(number)?;
        }
        Ok(())
    }
}
