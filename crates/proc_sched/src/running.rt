//! A turn of a process in a running system.

ghost use Rattle.std.specs.Prelude.{◌≡◌, ◌<◌, ◌≤◌, [], length, true, slice_get, slice_set, IfOk, OnOk};
ghost use Rattle.ej_world.specs.Choices as world;
ghost use Rattle.proc_sched.specs.Freed.{freed, left};
ghost use Rattle.proc_sched.specs.Seen.{outcome_of};
ghost use Rattle.proc_sched.specs.Stands.{world_of, ready_at};
ghost use Rattle.proc_sched.specs.Systems as system;
ghost use Rattle.proc_sched.specs.Systems.{kept, system_of, IsKept, IsSystem, Becomes, BecomesSome};

use crate::process::Process;
use crate::system::System;
use crate::view::Outcome;
use ej_world::Event;
use std::alloc::AllocError;

impl<P: Process + Drop> System<P> {
    pub(crate) fn run_or_idle(
        &mut self,
        code: &P,
        number: u64,
        transfers: u32,
    ) -> Result<(), AllocError>
        requires is { IsSystem P.holds P.means (P.is_state code.now) (kept self.old.node self.old.states.items) }
        requires transfers { 1 ≤ transfers }
        ensures { OnOk result (Becomes P.holds P.means (P.is_state code.now) (kept self.old.node self.old.states.items) (kept self.new.node self.new.states.items) (world.closed (world.or_nothing (system_of P.means (kept self.old.node self.old.states.items)) (world.run_process (freed (P.code code.now)) (system_of P.means (kept self.old.node self.old.states.items)) transfers number)))) }
    {
        if !self.node.is_ready(number) {
            return self.idle(code);
        }
        self.run(code, number, transfers)?;
        self.close(code)
    }

    /// A turn of a process that is ready.
    pub(crate) fn run(&mut self, code: &P, number: u64, transfers: u32) -> Result<(), AllocError>
        requires is { IsSystem P.holds P.means (P.is_state code.now) (kept self.old.node self.old.states.items) }
        requires ready { ready_at self.old.node.clock (slice_get (world_of self.old.node).processes number) ≡ true }
        requires transfers { 1 ≤ transfers }
        ensures { OnOk result (BecomesSome P.holds P.means (P.is_state code.now) (kept self.old.node self.old.states.items) (kept self.new.node self.new.states.items) (world.run_process (freed (P.code code.now)) (system_of P.means (kept self.old.node self.old.states.items)) transfers number)) }
    {
        let first = self.node.events.len();
        let links = self.node.slots[number as usize].links.as_slice();
        let before = Vec::from_slice(self.node.alloc, links)?;
        let outcome = self.turn(code, number, transfers)?;
        self.make_spawned(code, first)?;
        self.node.agree(number, before.as_slice())?;
        self.node.send_from(first)?;
        let depth = self.finish(code, number, outcome)?;
        self.node.show(Event::Turn(number, depth))
    }

    /// The turn itself. A process that it ended has no state behind it, and is made to end later.
    fn turn(&mut self, code: &P, number: u64, transfers: u32) -> Result<Outcome, AllocError>
        requires is { IsSystem P.holds P.means (P.is_state code.now) (kept self.old.node self.old.states.items) }
        requires ready { ready_at self.old.node.clock (slice_get (world_of self.old.node).processes number) ≡ true }
        requires transfers { 1 ≤ transfers }
        ensures { IfOk result (system.GoesBehind P.holds P.means (P.code code.now) transfers number (kept self.old.node self.old.states.items) (kept self.new.node self.new.states.items)) }
    {
        let Some(mut state) = self.states[number as usize].take() else {
            unreachable!();
        };
        self.node.leave(number);
        let mut view = self.node.lend(number);
        let outcome = code.turn(
            self.node.alloc,
            &mut self.node.heap,
            &mut state,
            &mut view,
            transfers,
        )?;
        self.node.take_back(number, view, outcome);
        self.keep(number, state, outcome);
        self.node.enter(number)?;
        Ok(outcome)
    }

    /// Keeps the state of a process, unless its turn ended it.
    fn keep(&mut self, number: u64, state: P::State, outcome: Outcome)
        requires { number < length self.old.states.items }
        ensures node { self.new.node ≡ self.old.node }
        ensures states { self.new.states.items ≡ slice_set self.old.states.items number (left (outcome_of self.old.node.heap outcome) state) }
    {
        self.states[number as usize] = match outcome {
            Outcome::Ended(_) => None,
            _ => Some(state),
        };
    }

    /// Makes the processes of the events from a place on.
    fn make_spawned(&mut self, code: &P, first: usize) -> Result<(), AllocError>
        requires { system.MaySpawn P.holds first (kept self.old.node self.old.states.items) }
        ensures { OnOk result (system.Spawns P.holds P.means (P.code code.now) (system.spawned_from first self.old.node) (kept self.old.node self.old.states.items) (kept self.new.node self.new.states.items)) }
    {
        for at in first..self.node.events.len() {
            self.make_at(code, at)?;
        }
        Ok(())
    }

    /// Makes the process of the event at a place, if it is one that makes one.
    fn make_at(&mut self, code: &P, at: usize) -> Result<(), AllocError>
        requires at { at < length self.old.node.events.items }
        requires may { system.MaySpawn P.holds at (kept self.old.node self.old.states.items) }
        ensures { OnOk result (system.SpawnsAt P.holds P.means (P.code code.now) at (kept self.old.node self.old.states.items) (kept self.new.node self.new.states.items)) }
    {
        match &self.node.events[at] {
            Event::Spawn(_, _, how) => {
                let how = *how;
                self.add(code, &how)
            }
            _ => Ok(()),
        }
    }

    /// Ends a process whose turn ended it. The answer is how many callers wait for a return.
    fn finish(&mut self, code: &P, number: u64, outcome: Outcome) -> Result<u64, AllocError>
        requires is { IsKept P.holds [] (kept self.old.node self.old.states.items) }
        requires may { system.MayFinish P.means number (kept self.old.node self.old.states.items) outcome }
        ensures { IfOk result (system.Finishes P.means (P.code code.now) number (kept self.old.node self.old.states.items) (kept self.new.node self.new.states.items) outcome) }
    {
        match outcome {
            Outcome::Ended(reason) => {
                self.node.end(number, reason)?;
                Ok(0)
            }
            _ => Ok(self.depth(code, number)),
        }
    }

    /// How many callers wait for a return in a process that has not ended.
    fn depth(&self, code: &P, number: u64) -> u64
        requires is { IsKept P.holds [] (kept self.now.node self.now.states.items) }
        requires has { system.HasState P.means number (kept self.now.node self.now.states.items) }
        ensures { system.IsDepth P.means (P.code code.now) number (kept self.now.node self.now.states.items) result }
    {
        match &self.states[number as usize] {
            Some(state) => code.depth(state),
            None => unreachable!(),
        }
    }
}
