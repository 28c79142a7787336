//! Rounds of deliveries, with a turn or an advance of the clock behind them.

ghost use Rattle.std.specs.Prelude.{◌≡◌, [], None, OnOk, IfOk};
ghost use Rattle.ej_world.specs.World as worlds;
ghost use Rattle.ej_world.specs.Auto as auto;
ghost use Rattle.proc_sched.specs.Freed.{freed};
ghost use Rattle.proc_sched.specs.Stands.{world_of};
ghost use Rattle.proc_sched.specs.Systems as system;
ghost use Rattle.proc_sched.specs.Systems.{kept, system_of, IsSystem, Becomes};

use crate::process::Process;
use crate::system::System;
use std::alloc::AllocError;

/// What a round did behind its deliveries.
pub(crate) enum Stepped {
    /// There was nothing to do.
    Nothing,
    /// A turn or an advance, with the process that ran last.
    Happened(Option<u64>),
}

impl<P: Process + Drop> System<P> {
    /// At most so many rounds.
    pub(crate) fn auto(&mut self, code: &P, most: u32) -> Result<(), AllocError>
        requires { IsSystem P.holds P.means (P.is_state code.now) (kept self.old.node self.old.states.items) }
        ensures { OnOk result (Becomes P.holds P.means (P.is_state code.now) (kept self.old.node self.old.states.items) (kept self.new.node self.new.states.items) (auto.auto (freed (P.code code.now)) most (system_of P.means (kept self.old.node self.old.states.items)))) }
    {
        let before = self.node.events.len();
        self.rounds(code, most)?;
        if self.node.events.len() == before {
            return self.idle(code);
        }
        Ok(())
    }

    fn rounds(&mut self, code: &P, most: u32) -> Result<(), AllocError>
        requires { IsSystem P.holds P.means (P.is_state code.now) (kept self.old.node self.old.states.items) }
        ensures { OnOk result (Becomes P.holds P.means (P.is_state code.now) (kept self.old.node self.old.states.items) (kept self.new.node self.new.states.items) (auto.rounds (freed (P.code code.now)) most None (system_of P.means (kept self.old.node self.old.states.items)))) }
    {
        let mut last = None;
        for _round in 0..most {
            self.deliver_all(code)?;
            match self.step(code, last)? {
                Stepped::Nothing => return Ok(()),
                Stepped::Happened(ran) => last = ran,
            }
        }
        Ok(())
    }

    /// Delivers the first signal of the least pair, as long as there is one.
    fn deliver_all(&mut self, code: &P) -> Result<(), AllocError>
        requires { IsSystem P.holds P.means (P.is_state code.now) (kept self.old.node self.old.states.items) }
        ensures { OnOk result (Becomes P.holds P.means (P.is_state code.now) (kept self.old.node self.old.states.items) (kept self.new.node self.new.states.items) (auto.all_delivered (system_of P.means (kept self.old.node self.old.states.items)))) }
    {
        while let Some((from, to)) = self.node.first_pair() {
            self.deliver(code, from, to)?;
            self.close(code)?;
        }
        Ok(())
    }

    /// A turn of the next ready process, or else an advance to the earliest deadline.
    fn step(&mut self, code: &P, last: Option<u64>) -> Result<Stepped, AllocError>
        requires { IsSystem P.holds P.means (P.is_state code.now) (kept self.old.node self.old.states.items) }
        ensures { IfOk result (system.DoesStep P.holds P.means (P.is_state code.now) (kept self.old.node self.old.states.items) (kept self.new.node self.new.states.items) (auto.step (freed (P.code code.now)) last (system_of P.means (kept self.old.node self.old.states.items)))) }
    {
        match self.node.next_ready(last) {
            Some(number) => {
                self.run(code, number, 2000)?;
                self.close(code)?;
                Ok(Stepped::Happened(Some(number)))
            }
            None => self.advance_to_deadline(code, last),
        }
    }

    /// An advance to the earliest deadline, where no process is ready.
    fn advance_to_deadline(&mut self, code: &P, last: Option<u64>) -> Result<Stepped, AllocError>
        requires is { IsSystem P.holds P.means (P.is_state code.now) (kept self.old.node self.old.states.items) }
        requires none_ready { worlds.ready (world_of self.old.node) ≡ [] }
        ensures { IfOk result (system.DoesStep P.holds P.means (P.is_state code.now) (kept self.old.node self.old.states.items) (kept self.new.node self.new.states.items) (auto.step_to (freed (P.code code.now)) last (system_of P.means (kept self.old.node self.old.states.items)) None)) }
    {
        match self.node.next_deadline() {
            Some(deadline) => {
                self.set_clock(code, deadline)?;
                self.close(code)?;
                Ok(Stepped::Happened(last))
            }
            None => Ok(Stepped::Nothing),
        }
    }
}
