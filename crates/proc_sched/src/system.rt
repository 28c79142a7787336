//! A running system: a world, with the states of its processes.

ghost use Rattle.std.specs.Prelude.{◌≡◌, ◌<◌, ◌≤◌, ℕ, List, [], ◌∷◌, length, true, slice_get, IfOk, OnOk};
ghost use Rattle.ej_world.specs.Choices as world;
ghost use Rattle.ej_world.specs.World as worlds;
ghost use Rattle.term_heap.specs.View.{Holds, term_of};
ghost use Rattle.proc_sched.specs.Calls.{MayBegin};
ghost use Rattle.proc_sched.specs.Choose.{InRange};
ghost use Rattle.proc_sched.specs.Freed.{freed};
ghost use Rattle.proc_sched.specs.Nodes.{live_at};
ghost use Rattle.proc_sched.specs.Seen.{begin_of};
ghost use Rattle.proc_sched.specs.Stands.{world_of};
ghost use Rattle.proc_sched.specs.Systems as system;
ghost use Rattle.proc_sched.specs.Systems.{kept, system_of, IsKept, IsSystem, Becomes, BecomesSome, BecomesIf};

use crate::call::load_call;
use crate::fault::ChoiceFault;
use crate::node::{LIMIT, Node};
use crate::process::Process;
use ej_term::{AsmTerm, Text};
use ej_world::{Begin, Choice, Event};
use std::alloc::{AllocError, Global};
use term_heap::TermId;

/// A world, with the states of its processes.
#[derive(Drop)]
pub(crate) struct System<P: Process + Drop> {
    pub(crate) node: Node,
    /// The states of the processes by their numbers, of those that have not ended.
    pub(crate) states: Vec<Option<P::State>>,
}

impl<P: Process + Drop> System<P> {
    /// No process, at the time 0.
    pub(crate) fn new(alloc: Global) -> System<P>
        ensures is { (code : P) → IsSystem P.holds P.means (P.is_state code) (kept result.node result.states.items) }
        ensures empty { system_of P.means (kept result.node result.states.items) ≡ record { world = worlds.empty; states = [] } }
        ensures events { result.node.events.items ≡ [] }
    {
        System {
            node: Node::new(alloc),
            states: Vec::new(alloc),
        }
    }

    /// Makes a choice, whose numbers are in their ranges.
    pub(crate) fn choose(&mut self, code: &P, choice: &Choice) -> Result<(), ChoiceFault>
        requires is { IsSystem P.holds P.means (P.is_state code.now) (kept self.old.node self.old.states.items) }
        requires range { InRange choice.now }
        ensures { system.Makes P.holds P.means (P.is_state code.now) (P.code code.now) choice.now (kept self.old.node self.old.states.items) (kept self.new.node self.new.states.items) result }
    {
        match choice {
            Choice::Start { module, name, args } => {
                self.start(code, module, name, args.as_slice())
            }
            Choice::Run { pid, transfers } => Ok(self.run_or_idle(code, *pid, *transfers)?),
            Choice::Deliver { from, to } => Ok(self.deliver_or_idle(code, *from, *to)?),
            Choice::Advance { ms } => Ok(self.advance(code, *ms)?),
            Choice::Input { pid, term } => self.input(code, *pid, term),
            Choice::Auto { rounds } => Ok(self.auto(code, *rounds)?),
        }
    }

    // ---- what closes a choice

    /// Shows the ready processes.
    pub(crate) fn close(&mut self, code: &P) -> Result<(), AllocError>
        requires { IsSystem P.holds P.means (P.is_state code.now) (kept self.old.node self.old.states.items) }
        ensures { OnOk result (Becomes P.holds P.means (P.is_state code.now) (kept self.old.node self.old.states.items) (kept self.new.node self.new.states.items) (system.shows_ready (system_of P.means (kept self.old.node self.old.states.items)))) }
    {
        self.node.close()
    }

    /// There was nothing to do.
    pub(crate) fn idle(&mut self, code: &P) -> Result<(), AllocError>
        requires { IsSystem P.holds P.means (P.is_state code.now) (kept self.old.node self.old.states.items) }
        ensures { OnOk result (Becomes P.holds P.means (P.is_state code.now) (kept self.old.node self.old.states.items) (kept self.new.node self.new.states.items) (world.closed (world.nothing (system_of P.means (kept self.old.node self.old.states.items))))) }
    {
        self.node.show(Event::Idle)?;
        self.close(code)
    }

    // ---- a start

    fn start(
        &mut self,
        code: &P,
        module: &Text,
        name: &Text,
        args: &[AsmTerm],
    ) -> Result<(), ChoiceFault>
        requires is { IsSystem P.holds P.means (P.is_state code.now) (kept self.old.node self.old.states.items) }
        requires count { length args.now ≤ 255 }
        ensures { system.Starts P.holds P.means (P.is_state code.now) (P.code code.now) «module».now name.now args.now (kept self.old.node self.old.states.items) (kept self.new.node self.new.states.items) result }
    {
        let how = load_call(self.node.alloc, &mut self.node.heap, module, name, args)?;
        Ok(self.start_or_idle(code, how)?)
    }

    /// The next process begins, if there is a number for it.
    fn start_or_idle(&mut self, code: &P, how: Begin<TermId>) -> Result<(), AllocError>
        requires is { IsSystem P.holds P.means (P.is_state code.now) (kept self.old.node self.old.states.items) }
        requires may { MayBegin self.old.node.heap how }
        ensures { OnOk result (Becomes P.holds P.means (P.is_state code.now) (kept self.old.node self.old.states.items) (kept self.new.node self.new.states.items) (world.closed (world.or_nothing (system_of P.means (kept self.old.node self.old.states.items)) (world.start (freed (P.code code.now)) (system_of P.means (kept self.old.node self.old.states.items)) (begin_of self.old.node.heap how))))) }
    {
        if LIMIT <= self.node.next_pid() {
            return self.idle(code);
        }
        self.start_next(code, how)?;
        self.close(code)
    }

    fn start_next(&mut self, code: &P, how: Begin<TermId>) -> Result<(), AllocError>
        requires is { IsSystem P.holds P.means (P.is_state code.now) (kept self.old.node self.old.states.items) }
        requires may { MayBegin self.old.node.heap how }
        requires room { worlds.next_pid (world_of self.old.node) < worlds.limit }
        ensures { OnOk result (BecomesSome P.holds P.means (P.is_state code.now) (kept self.old.node self.old.states.items) (kept self.new.node self.new.states.items) (world.start (freed (P.code code.now)) (system_of P.means (kept self.old.node self.old.states.items)) (begin_of self.old.node.heap how))) }
    {
        let number = self.node.next_pid();
        self.node.live.push(number)?;
        self.add(code, &how)?;
        self.node.show(Event::Start(number, how))
    }

    /// Makes the next process, which is among the live ones already.
    pub(crate) fn add(&mut self, code: &P, how: &Begin<TermId>) -> Result<(), AllocError>
        requires is { (coming : List ℕ) × IsKept P.holds (worlds.next_pid (world_of self.old.node) ∷ coming) (kept self.old.node self.old.states.items) }
        requires may { MayBegin self.old.node.heap how.now }
        ensures { OnOk result (system.Adds P.holds P.means (P.code code.now) how.now (kept self.old.node self.old.states.items) (kept self.new.node self.new.states.items)) }
    {
        let state = code.begin(self.node.alloc, &mut self.node.heap, how)?;
        self.states.push(Some(state))?;
        self.node.add_slot()
    }

    // ---- a delivery

    fn deliver_or_idle(&mut self, code: &P, from: u64, to: u64) -> Result<(), AllocError>
        requires { IsSystem P.holds P.means (P.is_state code.now) (kept self.old.node self.old.states.items) }
        ensures { OnOk result (Becomes P.holds P.means (P.is_state code.now) (kept self.old.node self.old.states.items) (kept self.new.node self.new.states.items) (world.closed (world.or_nothing (system_of P.means (kept self.old.node self.old.states.items)) (world.delivered (system_of P.means (kept self.old.node self.old.states.items)) from to)))) }
    {
        if !self.deliver(code, from, to)? {
            return self.idle(code);
        }
        self.close(code)
    }

    /// The answer is whether there was a signal.
    pub(crate) fn deliver(&mut self, code: &P, from: u64, to: u64) -> Result<bool, AllocError>
        requires { IsSystem P.holds P.means (P.is_state code.now) (kept self.old.node self.old.states.items) }
        ensures { IfOk result (λ was. BecomesIf P.holds P.means (P.is_state code.now) was (kept self.old.node self.old.states.items) (kept self.new.node self.new.states.items) (world.delivered (system_of P.means (kept self.old.node self.old.states.items)) from to)) }
    {
        self.node.deliver(from, to)
    }

    // ---- the clock

    fn advance(&mut self, code: &P, ms: u64) -> Result<(), AllocError>
        requires is { IsSystem P.holds P.means (P.is_state code.now) (kept self.old.node self.old.states.items) }
        requires range { (1 ≤ ms) × (ms ≤ 4294967296) }
        ensures { OnOk result (Becomes P.holds P.means (P.is_state code.now) (kept self.old.node self.old.states.items) (kept self.new.node self.new.states.items) (world.closed (world.advanced (system_of P.means (kept self.old.node self.old.states.items)) ms))) }
    {
        let clock = (self.node.clock + ms).min(LIMIT);
        self.set_clock(code, clock)?;
        self.close(code)
    }

    /// Sets the clock, which does not go back.
    pub(crate) fn set_clock(&mut self, code: &P, clock: u64) -> Result<(), AllocError>
        requires is { IsSystem P.holds P.means (P.is_state code.now) (kept self.old.node self.old.states.items) }
        requires later { self.old.node.clock ≤ clock }
        requires limit { clock ≤ worlds.limit }
        ensures { OnOk result (Becomes P.holds P.means (P.is_state code.now) (kept self.old.node self.old.states.items) (kept self.new.node self.new.states.items) (world.at_clock (system_of P.means (kept self.old.node self.old.states.items)) clock)) }
    {
        self.node.set_clock(clock)
    }

    // ---- an input

    fn input(&mut self, code: &P, number: u64, term: &AsmTerm) -> Result<(), ChoiceFault>
        requires { IsSystem P.holds P.means (P.is_state code.now) (kept self.old.node self.old.states.items) }
        ensures { system.Inputs P.holds P.means (P.is_state code.now) number term.now (kept self.old.node self.old.states.items) (kept self.new.node self.new.states.items) result }
    {
        let message = self.node.heap.load(term)?;
        Ok(self.put_in_or_idle(code, number, message)?)
    }

    /// Puts a message into the mailbox of a live process.
    fn put_in_or_idle(&mut self, code: &P, number: u64, message: TermId) -> Result<(), AllocError>
        requires is { IsSystem P.holds P.means (P.is_state code.now) (kept self.old.node self.old.states.items) }
        requires held { Holds self.old.node.heap message }
        ensures { OnOk result (Becomes P.holds P.means (P.is_state code.now) (kept self.old.node self.old.states.items) (kept self.new.node self.new.states.items) (world.closed (world.or_nothing (system_of P.means (kept self.old.node self.old.states.items)) (world.put_in (system_of P.means (kept self.old.node self.old.states.items)) number (term_of self.old.node.heap message))))) }
    {
        if !self.node.is_live(number) {
            return self.idle(code);
        }
        self.put_in(code, number, message)?;
        self.close(code)
    }

    fn put_in(&mut self, code: &P, number: u64, message: TermId) -> Result<(), AllocError>
        requires is { IsSystem P.holds P.means (P.is_state code.now) (kept self.old.node self.old.states.items) }
        requires held { Holds self.old.node.heap message }
        requires live { live_at (slice_get (world_of self.old.node).processes number) ≡ true }
        ensures { OnOk result (BecomesSome P.holds P.means (P.is_state code.now) (kept self.old.node self.old.states.items) (kept self.new.node self.new.states.items) (world.put_in (system_of P.means (kept self.old.node self.old.states.items)) number (term_of self.old.node.heap message))) }
    {
        self.node.put_in(number, message)?;
        self.node.show(Event::Input(number, message))
    }
}
