//! What the delivery of a signal does (Erlang Reference Manual, "Processes", "Receiving Exit Signals").

ghost use Rattle.std.specs.Prelude.{◌≡◌, ◌<◌, true, length, slice_get, IfOk, OnOk};
ghost use Rattle.std.specs.Str.{chars};
ghost use Rattle.ej_world.specs.Delivery as delivery;
ghost use Rattle.ej_world.specs.World as world;
ghost use Rattle.term_heap.specs.View.{Holds, term_of};
ghost use Rattle.proc_sched.specs.Stands.{IsNode, world_of, signal_of, HoldsSignal};
ghost use Rattle.proc_sched.specs.Nodes as node;

use crate::node::Node;
use crate::numbers;
use crate::signal::Signal;
use crate::slot::Status;
use ej_world::Event;
use std::alloc::AllocError;
use term_heap::{Cell, TermId};

impl Node {
    /// Delivers the first signal from one process to another. The answer is whether there was one.
    pub(crate) fn deliver(&mut self, from: u64, to: u64) -> Result<bool, AllocError>
        requires is_node { IsNode self.old }
        requires between { node.Between (world_of self.old) }
        ensures { IfOk result (λ was. node.DoesIf was self.old self.new (delivery.deliver (world_of self.old) from to)) }
    {
        match self.take((from, to))? {
            Some(signal) => {
                self.to_process(from, to, signal)?;
                Ok(true)
            }
            None => Ok(false),
        }
    }

    /// A signal to a process that ended is dropped.
    fn to_process(&mut self, from: u64, to: u64, signal: Signal) -> Result<(), AllocError>
        requires is_node { IsNode self.old }
        requires held { HoldsSignal self.old.heap signal }
        requires within { to < length self.old.slots.items }
        ensures { OnOk result (node.DoesSome self.old self.new (delivery.to_process (world_of self.old) from to (signal_of self.old.heap signal) (slice_get (world_of self.old).processes to))) }
    {
        if self.is_live(to) {
            self.to_live(from, to, signal)
        } else {
            self.show(Event::Dropped(from, to))
        }
    }

    fn to_live(&mut self, from: u64, to: u64, signal: Signal) -> Result<(), AllocError>
        requires is_node { IsNode self.old }
        requires held { HoldsSignal self.old.heap signal }
        requires live { node.live_at (slice_get (world_of self.old).processes to) ≡ true }
        ensures { OnOk result (node.DoesTo to self.old self.new (λ q. delivery.to_live (world_of self.old) from to q (signal_of self.old.heap signal))) }
    {
        match signal {
            Signal::Message(message) => self.append(from, to, message),
            Signal::Exit(reason) => self.exit(from, to, true, reason),
            Signal::Link(reason) => self.link_exit(from, to, reason),
        }
    }

    /// An exit signal by the link counts where the link stands, and takes it away.
    fn link_exit(&mut self, from: u64, to: u64, reason: TermId) -> Result<(), AllocError>
        requires is_node { IsNode self.old }
        requires held { Holds self.old.heap reason }
        requires live { node.live_at (slice_get (world_of self.old).processes to) ≡ true }
        ensures { OnOk result (node.DoesTo to self.old self.new (λ q. delivery.to_live (world_of self.old) from to q (world.Link (term_of self.old.heap reason)))) }
    {
        if !self.unlink(from, to) {
            return self.show(Event::Dropped(from, to));
        }
        self.exit(from, to, false, reason)
    }

    /// Takes a process out of the links of another. The answer is whether it was there.
    fn unlink(&mut self, from: u64, to: u64) -> bool
        requires is_node { IsNode self.old }
        requires within { to < length self.old.slots.items }
        ensures { node.Unlinks from to self.old self.new result }
    {
        let links = &mut self.slots[to as usize].links;
        if !numbers::holds(links.as_slice(), from) {
            return false;
        }
        numbers::remove(links, from);
        true
    }

    /// An exit signal to a live process: the first rule that applies.
    fn exit(&mut self, from: u64, to: u64, by_exit: bool, reason: TermId) -> Result<(), AllocError>
        requires is_node { IsNode self.old }
        requires held { Holds self.old.heap reason }
        requires live { node.live_at (slice_get (world_of self.old).processes to) ≡ true }
        ensures { OnOk result (node.DoesTo to self.old self.new (λ q. delivery.exits (world_of self.old) from to q by_exit (term_of self.old.heap reason))) }
    {
        if by_exit && self.is_atom(reason, "kill") {
            return self.kill(from, to);
        }
        if self.slots[to as usize].trapping {
            return self.trap(from, to, reason);
        }
        if from != to && self.is_atom(reason, "normal") {
            return self.show(Event::Dropped(from, to));
        }
        self.hit(from, to, reason)
    }

    /// A signal ends the process with the reason `killed`.
    fn kill(&mut self, from: u64, to: u64) -> Result<(), AllocError>
        requires is_node { IsNode self.old }
        requires live { node.live_at (slice_get (world_of self.old).processes to) ≡ true }
        ensures { OnOk result (node.DoesTo to self.old self.new (λ q. delivery.hit (world_of self.old) from to q node.killed)) }
    {
        let killed = self.killed()?;
        self.hit(from, to, killed)
    }

    fn killed(&mut self) -> Result<TermId, AllocError>
        requires { IsNode self.old }
        ensures { IfOk result (λ id. node.Makes node.killed self.old self.new id) }
    {
        Ok(self.heap.atom("killed")?)
    }

    /// The process gets a message in the place of the signal.
    fn trap(&mut self, from: u64, to: u64, reason: TermId) -> Result<(), AllocError>
        requires is_node { IsNode self.old }
        requires held { Holds self.old.heap reason }
        requires live { node.live_at (slice_get (world_of self.old).processes to) ≡ true }
        ensures { OnOk result (node.DoesTo to self.old self.new (λ q. delivery.appended (world_of self.old) from to q (delivery.exit_message 0 from (term_of self.old.heap reason)))) }
    {
        let message = self.exit_message(from, reason)?;
        self.append(from, to, message)
    }

    /// The message that a process gets which traps exits.
    fn exit_message(&mut self, from: u64, reason: TermId) -> Result<TermId, AllocError>
        requires is_node { IsNode self.old }
        requires held { Holds self.old.heap reason }
        ensures { IfOk result (λ id. node.Makes (delivery.exit_message 0 from (term_of self.old.heap reason)) self.old self.new id) }
    {
        let exit = self.heap.atom("EXIT")?;
        let pid = self.heap.pid(0, from)?;
        Ok(self.heap.tuple(&[exit, pid, reason])?)
    }

    /// Whether a term is the atom of that name.
    fn is_atom(&self, id: TermId, name: &str) -> bool
        requires { Holds self.now.heap id }
        ensures { result ≡ delivery.is_atom (chars name.now) (term_of self.now.heap id) }
    {
        match *self.heap.cell(id) {
            Cell::Atom(place) => self.heap.atom_text(place) == name,
            _ => false,
        }
    }

    /// A message goes to the end of the mailbox.
    fn append(&mut self, from: u64, to: u64, message: TermId) -> Result<(), AllocError>
        requires is_node { IsNode self.old }
        requires held { Holds self.old.heap message }
        requires live { node.live_at (slice_get (world_of self.old).processes to) ≡ true }
        ensures { OnOk result (node.DoesTo to self.old self.new (λ q. delivery.appended (world_of self.old) from to q (term_of self.old.heap message))) }
    {
        self.put_in(to, message)?;
        self.show(Event::Deliver(from, to, message))
    }

    /// Puts a message into the mailbox of a process.
    pub(crate) fn put_in(&mut self, to: u64, message: TermId) -> Result<(), AllocError>
        requires is_node { IsNode self.old }
        requires held { Holds self.old.heap message }
        requires within { to < length self.old.slots.items }
        ensures { OnOk result (node.PutsIn to message self.old self.new) }
    {
        self.leave(to);
        self.slots[to as usize].mailbox.push(message)?;
        self.enter(to)
    }

    /// A signal ends the process.
    fn hit(&mut self, from: u64, to: u64, reason: TermId) -> Result<(), AllocError>
        requires is_node { IsNode self.old }
        requires held { Holds self.old.heap reason }
        requires live { node.live_at (slice_get (world_of self.old).processes to) ≡ true }
        ensures { OnOk result (node.DoesTo to self.old self.new (λ q. delivery.hit (world_of self.old) from to q (term_of self.old.heap reason))) }
    {
        self.show(Event::Hit(from, to, reason))?;
        self.end(to, reason)
    }

    /// A process ends: each that it is linked to is sent an exit signal by the link.
    pub(crate) fn end(&mut self, number: u64, reason: TermId) -> Result<(), AllocError>
        requires is_node { IsNode self.old }
        requires held { Holds self.old.heap reason }
        requires live { node.live_at (slice_get (world_of self.old).processes number) ≡ true }
        ensures { OnOk result (node.DoesTo number self.old self.new (λ q. world.ends (world_of self.old) number q (term_of self.old.heap reason))) }
    {
        self.bury(number);
        self.send(Event::Exit(number, reason))?;
        self.send_broken(number, reason)
    }

    /// A process is no longer live, nor ready, and waits no more.
    fn bury(&mut self, number: u64)
        requires is_node { IsNode self.old }
        requires live { node.live_at (slice_get (world_of self.old).processes number) ≡ true }
        ensures { node.Buries number self.old self.new }
    {
        self.leave(number);
        self.slots[number as usize].status = Status::Ended;
        numbers::remove(&mut self.live, number);
    }

    /// Sends an exit signal by the link to each process that one is linked to.
    fn send_broken(&mut self, number: u64, reason: TermId) -> Result<(), AllocError>
        requires is_node { IsNode self.old }
        requires held { Holds self.old.heap reason }
        requires within { number < length self.old.slots.items }
        ensures { OnOk result (node.DoesTo number self.old self.new (λ q. node.sends (node.broken number (term_of self.old.heap reason) q.links) (world_of self.old))) }
    {
        let count = self.slots[number as usize].links.len();
        for at in 0..count {
            let other = self.slots[number as usize].links[at];
            self.send(Event::Broken(number, other, reason))?;
        }
        Ok(())
    }
}
