//! What a turn borrows of the world, and what it gives back.

ghost use Rattle.std.specs.Prelude.{◌≡◌, ◌<◌, false, length, OnOk};
ghost use Rattle.ej_world.specs.Choices as world;
ghost use Rattle.proc_sched.specs.Stands.{IsNode, world_of};
ghost use Rattle.proc_sched.specs.Turning as turn;

use crate::node::Node;
use crate::numbers;
use crate::slot::Status;
use crate::view::{Outcome, View};
use mailbox::Mailbox;
use std::alloc::AllocError;
use std::mem;

impl Node {
    /// What a process sees of the world. Its mailbox and its links, the live processes and the events are lent to it.
    pub(crate) fn lend(&mut self, number: u64) -> View
        requires { number < length self.old.slots.items }
        ensures { turn.Lends number self.old self.new result }
    {
        let next_pid = self.next_pid();
        let slot = &mut self.slots[number as usize];
        View {
            me: number,
            next_pid,
            next_ref: self.next_ref,
            clock: self.clock,
            trapping: slot.trapping,
            timer: slot.timer,
            mailbox: mem::replace(&mut slot.mailbox, Mailbox::new(self.alloc)),
            links: mem::replace(&mut slot.links, Vec::new(self.alloc)),
            live: mem::replace(&mut self.live, Vec::new(self.alloc)),
            events: mem::replace(&mut self.events, Vec::new(self.alloc)),
        }
    }

    /// Takes back what was lent, as a turn left it. A process that its turn ended still runs here, and is made to end later.
    pub(crate) fn take_back(&mut self, number: u64, view: View, outcome: Outcome)
        requires { number < length self.old.slots.items }
        ensures { turn.TakesBack number view outcome self.old self.new }
    {
        let slot = &mut self.slots[number as usize];
        slot.status = match outcome {
            Outcome::Waits => Status::Waiting,
            _ => Status::Running,
        };
        slot.mailbox = view.mailbox;
        slot.links = view.links;
        slot.trapping = view.trapping;
        slot.timer = view.timer;
        self.next_ref = view.next_ref;
        self.live = view.live;
        self.events = view.events;
    }

    /// Brings the other side of each link that changed into agreement with the links of a process, which were those before.
    pub(crate) fn agree(&mut self, me: u64, before: &[u64]) -> Result<(), AllocError>
        requires { turn.MayAgree me before.now self.old }
        ensures { OnOk result (turn.Agrees me before.now self.old self.new) }
    {
        self.drop_links(me, before);
        self.add_links(me, before)
    }

    /// Takes a process out of the links of each other that it is no longer linked to.
    fn drop_links(&mut self, me: u64, before: &[u64])
        requires { turn.MayAgree me before.now self.old }
        ensures { turn.DropsLinks me before.now self.old self.new }
    {
        for other in before {
            if !numbers::holds(self.slots[me as usize].links.as_slice(), *other) {
                numbers::remove(&mut self.slots[*other as usize].links, me);
            }
        }
    }

    /// Puts a process to the links of each other that it was not linked to.
    fn add_links(&mut self, me: u64, before: &[u64]) -> Result<(), AllocError>
        requires { turn.MayAgree me before.now self.old }
        ensures { OnOk result (turn.AddsLinks me before.now self.old self.new) }
    {
        let count = self.slots[me as usize].links.len();
        for at in 0..count {
            let other = self.slots[me as usize].links[at];
            if !numbers::holds(before, other) {
                numbers::add(&mut self.slots[other as usize].links, me)?;
            }
        }
        Ok(())
    }
}
