//! The signals that are on their way.

ghost use Rattle.std.specs.Prelude.{◌≡◌, ◌<◌, ◌≤◌, [], ◌∷◌, length, ◌++◌, None, option_to_list, IfOk, OnOk};
ghost use Rattle.proc_sched.specs.Seen.{HoldsEvent, event_of};
ghost use Rattle.proc_sched.specs.Stands.{IsNode, Does, world_of};
ghost use Rattle.proc_sched.specs.Nodes as node;

use crate::node::Node;
use crate::signal::{Signal, sent};
use ej_world::Event;
use std::alloc::AllocError;
use std::collections::VecDeque;
use term_heap::TermId;

impl Node {
    /// Puts a signal behind those of its pair.
    pub(crate) fn put(&mut self, pair: (u64, u64), signal: Signal) -> Result<(), AllocError>
        ensures { OnOk result (node.Puts pair signal self.old self.new) }
    {
        let mut queue = self.take_queue(pair);
        queue.push_back(signal)?;
        self.queues.insert(pair, queue)?;
        Ok(())
    }

    /// Takes out the signals of a pair.
    fn take_queue(&mut self, pair: (u64, u64)) -> VecDeque<Signal>
        ensures { node.TakesQueue pair self.old self.new result }
    {
        match self.queues.remove(&pair) {
            Some(queue) => queue,
            None => VecDeque::new(self.alloc),
        }
    }

    /// Takes the first signal of a pair, if there is one.
    pub(crate) fn take(&mut self, pair: (u64, u64)) -> Result<Option<Signal>, AllocError>
        requires { IsNode self.old }
        ensures { IfOk result (node.Takes pair self.old self.new) }
    {
        let mut queue = self.take_queue(pair);
        let signal = take_first(&mut queue);
        if !queue.is_empty() {
            self.queues.insert(pair, queue)?;
        }
        Ok(signal)
    }

    /// The least pair that has a signal.
    pub(crate) fn first_pair(&self) -> Option<(u64, u64)>
        requires is_node { IsNode self.now }
        requires between { node.Between (world_of self.now) }
        ensures { result ≡ node.first_pair (world_of self.now) }
    {
        match self.queues.first_key_value() {
            Some((pair, _)) => Some(*pair),
            None => None,
        }
    }

    /// Appends an event, and puts on its way what it sends.
    pub(crate) fn send(&mut self, event: Event<TermId>) -> Result<(), AllocError>
        requires is_node { IsNode self.old }
        requires held { HoldsEvent self.old.heap event }
        ensures { OnOk result (Does self.old self.new (node.sends (event_of self.old.heap event ∷ []) (world_of self.old))) }
    {
        match sent(&event) {
            Some((pair, signal)) => {
                self.put(pair, signal)?;
                self.show(event)
            }
            None => self.show(event),
        }
    }

    /// Puts on their way what the events from a place on send.
    pub(crate) fn send_from(&mut self, first: usize) -> Result<(), AllocError>
        requires is_node { IsNode self.old }
        requires first { first ≤ length self.old.events.items }
        ensures { OnOk result (node.SendsFrom first self.old self.new) }
    {
        for at in first..self.events.len() {
            self.send_at(at)?;
        }
        Ok(())
    }

    /// Puts on its way what the event at a place sends.
    fn send_at(&mut self, at: usize) -> Result<(), AllocError>
        requires is_node { IsNode self.old }
        requires at { at < length self.old.events.items }
        ensures { OnOk result (node.SendsAt at self.old self.new) }
    {
        match sent(&self.events[at]) {
            Some((pair, signal)) => self.put(pair, signal),
            None => Ok(()),
        }
    }
}

/// Takes the first of these signals, if there is one.
fn take_first(signals: &mut VecDeque<Signal>) -> Option<Signal>
    ensures items { signals.old.items ≡ option_to_list result ++ signals.new.items }
    ensures none { result ≡ None → signals.old.items ≡ [] }
{
    signals.pop_front()
}
