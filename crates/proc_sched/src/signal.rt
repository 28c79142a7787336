//! What is on its way from one process to another.

ghost use Rattle.std.specs.Prelude.{◌≡◌};
ghost use Rattle.proc_sched.specs.Seen.{HoldsEvent};
ghost use Rattle.proc_sched.specs.Sent.{Sends};
ghost use Rattle.term_heap.specs.declared.heap.Heap.{Heap};

use ej_world::Event;
use term_heap::TermId;

/// What is on its way from one process to another.
#[derive(Clone, Copy, Debug)]
pub(crate) enum Signal {
    /// A message.
    Message(TermId),
    /// An exit signal by the link.
    Link(TermId),
    /// An exit signal by `exit/2`.
    Exit(TermId),
}

/// The signal that an event puts on its way, with its pair, if it does.
pub(crate) fn sent(event: &Event<TermId>) -> Option<((u64, u64), Signal)>
    ensures { (heap : Heap) → HoldsEvent heap event.now → Sends heap event.now result }
{
    match event {
        Event::Send(from, to, message) => Some(((*from, *to), Signal::Message(*message))),
        Event::Signal(from, to, reason) => Some(((*from, *to), Signal::Exit(*reason))),
        Event::Broken(from, to, reason) => Some(((*from, *to), Signal::Link(*reason))),
        _ => None,
    }
}
