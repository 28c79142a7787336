//! One process, as the world keeps it.

ghost use Rattle.std.specs.Prelude.{◌≡◌, nat_lt, length};
ghost use Rattle.ej_world.specs.World as world;

use mailbox::Mailbox;
use std::alloc::Global;

/// Whether a process runs, waits or has ended.
#[derive(Clone, Copy, Debug, PartialEq, Eq)]
pub(crate) enum Status {
    Running,
    Waiting,
    Ended,
}

/// A process, without its state.
#[derive(Debug, Drop)]
pub(crate) struct Slot {
    pub(crate) status: Status,
    pub(crate) mailbox: Mailbox,
    /// The processes that it is linked to, by rising numbers.
    pub(crate) links: Vec<u64>,
    pub(crate) trapping: bool,
    pub(crate) timer: Option<u64>,
}

impl Slot {
    ghost use Rattle.term_heap.specs.declared.heap.Heap.{Heap};
    ghost use Rattle.proc_sched.specs.Stands.{process_of, to_come as deadline_to_come};

    /// A process that begins.
    pub(crate) fn fresh(alloc: Global) -> Slot
        ensures { (heap : Heap) → process_of heap result ≡ world.fresh }
    {
        Slot {
            status: Status::Running,
            mailbox: Mailbox::new(alloc),
            links: Vec::new(alloc),
            trapping: false,
            timer: None,
        }
    }

    /// Whether it has not ended.
    pub(crate) fn is_live(&self) -> bool
        ensures { (heap : Heap) → result ≡ world.is_live (process_of heap self.now) }
    {
        match self.status {
            Status::Ended => false,
            _ => true,
        }
    }

    /// Whether it may have a turn at that time.
    pub(crate) fn is_ready(&self, clock: u64) -> bool
        ensures { (heap : Heap) → result ≡ world.is_ready clock (process_of heap self.now) }
    {
        match self.status {
            Status::Running => true,
            Status::Waiting => self.has_message() || self.is_due(clock),
            Status::Ended => false,
        }
    }

    /// Whether a message lies at the save place.
    fn has_message(&self) -> bool
        ensures { result ≡ nat_lt self.now.mailbox.save (length self.now.mailbox.messages) }
    {
        self.mailbox.at_save().is_some()
    }

    /// Whether its timer is due.
    fn is_due(&self, clock: u64) -> bool
        ensures { result ≡ world.is_due clock self.now.timer }
    {
        match self.timer {
            Some(deadline) => deadline <= clock,
            None => false,
        }
    }

    /// The deadline for which it waits and which is to come, if there is one.
    pub(crate) fn to_come(&self, clock: u64) -> Option<u64>
        ensures { (heap : Heap) → result ≡ deadline_to_come clock (process_of heap self.now) }
    {
        match (self.status, self.timer) {
            (Status::Waiting, Some(deadline)) if clock < deadline => Some(deadline),
            _ => None,
        }
    }
}
