//! What a process sees of the world.

use ej_world::Event;
use mailbox::Mailbox;
use term_heap::TermId;

/// What a process sees of the world in a turn, and what it leaves there. Processes are named by their numbers, times are in
/// milliseconds.
#[derive(Debug, Drop)]
pub struct View {
    /// Its own number.
    pub me: u64,
    /// The number of the next process.
    pub next_pid: u64,
    /// The number of the next reference.
    pub next_ref: u64,
    pub clock: u64,
    /// Whether it traps exits.
    pub trapping: bool,
    /// The deadline of its timer, if it has one.
    pub timer: Option<u64>,
    pub mailbox: Mailbox,
    /// The processes that it is linked to, by rising numbers.
    pub links: Vec<u64>,
    /// The processes that have not ended, by rising numbers.
    pub live: Vec<u64>,
    /// What was seen so far. A turn appends what is seen of it.
    pub events: Vec<Event<TermId>>,
}

/// How a turn leaves its process.
#[derive(Clone, Copy, Debug, PartialEq, Eq)]
pub enum Outcome {
    Runs,
    Waits,
    /// It ended with that reason.
    Ended(TermId),
}
