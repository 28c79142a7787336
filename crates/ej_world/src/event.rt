//! What is seen of a run.

use crate::effect::Begin;
use ej_term::Class3;
use sqlite_items::Items;

/// Something that is seen of a run. Processes are named by their numbers; where there are two, the first is the one that
/// acts or sent a signal.
#[derive(Debug, Drop)]
pub enum Event<T> {
    /// A process was started by a choice, always by a call.
    Start(u64, Begin<T>),
    /// One process made another.
    Spawn(u64, u64, Begin<T>),
    /// A message was sent.
    Send(u64, u64, T),
    /// An exit signal was sent by `exit/2`.
    Signal(u64, u64, T),
    /// An exit signal by the link goes from one to the other.
    Broken(u64, u64, T),
    /// A message, or the reason of an exit signal, was sent to no process.
    Lost(u64, T),
    /// A message was appended to the other's mailbox.
    Deliver(u64, u64, T),
    /// A signal ends the other with that reason.
    Hit(u64, u64, T),
    /// A signal had no effect.
    Dropped(u64, u64),
    /// A message was put into a mailbox by a choice.
    Input(u64, T),
    /// A message was removed from the mailbox.
    Recv(u64, T),
    /// A term was printed.
    Print(u64, T),
    /// An exception was raised, caught or not.
    Raise(u64, Class3, T),
    /// The process's first function gave back that term.
    Answer(u64, T),
    /// A process ended with that reason.
    Exit(u64, T),
    /// The code of a class is at fault.
    Fault(u64),
    /// The clock was set, in milliseconds.
    Clock(u64),
    /// Closes each turn: how many callers wait for a return.
    Turn(u64, u64),
    /// There was nothing to do.
    Idle,
    /// Closes each choice: the ready processes in order.
    Ready(Items<u64>),
}
