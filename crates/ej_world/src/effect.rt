//! What instructions do to the world.

use crate::pid::Pid;

/// How a process begins.
#[derive(Clone, Copy, Debug)]
pub enum Begin<T> {
    /// By a call of a function of a module, both atoms, with a list of arguments.
    Call(T, T, T),
    /// By a call of a fun without arguments.
    Fun(T),
}

/// What a builtin function does to a process's view of the world.
#[derive(Clone, Copy, Debug)]
pub enum Effect<T> {
    /// Asks for the process's own pid.
    Me,
    /// Sends a message.
    Send(Pid, T),
    /// Makes a process, which is linked where that is true.
    Spawn(Begin<T>, bool),
    Link(Pid),
    Unlink(Pid),
    /// Sends an exit signal with a reason.
    Exit(Pid, T),
    /// Sets the flag for trapping exits.
    Trap(bool),
    /// Prints a term.
    Display(T),
    /// Makes a reference.
    MakeRef,
}
