//! Names of processes.

/// The name of a process: the node that it is on, and its number there. The world's own node has the number 0.
#[derive(Clone, Copy, Debug, PartialEq, Eq)]
pub struct Pid {
    pub node: u32,
    pub number: u64,
}
