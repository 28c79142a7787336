//! The choices of a script.

use ej_term::{AsmTerm, Text};
use sqlite_items::Items;

/// What is chosen to happen next in a world. Processes are named by their numbers, from 0.
#[derive(Debug, Drop)]
pub enum Choice {
    /// Makes the next process, which begins by a call of that function of that module with at most 255 arguments.
    Start {
        module: Text,
        name: Text,
        args: Items<AsmTerm>,
    },
    /// If the process is ready, one turn of 1 to 100,000 transfers.
    Run {
        pid: u64,
        transfers: u32,
    },
    /// Takes the first signal of the queue from one process to another.
    Deliver {
        from: u64,
        to: u64,
    },
    /// Adds 1 to 4,294,967,296 milliseconds to the clock, which stays at 2^62.
    Advance {
        ms: u64,
    },
    /// Appends a message to the mailbox of a live process.
    Input {
        pid: u64,
        term: AsmTerm,
    },
    /// At most 1 to 1,000,000 rounds of deliveries with a run or an advance behind them.
    Auto {
        rounds: u32,
    },
}
