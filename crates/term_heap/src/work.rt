//! What is still to be compared of two terms.

use crate::cell::TermId;

/// Two terms, or two runs of as many parts, one part after the other.
#[derive(Clone, Copy, Debug)]
pub(crate) enum Work {
    /// The terms of two ids.
    Terms(TermId, TermId),
    /// The parts from these two places on.
    Runs(usize, usize, usize),
}
