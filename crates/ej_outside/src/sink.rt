//! A sink of bytes.

ghost use Rattle.ej_outside.specs.Sink.{SinkState, Writes};

use crate::Failed;

/// Where bytes are written, piece by piece.
///
/// A sink stands for the bytes that it took, if it tells them, and for a count of faults, which never falls.
pub trait Sink {
    ghost state: { Self → SinkState };

    /// Takes bytes from the front of `piece` and answers how many: at least one, unless `piece` is empty.
    ///
    /// `Failed`, which the count of faults tells, means that none was taken.
    fn write(&mut self, piece: &[u8]) -> Result<usize, Failed>
        ensures { Writes (state self.old) piece.now result (state self.new) };
}
