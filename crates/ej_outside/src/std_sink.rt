//! A sink over a stream.

ghost use Rattle.std.specs.Prelude.{◌≡◌, IfOk};
ghost use Rattle.ej_outside.specs.StdSink.{IsFront};

use crate::calls::one_more;
use crate::{Failed, Sink};
use std::io::{ErrorKind, Write};
use std::marker::Model;

/// A stream of the system, such as standard output, as a sink. It does not tell what it took.
///
/// Nothing is kept back here: each write goes to the stream at once.
#[derive(Drop)]
pub struct StdSink<W> {
    stream: W,
    faults: u64,
}

impl<W> Model for StdSink<W> {
    ghost use Rattle.std.specs.Prelude.{None};
    ghost use Rattle.ej_outside.specs.Sink.{SinkState};
    ghost use Rattle.ej_outside.specs.StdSink.{sink_code};

    ghost Value = { SinkState };

    ghost coded = { sink_code };

    ghost view = { λ s. record { took = None; faults = s.faults } };
}

impl<W: Write + Drop> StdSink<W> {
    ghost use Rattle.ej_outside.specs.StdSink.{untold_sink};

    /// A sink over the stream, with no fault counted.
    pub fn new(stream: W) -> StdSink<W>
        ensures { result ≡ untold_sink }
    {
        StdSink { stream, faults: 0 }
    }
}

impl<W: Write + Drop> Sink for StdSink<W> {
    ghost use Rattle.ej_outside.specs.Sink.{SinkState, Writes};
    ghost use Rattle.ej_outside.specs.StdSink.{after_write};

    ghost state = { λ s. s };

    /// Writes bytes from the front of `piece` and answers how many the stream took.
    ///
    /// `Failed` comes where the stream answers an error other than an interruption, after which the write is
    /// tried again, or takes none of a piece that is not empty. The count of faults then rises.
    fn write(&mut self, piece: &[u8]) -> Result<usize, Failed>
        ensures owed { Writes self.old piece.now result self.new }
        ensures counted { self.new ≡ after_write self.old result }
    {
        match write_some(&mut self.stream, piece) {
            Ok(count) => Ok(count),
            Err(fault) => {
                self.faults = one_more(self.faults);
                Err(fault)
            }
        }
    }
}

/// Writes bytes from the front of the piece, and answers how many. An interrupted write is tried again.
pub(crate) fn write_some<W: Write>(stream: &mut W, piece: &[u8]) -> Result<usize, Failed>
    ensures { IfOk result (IsFront piece.now) }
{
    for _ in 0..u64::MAX {
        match stream.write(piece) {
            Ok(0) if !piece.is_empty() => return Err(Failed),
            Ok(count) => return Ok(count),
            Err(error) if error.kind() == ErrorKind::Interrupted => {}
            Err(_) => return Err(Failed),
        }
    }
    Err(Failed)
}
