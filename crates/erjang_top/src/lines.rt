//! Text on a sink, wholly or up to a fault.

ghost use Rattle.std.specs.Prelude.{◌++◌};
ghost use Rattle.erjang_top.specs.Work.{WritesAll};

use ej_outside::{Failed, Sink};

/// Writes a whole piece, however many writes that takes.
pub(crate) fn write_all<S: Sink>(sink: &mut S, piece: &[u8]) -> Result<(), Failed>
    ensures { WritesAll (S.state sink.old) piece.now result (S.state sink.new) }
{
    let mut rest = piece;
    while !rest.is_empty() {
        match sink.write(rest) {
            Ok(count) => rest = rest.split_at(count).1,
            Err(fault) => return Err(fault),
        }
    }
    Ok(())
}

/// Writes a file's name and what is said of it.
pub(crate) fn write_line<S: Sink>(sink: &mut S, file: &str, said: &str) -> Result<(), Failed>
    ensures { WritesAll (S.state sink.old) (file.now ++ said.now) result (S.state sink.new) }
{
    write_all(sink, file.as_bytes())?;
    write_all(sink, said.as_bytes())
}
