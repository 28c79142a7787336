//! Binaries, which are kept as they are spelled.

ghost use Rattle.std.specs.Prelude.{◌≡◌, IfOk, if◌then◌else◌, drop};
ghost use Rattle.asm_terms.specs.Reading.{with_rest};
ghost use Rattle.asm_terms.specs.Binaries.{place_behind, ends_binary as ends, binary as binary_token};

use crate::number::opaque;
use crate::reader::{Reader, take_word};
use crate::spelling::Spelling;
use crate::token::Token;
use std::alloc::{AllocError, Global};

/// Where in a binary's characters a place is.
#[derive(Clone, Copy)]
pub(crate) enum Place {
    Outside,
    InQuotes,
    BehindBackslash,
}

impl Place {
    // The place behind that character.
    fn behind(self, c: char) -> Place
        ensures { result ≡ place_behind self c }
    {
        match self {
            Place::Outside if c == '"' => Place::InQuotes,
            Place::Outside => Place::Outside,
            Place::InQuotes if c == '"' => Place::Outside,
            Place::InQuotes if c == '\\' => Place::BehindBackslash,
            Place::InQuotes | Place::BehindBackslash => Place::InQuotes,
        }
    }
}

/// The binary whose `<<` is taken, up to the first `>>` outside double quotes.
pub(crate) fn binary(alloc: Global, reader: &mut Reader<'_>) -> Result<Option<Token>, AllocError>
    ensures { IfOk result (λ token. binary_token reader.old ≡ with_rest token reader.new) }
{
    let mut spelled = Spelling::new(alloc);
    spelled.push('<')?;
    spelled.push('<')?;
    let mut place = Place::Outside;
    while let Some(c) = reader.next() {
        spelled.push(c)?;
        if ends_binary(reader, place, c) {
            spelled.push('>')?;
            return Ok(Some(opaque(alloc, &spelled)?));
        }
        place = place.behind(c);
    }
    Ok(None)
}

// Whether that character and the next, which is taken then, end a binary.
fn ends_binary(reader: &mut Reader<'_>, place: Place, c: char) -> bool
    ensures ends { result ≡ ends place c reader.old }
    ensures rest { reader.new ≡ (if result then drop 1 reader.old else reader.old) }
{
    matches!(place, Place::Outside) && c == '>' && take_word(reader, &['>'])
}
