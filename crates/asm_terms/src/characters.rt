//! The characters of a file.

ghost use Rattle.std.specs.Prelude.{◌≡◌, IfOk, MatchOption, string_bytes};
ghost use Rattle.std.specs.Str.{chars};
ghost use Rattle.asm_terms.specs.Characters.{characters};

use crate::spelling::Spelling;
use std::alloc::{AllocError, Global};

/// The text of a file that is UTF-8 as a whole; of another file each byte is a character.
pub(crate) fn utf8_text(bytes: &[u8]) -> Option<&str>
    ensures { MatchOption result (characters bytes.now ≡ bytes.now) (λ text. chars text.now ≡ characters bytes.now) }
{
    match str::from_utf8(bytes) {
        Ok(text) => Some(text),
        Err(_) => None,
    }
}

/// The text whose characters are these bytes, by Latin-1.
pub(crate) fn latin_1_text(alloc: Global, bytes: &[u8]) -> Result<Spelling, AllocError>
    ensures { IfOk result (λ text. text ≡ bytes.now) }
{
    let mut text = Spelling::new(alloc);
    for byte in bytes {
        text.push(char::from(*byte))?;
    }
    Ok(text)
}
