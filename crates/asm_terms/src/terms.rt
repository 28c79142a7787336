//! The term that tokens spell.

ghost use Rattle.std.specs.Prelude.{IfOk};
ghost use Rattle.asm_terms.specs.FormRead.{Spells};

use crate::row::Row;
use crate::term_reader::TermReader;
use crate::token::Token;
use ej_term::AsmTerm;
use std::alloc::{AllocError, Global};

/// The term that all these tokens spell, in one pass over them.
pub(crate) fn term_of(alloc: Global, tokens: Row<Token>) -> Result<Option<AsmTerm>, AllocError>
    ensures { IfOk result (Spells tokens) }
{
    let mut rest = tokens.into_queue();
    let mut reader = TermReader::new(alloc);
    while let Some(token) = rest.next() {
        match reader.step(alloc, token)? {
            Some(next) => reader = next,
            None => return Ok(None),
        }
    }
    Ok(reader.finish())
}
