//! A file's bytes to the row of its forms.

ghost use Rattle.std.specs.Prelude.{◌≡◌, [], ◌∷◌, ◌++◌, MatchBool, OnOk};
ghost use Rattle.std.specs.Str.{chars};
ghost use Rattle.asm_terms.specs.Forms.{Reads, OneReading};
ghost use Rattle.asm_terms.specs.FormRead.{ReadsForm, ReadsText};
ghost use Rattle.asm_terms.specs.Splitting.{IsEnd, HasMore};

use crate::TextFault;
use crate::blank::skip_blank;
use crate::characters::{latin_1_text, utf8_text};
use crate::depth::is_too_deep;
use crate::reader::Reader;
use crate::scan::form_tokens;
use crate::terms::term_of;
use ej_term::AsmTerm;
use std::alloc::{AllocError, Global};

/// The forms of a file, in order: terms (Erlang Reference Manual, "Data Types"), each with a full stop behind it, as
/// `erlc -S` writes them. The file is read as UTF-8 where it is UTF-8 as a whole, else each byte is a character of
/// Latin-1.
///
/// # Errors
/// `BadText` and `TooDeep` name the first form that does not read, by the count of forms before it; `NoMemory` says
/// that memory was wanting, and nothing of the file.
#[tactic(auto, using(crate::proofs::FormsLaw::one_reading))]
pub fn read_forms(alloc: Global, bytes: &[u8]) -> Result<Vec<AsmTerm>, TextFault>
    ensures reads { Reads bytes.now result }
    ensures one { OneReading bytes.now }
{
    match utf8_text(bytes) {
        Some(text) => forms_of(alloc, text),
        None => {
            let text = latin_1_text(alloc, bytes)?;
            forms_of(alloc, text.as_str())
        }
    }
}

/// The forms of a text, in order.
fn forms_of(alloc: Global, text: &str) -> Result<Vec<AsmTerm>, TextFault>
    ensures { ReadsText (chars text.now) result }
{
    let mut reader = Reader::new(text);
    let mut forms = Vec::new(alloc);
    while !has_ended(&reader) {
        let form = form_of(alloc, &mut reader, forms.len())?;
        push(&mut forms, form)?;
    }
    Ok(forms)
}

/// Whether no more than space and comments is left.
fn has_ended(reader: &Reader<'_>) -> bool
    ensures { MatchBool result (IsEnd reader.now) (HasMore reader.now) }
{
    let mut ahead = reader.ahead();
    skip_blank(&mut ahead);
    ahead.is_at_end()
}

/// The form that comes next, which is taken, and which has that number.
fn form_of(alloc: Global, reader: &mut Reader<'_>, form: usize) -> Result<AsmTerm, TextFault>
    ensures { ReadsForm reader.old form result reader.new }
{
    let Some(tokens) = form_tokens(alloc, reader)? else {
        return Err(TextFault::BadText { form });
    };
    if is_too_deep(tokens.as_slice()) {
        return Err(TextFault::TooDeep { form });
    }
    match term_of(alloc, tokens)? {
        Some(term) => Ok(term),
        None => Err(TextFault::BadText { form }),
    }
}

/// Adds a form at the end.
fn push(forms: &mut Vec<AsmTerm>, form: AsmTerm) -> Result<(), AllocError>
    ensures { OnOk result (forms.new.items ≡ forms.old.items ++ form ∷ []) }
{
    forms.push(form)?;
    Ok(())
}
