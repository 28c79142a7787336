//! Reading a term from its canonical print.

ghost use Rattle.std.specs.Prelude.{◌≡◌, [], ◌∷◌, ◌++◌, codes, IfOk, MatchOption};
ghost use Rattle.ej_term.specs.declared.asm_term.AsmTerm as source;
ghost use Rattle.asm_terms.specs.Forms.{AreForms};
ghost use Rattle.term_heap.specs.View.{Holds, Keeps};
ghost use Rattle.term_text.specs.Reads.{ReadsForms, Checks, Reads};

use crate::fault::ReadFault;
use crate::printer::print;
use asm_terms::{TextFault, read_forms};
use ej_term::AsmTerm;
use std::alloc::{AllocError, Global};
use term_heap::{Heap, LoadFault, TermId};

/// The term whose canonical print these bytes are, added to the heap, in which every earlier id keeps its term. It
/// reads the bytes and a full stop as the forms of a source, and compares the print of what it read with the bytes.
///
/// # Errors
/// `BadText` exactly where the bytes are no print of a readable term; what was added stays in the heap.
pub fn read(alloc: Global, heap: &mut Heap, bytes: &[u8]) -> Result<TermId, ReadFault>
    ensures keeps { Keeps heap.old heap.new }
    ensures reads { Reads heap.new bytes.now result }
{
    let forms = forms_of(alloc, bytes)?;
    match only(forms.as_slice()) {
        Some(form) => read_form(alloc, heap, bytes, form),
        None => Err(ReadFault::BadText),
    }
}

/// The forms of these bytes and a full stop.
fn forms_of(alloc: Global, bytes: &[u8]) -> Result<Vec<AsmTerm>, ReadFault>
    ensures { ReadsForms bytes.now result }
{
    let text = with_full_stop(alloc, bytes)?;
    match read_forms(alloc, text.as_slice()) {
        Ok(forms) => Ok(forms),
        Err(TextFault::BadText { .. }) => Err(ReadFault::BadText),
        Err(TextFault::TooDeep { .. }) => Err(ReadFault::BadText),
        Err(TextFault::NoMemory) => Err(ReadFault::NoMemory),
    }
}

fn with_full_stop(alloc: Global, bytes: &[u8]) -> Result<Vec<u8>, AllocError>
    ensures { IfOk result (λ text. text.items ≡ bytes.now ++ codes ".\n") }
{
    let mut text = Vec::from_slice(alloc, bytes)?;
    text.extend_from_slice(b".\n")?;
    Ok(text)
}

/// The one form that there is.
fn only(forms: &[AsmTerm]) -> Option<&AsmTerm>
    ensures { MatchOption result ((form : source.AsmTerm) → forms.now ≡ form ∷ [] → ⊥) (λ form. forms.now ≡ form.now ∷ []) }
{
    match forms {
        [form] => Some(form),
        _ => None,
    }
}

/// The term of the form of these bytes, where it prints as they are.
fn read_form(
    alloc: Global,
    heap: &mut Heap,
    bytes: &[u8],
    form: &AsmTerm,
) -> Result<TermId, ReadFault>
    requires { AreForms (bytes.now ++ codes ".\n") (form.now ∷ []) }
    ensures keeps { Keeps heap.old heap.new }
    ensures reads { Reads heap.new bytes.now result }
{
    match heap.load(form) {
        Ok(id) => checked(alloc, heap, bytes, id),
        Err(LoadFault::Opaque) => Err(ReadFault::BadText),
        Err(LoadFault::NoMemory) => Err(ReadFault::NoMemory),
    }
}

/// The id, where its term prints as these bytes.
fn checked(alloc: Global, heap: &Heap, bytes: &[u8], id: TermId) -> Result<TermId, ReadFault>
    requires { Holds heap.now id }
    ensures { Checks heap.now bytes.now id result }
{
    let text = print(alloc, heap, id)?;
    if text.as_slice() == bytes {
        Ok(id)
    } else {
        Err(ReadFault::BadText)
    }
}
