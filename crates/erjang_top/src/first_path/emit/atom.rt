//! The canonical print of an atom, which is its literal in a class.

ghost use Rattle.std.specs.Prelude.{◌≡◌, IfOk};
ghost use Rattle.ej_term.specs.TermPrint.{print_atom};

use ej_term::Text;
use std::alloc::{AllocError, Global};
use term_text::write_atom;

/// The canonical print of an atom.
pub fn atom_text(alloc: Global, name: &Text) -> Result<Vec<u8>, AllocError>
    ensures { IfOk result (λ text. text.items ≡ print_atom name.now) }
{
    let mut text = String::new(alloc);
    write_atom(&mut text, name.as_str())?;
    Ok(text.into_bytes())
}
