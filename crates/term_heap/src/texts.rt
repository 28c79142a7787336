//! Distinct texts by their places.

ghost use Rattle.std.specs.Prelude.{◌≡◌, slice_get, Some, IfOk};
ghost use Rattle.term_heap.specs.Cells.{Extends};

use ej_term::Text;
use indexmap::IndexSet;
use std::alloc::AllocError;

/// The place of the text, behind the others where it is new.
pub(crate) fn place_of(texts: &mut IndexSet<Text>, text: Text) -> Result<usize, AllocError>
    ensures keeps { Extends texts.old.keys texts.new.keys }
    ensures text { IfOk result (λ place. slice_get texts.new.keys place ≡ Some text) }
{
    let (place, _) = texts.insert_full(text)?;
    Ok(place)
}
