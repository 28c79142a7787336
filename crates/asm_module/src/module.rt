//! The module of a row of forms.

ghost use Rattle.std.specs.Prelude.{◌≡◌, ◌||◌, List, [], ◌∷◌, IfOk, unwrap_or};
ghost use Rattle.beam_code.specs.Keys.{Key as NameAndArity, is_among};
ghost use Rattle.beam_code.specs.Parts.{module_parts};
ghost use Rattle.ej_term.specs.declared.asm_term.AsmTerm.{AsmTerm as AsmTermOf};
ghost use Rattle.asm_module.specs.Modules.{header_of as header_in, keys_of as keys_in, reading};
ghost use Rattle.asm_module.specs.Seen.{Gives, headed_seen, is_held};

use crate::FormFault;
use crate::functions::{Key, add_key, function_form, functions_of};
use crate::header::{Header, header_of, module_name};
use beam_code::Module;
use ej_term::{AsmTerm, Text};
use indexmap::IndexSet;
use sqlite_items::Items;
use std::alloc::{AllocError, Global};

/// Puts the key of the function that a form begins to those of the set.
fn add_form<'a>(keys: &mut IndexSet<Key<'a>>, form: &'a AsmTerm) -> Result<(), AllocError>
    ensures { IfOk result (λ _. (forms : List AsmTermOf) (key : NameAndArity) → (is_held keys.new.keys key || is_among (keys_in forms) key) ≡ (is_held keys.old.keys key || is_among (keys_in (form.now ∷ forms)) key)) }
{
    let Some(heading) = function_form(form) else {
        return Ok(());
    };
    let _ = add_key(keys, heading.key())?;
    Ok(())
}

/// The functions that the forms begin, by their names and arities.
fn keys_of(alloc: Global, forms: &[AsmTerm]) -> Result<IndexSet<Key<'_>>, AllocError>
    ensures { IfOk result (λ keys. (key : NameAndArity) → is_held keys.keys key ≡ is_among (keys_in forms.now) key) }
{
    let mut keys: IndexSet<Key<'_>> = IndexSet::new(alloc);
    for form in forms {
        add_form(&mut keys, form)?;
    }
    Ok(keys)
}

/// The header behind the first form, and the forms behind it.
fn header_behind<'a>(
    alloc: Global,
    forms: &'a [AsmTerm],
) -> Result<(Header, &'a [AsmTerm]), FormFault>
    ensures { Gives headed_seen result (header_in (is_among (keys_in forms.now)) forms.now) }
{
    let keys = keys_of(alloc, forms)?;
    header_of(alloc, &keys, forms)
}

/// The exports of a header, none where there was no such form.
fn exports_in(alloc: Global, header: Header) -> Items<(Text, u8)>
    ensures { result ≡ unwrap_or header.exports [] }
{
    header.exports.unwrap_or(Items::new(alloc))
}

/// The module that the forms stand for, or the first fault in them.
pub fn module_of(alloc: Global, forms: &[AsmTerm]) -> Result<Module, FormFault>
    ensures { Gives module_parts result (reading forms.now) }
{
    let Some((first, rest)) = forms.split_first() else {
        return Err(FormFault::BadForm { form: 0 });
    };
    let Some(name) = module_name(first) else {
        return Err(FormFault::BadForm { form: 0 });
    };
    let (header, rest) = header_behind(alloc, rest)?;
    let exports = exports_in(alloc, header);
    let functions = functions_of(alloc, rest)?;
    Ok(Module {
        name: name.clone()?,
        exports,
        functions,
    })
}
