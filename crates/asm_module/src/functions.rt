//! Function forms, and the functions behind the header.

ghost use Rattle.std.specs.Prelude.{◌≡◌, not, if◌then◌else◌, List, [], ◌++◌, ◌∷◌, map, Option, option_map, option_and_then, ◌+◌, IfOk, IfErr};
ghost use Rattle.beam_code.specs.Keys.{Key as NameAndArity, is_among};
ghost use Rattle.beam_code.specs.Parts.{function_parts};
ghost use Rattle.ej_term.specs.declared.asm_term.AsmTerm.{AsmTerm as AsmTermOf};
ghost use Rattle.asm_module.specs.Modules as spec;
ghost use Rattle.asm_module.specs.Joined.{from_here};
ghost use Rattle.asm_module.specs.Seen.{Fails, Gives, heading_seen, is_held, key_seen};

use crate::FormFault;
use crate::instruction::instruction;
use crate::terms::{atom, is_word, number, tagged};
use beam_code::{Function, LAST_COUNT};
use ej_term::{AsmTerm, Text};
use indexmap::IndexSet;
use sqlite_items::Items;
use std::alloc::{AllocError, Global};

/// A function's name and arity.
pub(crate) type Key<'a> = (&'a Text, u8);

/// What a function form says: name, arity and entry label.
#[derive(Clone, Copy)]
pub(crate) struct Heading<'a> {
    name: &'a Text,
    arity: u8,
    entry: u32,
}

impl<'a> Heading<'a> {
    pub(crate) fn key(&self) -> Key<'a>
        ensures { key_seen result ≡ spec.key_of (heading_seen self.now) }
    {
        (self.name, self.arity)
    }
}

/// Whether the form is a tuple that begins with the atom `function`.
fn is_function(term: &AsmTerm) -> bool
    ensures { result ≡ spec.is_function term.now }
{
    match tagged(term) {
        Some((word, _)) => is_word(word, "function"),
        None => false,
    }
}

/// `{function,F,A,Entry}`.
pub(crate) fn function_form(term: &AsmTerm) -> Option<Heading<'_>>
    ensures { option_map heading_seen result ≡ spec.heading term.now }
{
    let (word, parts) = tagged(term)?;
    if !is_word(word, "function") {
        return None;
    }
    match parts {
        [name, arity, entry] => heading_of(name, arity, entry),
        _ => None,
    }
}

fn heading_of<'a>(name: &'a AsmTerm, arity: &AsmTerm, entry: &AsmTerm) -> Option<Heading<'a>>
    ensures { option_map heading_seen result ≡ spec.heading_of name.now arity.now entry.now }
{
    let name = atom(name)?;
    let arity = number(255, arity)?;
    let entry = number(LAST_COUNT, entry)?;
    Some(Heading {
        name,
        arity: arity as u8,
        entry,
    })
}

/// Puts a key behind those of the set, and tells whether it was none of them.
pub(crate) fn add_key<'a>(keys: &mut IndexSet<Key<'a>>, key: Key<'a>) -> Result<bool, AllocError>
    ensures told { IfOk result (λ new. new ≡ not (is_held keys.old.keys (key_seen key.entry))) }
    ensures put { IfOk result (λ new. map key_seen keys.new.keys ≡ (if new then map key_seen keys.old.keys ++ key_seen key.entry ∷ [] else map key_seen keys.old.keys)) }
{
    Ok(keys.insert(key)?)
}

/// The function that a form begins, which none of those keys is; puts its key to them.
fn begin<'a>(
    alloc: Global,
    keys: &mut IndexSet<Key<'a>>,
    form: usize,
    term: &'a AsmTerm,
) -> Result<Function, FormFault>
    ensures function { Gives function_parts result (spec.empty_function (map key_seen keys.old.keys) form term.now) }
    ensures empty { IfOk result (λ f. f.code ≡ []) }
    ensures keys { IfOk result (λ f. map key_seen keys.new.keys ≡ map key_seen keys.old.keys ++ (f.name, f.arity) ∷ []) }
{
    let Some(heading) = function_form(term) else {
        return Err(FormFault::BadForm { form });
    };
    if !add_key(keys, heading.key())? {
        return Err(FormFault::BadForm { form });
    }
    Ok(Function {
        name: heading.name.clone()?,
        arity: heading.arity,
        entry: heading.entry,
        code: Items::new(alloc),
    })
}

/// Reads the next form: puts its instruction behind the last function, or the last function behind those that are
/// whole. Gives the function that is then the last.
fn next_function<'a>(
    alloc: Global,
    keys: &mut IndexSet<Key<'a>>,
    whole: &mut Items<Function>,
    last: Function,
    form: usize,
    term: &'a AsmTerm,
) -> Result<Function, FormFault>
    ensures read { IfOk result (λ next. (forms : List AsmTermOf) → from_here (map key_seen keys.old.keys) whole.old last form (term.now ∷ forms) ≡ from_here (map key_seen keys.new.keys) whole.new next (form + 1) forms) }
    ensures refused { IfErr result (λ fault. (forms : List AsmTermOf) → Fails fault (from_here (map key_seen keys.old.keys) whole.old last form (term.now ∷ forms))) }
{
    let mut last = last;
    if is_function(term) {
        whole.push(last)?;
        match begin(alloc, keys, form, term) {
            Ok(next) => return Ok(next),
            Err(fault) => return Err(fault),
        }
    }
    match instruction(alloc, whole.len(), last.code.len(), term) {
        Ok(instr) => {
            last.code.push(instr)?;
            Ok(last)
        }
        Err(fault) => Err(fault),
    }
}

/// The functions of the forms behind the header.
pub(crate) fn functions_of(alloc: Global, forms: &[AsmTerm]) -> Result<Items<Function>, FormFault>
    ensures { Gives (map function_parts) result (spec.functions_of forms.now) }
{
    let Some((first, rest)) = forms.split_first() else {
        return Err(FormFault::BadForm { form: 4 });
    };
    let mut keys: IndexSet<Key<'_>> = IndexSet::new(alloc);
    let mut whole = Items::new(alloc);
    let mut last = begin(alloc, &mut keys, 4, first)?;
    for (at, term) in rest.iter().enumerate() {
        match next_function(alloc, &mut keys, &mut whole, last, at + 5, term) {
            Ok(next) => last = next,
            Err(fault) => return Err(fault),
        }
    }
    whole.push(last)?;
    Ok(whole)
}
