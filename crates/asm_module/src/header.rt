//! The header of a module's forms.

ghost use Rattle.std.specs.Prelude.{◌≡◌, List, [], map, Result, Ok, Option, None, Some, option_map, option_and_then, IfOk, unwrap_or};
ghost use Rattle.beam_code.specs.Keys.{Key as NameAndArity, is_among};
ghost use Rattle.asm_module.specs.Terms.{each};
ghost use Rattle.asm_module.specs.Modules as spec;
ghost use Rattle.asm_module.specs.Seen.{Gives, Reads, ReadsAs, header_seen, headed_seen, key_seen, is_held};

use crate::FormFault;
use crate::functions::Key;
use crate::lists::elements_in;
use crate::part_fault::PartFault;
use crate::terms::{atom, behind, is_word, number, pair, tuple};
use beam_code::LAST_COUNT;
use ej_term::{AsmTerm, Text};
use indexmap::IndexSet;
use sqlite_items::Items;
use std::alloc::Global;

/// What came of the header's forms `{exports,L}`, `{attributes,_}` and `{labels,N}`.
#[derive(Drop)]
pub(crate) struct Header {
    pub(crate) exports: Option<Items<(Text, u8)>>,
    pub(crate) attributes: bool,
    pub(crate) labels: bool,
}

/// The name of `{module,M}`, which is not empty.
pub(crate) fn module_name(term: &AsmTerm) -> Option<&Text>
    ensures { option_map (λ name. name.now) result ≡ spec.module_name term.now }
{
    let name = atom(behind("module", term)?)?;
    if is_word(name, "") {
        return None;
    }
    Some(name)
}

/// `{F,A}`.
fn export_key(term: &AsmTerm) -> Option<Key<'_>>
    ensures { option_map key_seen result ≡ spec.export_key term.now }
{
    match tuple(term)? {
        [name, arity] => export_named(name, arity),
        _ => None,
    }
}

fn export_named<'a>(name: &'a AsmTerm, arity: &AsmTerm) -> Option<Key<'a>>
    ensures { option_map key_seen result ≡ spec.export_named name.now arity.now }
{
    let name = atom(name)?;
    let arity = number(255, arity)?;
    Some((name, arity as u8))
}

fn has_function(functions: &IndexSet<Key<'_>>, key: &Key<'_>) -> bool
    ensures { result ≡ is_held functions.now.keys (key_seen key.now) }
{
    functions.contains(key)
}

/// `{F,A}`, where it is one of the functions.
#[tactic(auto, unfolding(crate::specs::Modules::export))]
fn export(functions: &IndexSet<Key<'_>>, term: &AsmTerm) -> Result<(Text, u8), PartFault>
    ensures { Reads result (spec.export (is_held functions.now.keys) term.now) }
{
    let key = export_key(term).ok_or(PartFault::Shape)?;
    if !has_function(functions, &key) {
        return Err(PartFault::Shape);
    }
    let (name, arity) = key;
    Ok((name.clone()?, arity))
}

fn all_exports(
    alloc: Global,
    functions: &IndexSet<Key<'_>>,
    terms: &[AsmTerm],
) -> Result<Items<(Text, u8)>, PartFault>
    ensures { Reads result (each (spec.export (is_held functions.now.keys)) terms.now) }
{
    let mut exports = Items::new(alloc);
    for term in terms {
        exports.push(export(functions, term)?)?;
    }
    Ok(exports)
}

/// The exports, each one of the functions.
#[tactic(auto, unfolding(crate::specs::Modules::exports_of))]
fn exports(
    alloc: Global,
    functions: &IndexSet<Key<'_>>,
    term: &AsmTerm,
) -> Result<Items<(Text, u8)>, PartFault>
    ensures { Reads result (spec.exports_of (is_held functions.now.keys) term.now) }
{
    let terms = elements_in(alloc, term)?;
    all_exports(alloc, functions, terms.as_slice())
}

impl Header {
    fn with_exports(
        self,
        alloc: Global,
        functions: &IndexSet<Key<'_>>,
        term: &AsmTerm,
    ) -> Result<Header, PartFault>
        ensures { ReadsAs header_seen result (spec.with_exports (is_held functions.now.keys) (header_seen self) term.now) }
    {
        if self.exports.is_some() {
            return Err(PartFault::Shape);
        }
        Ok(Header {
            exports: Some(exports(alloc, functions, term)?),
            attributes: self.attributes,
            labels: self.labels,
        })
    }

    fn with_attributes(self) -> Option<Header>
        ensures { option_map header_seen result ≡ spec.with_attributes (header_seen self) }
    {
        if self.attributes {
            return None;
        }
        Some(Header {
            exports: self.exports,
            attributes: true,
            labels: self.labels,
        })
    }

    fn with_labels(self, term: &AsmTerm) -> Option<Header>
        ensures { option_map header_seen result ≡ spec.with_labels (header_seen self) term.now }
    {
        if self.labels {
            return None;
        }
        if number(LAST_COUNT, term).is_none() {
            return None;
        }
        Some(Header {
            exports: self.exports,
            attributes: self.attributes,
            labels: true,
        })
    }

    #[tactic(auto, unfolding(crate::specs::Modules::header_pair))]
    fn with_pair(
        self,
        alloc: Global,
        functions: &IndexSet<Key<'_>>,
        word: &Text,
        term: &AsmTerm,
    ) -> Result<Header, PartFault>
        ensures { ReadsAs header_seen result (spec.header_pair (is_held functions.now.keys) (header_seen self) (word.now, term.now)) }
    {
        if is_word(word, "exports") {
            return self.with_exports(alloc, functions, term);
        }
        if is_word(word, "attributes") {
            return self.with_attributes().ok_or(PartFault::Shape);
        }
        if is_word(word, "labels") {
            return self.with_labels(term).ok_or(PartFault::Shape);
        }
        Err(PartFault::Shape)
    }

    /// The header with a form that did not come yet.
    #[tactic(auto, unfolding(crate::specs::Modules::header_form))]
    fn with_form(
        self,
        alloc: Global,
        functions: &IndexSet<Key<'_>>,
        term: &AsmTerm,
    ) -> Result<Header, PartFault>
        ensures { ReadsAs header_seen result (spec.header_form (is_held functions.now.keys) (header_seen self) term.now) }
    {
        let (word, part) = pair(term).ok_or(PartFault::Shape)?;
        self.with_pair(alloc, functions, word, part)
    }
}

/// The header of the three forms behind the first, and the forms behind it.
#[tactic(auto, unfolding(crate::specs::Modules::header_of))]
pub(crate) fn header_of<'a>(
    alloc: Global,
    functions: &IndexSet<Key<'_>>,
    forms: &'a [AsmTerm],
) -> Result<(Header, &'a [AsmTerm]), FormFault>
    ensures { Gives headed_seen result (spec.header_of (is_held functions.now.keys) forms.now) }
{
    let nothing = Header {
        exports: None,
        attributes: false,
        labels: false,
    };
    let (header, rest) = next_form(alloc, functions, 1, nothing, forms)?;
    let (header, rest) = next_form(alloc, functions, 2, header, rest)?;
    next_form(alloc, functions, 3, header, rest)
}

/// The header with the form of that number, which is the first of these, and the forms behind it.
fn next_form<'a>(
    alloc: Global,
    functions: &IndexSet<Key<'_>>,
    form: usize,
    header: Header,
    forms: &'a [AsmTerm],
) -> Result<(Header, &'a [AsmTerm]), FormFault>
    ensures { Gives headed_seen result (spec.next_form (is_held functions.now.keys) form (header_seen header, forms.now)) }
{
    let Some((first, rest)) = forms.split_first() else {
        return Err(FormFault::BadForm { form });
    };
    match header.with_form(alloc, functions, first) {
        Ok(header) => Ok((header, rest)),
        Err(PartFault::Shape) => Err(FormFault::BadForm { form }),
        Err(PartFault::NoMemory) => Err(FormFault::NoMemory),
    }
}
