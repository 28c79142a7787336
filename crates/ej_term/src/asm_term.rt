//! Terms as a source text writes them.

ghost use Rattle.std.specs.Prelude.{◌≡◌, ◌↔◌, IsTrue, IfOk};
ghost use Rattle.std.specs.List.{list_any};
ghost use Rattle.ej_term.specs.AsmValue.{has_opaque as holds_opaque};
ghost use Rattle.ej_term.specs.AsmValue.{pair_opaque, tail_opaque};

use crate::Text;
use sqlite_items::{Boxed, Items};
use std::alloc::{AllocError, Global};

/// A term, token by token: a string stays a string, a map keeps the order of its pairs, and what no
/// instruction may hold stays as it was spelled.
#[derive(Debug, Drop)]
pub enum AsmTerm {
    /// An integer of 64 bits.
    Int(i64),
    /// An atom.
    Atom(Text),
    /// A string, by its characters.
    Str(Items<u32>),
    /// A list of these elements, with an improper tail or none.
    List(Items<AsmTerm>, Option<Boxed<AsmTerm>>),
    /// A tuple.
    Tuple(Items<AsmTerm>),
    /// A map, as pairs of key and value in the order of the text.
    Map(Items<(AsmTerm, AsmTerm)>),
    /// An external fun: module, name and arity.
    ExtFun(Text, Text, u8),
    /// A pid: node and number.
    Pid(u32, u64),
    /// A reference: node and number.
    Ref(u32, u64),
    /// A token outside the profile (a float, a binary, an integer of more than 64 bits), as it was spelled.
    Opaque(Text),
}

impl AsmTerm {
    /// The same term.
    #[cycle(copy)]
    pub fn copy(&self, alloc: Global) -> Result<AsmTerm, AllocError>
        ensures { IfOk result (λ term. term ≡ self.now) }
    {
        match self {
            AsmTerm::Int(n) => Ok(AsmTerm::Int(*n)),
            AsmTerm::Atom(name) => Ok(AsmTerm::Atom(name.clone()?)),
            AsmTerm::Str(characters) => Ok(AsmTerm::Str(Items::from_slice(
                alloc,
                characters.as_slice(),
            )?)),
            AsmTerm::List(parts, None) => Ok(AsmTerm::List(
                copy_all(alloc, parts.as_slice())?,
                None,
            )),
            AsmTerm::List(parts, Some(tail)) => {
                let parts = copy_all(alloc, parts.as_slice())?;
                let tail = Boxed::new(alloc, tail.get().copy(alloc)?)?;
                Ok(AsmTerm::List(parts, Some(tail)))
            }
            AsmTerm::Tuple(parts) => Ok(AsmTerm::Tuple(copy_all(alloc, parts.as_slice())?)),
            AsmTerm::Map(pairs) => Ok(AsmTerm::Map(copy_pairs(alloc, pairs.as_slice())?)),
            AsmTerm::ExtFun(module, name, arity) => Ok(AsmTerm::ExtFun(
                module.clone()?,
                name.clone()?,
                *arity,
            )),
            AsmTerm::Pid(node, number) => Ok(AsmTerm::Pid(*node, *number)),
            AsmTerm::Ref(node, number) => Ok(AsmTerm::Ref(*node, *number)),
            AsmTerm::Opaque(spelling) => Ok(AsmTerm::Opaque(spelling.clone()?)),
        }
    }

    /// Whether an opaque token is in the term.
    #[cycle(has_opaque)]
    #[tactic(auto, using(crate::proofs::OpaqueLemmas::opaque_cases))]
    pub fn has_opaque(&self) -> bool
        ensures { result ≡ holds_opaque self.now }
    {
        match self {
            AsmTerm::List(parts, tail) => any_opaque(parts.as_slice()) || opaque_tail(tail),
            AsmTerm::Tuple(parts) => any_opaque(parts.as_slice()),
            AsmTerm::Map(pairs) => any_pair_opaque(pairs.as_slice()),
            AsmTerm::Opaque(_) => true,
            _ => false,
        }
    }

    /// Whether the terms are the same, token by token: a string is not the list of its characters, and pairs
    /// in another order are another map.
    #[cycle(is_same)]
    pub fn is_same(&self, other: &AsmTerm) -> bool
        ensures { IsTrue result ↔ (self.now ≡ other.now) }
    {
        match self {
            AsmTerm::Int(n) => matches!(other, AsmTerm::Int(m) if n == m),
            AsmTerm::Atom(name) => matches!(other, AsmTerm::Atom(that) if name == that),
            AsmTerm::Str(characters) => match other {
                AsmTerm::Str(those) => characters.as_slice() == those.as_slice(),
                _ => false,
            },
            AsmTerm::List(parts, tail) => match other {
                AsmTerm::List(those, that) => all_same(parts.as_slice(), those.as_slice())
                    && same_tail(tail, that),
                _ => false,
            },
            AsmTerm::Tuple(parts) => match other {
                AsmTerm::Tuple(those) => all_same(parts.as_slice(), those.as_slice()),
                _ => false,
            },
            AsmTerm::Map(pairs) => match other {
                AsmTerm::Map(those) => same_pairs(pairs.as_slice(), those.as_slice()),
                _ => false,
            },
            AsmTerm::ExtFun(module, name, arity) => match other {
                AsmTerm::ExtFun(m, f, a) => module == m && name == f && arity == a,
                _ => false,
            },
            AsmTerm::Pid(node, number) =>
                matches!(other, AsmTerm::Pid(n, k) if node == n && number == k),
            AsmTerm::Ref(node, number) =>
                matches!(other, AsmTerm::Ref(n, k) if node == n && number == k),
            AsmTerm::Opaque(spelling) => matches!(other, AsmTerm::Opaque(that) if spelling == that),
        }
    }
}

/// The same terms.
#[cycle(copy)]
fn copy_all(alloc: Global, terms: &[AsmTerm]) -> Result<Items<AsmTerm>, AllocError>
    ensures { IfOk result (λ copies. copies ≡ terms.now) }
{
    let mut copies = Items::new(alloc);
    for term in terms {
        copies.push(term.copy(alloc)?)?;
    }
    Ok(copies)
}

/// The same pairs.
#[cycle(copy)]
fn copy_pairs(
    alloc: Global,
    pairs: &[(AsmTerm, AsmTerm)],
) -> Result<Items<(AsmTerm, AsmTerm)>, AllocError>
    ensures { IfOk result (λ copies. copies ≡ pairs.now) }
{
    let mut copies = Items::new(alloc);
    for (key, value) in pairs {
        copies.push((key.copy(alloc)?, value.copy(alloc)?))?;
    }
    Ok(copies)
}

/// Whether an opaque token is in the tail.
#[cycle(has_opaque)]
fn opaque_tail(tail: &Option<Boxed<AsmTerm>>) -> bool
    ensures { result ≡ tail_opaque tail.now }
{
    match tail {
        None => false,
        Some(term) => term.get().has_opaque(),
    }
}

/// Whether an opaque token is in one of the terms.
#[cycle(has_opaque)]
fn any_opaque(terms: &[AsmTerm]) -> bool
    ensures { result ≡ list_any holds_opaque terms.now }
{
    for term in terms {
        if term.has_opaque() {
            return true;
        }
    }
    false
}

/// Whether an opaque token is in one of the pairs.
#[cycle(has_opaque)]
fn any_pair_opaque(pairs: &[(AsmTerm, AsmTerm)]) -> bool
    ensures { result ≡ list_any pair_opaque pairs.now }
{
    for (key, value) in pairs {
        if key.has_opaque() || value.has_opaque() {
            return true;
        }
    }
    false
}

/// Whether the tails are the same.
#[cycle(is_same)]
fn same_tail(tail: &Option<Boxed<AsmTerm>>, other: &Option<Boxed<AsmTerm>>) -> bool
    ensures { IsTrue result ↔ (tail.now ≡ other.now) }
{
    match (tail, other) {
        (None, None) => true,
        (Some(a), Some(b)) => a.get().is_same(b.get()),
        _ => false,
    }
}

/// Whether the terms are the same, one by one.
#[cycle(is_same)]
fn all_same(terms: &[AsmTerm], others: &[AsmTerm]) -> bool
    ensures { IsTrue result ↔ (terms.now ≡ others.now) }
{
    if terms.len() != others.len() {
        return false;
    }
    for (at, term) in terms.iter().enumerate() {
        if !term.is_same(&others[at]) {
            return false;
        }
    }
    true
}

/// Whether the pairs are the same, one by one.
#[cycle(is_same)]
fn same_pairs(pairs: &[(AsmTerm, AsmTerm)], others: &[(AsmTerm, AsmTerm)]) -> bool
    ensures { IsTrue result ↔ (pairs.now ≡ others.now) }
{
    if pairs.len() != others.len() {
        return false;
    }
    for (at, (key, value)) in pairs.iter().enumerate() {
        let (other_key, other_value) = &others[at];
        if !key.is_same(other_key) {
            return false;
        }
        if !value.is_same(other_value) {
            return false;
        }
    }
    true
}
