//! The terms in a source's term, as a list.

ghost use Rattle.std.specs.Prelude.{◌≡◌, [], ◌∷◌, ◌++◌, map, option_map, false, IfOk, OnOk};
ghost use Rattle.std.specs.List.{list_any};
ghost use Rattle.ej_term.specs.AsmValue.{value, has_opaque};
ghost use Rattle.term_heap.specs.Preorder.{flat, inner, evaluated, one, RefusesOpaque};

use crate::load::LoadFault;
use ej_term::AsmTerm;
use std::alloc::{AllocError, Global};

/// The terms in a term, itself the first, each in front of its parts. It holds no stack for the term's depth.
///
/// # Errors
/// `Opaque` where an opaque token is in the term.
pub(crate) fn preorder<'a>(alloc: Global, t: &'a AsmTerm) -> Result<Vec<&'a AsmTerm>, LoadFault>
    ensures terms { IfOk result (λ order. evaluated (map (λ x. x.now) order.items) [] ≡ option_map one (value t.now)) }
    ensures plain { OnOk result (has_opaque t.now ≡ false) }
    ensures opaque { RefusesOpaque result t.now }
{
    let mut order = Vec::new(alloc);
    let mut pending = Vec::new(alloc);
    push_term(&mut pending, t)?;
    while let Some(term) = pending.pop() {
        push_inner(&mut pending, term)?;
        push_term(&mut order, term)?;
    }
    Ok(order)
}

/// Appends the parts of a term.
///
/// # Errors
/// `Opaque` where it is an opaque token.
#[tactic(auto, using(crate::proofs::Layers::inner_cases, crate::proofs::Layers::opaque_parts))]
fn push_inner<'a>(pending: &mut Vec<&'a AsmTerm>, term: &'a AsmTerm) -> Result<(), LoadFault>
    ensures parts { OnOk result (map (λ x. x.now) pending.new.items ≡ map (λ x. x.now) pending.old.items ++ inner term.now) }
    ensures plain { OnOk result (has_opaque term.now ≡ list_any has_opaque (inner term.now)) }
    ensures opaque { RefusesOpaque result term.now }
{
    match term {
        AsmTerm::List(parts, None) => push_each(pending, parts.as_slice())?,
        AsmTerm::List(parts, Some(tail)) => {
            push_term(pending, tail.get())?;
            push_each(pending, parts.as_slice())?;
        }
        AsmTerm::Tuple(parts) => push_each(pending, parts.as_slice())?,
        AsmTerm::Map(pairs) => push_pairs(pending, pairs.as_slice())?,
        AsmTerm::Opaque(_) => return Err(LoadFault::Opaque),
        _ => {}
    }
    Ok(())
}

/// Appends a term.
fn push_term<'a>(terms: &mut Vec<&'a AsmTerm>, term: &'a AsmTerm) -> Result<(), AllocError>
    ensures { OnOk result (map (λ x. x.now) terms.new.items ≡ map (λ x. x.now) terms.old.items ++ term.now ∷ []) }
{
    terms.push(term)?;
    Ok(())
}

/// Appends these terms.
fn push_each<'a>(pending: &mut Vec<&'a AsmTerm>, terms: &'a [AsmTerm]) -> Result<(), AllocError>
    ensures { OnOk result (map (λ x. x.now) pending.new.items ≡ map (λ x. x.now) pending.old.items ++ terms.now) }
{
    for term in terms {
        pending.push(term)?;
    }
    Ok(())
}

/// Appends the key and the value of each pair.
fn push_pairs<'a>(
    pending: &mut Vec<&'a AsmTerm>,
    pairs: &'a [(AsmTerm, AsmTerm)],
) -> Result<(), AllocError>
    ensures { OnOk result (map (λ x. x.now) pending.new.items ≡ map (λ x. x.now) pending.old.items ++ flat pairs.now) }
{
    for (key, value) in pairs {
        push_term(pending, key)?;
        push_term(pending, value)?;
    }
    Ok(())
}
