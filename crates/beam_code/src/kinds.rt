//! Lists of kinds.

ghost use Rattle.std.specs.Prelude.{◌≡◌, ◌<◌, ◌≤◌, [], ◌∷◌, ◌++◌, ◌-◌, take, drop, length as length_of, replicate, true, false, slice_set, cond, nat_lt, IfOk, OnErr, OnOk};
ghost use Rattle.beam_code.specs.declared.kind.Kind.TheVariants.{Undefined, Term};
ghost use Rattle.beam_code.specs.Kinds.{IsFront, first_tag as labels_of_first, put_at};
ghost use Rattle.beam_code.specs.SlotForm.{ends_undefined as is_undefined_last};
ghost use Rattle.beam_code.specs.Slots.{listed};

use crate::Kind;
use sqlite_items::Items;
use std::alloc::{AllocError, Global};

/// That many terms.
pub(crate) fn terms(alloc: Global, count: usize) -> Result<Items<Kind>, AllocError>
    ensures { IfOk result (λ kinds. kinds ≡ replicate count Term) }
{
    let mut kinds = Items::new(alloc);
    for _ in 0..count {
        kinds.push(Kind::Term)?;
    }
    Ok(kinds)
}

/// That many undefined ones.
pub(crate) fn undefined(alloc: Global, count: usize) -> Result<Items<Kind>, AllocError>
    ensures { IfOk result (λ kinds. kinds ≡ replicate count Undefined) }
{
    let mut kinds = Items::new(alloc);
    for _ in 0..count {
        kinds.push(Kind::Undefined)?;
    }
    Ok(kinds)
}

/// The same kinds.
pub(crate) fn copies(alloc: Global, kinds: &[Kind]) -> Result<Items<Kind>, AllocError>
    ensures { IfOk result (λ copies. copies ≡ kinds.now) }
{
    let mut copies = Items::new(alloc);
    for kind in kinds {
        copies.push(kind.copy(alloc)?)?;
    }
    Ok(copies)
}

/// The labels of the first tag.
pub(crate) fn first_tag(kinds: &[Kind]) -> &[u32]
    ensures { result.now ≡ labels_of_first kinds.now }
{
    for kind in kinds {
        if let Kind::Tag(labels) = kind {
            return labels.as_slice();
        }
    }
    &[]
}

/// Puts a kind at a place, with undefined ones before it where the list is shorter. Where memory is wanting no kinds are
/// left.
pub(crate) fn put(kinds: &mut Items<Kind>, at: usize, kind: Kind) -> Result<(), AllocError>
    ensures ok { OnOk result (kinds.new ≡ put_at kinds.old at kind) }
    ensures err { OnErr result (kinds.new ≡ []) }
{
    if at < kinds.len() {
        kinds.set(at, kind);
        return Ok(());
    }
    match put_behind(kinds, at, kind) {
        Ok(()) => Ok(()),
        Err(error) => {
            shorten(kinds, 0);
            Err(error)
        }
    }
}

// Puts a kind at a place at or behind the end.
fn put_behind(kinds: &mut Items<Kind>, at: usize, kind: Kind) -> Result<(), AllocError>
    requires { length_of kinds.old ≤ at }
    ensures { OnOk result (kinds.new ≡ kinds.old ++ replicate (at - length_of kinds.old) Undefined ++ kind ∷ []) }
{
    lengthen(kinds, at)?;
    kinds.push(kind)
}

/// Undefined ones at the end, up to a length.
pub(crate) fn lengthen(kinds: &mut Items<Kind>, length: usize) -> Result<(), AllocError>
    requires { length_of kinds.old ≤ length }
    ensures { OnOk result (kinds.new ≡ kinds.old ++ replicate (length - length_of kinds.old) Undefined) }
{
    for _ in kinds.len()..length {
        kinds.push(Kind::Undefined)?;
    }
    Ok(())
}

/// The first ones, of a number.
pub(crate) fn shorten(kinds: &mut Items<Kind>, length: usize)
    ensures { kinds.new ≡ take length kinds.old }
{
    while kinds.len() > length {
        let _ = kinds.pop();
    }
}

/// Without the undefined ones at the end.
pub(crate) fn trim(kinds: &mut Items<Kind>)
    ensures end { is_undefined_last kinds.new ≡ false }
    ensures front { IsFront kinds.new kinds.old }
    ensures same { listed kinds.new ≡ listed kinds.old }
{
    while ends_undefined(kinds) {
        let _ = kinds.pop();
    }
}

fn ends_undefined(kinds: &Items<Kind>) -> bool
    ensures { result ≡ is_undefined_last kinds.now }
{
    if kinds.is_empty() {
        return false;
    }
    match kinds.get(kinds.len() - 1) {
        Some(kind) => matches!(kind, Kind::Undefined),
        None => false,
    }
}

/// Without the first ones, of a number.
pub(crate) fn behead(kinds: &mut Items<Kind>, count: usize)
    requires { count ≤ length_of kinds.old }
    ensures { kinds.new ≡ drop count kinds.old }
{
    for _ in 0..count {
        let _ = kinds.remove(0);
    }
}
