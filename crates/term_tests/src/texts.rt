//! Texts and terms of a source: what they keep, and what is equal.

use ej_term::{AsmTerm, Text};
use sqlite_items::{Boxed, Items};
use std::alloc::{AllocError, Global};
use std::hash::{DefaultHasher, Hash, Hasher};
use std::test::Fail;

fn hash_of(text: &Text) -> u64 {
    let mut state = DefaultHasher::new();
    text.hash(&mut state);
    state.finish()
}

#[test]
fn keeps_its_characters(rt: HostRuntime) -> Result<(), Fail> {
    for s in ["", "m", "a b", "\u{e9}\u{10ffff}"] {
        let text = Text::make(rt.alloc(), s)?;
        assert_eq!(rt; text.as_str(), s);
        let copy = text.clone()?;
        assert!(rt; copy == text, "{s}");
        assert_eq!(rt; hash_of(&copy), hash_of(&text));
    }
    let one = Text::make(rt.alloc(), "ab")?;
    let other = Text::make(rt.alloc(), "ba")?;
    assert!(rt; one != other);
    Ok(())
}

fn one(alloc: Global) -> Result<Items<AsmTerm>, AllocError> {
    let mut parts = Items::new(alloc);
    parts.push(AsmTerm::Int(97))?;
    Ok(parts)
}

// a map of one pair
fn map(alloc: Global, key: i64, value: i64) -> Result<AsmTerm, AllocError> {
    let mut pairs = Items::new(alloc);
    pairs.push((AsmTerm::Int(key), AsmTerm::Int(value)))?;
    Ok(AsmTerm::Map(pairs))
}

// a term of each kind, and more that differ in one place, no two of them the same
fn kinds(alloc: Global) -> Result<Items<AsmTerm>, AllocError> {
    let mut terms = one(alloc)?;
    terms.push(AsmTerm::Atom(Text::make(alloc, "a")?))?;
    terms.push(AsmTerm::Str(Items::from_slice(alloc, &[97])?))?;
    terms.push(AsmTerm::List(one(alloc)?, None))?;
    terms.push(AsmTerm::List(one(alloc)?, Some(Boxed::new(alloc, AsmTerm::Int(97))?)))?;
    terms.push(AsmTerm::Tuple(one(alloc)?))?;
    let mut pairs = Items::new(alloc);
    pairs.push((AsmTerm::Int(97), AsmTerm::Pid(0, 1)))?;
    terms.push(AsmTerm::Map(pairs))?;
    terms.push(AsmTerm::ExtFun(Text::make(alloc, "m")?, Text::make(alloc, "f")?, 2))?;
    terms.push(AsmTerm::Pid(0, 1))?;
    terms.push(AsmTerm::Ref(0, 1))?;
    terms.push(AsmTerm::Opaque(Text::make(alloc, "a")?))?;
    for (key, value) in [(1, 2), (1, 3), (2, 2)] {
        terms.push(map(alloc, key, value)?)?;
    }
    terms.push(AsmTerm::Tuple(Items::new(alloc)))?;
    terms.push(AsmTerm::Map(Items::new(alloc)))?;
    Ok(terms)
}

#[test]
fn copies_are_the_same(rt: HostRuntime) -> Result<(), Fail> {
    let terms = kinds(rt.alloc())?;
    for (at, term) in terms.as_slice().iter().enumerate() {
        let copy = term.copy(rt.alloc())?;
        assert_eq!(rt; copy.has_opaque(), at == 10);
        for (other_at, other) in terms.as_slice().iter().enumerate() {
            assert_eq!(rt; copy.is_same(other), at == other_at);
        }
    }
    Ok(())
}
