//! Loading source terms that are nested deep. They are never dropped, since that goes as deep as they are nested.

use ej_term::{AsmTerm, Text};
use sqlite_items::{Boxed, Items};
use std::alloc::{AllocError, Global};
use std::mem::ManuallyDrop;
use std::test::Fail;
use term_heap::{Heap, LoadFault};

/// How often three terms are nested in one another.
const DEPTH: usize = 40_000;

// `{[#{1=>..}|2]}`, with the last of these in place of the dots, and so on
fn nested(alloc: Global, last: AsmTerm) -> Result<AsmTerm, AllocError> {
    let mut term = last;
    for _ in 0..DEPTH {
        term = around(alloc, term)?;
    }
    Ok(term)
}

// `{[#{1=>..}|2]}` with this term in place of the dots
fn around(alloc: Global, term: AsmTerm) -> Result<AsmTerm, AllocError> {
    let mut pairs = Items::new(alloc);
    pairs.push((AsmTerm::Int(1), term))?;
    let mut elements = Items::new(alloc);
    elements.push(AsmTerm::Map(pairs))?;
    let mut parts = Items::new(alloc);
    parts.push(AsmTerm::List(elements, Some(Boxed::new(alloc, AsmTerm::Int(2))?)))?;
    Ok(AsmTerm::Tuple(parts))
}

#[test]
fn a_source_nested_deep_is_loaded(rt: HostRuntime) -> Result<(), Fail> {
    let alloc = rt.alloc();
    let mut heap = Heap::new(alloc);
    let source = ManuallyDrop::new(nested(alloc, AsmTerm::Int(7))?);
    assert!(rt; heap.load(&source).is_ok());
    Ok(())
}

#[test]
fn an_opaque_token_deep_inside_leaves_the_heap_as_it_was(rt: HostRuntime) -> Result<(), Fail> {
    let alloc = rt.alloc();
    let mut heap = Heap::new(alloc);
    let opaque = AsmTerm::Opaque(Text::make(alloc, "1.0")?);
    let source = ManuallyDrop::new(nested(alloc, opaque)?);
    assert!(rt; heap.load(&source) == Err(LoadFault::Opaque));
    let mut other = Heap::new(alloc);
    // an integer that is made again each time has the same id as in a heap to which nothing was added
    assert!(rt; heap.int(5_000)? == other.int(5_000)?);
    Ok(())
}
