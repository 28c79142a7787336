//! What builtin functions, tests and the order of terms give, row by row.

ghost use Rattle.std.specs.Prelude.{◌≡◌, IfOk, IfSome};
ghost use Rattle.ej_term.specs.Builtins.{is_pure};
ghost use Rattle.ej_term.specs.Tests.{is_test};
ghost use Rattle.term_heap.specs.View.{Holds, Keeps};
ghost use Rattle.term_heap.specs.Held.{HoldsEach};
ghost use Rattle.term_ops.specs.Answers.{HoldsAnswer};

use crate::cases::{BUILTINS, ORDER, TESTS};
use asm_terms::read_forms;
use ej_term::{AsmTerm, Builtin, Class3, Test};
use std::alloc::{AllocError, Global};
use std::cmp::Ordering;
use std::test::Fail;
use term_heap::{Heap, TermId};
use term_ops::{PureAnswer, compare, pure, test};

/// What a row is of.
#[derive(Clone, Copy, Debug)]
enum Kind {
    Builtins,
    Tests,
    Order,
}

/// Whether a builtin function of this number takes so many arguments.
fn is_builtin(number: u16, count: usize) -> bool
    ensures { result ≡ is_pure number count }
{
    match Builtin::numbered(number) {
        Some(builtin) => builtin.takes(count),
        None => false,
    }
}

/// Whether a test of this number is of so many terms.
fn is_test(number: u16, count: usize) -> bool
    ensures { result ≡ is_test number count }
{
    match Test::numbered(number) {
        Some(test) => test.takes(count),
        None => false,
    }
}

/// What the builtin function of this number gives, or none where there is none of so many arguments.
fn gives(
    alloc: Global,
    heap: &mut Heap,
    number: u16,
    args: &[TermId],
) -> Result<Option<PureAnswer>, AllocError>
    requires { HoldsEach heap.old args.now }
    ensures keeps { Keeps heap.old heap.new }
    ensures answer { IfOk result (λ answer. IfSome answer (λ answer. HoldsAnswer heap.new answer)) }
{
    if !is_builtin(number, args.len()) {
        return Ok(None);
    }
    let answer = pure(alloc, heap, number, args)?;
    Ok(Some(answer))
}

/// What the test of this number says, or none where there is none of so many terms.
fn says(
    alloc: Global,
    heap: &Heap,
    number: u16,
    args: &[TermId],
) -> Result<Option<&'static str>, AllocError>
    requires { HoldsEach heap.now args.now }
{
    if !is_test(number, args.len()) {
        return Ok(None);
    }
    if test(alloc, heap, number, args)? {
        Ok(Some("true"))
    } else {
        Ok(Some("false"))
    }
}

/// How two terms are ordered, or none where there are not two.
fn placed(alloc: Global, heap: &Heap, args: &[TermId]) -> Result<Option<&'static str>, AllocError>
    requires { HoldsEach heap.now args.now }
{
    let [a, b] = args else {
        return Ok(None);
    };
    match compare(alloc, heap, *a, *b)? {
        Ordering::Less => Ok(Some("less")),
        Ordering::Equal => Ok(Some("equal")),
        Ordering::Greater => Ok(Some("greater")),
    }
}

/// The atom of this name as a value, where there is one.
fn named(heap: &mut Heap, name: Option<&str>) -> Result<Option<PureAnswer>, AllocError>
    ensures keeps { Keeps heap.old heap.new }
    ensures answer { IfOk result (λ answer. IfSome answer (λ answer. HoldsAnswer heap.new answer)) }
{
    match name {
        Some(name) => Ok(Some(PureAnswer::Value(heap.atom(name)?))),
        None => Ok(None),
    }
}

/// What comes of these arguments.
fn given(
    alloc: Global,
    heap: &mut Heap,
    kind: Kind,
    number: u16,
    args: &[TermId],
) -> Result<Option<PureAnswer>, AllocError>
    requires { HoldsEach heap.old args.now }
    ensures keeps { Keeps heap.old heap.new }
    ensures answer { IfOk result (λ answer. IfSome answer (λ answer. HoldsAnswer heap.new answer)) }
{
    match kind {
        Kind::Builtins => gives(alloc, heap, number, args),
        Kind::Tests => {
            let said = says(alloc, heap, number, args)?;
            named(heap, said)
        }
        Kind::Order => {
            let said = placed(alloc, heap, args)?;
            named(heap, said)
        }
    }
}

/// Whether the answer is `value` or the class of that name, with that term.
fn is_answer(
    alloc: Global,
    heap: &Heap,
    answer: PureAnswer,
    name: &str,
    term: TermId,
) -> Result<bool, AllocError>
    requires answer { HoldsAnswer heap.now answer }
    requires term { Holds heap.now term }
{
    let (said, id) = match answer {
        PureAnswer::Value(id) => ("value", id),
        PureAnswer::Raised(raised) => (class_name(raised.class), raised.reason),
    };
    Ok(said == name && compare(alloc, heap, id, term)? == Ordering::Equal)
}

fn class_name(class: Class3) -> &'static str {
    match class {
        Class3::Error => "error",
        Class3::Exit => "exit",
        Class3::Throw => "throw",
    }
}

/// The terms of a list, or none where one of them is not loaded.
#[tactic(auto, using(crate::proofs::HeldEach::held_behind, crate::proofs::HeldEach::kept_twice))]
fn load_each(
    alloc: Global,
    heap: &mut Heap,
    terms: &[AsmTerm],
) -> Result<Option<Vec<TermId>>, AllocError>
    ensures keeps { Keeps heap.old heap.new }
    ensures held { IfOk result (λ found. IfSome found (λ ids. HoldsEach heap.new ids.items)) }
{
    let mut ids = Vec::new(alloc);
    for term in terms {
        let Ok(id) = heap.load(term) else {
            return Ok(None);
        };
        ids.push(id)?;
    }
    Ok(Some(ids))
}

/// Whether a row holds: a number, arguments, `value` or a class, and a term.
fn holds(alloc: Global, kind: Kind, row: &AsmTerm) -> Result<bool, AllocError> {
    let AsmTerm::Tuple(parts) = row else {
        return Ok(false);
    };
    match parts.as_slice() {
        [
            AsmTerm::Int(number),
            AsmTerm::List(args, None),
            AsmTerm::Atom(name),
            term,
        ] => {
            let number = u16::try_from(*number).unwrap_or(0);
            is_given(alloc, kind, number, args.as_slice(), (name.as_str(), term))
        }
        _ => Ok(false),
    }
}

/// Whether of a number and arguments comes what is expected.
#[tactic(auto, using(crate::proofs::HeldEach::kept))]
fn is_given(
    alloc: Global,
    kind: Kind,
    number: u16,
    args: &[AsmTerm],
    expected: (&str, &AsmTerm),
) -> Result<bool, AllocError> {
    let mut heap = Heap::new(alloc);
    let Ok(term) = heap.load(expected.1) else {
        return Ok(false);
    };
    let Some(args) = load_each(alloc, &mut heap, args)? else {
        return Ok(false);
    };
    let Some(answer) = given(alloc, &mut heap, kind, number, &args)? else {
        return Ok(false);
    };
    is_answer(alloc, &heap, answer, expected.0, term)
}

#[test]
fn each_row_holds(rt: HostRuntime) -> Result<(), Fail> {
    let tables = [
        (Kind::Builtins, BUILTINS, 1192),
        (Kind::Tests, TESTS, 400),
        (Kind::Order, ORDER, 150),
    ];
    for (kind, text, count) in tables {
        let rows = read_forms(rt.alloc(), text.as_bytes()).unwrap_or(Vec::new(rt.alloc()));
        assert_eq!(rt; rows.len(), count);
        for row in rows.iter() {
            assert!(rt; holds(rt.alloc(), kind, row)?, "{row:?}");
        }
    }
    Ok(())
}
