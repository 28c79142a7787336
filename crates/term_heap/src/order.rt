//! The order of terms, by their ids.

ghost use Rattle.std.specs.Prelude.{◌≡◌, ◌++◌, IsSome, IfOk};
ghost use Rattle.std.specs.Str.{chars};
ghost use Rattle.ej_term.specs.Order as order;
ghost use Rattle.term_heap.specs.View.{terms_in, parts_in, texts_in, Holds, term_of, cell_term, Keeps};
ghost use Rattle.term_heap.specs.Works.{kind, opened, runs, IsWork, Stepped};

use crate::cell::{Cell, TermId};
use crate::heap::Heap;
use crate::work::Work;
use std::alloc::{AllocError, Global};
use std::cmp::Ordering;

/// The order of two terms (Erlang Reference Manual, "Term Comparisons"):
/// number < atom < reference < fun < pid < tuple < map < nil < list.
///
/// It goes through both terms at once, by a list of what is still to be compared, and stops at the first
/// difference. Equal ids and equal runs of parts are not gone through, so terms that share parts cost what differs
/// in them; two terms without parts take no memory.
pub fn compare(alloc: Global, heap: &Heap, a: TermId, b: TermId) -> Result<Ordering, AllocError>
    requires first { Holds heap.now a }
    requires second { Holds heap.now b }
    ensures { IfOk result (λ o. o ≡ order.compare (term_of heap.now a) (term_of heap.now b)) }
{
    let mut pending = Vec::new(alloc);
    let mut next = Some(Work::Terms(a, b));
    while let Some(work) = next {
        match step(heap, &mut pending, work)? {
            Ordering::Equal => next = pending.pop(),
            ordering => return Ok(ordering),
        }
    }
    Ok(Ordering::Equal)
}

/// Compares the heads of what was to be compared, and appends what is to be compared behind them.
fn step(heap: &Heap, pending: &mut Vec<Work>, work: Work) -> Result<Ordering, AllocError>
    requires { IsWork (parts_in heap.now) (terms_in heap.now) work }
    ensures { IfOk result (λ o. Stepped (parts_in heap.now) (terms_in heap.now) work o pending.old.items pending.new.items) }
{
    match work {
        Work::Terms(a, b) if a == b => Ok(Ordering::Equal),
        Work::Terms(a, b) => compare_cells(heap, pending, heap.cell(a), heap.cell(b)),
        Work::Runs(_, _, 0) => Ok(Ordering::Equal),
        Work::Runs(first, other, _) if first == other => Ok(Ordering::Equal),
        Work::Runs(first, other, count) => {
            pending.push(Work::Runs(first + 1, other + 1, count - 1))?;
            pending.push(Work::Terms(heap.part(first), heap.part(other)))?;
            Ok(Ordering::Equal)
        }
    }
}

/// Compares two cells as far as they tell, and appends what is to be compared behind that.
fn compare_cells(
    heap: &Heap,
    pending: &mut Vec<Work>,
    a: &Cell,
    b: &Cell,
) -> Result<Ordering, AllocError>
    requires first { IsSome (cell_term heap.now a.now) }
    requires second { IsSome (cell_term heap.now b.now) }
    ensures order { IfOk result (λ o. o ≡ (opened (texts_in heap.now) a.now b.now).0) }
    ensures works { IfOk result (λ _. pending.new.items ≡ pending.old.items ++ (opened (texts_in heap.now) a.now b.now).1) }
{
    match (*a, *b) {
        (Cell::Int(m), Cell::Int(n)) => Ok(m.cmp(&n)),
        (Cell::Atom(text), Cell::Atom(other)) => Ok(compare_texts(
            heap.atom_text(text),
            heap.atom_text(other),
        )),
        (Cell::Reference(node, number), Cell::Reference(other_node, other_number)) => Ok(
            node.cmp(&other_node).then(number.cmp(&other_number)),
        ),
        (
            Cell::Fun {
                local,
                module,
                name,
                arity,
                first,
                len,
            },
            Cell::Fun {
                local: other_local,
                module: other_module,
                name: other_name,
                arity: other_arity,
                first: other,
                len: other_len,
            },
        ) => {
            let owners = compare_texts(heap.atom_text(module), heap.atom_text(other_module));
            let names = compare_texts(heap.atom_text(name), heap.atom_text(other_name));
            let functions = (!local)
                .cmp(&!other_local)
                .then(owners.then(names.then(arity.cmp(&other_arity))));
            let ordering = functions.then(len.cmp(&other_len));
            push_runs(pending, ordering, first, other, len)
        }
        (Cell::Pid(node, number), Cell::Pid(other_node, other_number)) => Ok(
            node.cmp(&other_node).then(number.cmp(&other_number)),
        ),
        (Cell::Tuple(first, count), Cell::Tuple(other, other_count)) => push_runs(
            pending,
            count.cmp(&other_count),
            first,
            other,
            count,
        ),
        (Cell::Map(first, count), Cell::Map(other, other_count)) => push_runs(
            pending,
            count.cmp(&other_count),
            first,
            other,
            2 * count,
        ),
        (Cell::Cons(head, tail), Cell::Cons(other_head, other_tail)) => {
            pending.push(Work::Terms(tail, other_tail))?;
            pending.push(Work::Terms(head, other_head))?;
            Ok(Ordering::Equal)
        }
        _ => Ok(kind(a).cmp(&kind(b))),
    }
}

/// Appends these runs, where the order up to them is a tie.
fn push_runs(
    pending: &mut Vec<Work>,
    ordering: Ordering,
    first: usize,
    other: usize,
    count: usize,
) -> Result<Ordering, AllocError>
    ensures order { IfOk result (λ o. o ≡ ordering) }
    ensures works { IfOk result (λ _. pending.new.items ≡ pending.old.items ++ (runs ordering first other count).1) }
{
    if ordering == Ordering::Equal {
        pending.push(Work::Runs(first, other, count))?;
    }
    Ok(ordering)
}

/// The place of a cell's kind in the order of kinds.
fn kind(cell: &Cell) -> u8
    ensures { result ≡ kind cell.now }
{
    match cell {
        Cell::Int(_) => 0,
        Cell::Atom(_) => 1,
        Cell::Reference(_, _) => 2,
        Cell::Fun { .. } => 3,
        Cell::Pid(_, _) => 4,
        Cell::Tuple(_, _) => 5,
        Cell::Map(_, _) => 6,
        Cell::Nil => 7,
        Cell::Cons(_, _) => 8,
    }
}

/// The order of two texts, by the code points of their characters.
fn compare_texts(a: &str, b: &str) -> Ordering
    ensures { result ≡ order.compare_names (chars a.now) (chars b.now) }
{
    a.chars().cmp(b.chars())
}
