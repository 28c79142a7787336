//! The canonical print of a term.

ghost use Rattle.std.specs.Prelude.{◌≡◌, ◌++◌, ◌<◌, [], ◌∷◌, IsSome, IfOk, OnOk, string_bytes};
ghost use Rattle.ej_term.specs.TermPrint as printed;
ghost use Rattle.term_heap.specs.View.{terms_in, parts_in, texts_in, Holds, term_of, cell_term};
ghost use Rattle.std.specs.Str.{chars};
ghost use Rattle.term_text.specs.declared.work.Work.TheVariants as w;
ghost use Rattle.term_text.specs.Printing.{opened, followed, local_front, RunPushed, EntriesPushed, IsWork, Stepped};

use crate::atom::write_atom;
use crate::work::Work;
use std::alloc::{AllocError, Global};
use std::fmt::Write;
use term_heap::{Cell, Heap, TermId};

/// The canonical print of a term of this heap: the term as Erlang source with no spaces, where integers are decimal,
/// maps go by rising keys, and no list is written as a string. A pid is `#Pid<N.K>`, a reference `#Ref<N.K>` and a
/// local fun `#Fun<m,f,1,[E]>` with the values of its free variables. It goes through the term by a list of what is
/// still to be written.
pub fn print(alloc: Global, heap: &Heap, t: TermId) -> Result<Vec<u8>, AllocError>
    requires { Holds heap.now t }
    ensures { IfOk result (λ bytes. bytes.items ≡ printed.print (term_of heap.now t)) }
{
    let mut out = String::new(alloc);
    let mut pending = Vec::new(alloc);
    pending.push(Work::Term(t))?;
    while let Some(work) = pending.pop() {
        step(heap, &mut out, &mut pending, work)?;
    }
    Ok(out.into_bytes())
}

/// Writes the front of what was to be written, and appends what is to be written behind it.
fn step(
    heap: &Heap,
    out: &mut String,
    pending: &mut Vec<Work>,
    work: Work,
) -> Result<(), AllocError>
    requires { IsWork (parts_in heap.now) (terms_in heap.now) work }
    ensures { OnOk result (Stepped (parts_in heap.now) (terms_in heap.now) work (string_bytes out.old) (string_bytes out.new) pending.old.items pending.new.items) }
{
    match work {
        Work::Term(id) => write_cell(heap, out, pending, heap.cell(id)),
        Work::Tail(id) => write_tail(out, pending, heap.cell(id), id),
        Work::Parts(_, 0) | Work::Rest(_, 0) | Work::Entries(_, _, 0) | Work::More(_, _, 0) => Ok(
            (),
        ),
        Work::Parts(first, count) => push_run(heap, pending, first, count),
        Work::Rest(first, count) => {
            out.push_str(",")?;
            push_run(heap, pending, first, count)
        }
        Work::Entries(key, value, count) => push_entries(heap, pending, key, value, count),
        Work::More(key, value, count) => {
            out.push_str(",")?;
            push_entries(heap, pending, key, value, count)
        }
        Work::Arrow => out.push_str("=>"),
        Work::Brace => out.push_str("}"),
        Work::Bracket => out.push_str("]"),
        Work::Angle => out.push_str("]>"),
    }
}

/// Appends a run's first part, and behind it the others.
fn push_run(
    heap: &Heap,
    pending: &mut Vec<Work>,
    first: usize,
    count: usize,
) -> Result<(), AllocError>
    requires is_work { IsWork (parts_in heap.now) (terms_in heap.now) (w.Parts first count) }
    requires positive { 0 < count }
    ensures { OnOk result (RunPushed (parts_in heap.now) first count pending.old.items pending.new.items) }
{
    pending.push(Work::Rest(first + 1, count - 1))?;
    pending.push(Work::Term(heap.part(first)))?;
    Ok(())
}

/// Appends the first of keys with its value, and behind it the others.
fn push_entries(
    heap: &Heap,
    pending: &mut Vec<Work>,
    key: usize,
    value: usize,
    count: usize,
) -> Result<(), AllocError>
    requires is_work { IsWork (parts_in heap.now) (terms_in heap.now) (w.Entries key value count) }
    requires positive { 0 < count }
    ensures { OnOk result (EntriesPushed (parts_in heap.now) key value count pending.old.items pending.new.items) }
{
    pending.push(Work::More(key + 1, value + 1, count - 1))?;
    pending.push(Work::Term(heap.part(value)))?;
    pending.push(Work::Arrow)?;
    pending.push(Work::Term(heap.part(key)))?;
    Ok(())
}

/// Writes a cell as far as it stands alone, and appends what is to be written behind that.
fn write_cell(
    heap: &Heap,
    out: &mut String,
    pending: &mut Vec<Work>,
    cell: &Cell,
) -> Result<(), AllocError>
    requires { IsSome (cell_term heap.now cell.now) }
    ensures text { OnOk result (string_bytes out.new ≡ string_bytes out.old ++ (opened (texts_in heap.now) cell.now).0) }
    ensures works { OnOk result (pending.new.items ≡ pending.old.items ++ (opened (texts_in heap.now) cell.now).1) }
{
    match *cell {
        Cell::Int(n) => write!(out, "{n}"),
        Cell::Atom(name) => write_atom(out, heap.atom_text(name)),
        Cell::Nil => out.push_str("[]"),
        Cell::Cons(head, tail) => {
            out.push_str("[")?;
            pending.push(Work::Bracket)?;
            pending.push(Work::Tail(tail))?;
            pending.push(Work::Term(head))?;
            Ok(())
        }
        Cell::Tuple(first, count) => {
            out.push_str("{")?;
            pending.push(Work::Brace)?;
            pending.push(Work::Parts(first, count))?;
            Ok(())
        }
        Cell::Map(first, count) => {
            out.push_str("#{")?;
            pending.push(Work::Brace)?;
            pending.push(Work::Entries(first, first + count, count))?;
            Ok(())
        }
        Cell::Fun {
            local: true,
            module,
            name,
            arity,
            first,
            len,
        } => {
            write_local(out, heap.atom_text(module), heap.atom_text(name), arity)?;
            pending.push(Work::Angle)?;
            pending.push(Work::Parts(first, len))?;
            Ok(())
        }
        Cell::Fun {
            local: false,
            module,
            name,
            arity,
            ..
        } => write_external(out, heap.atom_text(module), heap.atom_text(name), arity),
        Cell::Pid(node, number) => write!(out, "#Pid<{node}.{number}>"),
        Cell::Reference(node, number) => write!(out, "#Ref<{node}.{number}>"),
    }
}

/// Writes what follows an element of a list whose tail has this cell and id: nothing, the next element behind a
/// comma, or an improper tail behind a bar.
fn write_tail(
    out: &mut String,
    pending: &mut Vec<Work>,
    cell: &Cell,
    id: TermId,
) -> Result<(), AllocError>
    ensures text { OnOk result (string_bytes out.new ≡ string_bytes out.old ++ (followed id cell.now).0) }
    ensures works { OnOk result (pending.new.items ≡ pending.old.items ++ (followed id cell.now).1) }
{
    match *cell {
        Cell::Nil => Ok(()),
        Cell::Cons(head, tail) => {
            out.push_str(",")?;
            pending.push(Work::Tail(tail))?;
            pending.push(Work::Term(head))?;
            Ok(())
        }
        _ => {
            out.push_str("|")?;
            pending.push(Work::Term(id))?;
            Ok(())
        }
    }
}

/// Writes a local fun up to the values of its free variables.
fn write_local(out: &mut String, module: &str, name: &str, arity: u8) -> Result<(), AllocError>
    ensures { OnOk result (string_bytes out.new ≡ string_bytes out.old ++ local_front (chars «module».now) (chars name.now) arity) }
{
    out.push_str("#Fun<")?;
    write_atom(out, module)?;
    out.push_str(",")?;
    write_atom(out, name)?;
    write!(out, ",{arity},[")
}

/// Writes an external fun.
fn write_external(out: &mut String, module: &str, name: &str, arity: u8) -> Result<(), AllocError>
    ensures { OnOk result (string_bytes out.new ≡ string_bytes out.old ++ printed.print_function (chars «module».now) (chars name.now) arity) }
{
    out.push_str("fun ")?;
    write_atom(out, module)?;
    out.push_str(":")?;
    write_atom(out, name)?;
    write!(out, "/{arity}")
}
