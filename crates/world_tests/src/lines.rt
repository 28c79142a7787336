//! What was seen, as text: each event as its line, with semicolons between them.

ghost use Rattle.term_heap.specs.Held.{HoldsEach};
ghost use Rattle.term_heap.specs.View.{Holds};
ghost use Rattle.proc_sched.specs.Seen.{HoldsEvent, HoldsEvents, ids_of_begin};

use ej_term::Class3;
use ej_world::{Begin, Event};
use std::alloc::{AllocError, Global};
use term_heap::{Heap, TermId};
use term_text::print;

/// Writes a term in canonical print.
fn push_term(alloc: Global, out: &mut String, heap: &Heap, id: TermId) -> Result<(), AllocError>
    requires { Holds heap.now id }
{
    let bytes = print(alloc, heap, id)?;
    match std::str::from_utf8(bytes.as_slice()) {
        Ok(text) => out.push_str(text),
        Err(_) => out.push_str("no text"),
    }
}

/// Writes a call as a tuple, or a fun.
fn push_begin(
    alloc: Global,
    out: &mut String,
    heap: &Heap,
    how: &Begin<TermId>,
) -> Result<(), AllocError>
    requires { HoldsEach heap.now (ids_of_begin how.now) }
{
    match how {
        Begin::Call(module, name, args) => {
            out.push_str("{")?;
            push_term(alloc, out, heap, *module)?;
            out.push_str(",")?;
            push_term(alloc, out, heap, *name)?;
            out.push_str(",")?;
            push_term(alloc, out, heap, *args)?;
            out.push_str("}")
        }
        Begin::Fun(f) => push_term(alloc, out, heap, *f),
    }
}

fn class(class: &Class3) -> &str {
    match class {
        Class3::Error => "error",
        Class3::Exit => "exit",
        Class3::Throw => "throw",
    }
}

/// Writes the numbers of the ready processes.
fn push_ready(out: &mut String, numbers: &[u64]) -> Result<(), AllocError> {
    out.push_str("ready [")?;
    for (at, number) in numbers.iter().enumerate() {
        if at > 0 {
            out.push_str(",")?;
        }
        write!(out, "{number}")?;
    }
    out.push_str("]")
}

/// Writes what stands in the line of an event in front of its term.
fn push_front(out: &mut String, event: &Event<TermId>) -> Result<(), AllocError> {
    match event {
        Event::Start(p, _) => write!(out, "start {p} "),
        Event::Spawn(p, q, _) => write!(out, "spawn {p} {q} "),
        Event::Send(p, q, _) => write!(out, "send {p} {q} "),
        Event::Signal(p, q, _) => write!(out, "signal {p} {q} "),
        Event::Broken(p, q, _) => write!(out, "broken {p} {q} "),
        Event::Lost(p, _) => write!(out, "lost {p} "),
        Event::Deliver(p, q, _) => write!(out, "deliver {p} {q} "),
        Event::Hit(p, q, _) => write!(out, "hit {p} {q} "),
        Event::Dropped(p, q) => write!(out, "drop {p} {q}"),
        Event::Input(p, _) => write!(out, "input {p} "),
        Event::Recv(p, _) => write!(out, "recv {p} "),
        Event::Print(p, _) => write!(out, "print {p} "),
        Event::Raise(p, kind, _) => write!(out, "raise {p} {} ", class(kind)),
        Event::Answer(p, _) => write!(out, "result {p} "),
        Event::Exit(p, _) => write!(out, "exit {p} "),
        Event::Fault(p) => write!(out, "fault {p}"),
        Event::Clock(time) => write!(out, "clock {time}"),
        Event::Turn(p, depth) => write!(out, "turn {p} {depth}"),
        Event::Idle => out.push_str("idle"),
        Event::Ready(numbers) => push_ready(out, numbers.as_slice()),
    }
}

/// Writes the line of an event.
fn push_event(
    alloc: Global,
    out: &mut String,
    heap: &Heap,
    event: &Event<TermId>,
) -> Result<(), AllocError>
    requires { HoldsEvent heap.now event.now }
{
    push_front(out, event)?;
    match event {
        Event::Start(_, how) | Event::Spawn(_, _, how) => push_begin(alloc, out, heap, how),
        Event::Send(_, _, t)
        | Event::Signal(_, _, t)
        | Event::Broken(_, _, t)
        | Event::Deliver(_, _, t)
        | Event::Hit(_, _, t)
        | Event::Lost(_, t)
        | Event::Input(_, t)
        | Event::Recv(_, t)
        | Event::Print(_, t)
        | Event::Answer(_, t)
        | Event::Exit(_, t)
        | Event::Raise(_, _, t) => push_term(alloc, out, heap, *t),
        _ => Ok(()),
    }
}

/// The lines of these events.
pub(crate) fn lines(
    alloc: Global,
    heap: &Heap,
    events: &[Event<TermId>],
) -> Result<String, AllocError>
    requires { HoldsEvents heap.now events.now }
{
    let mut out = String::new(alloc);
    for at in 0..events.len() {
        if at > 0 {
            out.push_str("; ")?;
        }
        push_event(alloc, &mut out, heap, &events[at])?;
    }
    Ok(out)
}
