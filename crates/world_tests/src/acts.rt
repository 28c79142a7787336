//! A code for tests, driven by a table.

ghost use Rattle.std.specs.Prelude.{◌≡◌, ℕ, ◌≤◌, IfOk, OnOk};
ghost use Rattle.ej_term.specs.Term.{Int};
ghost use Rattle.ej_world.specs.World.{limit};
ghost use Rattle.term_heap.specs.declared.heap.Heap.{Heap as AnyHeap};
ghost use Rattle.term_heap.specs.View.{Holds, Stands, term_of, Keeps};
ghost use Rattle.world_tests.specs.Acts as spec;
ghost use Rattle.world_tests.specs.Acting.{MayAct, Does, Leaves, Tells, Enters};
ghost use Rattle.proc_sched.specs.Seen.{view_of};
ghost use Rattle.proc_sched.specs.Stands.{Rising};

use ej_term::Class3;
use ej_world::{Begin, Event};
use proc_sched::{Outcome, Process, View, numbers};
use std::alloc::{AllocError, Global};
use term_heap::{Cell, Heap, TermId};

// No number of a process reaches this.
const LIMIT: u64 = 1 << 62;

// The longest time for which a timer can be set, in milliseconds.
const LONGEST: u64 = 4_294_967_295;

/// The reason with which a process ends.
#[derive(Clone, Copy, Debug)]
pub enum Reason {
    Normal,
    Kill,
    Boom,
    /// The integer 7.
    Seven,
}

/// What a process does in one turn, behind which it goes on at the next row.
#[derive(Clone, Copy, Debug)]
pub enum Act {
    /// Runs on.
    Rest,
    /// Waits.
    Wait,
    /// Sets its timer to so many milliseconds from now, at most 4,294,967,295, and waits.
    Sleep(u64),
    /// Takes the message at the save place, if there is one, and runs on without a timer.
    Receive,
    /// Moves the save place by one where a message is there, and waits.
    Pass,
    /// Sends an integer to a process, or to none.
    Send(u64, i64),
    /// Sends an exit signal by `exit/2` to a process, or to none.
    Exit(u64, Reason),
    /// Links to another process, where there is one. A link to one that ended breaks at once.
    Link(u64),
    /// Takes away the link to a process.
    Unlink(u64),
    /// Traps exits from now on.
    Trap,
    /// Makes a process that begins at that row, which is linked to this one where that is true. It makes none where there is
    /// no number for it.
    Spawn(i64, bool),
    /// Prints an integer.
    Print(i64),
    /// Raises an exit.
    Raise(Reason),
    /// Its first function gives back an integer.
    Answer(i64),
    /// Its class is at fault.
    Fault,
    /// Ends.
    End(Reason),
}

/// A code for tests: each process is at a row of the table, and does what stands there. Behind the last row it rests.
#[derive(Drop)]
pub struct Acts {
    /// The acts by their rows, from 0.
    pub rows: Vec<Act>,
}

impl Process for Acts {
    ghost use Rattle.world_tests.specs.ActsLawful.{acts-are-lawful, rows-stay};

    type State = usize;

    ghost Meaning = { ℕ };

    ghost code = { λ p. spec.acts p.rows.items };

    ghost is_state = { λ p. spec.any_row };

    ghost means = { λ heap row. row };

    ghost holds = { λ heap row. Unit {0} };

    fn begin(
        &self,
        _alloc: Global,
        heap: &mut Heap,
        how: &Begin<TermId>,
    ) -> Result<usize, AllocError> {
        match *how {
            Begin::Call(_, _, args) => Ok(first_row(heap, args)),
            Begin::Fun(f) => Ok(row(heap, f)),
        }
    }

    fn turn(
        &self,
        _alloc: Global,
        heap: &mut Heap,
        state: &mut usize,
        view: &mut View,
        _transfers: u32,
    ) -> Result<Outcome, AllocError> {
        match self.rows.as_slice().get(*state) {
            None => Ok(Outcome::Runs),
            Some(act) => {
                *state += 1;
                do_act(heap, view, *act)
            }
        }
    }

    fn depth(&self, state: &usize) -> u64 {
        *state as u64
    }

    ghost lawful = { λ p. acts-are-lawful p.rows.items };

    ghost stays = { rows-stay };
}

// ---- beginnings

/// The row that an integer names.
fn row(heap: &Heap, id: TermId) -> usize
    requires { Holds heap.now id }
    ensures { result ≡ spec.row_of (term_of heap.now id) }
{
    match *heap.cell(id) {
        Cell::Int(n) if n >= 0 => n as usize,
        _ => 0,
    }
}

/// The row that the first of a list of arguments names.
fn first_row(heap: &Heap, args: TermId) -> usize
    requires { Holds heap.now args }
    ensures { result ≡ spec.first_row (term_of heap.now args) }
{
    match *heap.cell(args) {
        Cell::Cons(head, _) => row(heap, head),
        _ => 0,
    }
}

// ---- acts

/// Does an act.
fn do_act(heap: &mut Heap, view: &mut View, act: Act) -> Result<Outcome, AllocError>
    requires { MayAct heap.old view.old }
    ensures keeps { Keeps heap.old heap.new }
    ensures does { IfOk result (Does (spec.doing act) heap.old view.old heap.new view.new) }
{
    match act {
        Act::Rest => Ok(Outcome::Runs),
        Act::Wait => Ok(Outcome::Waits),
        Act::Sleep(ms) => Ok(sleep(view, ms)),
        Act::Receive => receive(view),
        Act::Pass => Ok(pass(view)),
        Act::Send(to, n) => send(heap, view, to, n),
        Act::Exit(to, reason) => exit(heap, view, to, reason),
        Act::Link(other) => link(heap, view, other),
        Act::Unlink(other) => Ok(unlink(view, other)),
        Act::Trap => Ok(trap(view)),
        Act::Spawn(row, linked) => spawn(heap, view, row, linked),
        Act::Print(n) => print(heap, view, n),
        Act::Raise(reason) => raise(heap, view, reason),
        Act::Answer(n) => answer(heap, view, n),
        Act::Fault => tell(view, Event::Fault(view.me)),
        Act::End(reason) => Ok(Outcome::Ended(reason_id(heap, reason)?)),
    }
}

/// An event is seen, and the process runs on.
fn tell(view: &mut View, event: Event<TermId>) -> Result<Outcome, AllocError>
    ensures { IfOk result (Tells event view.old view.new) }
{
    view.events.push(event)?;
    Ok(Outcome::Runs)
}

fn sleep(view: &mut View, ms: u64) -> Outcome
    requires { view.old.clock ≤ limit }
    ensures { Leaves (spec.sleep ms) view.old view.new result }
{
    view.timer = Some(view.clock + ms.min(LONGEST));
    Outcome::Waits
}

fn receive(view: &mut View) -> Result<Outcome, AllocError>
    ensures { IfOk result (Leaves spec.receive view.old view.new) }
{
    let message = view.mailbox.take();
    view.timer = None;
    match message {
        Some(message) => tell(view, Event::Recv(view.me, message)),
        None => Ok(Outcome::Runs),
    }
}

fn pass(view: &mut View) -> Outcome
    ensures { Leaves spec.pass view.old view.new result }
{
    view.mailbox.advance();
    Outcome::Waits
}

fn trap(view: &mut View) -> Outcome
    ensures { Leaves spec.trap view.old view.new result }
{
    view.trapping = true;
    Outcome::Runs
}

/// Sends an integer.
fn send(heap: &mut Heap, view: &mut View, to: u64, n: i64) -> Result<Outcome, AllocError>
    requires { MayAct heap.old view.old }
    ensures keeps { Keeps heap.old heap.new }
    ensures does { IfOk result (Does (spec.send to (Int n)) heap.old view.old heap.new view.new) }
{
    let message = heap.int(n)?;
    if to < view.next_pid {
        tell(view, Event::Send(view.me, to, message))
    } else {
        tell(view, Event::Lost(view.me, message))
    }
}

/// Sends an exit signal.
fn exit(heap: &mut Heap, view: &mut View, to: u64, reason: Reason) -> Result<Outcome, AllocError>
    requires { MayAct heap.old view.old }
    ensures keeps { Keeps heap.old heap.new }
    ensures does { IfOk result (Does (spec.exit to (spec.reason_of reason)) heap.old view.old heap.new view.new) }
{
    let reason = reason_id(heap, reason)?;
    if to < view.next_pid {
        tell(view, Event::Signal(view.me, to, reason))
    } else {
        tell(view, Event::Lost(view.me, reason))
    }
}

fn link(heap: &mut Heap, view: &mut View, other: u64) -> Result<Outcome, AllocError>
    requires { MayAct heap.old view.old }
    ensures keeps { Keeps heap.old heap.new }
    ensures does { IfOk result (Does (spec.link other) heap.old view.old heap.new view.new) }
{
    if !may_link(view, other) {
        return Ok(Outcome::Runs);
    }
    numbers::add(&mut view.links, other)?;
    if numbers::holds(view.live.as_slice(), other) {
        return Ok(Outcome::Runs);
    }
    let noproc = heap.atom("noproc")?;
    tell(view, Event::Broken(other, view.me, noproc))
}

/// Whether there is such another process, and it is not linked yet.
fn may_link(view: &View, other: u64) -> bool
    requires { Rising view.now.links.items }
    ensures { (heap : AnyHeap) → result ≡ spec.may_link other (view_of heap view.now) }
{
    other != view.me && other < view.next_pid && !numbers::holds(view.links.as_slice(), other)
}

fn unlink(view: &mut View, other: u64) -> Outcome
    requires { Rising view.old.links.items }
    ensures { Leaves (spec.unlink other) view.old view.new result }
{
    numbers::remove(&mut view.links, other);
    Outcome::Runs
}

fn spawn(heap: &mut Heap, view: &mut View, row: i64, linked: bool) -> Result<Outcome, AllocError>
    requires { MayAct heap.old view.old }
    ensures keeps { Keeps heap.old heap.new }
    ensures does { IfOk result (Does (spec.spawn (Int row) linked) heap.old view.old heap.new view.new) }
{
    let made = view.next_pid;
    if made >= LIMIT {
        return Ok(Outcome::Runs);
    }
    let row = heap.int(row)?;
    enter(view, linked)?;
    tell(view, Event::Spawn(view.me, made, Begin::Fun(row)))
}

/// The next process is live, and linked where that is true.
fn enter(view: &mut View, linked: bool) -> Result<(), AllocError>
    requires { view.old.next_pid ≤ limit }
    ensures { OnOk result (Enters linked view.old view.new) }
{
    view.live.push(view.next_pid)?;
    if linked {
        view.links.push(view.next_pid)?;
    }
    view.next_pid += 1;
    Ok(())
}

fn print(heap: &mut Heap, view: &mut View, n: i64) -> Result<Outcome, AllocError>
    requires { MayAct heap.old view.old }
    ensures keeps { Keeps heap.old heap.new }
    ensures does { IfOk result (Does (spec.print (Int n)) heap.old view.old heap.new view.new) }
{
    let n = heap.int(n)?;
    tell(view, Event::Print(view.me, n))
}

fn raise(heap: &mut Heap, view: &mut View, reason: Reason) -> Result<Outcome, AllocError>
    requires { MayAct heap.old view.old }
    ensures keeps { Keeps heap.old heap.new }
    ensures does { IfOk result (Does (spec.raise (spec.reason_of reason)) heap.old view.old heap.new view.new) }
{
    let reason = reason_id(heap, reason)?;
    tell(view, Event::Raise(view.me, Class3::Exit, reason))
}

fn answer(heap: &mut Heap, view: &mut View, n: i64) -> Result<Outcome, AllocError>
    requires { MayAct heap.old view.old }
    ensures keeps { Keeps heap.old heap.new }
    ensures does { IfOk result (Does (spec.answer (Int n)) heap.old view.old heap.new view.new) }
{
    let n = heap.int(n)?;
    tell(view, Event::Answer(view.me, n))
}

/// The reason as a term.
fn reason_id(heap: &mut Heap, reason: Reason) -> Result<TermId, AllocError>
    ensures keeps { Keeps heap.old heap.new }
    ensures term { IfOk result (λ id. Stands heap.new id (spec.reason_of reason)) }
{
    match reason {
        Reason::Normal => heap.atom("normal"),
        Reason::Kill => heap.atom("kill"),
        Reason::Boom => heap.atom("boom"),
        Reason::Seven => heap.int(7),
    }
}
