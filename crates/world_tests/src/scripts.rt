//! Tables of acts and choices as the tests write them.

ghost use Rattle.std.specs.Prelude.{◌≡◌, true};
ghost use Rattle.proc_sched.specs.Choose.{InRange};

use crate::acts::{Act, Reason};
use ej_term::{AsmTerm, Text};
use ej_world::Choice;
use sqlite_items::Items;
use std::alloc::{AllocError, Global};

/// The words of a row: its name, and what stands behind it.
fn words_of(row: &str) -> (&str, &str, &str) {
    let (name, rest) = row.split_once(' ').unwrap_or((row, ""));
    let (first, second) = rest.split_once(' ').unwrap_or((rest, ""));
    (name, first, second)
}

fn reason(name: &str) -> Option<Reason> {
    match name {
        "normal" => Some(Reason::Normal),
        "kill" => Some(Reason::Kill),
        "boom" => Some(Reason::Boom),
        "7" => Some(Reason::Seven),
        _ => None,
    }
}

/// An act by its name and what it takes, such as `send 0 7` or `spawn 4 linked`, or none where it is not one.
fn act(row: &str) -> Option<Act> {
    let (name, first, second) = words_of(row);
    match name {
        "rest" => Some(Act::Rest),
        "wait" => Some(Act::Wait),
        "sleep" => Some(Act::Sleep(first.parse::<u64>().ok()?)),
        "receive" => Some(Act::Receive),
        "pass" => Some(Act::Pass),
        "send" => Some(Act::Send(first.parse::<u64>().ok()?, second.parse::<i64>().ok()?)),
        "exit" => Some(Act::Exit(first.parse::<u64>().ok()?, reason(second)?)),
        "link" => Some(Act::Link(first.parse::<u64>().ok()?)),
        "unlink" => Some(Act::Unlink(first.parse::<u64>().ok()?)),
        "trap" => Some(Act::Trap),
        "spawn" => Some(Act::Spawn(first.parse::<i64>().ok()?, second == "linked")),
        "print" => Some(Act::Print(first.parse::<i64>().ok()?)),
        "raise" => Some(Act::Raise(reason(first)?)),
        "answer" => Some(Act::Answer(first.parse::<i64>().ok()?)),
        "fault" => Some(Act::Fault),
        "end" => Some(Act::End(reason(first)?)),
        _ => None,
    }
}

/// The acts of a table, with commas between them, or none where one is not known.
pub(crate) fn table(alloc: Global, text: &str) -> Result<Option<Vec<Act>>, AllocError> {
    let mut rows = Vec::new(alloc);
    for row in text.split(", ") {
        match act(row) {
            Some(act) => rows.push(act)?,
            None => return Ok(None),
        }
    }
    Ok(Some(rows))
}

/// A start of `m:f` with a row as its argument.
fn start(alloc: Global, row: &str) -> Result<Option<Choice>, AllocError> {
    let Ok(row) = row.parse::<i64>() else {
        return Ok(None);
    };
    let mut args = Items::new(alloc);
    args.push(AsmTerm::Int(row))?;
    Ok(Some(Choice::Start {
        module: Text::make(alloc, "m")?,
        name: Text::make(alloc, "f")?,
        args,
    }))
}

/// An input of an atom, or of an opaque token where the word begins with a question mark.
fn input(alloc: Global, number: &str, word: &str) -> Result<Option<Choice>, AllocError> {
    let Ok(pid) = number.parse::<u64>() else {
        return Ok(None);
    };
    let text = Text::make(alloc, word)?;
    let term = if word.starts_with('?') {
        AsmTerm::Opaque(text)
    } else {
        AsmTerm::Atom(text)
    };
    Ok(Some(Choice::Input { pid, term }))
}

/// A choice of numbers alone.
fn numbered(name: &str, first: &str, second: &str) -> Option<Choice> {
    let number = first.parse::<u64>().ok()?;
    match name {
        "run" => Some(Choice::Run {
            pid: number,
            transfers: second.parse::<u32>().ok()?,
        }),
        "deliver" => Some(Choice::Deliver {
            from: number,
            to: second.parse::<u64>().ok()?,
        }),
        "advance" => Some(Choice::Advance { ms: number }),
        "auto" => Some(Choice::Auto {
            rounds: first.parse::<u32>().ok()?,
        }),
        _ => None,
    }
}

/// A choice by its name and what it takes, such as `start 3` or `deliver 0 1`, or none where it is not one.
pub(crate) fn choice(alloc: Global, words: &str) -> Result<Option<Choice>, AllocError> {
    let (name, first, second) = words_of(words);
    match name {
        "start" => start(alloc, first),
        "input" => input(alloc, first, second),
        _ => Ok(numbered(name, first, second)),
    }
}

/// Whether the numbers of a choice are in the ranges that it states.
pub(crate) fn is_in_range(choice: &Choice) -> bool
    ensures { result ≡ true → InRange choice.now }
{
    match choice {
        Choice::Start { args, .. } => args.as_slice().len() <= 255,
        Choice::Run { transfers, .. } => 1 <= *transfers && *transfers <= 100_000,
        Choice::Advance { ms } => 1 <= *ms && *ms <= 4_294_967_296,
        Choice::Auto { rounds } => 1 <= *rounds && *rounds <= 1_000_000,
        _ => true,
    }
}
