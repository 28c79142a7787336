//! The instructions that are read so far.

ghost use Rattle.std.specs.Prelude.{◌≡◌, option_map};
ghost use Rattle.beam_code.specs.Seen.{opcode_seen};
ghost use Rattle.erjang_top.specs.first_path.Code.{seen_code, seen_source};
ghost use Rattle.erjang_top.specs.first_path.Opcode.{opcode, thin as thin_of, move_of as moves_to, move_to as move_of_source, source_of};

use beam_code::{Instr, Opcode, Reg, Src};
use ej_term::Text;

/// What a `move` reads.
#[derive(Clone, Copy)]
pub enum Source<'a> {
    X(u16),
    Integer(i64),
    Atom(&'a Text),
    Nil,
}

/// An instruction, with what it works on.
#[derive(Clone, Copy)]
pub enum Code<'a> {
    Label(u32),
    Line,
    Comment,
    FuncInfo {
        owner: &'a Text,
        name: &'a Text,
        arity: u32,
    },
    Move {
        from: Source<'a>,
        to: u16,
    },
    Return,
    /// None of these.
    Other,
}

/// What an instruction stands for.
pub fn decode(instr: &Instr) -> Code<'_>
    ensures { seen_code result ≡ opcode instr.now }
{
    thin(instr.opcode())
}

fn thin(opcode: Opcode<'_>) -> Code<'_>
    ensures { seen_code result ≡ thin_of (opcode_seen opcode.entry) }
{
    match opcode {
        Opcode::Label { label } => Code::Label(label),
        Opcode::Line => Code::Line,
        Opcode::Comment => Code::Comment,
        Opcode::FuncInfo { owner, name, arity } => Code::FuncInfo { owner, name, arity },
        Opcode::Move { from, to } => move_of(from, to),
        Opcode::Return => Code::Return,
        _ => Code::Other,
    }
}

// `{move,S,{x,N}}`.
fn move_of(from: &Src, to: Reg) -> Code<'_>
    ensures { seen_code result ≡ moves_to from.now to }
{
    match to {
        Reg::X(to) => move_to(decode_source(from), to),
        Reg::Y(_) => Code::Other,
    }
}

// The move of a source to a register.
fn move_to(from: Option<Source<'_>>, to: u16) -> Code<'_>
    ensures { seen_code result ≡ move_of_source (option_map seen_source from.entry) to }
{
    match from {
        Some(from) => Code::Move { from, to },
        None => Code::Other,
    }
}

// What a move's source is: an x register, an integer, an atom or nil, or none of these.
fn decode_source(from: &Src) -> Option<Source<'_>>
    ensures { option_map seen_source result ≡ source_of from.now }
{
    match from {
        Src::Reg(Reg::X(n)) => Some(Source::X(*n)),
        Src::Int(number) => Some(Source::Integer(*number)),
        Src::Atom(name) => Some(Source::Atom(name)),
        Src::Nil => Some(Source::Nil),
        _ => None,
    }
}
