//! What an instruction works on.

use ej_term::{AsmTerm, Text};
use sqlite_items::Items;

/// The last x register, and the last y register.
pub const LAST_REGISTER: u16 = 1023;

/// The largest label, and the largest count where no smaller limit stands.
pub const LAST_COUNT: u32 = 4294967295;

/// A register: an argument and temporary `{x,N}`, or a slot of the frame `{y,N}`.
#[derive(Clone, Copy, Debug, PartialEq, Eq)]
pub enum Reg {
    X(u16),
    Y(u16),
}

/// A source operand: a register, or a value that the code has in it.
#[derive(Debug, Drop)]
pub enum Src {
    Reg(Reg),
    Int(i64),
    Atom(Text),
    Nil,
    Literal(AsmTerm),
}

/// One operand of an instruction, by the part of its row's shape that it stands for.
#[derive(Debug, Drop)]
pub enum Operand {
    Src(Src),
    Reg(Reg),
    /// A branch label; 0 where a failure raises.
    Label(u32),
    Count(u32),
    /// The number of a test or of a builtin.
    Name(u16),
    /// Module, name and arity of `{extfunc,M,F,A}`.
    Ext(Text, Text, u8),
    Srcs(Items<Src>),
    Regs(Items<Reg>),
    /// The values of a select, each with its label.
    Cases(Items<(Src, u32)>),
    /// Keys and values of a map update.
    Pairs(Items<(Src, Src)>),
    /// Keys of a map look-up, each with the register that its value goes to.
    Gets(Items<(Src, Reg)>),
}
