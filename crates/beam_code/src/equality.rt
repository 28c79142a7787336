//! When two source operands are equal, what of one is hashed, and copies of them.

ghost use Rattle.std.specs.Prelude.{◌≡◌, IfOk, fold};
ghost use Rattle.beam_code.specs.SameSource.{fed_register, same_register};

use crate::{Reg, Src};
use std::alloc::{AllocError, Global};
use std::hash::{Hash, Hasher};

impl Src {
    /// The same source operand. The error says that memory was wanting.
    pub fn copy(&self, alloc: Global) -> Result<Src, AllocError>
        ensures { IfOk result (λ source. source ≡ self.now) }
    {
        match self {
            Src::Reg(register) => Ok(Src::Reg(*register)),
            Src::Int(number) => Ok(Src::Int(*number)),
            Src::Atom(name) => Ok(Src::Atom(name.clone()?)),
            Src::Nil => Ok(Src::Nil),
            Src::Literal(term) => Ok(Src::Literal(term.copy(alloc)?)),
        }
    }
}

fn same(one: Reg, other: Reg) -> bool
    ensures { result ≡ same_register one other }
{
    match (one, other) {
        (Reg::X(n), Reg::X(m)) => n == m,
        (Reg::Y(n), Reg::Y(m)) => n == m,
        _ => false,
    }
}

/// Source operands are equal where they are of one form and have the same in them; literals are compared as they are
/// written.
impl PartialEq for Src {
    ghost use Rattle.std.specs.Cmp.{partial_equiv_from_equiv};
    ghost use Rattle.beam_code.specs.SameSource.{same_source};
    ghost use Rattle.beam_code.specs.SameSourceLaws.{source_equiv};

    ghost eq = { same_source };

    ghost laws = { partial_equiv_from_equiv source_equiv };

    fn eq(&self, other: &Src) -> bool {
        match (self, other) {
            (Src::Reg(a), Src::Reg(b)) => same(*a, *b),
            (Src::Int(a), Src::Int(b)) => a == b,
            (Src::Atom(a), Src::Atom(b)) => a == b,
            (Src::Nil, Src::Nil) => true,
            (Src::Literal(a), Src::Literal(b)) => a == b,
            _ => false,
        }
    }
}

impl Eq for Src {
    ghost use Rattle.beam_code.specs.SameSourceLaws.{source_equiv};

    ghost laws = { source_equiv };
}

fn feed<H: Hasher>(register: Reg, state: &mut H)
    ensures { state.new ≡ fold H.write state.old (fed_register register) }
{
    match register {
        Reg::X(n) => {
            state.write_u8(0);
            state.write_u16(n);
        }
        Reg::Y(n) => {
            state.write_u8(1);
            state.write_u16(n);
        }
    }
}

impl Hash for Src {
    ghost use Rattle.beam_code.specs.SameSource.{fed_source};
    ghost use Rattle.beam_code.specs.SameSourceLaws.{fed_alike};

    ghost hash_input = { fed_source };

    ghost respects_eq = { fed_alike };

    fn hash<H: Hasher>(&self, state: &mut H) {
        match self {
            Src::Reg(register) => {
                state.write_u8(0);
                feed(*register, state);
            }
            Src::Int(number) => {
                state.write_u8(1);
                state.write_i64(*number);
            }
            Src::Atom(name) => {
                state.write_u8(2);
                name.hash(state);
            }
            Src::Nil => state.write_u8(3),
            Src::Literal(term) => {
                state.write_u8(4);
                term.hash(state);
            }
        }
    }
}
