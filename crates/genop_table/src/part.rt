//! What stands at a place of an instruction's form.

/// What a place takes.
#[derive(Clone, Copy, Debug, PartialEq, Eq)]
pub enum Part {
    /// A source: `{x,N}`, `{y,N}`, `{integer,I}`, `{atom,A}`, `nil` or `{literal,T}`.
    Src,
    /// A register: `{x,N}` or `{y,N}`.
    Reg,
    /// A branch label `{f,L}`.
    Label,
    /// A count.
    Count,
    /// What is needed of the heap: a count or `{alloc,_}`.
    Need,
    /// The name of a test or of a guard builtin.
    Name,
    /// `{extfunc,M,F,A}`.
    Ext,
    /// A list of sources.
    Srcs,
    /// `{list,[V,{f,L},..]}`, with an atom or an integer as each V.
    Cases,
    /// `{list,[N,{f,L},..]}`, with a count as each N.
    Arities,
    /// `{list,[K,V,..]}`, each a source.
    Pairs,
    /// `{list,[K,D,..]}`, with a source as each K and a register as each D.
    Gets,
    /// `{list,[D,..]}`, each a register.
    Regs,
    /// Any term, which is not looked at.
    Any,
}

/// Which of all that its part may be a place takes.
#[derive(Clone, Copy, Debug, PartialEq, Eq)]
pub enum Limit {
    /// All of it; of a list of sources those of `{list,L}`.
    Free,
    /// Of the sources an atom alone.
    Atom,
    /// Of the registers `{y,N}` alone.
    Slot,
    /// Of the labels all but 0.
    Target,
    /// Of the labels all: 0 means that a failure raises.
    Failure,
    /// Of the labels 0 alone: it raises.
    Raises,
    /// Of the counts at most 255: how many arguments a call has.
    Arguments,
    /// Of the counts at most 1,024: the size of a frame, a part of one, or how many x registers are live.
    Size,
    /// Of the lists of sources, a list alone, those that the test before it takes.
    OfTest,
    /// Of the lists of sources, a list alone, as many as the guard builtin before it takes.
    OfBuiltin,
    /// Of the lists of sources, a list alone, a register with the trace, and the reason.
    OfRaise,
}

/// A place of an instruction's form: its part, and the limit of that.
#[derive(Clone, Copy, Debug, PartialEq, Eq)]
pub struct Place {
    pub part: Part,
    pub limit: Limit,
}
