//! The constants that an instruction has in it: its sources, the sizes and places that it names, and the external function
//! that it calls.

ghost use Rattle.std.specs.Prelude.{◌≡◌, [], ◌∷◌};
ghost use Rattle.beam_code.specs.ConstantsSeen.{externals_seen, more_seen, numbers_seen, sources_seen};
ghost use Rattle.beam_code.specs.Pool as spec;
ghost use Rattle.beam_code.specs.Seen.{callee_seen, opcode_seen, piece_seen};

use crate::{Callee, Opcode, Piece, Reg, Src};
use ej_term::Text;

/// The source operands of an instruction, in the order in which it names them.
#[derive(Clone, Copy)]
pub struct Sources<'a> {
    pub first: Option<&'a Src>,
    pub rest: MoreSources<'a>,
}

/// The source operands behind the first.
#[derive(Clone, Copy)]
pub enum MoreSources<'a> {
    /// Each of these.
    Each(&'a [Src]),
    /// One more.
    One(&'a Src),
    /// An atom.
    Atom(&'a Text),
    /// Keys and values of a map update, each key before its value.
    Pairs(&'a [(Src, Src)]),
    /// The keys of a map look-up.
    Keys(&'a [(Src, Reg)]),
    /// The values of a select.
    Cases(&'a [(Src, u32)]),
}

impl<'a> Sources<'a> {
    fn one(source: &'a Src) -> Sources<'a>
        ensures { sources_seen result ≡ source.now ∷ [] }
    {
        Sources::with(source, MoreSources::Each(&[]))
    }

    fn each(sources: &'a [Src]) -> Sources<'a>
        ensures { sources_seen result ≡ sources.now }
    {
        Sources {
            first: None,
            rest: MoreSources::Each(sources),
        }
    }

    fn with(first: &'a Src, rest: MoreSources<'a>) -> Sources<'a>
        ensures { sources_seen result ≡ first.now ∷ more_seen rest.entry }
    {
        Sources {
            first: Some(first),
            rest,
        }
    }
}

/// The sizes of tuples and the places in them that an instruction names: one or none by itself, and the sizes among the
/// values of a select.
#[derive(Clone, Copy)]
pub struct Numbers<'a> {
    pub first: Option<u32>,
    pub cases: &'a [(Src, u32)],
}

impl<'a> Numbers<'a> {
    fn none() -> Numbers<'a>
        ensures { numbers_seen result ≡ [] }
    {
        Numbers {
            first: None,
            cases: &[],
        }
    }

    fn one(number: u32) -> Numbers<'a>
        ensures { numbers_seen result ≡ number ∷ [] }
    {
        Numbers {
            first: Some(number),
            cases: &[],
        }
    }
}

/// An external function.
#[derive(Clone, Copy)]
pub struct External<'a> {
    pub owner: &'a Text,
    pub name: &'a Text,
    pub arity: u8,
}

/// The source operands of an instruction; the tag of `is_tagged_tuple` is one.
pub fn sources_of(opcode: Opcode<'_>) -> Sources<'_>
    ensures { sources_seen result ≡ spec.sources_in (opcode_seen opcode.entry) }
{
    match opcode {
        Opcode::Move { from, .. } => Sources::one(from),
        Opcode::MakeFun3 { free, .. } => Sources::each(free),
        Opcode::Bif { arguments, .. } | Opcode::Test { arguments, .. } => Sources::each(arguments),
        Opcode::PutList { head, tail, .. } => Sources::with(head, MoreSources::One(tail)),
        Opcode::PutTuple2 { elements, .. } => Sources::each(elements),
        Opcode::SetTupleElement { value, .. } => Sources::one(value),
        Opcode::PutMap { from, pairs, .. } => Sources::with(from, MoreSources::Pairs(pairs)),
        Opcode::GetMapElements { from, gets, .. } => Sources::with(from, MoreSources::Keys(gets)),
        Opcode::SelectVal { value, cases, .. } => Sources::with(value, MoreSources::Cases(cases)),
        Opcode::SelectTupleArity { tuple, .. } => Sources::one(tuple),
        Opcode::TestArity { tuple, .. } => Sources::one(tuple),
        Opcode::IsTaggedTuple { tuple, tag, .. } => Sources::with(tuple, MoreSources::Atom(tag)),
        Opcode::HasMapFields { from, keys, .. } => Sources::with(from, MoreSources::Each(keys)),
        Opcode::WaitTimeout { timeout, .. } => Sources::one(timeout),
        Opcode::Unmatches { value, .. } => Sources::one(value),
        Opcode::Raise { reason, .. } => Sources::one(reason),
        _ => Sources::each(&[]),
    }
}

/// The sizes of tuples and the places in them that an instruction names.
pub fn numbers_of(opcode: Opcode<'_>) -> Numbers<'_>
    ensures { numbers_seen result ≡ spec.numbers_in (opcode_seen opcode.entry) }
{
    match opcode {
        Opcode::Get {
            piece: Piece::Element { place },
            ..
        } => Numbers::one(place),
        Opcode::Get { .. } => Numbers::none(),
        Opcode::SetTupleElement { place, .. } => Numbers::one(place),
        Opcode::SelectTupleArity { cases, .. } => Numbers { first: None, cases },
        Opcode::TestArity { size, .. } | Opcode::IsTaggedTuple { size, .. } => Numbers::one(size),
        _ => Numbers::none(),
    }
}

/// The external function that an instruction calls, if it calls one.
pub fn external_of(opcode: Opcode<'_>) -> Option<External<'_>>
    ensures { externals_seen result ≡ spec.externals_in (opcode_seen opcode.entry) }
{
    match opcode {
        Opcode::Call {
            callee: Callee::External { owner, name, arity },
            ..
        } => { Some(External { owner, name, arity }) }
        Opcode::Call { .. } => None,
        _ => None,
    }
}
