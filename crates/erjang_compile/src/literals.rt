//! The lengths of literals.

ghost use Rattle.std.specs.Prelude.{◌≡◌, [], ◌∷◌, map, option_map, IfOk};
ghost use Rattle.std.specs.List.{find};
ghost use Rattle.beam_code.specs.Code.{function_code, opcode as opcode_of};
ghost use Rattle.beam_code.specs.ConstantsSeen.{more_seen};
ghost use Rattle.beam_code.specs.Pool.{both, sources_in};
ghost use Rattle.beam_code.specs.Seen.{opcode_seen};
ghost use Rattle.ej_term.specs.AsmValue.{value};
ghost use Rattle.erjang_compile.specs.Accepted.{is_long, literals_in, literals_in_code, print_length as printed};
ghost use Rattle.erjang_compile.specs.Answers.{as_large, first_over};

use crate::fault::Large;
use beam_code::{Function, Instr, MoreSources, Opcode, Reg, Src, sources_of};
use ej_term::AsmTerm;
use std::alloc::{AllocError, Global};
use term_heap::{Heap, LoadFault};
use term_text::print;

/// The most bytes that the print of a literal may have.
const LONGEST_LITERAL: u64 = 65535;

/// The first literal of functions that is too long, in the order of the file. The error says that memory was wanting.
pub(crate) fn first_long(alloc: Global, functions: &[Function]) -> Result<Option<Large>, AllocError>
    ensures { IfOk result (λ large. large ≡ option_map as_large (find is_long (literals_in 0 (map function_code functions.now)))) }
{
    for (func, function) in functions.iter().enumerate() {
        if let Some(large) = long_in_code(alloc, func, function.code.as_slice())? {
            return Ok(Some(large));
        }
    }
    Ok(None)
}

// The first that is too long in the code of the function of that number.
fn long_in_code(alloc: Global, func: usize, code: &[Instr]) -> Result<Option<Large>, AllocError>
    ensures { IfOk result (λ large. large ≡ option_map as_large (find is_long (literals_in_code func 0 (map opcode_of code.now)))) }
{
    for (index, instr) in code.iter().enumerate() {
        if let Some(bytes) = over_in_instr(alloc, instr.opcode())? {
            return Ok(Some(Large::Literal { func, index, bytes }));
        }
    }
    Ok(None)
}

// The first length that is too large of an instruction's literals.
fn over_in_instr(alloc: Global, opcode: Opcode<'_>) -> Result<Option<u64>, AllocError>
    ensures { IfOk result (λ bytes. bytes ≡ first_over (sources_in (opcode_seen opcode.entry))) }
{
    let sources = sources_of(opcode);
    if let Some(first) = sources.first {
        if let Some(bytes) = over(alloc, first)? {
            return Ok(Some(bytes));
        }
    }
    over_in_rest(alloc, sources.rest)
}

// The same of the sources behind the first.
fn over_in_rest(alloc: Global, rest: MoreSources<'_>) -> Result<Option<u64>, AllocError>
    ensures { IfOk result (λ bytes. bytes ≡ first_over (more_seen rest.entry)) }
{
    match rest {
        MoreSources::Each(sources) => over_in_sources(alloc, sources),
        MoreSources::One(source) => over(alloc, source),
        MoreSources::Atom(_) => Ok(None),
        MoreSources::Pairs(pairs) => over_in_pairs(alloc, pairs),
        MoreSources::Keys(gets) => over_in_keys(alloc, gets),
        MoreSources::Cases(cases) => over_in_cases(alloc, cases),
    }
}

fn over_in_sources(alloc: Global, sources: &[Src]) -> Result<Option<u64>, AllocError>
    ensures { IfOk result (λ bytes. bytes ≡ first_over sources.now) }
{
    for source in sources {
        if let Some(bytes) = over(alloc, source)? {
            return Ok(Some(bytes));
        }
    }
    Ok(None)
}

fn over_in_pairs(alloc: Global, pairs: &[(Src, Src)]) -> Result<Option<u64>, AllocError>
    ensures { IfOk result (λ bytes. bytes ≡ first_over (both pairs.now)) }
{
    for (key, value) in pairs {
        if let Some(bytes) = over(alloc, key)? {
            return Ok(Some(bytes));
        }
        if let Some(bytes) = over(alloc, value)? {
            return Ok(Some(bytes));
        }
    }
    Ok(None)
}

fn over_in_keys(alloc: Global, gets: &[(Src, Reg)]) -> Result<Option<u64>, AllocError>
    ensures { IfOk result (λ bytes. bytes ≡ first_over (map (λ g. g.0) gets.now)) }
{
    for (key, _) in gets {
        if let Some(bytes) = over(alloc, key)? {
            return Ok(Some(bytes));
        }
    }
    Ok(None)
}

fn over_in_cases(alloc: Global, cases: &[(Src, u32)]) -> Result<Option<u64>, AllocError>
    ensures { IfOk result (λ bytes. bytes ≡ first_over (map (λ c. c.0) cases.now)) }
{
    for (case, _) in cases {
        if let Some(bytes) = over(alloc, case)? {
            return Ok(Some(bytes));
        }
    }
    Ok(None)
}

// The length of a literal that is too long.
fn over(alloc: Global, source: &Src) -> Result<Option<u64>, AllocError>
    ensures { IfOk result (λ bytes. bytes ≡ first_over (source.now ∷ [])) }
{
    let Src::Literal(term) = source else {
        return Ok(None);
    };
    let Some(bytes) = print_length(alloc, term)? else {
        return Ok(None);
    };
    if bytes > LONGEST_LITERAL {
        return Ok(Some(bytes));
    }
    Ok(None)
}

// The bytes of the print of what a source's term stands for; none where an opaque token is in it.
fn print_length(alloc: Global, term: &AsmTerm) -> Result<Option<u64>, AllocError>
    ensures { IfOk result (λ bytes. bytes ≡ option_map printed (value term.now)) }
{
    let mut heap = Heap::new(alloc);
    match heap.load(term) {
        Ok(id) => Ok(Some(print(alloc, &heap, id)?.len() as u64)),
        Err(LoadFault::Opaque) => Ok(None),
        Err(LoadFault::NoMemory) => Err(AllocError),
    }
}
