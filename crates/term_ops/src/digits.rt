//! Builtin functions between atoms, integers and their characters (the OTP module erlang).

ghost use Rattle.std.specs.Prelude.{◌≡◌, ◌-◌, ◌^◌, min, pos, neg_ℤ, true, option_map, string_bytes, IfOk};
ghost use Rattle.std.specs.Str.{chars};
ghost use Rattle.std.specs.Fmt.{signed_decimal};
ghost use Rattle.ej_term.specs.Digits as spec;
ghost use Rattle.ej_term.specs.Outcome as outcome;
ghost use Rattle.term_heap.specs.View.{Holds, Stands, term_of, Keeps};
ghost use Rattle.term_ops.specs.Answers.{Gives};
ghost use Rattle.term_ops.specs.Readings.{name_of, outcome_of, digits_of};

use crate::answer::PureAnswer;
use crate::elements::{front, is_nil};
use crate::raise::{badarg, system_limit};
use crate::read::{integer, natural};
use std::alloc::{AllocError, Global};
use term_heap::{Cell, Heap, TermId};

/// `atom_to_list/1`: the list of an atom's characters.
pub(crate) fn atom_to_list(
    alloc: Global,
    heap: &mut Heap,
    atom: TermId,
) -> Result<PureAnswer, AllocError>
    requires { Holds heap.old atom }
    ensures keeps { Keeps heap.old heap.new }
    ensures answer { IfOk result (λ a. Gives heap.new a (spec.atom_to_list (term_of heap.old atom))) }
{
    match name(alloc, heap, atom)? {
        Some(characters) => Ok(PureAnswer::Value(string(heap, &characters)?)),
        None => badarg(heap),
    }
}

/// `integer_to_list/1`: the list of the digits of an integer in base 10, behind `-` where it is negative.
pub(crate) fn integer_to_list(
    alloc: Global,
    heap: &mut Heap,
    number: TermId,
) -> Result<PureAnswer, AllocError>
    requires { Holds heap.old number }
    ensures keeps { Keeps heap.old heap.new }
    ensures answer { IfOk result (λ a. Gives heap.new a (spec.integer_to_list (term_of heap.old number))) }
{
    match integer(heap, number) {
        Some(n) => {
            let digits = decimal(alloc, n)?;
            Ok(PureAnswer::Value(string(heap, &digits)?))
        }
        None => badarg(heap),
    }
}

/// The characters of an atom's name; None of anything else.
fn name(alloc: Global, heap: &Heap, id: TermId) -> Result<Option<Vec<char>>, AllocError>
    requires { Holds heap.now id }
    ensures { IfOk result (λ found. option_map (λ characters. characters.items) found ≡ name_of (term_of heap.now id)) }
{
    match *heap.cell(id) {
        Cell::Atom(place) => Ok(Some(characters(alloc, heap.atom_text(place))?)),
        _ => Ok(None),
    }
}

/// The characters of a text.
fn characters(alloc: Global, text: &str) -> Result<Vec<char>, AllocError>
    ensures { IfOk result (λ characters. characters.items ≡ chars text.now) }
{
    text.chars().collect(alloc)
}

/// The digits of an integer in base 10, behind `-` where it is negative.
fn decimal(alloc: Global, n: i64) -> Result<Vec<char>, AllocError>
    ensures { IfOk result (λ characters. characters.items ≡ signed_decimal n) }
{
    let text = written(alloc, n)?;
    characters(alloc, &text)
}

/// An integer as it is written in base 10.
fn written(alloc: Global, n: i64) -> Result<String, AllocError>
    ensures { IfOk result (λ text. string_bytes text ≡ signed_decimal n) }
{
    format!(in alloc; "{n}")
}

/// The list of these characters.
fn string(heap: &mut Heap, characters: &[char]) -> Result<TermId, AllocError>
    ensures keeps { Keeps heap.old heap.new }
    ensures string { IfOk result (λ id. Stands heap.new id (spec.string characters.now)) }
{
    let mut list = heap.nil()?;
    for place in (0..characters.len()).rev() {
        let code = code_point(heap, characters[place])?;
        list = heap.cons(code, list)?;
    }
    Ok(list)
}

/// The code point of a character, as an integer.
fn code_point(heap: &mut Heap, character: char) -> Result<TermId, AllocError>
    ensures keeps { Keeps heap.old heap.new }
    ensures term { IfOk result (λ id. Stands heap.new id (outcome.number character)) }
{
    heap.int(i64::from(character as u32))
}

/// `list_to_integer/1`: the integer of digits in base 10, behind a sign or none.
pub(crate) fn list_to_integer(
    alloc: Global,
    heap: &mut Heap,
    list: TermId,
) -> Result<PureAnswer, AllocError>
    requires { Holds heap.old list }
    ensures keeps { Keeps heap.old heap.new }
    ensures answer { IfOk result (λ a. Gives heap.new a (spec.list_to_integer (term_of heap.old list))) }
{
    let Some(numbers) = numbers(alloc, heap, list)? else {
        return badarg(heap);
    };
    match read_signed(&numbers) {
        Reading::Integer(n) => Ok(PureAnswer::Value(heap.int(n)?)),
        Reading::TooLarge => system_limit(heap),
        Reading::NoNumber => badarg(heap),
    }
}

/// The integers of a proper list of integers from 0; None of anything else.
fn numbers(alloc: Global, heap: &Heap, list: TermId) -> Result<Option<Vec<u64>>, AllocError>
    requires { Holds heap.now list }
    ensures { IfOk result (λ found. option_map (λ numbers. numbers.items) found ≡ spec.characters (term_of heap.now list)) }
{
    let mut numbers = Vec::new(alloc);
    let mut rest = list;
    while let Some((head, tail)) = front(heap, rest) {
        let Some(number) = natural(heap, head) else {
            return Ok(None);
        };
        numbers.push(number)?;
        rest = tail;
    }
    if is_nil(heap, rest) {
        Ok(Some(numbers))
    } else {
        Ok(None)
    }
}

/// What characters come to that are to be read as an integer.
#[derive(Clone, Copy, Debug)]
enum Reading {
    /// An integer of 64 bits.
    Integer(i64),
    /// An integer that does not fit 64 bits.
    TooLarge,
    /// No integer.
    NoNumber,
}

/// Reads digits behind a sign or none.
fn read_signed(numbers: &[u64]) -> Reading
    ensures { outcome_of result ≡ spec.read_signed numbers.now }
{
    let digits = without_sign(numbers);
    if !are_digits(digits) {
        return Reading::NoNumber;
    }
    if numbers[0] == 45 {
        negative(worth(digits))
    } else {
        positive(worth(digits))
    }
}

/// What stands behind the sign, and all where there is none.
fn without_sign(numbers: &[u64]) -> &[u64]
    ensures { result.now ≡ digits_of numbers.now }
{
    match numbers {
        [45, digits @ ..] => digits,
        [43, digits @ ..] => digits,
        _ => numbers,
    }
}

/// Whether there is a digit or more, and nothing else.
fn are_digits(numbers: &[u64]) -> bool
    ensures { result ≡ spec.are_digits numbers.now }
{
    if numbers.is_empty() {
        return false;
    }
    for number in numbers {
        if *number < 48 || *number > 57 {
            return false;
        }
    }
    true
}

/// What digits are worth, and 2^64 - 1 where it is more.
fn worth(digits: &[u64]) -> u64
    requires { spec.are_digits digits.now ≡ true }
    ensures { result ≡ min (spec.worth_onto 0 digits.now) (2 ^ 64 - 1) }
{
    let mut worth: u64 = 0;
    for digit in digits {
        worth = worth.saturating_mul(10).saturating_add(*digit - 48);
    }
    worth
}

/// The integer of this worth.
fn positive(worth: u64) -> Reading
    ensures { outcome_of result ≡ outcome.integer (pos worth) }
{
    if worth < 1 << 63 {
        Reading::Integer(worth as i64)
    } else {
        Reading::TooLarge
    }
}

/// The integer of this worth, negated.
fn negative(worth: u64) -> Reading
    ensures { outcome_of result ≡ outcome.integer (neg_ℤ (pos worth)) }
{
    match worth {
        0 => Reading::Integer(0),
        _ if worth <= 1 << 63 => Reading::Integer(-((worth - 1) as i64) - 1),
        _ => Reading::TooLarge,
    }
}
