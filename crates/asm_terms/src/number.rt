//! Integers and floats.

ghost use Rattle.std.specs.Prelude.{◌≡◌, ◌<◌, ◌≤◌, ◌∷◌, ◌++◌, ◌^◌, [], IfOk, OnOk, SomeIff, MatchOption, length, true, codes, drop};
ghost use Rattle.std.specs.Str.Parse.{AllDigits, digits_value};
ghost use Rattle.asm_terms.specs.Runs.{run, behind, begins};
ghost use Rattle.asm_terms.specs.Reading.{IsInteger, IsMinus, Takes};
ghost use Rattle.asm_terms.specs.declared.token.Token.TheVariants as token;
ghost use Rattle.asm_terms.specs.Numbers.{is_digit, is_sign as sign, is_exponent_mark as exponent_mark, begins_number as digit_first, begins_fraction as fraction_first, integer as integer_token, number as number_token, with_fraction, exponent as exponent_at, with_exponent};

use crate::reader::Reader;
use crate::spelling::Spelling;
use crate::token::Token;
use std::alloc::{AllocError, Global};

/// The next character, which is taken where it is a digit of that base.
pub(crate) fn next_digit(reader: &mut Reader<'_>, base: u32) -> Option<char>
    requires from_binary { 2 ≤ base }
    requires to_letters { base ≤ 36 }
    ensures { Takes (is_digit base) reader.old result reader.new }
{
    let c = reader.peek()?;
    if !c.is_digit(base) {
        return None;
    }
    reader.next()
}

/// The digits of that base that come next are taken and spelled.
pub(crate) fn push_digits(
    reader: &mut Reader<'_>,
    base: u32,
    spelled: &mut Spelling,
) -> Result<(), AllocError>
    requires from_binary { 2 ≤ base }
    requires to_letters { base ≤ 36 }
    ensures spelled { OnOk result (spelled.new ≡ spelled.old ++ run (is_digit base) reader.old) }
    ensures rest { OnOk result (reader.new ≡ behind (is_digit base) reader.old) }
{
    while let Some(c) = next_digit(reader, base) {
        spelled.push(c)?;
    }
    Ok(())
}

/// The number that digits write, where there is one digit at least and the number has 64 bits at most.
pub(crate) fn value_of(digits: &Spelling, base: u32) -> Option<u64>
    requires from_binary { 2 ≤ base }
    requires to_letters { base ≤ 36 }
    requires digits { AllDigits base digits.now }
    ensures { SomeIff result ((0 < length digits.now) × (digits_value base digits.now < 2 ^ 64)) (digits_value base digits.now) }
{
    u64::from_str_radix(digits.as_str(), base).ok()
}

/// Whether a decimal digit comes next.
pub(crate) fn begins_number(reader: &Reader<'_>) -> bool
    ensures { result ≡ digit_first reader.now }
{
    match reader.peek() {
        Some(c) => c.is_digit(10),
        None => false,
    }
}

/// The number whose digits come next, behind a minus or none, which is spelled.
pub(crate) fn number(
    alloc: Global,
    reader: &mut Reader<'_>,
    spelled: &mut Spelling,
) -> Result<Token, AllocError>
    requires minus { IsMinus spelled.old }
    requires digit { digit_first reader.old ≡ true }
    ensures { IfOk result (λ token. number_token spelled.old reader.old ≡ (token, reader.new)) }
{
    push_digits(reader, 10, spelled)?;
    if begins_fraction(reader) {
        fraction(alloc, reader, spelled)
    } else {
        integer(alloc, spelled)
    }
}

// The integer of a minus or none and of digits.
fn integer(alloc: Global, spelled: &Spelling) -> Result<Token, AllocError>
    requires { IsInteger spelled.now }
    ensures { IfOk result (λ token. token ≡ integer_token spelled.now) }
{
    match spelled.as_str().parse::<i64>() {
        Ok(value) => Ok(Token::Int(value)),
        Err(_) => opaque(alloc, spelled),
    }
}

/// What is kept as it is spelled.
pub(crate) fn opaque(alloc: Global, spelled: &Spelling) -> Result<Token, AllocError>
    ensures { IfOk result (λ made. made ≡ token.Opaque spelled.now) }
{
    Ok(Token::Opaque(spelled.to_text(alloc)?))
}

// Whether `.` and a digit come next.
fn begins_fraction(reader: &Reader<'_>) -> bool
    ensures { result ≡ fraction_first reader.now }
{
    let mut ahead = reader.ahead();
    if ahead.next() != Some('.') {
        return false;
    }
    begins_number(&ahead)
}

// The float whose digits before the point are spelled.
fn fraction(
    alloc: Global,
    reader: &mut Reader<'_>,
    spelled: &mut Spelling,
) -> Result<Token, AllocError>
    requires { fraction_first reader.old ≡ true }
    ensures { IfOk result (λ token. with_fraction (spelled.old ++ 46 ∷ []) (drop 1 reader.old) ≡ (token, reader.new)) }
{
    if let Some(point) = reader.next() {
        spelled.push(point)?;
    }
    push_digits(reader, 10, spelled)?;
    push_exponent(reader, spelled)?;
    opaque(alloc, spelled)
}

// The exponent that comes next, if there is one, is taken and spelled.
fn push_exponent(reader: &mut Reader<'_>, spelled: &mut Spelling) -> Result<(), AllocError>
    ensures { OnOk result (with_exponent spelled.old (exponent_at reader.old) reader.old ≡ (spelled.new, reader.new)) }
{
    let mut ahead = reader.ahead();
    let Some(mark) = next_exponent_mark(&mut ahead) else {
        return Ok(());
    };
    let sign = next_sign(&mut ahead);
    if !begins_number(&ahead) {
        return Ok(());
    }
    spelled.push(mark)?;
    if let Some(sign) = sign {
        spelled.push(sign)?;
    }
    push_digits(&mut ahead, 10, spelled)?;
    *reader = ahead;
    Ok(())
}

// The next character, which is taken where it is `e` or `E`.
fn next_exponent_mark(reader: &mut Reader<'_>) -> Option<char>
    ensures { Takes exponent_mark reader.old result reader.new }
{
    let c = reader.peek()?;
    if !matches!(c, 'e' | 'E') {
        return None;
    }
    reader.next()
}

// The next character, which is taken where it is a sign.
fn next_sign(reader: &mut Reader<'_>) -> Option<char>
    ensures { Takes sign reader.old result reader.new }
{
    let c = reader.peek()?;
    if !matches!(c, '+' | '-') {
        return None;
    }
    reader.next()
}
