//! Characters between quotes, and escapes.

ghost use Rattle.std.specs.Prelude.{◌≡◌, ◌<◌, IfOk, SomeIff, Some, true};
ghost use Rattle.std.specs.Char.{digit_value};
ghost use Rattle.asm_terms.specs.Numbers.{is_digit};
ghost use Rattle.asm_terms.specs.Runs.{run, behind};
ghost use Rattle.asm_terms.specs.Reading.{TakesDigit, with_rest};
ghost use Rattle.asm_terms.specs.Quotes.{control as control_character, octal as octal_number, is_scalar as scalar_value, braced as braced_number, second_digit as second, hexadecimal as hexadecimal_number, escaped as escaped_character, quoted_character as character, quoted as quoted_characters};

use crate::number::{next_digit, push_digits, value_of};
use crate::reader::Reader;
use crate::spelling::Spelling;
use std::alloc::{AllocError, Global};

/// The characters up to that closing quote, which is taken too; the opening one is taken before.
#[tactic(auto, using(crate::proofs::QuoteLemmas::quoted_cases))]
pub(crate) fn quoted(
    alloc: Global,
    reader: &mut Reader<'_>,
    quote: char,
) -> Result<Option<Spelling>, AllocError>
    ensures { IfOk result (λ characters. quoted_characters quote reader.old ≡ with_rest characters reader.new) }
{
    let mut done = Spelling::new(alloc);
    while let Some(c) = reader.next() {
        if c == quote {
            return Ok(Some(done));
        }
        match quoted_character(alloc, reader, c)? {
            Some(x) => done.push(x)?,
            None => return Ok(None),
        }
    }
    Ok(None)
}

// The character that a text between quotes begins with, whose first one is taken.
fn quoted_character(
    alloc: Global,
    reader: &mut Reader<'_>,
    first: char,
) -> Result<Option<char>, AllocError>
    ensures { IfOk result (λ x. character first reader.old ≡ with_rest x reader.new) }
{
    if first == '\\' {
        escaped(alloc, reader)
    } else {
        Ok(Some(first))
    }
}

// The character that is escaped behind a backslash.
fn escaped(alloc: Global, reader: &mut Reader<'_>) -> Result<Option<char>, AllocError>
    ensures { IfOk result (λ x. escaped_character reader.old ≡ with_rest x reader.new) }
{
    let Some(c) = reader.next() else {
        return Ok(None);
    };
    if let Some(digit) = c.to_digit(8) {
        return Ok(octal(reader, digit));
    }
    match c {
        'x' => hexadecimal(alloc, reader),
        '^' => Ok(None),
        _ => Ok(Some(control(c))),
    }
}

// The character that a letter stands for behind a backslash.
fn control(c: char) -> char
    ensures { result ≡ control_character c }
{
    match c {
        'n' => '\n',
        't' => '\t',
        'r' => '\r',
        'b' => '\u{8}',
        'f' => '\u{c}',
        'v' => '\u{b}',
        'e' => '\u{1b}',
        's' => ' ',
        'd' => '\u{7f}',
        _ => c,
    }
}

// The character of an octal digit and up to two more.
fn octal(reader: &mut Reader<'_>, first: u32) -> Option<char>
    requires { first < 8 }
    ensures { Some (octal_number 2 first reader.old) ≡ with_rest result reader.new }
{
    let Some(second) = next_octal(reader) else {
        return char::from_u32(first);
    };
    let Some(third) = next_octal(reader) else {
        return char::from_u32(first * 8 + second);
    };
    char::from_u32((first * 8 + second) * 8 + third)
}

// The value of the next character, which is taken where it is an octal digit.
fn next_octal(reader: &mut Reader<'_>) -> Option<u32>
    ensures { TakesDigit 8 reader.old result reader.new }
{
    next_digit(reader, 8)?.to_digit(8)
}

// Behind `\x`: two hexadecimal digits, or digits between braces.
fn hexadecimal(alloc: Global, reader: &mut Reader<'_>) -> Result<Option<char>, AllocError>
    ensures { IfOk result (λ x. hexadecimal_number reader.old ≡ with_rest x reader.new) }
{
    let Some(c) = reader.next() else {
        return Ok(None);
    };
    if c == '{' {
        return braced(alloc, reader);
    }
    Ok(second_digit(reader, c))
}

// The character of that hexadecimal digit and the next.
fn second_digit(reader: &mut Reader<'_>, first: char) -> Option<char>
    ensures { second first reader.old ≡ with_rest result reader.new }
{
    let next = reader.next()?;
    let high = first.to_digit(16)?;
    let low = next.to_digit(16)?;
    char::from_u32(high * 16 + low)
}

// The character of the hexadecimal digits that come next, with `}` behind them.
fn braced(alloc: Global, reader: &mut Reader<'_>) -> Result<Option<char>, AllocError>
    ensures { IfOk result (λ x. braced_number (run (is_digit 16) reader.old) (behind (is_digit 16) reader.old) ≡ with_rest x reader.new) }
{
    let mut digits = Spelling::new(alloc);
    push_digits(reader, 16, &mut digits)?;
    if reader.next() != Some('}') {
        return Ok(None);
    }
    match value_of(&digits, 16) {
        Some(value) => Ok(scalar(value)),
        None => Ok(None),
    }
}

// The character with that number.
fn scalar(value: u64) -> Option<char>
    ensures { SomeIff result (scalar_value value ≡ true) value }
{
    match u32::try_from(value) {
        Ok(value) => char::from_u32(value),
        Err(_) => None,
    }
}
