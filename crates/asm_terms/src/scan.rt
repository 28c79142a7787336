//! The tokens of a form.

ghost use Rattle.std.specs.Prelude.{◌≡◌, IfOk, OnOk, codes, ◌++◌};
ghost use Rattle.asm_terms.specs.Reading.{TakesStop, with_rest};
ghost use Rattle.asm_terms.specs.FormRead.{SplitsForm};
ghost use Rattle.asm_terms.specs.declared.token.Token.TheVariants as token;
ghost use Rattle.asm_terms.specs.Blanks.{ends_form as form_ends};
ghost use Rattle.asm_terms.specs.Tokens.{token_at as first_token, mark as mark_token, with_token, joined, negative as negative_at, quoted_atom as quoted_atom_at, string as string_at, binary_behind as binary_at};

use crate::binary::binary;
use crate::blank::{is_blank, skip_blank};
use crate::identifier::behind_hash;
use crate::name::{atom, begins_name, name};
use crate::number::{begins_number, number};
use crate::quote::quoted;
use crate::reader::{Reader, take_word};
use crate::row::Row;
use crate::spelling::Spelling;
use crate::token::Token;
use sqlite_items::Items;
use std::alloc::{AllocError, Global};

/// The tokens of the form that comes next, without its full stop, which is taken too; `None` where a character begins no token, or
/// no full stop follows. White space and comments before the form are taken.
pub(crate) fn form_tokens(
    alloc: Global,
    reader: &mut Reader<'_>,
) -> Result<Option<Row<Token>>, AllocError>
    ensures { IfOk result (λ found. SplitsForm reader.old found reader.new) }
{
    let mut tokens = Row::new(alloc);
    let mut spelled = Spelling::new(alloc);
    skip_blank(reader);
    'tokens: while !reader.is_at_end() {
        if take_full_stop(reader) {
            return Ok(Some(tokens));
        }
        match token_at(alloc, reader, &mut spelled)? {
            Some(token) => push_token(&mut tokens, token)?,
            None => return Ok(None),
        }
        skip_blank(reader);
    }
    Ok(None)
}

// A `.` is taken where it is a full stop.
fn take_full_stop(reader: &mut Reader<'_>) -> bool
    ensures { TakesStop reader.old result reader.new }
{
    let mut ahead = reader.ahead();
    if ahead.next() != Some('.') || !ends_form(&ahead) {
        return false;
    }
    *reader = ahead;
    true
}

// Whether a `.` is a full stop here: before white space, a comment or the end.
fn ends_form(reader: &Reader<'_>) -> bool
    ensures { result ≡ form_ends reader.now }
{
    match reader.peek() {
        Some(c) => is_blank(c) || c == '%',
        None => true,
    }
}

// One more token; a string behind a string is one with it.
#[tactic(auto, using(crate::proofs::TokenLemmas::token_cases))]
fn push_token(tokens: &mut Row<Token>, token: Token) -> Result<(), AllocError>
    ensures { OnOk result (tokens.new ≡ with_token tokens.old token) }
{
    match token {
        Token::Str(characters) => push_string(tokens, characters),
        token => tokens.push(token),
    }
}

#[tactic(auto, using(crate::proofs::TokenLemmas::token_cases))]
fn push_string(tokens: &mut Row<Token>, characters: Items<u32>) -> Result<(), AllocError>
    ensures { OnOk result (tokens.new ≡ with_token tokens.old (token.Str characters)) }
{
    match tokens.pop() {
        Some(last) => push_string_behind(tokens, last, characters),
        None => tokens.push(Token::Str(characters)),
    }
}

// The token that was last, and a string.
#[tactic(auto, using(crate::proofs::TokenLemmas::token_cases))]
fn push_string_behind(
    tokens: &mut Row<Token>,
    last: Token,
    more: Items<u32>,
) -> Result<(), AllocError>
    ensures { OnOk result (tokens.new ≡ tokens.old ++ joined last (token.Str more)) }
{
    match last {
        Token::Str(first) => {
            let mut characters = first;
            characters.append(more)?;
            tokens.push(Token::Str(characters))
        }
        last => {
            tokens.push(last)?;
            tokens.push(Token::Str(more))
        }
    }
}

// The token that comes next, which is taken; `spelled` has room for a number's characters.
fn token_at(
    alloc: Global,
    reader: &mut Reader<'_>,
    spelled: &mut Spelling,
) -> Result<Option<Token>, AllocError>
    ensures { IfOk result (λ token. first_token reader.old ≡ with_rest token reader.new) }
{
    let Some(c) = reader.peek() else {
        return Ok(None);
    };
    if c.is_digit(10) {
        spelled.clear();
        return Ok(Some(number(alloc, reader, spelled)?));
    }
    if begins_name(c) {
        return name(alloc, reader);
    }
    let _ = reader.next();
    match c {
        '-' => negative(alloc, reader, spelled),
        '\'' => quoted_atom(alloc, reader),
        '"' => string(alloc, reader),
        '<' => binary_behind(alloc, reader),
        '#' => behind_hash(alloc, reader),
        _ => Ok(mark(reader, c)),
    }
}

// The number whose `-` is taken.
fn negative(
    alloc: Global,
    reader: &mut Reader<'_>,
    spelled: &mut Spelling,
) -> Result<Option<Token>, AllocError>
    ensures { IfOk result (λ token. negative_at reader.old ≡ with_rest token reader.new) }
{
    if !begins_number(reader) {
        return Ok(None);
    }
    spell_minus(spelled)?;
    Ok(Some(number(alloc, reader, spelled)?))
}

fn spell_minus(spelled: &mut Spelling) -> Result<(), AllocError>
    ensures { OnOk result (spelled.new ≡ codes "-") }
{
    spelled.clear();
    spelled.push('-')?;
    Ok(())
}

// The atom whose opening quote is taken.
fn quoted_atom(alloc: Global, reader: &mut Reader<'_>) -> Result<Option<Token>, AllocError>
    ensures { IfOk result (λ token. quoted_atom_at reader.old ≡ with_rest token reader.new) }
{
    match quoted(alloc, reader, '\'')? {
        Some(characters) => atom(alloc, &characters),
        None => Ok(None),
    }
}

// The string whose opening quote is taken.
fn string(alloc: Global, reader: &mut Reader<'_>) -> Result<Option<Token>, AllocError>
    ensures { IfOk result (λ token. string_at reader.old ≡ with_rest token reader.new) }
{
    match quoted(alloc, reader, '"')? {
        Some(characters) => Ok(Some(Token::Str(characters.to_items(alloc)?))),
        None => Ok(None),
    }
}

// The binary whose first `<` is taken.
fn binary_behind(alloc: Global, reader: &mut Reader<'_>) -> Result<Option<Token>, AllocError>
    ensures { IfOk result (λ token. binary_at reader.old ≡ with_rest token reader.new) }
{
    if !take_word(reader, &['<']) {
        return Ok(None);
    }
    binary(alloc, reader)
}

// The mark that begins with that character, which is taken.
fn mark(reader: &mut Reader<'_>, c: char) -> Option<Token>
    ensures { mark_token c reader.old ≡ with_rest result reader.new }
{
    match c {
        '{' => Some(Token::OpenTuple),
        '}' => Some(Token::CloseTuple),
        '[' => Some(Token::OpenList),
        ']' => Some(Token::CloseList),
        ',' => Some(Token::Comma),
        '|' => Some(Token::Bar),
        ':' => Some(Token::Colon),
        '/' => Some(Token::Slash),
        '.' => Some(Token::Dot),
        '=' if take_word(reader, &['>']) => Some(Token::Arrow),
        _ => None,
    }
}
