//! Pids and references.

ghost use Rattle.std.specs.Prelude.{◌≡◌, IfOk};
ghost use Rattle.asm_terms.specs.Reading.{with_rest};
ghost use Rattle.asm_terms.specs.Identifiers.{number_up_to as number_at, node as node_at, last_number, behind_hash as token_behind_hash, pid as pid_token, reference as reference_token};

use crate::number::{push_digits, value_of};
use crate::reader::{Reader, take_word};
use crate::spelling::Spelling;
use crate::token::Token;
use std::alloc::{AllocError, Global};

const LARGEST_NUMBER: u64 = 1 << 62;

/// The token whose `#` is taken.
pub(crate) fn behind_hash(
    alloc: Global,
    reader: &mut Reader<'_>,
) -> Result<Option<Token>, AllocError>
    ensures { IfOk result (λ token. token_behind_hash reader.old ≡ with_rest token reader.new) }
{
    if take_word(reader, &['{']) {
        return Ok(Some(Token::OpenMap));
    }
    if take_word(reader, &['P', 'i', 'd', '<']) {
        return pid(alloc, reader);
    }
    if take_word(reader, &['R', 'e', 'f', '<']) {
        return reference(alloc, reader);
    }
    Ok(None)
}

// The pid whose `#Pid<` is taken.
fn pid(alloc: Global, reader: &mut Reader<'_>) -> Result<Option<Token>, AllocError>
    ensures { IfOk result (λ token. pid_token reader.old ≡ with_rest token reader.new) }
{
    let Some(node) = node(alloc, reader)? else {
        return Ok(None);
    };
    let Some(number) = number(alloc, reader)? else {
        return Ok(None);
    };
    Ok(Some(Token::Pid(node, number)))
}

// The reference whose `#Ref<` is taken.
fn reference(alloc: Global, reader: &mut Reader<'_>) -> Result<Option<Token>, AllocError>
    ensures { IfOk result (λ token. reference_token reader.old ≡ with_rest token reader.new) }
{
    let Some(node) = node(alloc, reader)? else {
        return Ok(None);
    };
    let Some(number) = number(alloc, reader)? else {
        return Ok(None);
    };
    Ok(Some(Token::Ref(node, number)))
}

// `N.`
fn node(alloc: Global, reader: &mut Reader<'_>) -> Result<Option<u32>, AllocError>
    ensures { IfOk result (λ n. node_at reader.old ≡ with_rest n reader.new) }
{
    let Some(number) = number_up_to(alloc, reader, u64::from(u32::MAX))? else {
        return Ok(None);
    };
    if !take_word(reader, &['.']) {
        return Ok(None);
    }
    Ok(u32::try_from(number).ok())
}

// `K>`
fn number(alloc: Global, reader: &mut Reader<'_>) -> Result<Option<u64>, AllocError>
    ensures { IfOk result (λ n. last_number reader.old ≡ with_rest n reader.new) }
{
    let Some(number) = number_up_to(alloc, reader, LARGEST_NUMBER)? else {
        return Ok(None);
    };
    if !take_word(reader, &['>']) {
        return Ok(None);
    }
    Ok(Some(number))
}

// The number of one digit or more that comes next, where it is not above the most.
fn number_up_to(
    alloc: Global,
    reader: &mut Reader<'_>,
    most: u64,
) -> Result<Option<u64>, AllocError>
    ensures { IfOk result (λ n. number_at most reader.old ≡ with_rest n reader.new) }
{
    let mut digits = Spelling::new(alloc);
    push_digits(reader, 10, &mut digits)?;
    match value_of(&digits, 10) {
        Some(value) if value <= most => Ok(Some(value)),
        _ => Ok(None),
    }
}
