//! Atoms without quotes.

ghost use Rattle.std.specs.Prelude.{◌≡◌, IfOk, OnOk, ℕ, List, codes};
ghost use Rattle.std.specs.Str.{bytes_eq};
ghost use Rattle.asm_terms.specs.Runs.{run, behind};
ghost use Rattle.asm_terms.specs.Reading.{Takes, with_rest};
ghost use Rattle.asm_terms.specs.Names.{begins_name as name_begins, is_name_character as name_character, name as name_at, atom as atom_token};

use crate::reader::Reader;
use crate::spelling::Spelling;
use crate::token::Token;
use std::alloc::{AllocError, Global};

/// How many characters an atom has at most.
const MOST_CHARACTERS: usize = 255;

/// Whether an atom without quotes begins with that character.
pub(crate) fn begins_name(c: char) -> bool
    ensures { result ≡ name_begins c }
{
    matches!(c, 'a'..='z' | '\u{df}'..='\u{f6}' | '\u{f8}'..='\u{ff}')
}

fn is_name_character(c: char) -> bool
    ensures { result ≡ name_character c }
{
    matches!(
        c,
        'a'..='z' | 'A'..='Z' | '0'..='9' | '_' | '@' | '\u{c0}'..='\u{d6}' | '\u{d8}'..='\u{f6}' | '\u{f8}'..='\u{ff}'
    )
}

// The next character, which is taken where it belongs to a name.
fn next_name_character(reader: &mut Reader<'_>) -> Option<char>
    ensures { Takes name_character reader.old result reader.new }
{
    let c = reader.peek()?;
    if !is_name_character(c) {
        return None;
    }
    reader.next()
}

// The name's characters that come next are taken.
fn name_characters(alloc: Global, reader: &mut Reader<'_>) -> Result<Spelling, AllocError>
    ensures spelled { IfOk result (λ spelled. spelled ≡ run name_character reader.old) }
    ensures rest { OnOk result (reader.new ≡ behind name_character reader.old) }
{
    let mut spelled = Spelling::new(alloc);
    while let Some(c) = next_name_character(reader) {
        spelled.push(c)?;
    }
    Ok(spelled)
}

/// The atom, or the word `fun`, that comes next.
pub(crate) fn name(alloc: Global, reader: &mut Reader<'_>) -> Result<Option<Token>, AllocError>
    ensures { IfOk result (λ token. name_at reader.old ≡ with_rest token reader.new) }
{
    let spelled = name_characters(alloc, reader)?;
    if is_fun(&spelled) {
        return Ok(Some(Token::Fun));
    }
    atom(alloc, &spelled)
}

fn is_fun(spelled: &Spelling) -> bool
    ensures { result ≡ bytes_eq spelled.now (codes "fun") }
{
    spelled.as_str() == "fun"
}

/// The atom of these characters.
pub(crate) fn atom(alloc: Global, spelled: &Spelling) -> Result<Option<Token>, AllocError>
    ensures { IfOk result (λ token. (rest : List ℕ) → atom_token spelled.now rest ≡ with_rest token rest) }
{
    if spelled.len() > MOST_CHARACTERS {
        return Ok(None);
    }
    Ok(Some(Token::Atom(spelled.to_text(alloc)?)))
}
