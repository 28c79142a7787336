//! How deep the tokens of a form nest.

ghost use Rattle.std.specs.Prelude.{◌≡◌};
ghost use Rattle.asm_terms.specs.Grammar as grammar;

use crate::token::Token;

/// How many constructs may be open at a place.
const MOST_OPEN: usize = 256;

/// Whether at some place more are open than may be. Which bracket closes which does not count, and brackets that
/// close before any opens make room.
pub(crate) fn is_too_deep(tokens: &[Token]) -> bool
    ensures { result ≡ grammar.too_deep tokens.now }
{
    let mut opened = 0;
    let mut closed = 0;
    for token in tokens {
        opened += opened_by(token);
        closed += closed_by(token);
        if opened.saturating_sub(closed) > MOST_OPEN {
            return true;
        }
    }
    false
}

/// 1 for a token that opens a construct, else 0.
fn opened_by(token: &Token) -> usize
    ensures { result ≡ grammar.opened_by token.now }
{
    match token {
        Token::OpenTuple | Token::OpenList | Token::OpenMap => 1,
        _ => 0,
    }
}

/// 1 for a token that closes a construct, else 0.
fn closed_by(token: &Token) -> usize
    ensures { result ≡ grammar.closed_by token.now }
{
    match token {
        Token::CloseTuple | Token::CloseList => 1,
        _ => 0,
    }
}
