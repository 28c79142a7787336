//! A place in a text, which contracts see as the characters that are left.

ghost use Rattle.std.specs.Prelude.{◌≡◌, ◌≢◌, ◌∷◌, [], MatchOption, MatchBool, drop};
ghost use Rattle.std.specs.Str.{chars};
ghost use Rattle.asm_terms.specs.Reading.{TakesWord};

use std::marker::Model;

/// What is left of a text.
#[derive(Drop)]
pub(crate) struct Reader<'a> {
    rest: &'a str,
}

impl<'a> Model for Reader<'a> {
    ghost use Rattle.std.specs.Prelude.{◌≡◌, ℕ, List, true};
    ghost use Rattle.std.specs.Str.{chars, is_utf8};

    ghost Value = { List ℕ };

    ghost view = { λ r. chars r.rest.now };

    ghost invariant = { λ r. is_utf8 r.rest.now ≡ true };
}

impl<'a> Reader<'a> {
    /// The whole text.
    pub(crate) fn new(text: &'a str) -> Reader<'a>
        ensures { result ≡ chars text.now }
    {
        Reader { rest: text }
    }

    /// Another reader at this place.
    pub(crate) fn ahead(&self) -> Reader<'a>
        ensures { result ≡ self.now }
    {
        Reader { rest: self.rest }
    }

    /// The next character, which is taken.
    pub(crate) fn next(&mut self) -> Option<char>
        ensures { MatchOption result ((self.old ≡ []) × (self.new ≡ [])) (λ c. self.old ≡ c ∷ self.new) }
    {
        let mut characters = self.rest.chars();
        let next = characters.next();
        self.rest = characters.as_str();
        next
    }

    /// The next character, which stays.
    pub(crate) fn peek(&self) -> Option<char>
        ensures { MatchOption result (self.now ≡ []) (λ c. self.now ≡ c ∷ drop 1 self.now) }
    {
        self.ahead().next()
    }

    /// Whether no character is left.
    pub(crate) fn is_at_end(&self) -> bool
        ensures { MatchBool result (self.now ≡ []) (self.now ≢ []) }
    {
        self.peek().is_none()
    }
}

/// A word is taken where it comes next.
pub(crate) fn take_word(reader: &mut Reader<'_>, word: &[char]) -> bool
    ensures { TakesWord word.now reader.old result reader.new }
{
    let mut ahead = reader.ahead();
    for c in word {
        if ahead.next() != Some(*c) {
            return false;
        }
    }
    *reader = ahead;
    true
}
