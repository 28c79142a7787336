//! Names that are written without quotes.

ghost use Rattle.std.specs.Prelude.{◌≡◌};
ghost use Rattle.std.specs.List.{list_all, list_any};
ghost use Rattle.std.specs.Str.{bytes_eq, chars};
ghost use Rattle.ej_term.specs.Atoms.{is_name as name, is_name_character as name_character, is_plain as plain, is_reserved as reserved};

/// Whether an atom of this name needs no quotes: a letter a-z, then letters, digits, `_` and `@`, and no reserved
/// word.
pub(crate) fn is_plain(text: &str) -> bool
    ensures { result ≡ plain (chars text.now) }
{
    has_plain_bytes(text.as_bytes())
}

fn has_plain_bytes(text: &[u8]) -> bool
    ensures { result ≡ plain text.now }
{
    is_name(text) && !is_reserved(text)
}

fn is_name(text: &[u8]) -> bool
    ensures { result ≡ name text.now }
{
    match text.split_first() {
        None => false,
        Some((first, rest)) => first.is_ascii_lowercase() && all_name_characters(rest),
    }
}

fn all_name_characters(text: &[u8]) -> bool
    ensures { result ≡ list_all name_character text.now }
{
    text.iter().all(|byte| is_name_character(*byte))
}

/// A letter, a digit, `_` or `@`.
fn is_name_character(byte: u8) -> bool
    ensures { result ≡ name_character byte }
{
    byte.is_ascii_alphanumeric() || byte == b'_' || byte == b'@'
}

// The words that are no atom without quotes.
const RESERVED: [&[u8]; 27] = [
    b"after", b"and", b"andalso", b"band", b"begin", b"bnot", b"bor", b"bsl", b"bsr", b"bxor",
    b"case", b"catch", b"cond", b"div", b"end", b"fun", b"if", b"let", b"not", b"of", b"or",
    b"orelse", b"receive", b"rem", b"try", b"when", b"xor",
];

fn is_reserved(text: &[u8]) -> bool
    ensures { result ≡ reserved text.now }
{
    has_word(&RESERVED, text)
}

fn has_word(words: &[&[u8]], text: &[u8]) -> bool
    ensures { result ≡ list_any (λ word. bytes_eq word.now text.now) words.now }
{
    words.iter().any(|word| *word == text)
}
