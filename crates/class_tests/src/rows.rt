//! Words of rows, and bytes in hexadecimal.

use std::alloc::Global;
use std::test::Fail;

// The next word of a line.
pub(crate) fn word<'a>(words: &mut std::str::Split<'a, char>) -> &'a str {
    words.next().unwrap_or("")
}

// The bytes that hexadecimal digits spell.
pub(crate) fn bytes_of(alloc: Global, digits: &str) -> Result<Vec<u8>, Fail> {
    let mut bytes = Vec::new(alloc);
    for pair in digits.as_bytes().chunks(2) {
        bytes.push(u8::from_str_radix(std::str::from_utf8(pair)?, 16)?)?;
    }
    Ok(bytes)
}
