//! How names become names of classes and methods, and which bytes are such a name.

ghost use Rattle.std.specs.Prelude.{◌≡◌, ◌++◌, ◌-◌, ◌<◌, ◌≤◌, length, IfOk, IfSome, OnOk, Some, string_bytes};
ghost use Rattle.std.specs.Option.{option_map};
ghost use Rattle.std.specs.Str.{is_utf8};
ghost use Rattle.jvm_code.specs.Names as spec;
ghost use Rattle.jvm_code.specs.NamePlaces.{Fits, place_of, read_of};

use ej_term::Text;
use std::alloc::{AllocError, Global};

/// Whether a byte of a name stays as it is: A-Z, a-z, 0-9 and `_`.
fn is_plain(byte: u8) -> bool
    ensures { result ≡ spec.is_kept byte }
{
    matches!(byte, b'A'..=b'Z' | b'a'..=b'z' | b'0'..=b'9' | b'_')
}

/// The upper-case hexadecimal digit of a value below 16.
fn digit(value: u8) -> u8
    requires { value < 16 }
    ensures { result ≡ spec.upper_digit value }
{
    if value < 10 {
        b'0' + value
    } else {
        b'A' + (value - 10)
    }
}

/// Appends a byte as it is, or as `$` and its two digits.
fn push_mangled(out: &mut String, byte: u8) -> Result<(), AllocError>
    ensures { OnOk result (string_bytes out.new ≡ string_bytes out.old ++ spec.mangle_byte byte) }
{
    if is_plain(byte) {
        return out.push(byte as char);
    }
    out.push('$')?;
    out.push(digit(byte / 16) as char)?;
    out.push(digit(byte % 16) as char)
}

/// The name with each byte of its UTF-8 mangled: those that may stand in a name stay, and each other one becomes `$` and
/// two upper-case hexadecimal digits. The error says that memory was wanting.
pub fn mangle(alloc: Global, name: &Text) -> Result<String, AllocError>
    ensures { IfOk result (λ mangled. string_bytes mangled ≡ spec.mangle name.now) }
{
    let mut out = String::new(alloc);
    for byte in name.as_str().as_bytes() {
        push_mangled(&mut out, *byte)?;
    }
    Ok(out)
}

/// A place in a mangled text.
#[derive(Clone, Copy)]
enum Place {
    /// Before a byte of the name.
    Before,
    /// Behind the `$` of a byte.
    Dollar,
    /// Behind the `$` and the first digit of a byte.
    High(u8),
}

/// The value of an upper-case hexadecimal digit.
fn hexadecimal(byte: u8) -> Option<u8>
    ensures value { result ≡ spec.hexadecimal byte }
    ensures small { IfSome result (λ digit. digit < 16) }
{
    match byte {
        b'0'..=b'9' => Some(byte - b'0'),
        b'A'..=b'F' => Some(byte - 55),
        _ => None,
    }
}

/// The byte of two digits, where it is one that is not written as it is.
fn escaped(high: u8, low: u8) -> Option<(Place, Option<u8>)>
    requires { (high < 16) × (low < 16) }
    ensures read { option_map read_of result ≡ spec.escaped high (Some low) }
    ensures fits { IfSome result (λ read. Fits (place_of read.0)) }
{
    let byte = 16 * high + low;
    if is_plain(byte) {
        return None;
    }
    Some((Place::Before, Some(byte)))
}

/// The place behind a byte of the mangled text, and the byte of the name that it completes, if any.
fn read_byte(place: Place, byte: u8) -> Option<(Place, Option<u8>)>
    requires { Fits (place_of place) }
    ensures read { option_map read_of result ≡ spec.read_byte (place_of place) byte }
    ensures fits { IfSome result (λ read. Fits (place_of read.0)) }
{
    match place {
        Place::Before => {
            if byte == b'$' {
                return Some((Place::Dollar, None));
            }
            if is_plain(byte) {
                return Some((Place::Before, Some(byte)));
            }
            None
        }
        Place::Dollar => Some((Place::High(hexadecimal(byte)?), None)),
        Place::High(high) => escaped(high, hexadecimal(byte)?),
    }
}

/// The bytes that are mangled so. None where no bytes are.
fn unmangle(alloc: Global, text: &[u8]) -> Result<Option<Vec<u8>>, AllocError>
    ensures { IfOk result (λ read. option_map (λ bytes. bytes.items) read ≡ spec.unmangle text.now) }
{
    let mut bytes = Vec::new(alloc);
    let mut place = Place::Before;
    for byte in text {
        let Some((behind, read)) = read_byte(place, *byte) else {
            return Ok(None);
        };
        place = behind;
        if let Some(byte) = read {
            bytes.push(byte)?;
        }
    }
    match place {
        Place::Before => Ok(Some(bytes)),
        _ => Ok(None),
    }
}

/// Whether the text is a mangled name.
fn is_mangled(alloc: Global, text: &[u8]) -> Result<bool, AllocError>
    ensures { IfOk result (λ is. is ≡ spec.is_mangled text.now) }
{
    match unmangle(alloc, text)? {
        Some(bytes) => Ok(is_text(bytes.as_slice())),
        None => Ok(false),
    }
}

/// Whether the bytes are UTF-8.
#[tactic(auto, using(crate::proofs::Utf8Test::is_text, crate::proofs::Utf8Test::is_no_text))]
fn is_text(bytes: &[u8]) -> bool
    ensures { is_utf8 bytes.now ≡ result }
{
    match std::str::from_utf8(bytes) {
        Ok(_) => true,
        Err(_) => false,
    }
}

/// Whether the text is the class of a module whose name is not empty. The error says that memory was wanting.
pub fn is_class_name(alloc: Global, text: &[u8]) -> Result<bool, AllocError>
    ensures { IfOk result (λ is. is ≡ spec.is_class_name text.now) }
{
    if text.len() <= 6 {
        return Ok(false);
    }
    let (folder, name) = text.split_at(6);
    if folder != b"erl/m/".as_slice() {
        return Ok(false);
    }
    is_mangled(alloc, name)
}

fn is_digit(byte: u8) -> bool
    ensures { result ≡ spec.is_digit byte }
{
    byte.is_ascii_digit()
}

/// The place behind the last byte that is no digit.
fn digits_at(text: &[u8]) -> usize
    ensures place { result ≡ spec.digits_at text.now }
    ensures within { result ≤ length text.now }
{
    let mut found = 0;
    for (at, byte) in text.iter().enumerate() {
        if !is_digit(*byte) {
            found = at + 1;
        }
    }
    found
}

/// How much a digit stands for.
fn worth(digit: u8) -> u16
    ensures value { result ≡ digit - 48 }
    ensures small { result < 208 }
{
    u16::from(digit.saturating_sub(b'0'))
}

/// The number of one to three digits, of which the first is not 0 where there are several.
fn small_number(digits: &[u8]) -> Option<u16>
    ensures { result ≡ spec.small_number digits.now }
{
    match digits {
        [a] => Some(worth(*a)),
        [b'0', ..] => None,
        [a, b] => Some(10 * worth(*a) + worth(*b)),
        [a, b, c] => Some(100 * worth(*a) + 10 * worth(*b) + worth(*c)),
        _ => None,
    }
}

/// What stands before a mark of two characters and a number at the end, and the number.
fn numbered<'a>(mark: &[u8], text: &'a [u8]) -> Option<(&'a [u8], u16)>
    ensures { option_map (λ split. (split.0.now, split.1)) result ≡ spec.numbered mark.now text.now }
{
    let place = digits_at(text);
    if place < 2 {
        return None;
    }
    let (marked, digits) = text.split_at(place);
    let (name, before) = marked.split_at(place - 2);
    if before != mark {
        return None;
    }
    Some((name, small_number(digits)?))
}

/// Whether the text is the method of a function with an arity of at most 255.
fn names_function(alloc: Global, text: &[u8]) -> Result<bool, AllocError>
    ensures { IfOk result (λ is. is ≡ spec.names_function text.now) }
{
    match numbered(b"__", text) {
        Some((name, arity)) => {
            if arity >= 256 {
                return Ok(false);
            }
            is_mangled(alloc, name)
        }
        None => Ok(false),
    }
}

/// Whether the text is the method of a part of a function.
fn names_part(alloc: Global, text: &[u8]) -> Result<bool, AllocError>
    ensures { IfOk result (λ is. is ≡ spec.names_part text.now) }
{
    match numbered(b"$p", text) {
        Some((function, part)) => {
            if part == 0 {
                return Ok(false);
            }
            names_function(alloc, function)
        }
        None => Ok(false),
    }
}

/// Whether the text names a method with these flags: it is the method of a function, or, where it is private, that of a
/// part of one. The error says that memory was wanting.
pub fn is_method_name(alloc: Global, flags: u16, text: &[u8]) -> Result<bool, AllocError>
    ensures { IfOk result (λ is. is ≡ spec.is_method_name flags text.now) }
{
    if names_function(alloc, text)? {
        return Ok(true);
    }
    if flags != 0x000A {
        return Ok(false);
    }
    names_part(alloc, text)
}
