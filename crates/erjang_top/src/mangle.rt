//! How a name becomes the name of a class or a part of one.

ghost use Rattle.std.specs.Prelude.{◌≡◌, ◌++◌, ◌<◌, IfOk, OnOk, string_bytes};
ghost use Rattle.erjang_top.specs.Mangle.{is_kept, upper_digit, mangle_byte, mangle};

use ej_term::Text;
use std::alloc::{AllocError, Global};

/// Whether a byte of a name stays as it is: A-Z, a-z, 0-9 and `_`.
fn is_plain(byte: u8) -> bool
    ensures { result ≡ is_kept byte }
{
    matches!(byte, b'A'..=b'Z' | b'a'..=b'z' | b'0'..=b'9' | b'_')
}

/// The upper-case hexadecimal digit of a value below 16.
fn digit(value: u8) -> u8
    requires { value < 16 }
    ensures { result ≡ upper_digit value }
{
    if value < 10 {
        b'0' + value
    } else {
        b'A' + (value - 10)
    }
}

/// Appends a byte as it is, or as `$` and its two digits.
fn push_mangled(out: &mut String, byte: u8) -> Result<(), AllocError>
    ensures { OnOk result (string_bytes out.new ≡ string_bytes out.old ++ mangle_byte byte) }
{
    if is_plain(byte) {
        return out.push(byte as char);
    }
    out.push('$')?;
    out.push(digit(byte / 16) as char)?;
    out.push(digit(byte % 16) as char)
}

/// The name with each byte of its UTF-8 mangled.
pub(crate) fn mangle(alloc: Global, name: &Text) -> Result<String, AllocError>
    ensures { IfOk result (λ mangled. string_bytes mangled ≡ mangle name.now) }
{
    let mut out = String::new(alloc);
    for byte in name.as_str().as_bytes() {
        push_mangled(&mut out, *byte)?;
    }
    Ok(out)
}
