//! The print of an atom.

ghost use Rattle.std.specs.Prelude.{◌≡◌, ◌++◌, OnOk, string_bytes};
ghost use Rattle.std.specs.List.{flat_map};
ghost use Rattle.std.specs.Str.{chars};
ghost use Rattle.ej_term.specs.TermPrint.{print_atom, quoted_character};

use crate::plain::is_plain;
use std::alloc::AllocError;
use std::fmt::Write;

/// Appends the atom of this name: as it is, or between single quotes, where `'` and `\` stand behind a backslash and
/// each character outside 32 to 126 is written by its number, as `\x{E9}` (Erlang Reference Manual, "Atom" and
/// "Escape Sequences").
pub fn write_atom(out: &mut String, name: &str) -> Result<(), AllocError>
    ensures { OnOk result (string_bytes out.new ≡ string_bytes out.old ++ print_atom (chars name.now)) }
{
    if is_plain(name) {
        return out.push_str(name);
    }
    out.push('\'')?;
    write_quoted(out, name)?;
    out.push('\'')
}

/// Appends these characters as they stand between single quotes.
fn write_quoted(out: &mut String, name: &str) -> Result<(), AllocError>
    ensures { OnOk result (string_bytes out.new ≡ string_bytes out.old ++ flat_map quoted_character (chars name.now)) }
{
    for c in name.chars() {
        write_character(out, c)?;
    }
    Ok(())
}

fn write_character(out: &mut String, c: char) -> Result<(), AllocError>
    ensures { OnOk result (string_bytes out.new ≡ string_bytes out.old ++ quoted_character c) }
{
    match c {
        '\'' | '\\' => {
            out.push('\\')?;
            out.push(c)
        }
        ' '..='~' => out.push(c),
        _ => write!(out, "\\x{{{:X}}}", u32::from(c)),
    }
}
