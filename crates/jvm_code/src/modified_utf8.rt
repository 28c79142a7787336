//! Modified UTF-8 (JVMS SE 7, 4.4.7).

ghost use Rattle.std.specs.Prelude.{◌≡◌};
ghost use Rattle.std.specs.Option.{option_map};
ghost use Rattle.jvm_code.specs.ModifiedUtf8 as spec;
ghost use Rattle.jvm_code.specs.ModifiedUtf8Due.{due_of};

/// The bytes that are due.
#[derive(Clone, Copy)]
enum Due {
    /// None: a unit may begin or the text may end.
    Nothing,
    /// One from the first to the second.
    Last(u8, u8),
    /// One from this on, and the last of the unit behind it.
    Middle(u8),
}

/// What is due behind the first byte of a unit. None where it is no such byte.
fn behind(byte: u8) -> Option<Due>
    ensures { option_map due_of result ≡ spec.behind byte }
{
    match byte {
        1..=127 => Some(Due::Nothing),
        192 => Some(Due::Last(128, 128)),
        194..=223 => Some(Due::Last(128, 191)),
        224 => Some(Due::Middle(160)),
        225..=239 => Some(Due::Middle(128)),
        _ => None,
    }
}

/// What is due behind the next byte. None where it is not the byte that was due.
fn next(due: Due, byte: u8) -> Option<Due>
    ensures { option_map due_of result ≡ spec.next (due_of due) byte }
{
    match due {
        Due::Nothing => behind(byte),
        Due::Last(low, high) => {
            if low <= byte && byte <= high {
                return Some(Due::Nothing);
            }
            None
        }
        Due::Middle(low) => {
            if low <= byte && byte <= 191 {
                return Some(Due::Last(128, 191));
            }
            None
        }
    }
}

/// Whether the bytes are modified UTF-8: units of 16 bits, each in its shortest form, but 0 in two bytes.
pub fn is_modified_utf8(bytes: &[u8]) -> bool
    ensures { result ≡ spec.is_modified_utf8 bytes.now }
{
    let mut due = Due::Nothing;
    for byte in bytes {
        match next(due, *byte) {
            Some(behind) => due = behind,
            None => return false,
        }
    }
    matches!(due, Due::Nothing)
}
