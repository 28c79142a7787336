//! The texts that modified UTF-8 spells (JVMS SE 7, 4.4.7).

ghost use Rattle.std.specs.Prelude.{◌≡◌, ◌++◌, IfOk, OnOk};
ghost use Rattle.std.specs.Char.Utf16.{has_unpaired_surrogate};
ghost use Rattle.jvm_code.specs.Units as units_spec;
ghost use Rattle.stack_maps.specs.Texts as spec;

use ej_term::Text;
use std::alloc::{AllocError, Global};

/// Whether it is a byte behind the first of a unit.
fn is_behind(byte: u8) -> bool
    ensures { result ≡ spec.is_behind byte }
{
    128 <= byte && byte < 192
}

/// What the first byte of a unit says of it.
fn first_bits(byte: u8) -> u16
    ensures { result ≡ spec.first_bits byte }
{
    if byte < 128 {
        byte as u16
    } else if byte < 224 {
        (byte % 32) as u16
    } else {
        (byte % 16) as u16
    }
}

/// The unit with six bits more.
fn more_bits(unit: u16, byte: u8) -> u16
    ensures { result ≡ spec.more_bits unit byte }
{
    unit % 1024 * 64 + (byte % 64) as u16
}

/// The units of bytes whose first one's bits are given.
fn units_behind(alloc: Global, first: u16, bytes: &[u8]) -> Result<Vec<u16>, AllocError>
    ensures { IfOk result (λ units. units.items ≡ spec.units_from first bytes.now) }
{
    let mut units = Vec::new(alloc);
    let mut unit = first;
    for byte in bytes {
        if is_behind(*byte) {
            unit = more_bits(unit, *byte);
        } else {
            units.push(unit)?;
            unit = first_bits(*byte);
        }
    }
    units.push(unit)?;
    Ok(units)
}

/// The units of 16 bits that the bytes are, if they are modified UTF-8.
fn units_of(alloc: Global, bytes: &[u8]) -> Result<Vec<u16>, AllocError>
    ensures { IfOk result (λ units. units.items ≡ spec.units_of bytes.now) }
{
    match bytes.split_first() {
        Some((first, behind)) => units_behind(alloc, first_bits(*first), behind),
        None => Ok(Vec::new(alloc)),
    }
}

/// Appends the bytes of a unit.
fn push_unit(out: &mut Vec<u8>, unit: u16) -> Result<(), AllocError>
    ensures { OnOk result (out.new.items ≡ out.old.items ++ units_spec.unit_bytes unit) }
{
    if 0 < unit && unit < 128 {
        out.push(unit as u8)?;
        return Ok(());
    }
    if unit < 2048 {
        out.push((192 + unit / 64) as u8)?;
        out.push((128 + unit % 64) as u8)?;
        return Ok(());
    }
    out.push((224 + unit / 4096) as u8)?;
    out.push((128 + unit / 64 % 64) as u8)?;
    out.push((128 + unit % 64) as u8)?;
    Ok(())
}

/// The bytes of units.
fn spelled(alloc: Global, units: &[u16]) -> Result<Vec<u8>, AllocError>
    ensures { IfOk result (λ bytes. bytes.items ≡ units_spec.units_bytes units.now) }
{
    let mut out = Vec::new(alloc);
    for unit in units {
        push_unit(&mut out, *unit)?;
    }
    Ok(out)
}

/// The text of UTF-16. None where a surrogate has no partner.
fn text_of_units(alloc: Global, units: &[u16]) -> Result<Option<Text>, AllocError>
    ensures { IfOk result (λ text. text ≡ spec.paired_text units.now) }
{
    match String::from_utf16(alloc, units)? {
        Ok(text) => Ok(Some(Text::make(alloc, text.as_str())?)),
        Err(_) => Ok(None),
    }
}

/// The text that the bytes spell. None where no Unicode text is spelled so.
pub(crate) fn text_of(alloc: Global, bytes: &[u8]) -> Result<Option<Text>, AllocError>
    ensures { IfOk result (λ text. text ≡ spec.text_of bytes.now) }
{
    let units = units_of(alloc, bytes)?;
    let spelled = spelled(alloc, units.as_slice())?;
    if spelled.as_slice() != bytes {
        return Ok(None);
    }
    text_of_units(alloc, units.as_slice())
}
