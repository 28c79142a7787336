//! Appends numbers as class files have them, the highest byte first. What does not fit is cut off in front.

ghost use Rattle.std.specs.Prelude.{◌≡◌, ◌++◌, OnOk};
ghost use Rattle.jvm_code.specs.Spelling as spelling;

use byteorder::{BigEndian, ByteOrder};
use std::alloc::AllocError;

/// Appends the low byte of a number.
pub(crate) fn push_u1(out: &mut Vec<u8>, number: u64) -> Result<(), AllocError>
    ensures { OnOk result (out.new.items ≡ out.old.items ++ spelling.u1 number) }
{
    out.push((number % 256) as u8)?;
    Ok(())
}

/// Appends the low two bytes of a number.
#[tactic(auto, using(crate::proofs::LowBytes::two))]
pub(crate) fn push_u2(out: &mut Vec<u8>, number: u64) -> Result<(), AllocError>
    ensures { OnOk result (out.new.items ≡ out.old.items ++ spelling.u2 number) }
{
    let mut bytes = [0; 8];
    BigEndian::write_u64(&mut bytes, number);
    out.extend_from_slice(&bytes[6..])
}

/// Appends the low four bytes of a number.
#[tactic(auto, using(crate::proofs::LowBytes::four))]
pub(crate) fn push_u4(out: &mut Vec<u8>, number: u64) -> Result<(), AllocError>
    ensures { OnOk result (out.new.items ≡ out.old.items ++ spelling.u4 number) }
{
    let mut bytes = [0; 8];
    BigEndian::write_u64(&mut bytes, number);
    out.extend_from_slice(&bytes[4..])
}

/// Appends a signed number of one byte.
pub(crate) fn push_s1(out: &mut Vec<u8>, number: i8) -> Result<(), AllocError>
    ensures { OnOk result (out.new.items ≡ out.old.items ++ spelling.s1 number) }
{
    push_u1(out, number.cast_unsigned() as u64)
}

/// Appends a signed number of two bytes.
pub(crate) fn push_s2(out: &mut Vec<u8>, number: i16) -> Result<(), AllocError>
    ensures { OnOk result (out.new.items ≡ out.old.items ++ spelling.s2 number) }
{
    push_u2(out, number.cast_unsigned() as u64)
}

/// Appends a signed number of four bytes.
pub(crate) fn push_s4(out: &mut Vec<u8>, number: i32) -> Result<(), AllocError>
    ensures { OnOk result (out.new.items ≡ out.old.items ++ spelling.s4 number) }
{
    push_u4(out, number.cast_unsigned() as u64)
}

/// Appends a signed number of eight bytes.
pub(crate) fn push_s8(out: &mut Vec<u8>, number: i64) -> Result<(), AllocError>
    ensures { OnOk result (out.new.items ≡ out.old.items ++ spelling.s8 number) }
{
    let mut bytes = [0; 8];
    BigEndian::write_u64(&mut bytes, number.cast_unsigned());
    out.extend_from_slice(&bytes)
}

/// Appends bytes with their count before them.
pub(crate) fn push_counted(out: &mut Vec<u8>, bytes: &[u8]) -> Result<(), AllocError>
    ensures { OnOk result (out.new.items ≡ out.old.items ++ spelling.counted bytes.now) }
{
    push_u4(out, bytes.len() as u64)?;
    out.extend_from_slice(bytes)
}

/// Appends three numbers of two bytes.
pub(crate) fn push_three(
    out: &mut Vec<u8>,
    first: u16,
    second: u16,
    third: u16,
) -> Result<(), AllocError>
    ensures { OnOk result (out.new.items ≡ out.old.items ++ (spelling.u2 first ++ (spelling.u2 second ++ spelling.u2 third))) }
{
    push_u2(out, first as u64)?;
    push_u2(out, second as u64)?;
    push_u2(out, third as u64)
}
