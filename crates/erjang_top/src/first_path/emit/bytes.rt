//! Appends numbers as class files have them, high byte first (JVMS SE 7, chapter 4).

ghost use Rattle.std.specs.Prelude.{◌≡◌, ◌++◌, ◌<◌, ◌^◌, length, OnOk};
ghost use Rattle.erjang_top.specs.first_path.ClassFile.{u2, u4, counted};

use std::alloc::AllocError;

/// Appends a number of two bytes.
pub fn push_u2(out: &mut Vec<u8>, number: u16) -> Result<(), AllocError>
    ensures { OnOk result (out.new.items ≡ out.old.items ++ u2 number) }
{
    out.extend_from_slice(&number.to_be_bytes())
}

/// Appends a number of four bytes.
pub fn push_u4(out: &mut Vec<u8>, number: u32) -> Result<(), AllocError>
    ensures { OnOk result (out.new.items ≡ out.old.items ++ u4 number) }
{
    out.extend_from_slice(&number.to_be_bytes())
}

/// Appends bytes with their number before them.
pub fn push_counted(out: &mut Vec<u8>, bytes: &[u8]) -> Result<(), AllocError>
    requires { length bytes.now < 2 ^ 32 }
    ensures { OnOk result (out.new.items ≡ out.old.items ++ counted bytes.now) }
{
    push_u4(out, bytes.len() as u32)?;
    out.extend_from_slice(bytes)
}
