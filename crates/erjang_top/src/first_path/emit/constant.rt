//! Writes entries of the constant pool (JVMS SE 7, 4.4).

ghost use Rattle.std.specs.Prelude.{◌≡◌, ◌++◌, map, OnOk};
ghost use Rattle.std.specs.List.{flat_map, AllByRecursion};
ghost use Rattle.erjang_top.specs.first_path.ClassFile.{constant_bytes};
ghost use Rattle.erjang_top.specs.first_path.Written.{constant, fits};

use super::bytes::push_u2;
use std::alloc::AllocError;

const TAG_UTF8: u8 = 1;

const TAG_LONG: u8 = 5;

const TAG_CLASS: u8 = 7;

const TAG_STRING: u8 = 8;

const TAG_METHODREF: u8 = 10;

const TAG_NAME_AND_TYPE: u8 = 12;

/// An entry, with the indices of those that it names.
#[derive(Clone, Copy)]
pub enum Constant<'a> {
    Utf8(&'a [u8]),
    /// It takes two indices.
    Long(i64),
    Class(u16),
    String(u16),
    Methodref(u16, u16),
    NameAndType(u16, u16),
}

/// Appends an entry.
pub fn push_constant(out: &mut Vec<u8>, entry: &Constant) -> Result<(), AllocError>
    requires { fits entry.now }
    ensures { OnOk result (out.new.items ≡ out.old.items ++ constant_bytes (constant entry.now)) }
{
    match entry {
        Constant::Utf8(bytes) => {
            out.push(TAG_UTF8)?;
            push_u2(out, bytes.len() as u16)?;
            out.extend_from_slice(bytes)
        }
        Constant::Long(value) => {
            out.push(TAG_LONG)?;
            out.extend_from_slice(&value.to_be_bytes())
        }
        Constant::Class(name) => {
            out.push(TAG_CLASS)?;
            push_u2(out, *name)
        }
        Constant::String(text) => {
            out.push(TAG_STRING)?;
            push_u2(out, *text)
        }
        Constant::Methodref(class, name_and_type) => {
            out.push(TAG_METHODREF)?;
            push_u2(out, *class)?;
            push_u2(out, *name_and_type)
        }
        Constant::NameAndType(name, descriptor) => {
            out.push(TAG_NAME_AND_TYPE)?;
            push_u2(out, *name)?;
            push_u2(out, *descriptor)
        }
    }
}

/// Appends entries one after the other.
pub fn push_constants(out: &mut Vec<u8>, entries: &[Constant]) -> Result<(), AllocError>
    requires { AllByRecursion fits entries.now }
    ensures { OnOk result (out.new.items ≡ out.old.items ++ flat_map constant_bytes (map constant entries.now)) }
{
    for entry in entries {
        push_constant(out, entry)?;
    }
    Ok(())
}
