//! Writes a class (JVMS SE 7, 4.1).

ghost use Rattle.std.specs.Prelude.{◌≡◌, ◌++◌, OnOk, IfOk};
ghost use Rattle.erjang_top.specs.first_path.ClassFile.{u2, u4, class_bytes};
ghost use Rattle.erjang_top.specs.first_path.ModuleClass.{class_of};
ghost use Rattle.erjang_top.specs.first_path.Written.{ClassFits};

use super::bytes::{push_u2, push_u4};
use super::function::push_functions;
use super::pool::{CLASS, OBJECT, push_pool};
use crate::first_path::values::distinct_values;
use beam_code::Module;
use std::alloc::{AllocError, Global};

const MAGIC: u32 = 0xCAFE_BABE;

const MINOR_VERSION: u16 = 0;

const MAJOR_VERSION: u16 = 50;

const ACC_PUBLIC: u16 = 0x0001;

const ACC_SUPER: u16 = 0x0020;

/// The bytes of a module's class, which has no interfaces, fields or attributes of its own.
pub fn write_class(alloc: Global, source: &Module) -> Result<Vec<u8>, AllocError>
    requires { ClassFits source.now }
    ensures { IfOk result (λ class. class.items ≡ class_bytes (class_of source.now)) }
{
    let values = distinct_values(alloc, source.functions.as_slice())?;
    let mut out = Vec::new(alloc);
    push_version(&mut out)?;
    push_pool(alloc, &mut out, source, &values)?;
    push_names(&mut out)?;
    push_functions(alloc, &mut out, source, &values)?;
    push_u2(&mut out, 0)?;
    Ok(out)
}

/// Appends the magic number and the version.
fn push_version(out: &mut Vec<u8>) -> Result<(), AllocError>
    ensures { OnOk result (out.new.items ≡ out.old.items ++ (u4 0xCAFEBABE ++ u2 0 ++ u2 50)) }
{
    push_u4(out, MAGIC)?;
    push_u2(out, MINOR_VERSION)?;
    push_u2(out, MAJOR_VERSION)
}

/// Appends the flags, the class and its superclass, no interfaces and no fields.
fn push_names(out: &mut Vec<u8>) -> Result<(), AllocError>
    ensures { OnOk result (out.new.items ≡ out.old.items ++ u2 0x0021 ++ u2 2 ++ u2 4 ++ u2 0 ++ u2 0) }
{
    push_u2(out, ACC_PUBLIC + ACC_SUPER)?;
    push_u2(out, CLASS)?;
    push_u2(out, OBJECT)?;
    push_u2(out, 0)?;
    push_u2(out, 0)
}
