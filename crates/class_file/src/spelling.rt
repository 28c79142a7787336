//! Spells classes: the bytes of their fields (JVMS SE 7, 4.1 to 4.7).

ghost use Rattle.std.specs.Prelude.{◌≡◌, ◌++◌, length, IfOk, OnOk};
ghost use Rattle.std.specs.List.{flat_map};
ghost use Rattle.class_file.specs.Parts.{method_parts};
ghost use Rattle.jvm_code.specs.Spelling as spelling;

use crate::numbers::{push_counted, push_s4, push_s8, push_three, push_u1, push_u2};
use crate::spelling_ops::push_code;
use jvm_code::{Class, Constant, Method};
use sqlite_items::Items;
use std::alloc::{AllocError, Global};

/// A tag with an index of two bytes.
fn push_tagged(out: &mut Vec<u8>, tag: u8, index: u16) -> Result<(), AllocError>
    ensures { OnOk result (out.new.items ≡ out.old.items ++ (spelling.u1 tag ++ spelling.u2 index)) }
{
    push_u1(out, tag as u64)?;
    push_u2(out, index as u64)
}

/// An entry of the pool, behind its tag (4.4).
fn push_constant(out: &mut Vec<u8>, constant: &Constant) -> Result<(), AllocError>
    ensures { OnOk result (out.new.items ≡ out.old.items ++ spelling.constant_bytes constant.now) }
{
    match constant {
        Constant::Gap => Ok(()),
        Constant::Utf8(bytes) => {
            push_u1(out, 1)?;
            push_u2(out, bytes.len() as u64)?;
            out.extend_from_slice(bytes.as_slice())
        }
        Constant::Integer(value) => {
            push_u1(out, 3)?;
            push_s4(out, *value)
        }
        Constant::Long(value) => {
            push_u1(out, 5)?;
            push_s8(out, *value)
        }
        Constant::Class(name) => push_tagged(out, 7, *name),
        Constant::Str(text) => push_tagged(out, 8, *text),
        Constant::Methodref(class, name_and_type) => {
            push_tagged(out, 10, *class)?;
            push_u2(out, *name_and_type as u64)
        }
        Constant::NameAndType(name, descriptor) => {
            push_tagged(out, 12, *name)?;
            push_u2(out, *descriptor as u64)
        }
    }
}

fn push_constants(out: &mut Vec<u8>, pool: &[Constant]) -> Result<(), AllocError>
    ensures { OnOk result (out.new.items ≡ out.old.items ++ flat_map spelling.constant_bytes pool.now) }
{
    for constant in pool {
        push_constant(out, constant)?;
    }
    Ok(())
}

/// The attributes of the code: none, or one `StackMapTable` (4.7.4).
fn push_maps(out: &mut Vec<u8>, maps: &Option<(u16, Items<u8>)>) -> Result<(), AllocError>
    ensures { OnOk result (out.new.items ≡ out.old.items ++ spelling.maps_bytes maps.now) }
{
    match maps {
        Some((name, content)) => {
            push_u2(out, 1)?;
            push_u2(out, *name as u64)?;
            push_counted(out, content.as_slice())
        }
        None => push_u2(out, 0),
    }
}

fn code_bytes(alloc: Global, method: &Method) -> Result<Vec<u8>, AllocError>
    ensures { IfOk result (λ bytes. bytes.items ≡ spelling.code_bytes method.now.code) }
{
    let mut bytes = Vec::new(alloc);
    push_code(&mut bytes, method.code.as_slice())?;
    Ok(bytes)
}

/// The content of the attribute `Code` (4.7.3), with an empty exception table.
fn code_content(alloc: Global, method: &Method) -> Result<Vec<u8>, AllocError>
    ensures { IfOk result (λ bytes. bytes.items ≡ spelling.code_content method.now) }
{
    let code = code_bytes(alloc, method)?;
    let mut bytes = Vec::new(alloc);
    push_u2(&mut bytes, method.max_stack as u64)?;
    push_u2(&mut bytes, method.max_locals as u64)?;
    push_counted(&mut bytes, code.as_slice())?;
    push_u2(&mut bytes, 0)?;
    push_maps(&mut bytes, &method.maps)?;
    Ok(bytes)
}

/// The indices of a method, and its one attribute with that content.
fn push_parts(out: &mut Vec<u8>, method: &Method, content: &[u8]) -> Result<(), AllocError>
    ensures { OnOk result (out.new.items ≡ out.old.items ++ method_parts method.now content.now) }
{
    push_three(out, method.flags, method.name, method.descriptor)?;
    push_u2(out, 1)?;
    push_u2(out, method.code_name as u64)?;
    push_counted(out, content)
}

/// A method with its one attribute (4.6).
fn push_method(alloc: Global, out: &mut Vec<u8>, method: &Method) -> Result<(), AllocError>
    ensures { OnOk result (out.new.items ≡ out.old.items ++ spelling.method_bytes method.now) }
{
    let content = code_content(alloc, method)?;
    push_parts(out, method, content.as_slice())?;
    Ok(())
}

fn push_methods(alloc: Global, out: &mut Vec<u8>, methods: &[Method]) -> Result<(), AllocError>
    ensures { OnOk result (out.new.items ≡ out.old.items ++ flat_map spelling.method_bytes methods.now) }
{
    for method in methods {
        push_method(alloc, out, method)?;
    }
    Ok(())
}

/// The magic number, and the minor and the major version.
fn push_version(out: &mut Vec<u8>) -> Result<(), AllocError>
    ensures { OnOk result (out.new.items ≡ out.old.items ++ (spelling.u4 0xCAFEBABE ++ (spelling.u2 0 ++ spelling.u2 50))) }
{
    out.extend_from_slice(&[0xCA, 0xFE, 0xBA, 0xBE, 0, 0, 0, 50])
}

/// The count of entries, and the entries.
fn push_pool(out: &mut Vec<u8>, pool: &[Constant]) -> Result<(), AllocError>
    ensures { OnOk result (out.new.items ≡ out.old.items ++ (spelling.u2 (length pool.now) ++ flat_map spelling.constant_bytes pool.now)) }
{
    push_u2(out, pool.len() as u64)?;
    push_constants(out, pool)
}

/// No interfaces and no fields, the methods with their count, and no attributes of the class.
fn push_members(alloc: Global, out: &mut Vec<u8>, methods: &[Method]) -> Result<(), AllocError>
    ensures { OnOk result (out.new.items ≡ out.old.items ++ (spelling.u2 0 ++ (spelling.u2 0 ++ (spelling.u2 (length methods.now) ++ (flat_map spelling.method_bytes methods.now ++ spelling.u2 0))))) }
{
    out.extend_from_slice(&[0; 4])?;
    push_u2(out, methods.len() as u64)?;
    push_methods(alloc, out, methods)?;
    out.extend_from_slice(&[0; 2])
}

/// The bytes of a class of version 50.0, with no interfaces, fields or attributes of the class (4.1).
pub(crate) fn spell(alloc: Global, class: &Class) -> Result<Vec<u8>, AllocError>
    ensures { IfOk result (λ bytes. bytes.items ≡ spelling.class_bytes class.now) }
{
    let mut out = Vec::new(alloc);
    push_version(&mut out)?;
    push_pool(&mut out, class.pool.as_slice())?;
    push_three(&mut out, class.flags, class.this, class.above)?;
    push_members(alloc, &mut out, class.methods.as_slice())?;
    Ok(out)
}
