//! Writes methods (JVMS SE 7, 4.6 and 4.7.3).

ghost use Rattle.std.specs.Prelude.{◌≡◌, ◌++◌, ◌<◌, ◌^◌, length, OnOk, IfOk};
ghost use Rattle.erjang_top.specs.first_path.Written.{content, spelled};

use super::bytes::{push_counted, push_u2};
use std::alloc::{AllocError, Global};

/// A method, with the indices of its entries in the constant pool.
#[derive(Drop)]
pub struct Method {
    pub flags: u16,
    pub name: u16,
    pub descriptor: u16,
    /// The index of the name of its one attribute, `Code`.
    pub code_name: u16,
    pub max_stack: u16,
    pub max_locals: u16,
    /// The code array.
    pub code: Vec<u8>,
}

/// Appends a method.
pub fn push_method(alloc: Global, out: &mut Vec<u8>, written: &Method) -> Result<(), AllocError>
    requires { length (content written.now) < 2 ^ 32 }
    ensures { OnOk result (out.new.items ≡ out.old.items ++ spelled written.now) }
{
    push_u2(out, written.flags)?;
    push_u2(out, written.name)?;
    push_u2(out, written.descriptor)?;
    push_u2(out, 1)?;
    push_u2(out, written.code_name)?;
    let content = code_content(alloc, written)?;
    push_counted(out, &content)?;
    Ok(())
}

/// The content of the attribute `Code`: no exception table, and no attributes of its own.
fn code_content(alloc: Global, written: &Method) -> Result<Vec<u8>, AllocError>
    requires { length (content written.now) < 2 ^ 32 }
    ensures { IfOk result (λ bytes. bytes.items ≡ content written.now) }
{
    let mut content = Vec::new(alloc);
    push_u2(&mut content, written.max_stack)?;
    push_u2(&mut content, written.max_locals)?;
    push_counted(&mut content, &written.code)?;
    push_u2(&mut content, 0)?;
    push_u2(&mut content, 0)?;
    Ok(content)
}
