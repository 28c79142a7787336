//! Writes the methods of a module's functions.

ghost use Rattle.std.specs.Prelude.{◌≡◌, ◌+◌, ◌*◌, ◌++◌, ◌<◌, ◌^◌, true, length, map, OnOk};
ghost use Rattle.std.specs.List.{flat_map};
ghost use Rattle.erjang_top.specs.first_path.Accepted.{is_thin_function};
ghost use Rattle.erjang_top.specs.first_path.ClassFile.{u2, code_content, method_bytes};
ghost use Rattle.erjang_top.specs.first_path.ModuleClass.{first_value, first_name, constants, methods_of};
ghost use Rattle.erjang_top.specs.first_path.SeenValues.{seen_value};
ghost use Rattle.erjang_top.specs.first_path.Written.{ClassFits, method_with};

use super::bytes::push_u2;
use super::exports::{exports_of, is_exported, method_flags};
use super::method::{Method, push_method};
use super::pool::{CODE, DESCRIPTOR, first_name};
use super::select::{local_count, push_code};
use crate::first_path::values::Value;
use beam_code::{Function, Module};
use indexmap::IndexSet;
use std::alloc::{AllocError, Global};

/// How deep the stack grows: the process, the class of an exception and its term.
const MAX_STACK: u16 = 3;

/// Appends the methods of a module's functions with their count.
pub fn push_functions(
    alloc: Global,
    out: &mut Vec<u8>,
    source: &Module,
    values: &IndexSet<Value>,
) -> Result<(), AllocError>
    requires fits { ClassFits source.now }
    requires values { map seen_value values.now.keys ≡ constants source.now }
    ensures { OnOk result (out.new.items ≡ out.old.items ++ u2 (length source.now.functions) ++ flat_map method_bytes (methods_of source.now (constants source.now) (first_name (constants source.now)) source.now.functions)) }
{
    let exports = exports_of(alloc, source)?;
    let functions = source.functions.as_slice();
    push_u2(out, functions.len() as u16)?;
    let mut name = first_name(values);
    for function in functions {
        let flags = method_flags(is_exported(&exports, function));
        push_function(alloc, out, function, values, name, flags)?;
        name += 1;
    }
    Ok(())
}

/// Appends the method of a function, whose name has this index, with these flags.
fn push_function(
    alloc: Global,
    out: &mut Vec<u8>,
    function: &Function,
    values: &IndexSet<Value>,
    name: u16,
    flags: u16,
) -> Result<(), AllocError>
    requires thin { is_thin_function function.now ≡ true }
    requires count { first_value + 2 * length values.now.keys < 2 ^ 16 }
    requires content { length (code_content (method_with flags (map seen_value values.now.keys) name function.now)) < 2 ^ 32 }
    ensures { OnOk result (out.new.items ≡ out.old.items ++ method_bytes (method_with flags (map seen_value values.now.keys) name function.now)) }
{
    let mut code = Vec::new(alloc);
    push_code(&mut code, values, function)?;
    let written = Method {
        flags,
        name,
        descriptor: DESCRIPTOR,
        code_name: CODE,
        max_stack: MAX_STACK,
        max_locals: local_count(function),
        code,
    };
    push_method(alloc, out, &written)
}
