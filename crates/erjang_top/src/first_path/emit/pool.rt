//! Writes the constant pool of a module's class.

ghost use Rattle.std.specs.Prelude.{◌≡◌, ◌∷◌, [], ◌++◌, ◌+◌, ◌*◌, ◌<◌, ◌^◌, true, length, map, OnOk};
ghost use Rattle.std.specs.List.{flat_map, AllByRecursion};
ghost use Rattle.erjang_top.specs.first_path.Opcode.{Of};
ghost use Rattle.erjang_top.specs.first_path.Accepted.{is_thin_source, is_thin_function};
ghost use Rattle.erjang_top.specs.first_path.ClassFile.{Utf8, StringEntry, u2, constant_bytes};
ghost use Rattle.erjang_top.specs.first_path.ModuleClass.{first_value, fixed_entries, value_entries, values_entries, name_entry, constants, first_name, pool_of};
ghost use Rattle.erjang_top.specs.first_path.SeenValues.{seen_value};
ghost use Rattle.erjang_top.specs.first_path.Written.{ClassFits};

use super::atom::atom_text;
use super::bytes::push_u2;
use super::constant::{Constant, push_constant, push_constants};
use super::names::{class_name, method_name};
use crate::first_path::values::Value;
use beam_code::{Function, Module};
use indexmap::IndexSet;
use std::alloc::{AllocError, Global};

// The indices of the entries that stand in every pool.
const CLASS_NAME: u16 = 1;

/// The class.
pub const CLASS: u16 = 2;

const OBJECT_NAME: u16 = 3;

/// Its superclass.
pub const OBJECT: u16 = 4;

/// The descriptor of its methods.
pub const DESCRIPTOR: u16 = 5;

/// The name of a method's attribute.
pub const CODE: u16 = 6;

const RUNTIME_NAME: u16 = 7;

const RUNTIME: u16 = 8;

const TAKE_NAME: u16 = 9;

const TAKE_DESCRIPTOR: u16 = 10;

const TAKE_HEAD: u16 = 11;

/// The runtime method that answers an entered value.
pub const TAKE: u16 = 12;

const GIVE_NAME: u16 = 13;

const GIVE_DESCRIPTOR: u16 = 14;

const GIVE_HEAD: u16 = 15;

/// The runtime method that gives the result.
pub const GIVE: u16 = 16;

const RAISE_NAME: u16 = 17;

const RAISE_DESCRIPTOR: u16 = 18;

const RAISE_HEAD: u16 = 19;

/// The runtime method that raises.
pub const RAISE: u16 = 20;

const INTEGER_NAME: u16 = 21;

const INTEGER_DESCRIPTOR: u16 = 22;

const INTEGER_HEAD: u16 = 23;

/// The runtime method that answers the integer of a Long.
pub const INTEGER: u16 = 24;

const LIT_NAME: u16 = 25;

const LIT_DESCRIPTOR: u16 = 26;

const LIT_HEAD: u16 = 27;

/// The runtime method that answers the term of a text.
pub const LIT: u16 = 28;

/// The text of the atom that `func_info` raises.
pub const FUNCTION_CLAUSE: u16 = 29;

const FUNCTION_CLAUSE_TEXT: u16 = 30;

/// The index of the first value's entries.
pub const FIRST_VALUE: u16 = 31;

/// How many indices a value's entries take.
pub const VALUE_ENTRIES: u16 = 2;

/// The text of nil.
const NIL: &[u8] = b"[]";

/// The index of the first method's name, behind the values.
pub fn first_name(values: &IndexSet<Value>) -> u16
    requires { first_value + 2 * length values.now.keys < 2 ^ 16 }
    ensures { result ≡ first_name (map seen_value values.now.keys) }
{
    FIRST_VALUE + VALUE_ENTRIES * values.len() as u16
}

/// Appends the pool with its count: the fixed entries, the module's distinct values and its methods' names.
pub fn push_pool(
    alloc: Global,
    out: &mut Vec<u8>,
    source: &Module,
    values: &IndexSet<Value>,
) -> Result<(), AllocError>
    requires fits { ClassFits source.now }
    requires values { map seen_value values.now.keys ≡ constants source.now }
    ensures { OnOk result (out.new.items ≡ out.old.items ++ u2 (length (pool_of source.now)) ++ flat_map constant_bytes (pool_of source.now)) }
{
    let functions = source.functions.as_slice();
    push_u2(out, first_name(values) + functions.len() as u16)?;
    let class = class_name(alloc, &source.name)?;
    push_fixed(out, &class)?;
    push_values(alloc, out, values)?;
    push_names(alloc, out, functions)
}

/// Appends the entries that stand in every pool, with the name of the class.
fn push_fixed(out: &mut Vec<u8>, class: &[u8]) -> Result<(), AllocError>
    requires { length class.now < 2 ^ 16 }
    ensures { OnOk result (out.new.items ≡ out.old.items ++ flat_map constant_bytes (fixed_entries class.now)) }
{
    let entries = [
        Constant::Utf8(class),
        Constant::Class(CLASS_NAME),
        Constant::Utf8(b"java/lang/Object"),
        Constant::Class(OBJECT_NAME),
        Constant::Utf8(b"(Lerl/Proc;I)I"),
        Constant::Utf8(b"Code"),
        Constant::Utf8(b"erl/Rt"),
        Constant::Class(RUNTIME_NAME),
        Constant::Utf8(b"take"),
        Constant::Utf8(b"(Lerl/Proc;I)Lerl/Term;"),
        Constant::NameAndType(TAKE_NAME, TAKE_DESCRIPTOR),
        Constant::Methodref(RUNTIME, TAKE_HEAD),
        Constant::Utf8(b"give"),
        Constant::Utf8(b"(Lerl/Proc;Lerl/Term;)V"),
        Constant::NameAndType(GIVE_NAME, GIVE_DESCRIPTOR),
        Constant::Methodref(RUNTIME, GIVE_HEAD),
        Constant::Utf8(b"raise"),
        Constant::Utf8(b"(Lerl/Proc;ILerl/Term;)V"),
        Constant::NameAndType(RAISE_NAME, RAISE_DESCRIPTOR),
        Constant::Methodref(RUNTIME, RAISE_HEAD),
        Constant::Utf8(b"integer"),
        Constant::Utf8(b"(J)Lerl/Term;"),
        Constant::NameAndType(INTEGER_NAME, INTEGER_DESCRIPTOR),
        Constant::Methodref(RUNTIME, INTEGER_HEAD),
        Constant::Utf8(b"lit"),
        Constant::Utf8(b"(Ljava/lang/String;)Lerl/Term;"),
        Constant::NameAndType(LIT_NAME, LIT_DESCRIPTOR),
        Constant::Methodref(RUNTIME, LIT_HEAD),
        Constant::String(FUNCTION_CLAUSE_TEXT),
        Constant::Utf8(b"function_clause"),
    ];
    push_constants(out, &entries)
}

/// Appends the entries of the module's values.
fn push_values(alloc: Global, out: &mut Vec<u8>, values: &IndexSet<Value>) -> Result<(), AllocError>
    requires count { first_value + 2 * length values.now.keys < 2 ^ 16 }
    requires thin { AllByRecursion (λ value. is_thin_source (Of value) ≡ true) (map seen_value values.now.keys) }
    ensures { OnOk result (out.new.items ≡ out.old.items ++ flat_map constant_bytes (values_entries first_value (map seen_value values.now.keys))) }
{
    let mut at = FIRST_VALUE;
    for value in values.as_slice() {
        push_value(alloc, out, at, value)?;
        at += VALUE_ENTRIES;
    }
    Ok(())
}

/// Appends a value's entries, of which the first has this index.
fn push_value(alloc: Global, out: &mut Vec<u8>, at: u16, value: &Value) -> Result<(), AllocError>
    requires at { at + 1 < 2 ^ 16 }
    requires thin { is_thin_source (Of (seen_value value.now)) ≡ true }
    ensures { OnOk result (out.new.items ≡ out.old.items ++ flat_map constant_bytes (value_entries at (seen_value value.now))) }
{
    match value {
        Value::Integer(number) => push_constant(out, &Constant::Long(*number)),
        Value::Atom(name) => {
            let text = atom_text(alloc, name)?;
            push_text(out, at, &text)
        }
        Value::Nil => push_text(out, at, NIL),
    }
}

/// Appends a string's entry, which has this index, and its text behind it.
fn push_text(out: &mut Vec<u8>, at: u16, text: &[u8]) -> Result<(), AllocError>
    requires at { at + 1 < 2 ^ 16 }
    requires short { length text.now < 2 ^ 16 }
    ensures { OnOk result (out.new.items ≡ out.old.items ++ flat_map constant_bytes (StringEntry (at + 1) ∷ Utf8 text.now ∷ [])) }
{
    push_constants(out, &[Constant::String(at + 1), Constant::Utf8(text)])
}

/// Appends the names of functions' methods.
fn push_names(alloc: Global, out: &mut Vec<u8>, functions: &[Function]) -> Result<(), AllocError>
    requires { AllByRecursion (λ f. is_thin_function f ≡ true) functions.now }
    ensures { OnOk result (out.new.items ≡ out.old.items ++ flat_map constant_bytes (map name_entry functions.now)) }
{
    for function in functions {
        push_name(alloc, out, function)?;
    }
    Ok(())
}

/// Appends the name of a function's method.
fn push_name(alloc: Global, out: &mut Vec<u8>, function: &Function) -> Result<(), AllocError>
    requires { is_thin_function function.now ≡ true }
    ensures { OnOk result (out.new.items ≡ out.old.items ++ constant_bytes (name_entry function.now)) }
{
    let name = method_name(alloc, &function.name, function.arity)?;
    push_constant(out, &Constant::Utf8(&name))
}
