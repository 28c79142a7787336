//! Writes a function's code.

ghost use Rattle.std.specs.Prelude.{◌≡◌, ◌≤◌, ◌+◌, ◌*◌, ◌∷◌, [], ◌++◌, ◌<◌, ◌^◌, true, max, length, map, OnOk, IfOk};
ghost use Rattle.std.specs.List.{flat_map, AllByRecursion};
ghost use Rattle.erjang_top.specs.first_path.Opcode.{opcode};
ghost use Rattle.erjang_top.specs.first_path.LabelRules.{opcodes};
ghost use Rattle.erjang_top.specs.first_path.Opcode.{Integer};
ghost use Rattle.erjang_top.specs.first_path.Accepted.{is_register, is_thin_source, is_thin_opcode};
ghost use Rattle.erjang_top.specs.first_path.ClassFile.{LdcW, Invoke, op_bytes};
ghost use Rattle.erjang_top.specs.first_path.ModuleClass.{first_value, local_of, take_argument, take_arguments, index_of, push_value, push_source, move_ops, is_entry, behind, body, body_ops, function_ops, registers};
ghost use Rattle.erjang_top.specs.first_path.Code.{seen_source};
ghost use Rattle.erjang_top.specs.first_path.Select.{written_register, instr_ops, goes_on};
ghost use Rattle.erjang_top.specs.first_path.SeenValues.{seen_value};

use super::op::{Op, push_number, push_op, push_ops};
use super::pool::{FIRST_VALUE, FUNCTION_CLAUSE, GIVE, INTEGER, LIT, RAISE, TAKE, VALUE_ENTRIES};
use crate::first_path::code::{Code, Source, decode};
use crate::first_path::values::Value;
use beam_code::{Function, Instr};
use indexmap::IndexSet;
use std::alloc::AllocError;

/// The local that holds the process.
const PROCESS: u16 = 0;

/// The local of `{x,0}`, behind the process and the entry number.
const FIRST_REGISTER: u16 = 2;

/// The class of an exception that is an error.
const ERROR: u8 = 0;

/// The status of a method whose result is to be returned.
const RETURNED: u8 = 0;

/// The status of a method that has raised.
const RAISED: u8 = 4;

/// Gives `{x,0}` as the result, and answers that it is to be returned.
const RETURN_CODE: [Op; 5] = [
    Op::ALoad(PROCESS),
    Op::ALoad(FIRST_REGISTER),
    Op::InvokeStatic(GIVE),
    Op::IConst(RETURNED),
    Op::IReturn,
];

/// Raises an error `function_clause`, and answers that it has.
const RAISE_CODE: [Op; 7] = [
    Op::ALoad(PROCESS),
    Op::IConst(ERROR),
    Op::LdcW(FUNCTION_CLAUSE),
    Op::InvokeStatic(LIT),
    Op::InvokeStatic(RAISE),
    Op::IConst(RAISED),
    Op::IReturn,
];

/// Appends the code of a function's method, with the module's values.
pub fn push_code(
    code: &mut Vec<u8>,
    values: &IndexSet<Value>,
    function: &Function,
) -> Result<(), AllocError>
    requires thin { AllByRecursion (λ o. is_thin_opcode o ≡ true) (opcodes function.now) }
    requires count { first_value + 2 * length values.now.keys < 2 ^ 16 }
    ensures { OnOk result (code.new.items ≡ code.old.items ++ flat_map op_bytes (function_ops (map seen_value values.now.keys) function.now)) }
{
    push_arguments(code, function.arity)?;
    push_body(code, values, body(function))
}

/// How many locals a function's method has.
pub fn local_count(function: &Function) -> u16
    requires { AllByRecursion (λ o. is_thin_opcode o ≡ true) (opcodes function.now) }
    ensures { result ≡ 2 + max function.now.arity (registers (body function.now)) }
{
    FIRST_REGISTER + registers(body(function)).max(function.arity as u16)
}

/// Appends what puts the entered values into their registers.
fn push_arguments(code: &mut Vec<u8>, count: u8) -> Result<(), AllocError>
    ensures { OnOk result (code.new.items ≡ code.old.items ++ flat_map op_bytes (take_arguments 0 count)) }
{
    for at in 0..count {
        push_argument(code, at)?;
    }
    Ok(())
}

/// Appends what puts the entered value at a place into its register.
fn push_argument(code: &mut Vec<u8>, at: u8) -> Result<(), AllocError>
    ensures { OnOk result (code.new.items ≡ code.old.items ++ flat_map op_bytes (take_argument at)) }
{
    push_ops(
        code,
        &[
            Op::ALoad(PROCESS),
            push_number(at),
            Op::InvokeStatic(TAKE),
            Op::AStore(FIRST_REGISTER + at as u16),
        ],
    )
}

/// The instructions behind the entry label.
fn body(function: &Function) -> &[Instr]
    ensures { map opcode result.now ≡ body function.now }
{
    let mut rest = function.code.as_slice();
    while let Some((instr, behind)) = rest.split_first() {
        rest = behind;
        if is_entry(instr, function.entry) {
            return rest;
        }
    }
    rest
}

/// Whether an instruction is that label.
fn is_entry(instr: &Instr, entry: u32) -> bool
    ensures { result ≡ is_entry entry (opcode instr.now) }
{
    match decode(instr) {
        Code::Label(label) => label == entry,
        _ => false,
    }
}

/// Appends instructions up to the first that does not go on.
fn push_body(code: &mut Vec<u8>, values: &IndexSet<Value>, body: &[Instr]) -> Result<(), AllocError>
    requires thin { AllByRecursion (λ o. is_thin_opcode o ≡ true) (map opcode body.now) }
    requires count { first_value + 2 * length values.now.keys < 2 ^ 16 }
    ensures { OnOk result (code.new.items ≡ code.old.items ++ flat_map op_bytes (body_ops (map seen_value values.now.keys) (map opcode body.now))) }
{
    for instr in body {
        if !push_instr(code, values, instr)? {
            return Ok(());
        }
    }
    Ok(())
}

/// Appends an instruction, and answers whether it goes on to the next.
fn push_instr(
    code: &mut Vec<u8>,
    values: &IndexSet<Value>,
    instr: &Instr,
) -> Result<bool, AllocError>
    requires thin { is_thin_opcode (opcode instr.now) ≡ true }
    requires count { first_value + 2 * length values.now.keys < 2 ^ 16 }
    ensures written { OnOk result (code.new.items ≡ code.old.items ++ flat_map op_bytes (instr_ops (map seen_value values.now.keys) (opcode instr.now))) }
    ensures goes_on { IfOk result (λ on. on ≡ goes_on (opcode instr.now)) }
{
    match decode(instr) {
        Code::Move { from, to } => {
            push_move(code, values, from, to)?;
            Ok(true)
        }
        Code::FuncInfo { .. } => {
            push_ops(code, &RAISE_CODE)?;
            Ok(false)
        }
        Code::Return => {
            push_ops(code, &RETURN_CODE)?;
            Ok(false)
        }
        Code::Label(_) | Code::Line | Code::Comment | Code::Other => Ok(true),
    }
}

/// Appends a move from a source to a register.
fn push_move(
    code: &mut Vec<u8>,
    values: &IndexSet<Value>,
    from: Source,
    to: u16,
) -> Result<(), AllocError>
    requires from { is_thin_source (seen_source from) ≡ true }
    requires to { is_register to ≡ true }
    requires count { first_value + 2 * length values.now.keys < 2 ^ 16 }
    ensures { OnOk result (code.new.items ≡ code.old.items ++ flat_map op_bytes (move_ops (map seen_value values.now.keys) (seen_source from.entry) to)) }
{
    push_source(code, values, from)?;
    push_op(code, Op::AStore(local_of(to)))
}

/// Appends what pushes a source's term.
fn push_source(code: &mut Vec<u8>, values: &IndexSet<Value>, from: Source) -> Result<(), AllocError>
    requires from { is_thin_source (seen_source from) ≡ true }
    requires count { first_value + 2 * length values.now.keys < 2 ^ 16 }
    ensures { OnOk result (code.new.items ≡ code.old.items ++ flat_map op_bytes (push_source (map seen_value values.now.keys) (seen_source from.entry))) }
{
    match from {
        Source::X(register) => push_op(code, Op::ALoad(local_of(register))),
        Source::Integer(number) => push_integer(code, values, number),
        Source::Atom(name) => push_literal(code, values, &Value::Atom(name)),
        Source::Nil => push_literal(code, values, &Value::Nil),
    }
}

/// Appends what pushes an integer's term.
fn push_integer(code: &mut Vec<u8>, values: &IndexSet<Value>, number: i64) -> Result<(), AllocError>
    requires { first_value + 2 * length values.now.keys < 2 ^ 16 }
    ensures { OnOk result (code.new.items ≡ code.old.items ++ flat_map op_bytes (push_value (map seen_value values.now.keys) (Integer number))) }
{
    let index = index_of(values, &Value::Integer(number));
    push_ops(code, &[Op::Ldc2W(index), Op::InvokeStatic(INTEGER)])
}

/// Appends what pushes the term of a value that the pool has as its text.
fn push_literal(
    code: &mut Vec<u8>,
    values: &IndexSet<Value>,
    value: &Value,
) -> Result<(), AllocError>
    requires { first_value + 2 * length values.now.keys < 2 ^ 16 }
    ensures { OnOk result (code.new.items ≡ code.old.items ++ flat_map op_bytes (LdcW (index_of (map seen_value values.now.keys) (seen_value value.now)) ∷ Invoke 28 ∷ [])) }
{
    let index = index_of(values, value);
    push_ops(code, &[Op::LdcW(index), Op::InvokeStatic(LIT)])
}

/// The index of a value's entry, or the index behind them all where it has none.
fn index_of(values: &IndexSet<Value>, value: &Value) -> u16
    requires { first_value + 2 * length values.now.keys < 2 ^ 16 }
    ensures { result ≡ index_of (map seen_value values.now.keys) (seen_value value.now) }
{
    let place = values.get_index_of(value).unwrap_or(values.len());
    FIRST_VALUE + VALUE_ENTRIES * place as u16
}

/// The local of an x register.
fn local_of(register: u16) -> u16
    requires { is_register register ≡ true }
    ensures { result ≡ local_of register }
{
    FIRST_REGISTER + register
}

/// How many registers the moves among some instructions write at most.
fn registers(code: &[Instr]) -> u16
    requires { AllByRecursion (λ o. is_thin_opcode o ≡ true) (map opcode code.now) }
    ensures is { result ≡ registers (map opcode code.now) }
    ensures small { result ≤ 1024 }
{
    let mut count = 0;
    for instr in code {
        count = written_register(instr).max(count);
    }
    count
}

/// The number behind that of the register that an instruction writes; 0 where it writes none.
fn written_register(instr: &Instr) -> u16
    requires { is_thin_opcode (opcode instr.now) ≡ true }
    ensures is { result ≡ written_register (opcode instr.now) }
    ensures small { result ≤ 1024 }
{
    match decode(instr) {
        Code::Move { to, .. } => count_up_to(to),
        _ => 0,
    }
}

/// How many registers there are up to that one.
fn count_up_to(register: u16) -> u16
    requires { is_register register ≡ true }
    ensures is { result ≡ register + 1 }
    ensures small { result ≤ 1024 }
{
    register + 1
}
