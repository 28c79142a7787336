//! Calls and funs.

ghost use Rattle.std.specs.Prelude.{◌≡◌, option_map};
ghost use Rattle.beam_code.specs.Decoded as spec;
ghost use Rattle.beam_code.specs.Opcode as o;
ghost use Rattle.beam_code.specs.Seen.{kind_seen, opcode_seen};

use crate::{CallKind, Callee, Opcode, Operand};

/// `{call,A,{f,L}}`, `{call_only,A,{f,L}}`
pub(super) fn local_call(kind: CallKind, operands: &[Operand]) -> Option<Opcode<'_>>
    ensures { option_map opcode_seen result ≡ spec.local_call (kind_seen kind) operands.now }
{
    match operands {
        [Operand::Count(arity), Operand::Label(label)] => Some(Opcode::Call {
            callee: Callee::Local { label: *label },
            arity: *arity,
            kind,
        }),
        _ => None,
    }
}

/// `{call_ext,A,{extfunc,M,F,A}}`, `{call_ext_only,A,{extfunc,M,F,A}}`
pub(super) fn external_call(kind: CallKind, operands: &[Operand]) -> Option<Opcode<'_>>
    ensures { option_map opcode_seen result ≡ spec.external_call (kind_seen kind) operands.now }
{
    match operands {
        [Operand::Count(arity), Operand::Ext(owner, name, own)] => Some(Opcode::Call {
            callee: Callee::External {
                owner,
                name,
                arity: *own,
            },
            arity: *arity,
            kind,
        }),
        _ => None,
    }
}

/// `{call_fun,A}`
pub(super) fn call_fun(operands: &[Operand]) -> Option<Opcode<'_>>
    ensures { option_map opcode_seen result ≡ spec.of_count (λ arity. o.Call o.Fun arity o.Body) operands.now }
{
    match operands {
        [Operand::Count(arity)] => Some(Opcode::Call {
            callee: Callee::Fun,
            arity: *arity,
            kind: CallKind::Body,
        }),
        _ => None,
    }
}

/// `{apply,A}`
pub(super) fn apply(operands: &[Operand]) -> Option<Opcode<'_>>
    ensures { option_map opcode_seen result ≡ spec.of_count (λ arity. o.Call o.Apply arity o.Body) operands.now }
{
    match operands {
        [Operand::Count(arity)] => Some(Opcode::Call {
            callee: Callee::Apply,
            arity: *arity,
            kind: CallKind::Body,
        }),
        _ => None,
    }
}

/// `{call_last,A,{f,L},n}`
pub(super) fn call_last(operands: &[Operand]) -> Option<Opcode<'_>>
    ensures { option_map opcode_seen result ≡ spec.call_last operands.now }
{
    match operands {
        [
            Operand::Count(arity),
            Operand::Label(label),
            Operand::Count(size),
        ] => Some(Opcode::Call {
            callee: Callee::Local { label: *label },
            arity: *arity,
            kind: CallKind::Last { size: *size },
        }),
        _ => None,
    }
}

/// `{call_ext_last,A,{extfunc,M,F,A},n}`
pub(super) fn call_ext_last(operands: &[Operand]) -> Option<Opcode<'_>>
    ensures { option_map opcode_seen result ≡ spec.call_ext_last operands.now }
{
    match operands {
        [
            Operand::Count(arity),
            Operand::Ext(owner, name, own),
            Operand::Count(size),
        ] => Some(Opcode::Call {
            callee: Callee::External {
                owner,
                name,
                arity: *own,
            },
            arity: *arity,
            kind: CallKind::Last { size: *size },
        }),
        _ => None,
    }
}

/// `{apply_last,A,n}`
pub(super) fn apply_last(operands: &[Operand]) -> Option<Opcode<'_>>
    ensures { option_map opcode_seen result ≡ spec.of_counts (λ arity size. o.Call o.Apply arity (o.Last size)) operands.now }
{
    match operands {
        [Operand::Count(arity), Operand::Count(size)] => Some(Opcode::Call {
            callee: Callee::Apply,
            arity: *arity,
            kind: CallKind::Last { size: *size },
        }),
        _ => None,
    }
}

/// `{make_fun2,{f,L},_,_,F}`
pub(super) fn make_fun2(operands: &[Operand]) -> Option<Opcode<'_>>
    ensures { option_map opcode_seen result ≡ spec.make_fun2 operands.now }
{
    match operands {
        [Operand::Label(entry), Operand::Count(free)] => Some(Opcode::MakeFun2 {
            entry: *entry,
            free: *free,
        }),
        _ => None,
    }
}

/// `{make_fun3,{f,L},_,_,d,{list,[s]}}`
pub(super) fn make_fun3(operands: &[Operand]) -> Option<Opcode<'_>>
    ensures { option_map opcode_seen result ≡ spec.make_fun3 operands.now }
{
    match operands {
        [Operand::Label(entry), Operand::Reg(to), Operand::Srcs(free)] => Some(Opcode::MakeFun3 {
            entry: *entry,
            to: *to,
            free: free.as_slice(),
        }),
        _ => None,
    }
}
