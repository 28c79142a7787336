//! The instructions of the profile, each with what it works on.

use crate::{Reg, Src};
use ej_term::Text;

/// What is called.
#[derive(Clone, Copy, Debug)]
pub enum Callee<'a> {
    /// `{f,L}`: the function of this module whose entry is the label.
    Local {
        label: u32,
    },
    /// `{extfunc,M,F,A}`.
    External {
        owner: &'a Text,
        name: &'a Text,
        arity: u8,
    },
    /// The fun in the x register behind the arguments.
    Fun,
    /// The module and the name in the two x registers behind the arguments.
    Apply,
}

/// How it is called.
#[derive(Clone, Copy, Debug)]
pub enum CallKind {
    /// It comes back behind the instruction.
    Body,
    /// In the place of a function without a frame.
    Only,
    /// In the place of a function whose frame of that size, in slots, is dropped first.
    Last { size: u32 },
}

/// Which part of a list or a tuple is taken.
#[derive(Clone, Copy, Debug)]
pub enum Piece {
    Head,
    Tail,
    /// Of a tuple, counted from 0.
    Element { place: u32 },
}

/// How a map is updated.
#[derive(Clone, Copy, Debug)]
pub enum MapUpdate {
    /// By any keys.
    Assoc,
    /// By keys that it has.
    Exact,
}

/// What is done with the marker of a receive.
#[derive(Clone, Copy, Debug)]
pub enum Marking {
    Reserve { to: Reg },
    Bind { marker: Reg, reference: Reg },
    Use { reference: Reg },
    Clear { reference: Reg },
}

/// Which exception a value without a match raises.
#[derive(Clone, Copy, Debug)]
pub enum Unmatched {
    Badmatch,
    CaseEnd,
    TryCaseEnd,
}

/// An instruction by what it does, with what it works on (OTP 24, `genop.tab`). Registers and sources are those of the
/// text; a slot is the number of a y register; label 0 of a failure means that it raises.
#[derive(Clone, Copy, Debug)]
pub enum Opcode<'a> {
    /// `{label,n}`
    Label {
        label: u32,
    },
    /// `{line,_}`
    Line,
    /// `{'%',_}`
    Comment,
    /// `{func_info,{atom,M},{atom,F},n}`
    FuncInfo {
        owner: &'a Text,
        name: &'a Text,
        arity: u32,
    },
    /// `{move,s,d}`
    Move {
        from: &'a Src,
        to: Reg,
    },
    /// `{swap,d,d}`
    Swap {
        one: Reg,
        other: Reg,
    },
    /// `{allocate,n,Live}`, `{allocate_heap,n,H,Live}`
    Allocate {
        size: u32,
        live: u32,
    },
    /// `{test_heap,H,Live}`
    TestHeap {
        live: u32,
    },
    /// `{deallocate,n}`
    Deallocate {
        size: u32,
    },
    /// `{trim,n,m}`: the first n slots go, m are left.
    Trim {
        dropped: u32,
        left: u32,
    },
    /// `{init_yregs,{list,[d]}}`
    InitYregs {
        registers: &'a [Reg],
    },
    /// `{call,A,{f,L}}` and the eight other calls.
    Call {
        callee: Callee<'a>,
        arity: u32,
        kind: CallKind,
    },
    /// `return`
    Return,
    /// `{make_fun2,{f,L},_,_,F}`: the free variables are the first F x registers.
    MakeFun2 {
        entry: u32,
        free: u32,
    },
    /// `{make_fun3,{f,L},_,_,d,{list,[s]}}`
    MakeFun3 {
        entry: u32,
        to: Reg,
        free: &'a [Src],
    },
    /// `send`
    Send,
    /// `{bif,N,{f,L},[s],d}`, and with Live `{gc_bif,N,{f,L},Live,[s],d}`.
    Bif {
        builtin: u16,
        fail: u32,
        live: Option<u32>,
        arguments: &'a [Src],
        to: Reg,
    },
    /// `{put_list,s,s,d}`
    PutList {
        head: &'a Src,
        tail: &'a Src,
        to: Reg,
    },
    /// `{put_tuple2,d,{list,[s]}}`
    PutTuple2 {
        to: Reg,
        elements: &'a [Src],
    },
    /// `{get_list,d,d,d}`
    GetList {
        from: Reg,
        head: Reg,
        tail: Reg,
    },
    /// `{get_hd,d,d}`, `{get_tl,d,d}`, `{get_tuple_element,d,n,d}`
    Get {
        piece: Piece,
        from: Reg,
        to: Reg,
    },
    /// `{set_tuple_element,s,d,n}`
    SetTupleElement {
        value: &'a Src,
        tuple: Reg,
        place: u32,
    },
    /// `{put_map_assoc,{f,L},s,d,n,{list,[s,s]}}`, `{put_map_exact,{f,L},s,d,n,{list,[s,s]}}`; the count n does nothing.
    PutMap {
        update: MapUpdate,
        fail: u32,
        from: &'a Src,
        to: Reg,
        pairs: &'a [(Src, Src)],
    },
    /// `{get_map_elements,{f,L},s,{list,[s,d]}}`
    GetMapElements {
        fail: u32,
        from: &'a Src,
        gets: &'a [(Src, Reg)],
    },
    /// `{jump,{f,L}}`
    Jump {
        label: u32,
    },
    /// `{select_val,s,{f,L},{list,[s,{f,L}]}}`
    SelectVal {
        value: &'a Src,
        fail: u32,
        cases: &'a [(Src, u32)],
    },
    /// `{select_tuple_arity,s,{f,L},{list,[n,{f,L}]}}`; the sizes are integers.
    SelectTupleArity {
        tuple: &'a Src,
        fail: u32,
        cases: &'a [(Src, u32)],
    },
    /// `{test,N,{f,L},[s]}`, but for the two tests below.
    Test {
        test: u16,
        fail: u32,
        arguments: &'a [Src],
    },
    /// `{test,test_arity,{f,L},[s,n]}`
    TestArity {
        tuple: &'a Src,
        fail: u32,
        size: u32,
    },
    /// `{test,is_tagged_tuple,{f,L},[s,n,{atom,T}]}`
    IsTaggedTuple {
        tuple: &'a Src,
        fail: u32,
        size: u32,
        tag: &'a Text,
    },
    /// `{test,has_map_fields,{f,L},s,{list,[s]}}`
    HasMapFields {
        fail: u32,
        from: &'a Src,
        keys: &'a [Src],
    },
    /// `{loop_rec,{f,L},d}`
    LoopRec {
        fail: u32,
        to: Reg,
    },
    /// `remove_message`
    RemoveMessage,
    /// `timeout`
    Timeout,
    /// `{loop_rec_end,{f,L}}`
    LoopRecEnd {
        label: u32,
    },
    /// `{wait,{f,L}}`
    Wait {
        label: u32,
    },
    /// `{wait_timeout,{f,L},s}`
    WaitTimeout {
        label: u32,
        timeout: &'a Src,
    },
    /// `{recv_marker_reserve,d}` and its kin.
    RecvMarker {
        marking: Marking,
    },
    /// `{'try',{y,n},{f,L}}`, `{'catch',{y,n},{f,L}}`, which do the same.
    Try {
        slot: u16,
        handler: u32,
    },
    /// `{try_end,{y,n}}`
    TryEnd {
        slot: u16,
    },
    /// `{try_case,{y,n}}`
    TryCase {
        slot: u16,
    },
    /// `{catch_end,{y,n}}`
    CatchEnd {
        slot: u16,
    },
    /// `{badmatch,s}`, `{case_end,s}`, `{try_case_end,s}`
    Unmatches {
        reason: Unmatched,
        value: &'a Src,
    },
    /// `if_end`
    IfEnd,
    /// `{bif,raise,{f,0},[d,s],d}`
    Raise {
        trace: Reg,
        reason: &'a Src,
    },
    /// `raw_raise`
    RawRaise,
    /// `build_stacktrace`
    BuildStacktrace,
}
