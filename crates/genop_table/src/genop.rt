//! The instructions by name.

/// An instruction of the profile by its name and spelling, one for each row of the table (OTP 24, `genop.tab`).
///
/// `s` is a source, `d` a register, `L` a label, `n` and `m` counts, `A` how many arguments, `F` how many free variables,
/// `N` the name of a test or of a builtin, `H` what is needed of the heap, and `Live` how many x registers are live.
#[derive(Clone, Copy, Debug, PartialEq, Eq)]
pub enum Genop {
    /// `{label,n}`
    Label,
    /// `{line,_}`
    Line,
    /// `{'%',_}`
    Comment,
    /// `{func_info,{atom,M},{atom,F},n}`
    FuncInfo,
    /// `{move,s,d}`
    Move,
    /// `{swap,d,d}`
    Swap,
    /// `{allocate,n,Live}`
    Allocate,
    /// `{allocate_heap,n,H,Live}`
    AllocateHeap,
    /// `{test_heap,H,Live}`
    TestHeap,
    /// `{deallocate,n}`
    Deallocate,
    /// `{trim,n,m}`
    Trim,
    /// `{init_yregs,{list,[d]}}`
    InitYregs,
    /// `{call,A,{f,L}}`
    Call,
    /// `{call_ext,A,{extfunc,M,F,A}}`
    CallExt,
    /// `{call_fun,A}`
    CallFun,
    /// `{apply,A}`
    Apply,
    /// `{call_only,A,{f,L}}`
    CallOnly,
    /// `{call_ext_only,A,{extfunc,M,F,A}}`
    CallExtOnly,
    /// `{call_last,A,{f,L},n}`
    CallLast,
    /// `{call_ext_last,A,{extfunc,M,F,A},n}`
    CallExtLast,
    /// `{apply_last,A,n}`
    ApplyLast,
    /// `return`
    Return,
    /// `{make_fun2,{f,L},_,_,F}`
    MakeFun2,
    /// `{make_fun3,{f,L},_,_,d,{list,[s]}}`
    MakeFun3,
    /// `send`
    Send,
    /// `{bif,N,{f,L},[s],d}`
    Bif,
    /// `{gc_bif,N,{f,L},Live,[s],d}`
    GcBif,
    /// `{put_list,s,s,d}`
    PutList,
    /// `{put_tuple2,d,{list,[s]}}`
    PutTuple2,
    /// `{get_list,d,d,d}`
    GetList,
    /// `{get_hd,d,d}`
    GetHd,
    /// `{get_tl,d,d}`
    GetTl,
    /// `{get_tuple_element,d,n,d}`
    GetTupleElement,
    /// `{set_tuple_element,s,d,n}`
    SetTupleElement,
    /// `{put_map_assoc,{f,L},s,d,n,{list,[s,s]}}`
    PutMapAssoc,
    /// `{put_map_exact,{f,L},s,d,n,{list,[s,s]}}`
    PutMapExact,
    /// `{get_map_elements,{f,L},s,{list,[s,d]}}`
    GetMapElements,
    /// `{jump,{f,L}}`
    Jump,
    /// `{select_val,s,{f,L},{list,[s,{f,L}]}}`
    SelectVal,
    /// `{select_tuple_arity,s,{f,L},{list,[n,{f,L}]}}`
    SelectTupleArity,
    /// `{test,N,{f,L},[s]}`
    Test,
    /// `{test,has_map_fields,{f,L},s,{list,[s]}}`
    HasMapFields,
    /// `{loop_rec,{f,L},d}`
    LoopRec,
    /// `remove_message`
    RemoveMessage,
    /// `timeout`
    Timeout,
    /// `{loop_rec_end,{f,L}}`
    LoopRecEnd,
    /// `{wait,{f,L}}`
    Wait,
    /// `{wait_timeout,{f,L},s}`
    WaitTimeout,
    /// `{recv_marker_reserve,d}`
    RecvMarkerReserve,
    /// `{recv_marker_bind,d,d}`
    RecvMarkerBind,
    /// `{recv_marker_use,d}`
    RecvMarkerUse,
    /// `{recv_marker_clear,d}`
    RecvMarkerClear,
    /// `{'try',{y,n},{f,L}}`
    Try,
    /// `{'catch',{y,n},{f,L}}`
    Catch,
    /// `{try_end,{y,n}}`
    TryEnd,
    /// `{try_case,{y,n}}`
    TryCase,
    /// `{catch_end,{y,n}}`
    CatchEnd,
    /// `{badmatch,s}`
    Badmatch,
    /// `{case_end,s}`
    CaseEnd,
    /// `{try_case_end,s}`
    TryCaseEnd,
    /// `if_end`
    IfEnd,
    /// `{bif,raise,{f,0},[d,s],d}`
    Raise,
    /// `raw_raise`
    RawRaise,
    /// `build_stacktrace`
    BuildStacktrace,
}
