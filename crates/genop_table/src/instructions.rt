//! The table of instructions.

ghost use Rattle.std.specs.Prelude.{◌≡◌, true, [], map};
ghost use Rattle.std.specs.Option.{option_map};
ghost use Rattle.ej_tables.specs.Rows.{number_of};
ghost use Rattle.genop_table.specs.InstructionRows.{instruction_of};
ghost use Rattle.genop_table.specs.Instructions.{instructions, instruction_entries, row_of, shape_of, spelling_of, are_numbered, count_spellings};

use crate::{Genop, Limit, Part, Place};
use ej_tables::{Numbered, TableOf};

/// A row of the table of instructions: one spelling of one instruction.
#[derive(Clone, Copy, Debug)]
pub struct InstructionRow {
    /// The row's number, from 1.
    pub number: u16,
    /// Which instruction it is.
    pub genop: Genop,
    /// The instruction's name.
    pub name: &'static str,
    /// How many earlier rows have this name.
    pub arity: u8,
    /// What stands behind the name, part by part.
    pub shape: &'static [Part],
    /// The same with the limit of each part.
    pub places: &'static [Place],
}

macro_rules! row {
    ($number:literal, $genop:ident, $name:literal, $arity:literal, [$($part:ident: $limit:ident),*]) => {
        InstructionRow {
            number: $number,
            genop: Genop::$genop,
            name: $name,
            arity: $arity,
            shape: &[$(Part::$part),*],
            places: &[$(Place { part: Part::$part, limit: Limit::$limit }),*],
        }
    };
}

/// The instructions, in order.
static INSTRUCTIONS: [InstructionRow; 64] = [
    row!(1, Label, "label", 0, [Count: Free]),
    row!(2, Line, "line", 0, [Any: Free]),
    row!(3, Comment, "%", 0, [Any: Free]),
    row!(4, FuncInfo, "func_info", 0, [Src: Atom, Src: Atom, Count: Free]),
    row!(5, Move, "move", 0, [Src: Free, Reg: Free]),
    row!(6, Swap, "swap", 0, [Reg: Free, Reg: Free]),
    row!(7, Allocate, "allocate", 0, [Count: Size, Count: Size]),
    row!(8, AllocateHeap, "allocate_heap", 0, [Count: Size, Need: Free, Count: Size]),
    row!(9, TestHeap, "test_heap", 0, [Need: Free, Count: Size]),
    row!(10, Deallocate, "deallocate", 0, [Count: Size]),
    row!(11, Trim, "trim", 0, [Count: Size, Count: Size]),
    row!(12, InitYregs, "init_yregs", 0, [Regs: Free]),
    row!(13, Call, "call", 0, [Count: Arguments, Label: Target]),
    row!(14, CallExt, "call_ext", 0, [Count: Arguments, Ext: Free]),
    row!(15, CallFun, "call_fun", 0, [Count: Arguments]),
    row!(16, Apply, "apply", 0, [Count: Arguments]),
    row!(17, CallOnly, "call_only", 0, [Count: Arguments, Label: Target]),
    row!(18, CallExtOnly, "call_ext_only", 0, [Count: Arguments, Ext: Free]),
    row!(19, CallLast, "call_last", 0, [Count: Arguments, Label: Target, Count: Size]),
    row!(20, CallExtLast, "call_ext_last", 0, [Count: Arguments, Ext: Free, Count: Size]),
    row!(21, ApplyLast, "apply_last", 0, [Count: Arguments, Count: Size]),
    row!(22, Return, "return", 0, []),
    row!(23, MakeFun2, "make_fun2", 0, [Label: Target, Any: Free, Any: Free, Count: Free]),
    row!(24, MakeFun3, "make_fun3", 0, [Label: Target, Any: Free, Any: Free, Reg: Free, Srcs: Free]),
    row!(25, Send, "send", 0, []),
    row!(26, Bif, "bif", 0, [Name: Free, Label: Failure, Srcs: OfBuiltin, Reg: Free]),
    row!(27, GcBif, "gc_bif", 0, [Name: Free, Label: Failure, Count: Size, Srcs: OfBuiltin, Reg: Free]),
    row!(28, PutList, "put_list", 0, [Src: Free, Src: Free, Reg: Free]),
    row!(29, PutTuple2, "put_tuple2", 0, [Reg: Free, Srcs: Free]),
    row!(30, GetList, "get_list", 0, [Reg: Free, Reg: Free, Reg: Free]),
    row!(31, GetHd, "get_hd", 0, [Reg: Free, Reg: Free]),
    row!(32, GetTl, "get_tl", 0, [Reg: Free, Reg: Free]),
    row!(33, GetTupleElement, "get_tuple_element", 0, [Reg: Free, Count: Free, Reg: Free]),
    row!(34, SetTupleElement, "set_tuple_element", 0, [Src: Free, Reg: Free, Count: Free]),
    row!(35, PutMapAssoc, "put_map_assoc", 0, [Label: Failure, Src: Free, Reg: Free, Count: Free, Pairs: Free]),
    row!(36, PutMapExact, "put_map_exact", 0, [Label: Failure, Src: Free, Reg: Free, Count: Free, Pairs: Free]),
    row!(37, GetMapElements, "get_map_elements", 0, [Label: Target, Src: Free, Gets: Free]),
    row!(38, Jump, "jump", 0, [Label: Target]),
    row!(39, SelectVal, "select_val", 0, [Src: Free, Label: Target, Cases: Free]),
    row!(40, SelectTupleArity, "select_tuple_arity", 0, [Src: Free, Label: Target, Arities: Free]),
    row!(41, Test, "test", 0, [Name: Free, Label: Target, Srcs: OfTest]),
    row!(42, HasMapFields, "test", 1, [Any: Free, Label: Target, Src: Free, Srcs: Free]),
    row!(43, LoopRec, "loop_rec", 0, [Label: Target, Reg: Free]),
    row!(44, RemoveMessage, "remove_message", 0, []),
    row!(45, Timeout, "timeout", 0, []),
    row!(46, LoopRecEnd, "loop_rec_end", 0, [Label: Target]),
    row!(47, Wait, "wait", 0, [Label: Target]),
    row!(48, WaitTimeout, "wait_timeout", 0, [Label: Target, Src: Free]),
    row!(49, RecvMarkerReserve, "recv_marker_reserve", 0, [Reg: Free]),
    row!(50, RecvMarkerBind, "recv_marker_bind", 0, [Reg: Free, Reg: Free]),
    row!(51, RecvMarkerUse, "recv_marker_use", 0, [Reg: Free]),
    row!(52, RecvMarkerClear, "recv_marker_clear", 0, [Reg: Free]),
    row!(53, Try, "try", 0, [Reg: Slot, Label: Target]),
    row!(54, Catch, "catch", 0, [Reg: Slot, Label: Target]),
    row!(55, TryEnd, "try_end", 0, [Reg: Slot]),
    row!(56, TryCase, "try_case", 0, [Reg: Slot]),
    row!(57, CatchEnd, "catch_end", 0, [Reg: Slot]),
    row!(58, Badmatch, "badmatch", 0, [Src: Free]),
    row!(59, CaseEnd, "case_end", 0, [Src: Free]),
    row!(60, TryCaseEnd, "try_case_end", 0, [Src: Free]),
    row!(61, IfEnd, "if_end", 0, []),
    row!(62, Raise, "bif", 1, [Any: Free, Label: Raises, Srcs: OfRaise, Reg: Free]),
    row!(63, RawRaise, "raw_raise", 0, []),
    row!(64, BuildStacktrace, "build_stacktrace", 0, []),
];

impl Numbered for InstructionRow {
    ghost use Rattle.ej_tables.specs.Rows.{Entry};

    ghost entry = { λ row. record { name = row.name.now; arity = row.arity; number = row.number } };

    fn is_named(&self, name: &[u8], arity: u8) -> bool {
        self.arity == arity && self.name.as_bytes() == name
    }

    fn number(&self) -> u16 {
        self.number
    }
}

// The rows are numbered from 1, and tell the spellings of one name apart.
fn table() -> TableOf<InstructionRow, 64>
    ensures rows { map instruction_of result ≡ instructions }
    ensures entries { map (λ row. (instruction_of row).entry) result ≡ instruction_entries }
    ensures numbered { are_numbered 1 instruction_entries ≡ true }
    ensures spellings { count_spellings [] instruction_entries ≡ true }
{
    TableOf::new(&INSTRUCTIONS)
}

/// The number of the first row of that name, as UTF-8 bytes: of `bif` and `test` the general one. None where no
/// row has it.
pub fn instruction(name: &[u8]) -> Option<u16>
    ensures { result ≡ number_of name.now 0 instruction_entries }
{
    table().find(name, 0)
}

/// The row of that number. None where no row has it.
pub fn row(number: u16) -> Option<InstructionRow>
    ensures { option_map instruction_of result ≡ row_of number }
{
    match table().by_number(number) {
        Some(row) => Some(*row),
        None => None,
    }
}

/// The row of that name, as UTF-8 bytes, before which so many rows have the name. None where there is none.
#[tactic(auto, unfolding(crate::specs::Instructions::spelling_of))]
pub fn spelling(name: &[u8], earlier: u8) -> Option<InstructionRow>
    ensures { option_map instruction_of result ≡ spelling_of name.now earlier }
{
    row(table().find(name, earlier)?)
}

/// What stands behind the name in the row of that number. None where no row has it.
pub fn shape(row: u16) -> Option<&'static [Part]>
    ensures { option_map (λ parts. parts.now) result ≡ shape_of row }
{
    match crate::row(row) {
        Some(row) => Some(row.shape),
        None => None,
    }
}
