//! BEAM code: the instructions, functions and modules of an assembly text, and what they mean.
//!
//! The types keep what every layer above relies on: an instruction's operands fit its row, a module's
//! functions are distinct and its exports are functions of its own. `Instr::opcode` tells what an instruction is, as one of
//! the cases of `Opcode`; whatever goes by instructions goes by these. The definitions beside them, in `specs/`, say
//! which operands fit a row, what each row stands for, and which label rules a module keeps.
#![tactic(auto)]

mod constants;
mod decode;
mod equality;
mod fault;
mod fits;
mod flow;
mod foreign;
mod instr;
mod kind;
mod kinds;
mod laws;
mod module;
mod opcode;
mod operand;
mod slot_state;
mod steps;
mod worked;

pub use constants::{External, MoreSources, Numbers, Sources, external_of, numbers_of, sources_of};
pub use fault::StepFault;
pub use flow::{Branches, branches_of, builtin_called, holds, may_raise};
pub use foreign::holds_foreign;
pub use instr::Instr;
pub use kind::Kind;
pub use laws::{first_break_is_none, flow_is_in_parts, flow_is_monotone};
pub use module::{Function, Module};
pub use opcode::{CallKind, Callee, MapUpdate, Marking, Opcode, Piece, Unmatched};
pub use operand::{LAST_COUNT, LAST_REGISTER, Operand, Reg, Src};
pub use slot_state::{MOST_SLOTS, SlotMap, SlotState};
pub use steps::{after, enter, leave};
pub use worked::{worked_instructions, worked_slots, worked_weights};
