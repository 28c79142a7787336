//! The code of JVM classes, in a profile of JVMS SE 7: the types of a class file, the tables of its opcodes and of the
//! runtime methods that it may call, the names of classes and methods, and when one type is assignable to another.
//!
//! Definitions of what a class file's bytes stand for, and of how a class is spelled, stand in `specs/`.
#![tactic(auto)]

mod class;
mod constant;
mod entries;
mod equality;
mod laws;
mod methods;
mod modified_utf8;
mod names;
mod opcodes;
mod types;

pub use class::{Class, Constant, Method, Op, Width};
pub use entries::{class_at, name_and_type_at, utf8_at};
pub use laws::{bytes_and_classes, class_names, method_names, modified_utf8_spells_units};
pub use methods::{FieldType, RuntimeRow, runtime, runtime_row};
pub use modified_utf8::is_modified_utf8;
pub use names::{is_class_name, is_method_name, mangle};
pub use opcodes::{OpcodeRow, Operands, mnemonic, opcode};
pub use types::{Frame, VType, assignable};
