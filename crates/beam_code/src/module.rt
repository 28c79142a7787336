//! Functions and modules.

ghost use Rattle.std.specs.Prelude.{◌≡◌, true};
ghost use Rattle.beam_code.specs.Keys.{are_distinct, are_exports};

use crate::Instr;
use ej_term::Text;
use sqlite_items::Items;

/// A function: its name and arity, the label that calls enter at, and its instructions in the text's order.
#[derive(Debug, Drop)]
pub struct Function {
    pub name: Text,
    pub arity: u8,
    pub entry: u32,
    pub code: Items<Instr>,
}

/// A module: its name, what it exports as names and arities, and its functions.
#[derive(Debug, Drop)]
pub struct Module {
    pub name: Text,
    pub exports: Items<(Text, u8)>,
    pub functions: Items<Function>,
    pub ghost distinct: { are_distinct functions ≡ true },
    pub ghost exported: { are_exports exports functions ≡ true },
}
