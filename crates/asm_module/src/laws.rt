//! Laws of the definitions: a function that does nothing, with the laws as its contract.

ghost use Rattle.std.specs.Prelude.{List};
ghost use Rattle.ej_term.specs.declared.asm_term.AsmTerm.{AsmTerm as AsmTermOf};
ghost use Rattle.asm_module.specs.Modules.{OneModule};
ghost use Rattle.asm_module.specs.Ranges.{ReadInRange};

/// Forms are those of one module at most, and of forms whose names and integers are in range comes a module of names
/// and integers in range.
pub fn read_modules_are_one_and_in_range()
    ensures one { (forms : List AsmTermOf) → OneModule forms }
    ensures in_range { ReadInRange }
{}
