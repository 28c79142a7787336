//! Worked rows, as facts about the definitions.

ghost use Rattle.ej_term.specs.Worked.{OrderRows, NumberRows, TestRows, ArithmeticRows, ListRows, MapRows, OtherRows, PrintRows};
ghost use Rattle.ej_term.specs.ReadableWorked.{ReadableRows};

/// Does nothing: its contract is how the order places some terms.
pub fn worked_order()
    ensures { OrderRows }
{}

/// Does nothing: its contract is which builtin functions and tests have some numbers, and what some of them give.
pub fn worked_builtins()
    ensures numbers { NumberRows }
    ensures tests { TestRows }
    ensures arithmetic { ArithmeticRows }
    ensures lists { ListRows }
    ensures maps { MapRows }
    ensures others { OtherRows }
{}

/// Does nothing: its contract is the print of some terms.
#[tactic(auto, using(crate::proofs::WorkedPrints::rows))]
pub fn worked_prints()
    ensures { PrintRows }
{}

/// Does nothing: its contract is which of some terms are readable.
pub fn worked_readable()
    ensures { ReadableRows }
{}
