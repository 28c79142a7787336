//! Worked rows, as facts about the definitions.

ghost use Rattle.beam_code.specs.Worked.{Beginnings, Breaks, Fit, StandFor};
ghost use Rattle.beam_code.specs.WorkedSlots.{Flows, Order};
ghost use Rattle.beam_code.specs.WorkedWeights.{Weigh};

/// Does nothing: its contract is what each row stands for, which operands fit at the ends of their numbers, and what is
/// wrong with labels first.
pub fn worked_instructions()
    ensures rows { StandFor }
    ensures operands { Fit }
    ensures labels { Breaks }
    ensures beginnings { Beginnings }
{}

/// Does nothing: its contract is what slots hold before and after each kind of instruction, where it goes and what it
/// raises, and which kinds are below others.
pub fn worked_slots()
    ensures rows { Flows }
    ensures order { Order }
{}

/// Does nothing: its contract is what instructions and functions weigh.
pub fn worked_weights()
    ensures { Weigh }
{}
