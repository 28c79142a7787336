//! Laws of the definitions: a function that does nothing, with the law as its contract.

ghost use Rattle.beam_code.specs.FlowLaw.{FlowIsMonotone};
ghost use Rattle.beam_code.specs.FlowParts.{FlowInParts};
ghost use Rattle.beam_code.specs.LabelLaw.{FirstBreakIsNone};

/// The first break of a label rule is none exactly where a module keeps the label rules.
pub fn first_break_is_none()
    ensures { FirstBreakIsNone }
{}

/// Where control goes from an instruction is monotone in the state before it.
pub fn flow_is_monotone()
    ensures { FlowIsMonotone }
{}

/// Where control goes from an instruction is what the steps of the code come to.
pub fn flow_is_in_parts()
    ensures { FlowInParts }
{}
