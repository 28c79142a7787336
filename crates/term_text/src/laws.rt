//! Laws of the definitions: functions that do nothing, each with a law as its contract.

ghost use Rattle.term_text.specs.Laws.{PrintsAreRead};

/// A term's print is read back as that term exactly where the term is readable, and nothing is read as two terms.
#[tactic(auto, using(crate::proofs::Law::law))]
pub fn prints_are_read()
    ensures { PrintsAreRead }
{}
