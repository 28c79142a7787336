//! Laws of the definitions: functions that do nothing, each with a law as its contract.

ghost use Rattle.ej_term.specs.AsmValue.{HaveValueUnlessOpaque};
ghost use Rattle.ej_term.specs.Maps.{AreMaps};
ghost use Rattle.ej_term.specs.Order.{IsOrderOfTerms};
ghost use Rattle.ej_term.specs.Print.{PrintsItsValue};

/// The order of terms (Erlang Reference Manual, "Term Comparisons") is total, and two terms are tied
/// exactly where they are equal.
#[tactic(auto, using(crate::proofs::OrderLaws::laws))]
pub fn order_is_total()
    ensures { IsOrderOfTerms }
{}

/// A term as a source writes it prints as the term that it stands for, where it stands for one.
#[tactic(auto, using(crate::proofs::PrintLaw::law))]
pub fn print_is_of_value()
    ensures { PrintsItsValue }
{}

/// Pairs whose keys rise are a finite map from terms to terms.
#[tactic(auto, using(crate::proofs::MapLaws::laws))]
pub fn pairs_are_maps()
    ensures { AreMaps }
{}

/// A term as a source writes it stands for a term exactly where no opaque token is in it.
#[tactic(auto, using(crate::proofs::OpaqueLaw::law))]
pub fn opaque_has_no_value()
    ensures { HaveValueUnlessOpaque }
{}
