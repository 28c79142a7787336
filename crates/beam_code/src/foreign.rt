//! What no instruction may hold.

ghost use Rattle.std.specs.Prelude.{◌≡◌, map};
ghost use Rattle.std.specs.List.{list_any};
ghost use Rattle.beam_code.specs.Foreign.{holds_foreign as is_foreign, pair_is_foreign, tail_is_foreign};

use ej_term::AsmTerm;
use sqlite_items::Boxed;

/// Whether an opaque token, a pid or a reference is anywhere in the term.
#[cycle(holds_foreign)]
#[tactic(auto, using(crate::proofs::ForeignLemmas::foreign_cases))]
pub fn holds_foreign(term: &AsmTerm) -> bool
    ensures { result ≡ is_foreign term.now }
{
    match term {
        AsmTerm::Int(_) | AsmTerm::Atom(_) | AsmTerm::Str(_) | AsmTerm::ExtFun(_, _, _) => false,
        AsmTerm::List(parts, tail) => any_holds(parts.as_slice()) || tail_holds(tail),
        AsmTerm::Tuple(parts) => any_holds(parts.as_slice()),
        AsmTerm::Map(pairs) => any_pair_holds(pairs.as_slice()),
        AsmTerm::Pid(_, _) | AsmTerm::Ref(_, _) | AsmTerm::Opaque(_) => true,
    }
}

/// Whether a list's tail of its own holds it.
#[cycle(holds_foreign)]
fn tail_holds(tail: &Option<Boxed<AsmTerm>>) -> bool
    ensures { result ≡ tail_is_foreign tail.now }
{
    match tail {
        None => false,
        Some(tail) => holds_foreign(tail.get()),
    }
}

/// Whether one of the terms holds it.
#[cycle(holds_foreign)]
fn any_holds(terms: &[AsmTerm]) -> bool
    ensures { result ≡ list_any is_foreign terms.now }
{
    for term in terms {
        if holds_foreign(term) {
            return true;
        }
    }
    false
}

/// Whether one of the keys or values holds it.
#[cycle(holds_foreign)]
fn any_pair_holds(pairs: &[(AsmTerm, AsmTerm)]) -> bool
    ensures { result ≡ list_any pair_is_foreign pairs.now }
{
    for (key, value) in pairs {
        if holds_foreign(key) {
            return true;
        }
        if holds_foreign(value) {
            return true;
        }
    }
    false
}
