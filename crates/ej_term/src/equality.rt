//! When two terms of a source are equal, and what of one is hashed.

ghost use Rattle.std.specs.Prelude.{◌≡◌, fold};
ghost use Rattle.std.specs.Hash as fed;
ghost use Rattle.std.specs.List.{flat_map};
ghost use Rattle.ej_term.specs.Hashed.{fed_pair, fed_tail, fed_term};

use crate::AsmTerm;
use sqlite_items::Boxed;
use std::hash::{Hash, Hasher};

/// Terms are equal where they are the same, as `is_same` says.
impl PartialEq for AsmTerm {
    ghost use Rattle.std.specs.Cmp.{partial_equiv_from_equiv};
    ghost use Rattle.ej_term.specs.Same.{same};
    ghost use Rattle.ej_term.specs.SameLaws.{same_equiv};

    ghost eq = { same };

    ghost laws = { partial_equiv_from_equiv same_equiv };

    fn eq(&self, other: &AsmTerm) -> bool {
        self.is_same(other)
    }
}

impl Eq for AsmTerm {
    ghost use Rattle.ej_term.specs.SameLaws.{same_equiv};

    ghost laws = { same_equiv };
}

impl Hash for AsmTerm {
    ghost use Rattle.ej_term.specs.Hashed.{fed_alike, fed_term};

    ghost hash_input = { fed_term };

    ghost respects_eq = { fed_alike };

    fn hash<H: Hasher>(&self, state: &mut H) {
        feed(self, state);
    }
}

#[cycle(feed)]
#[tactic(auto, using(crate::proofs::HashedLemmas::fed_cases))]
fn feed<H: Hasher>(term: &AsmTerm, state: &mut H)
    ensures { state.new ≡ fold H.write state.old (fed_term term.now) }
{
    match term {
        AsmTerm::Int(n) => {
            state.write_u8(0);
            state.write_i64(*n);
        }
        AsmTerm::Atom(name) => {
            state.write_u8(1);
            name.hash(state);
        }
        AsmTerm::Str(characters) => {
            state.write_u8(2);
            characters.as_slice().hash(state);
        }
        AsmTerm::List(parts, tail) => {
            state.write_u8(3);
            feed_all(parts.as_slice(), state);
            feed_tail(tail, state);
        }
        AsmTerm::Tuple(parts) => {
            state.write_u8(4);
            feed_all(parts.as_slice(), state);
        }
        AsmTerm::Map(pairs) => {
            state.write_u8(5);
            feed_pairs(pairs.as_slice(), state);
        }
        AsmTerm::ExtFun(module, name, arity) => {
            state.write_u8(6);
            module.hash(state);
            name.hash(state);
            state.write_u8(*arity);
        }
        AsmTerm::Pid(node, number) => {
            state.write_u8(7);
            state.write_u32(*node);
            state.write_u64(*number);
        }
        AsmTerm::Ref(node, number) => {
            state.write_u8(8);
            state.write_u32(*node);
            state.write_u64(*number);
        }
        AsmTerm::Opaque(spelling) => {
            state.write_u8(9);
            spelling.hash(state);
        }
    }
}

#[cycle(feed)]
fn feed_tail<H: Hasher>(tail: &Option<Boxed<AsmTerm>>, state: &mut H)
    ensures { state.new ≡ fold H.write state.old (fed_tail tail.now) }
{
    match tail {
        None => state.write_u8(0),
        Some(term) => {
            state.write_u8(1);
            feed(term.get(), state);
        }
    }
}

#[cycle(feed)]
fn feed_all<H: Hasher>(terms: &[AsmTerm], state: &mut H)
    ensures { state.new ≡ fold H.write state.old (fed.slice fed_term terms.now) }
{
    state.write_usize(terms.len());
    for term in terms {
        feed(term, state);
    }
}

#[cycle(feed)]
fn feed_pairs<H: Hasher>(pairs: &[(AsmTerm, AsmTerm)], state: &mut H)
    ensures { state.new ≡ fold H.write state.old (fed.slice fed_pair pairs.now) }
{
    state.write_usize(pairs.len());
    for (key, value) in pairs {
        feed(key, state);
        feed(value, state);
    }
}
