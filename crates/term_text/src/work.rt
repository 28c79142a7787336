//! What is still to be written of a term.

use term_heap::TermId;

/// A piece of a print that is still to be written.
#[derive(Clone, Copy, Debug)]
pub(crate) enum Work {
    /// The term of an id.
    Term(TermId),
    /// What follows an element of a list with this tail.
    Tail(TermId),
    /// Parts with commas between them, by the place of the first and their count.
    Parts(usize, usize),
    /// Parts with a comma before each.
    Rest(usize, usize),
    /// Keys with their values and commas between them, by the places of the first key and the first value, and their
    /// count.
    Entries(usize, usize, usize),
    /// Keys with their values and a comma before each key.
    More(usize, usize, usize),
    /// `=>`, between a key and its value.
    Arrow,
    /// `}`, behind a tuple or a map.
    Brace,
    /// `]`, behind a list.
    Bracket,
    /// `]>`, behind the free variables of a local fun.
    Angle,
}
