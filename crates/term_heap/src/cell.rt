//! What a heap keeps for a term.

ghost use Rattle.std.specs.Prelude.{◌≡◌};

/// The id of a term in its heap.
#[derive(Clone, Copy, Debug, PartialEq, Eq)]
pub struct TermId(usize);

impl TermId {
    /// The id of the cell at this place.
    pub(crate) fn at(place: usize) -> TermId
        ensures { result.0 ≡ place }
    {
        TermId(place)
    }

    /// The place of the cell.
    pub(crate) fn place(self) -> usize
        ensures { result ≡ self.0 }
    {
        self.0
    }
}

/// A term, by its kind and by the ids of its parts.
#[derive(Clone, Copy, Debug, PartialEq, Eq)]
pub enum Cell {
    /// An integer of 64 bits.
    Int(i64),
    /// An atom, by the place of its text.
    Atom(usize),
    /// The empty list.
    Nil,
    /// A list of a head and a tail.
    Cons(TermId, TermId),
    /// A tuple, by the place of its first part and the count of its parts.
    Tuple(usize, usize),
    /// A map, by the place of its first key and the count of its keys. Behind the keys, which rise, stand
    /// their values.
    Map(usize, usize),
    /// A fun, by the places of its module's and its function's texts, and the place of the first value of its
    /// environment and their count.
    Fun {
        local: bool,
        module: usize,
        name: usize,
        arity: u8,
        first: usize,
        len: usize,
    },
    /// A pid: node and number.
    Pid(u32, u64),
    /// A reference: node and number.
    Reference(u32, u64),
}
