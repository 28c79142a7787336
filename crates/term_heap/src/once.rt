//! Terms that a heap makes once: nil, the booleans, the integers from 0 to 1,023, and atoms.

ghost use Rattle.std.specs.Prelude.{◌≡◌, ◌<◌, ℕ, pos, suc, true, if◌then◌else◌, Some, IfOk, slice_get};
ghost use Rattle.std.specs.Str.{chars};
ghost use Rattle.ej_term.specs.Term as term;
ghost use Rattle.ej_term.specs.Outcome as outcome;
ghost use Rattle.ej_term.specs.WellFormed.{is_well_formed};
ghost use Rattle.term_heap.specs.Once.{at, once_term, atom_of};
ghost use Rattle.term_heap.specs.Made.{MakesOnce, NamesOnce};
ghost use Rattle.term_heap.specs.View.{terms_in, texts_in, Stands, cell_term, Keeps};

use crate::cell::{Cell, TermId};
use crate::heap::Heap;
use std::alloc::AllocError;

// The places of the terms that are made once.
const NIL: usize = 0;

const FALSE: usize = 1;

const TRUE: usize = 2;

const ZERO: usize = 3;

/// The least integer from 0 that is made again each time.
const SMALL: i64 = 1_024;

impl Heap {
    /// An integer. One from 0 to 1,023 is made once.
    pub fn int(&mut self, n: i64) -> Result<TermId, AllocError>
        ensures keeps { Keeps self.old self.new }
        ensures term { IfOk result (λ id. Stands self.new id (term.Int n)) }
        ensures once { (k : ℕ) → n ≡ pos k → k < 1024 → MakesOnce (suc (suc (suc k))) self.old result self.new }
    {
        if 0 <= n && n < SMALL {
            return self.make_once(n as usize + ZERO, Cell::Int(n));
        }
        self.push(Cell::Int(n))
    }

    /// The atom of this text, which is made once.
    pub fn atom(&mut self, text: &str) -> Result<TermId, AllocError>
        ensures keeps { Keeps self.old self.new }
        ensures term { IfOk result (λ id. Stands self.new id (term.Atom (chars text.now))) }
        ensures once { IfOk result (λ id. NamesOnce (chars text.now) self.old id self.new) }
    {
        let place = self.push_text(text)?;
        if let Some(id) = self.kept_name(place) {
            return Ok(id);
        }
        let id = self.push(Cell::Atom(place))?;
        self.keep_name(place, id)?;
        Ok(id)
    }

    /// The atom `true` or `false`, which is made once, without its text after that.
    #[tactic(auto, using(crate::proofs::Sharing::words))]
    pub fn boolean(&mut self, truth: bool) -> Result<TermId, AllocError>
        ensures keeps { Keeps self.old self.new }
        ensures term { IfOk result (λ id. Stands self.new id (outcome.boolean truth)) }
        ensures once { MakesOnce (if truth then 2 else 1) self.old result self.new }
    {
        if truth {
            self.word_once(TRUE, "true")
        } else {
            self.word_once(FALSE, "false")
        }
    }

    /// The empty list, which is made once.
    pub fn nil(&mut self) -> Result<TermId, AllocError>
        ensures keeps { Keeps self.old self.new }
        ensures term { IfOk result (λ id. Stands self.new id term.Nil) }
        ensures once { MakesOnce 0 self.old result self.new }
    {
        self.make_once(NIL, Cell::Nil)
    }

    /// The term of a place, which is that of this cell.
    fn make_once(&mut self, place: usize, cell: Cell) -> Result<TermId, AllocError>
        requires cell { cell_term self.old cell ≡ Some (once_term place) }
        requires profile { is_well_formed (once_term place) ≡ true }
        ensures keeps { Keeps self.old self.new }
        ensures term { IfOk result (λ id. Stands self.new id (once_term place)) }
        ensures once { MakesOnce place self.old result self.new }
    {
        if let Some(id) = self.kept(place) {
            return Ok(id);
        }
        let id = self.push(cell)?;
        self.keep(place, id)?;
        Ok(id)
    }

    /// The term of a place, which is the atom of this text.
    fn word_once(&mut self, place: usize, text: &str) -> Result<TermId, AllocError>
        requires { once_term place ≡ term.Atom (chars text.now) }
        ensures keeps { Keeps self.old self.new }
        ensures term { IfOk result (λ id. Stands self.new id (once_term place)) }
        ensures once { MakesOnce place self.old result self.new }
    {
        if let Some(id) = self.kept(place) {
            return Ok(id);
        }
        let id = self.atom(text)?;
        self.keep(place, id)?;
        Ok(id)
    }
}
