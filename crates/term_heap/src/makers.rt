//! Adding terms to a heap.

ghost use Rattle.std.specs.Prelude.{◌≡◌, [], length, true, IfOk, IsTrue, IsFalse};
ghost use Rattle.std.specs.Str.{chars};
ghost use Rattle.ej_term.specs.Term as term;
ghost use Rattle.term_heap.specs.View.{Holds, Stands, term_of, Keeps};
ghost use Rattle.term_heap.specs.Held.{HoldsEach, terms_at};
ghost use Rattle.term_heap.specs.Entries.{HoldsEntries, entries_at};
ghost use Rattle.ej_term.specs.Maps.{put_each};

use crate::cell::{Cell, TermId};
use crate::heap::Heap;
use crate::sort::sorted;
use std::alloc::AllocError;

// Each of these stands for the term of its arguments, whose ids are ones of the heap, and keeps the term of every
// earlier id, also where there was no memory.
impl Heap {
    /// The list of this head and tail.
    pub fn cons(&mut self, head: TermId, tail: TermId) -> Result<TermId, AllocError>
        requires head { Holds self.old head }
        requires tail { Holds self.old tail }
        ensures keeps { Keeps self.old self.new }
        ensures term { IfOk result (λ id. Stands self.new id (term.Cons (term_of self.old head) (term_of self.old tail))) }
    {
        self.push(Cell::Cons(head, tail))
    }

    /// The tuple of these elements.
    pub fn tuple(&mut self, parts: &[TermId]) -> Result<TermId, AllocError>
        requires { HoldsEach self.old parts.now }
        ensures keeps { Keeps self.old self.new }
        ensures term { IfOk result (λ id. Stands self.new id (term.tuple (terms_at self.old parts.now))) }
    {
        let first = self.push_parts(parts)?;
        self.push(Cell::Tuple(first, parts.len()))
    }

    /// The map of these keys and values, of equal keys the last. It sorts them, with about n log n comparisons.
    pub fn map(&mut self, pairs: &[(TermId, TermId)]) -> Result<TermId, AllocError>
        requires { HoldsEntries self.old pairs.now }
        ensures keeps { Keeps self.old self.new }
        ensures term { IfOk result (λ id. Stands self.new id (term.Map (put_each term.Empty (entries_at self.old pairs.now)))) }
    {
        let entries = sorted(self.alloc(), self, pairs)?;
        let tree = self.collect(&entries)?;
        self.map_of(tree)
    }

    /// The fun of this module, name and arity, with the values of its free variables; an external one has none.
    pub fn fun(
        &mut self,
        local: bool,
        module: &str,
        name: &str,
        arity: u8,
        env: &[TermId],
    ) -> Result<TermId, AllocError>
        requires held { HoldsEach self.old env.now }
        requires external { IsFalse local → env.now ≡ [] }
        ensures keeps { Keeps self.old self.new }
        ensures term { IfOk result (λ id. Stands self.new id (term.Fun local (chars «module».now) (chars name.now) arity (term.terms (terms_at self.old env.now)))) }
    {
        let module = self.push_text(module)?;
        let name = self.push_text(name)?;
        let first = self.push_parts(env)?;
        self.push(Cell::Fun {
            local,
            module,
            name,
            arity,
            first,
            len: env.len(),
        })
    }

    /// The pid of this node and number.
    pub fn pid(&mut self, node: u32, number: u64) -> Result<TermId, AllocError>
        ensures keeps { Keeps self.old self.new }
        ensures term { IfOk result (λ id. Stands self.new id (term.Pid node number)) }
    {
        self.push(Cell::Pid(node, number))
    }

    /// The reference of this node and number.
    pub fn reference(&mut self, node: u32, number: u64) -> Result<TermId, AllocError>
        ensures keeps { Keeps self.old self.new }
        ensures term { IfOk result (λ id. Stands self.new id (term.Reference node number)) }
    {
        self.push(Cell::Reference(node, number))
    }
}
