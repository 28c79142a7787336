//! Changing the trees of maps.

ghost use Rattle.std.specs.Prelude.{◌≡◌, ◌<◌, length, remove, IfOk};
ghost use Rattle.ej_term.specs.Term as term;
ghost use Rattle.ej_term.specs.Maps as maps;
ghost use Rattle.term_heap.specs.Entries.{HoldsEntry, entry_of};
ghost use Rattle.term_heap.specs.Maps.{listed, pairs_in, IsTree};
ghost use Rattle.term_heap.specs.View.{Stands, term_of, terms_in, Keeps};

use crate::cell::{Cell, TermId};
use crate::heap::{Entry, Heap, map_place};
use crate::search::place_of;
use forest::Tree;
use std::alloc::AllocError;

impl Heap {
    /// The tree with the value of an entry at its key.
    pub(crate) fn put(&mut self, tree: Tree, entry: Entry) -> Result<Tree, AllocError>
        requires tree { IsTree self.old tree }
        requires entry { HoldsEntry self.old entry }
        ensures keeps { Keeps self.old self.new }
        ensures terms { terms_in self.new ≡ terms_in self.old }
        ensures tree { IfOk result (λ made. IsTree self.new made) }
        ensures map { IfOk result (λ made. pairs_in self.new made ≡ maps.put (term_of self.old entry.0) (term_of self.old entry.1) (pairs_in self.old tree)) }
    {
        match place_of(self, tree, entry.0)? {
            Ok(place) => self.with(tree, place, entry),
            Err(place) => self.with_new(tree, place, entry),
        }
    }

    /// The map of a tree.
    pub(crate) fn map_of(&mut self, tree: Tree) -> Result<TermId, AllocError>
        requires { IsTree self.old tree }
        ensures keeps { Keeps self.old self.new }
        ensures term { IfOk result (λ id. Stands self.new id (term.Map (pairs_in self.old tree))) }
    {
        let count = self.maps().len(tree);
        self.push(Cell::Map(map_place(tree), count))
    }
}
