//! A heap of terms.

ghost use Rattle.std.specs.Prelude.{◌≡◌, [], is_some, true};
ghost use Rattle.forest.specs.View.{lists_in};
ghost use Rattle.std.specs.Prelude.{◌<◌, ◌≤◌, ◌^◌};
ghost use Rattle.term_heap.specs.Cells.{meanings, all_meant, stored, number_of, map_place as place_of_map};
ghost use Rattle.term_heap.specs.Once.{AreKept, once_of, atom_of};
ghost use Rattle.std.specs.List.{list_all};
ghost use Rattle.ej_term.specs.WellFormed.{is_well_formed};

use crate::cell::{Cell, TermId};
use crate::known::Known;
use crate::texts::place_of;
use ej_term::Text;
use forest::{Forest, Tree};
use indexmap::IndexSet;
use std::alloc::{AllocError, Global};

// A map with a number of the forest has places from MAPS on, STRIDE for each number.
const MAPS: usize = 1 << 63;

const STRIDE: usize = 1 << 32;

/// A key and its value.
pub(crate) type Entry = (TermId, TermId);

/// Terms by their ids. What it keeps is never given back before the heap itself.
#[derive(Debug, Drop)]
pub struct Heap {
    alloc: Global,
    atoms: IndexSet<Text>,
    parts: Vec<TermId>,
    maps: Forest<Entry>,
    cells: Vec<Cell>,
    once: Known,
    named: Known,
    ghost meant: { is_some (meanings atoms.keys (stored parts.items (lists_in maps)) [] cells.items) ≡ true },
    ghost once_stand: { AreKept once_of (all_meant atoms.keys (stored parts.items (lists_in maps)) cells.items) once.ids.items },
    ghost named_stand: { AreKept (atom_of atoms.keys) (all_meant atoms.keys (stored parts.items (lists_in maps)) cells.items) named.ids.items },
    ghost profile: { list_all is_well_formed (all_meant atoms.keys (stored parts.items (lists_in maps)) cells.items) ≡ true },
}

impl Heap {
    ghost use Rattle.std.specs.Prelude.{◌<◌, ◌≤◌, ◌+◌, ◌++◌, length, take, drop, slice_get, slice_set, insert, remove, Some, IsSome, IfOk, OnOk, IfSome};
    ghost use Rattle.std.specs.Str.{chars};
    ghost use Rattle.term_heap.specs.Cells.{row_of, terms_of, part_at};
    ghost use Rattle.term_heap.specs.Maps.{listed};
    ghost use Rattle.forest.specs.View as forest;
    ghost use Rattle.term_heap.specs.Once.{at, once_term};
    ghost use Rattle.ej_term.specs.Term.{Term};
    ghost use Rattle.term_heap.specs.View.{terms_in, parts_in, texts_in, Holds, Stands, term_of, cell_term, NamesEarlier, Keeps};

    /// A heap with no terms, which takes no memory. It keeps `alloc` for what is added.
    pub fn new(alloc: Global) -> Heap
        ensures { terms_in result ≡ [] }
    {
        Heap {
            alloc,
            atoms: IndexSet::new(alloc),
            parts: Vec::new(alloc),
            maps: Forest::new(alloc),
            cells: Vec::new(alloc),
            once: Known::new(alloc),
            named: Known::new(alloc),
        }
    }

    /// The cell of an id, which is one of this heap. It names ids below its own alone, and its term is of the
    /// profile.
    pub fn cell(&self, id: TermId) -> &Cell
        requires { Holds self.now id }
        ensures term { cell_term self.now result.now ≡ Some (term_of self.now id) }
        ensures earlier { NamesEarlier self.now id result.now }
        ensures profile { is_well_formed (term_of self.now id) ≡ true }
    {
        &self.cells[id.place()]
    }

    /// The part at a place, which a cell of this heap names: in constant time that of a tuple or a fun, and in about
    /// log n steps a key or a value of a map of n keys.
    pub fn part(&self, place: usize) -> TermId
        requires { IsSome (part_at (parts_in self.now) place) }
        ensures { part_at (parts_in self.now) place ≡ Some result }
    {
        if place < MAPS {
            return self.parts[place];
        }
        let tree = tree_at(place);
        let offset = (place - MAPS) % STRIDE;
        let len = self.maps.len(tree);
        if offset < len {
            self.maps.get(tree, offset).0
        } else {
            self.maps.get(tree, offset - len).1
        }
    }

    /// So many parts of a tuple or a fun from a place on, which a cell of this heap names.
    pub fn parts(&self, first: usize, count: usize) -> &[TermId]
        requires { first + count ≤ length (parts_in self.now).ids }
        ensures { result.now ≡ take count (drop first (parts_in self.now).ids) }
    {
        &self.parts[first..first + count]
    }

    /// The text of an atom at a place from 0, which a cell of this heap names.
    pub fn atom_text(&self, place: usize) -> &str
        requires { place < length (texts_in self.now) }
        ensures { slice_get (texts_in self.now) place ≡ Some (chars result.now) }
    {
        match self.atoms.get_index(place) {
            Some(text) => text.as_str(),
            None => unreachable!(),
        }
    }

    /// The allocator that is kept.
    pub(crate) fn alloc(&self) -> Global {
        self.alloc
    }

    /// Adds a cell. Its id stands for the term of the cell, which is of the profile.
    pub(crate) fn push(&mut self, cell: Cell) -> Result<TermId, AllocError>
        requires known { IsSome (cell_term self.old cell) }
        requires profile { IfSome (cell_term self.old cell) (λ t. is_well_formed t ≡ true) }
        ensures keeps { Keeps self.old self.new }
        ensures term { IfOk result (λ id. slice_get (terms_in self.new) id.0 ≡ cell_term self.old cell) }
    {
        let place = self.cells.len();
        self.cells.push(cell)?;
        Ok(TermId::at(place))
    }

    /// Adds these parts, and answers the place of the first.
    pub(crate) fn push_parts(&mut self, ids: &[TermId]) -> Result<usize, AllocError>
        ensures keeps { Keeps self.old self.new }
        ensures texts { texts_in self.new ≡ texts_in self.old }
        ensures terms { terms_in self.new ≡ terms_in self.old }
        ensures parts { IfOk result (λ first. row_of (parts_in self.new) (terms_in self.old) first (length ids.now) ≡ terms_of (terms_in self.old) ids.now) }
    {
        let first = self.parts.len();
        self.parts.extend_from_slice(ids)?;
        Ok(first)
    }

    /// The trees of the maps.
    pub(crate) fn maps(&self) -> &Forest<Entry>
        ensures { result.now ≡ self.now.maps }
    {
        &self.maps
    }

    /// Adds a list of entries.
    pub(crate) fn collect(&mut self, entries: &[Entry]) -> Result<Tree, AllocError>
        ensures keeps { Keeps self.old self.new }
        ensures terms { terms_in self.new ≡ terms_in self.old }
        ensures held { IfOk result (λ made. forest.Holds self.new.maps made) }
        ensures list { IfOk result (λ made. listed self.new made ≡ entries.now) }
    {
        self.maps.collect(entries)
    }

    /// Adds the list with another entry at a place.
    pub(crate) fn with(
        &mut self,
        tree: Tree,
        place: usize,
        entry: Entry,
    ) -> Result<Tree, AllocError>
        requires tree { forest.Holds self.old.maps tree }
        requires place { place < length (listed self.old tree) }
        ensures keeps { Keeps self.old self.new }
        ensures terms { terms_in self.new ≡ terms_in self.old }
        ensures held { IfOk result (λ made. forest.Holds self.new.maps made) }
        ensures list { IfOk result (λ made. listed self.new made ≡ slice_set (listed self.old tree) place entry) }
    {
        self.maps.set(tree, place, entry)
    }

    /// Adds the list with one more entry, put before that at a place or at its end.
    pub(crate) fn with_new(
        &mut self,
        tree: Tree,
        place: usize,
        entry: Entry,
    ) -> Result<Tree, AllocError>
        requires tree { forest.Holds self.old.maps tree }
        requires place { place ≤ length (listed self.old tree) }
        ensures keeps { Keeps self.old self.new }
        ensures terms { terms_in self.new ≡ terms_in self.old }
        ensures held { IfOk result (λ made. forest.Holds self.new.maps made) }
        ensures list { IfOk result (λ made. listed self.new made ≡ insert (listed self.old tree) place entry) }
    {
        self.maps.insert(tree, place, entry)
    }

    /// Adds the list without the entry at a place.
    pub(crate) fn without(&mut self, tree: Tree, place: usize) -> Result<Tree, AllocError>
        requires tree { forest.Holds self.old.maps tree }
        requires place { place < length (listed self.old tree) }
        ensures keeps { Keeps self.old self.new }
        ensures terms { terms_in self.new ≡ terms_in self.old }
        ensures held { IfOk result (λ made. forest.Holds self.new.maps made) }
        ensures list { IfOk result (λ made. listed self.new made ≡ remove (listed self.old tree) place) }
    {
        self.maps.remove(tree, place)
    }

    /// The place of this text among those of the atoms, each of which stands there once.
    pub(crate) fn push_text(&mut self, text: &str) -> Result<usize, AllocError>
        ensures keeps { Keeps self.old self.new }
        ensures terms { terms_in self.new ≡ terms_in self.old }
        ensures text { IfOk result (λ place. slice_get (texts_in self.new) place ≡ Some (chars text.now)) }
        ensures tables { self.new.named ≡ self.old.named }
    {
        let text = Text::make(self.alloc, text)?;
        place_of(&mut self.atoms, text)
    }

    /// The id that is kept for a term that is made once, by its place.
    pub(crate) fn kept(&self, place: usize) -> Option<TermId>
        ensures kept { result ≡ at self.now.once.ids.items place }
        ensures term { IfSome result (λ id. Stands self.now id (once_term place)) }
    {
        self.once.get(place)
    }

    /// The id that is kept for the atom of a text, by the text's place.
    pub(crate) fn kept_name(&self, place: usize) -> Option<TermId>
        ensures kept { result ≡ at self.now.named.ids.items place }
        ensures term { IfSome result (λ id. slice_get (terms_in self.now) id.0 ≡ atom_of (texts_in self.now) place) }
    {
        self.named.get(place)
    }

    /// Keeps an id for the term that is made once, by its place.
    pub(crate) fn keep(&mut self, place: usize, id: TermId) -> Result<(), AllocError>
        requires { Stands self.old id (once_term place) }
        ensures keeps { Keeps self.old self.new }
        ensures terms { terms_in self.new ≡ terms_in self.old }
        ensures kept { OnOk result (at self.new.once.ids.items place ≡ Some id) }
    {
        self.once.set(place, id)
    }

    /// Keeps an id for the atom of a text, by the text's place.
    pub(crate) fn keep_name(&mut self, place: usize, id: TermId) -> Result<(), AllocError>
        requires atom { (t : Term) × (atom_of (texts_in self.old) place ≡ Some t) × Stands self.old id t }
        ensures keeps { Keeps self.old self.new }
        ensures terms { terms_in self.new ≡ terms_in self.old }
        ensures texts { texts_in self.new ≡ texts_in self.old }
        ensures kept { OnOk result (at self.new.named.ids.items place ≡ Some id) }
    {
        self.named.set(place, id)
    }
}

/// The list of the map that a place is of.
pub(crate) fn tree_at(place: usize) -> Tree
    requires { 2 ^ 63 ≤ place }
    ensures { result.number ≡ number_of place }
{
    Tree::numbered(((place - MAPS) / STRIDE) as u32)
}

/// The place at which the map of a list begins.
pub(crate) fn map_place(tree: Tree) -> usize
    requires { tree.number < 2 ^ 31 }
    ensures { result ≡ place_of_map tree.number }
{
    MAPS + tree.number() as usize * STRIDE
}
