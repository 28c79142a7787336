//! Maps of a heap by their entries.

ghost use Rattle.std.specs.Prelude.{◌≡◌, ◌<◌, ◌^◌, false, length, option_map, option_map as mapped, IfOk, IfSome, IfNone};
ghost use Rattle.ej_term.specs.Term as term;
ghost use Rattle.ej_term.specs.Maps as maps;
ghost use Rattle.ej_term.specs.Tests.{is_map};
ghost use Rattle.term_heap.specs.Entries.{HoldsEntries, entries_at};
ghost use Rattle.term_heap.specs.Maps.{entries_of, pairs_of, IsMap, HoldsSome};
ghost use Rattle.term_heap.specs.View.{Holds, Stands, term_of, Keeps};

use crate::cell::{Cell, TermId};
use crate::heap::{Entry, Heap, tree_at};
use crate::search::place_of;
use crate::sort::merge;
use forest::Tree;
use std::alloc::{AllocError, Global};

/// A map is merged key by key where the other map has so many times its keys.
const FEW: usize = 32;

/// The keys of a map, which rise, with their values.
#[derive(Clone, Copy, Debug)]
pub struct Entries {
    pub(crate) tree: Tree,
}

// What is made of a map keeps the term of every earlier id, also where there was no memory. A change goes down the
// map's tree and makes the nodes on that way again, about 2 log2 n of them for n keys; the others are shared.
impl Heap {
    /// The entries of a map; None of anything else.
    pub fn entries(&self, id: TermId) -> Option<Entries>
        requires { Holds self.now id }
        ensures map { IfSome result (λ entries. IsMap self.now entries) }
        ensures term { IfSome result (λ entries. term_of self.now id ≡ term.Map (pairs_of self.now entries)) }
        ensures other { IfNone result (is_map (term_of self.now id) ≡ false) }
    {
        match *self.cell(id) {
            Cell::Map(first, _) => Some(Entries {
                tree: tree_at(first),
            }),
            _ => None,
        }
    }

    /// The count of a map's keys, in constant time.
    pub fn entry_count(&self, entries: Entries) -> usize
        requires { IsMap self.now entries }
        ensures count { result ≡ length (entries_of self.now entries) }
        ensures fits { result < 2 ^ 31 }
    {
        self.maps().len(entries.tree)
    }

    /// The keys of a map, which rise, with their values. The error says that memory was wanting.
    pub fn entry_list(
        &self,
        alloc: Global,
        entries: Entries,
    ) -> Result<Vec<(TermId, TermId)>, AllocError>
        requires { IsMap self.now entries }
        ensures { IfOk result (λ list. list.items ≡ entries_of self.now entries) }
    {
        let mut list = Vec::new(alloc);
        self.maps().push_all(entries.tree, &mut list)?;
        Ok(list)
    }

    /// The value at a key of a map; None where it has no such key. The error says that memory was wanting.
    pub fn value_at(&self, entries: Entries, key: TermId) -> Result<Option<TermId>, AllocError>
        requires map { IsMap self.now entries }
        requires key { Holds self.now key }
        ensures held { IfOk result (λ value. HoldsSome self.now value) }
        ensures value { IfOk result (λ value. option_map (term_of self.now) value ≡ maps.value_at (term_of self.now key) (pairs_of self.now entries)) }
    {
        match place_of(self, entries.tree, key)? {
            Ok(place) => Ok(Some(self.maps().get(entries.tree, place).1)),
            Err(_) => Ok(None),
        }
    }

    /// The map with these values at their keys, of equal keys the last, with about k log n comparisons for k of them.
    pub fn put_each(
        &mut self,
        entries: Entries,
        pairs: &[(TermId, TermId)],
    ) -> Result<TermId, AllocError>
        requires map { IsMap self.old entries }
        requires pairs { HoldsEntries self.old pairs.now }
        ensures keeps { Keeps self.old self.new }
        ensures term { IfOk result (λ id. Stands self.new id (term.Map (maps.put_each (pairs_of self.old entries) (entries_at self.old pairs.now)))) }
    {
        let mut tree = entries.tree;
        for pair in pairs {
            tree = self.put(tree, *pair)?;
        }
        self.map_of(tree)
    }

    /// The map without a key; None where it has no such key.
    pub fn remove(&mut self, entries: Entries, key: TermId) -> Result<Option<TermId>, AllocError>
        requires map { IsMap self.old entries }
        requires key { Holds self.old key }
        ensures keeps { Keeps self.old self.new }
        ensures term { IfOk result (λ made. IfSome made (λ id. Stands self.new id (term.Map (maps.remove (term_of self.old key) (pairs_of self.old entries))))) }
        ensures absent { IfOk result (λ made. IfNone made (maps.remove (term_of self.old key) (pairs_of self.old entries) ≡ pairs_of self.old entries)) }
    {
        match place_of(self, entries.tree, key)? {
            Ok(place) => {
                let tree = self.without(entries.tree, place)?;
                Ok(Some(self.map_of(tree)?))
            }
            Err(_) => Ok(None),
        }
    }

    /// The map of both maps' keys, of equal keys with the value of the second. It puts the keys of the second into
    /// the first where they are few beside these, and else goes through both.
    pub fn merge(&mut self, first: Entries, second: Entries) -> Result<TermId, AllocError>
        requires first { IsMap self.old first }
        requires second { IsMap self.old second }
        ensures keeps { Keeps self.old self.new }
        ensures term { IfOk result (λ id. Stands self.new id (term.Map (maps.put_each (pairs_of self.old first) (entries_at self.old (entries_of self.old second))))) }
    {
        let seconds = self.entry_list(self.alloc(), second)?;
        if seconds.len() < self.entry_count(first) / FEW {
            return self.put_each(first, &seconds);
        }
        let firsts = self.entry_list(self.alloc(), first)?;
        let merged = merge(self.alloc(), self, &firsts, &seconds)?;
        let tree = self.collect(&merged)?;
        self.map_of(tree)
    }
}
