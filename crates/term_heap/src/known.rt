//! A table of ids by places.

ghost use Rattle.std.specs.Prelude.{◌≡◌, ◌<◌, ℕ, [], length, Some, OnOk, OnErr};
ghost use Rattle.term_heap.specs.Once.{at};

use crate::cell::TermId;
use std::alloc::{AllocError, Global};

/// Ids at some places from 0. It is as long as the last place that had an id.
#[derive(Debug, Drop)]
pub(crate) struct Known {
    ids: Vec<Option<TermId>>,
}

impl Known {
    /// A table with no ids, which takes no memory.
    pub(crate) fn new(alloc: Global) -> Known
        ensures { result.ids.items ≡ [] }
    {
        Known {
            ids: Vec::new(alloc),
        }
    }

    /// The id at a place, if there is one.
    pub(crate) fn get(&self, place: usize) -> Option<TermId>
        ensures { result ≡ at self.now.ids.items place }
    {
        match self.ids.get(place) {
            Some(id) => *id,
            None => None,
        }
    }

    /// Puts an id at a place.
    pub(crate) fn set(&mut self, place: usize, id: TermId) -> Result<(), AllocError>
        ensures others { (k : ℕ) → (k ≡ place → ⊥) → at self.new.ids.items k ≡ at self.old.ids.items k }
        ensures here { OnOk result (at self.new.ids.items place ≡ Some id) }
        ensures refused { OnErr result ((k : ℕ) → at self.new.ids.items k ≡ at self.old.ids.items k) }
    {
        self.reach(place)?;
        self.ids[place] = Some(id);
        Ok(())
    }

    /// Makes the table longer than a place.
    fn reach(&mut self, place: usize) -> Result<(), AllocError>
        ensures same { (k : ℕ) → at self.new.ids.items k ≡ at self.old.ids.items k }
        ensures long { OnOk result (place < length self.new.ids.items) }
    {
        while self.ids.len() <= place {
            self.ids.push(None)?;
        }
        Ok(())
    }
}
