//! Lists that differ from another one at one place.

ghost use Rattle.std.specs.Prelude.{◌≡◌, ◌<◌, ◌≤◌, ◌+◌, ◌++◌, length, slice_set, insert, remove, IfOk};
ghost use Rattle.forest.specs.View.{list_of, Holds, Keeps, HoldsTop, items_of};

use crate::forest::Forest;
use crate::tree::{Top, Tree};
use std::alloc::AllocError;

// Each answers a new list and keeps the earlier ones. The error says that memory was wanting, or that the forest or
// the list would grow past its bound, which is 2^31; the earlier lists are kept then too.
impl<T: Copy> Forest<T> {
    /// The list with this item at a place from 0 in place of its own, of a tree of the same form.
    pub fn set(&mut self, tree: Tree, place: usize, item: T) -> Result<Tree, AllocError>
        requires tree { Holds self.old tree }
        requires place { place < length (list_of self.old tree) }
        ensures keeps { Keeps self.old self.new }
        ensures held { IfOk result (λ made. Holds self.new made) }
        ensures list { IfOk result (λ made. list_of self.new made ≡ slice_set (list_of self.old tree) place item) }
    {
        let Some(top) = self.top(tree) else {
            unreachable!()
        };
        let before = self.len(top.left);
        if place < before {
            let left = self.set(top.left, place, item)?;
            self.join(left, top.item, top.right)
        } else if place == before {
            self.join(top.left, item, top.right)
        } else {
            let right = self.set(top.right, place - before - 1, item)?;
            self.join(top.left, top.item, right)
        }
    }

    /// The list with this item put before that at a place from 0, or at its end where the place is its length.
    pub fn insert(&mut self, tree: Tree, place: usize, item: T) -> Result<Tree, AllocError>
        requires tree { Holds self.old tree }
        requires place { place ≤ length (list_of self.old tree) }
        ensures keeps { Keeps self.old self.new }
        ensures held { IfOk result (λ made. Holds self.new made) }
        ensures list { IfOk result (λ made. list_of self.new made ≡ insert (list_of self.old tree) place item) }
    {
        let top = self.with(tree, place, item)?;
        self.push(top)
    }

    /// The same, of which the root's node isn't made yet.
    fn with(&mut self, tree: Tree, place: usize, item: T) -> Result<Top<T>, AllocError>
        requires tree { Holds self.old tree }
        requires place { place ≤ length (list_of self.old tree) }
        ensures keeps { Keeps self.old self.new }
        ensures held { IfOk result (λ top. HoldsTop self.new top) }
        ensures items { IfOk result (λ top. items_of self.new top ≡ insert (list_of self.old tree) place item) }
    {
        let Some(top) = self.top(tree) else {
            return Ok(Top {
                left: self.empty(),
                item,
                right: self.empty(),
            });
        };
        let before = self.len(top.left);
        if place <= before {
            let left = self.with(top.left, place, item)?;
            self.with_left(left, top.item, top.right)
        } else {
            let right = self.with(top.right, place - before - 1, item)?;
            self.with_right(top.left, top.item, right)
        }
    }

    /// The list without the item at a place from 0.
    #[cycle(remove)]
    pub fn remove(&mut self, tree: Tree, place: usize) -> Result<Tree, AllocError>
        requires tree { Holds self.old tree }
        requires place { place < length (list_of self.old tree) }
        ensures keeps { Keeps self.old self.new }
        ensures held { IfOk result (λ made. Holds self.new made) }
        ensures list { IfOk result (λ made. list_of self.new made ≡ remove (list_of self.old tree) place) }
    {
        let Some(top) = self.top(tree) else {
            unreachable!()
        };
        let before = self.len(top.left);
        if place < before {
            let left = self.remove(top.left, place)?;
            self.balanced(left, top.item, top.right)
        } else if place == before {
            self.both(top.left, top.right)
        } else {
            let right = self.remove(top.right, place - before - 1)?;
            self.balanced(top.left, top.item, right)
        }
    }

    /// The items of two lists, with one of the longer one as the root.
    #[cycle(remove)]
    fn both(&mut self, left: Tree, right: Tree) -> Result<Tree, AllocError>
        requires left { Holds self.old left }
        requires right { Holds self.old right }
        ensures keeps { Keeps self.old self.new }
        ensures held { IfOk result (λ made. Holds self.new made) }
        ensures list { IfOk result (λ made. list_of self.new made ≡ list_of self.old left ++ list_of self.old right) }
    {
        let before = self.len(left);
        let behind = self.len(right);
        if before == 0 {
            return Ok(right);
        }
        if behind == 0 {
            return Ok(left);
        }
        if before > behind {
            let item = self.get(left, before - 1);
            let left = self.remove(left, before - 1)?;
            self.balanced(left, item, right)
        } else {
            let item = self.get(right, 0);
            let right = self.remove(right, 0)?;
            self.balanced(left, item, right)
        }
    }
}
