//! Making a list of two lists with an item between them, so that its tree is balanced by weight.

ghost use Rattle.std.specs.Prelude.{◌≡◌, ◌++◌, ◌∷◌, IfOk};
ghost use Rattle.forest.specs.View.{list_of, Holds, Keeps, HoldsTop, items_of};

use crate::forest::Forest;
use crate::tree::{Top, Tree};
use std::alloc::AllocError;

// A list may be so many times as long as the one beside it.
const MOST: usize = 3;

// Where the inner part of the longer one is so many times as long as its outer part, it is split too.
const INNER: usize = 2;

// These only join, in order, the items that they take. Which nodes they make of them is speed.
impl<T: Copy> Forest<T> {
    /// The list of these items, as a new node.
    pub(crate) fn join(&mut self, left: Tree, item: T, right: Tree) -> Result<Tree, AllocError>
        requires left { Holds self.old left }
        requires right { Holds self.old right }
        ensures keeps { Keeps self.old self.new }
        ensures held { IfOk result (λ tree. Holds self.new tree) }
        ensures list { IfOk result (λ tree. list_of self.new tree ≡ list_of self.old left ++ item ∷ list_of self.old right) }
    {
        self.push(Top { left, item, right })
    }

    /// The same items under another root: the left one's, or that of its inner part.
    fn turned_right(&mut self, left: Top<T>, item: T, right: Tree) -> Result<Top<T>, AllocError>
        requires left { HoldsTop self.old left }
        requires right { Holds self.old right }
        ensures keeps { Keeps self.old self.new }
        ensures held { IfOk result (λ top. HoldsTop self.new top) }
        ensures items { IfOk result (λ top. items_of self.new top ≡ items_of self.old left ++ item ∷ list_of self.old right) }
    {
        if self.len(left.right) >= INNER * self.len(left.left) {
            if let Some(inner) = self.top(left.right) {
                let before = self.join(left.left, left.item, inner.left)?;
                let behind = self.join(inner.right, item, right)?;
                return Ok(Top {
                    left: before,
                    item: inner.item,
                    right: behind,
                });
            }
        }
        let behind = self.join(left.right, item, right)?;
        Ok(Top {
            left: left.left,
            item: left.item,
            right: behind,
        })
    }

    /// The same items under another root: the right one's, or that of its inner part.
    fn turned_left(&mut self, left: Tree, item: T, right: Top<T>) -> Result<Top<T>, AllocError>
        requires left { Holds self.old left }
        requires right { HoldsTop self.old right }
        ensures keeps { Keeps self.old self.new }
        ensures held { IfOk result (λ top. HoldsTop self.new top) }
        ensures items { IfOk result (λ top. items_of self.new top ≡ list_of self.old left ++ item ∷ items_of self.old right) }
    {
        if self.len(right.left) >= INNER * self.len(right.right) {
            if let Some(inner) = self.top(right.left) {
                let before = self.join(left, item, inner.left)?;
                let behind = self.join(inner.right, right.item, right.right)?;
                return Ok(Top {
                    left: before,
                    item: inner.item,
                    right: behind,
                });
            }
        }
        let before = self.join(left, item, right.left)?;
        Ok(Top {
            left: before,
            item: right.item,
            right: right.right,
        })
    }

    /// The items of a list that grew, an item, and those of another one. The new root's node isn't made yet.
    pub(crate) fn with_left(
        &mut self,
        left: Top<T>,
        item: T,
        right: Tree,
    ) -> Result<Top<T>, AllocError>
        requires left { HoldsTop self.old left }
        requires right { Holds self.old right }
        ensures keeps { Keeps self.old self.new }
        ensures held { IfOk result (λ top. HoldsTop self.new top) }
        ensures items { IfOk result (λ top. items_of self.new top ≡ items_of self.old left ++ item ∷ list_of self.old right) }
    {
        let before = self.len(left.left) + self.len(left.right) + 1;
        if before > 1 && before > MOST * self.len(right) {
            return self.turned_right(left, item, right);
        }
        let left = self.push(left)?;
        Ok(Top { left, item, right })
    }

    /// The items of a list, an item, and those of a list that grew. The new root's node isn't made yet.
    pub(crate) fn with_right(
        &mut self,
        left: Tree,
        item: T,
        right: Top<T>,
    ) -> Result<Top<T>, AllocError>
        requires left { Holds self.old left }
        requires right { HoldsTop self.old right }
        ensures keeps { Keeps self.old self.new }
        ensures held { IfOk result (λ top. HoldsTop self.new top) }
        ensures items { IfOk result (λ top. items_of self.new top ≡ list_of self.old left ++ item ∷ items_of self.old right) }
    {
        let behind = self.len(right.left) + self.len(right.right) + 1;
        if behind > 1 && behind > MOST * self.len(left) {
            return self.turned_left(left, item, right);
        }
        let right = self.push(right)?;
        Ok(Top { left, item, right })
    }

    /// The items of two lists, of which one has lost an item, and an item between them.
    pub(crate) fn balanced(&mut self, left: Tree, item: T, right: Tree) -> Result<Tree, AllocError>
        requires left { Holds self.old left }
        requires right { Holds self.old right }
        ensures keeps { Keeps self.old self.new }
        ensures held { IfOk result (λ tree. Holds self.new tree) }
        ensures list { IfOk result (λ tree. list_of self.new tree ≡ list_of self.old left ++ item ∷ list_of self.old right) }
    {
        let before = self.len(left);
        let behind = self.len(right);
        if before + behind > 1 && before > MOST * behind {
            if let Some(left) = self.top(left) {
                let top = self.turned_right(left, item, right)?;
                return self.push(top);
            }
        }
        if before + behind > 1 && behind > MOST * before {
            if let Some(right) = self.top(right) {
                let top = self.turned_left(left, item, right)?;
                return self.push(top);
            }
        }
        self.join(left, item, right)
    }
}
