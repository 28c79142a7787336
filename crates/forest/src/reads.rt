//! Reading one item of a list.

ghost use Rattle.std.specs.Prelude.{◌≡◌, ◌<◌, length, slice_get, Some};
ghost use Rattle.forest.specs.View.{list_of, Holds};

use crate::forest::Forest;
use crate::tree::Tree;

impl<T: Copy> Forest<T> {
    /// The item at a place from 0 of a list, by a way down its tree.
    pub fn get(&self, mut tree: Tree, mut place: usize) -> T
        requires tree { Holds self.now tree }
        requires place { place < length (list_of self.now tree) }
        ensures { slice_get (list_of self.now tree) place ≡ Some result }
    {
        while let Some(top) = self.top(tree) {
            let before = self.len(top.left);
            if place == before {
                return top.item;
            }
            if place < before {
                tree = top.left;
            } else {
                place -= before + 1;
                tree = top.right;
            }
        }
        unreachable!()
    }
}
