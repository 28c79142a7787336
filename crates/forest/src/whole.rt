//! Lists of items that stand in a row, and back.

ghost use Rattle.std.specs.Prelude.{◌≡◌, ◌++◌, IfOk, OnOk};
ghost use Rattle.forest.specs.View.{list_of, Holds, Keeps};

use crate::forest::Forest;
use crate::tree::Tree;
use std::alloc::AllocError;

impl<T: Copy> Forest<T> {
    /// The list of these items, made in linear time with a node for each. The error says that memory was wanting, or that
    /// the forest or the list would grow past its bound, which is 2^31; the earlier lists are kept then too.
    pub fn collect(&mut self, items: &[T]) -> Result<Tree, AllocError>
        ensures keeps { Keeps self.old self.new }
        ensures held { IfOk result (λ made. Holds self.new made) }
        ensures list { IfOk result (λ made. list_of self.new made ≡ items.now) }
    {
        let (front, back) = items.split_at(items.len() / 2);
        let Some((&item, back)) = back.split_first() else {
            return Ok(self.empty());
        };
        let left = self.collect(front)?;
        let right = self.collect(back)?;
        self.join(left, item, right)
    }

    /// Appends the items of a list to `out`, in linear time. The error says that memory was wanting.
    pub fn push_all(&self, tree: Tree, out: &mut Vec<T>) -> Result<(), AllocError>
        requires { Holds self.now tree }
        ensures { OnOk result (out.new.items ≡ out.old.items ++ list_of self.now tree) }
    {
        let Some(top) = self.top(tree) else {
            return Ok(());
        };
        self.push_all(top.left, out)?;
        out.push(top.item)?;
        self.push_all(top.right, out)
    }
}
