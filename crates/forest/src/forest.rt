//! A forest, and the reading and adding of one node.

ghost use Rattle.std.specs.Prelude.{◌≡◌, ◌<◌, ◌^◌, [], ◌∷◌, length, true};
ghost use Rattle.forest.specs.Lists.{sound};

use crate::node::Node;
use crate::tree::{Top, Tree};
use std::alloc::{AllocError, Global};

// A forest has less than so many nodes, and a list less than so many items.
const BOUND: usize = 1 << 31;

/// Lists by their numbers, a node for each but the empty one. What it keeps is never given back before the forest
/// itself. It keeps less than 2^31 nodes, and each list has less than 2^31 items.
#[derive(Debug, Drop)]
pub struct Forest<T> {
    nodes: Vec<Node<T>>,
    ghost few: { length nodes.items < 2 ^ 31 },
    ghost grows: { sound ([] ∷ []) nodes.items ≡ true },
}

impl<T: Copy> Forest<T> {
    ghost use Rattle.std.specs.Prelude.{◌++◌, ◌+◌, IfOk, MatchOption};
    ghost use Rattle.forest.specs.View.{lists_in, list_of, Holds, Keeps, HoldsTop, items_of, IsTopOf};

    /// A forest with the empty list alone, which takes no memory. It keeps `alloc` for what is added.
    pub fn new(alloc: Global) -> Forest<T>
        ensures { lists_in result ≡ [] ∷ [] }
    {
        Forest {
            nodes: Vec::new(alloc),
        }
    }

    /// The empty list, by a number that each forest has.
    pub fn empty(&self) -> Tree
        ensures number { result.number ≡ 0 }
        ensures held { Holds self.now result }
        ensures list { list_of self.now result ≡ [] }
    {
        Tree::empty()
    }

    /// The count of the items of a list, in constant time.
    pub fn len(&self, tree: Tree) -> usize
        requires { Holds self.now tree }
        ensures len { result ≡ length (list_of self.now tree) }
        ensures list_fits { length (list_of self.now tree) < 2 ^ 31 }
        ensures number_fits { tree.number < 2 ^ 31 }
    {
        match tree.number() {
            0 => 0,
            number => self.nodes[number as usize - 1].len as usize,
        }
    }

    /// The item at the root of a list's tree, with the lists before and behind it, in constant time. There is none
    /// exactly where the list is empty.
    pub fn top(&self, tree: Tree) -> Option<Top<T>>
        requires { Holds self.now tree }
        ensures { MatchOption result (list_of self.now tree ≡ []) (IsTopOf self.now tree) }
    {
        match tree.number() {
            0 => None,
            number => {
                let node = self.nodes[number as usize - 1];
                Some(Top {
                    left: Tree::numbered(node.left),
                    item: node.item,
                    right: Tree::numbered(node.right),
                })
            }
        }
    }

    /// The list of these items, as a new node. The error says that memory was wanting, or that the forest or the list
    /// would grow past its bound.
    pub(crate) fn push(&mut self, top: Top<T>) -> Result<Tree, AllocError>
        requires { HoldsTop self.old top }
        ensures keeps { Keeps self.old self.new }
        ensures held { IfOk result (λ tree. Holds self.new tree) }
        ensures list { IfOk result (λ tree. list_of self.new tree ≡ items_of self.old top) }
    {
        let len = self.len(top.left) + self.len(top.right) + 1;
        let place = self.nodes.len();
        if len >= BOUND {
            return Err(AllocError);
        }
        if place + 1 >= BOUND {
            return Err(AllocError);
        }
        self.nodes.push(Node {
            item: top.item,
            left: top.left.number(),
            right: top.right.number(),
            len: len as u32,
        })?;
        Ok(Tree::numbered(place as u32 + 1))
    }
}
