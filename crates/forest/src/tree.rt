//! What names a list of a forest.

ghost use Rattle.std.specs.Prelude.{◌≡◌};

/// A list of a forest, by its number. The empty list is number 0.
#[derive(Clone, Copy, Debug, PartialEq, Eq)]
pub struct Tree {
    number: u32,
}

impl Tree {
    /// The empty list, which each forest has.
    pub fn empty() -> Tree
        ensures { result.number ≡ 0 }
    {
        Tree { number: 0 }
    }

    /// The list of this number.
    pub fn numbered(number: u32) -> Tree
        ensures { result.number ≡ number }
    {
        Tree { number }
    }

    /// The number of the list.
    pub fn number(self) -> u32
        ensures { result ≡ self.number }
    {
        self.number
    }
}

/// A list that isn't empty, as the item at the root of its tree, the list of the items before it and that of those
/// behind it.
#[derive(Clone, Copy, Debug)]
pub struct Top<T> {
    /// The items before.
    pub left: Tree,
    /// The item at the root.
    pub item: T,
    /// The items behind.
    pub right: Tree,
}
