//! What a forest keeps for a list that isn't empty.

/// The item at the root, the numbers of the lists before and behind it, and the count of all items.
#[derive(Clone, Copy, Debug)]
pub struct Node<T> {
    pub item: T,
    pub left: u32,
    pub right: u32,
    pub len: u32,
}
