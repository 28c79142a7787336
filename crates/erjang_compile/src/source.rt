//! A source that passed its checks.

use beam_code::{Module, SlotMap};
use sqlite_items::Items;

/// A module, and the slot map of each of its functions, in their order.
#[derive(Debug, Drop)]
pub struct Source {
    pub module: Module,
    pub maps: Items<SlotMap>,
}
