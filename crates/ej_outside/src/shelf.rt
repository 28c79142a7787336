//! A shelf of named files.

ghost use Rattle.ej_outside.specs.Shelf.{ShelfState, Gets, Puts};

use crate::Failed;
use std::alloc::Global;
use thiserror::Error;

/// What `Shelf::get` found under a name.
#[derive(Debug, Drop)]
pub enum Got {
    /// The file's bytes, all of them.
    Bytes(Vec<u8>),
    /// There is no file of that name.
    Absent,
    /// There is one, with more bytes than the limit.
    Longer,
}

/// Why `Shelf::get` has no answer.
#[derive(Clone, Copy, Debug, PartialEq, Eq, Error)]
pub enum ShelfFault {
    /// The outside failed.
    #[error("the read failed")]
    Failed,
    /// Memory was wanting.
    #[error("out of memory")]
    NoMemory,
}

/// Named files that can be read whole and replaced whole.
///
/// A shelf stands for what it holds, if it tells that, and for four counts: of its read faults, its put
/// faults, its misses and its longs. No count falls; each rises at its own answer alone, or stands at 2^64-1.
/// Whether the contents are told never changes.
pub trait Shelf {
    ghost state: { Self → ShelfState };

    /// The bytes under `name`, at most `limit` of them. The contents stay as they are.
    ///
    /// `Absent` and the count of misses mean that the name is not held, `Longer` and the count of longs that
    /// more than `limit` bytes are held, `Failed` and the count of read faults that the outside failed.
    fn get(&mut self, alloc: Global, name: &str, limit: u64) -> Result<Got, ShelfFault>
        ensures { Gets (state self.old) name.now limit result (state self.new) };

    /// Replaces what is held under `name` by `bytes`. No other name changes.
    ///
    /// After `Failed`, which the count of put faults tells, the name is as before or has a front of `bytes`.
    fn put(&mut self, name: &str, bytes: &[u8]) -> Result<(), Failed>
        ensures { Puts (state self.old) name.now bytes.now result (state self.new) };
}
