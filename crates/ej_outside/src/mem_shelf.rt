//! A shelf in memory.

ghost use Rattle.std.specs.Prelude.{◌≡◌, IfOk};
ghost use Rattle.std.specs.Option.{option_copied};
ghost use Rattle.std.specs.FinMap as map;
ghost use Rattle.ej_outside.specs.Store.{given_files};

use crate::calls::{Calls, one_more};
use crate::store::Store;
use crate::{Failed, Got, Shelf, ShelfFault};
use std::alloc::{AllocError, Global};
use std::marker::Model;

/// Named files in memory, some given at the start, and some put within a room that is set aside for them.
///
/// Calls of `get` and `put` are numbered together, from 0. A call whose number is listed fails and is counted.
/// The number of the next call and the four counts stay at 2^64-1 once they are there.
#[derive(Debug, Drop)]
pub struct MemShelf {
    store: Store,
    calls: Calls,
    read_faults: u64,
    put_faults: u64,
    misses: u64,
    longs: u64,
}

impl Model for MemShelf {
    ghost use Rattle.ej_outside.specs.MemShelf.{MemShelfState, mem_shelf_code};

    ghost Value = { MemShelfState };

    ghost coded = { mem_shelf_code };

    ghost view = { λ s. record { files = s.store.files; room = s.store.room; fails = s.calls.fails.items; next = s.calls.next; read_faults = s.read_faults; put_faults = s.put_faults; misses = s.misses; longs = s.longs } };
}

impl MemShelf {
    ghost use Rattle.ej_outside.specs.MemShelf.{fresh};

    /// A shelf with these files, `room` bytes of room for puts, and the numbers of the calls that are to fail.
    ///
    /// Of files with one name, the first counts. All the memory that puts need is taken here; the error says
    /// that it was wanting.
    pub fn new(
        alloc: Global,
        files: Vec<(String, Vec<u8>)>,
        room: usize,
        fails: Vec<u64>,
    ) -> Result<MemShelf, AllocError>
        ensures { IfOk result (λ shelf. shelf ≡ fresh (map.from_entries (given_files files.items)) room fails.items) }
    {
        let store = Store::new(alloc, files, room)?;
        Ok(MemShelf {
            store,
            calls: Calls { fails, next: 0 },
            read_faults: 0,
            put_faults: 0,
            misses: 0,
            longs: 0,
        })
    }

    /// The bytes that are held under the name, if there are any. This is no call of the shelf: it is not
    /// numbered and not counted.
    pub fn held(&self, name: &str) -> Option<&[u8]>
        ensures { option_copied result ≡ map.get self.now.files name.now }
    {
        self.store.find(name)
    }
}

impl Shelf for MemShelf {
    ghost use Rattle.ej_outside.specs.Shelf.{Gets, Puts};
    ghost use Rattle.ej_outside.specs.MemShelf.{shelf_state, MemGets, MemPuts};

    ghost state = { shelf_state };

    /// The bytes under `name`, if there are at most `limit` of them.
    ///
    /// `Failed` comes exactly where this call is listed, and the count of read faults rises. Else `Absent` comes
    /// exactly where the name is not held, and the misses rise; `Longer` exactly where more than `limit` bytes
    /// are held, and the longs rise; and else the bytes, or `NoMemory`. The files and the room stay.
    fn get(&mut self, alloc: Global, name: &str, limit: u64) -> Result<Got, ShelfFault>
        ensures exact { MemGets self.old name.now limit result self.new }
        ensures owed { Gets (shelf_state self.old) name.now limit result (shelf_state self.new) }
    {
        if self.calls.fails_next() {
            self.read_faults = one_more(self.read_faults);
            return Err(ShelfFault::Failed);
        }
        match self.store.find(name) {
            None => {
                self.misses = one_more(self.misses);
                Ok(Got::Absent)
            }
            Some(bytes) if bytes.len() as u64 > limit => {
                self.longs = one_more(self.longs);
                Ok(Got::Longer)
            }
            Some(bytes) => match Vec::from_slice(alloc, bytes) {
                Ok(copy) => Ok(Got::Bytes(copy)),
                Err(_) => Err(ShelfFault::NoMemory),
            },
        }
    }

    /// Replaces the bytes under `name`, and takes the length of the name, the length of the bytes and 16 of the
    /// room, in bytes. A name that is replaced gives no room back.
    ///
    /// `Failed` comes exactly where this call is listed or the room is too small, and the count of put faults
    /// rises. A listed call stores half of the bytes, rounded down, where there is the room for a put of that
    /// half; every other failed call leaves the files and the room as they were.
    fn put(&mut self, name: &str, bytes: &[u8]) -> Result<(), Failed>
        ensures exact { MemPuts self.old name.now bytes.now result self.new }
        ensures owed { Puts (shelf_state self.old) name.now bytes.now result (shelf_state self.new) }
    {
        if self.calls.fails_next() {
            let (half, _) = bytes.split_at(bytes.len() / 2);
            let _ = self.store.put(name, half);
            self.put_faults = one_more(self.put_faults);
            return Err(Failed);
        }
        if self.store.put(name, bytes) {
            return Ok(());
        }
        self.put_faults = one_more(self.put_faults);
        Err(Failed)
    }
}
