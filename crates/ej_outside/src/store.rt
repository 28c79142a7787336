//! Files in memory, some given at the start, and some put within room that is set aside for them.

ghost use Rattle.std.specs.Prelude.{◌≡◌, ◌+◌, ◌-◌, ◌≤◌, length, IfOk};
ghost use Rattle.std.specs.Option.{option_copied, SomeIff};
ghost use Rattle.std.specs.Ordering.{nat_cmp};
ghost use Rattle.std.specs.Cmp.Lexicographic.{slice_cmp};
ghost use Rattle.std.specs.FinMap as map;
ghost use Rattle.ej_outside.specs.Store.{Stores, given_files, entries_in, total_size};

use std::alloc::{AllocError, Global};
use std::collections::VecDeque;
use std::marker::Model;

/// What a put takes of the room beside its name and its bytes, in bytes.
const ENTRY: usize = 16;

/// How long the name and the bytes of one put are, in bytes.
#[derive(Clone, Copy, Debug)]
struct Lengths {
    name: usize,
    bytes: usize,
}

/// Named files, and the bytes of room that are left for puts.
///
/// `text` has the name and the bytes of each put, the oldest first, and `lengths` says how long each is, the
/// newest first: so the newest lies at the end of `text`. Puts stand before the files that were given.
#[derive(Debug, Drop)]
pub(crate) struct Store {
    given: Vec<(String, Vec<u8>)>,
    text: Vec<u8>,
    lengths: VecDeque<Lengths>,
    room: usize,
}

impl Model for Store {
    ghost use Rattle.std.specs.Prelude.{◌+◌, ◌*◌, ◌<◌, ◌≤◌, ◌++◌, length, vec_len, vec_capacity};
    ghost use Rattle.std.specs.VecDeque.{deque_len, deque_capacity};
    ghost use Rattle.std.specs.FinMap as map;
    ghost use Rattle.ej_outside.specs.Store.{StoreState, store_code, given_files, entries_in, total_size};

    ghost Value = { StoreState };

    ghost coded = { store_code };

    ghost view = { λ s. record { files = map.from_entries (entries_in s.text.items s.lengths.items ++ given_files s.given.items); room = s.room } };

    ghost invariant = { λ s. (total_size s.lengths.items ≤ length s.text.items) × (vec_len s.text + s.room ≤ vec_capacity s.text) × (16 * deque_len s.lengths + s.room < 16 * deque_capacity s.lengths) };
}

impl Store {
    /// A store with these files and `room` bytes of room. Of files with one name, the first counts.
    pub(crate) fn new(
        alloc: Global,
        given: Vec<(String, Vec<u8>)>,
        room: usize,
    ) -> Result<Store, AllocError>
        ensures { IfOk result (λ store. store ≡ record { files = map.from_entries (given_files given.items); room = room }) }
    {
        let text = Vec::with_capacity(alloc, room)?;
        let lengths = VecDeque::with_capacity(alloc, room / ENTRY + 1)?;
        Ok(Store {
            given,
            text,
            lengths,
            room,
        })
    }

    /// The bytes under the name, if there are any.
    pub(crate) fn find(&self, name: &str) -> Option<&[u8]>
        ensures { option_copied result ≡ map.get self.now.files name.now }
    {
        match find_put(&self.text, &self.lengths, name) {
            Some(bytes) => Some(bytes),
            None => find_given(&self.given, name),
        }
    }

    /// Stores the bytes under the name, if there is the room, and answers whether there was.
    pub(crate) fn put(&mut self, name: &str, bytes: &[u8]) -> bool
        ensures { Stores self.old name.now bytes.now result self.new }
    {
        let Some(room) = room_after(self.room, name.len(), bytes.len()) else {
            return false;
        };
        if self.text.extend_from_slice(name.as_bytes()).is_err() {
            unreachable!();
        }
        if self.text.extend_from_slice(bytes).is_err() {
            unreachable!();
        }
        self.lengths.push_front_reserved(Lengths {
            name: name.len(),
            bytes: bytes.len(),
        });
        self.room = room;
        true
    }
}

/// The newest bytes under the name, of puts of these lengths whose names and bytes end `text`.
fn find_put<'a>(text: &'a [u8], lengths: &VecDeque<Lengths>, name: &str) -> Option<&'a [u8]>
    requires { total_size lengths.now.items ≤ length text.now }
    ensures { option_copied result ≡ map.find (slice_cmp nat_cmp) name.now (entries_in text.now lengths.now.items) }
{
    let mut rest = text;
    for place in lengths {
        let (before, both) = rest.split_at(rest.len() - place.bytes - place.name);
        let (own, bytes) = both.split_at(place.name);
        if name.as_bytes() == own {
            return Some(bytes);
        }
        rest = before;
    }
    None
}

/// The bytes of the first file given of that name.
fn find_given<'a>(given: &'a [(String, Vec<u8>)], name: &str) -> Option<&'a [u8]>
    ensures { option_copied result ≡ map.find (slice_cmp nat_cmp) name.now (given_files given.now) }
{
    for file in given {
        if name == file.0.as_str() {
            return Some(file.1.as_slice());
        }
    }
    None
}

/// The room that a put of a name and bytes of these lengths leaves, if there is the room for it.
fn room_after(room: usize, name: usize, bytes: usize) -> Option<usize>
    ensures { SomeIff result (name + bytes + 16 ≤ room) (room - (name + bytes + 16)) }
{
    room.checked_sub(ENTRY)?
        .checked_sub(name)?
        .checked_sub(bytes)
}
