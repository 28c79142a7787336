//! The pool.

ghost use Rattle.std.specs.Prelude.{◌≡◌, [], ◌∷◌, ◌++◌, None, reverse, IfOk, OnErr, OnOk};
ghost use Rattle.constant_pool.specs.Pool as spec;
ghost use Rattle.constant_pool.specs.Pool.{indices, place_of, pool_of, AreNumbered, Indexes, Behind};

use indexmap::IndexMap;
use jvm_code::Constant;
use std::alloc::{AllocError, Global};
use std::marker::Model;
use thiserror::Error;

/// Why an entry got no index.
#[derive(Clone, Copy, Debug, PartialEq, Eq, Error)]
pub enum PoolFault {
    /// The entry is new and needs an index above 65,534.
    #[error("the constant pool is full")]
    PoolFull,
    #[error("out of memory")]
    NoMemory,
}

impl From<AllocError> for PoolFault {
    ghost use Rattle.std.specs.Prelude.{◌≡◌};
    ghost use Rattle.constant_pool.specs.declared.pool.PoolFault.TheVariants.{NoMemory};

    ghost from_gives = { λ _ e. e ≡ NoMemory };

    fn from(_: AllocError) -> PoolFault {
        PoolFault::NoMemory
    }
}

/// The entries by index. Index 0 and the second index of a Long are gaps.
#[derive(Debug, Drop)]
pub struct Pool {
    alloc: Global,
    // Each entry with its index, in the order of their indices.
    places: IndexMap<Constant, u16>,
    // The index of the entry that comes next.
    next: u16,
}

impl Model for Pool {
    ghost use Rattle.std.specs.Prelude.{List};
    ghost use Rattle.jvm_code.specs.declared.class.Constant.{Constant};
    ghost use Rattle.constant_pool.specs.Pool.{pool_of, IsPool};

    ghost Value = { List Constant };

    ghost view = { λ pool. pool_of pool.places.entries };

    ghost invariant = { λ pool. IsPool pool.places.entries pool.next };
}

impl Pool {
    ghost use Rattle.jvm_code.specs.declared.class.Constant.TheVariants.{Gap};

    /// A pool with no entry, which takes no memory. It keeps `alloc` for what is added.
    pub fn new(alloc: Global) -> Pool
        ensures { result ≡ Gap ∷ [] }
    {
        Pool {
            alloc,
            places: IndexMap::new(alloc),
            next: 1,
        }
    }

    /// The index of an entry that equals this one, or else the next index, at which this one is added. Where it is new and
    /// needs an index above 65,534 the pool is full. Both faults leave the pool as it was.
    pub fn index_of(&mut self, entry: Constant) -> Result<u16, PoolFault>
        ensures { Indexes self.old entry result self.new }
    {
        match place(&self.places, &entry) {
            Some(index) => Ok(index),
            None => self.add(entry),
        }
    }

    // Adds an entry that is not there.
    fn add(&mut self, entry: Constant) -> Result<u16, PoolFault>
        requires { place_of entry self.old ≡ None }
        ensures { Indexes self.old entry result self.new }
    {
        let index = self.next;
        let behind = behind(index, &entry)?;
        insert(&mut self.places, entry, index)?;
        self.next = behind;
        Ok(index)
    }

    /// The entries by index, with their gaps. The error says that memory was wanting.
    pub fn entries(self) -> Result<Vec<Constant>, AllocError>
        ensures { IfOk result (λ entries. entries.items ≡ self) }
    {
        let mut entries = Vec::new(self.alloc);
        let mut places = self.places;
        while let Some((entry, _)) = places.pop() {
            push_reversed(&mut entries, entry)?;
        }
        entries.push(Constant::Gap)?;
        entries.reverse();
        Ok(entries)
    }
}

fn is_gap(entry: &Constant) -> bool
    ensures { result ≡ spec.is_gap entry.now }
{
    matches!(entry, Constant::Gap)
}

// The index of an entry that equals this one.
#[tactic(auto, using(crate::proofs::Found::found_gap, crate::proofs::Found::found))]
fn place(places: &IndexMap<Constant, u16>, entry: &Constant) -> Option<u16>
    requires { AreNumbered 1 places.now.entries }
    ensures { result ≡ place_of entry.now (pool_of places.now.entries) }
{
    if is_gap(entry) {
        return Some(0);
    }
    match places.get(entry) {
        Some(index) => Some(*index),
        None => None,
    }
}

// The index behind an entry at that one. The pool is full where that would be above 65,535.
fn behind(index: u16, entry: &Constant) -> Result<u16, PoolFault>
    ensures { Behind index entry.now result }
{
    let taken = match entry {
        Constant::Long(_) => 2,
        _ => 1,
    };
    match index.checked_add(taken) {
        Some(behind) => Ok(behind),
        None => Err(PoolFault::PoolFull),
    }
}

// Adds an entry that is not there, with its index.
fn insert(
    places: &mut IndexMap<Constant, u16>,
    entry: Constant,
    index: u16,
) -> Result<(), AllocError>
    requires numbered { AreNumbered 1 places.old.entries }
    requires new { place_of entry (pool_of places.old.entries) ≡ None }
    ensures ok { OnOk result (places.new.entries ≡ places.old.entries ++ (entry, index) ∷ []) }
    ensures err { OnErr result (places.new.entries ≡ places.old.entries) }
{
    places.insert(entry, index)?;
    Ok(())
}

// Appends what stands at an entry's indices, the last first.
fn push_reversed(entries: &mut Vec<Constant>, entry: Constant) -> Result<(), AllocError>
    ensures { OnOk result (reverse entries.new.items ≡ indices entry ++ reverse entries.old.items) }
{
    if let Constant::Long(_) = entry {
        entries.push(Constant::Gap)?;
    }
    entries.push(entry)?;
    Ok(())
}
