//! Pairs of numbers with what stands under each, found by hashing. Contracts see them as a list, in which the first of a
//! pair counts. It promises that finding a pair is finding it in that list.
#![tactic(auto)]

ghost use Rattle.std.specs.Prelude.{◌≡◌, [], length, OnOk, OnErr, slice_get};
ghost use Rattle.pair_table.specs.Pairs.{under, put};

#[cfg(test)]
mod tests;

use indexmap::IndexMap;
use qml_base::NoMemory;
use std::alloc::Global;
use std::marker::Model;

/// Pairs of numbers, each with what stands under it, in the order in which they came. A pair is found in constant time on
/// average.
#[derive(Drop)]
pub struct PairTable<V: Copy> {
    entries: IndexMap<(u32, u32), V>,
}

impl<V: Copy> Model for PairTable<V> {
    ghost use Rattle.std.specs.Prelude.{ℕ, List};

    ghost Value = { List ((ℕ × ℕ) × V) };

    ghost view = { λ table. table.entries.entries };
}

impl<V: Copy> PairTable<V> {
    /// No pairs. It takes no memory.
    pub fn new(alloc: Global) -> PairTable<V>
        ensures { result ≡ [] }
    {
        PairTable {
            entries: IndexMap::new(alloc),
        }
    }

    /// Puts a pair with what stands under it behind the others. Where the pair is there already, all stays as it is.
    /// Without memory nothing changes.
    pub fn put(&mut self, pair: (u32, u32), value: V) -> Result<(), NoMemory>
        ensures added { OnOk result (self.new ≡ put self.old pair value) }
        ensures kept { OnErr result (self.new ≡ self.old) }
    {
        if self.find(pair).is_some() {
            return Ok(());
        }
        let Ok(_replaced) = self.entries.insert(pair, value) else {
            return Err(NoMemory);
        };
        Ok(())
    }

    /// What stands under a pair, and None exactly where it isn't there.
    pub fn find(&self, pair: (u32, u32)) -> Option<V>
        ensures { result ≡ under self.now pair }
    {
        match self.entries.get(&pair) {
            Some(found) => Some(*found),
            None => None,
        }
    }

    /// The pair at a place in the order in which they came, with what stands under it.
    pub fn at(&self, place: usize) -> Option<((u32, u32), V)>
        ensures { result ≡ slice_get self.now place }
    {
        match self.entries.get_index(place) {
            Some((pair, found)) => Some((*pair, *found)),
            None => None,
        }
    }

    /// How many pairs there are.
    pub fn len(&self) -> usize
        ensures { result ≡ length self.now }
    {
        self.entries.len()
    }
}
