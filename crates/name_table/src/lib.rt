//! Names with what stands under each, found by hashing. Contracts see them as a list, in which the first of a name
//! counts. It promises that finding a name is finding it in that list.
#![tactic(auto)]

ghost use Rattle.std.specs.Prelude.{◌≡◌, [], length, slice_get, option_copied, OnOk, OnErr};
ghost use Rattle.name_table.specs.Named.{under, put, row_name, row_found};

#[cfg(test)]
mod tests;

use indexmap::IndexMap;
use qml_base::NoMemory;
use qml_text::Text;
use std::alloc::Global;
use std::marker::Model;

/// Names, each with what stands under it. A name is found in constant time on average.
#[derive(Drop)]
pub struct NameTable<V: Copy> {
    entries: IndexMap<Vec<u16>, V>,
}

impl<V: Copy> Model for NameTable<V> {
    ghost use Rattle.std.specs.Prelude.{ℕ, List, map};
    ghost use Rattle.name_table.specs.Named.{pair_of};

    ghost Value = { List (List ℕ × V) };

    ghost view = { λ table. map pair_of table.entries.entries };
}

impl<V: Copy> NameTable<V> {
    /// No names.
    pub fn new(alloc: Global) -> NameTable<V>
        ensures { result ≡ [] }
    {
        NameTable {
            entries: IndexMap::new(alloc),
        }
    }

    /// Puts a name with what stands under it behind the others. Where the name is there already, all stays as it is.
    /// Without memory nothing changes.
    pub fn put(&mut self, alloc: Global, name: &Text, value: V) -> Result<(), NoMemory>
        ensures added { OnOk result (self.new ≡ put self.old name.now value) }
        ensures kept { OnErr result (self.new ≡ self.old) }
    {
        if self.find(name).is_some() {
            return Ok(());
        }
        let Ok(units) = Vec::from_slice(alloc, name.units()) else {
            return Err(NoMemory);
        };
        let Ok(_replaced) = self.entries.insert(units, value) else {
            return Err(NoMemory);
        };
        Ok(())
    }

    /// What stands under a name, and None exactly where it isn't there.
    pub fn find(&self, name: &Text) -> Option<V>
        ensures { result ≡ under self.now name.now }
    {
        match self.entries.get(name.units()) {
            Some(found) => Some(*found),
            None => None,
        }
    }

    /// How many names there are.
    pub fn len(&self) -> usize
        ensures { result ≡ length self.now }
    {
        self.entries.len()
    }

    /// The name at the place, as UTF-16 units.
    pub fn name_at(&self, i: usize) -> Option<&[u16]>
        ensures { option_copied result ≡ row_name (slice_get self.now i) }
    {
        match self.entries.get_index(i) {
            Some(pair) => Some(pair.0.as_slice()),
            None => None,
        }
    }

    /// What stands under the name at the place.
    pub fn found_at(&self, i: usize) -> Option<V>
        ensures { result ≡ row_found (slice_get self.now i) }
    {
        match self.entries.get_index(i) {
            Some(pair) => Some(*pair.1),
            None => None,
        }
    }
}
