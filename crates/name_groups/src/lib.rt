//! Names with all that stands under each, found by hashing. Contracts see of them what stands under a name. It promises
//! that what is put under a name stands behind what stood there, and that nothing else changes.
#![tactic(auto)]

ghost use Rattle.std.specs.Prelude.{◌≡◌, length, OnOk, OnErr};
ghost use Rattle.name_groups.specs.Groups as s;

use name_table::NameTable;
use qml_base::NoMemory;
use qml_text::Text;
use std::alloc::Global;
use std::marker::Model;

/// Names, each with what stands under it, in the order in which it came. A name is found in constant time on average.
#[derive(Drop)]
pub struct NameGroups<V> {
    places: NameTable<usize>,
    groups: Vec<Vec<V>>,
}

impl<V> Model for NameGroups<V> {
    ghost use Rattle.name_groups.specs.Groups.{Groups, AreApart};

    ghost Value = { Groups V };

    ghost view = { λ g. (g.places, g.groups.items) };

    ghost invariant = { λ g. AreApart g.places g.groups.items };
}

impl<V: Drop> NameGroups<V> {
    /// No names. It takes no memory.
    pub fn new(alloc: Global) -> NameGroups<V>
        ensures { s.IsEmpty result }
    {
        NameGroups {
            places: NameTable::new(alloc),
            groups: Vec::new(alloc),
        }
    }

    /// Puts a value behind those that stand under a name.
    pub fn put(&mut self, alloc: Global, name: &Text, value: V) -> Result<(), NoMemory>
        ensures { OnOk result (s.IsPut name.now value self.old self.new) }
    {
        let place = self.places.find(name);
        match place {
            Some(at) => add(&mut self.groups, at, value),
            None => add_first(alloc, &mut self.places, &mut self.groups, name, value),
        }
    }

    /// All that stands under a name.
    pub fn all(&self, name: &Text) -> &[V]
        ensures { result.now ≡ s.all_under self.now name.now }
    {
        group_at(self.groups.as_slice(), self.places.find(name))
    }
}

/// The group at a place.
fn group_at<V>(groups: &[Vec<V>], place: Option<usize>) -> &[V]
    ensures { result.now ≡ s.group_in groups.now place }
{
    let Some(at) = place else {
        return &[];
    };
    match groups.get(at) {
        Some(group) => group.as_slice(),
        None => &[],
    }
}

/// Adds a value to the group at a place.
#[tactic(auto, using(crate::proofs::GroupLemmas::added_here, crate::proofs::GroupLemmas::added_nowhere))]
fn add<V: Drop>(groups: &mut Vec<Vec<V>>, at: usize, value: V) -> Result<(), NoMemory>
    ensures added { OnOk result (s.IsAdded at value groups.old.items groups.new.items) }
    ensures long { length groups.new.items ≡ length groups.old.items }
{
    if at < groups.len() {
        groups[at].push(value)?;
    }
    Ok(())
}

/// Puts a name that isn't there with a value.
fn add_first<V: Drop>(
    alloc: Global,
    places: &mut NameTable<usize>,
    groups: &mut Vec<Vec<V>>,
    name: &Text,
    value: V,
) -> Result<(), NoMemory>
    ensures added { OnOk result (s.AddsFirst name.now value places.old places.new groups.old.items groups.new.items) }
    ensures kept { OnErr result (s.AddsNone places.old places.new groups.old.items groups.new.items) }
{
    let at = groups.as_slice().len();
    let mut group = Vec::new(alloc);
    group.push(value)?;
    groups.push(group)?;
    places.put(alloc, name, at)
}
