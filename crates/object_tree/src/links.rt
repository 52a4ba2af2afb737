//! What hangs on what: for each object the last one that it owns, and the last one that was made from it, and for each that
//! is owned or made the one before it that hangs on the same. So all that hangs on an object is found without a search.

ghost use Rattle.std.specs.Prelude.{◌≡◌, ◌+◌, ◌<◌, ◌≤◌, ◌++◌, ◌∷◌, [], length, vec_len, vec_capacity, slice_get, slice_index, slice_set, Some, OnOk, ℕ};
ghost use Rattle.tree_model.specs.declared.cells.Object.{Object};
ghost use Rattle.tree_model.specs.Doomed.{IsOrdered};
ghost use Rattle.object_tree.specs.Trees.{IsAt};
ghost use Rattle.object_tree.specs.Links.{parent_by, IsLinked, IsTied};

use crate::places::place;
use qml_base::ObjNo;
use std::alloc::{AllocError, Global};
use tree_model::Object;

/// How an object hangs on another: that one owns it, or it was made from that one.
#[derive(Clone, Copy, Debug, PartialEq, Eq)]
pub enum Tie {
    Owned,
    Made,
}

/// By the place of each live object: the place behind the last one that hangs on it, and the place behind the last one before
/// it that hangs on the same; 0 where there is none.
#[derive(Drop)]
pub struct Links {
    pub last: Vec<u32>,
    pub before: Vec<u32>,
}

/// The object on which it hangs.
pub fn parent(tie: Tie, object: Object) -> Option<ObjNo>
    ensures { result ≡ parent_by tie object }
{
    match tie {
        Tie::Owned => object.owner,
        Tie::Made => object.origin,
    }
}

/// What is told at the place.
pub fn told(places: &[u32], at: usize) -> usize
    ensures { result ≡ slice_index places.now at }
{
    match places.get(at) {
        Some(place) => *place as usize,
        None => 0,
    }
}

/// Where the object stands on which the one at the place hangs; how many objects there are where it hangs on none that is
/// live.
fn parent_place(places: &[u32], objects: &[Object], tie: Tie, i: usize) -> usize
    requires within { i < length objects.now }
    requires placed { IsAt places.now objects.now }
    ensures at { (x z : Object) (k : ℕ) → slice_get objects.now i ≡ Some x → slice_get objects.now k ≡ Some z → parent_by tie x ≡ Some z.number → result ≡ k }
    ensures few { result ≤ length objects.now }
{
    if let Some(p) = parent(tie, objects[i]) {
        let at = place(places, p);
        if at < objects.len() && objects[at].number == p {
            return at;
        }
    }
    objects.len()
}

/// Links the object at the place with those before it.
fn link(
    places: &[u32],
    objects: &[Object],
    tie: Tie,
    i: usize,
    last: &mut [u32],
    before: &mut [u32],
)
    requires placed { IsAt places.now objects.now }
    requires ordered { IsOrdered 0 objects.now }
    requires within { i < length objects.now }
    requires few { length objects.now ≤ 100000 }
    requires last { length objects.now ≤ length last.old }
    requires before { length objects.now ≤ length before.old }
    requires linked { IsLinked tie i objects.now last.old before.old }
    ensures { IsLinked tie (i + 1) objects.now last.new before.new }
{
    last[i] = 0;
    before[i] = 0;
    let at = parent_place(places, objects, tie, i);
    if at < objects.len() {
        before[i] = last[at];
        last[at] = i as u32 + 1;
    }
}

/// Links all objects.
fn link_all(places: &[u32], objects: &[Object], tie: Tie, last: &mut [u32], before: &mut [u32])
    requires placed { IsAt places.now objects.now }
    requires ordered { IsOrdered 0 objects.now }
    requires few { length objects.now ≤ 100000 }
    requires last { length objects.now ≤ length last.old }
    requires before { length objects.now ≤ length before.old }
    ensures { IsLinked tie (length objects.now) objects.now last.new before.new }
{
    'objects: for i in 0..objects.len() {
        link(places, objects, tie, i, last, before);
    }
}

impl Links {
    /// No objects. It takes no memory.
    pub fn new(alloc: Global) -> Links
        ensures last { result.last.items ≡ [] }
        ensures before { result.before.items ≡ [] }
    {
        Links {
            last: Vec::new(alloc),
            before: Vec::new(alloc),
        }
    }

    /// Makes room for one more object.
    pub fn reserve(&mut self) -> Result<(), AllocError>
        ensures last { self.new.last.items ≡ self.old.last.items }
        ensures before { self.new.before.items ≡ self.old.before.items }
        ensures room { OnOk result ((vec_len self.new.last < vec_capacity self.new.last) × (vec_len self.new.before < vec_capacity self.new.before)) }
    {
        self.last.reserve(1)?;
        self.before.reserve(1)?;
        Ok(())
    }

    /// Takes in the object that was added last, in room that is there.
    pub fn add(&mut self, places: &[u32], objects: &[Object], tie: Tie, i: usize)
        requires placed { IsAt places.now objects.now }
        requires ordered { IsOrdered 0 objects.now }
        requires last_one { length objects.now ≡ i + 1 }
        requires few { length objects.now ≤ 100000 }
        requires last { vec_len self.old.last ≡ i }
        requires before { vec_len self.old.before ≡ i }
        requires room_last { vec_len self.old.last < vec_capacity self.old.last }
        requires room_before { vec_len self.old.before < vec_capacity self.old.before }
        requires linked { IsLinked tie i objects.now self.old.last.items self.old.before.items }
        ensures { IsTied tie objects.now self.new.last.items self.new.before.items }
    {
        if self.last.push(0).is_err() || self.before.push(0).is_err() {
            return;
        }
        link(
            places,
            objects,
            tie,
            i,
            self.last.as_mut_slice(),
            self.before.as_mut_slice(),
        );
    }

    /// Links the objects that are left anew.
    pub fn relink(&mut self, places: &[u32], objects: &[Object], tie: Tie)
        requires placed { IsAt places.now objects.now }
        requires ordered { IsOrdered 0 objects.now }
        requires few { length objects.now ≤ 100000 }
        requires last { length objects.now ≤ vec_len self.old.last }
        requires before { length objects.now ≤ vec_len self.old.before }
        ensures { IsTied tie objects.now self.new.last.items self.new.before.items }
    {
        self.last.truncate(objects.len());
        self.before.truncate(objects.len());
        link_all(
            places,
            objects,
            tie,
            self.last.as_mut_slice(),
            self.before.as_mut_slice(),
        );
    }
}
