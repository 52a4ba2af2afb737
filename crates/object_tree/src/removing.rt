//! Taking condemned objects away.
ghost use Rattle.std.specs.Prelude.{◌≡◌, ◌-◌, ◌<◌, ◌≤◌, Some, length, slice_get, take, vec_len};
ghost use Rattle.tree_model.specs.declared.cells.Object.{Object};
ghost use Rattle.tree_model.specs.Doomed.{IsOrdered};
ghost use Rattle.object_tree.specs.Trees.{IsAt, AllUpTo, objects_but};
ghost use Rattle.tree_model.specs.Removing.{kept_of};

use qml_base::ObjNo;
use tree_model::Object;

/// Takes the object of the number out.
pub fn drop_object(objects: &mut Vec<Object>, o: ObjNo)
    ensures items { objects.new.items ≡ objects_but o objects.old.items }
    ensures few { vec_len objects.new ≤ vec_len objects.old }
{
    objects.retain(|object| object.number != o);
}

/// Moves the objects that aren't condemned to the front, in their order, and says how many they are.
pub fn keep(objects: &mut [Object]) -> usize
    ensures few { result ≤ length objects.new }
    ensures kept { take result objects.new ≡ kept_of objects.old }
{
    let mut n = 0;
    'objects: for i in 0..objects.len() {
        let object = objects[i];
        if !object.condemned {
            objects[n] = object;
            n += 1;
        }
    }
    n
}

/// Tells of each object where it stands.
pub fn place_all(places: &mut [u32], objects: &[Object])
    requires given { AllUpTo (length places.old) objects.now }
    requires ordered { IsOrdered 0 objects.now }
    requires few { length objects.now ≤ 100000 }
    ensures { IsAt places.new objects.now }
{
    'objects: for i in 0..objects.len() {
        let at = place_for(places.len(), objects, i);
        places[at] = i as u32;
    }
}

/// Where the place of the object is told.
fn place_for(given: usize, objects: &[Object], i: usize) -> usize
    requires given { AllUpTo given objects.now }
    requires ordered { IsOrdered 0 objects.now }
    requires within { i < length objects.now }
    ensures within { result < given }
    ensures at { (x : Object) → slice_get objects.now i ≡ Some x → result ≡ x.number.0 - 1 }
{
    (objects[i].number.0 as usize).saturating_sub(1)
}
