//! Where an object stands, without a search.
ghost use Rattle.std.specs.Prelude.{◌≡◌, ◌-◌, slice_index};
ghost use Rattle.tree_model.specs.Doomed.{is_marked};
ghost use Rattle.tree_model.specs.Settling.{stands as stands_of};
ghost use Rattle.object_tree.specs.Trees.{found, IsAt};

use qml_base::ObjNo;
use tree_model::Object;

/// Where the object of the number stands, if it is live.
pub fn place(places: &[u32], o: ObjNo) -> usize
    ensures { result ≡ slice_index places.now (o.0 - 1) }
{
    match places.get((o.0 as usize).saturating_sub(1)) {
        Some(place) => *place as usize,
        None => 0,
    }
}

/// The live object of the number.
pub fn find(places: &[u32], objects: &[Object], o: ObjNo) -> Option<Object>
    requires { IsAt places.now objects.now }
    ensures { result ≡ found objects.now o }
{
    if let Some(object) = objects.get(place(places, o)) {
        if object.number == o {
            return Some(*object);
        }
    }
    None
}

/// Whether the object of the number is condemned.
pub fn condemned_in(places: &[u32], objects: &[Object], o: ObjNo) -> bool
    requires { IsAt places.now objects.now }
    ensures { result ≡ is_marked objects.now o }
{
    match find(places, objects, o) {
        Some(object) => object.condemned,
        None => false,
    }
}

/// Whether the object of the number is live and isn't condemned.
pub fn stands_in(places: &[u32], objects: &[Object], o: ObjNo) -> bool
    requires { IsAt places.now objects.now }
    ensures { result ≡ stands_of objects.now o }
{
    match find(places, objects, o) {
        Some(object) => !object.condemned,
        None => false,
    }
}
