//! The calls of the tree without clauses, so that the proof of no test carries what the tree promises.

ghost use Rattle.object_tree.specs.Trees.{MayOwn};

use object_tree::{AddFault, Tree};
use qml_base::ObjNo;

/// The object, if another may hang on it.
fn standing(tree: &Tree, o: u32) -> Option<ObjNo>
    ensures { MayOwn tree.now.objects result }
{
    let o = ObjNo(o);
    if tree.is_live(o) && !tree.is_condemned(o) {
        Some(o)
    } else {
        None
    }
}

/// Adds an object that one object owns and that was made from another, where these stand.
pub fn add(tree: &mut Tree, owner: u32, origin: u32) -> Result<ObjNo, AddFault> {
    let owner = standing(tree, owner);
    let origin = standing(tree, origin);
    tree.add(owner, origin)
}

/// How many objects are condemned once this one is.
pub fn condemn(tree: &mut Tree, o: u32) -> usize {
    tree.condemn(ObjNo(o));
    tree.doomed().len()
}

/// Whether these objects are condemned, in this order, and no others.
pub fn lists(tree: &mut Tree, numbers: &[ObjNo]) -> bool {
    tree.list_doomed();
    tree.doomed() == numbers
}

/// Removes the object if it is condemned.
pub fn remove(tree: &mut Tree, o: u32) -> bool {
    if !tree.is_condemned(ObjNo(o)) {
        return false;
    }
    tree.remove(ObjNo(o));
    true
}

/// How many objects are live once all that are condemned are removed.
pub fn remove_doomed(tree: &mut Tree) -> u32 {
    tree.remove_doomed();
    tree.live()
}

pub fn is_live(tree: &Tree, o: u32) -> bool {
    tree.is_live(ObjNo(o))
}

pub fn owner(tree: &Tree, o: u32) -> Option<ObjNo> {
    tree.owner(ObjNo(o))
}
