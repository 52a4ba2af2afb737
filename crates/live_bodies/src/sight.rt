//! What a body sees of a tree.

ghost use Rattle.std.specs.Prelude.{◌≡◌, slice_get};
ghost use Rattle.std.specs.List.{list_any};
ghost use Rattle.tree_model.specs.Settling.{place_of};
ghost use Rattle.live_bodies.specs.Seeing.{held_or, is_number, is_condemned_one};

use evaluation::{Seen, View};
use js_exec::Watch;
use live_tree::LiveTree;
use object_tree::Tree;
use qml_base::{CellNo, Found, Home, ObjNo};
use qml_text::Text;
use qml_value::Value;
use tree_model::Lookup;

/// What a body sees of a tree.
#[derive(Drop)]
pub struct TreeSight<'a> {
    tree: &'a LiveTree,
    nothing: Value,
}

impl<'a> TreeSight<'a> {
    /// What is seen of this tree. It takes no memory.
    pub fn of(tree: &'a LiveTree) -> TreeSight<'a>
        ensures tree { result.tree.now ≡ tree.now }
        ensures nothing { result.nothing ≡ Value.Undefined }
    {
        TreeSight {
            tree,
            nothing: Value::Undefined,
        }
    }
}

/// What a cell of the tree holds, and this where there is no such cell.
#[tactic(auto, using(crate::proofs::SightLemmas::held_is, crate::proofs::SightLemmas::nothing_held))]
fn held<'a>(tree: &'a LiveTree, nothing: &'a Value, cell: CellNo) -> &'a Value
    ensures { result.now ≡ held_or nothing.now (slice_get tree.now.tree.cells (place_of tree.now.tree.cells cell)) }
{
    if tree.has_cell(cell) {
        tree.read(cell)
    } else {
        nothing
    }
}

/// Whether the object is among these.
fn is_among(numbers: &[ObjNo], object: ObjNo) -> bool
    ensures { result ≡ list_any (is_number object) numbers.now }
{
    'numbers: for number in numbers {
        if number.0 == object.0 {
            return true;
        }
    }
    false
}

/// Whether an object of these is the one and is condemned.
#[tactic(auto, using(crate::proofs::SightLemmas::condemned_is))]
fn is_condemned(objects: &Tree, object: ObjNo) -> bool
    ensures { result ≡ list_any (is_condemned_one object) objects.now.objects }
{
    is_among(objects.doomed(), object)
}

impl<'a> View for TreeSight<'a> {
    ghost use Rattle.std.specs.Prelude.{slice_get, Some};
    ghost use Rattle.evaluation.specs.Evaluating.{is};
    ghost use Rattle.tree_model.specs.Settling.{place_of};
    ghost use Rattle.qml_scope.specs.Shapes.{names_of};
    ghost use Rattle.live_bodies.specs.Seeing.{held_or};

    ghost seen = { λ v c. Some (is (held_or v.nothing (slice_get v.tree.now.tree.cells (place_of v.tree.now.tree.cells c)))) };

    ghost names = { λ v. names_of v.tree.now.known };

    fn read(&self, cell: CellNo) -> Seen<'_> {
        Seen::Is(held(self.tree, &self.nothing, cell))
    }

    fn resolve(&self, home: Home, name: &Text) -> Found {
        self.tree.shapes().resolve(home, name)
    }

    fn member(&self, object: ObjNo, name: &Text) -> Found {
        self.tree.shapes().member(object, name)
    }

    fn is_id(&self, home: Home, name: &Text) -> bool {
        self.tree.shapes().is_id(home, name)
    }
}

impl<'a> Watch for TreeSight<'a> {
    ghost use Rattle.machine_bodies.specs.Doing.{sight_of};

    ghost sight = { λ v. sight_of v.tree.now };

    fn is_condemned(&self, object: ObjNo) -> bool {
        is_condemned(self.tree.objects(), object)
    }
}
