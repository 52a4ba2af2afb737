//! A tree as a view in which each cell gives what it holds, whatever its last settling came to.

ghost use Rattle.std.specs.Prelude.{◌≡◌};
ghost use Rattle.qml_value.specs.declared.value.Value.{Undefined as undefined};
ghost use Rattle.evaluation.specs.Hearing.{Sees};
ghost use Rattle.machine_events.specs.Shown.{holding};

use evaluation::{Seen, View};
use live_tree::LiveTree;
use qml_base::{CellNo, Found, Home, ObjNo};
use qml_text::Text;
use qml_value::Value;
use tree_model::Lookup;

/// What a cell holds; undefined where there is no such cell.
#[tactic(auto, using(crate::proofs::ShownLemmas::is_held, crate::proofs::ShownLemmas::holds_nothing))]
fn held<'a>(tree: &'a LiveTree, nothing: &'a Value, c: CellNo) -> Seen<'a>
    requires { nothing.now ≡ undefined }
    ensures { Sees result (holding tree.now c) }
{
    if tree.has_cell(c) {
        Seen::Is(tree.read(c))
    } else {
        Seen::Is(nothing)
    }
}

/// A tree by what its cells hold.
#[derive(Drop)]
pub struct Holding<'a> {
    pub tree: &'a LiveTree,
    /// What is read where there is no such cell.
    pub nothing: &'a Value,
    ghost is_undefined: { nothing.now ≡ undefined },
}

impl View for Holding<'_> {
    ghost use Rattle.machine_events.specs.Shown.{holding};
    ghost use Rattle.qml_scope.specs.Shapes.{names_of};

    ghost seen = { λ v. holding v.tree.now };

    ghost names = { λ v. names_of v.tree.now.known };

    fn read(&self, c: CellNo) -> Seen<'_> {
        held(self.tree, self.nothing, c)
    }

    fn resolve(&self, home: Home, name: &Text) -> Found {
        self.tree.shapes().resolve(home, name)
    }

    fn member(&self, object: ObjNo, name: &Text) -> Found {
        self.tree.shapes().member(object, name)
    }

    fn is_id(&self, home: Home, name: &Text) -> bool {
        self.tree.shapes().is_id(home, name)
    }
}
