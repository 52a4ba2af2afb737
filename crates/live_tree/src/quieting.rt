//! Bindings that stop being active.

ghost use Rattle.std.specs.Prelude.{◌≡◌, ◌<◌, ◌↔◌, IsTrue, length, map, false};
ghost use Rattle.tree_model.specs.Settling.{place_of};
ghost use Rattle.tree_model.specs.Settling.{is_active as active_in};
ghost use Rattle.tree_model.specs.Removing.{quiet, quiet_outcome};
ghost use Rattle.live_tree.specs.Live.{shown};

use object_tree::Tree;
use property_store::Store;
use qml_base::CellNo;
use tree_model::{Cell, Content, Outcome};

/// How the last settling ended for the cell, if it is active, and else that it holds a value.
fn outcome(objects: &Tree, cell: &Cell) -> Outcome
    ensures { result ≡ quiet_outcome objects.now.objects cell.now.no cell.now.content cell.now.outcome }
{
    match &cell.content {
        Content::Plain(_) => cell.outcome,
        Content::Bound(binding) => {
            if objects.stands(cell.no.object) && objects.stands(binding.author) {
                cell.outcome
            } else {
                Outcome::Value
            }
        }
    }
}

/// Puts it so for each cell.
fn quiet_all(store: &mut Store, objects: &Tree)
    ensures { store.new ≡ map (quiet objects.now.objects) store.old }
{
    'cells: for i in 0..store.len() {
        let outcome = outcome(objects, &store.cells()[i]);
        store.put_outcome_at(i, outcome);
    }
}

/// Puts it so for each cell, where objects were condemned since that was done.
pub fn catch_up(stale: &mut bool, store: &mut Store, objects: &Tree)
    ensures cells { store.new ≡ shown stale.old objects.now.objects store.old }
    ensures done { stale.new ≡ false }
{
    if *stale {
        quiet_all(store, objects);
        *stale = false;
    }
}

/// Whether there is such a cell.
pub fn is_there(store: &Store, c: CellNo) -> bool
    ensures { IsTrue result ↔ (place_of store.now c < length store.now) }
{
    store.place(c) < store.len()
}
