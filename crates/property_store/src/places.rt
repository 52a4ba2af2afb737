//! Where a cell stands, without a search.

ghost use Rattle.std.specs.Prelude.{◌≡◌, slice_index};
ghost use Rattle.tree_model.specs.Settling.{place_of};
ghost use Rattle.property_store.specs.Lying.{IsPlaced};

use qml_base::CellNo;
use tree_model::Cell;

/// Where the cells of the object begin.
fn start(starts: &[u32], object: usize) -> usize
    ensures { result ≡ slice_index starts.now object }
{
    match starts.get(object) {
        Some(start) => *start as usize,
        None => 0,
    }
}

/// Where the cell stands in the list of all, by the table of where each object's cells begin; how many cells there are where
/// it isn't there.
pub fn find(starts: &[u32], cells: &[Cell], c: CellNo) -> usize
    requires { IsPlaced starts.now cells.now }
    ensures { result ≡ place_of cells.now c }
{
    let at = start(starts, c.object.0 as usize) + c.place as usize;
    if let Some(cell) = cells.get(at) {
        if cell.no == c {
            return at;
        }
    }
    cells.len()
}
