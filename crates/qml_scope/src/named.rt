//! The names under which cells stand.

ghost use Rattle.std.specs.Prelude.{◌≡◌, option_copied, slice_get};
ghost use Rattle.name_table.specs.Named.{row_found};
ghost use Rattle.qml_scope.specs.Names.{named_by, fits};
ghost use Rattle.qml_scope.specs.Shapes.{same_cell, is_cell};

use name_table::NameTable;
use qml_base::{CellNo, Found};

fn is_same(c: CellNo, d: CellNo) -> bool
    ensures { result ≡ same_cell c d }
{
    c.object == d.object && c.place == d.place
}

fn finds_cell(c: CellNo, found: Found) -> bool
    ensures { result ≡ is_cell c found }
{
    match found {
        Found::Cell(d) => is_same(c, d),
        _ => false,
    }
}

/// Whether the cell stands under the name at the place.
fn stands_at(names: &NameTable<CellNo>, c: CellNo, i: usize) -> bool
    ensures { result ≡ fits (same_cell c) (row_found (slice_get names.now i)) }
{
    match names.found_at(i) {
        Some(d) => is_same(c, d),
        None => false,
    }
}

/// Whether the name at the place finds the cell.
fn finds_at(names: &NameTable<Found>, c: CellNo, i: usize) -> bool
    ensures { result ≡ fits (is_cell c) (row_found (slice_get names.now i)) }
{
    match names.found_at(i) {
        Some(found) => finds_cell(c, found),
        None => false,
    }
}

/// The first name under which the cell stands, as UTF-16 units.
pub fn name_of(names: &NameTable<CellNo>, c: CellNo) -> Option<&[u16]>
    ensures { option_copied result ≡ named_by (same_cell c) names.now }
{
    'names: for i in 0..names.len() {
        if stands_at(names, c, i) {
            return names.name_at(i);
        }
    }
    None
}

/// The first name that finds the cell, as UTF-16 units.
pub fn name_finding(names: &NameTable<Found>, c: CellNo) -> Option<&[u16]>
    ensures { option_copied result ≡ named_by (is_cell c) names.now }
{
    'names: for i in 0..names.len() {
        if finds_at(names, c, i) {
            return names.name_at(i);
        }
    }
    None
}
