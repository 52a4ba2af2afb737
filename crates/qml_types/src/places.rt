//! Finding a property of a type by its name, and a cell by its place; and what a cell holds at first.

ghost use Rattle.std.specs.Prelude.{◌≡◌, length, map, slice_get, IfOk};
ghost use Rattle.std.specs.Option.{option_map};
ghost use Rattle.qml_types.specs.Table.{found, cells_of, cell_of};
ghost use Rattle.qml_value.specs.declared.value.Value.{Text as as_text};
ghost use Rattle.qml_types.specs.First.{first_value, value_at_start as value_at};

use crate::cells::{Cell, own_cells};
use crate::conversion::default_of;
use crate::kind::{PropKind, Start, TypeNo};
use qml_base::NoMemory;
use qml_text::Text;
use qml_value::{Num, Value};
use std::alloc::Global;

/// The property of this name that an object of the type has, those of its base types included, and None exactly where it
/// has none. A hidden cell has no name.
pub fn property(type_no: TypeNo, name: &str) -> Option<&'static Cell>
    ensures { option_map (λ cell. cell_of cell.now) result ≡ found (cells_of type_no) name.now }
{
    'bases: for base in type_no.lineage() {
        let own = found_in(own_cells(*base), name);
        if own.is_some() {
            return own;
        }
    }
    None
}

/// The first property of the name among these.
fn found_in(cells: &'static [Cell], name: &str) -> Option<&'static Cell>
    ensures { option_map (λ cell. cell_of cell.now) result ≡ found (map cell_of cells.now) name.now }
{
    'cells: for cell in cells {
        if cell.access.is_shown() && cell.name == name {
            return Some(cell);
        }
    }
    None
}

/// The cell at this place that an object of the type has, those of its base types included, and None exactly where it has
/// no such place.
pub fn cell_at(type_no: TypeNo, place: u32) -> Option<&'static Cell>
    ensures { option_map (λ cell. cell_of cell.now) result ≡ slice_get (cells_of type_no) place }
{
    let mut left = place as usize;
    'bases: for base in type_no.lineage() {
        let cells = own_cells(*base);
        if left < cells.len() {
            return Some(&cells[left]);
        }
        left -= cells.len();
    }
    None
}

/// How many cells an object of the type has.
pub fn cell_count(type_no: TypeNo) -> u32
    ensures { result ≡ length (cells_of type_no) }
{
    match type_no {
        TypeNo::ListElement => 0,
        TypeNo::QtObject | TypeNo::Component => 1,
        TypeNo::Host => 2,
        TypeNo::ListModel => 3,
        TypeNo::Connections | TypeNo::PropertyChanges => 4,
        TypeNo::Timer | TypeNo::State => 5,
        TypeNo::Binding => 6,
        TypeNo::Item => 13,
        TypeNo::Repeater => 16,
        TypeNo::Loader => 18,
    }
}

impl Cell {
    /// What it holds before anything is given for it. `owner` is what its object is written in, or null.
    pub fn first_value(&self, alloc: Global, owner: Value) -> Result<Value, NoMemory>
        ensures { IfOk result (λ value. value ≡ first_value (cell_of self.now) owner) }
    {
        value_at_start(alloc, &self.kind, self.start, owner)
    }
}

fn value_at_start(
    alloc: Global,
    kind: &PropKind,
    start: Start,
    owner: Value,
) -> Result<Value, NoMemory>
    ensures { IfOk result (λ value. value ≡ value_at kind.now owner start) }
{
    match start {
        Start::OfKind => Ok(default_of(alloc, kind)),
        Start::True => Ok(Value::Bool(true)),
        Start::Number(n) => Ok(Value::Num(Num::small(n))),
        Start::RestoreBinding => text(alloc, b"RestoreBinding"),
        Start::NotLoaded => text(alloc, b"Null"),
        Start::Owner => Ok(owner),
    }
}

/// The text of these bytes, which are ASCII.
fn text(alloc: Global, bytes: &[u8]) -> Result<Value, NoMemory>
    ensures { IfOk result (λ value. value ≡ as_text bytes.now) }
{
    match Text::from_latin1(alloc, bytes) {
        Ok(text) => Ok(Value::Text(text)),
        Err(_) => Err(NoMemory),
    }
}
