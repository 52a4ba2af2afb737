//! Cells as the trace names them.

ghost use Rattle.std.specs.Prelude.{◌≡◌, IfOk, slice_get};
ghost use Rattle.std.specs.Option.{option_map, unwrap_or};
ghost use Rattle.unit_rows.specs.Given.{builtin_among};
ghost use Rattle.machine_model.specs.Showing.{named_by, named_cell as named, shown_as as hidden_name, shown_cell as shown};

use qml_base::{CellNo, NoMemory};
use qml_scope::Shapes;
use qml_text::Text;
use qml_types::{TypeNo, TypeRef, cell_at};
use std::alloc::Global;
use trace_print::Named;

/// The built-in type among the types of an object, from its own on.
fn builtin(types: &[TypeRef]) -> TypeNo
    ensures { result ≡ builtin_among types.now }
{
    'types: for t in types {
        if let TypeRef::Builtin(no) = t {
            return *no;
        }
    }
    TypeNo::QtObject
}

/// A cell under a name.
fn under(shapes: &Shapes, c: CellNo, name: Text) -> Named
    ensures { result ≡ named_by shapes.now.known c name }
{
    Named {
        object: c.object,
        delegate: shapes.is_delegate_name(c),
        name,
    }
}

/// The cell as the trace names it, by the name under which it was declared; none for a hidden cell, of which nothing is told.
pub fn named_cell(alloc: Global, shapes: &Shapes, c: CellNo) -> Result<Option<Named>, NoMemory>
    ensures { IfOk result (λ name. name ≡ named shapes.now.known c) }
{
    match shapes.name_of(c) {
        Some(units) => {
            let Ok(name) = Text::from_slice(alloc, units) else {
                return Err(NoMemory);
            };
            Ok(Some(under(shapes, c, name)))
        }
        None => Ok(None),
    }
}

/// The name by which a hidden cell is told of, as of the built-in type of its object.
fn hidden(alloc: Global, shapes: &Shapes, c: CellNo) -> Result<Text, NoMemory>
    ensures { IfOk result (λ name. name ≡ hidden_name shapes.now.known c) }
{
    match cell_at(builtin(shapes.types_told(c.object)), c.place) {
        Some(cell) => match Text::from_latin1(alloc, cell.shown_as.as_bytes()) {
            Ok(name) => Ok(name),
            Err(_) => Err(NoMemory),
        },
        None => Ok(Text::new()),
    }
}

/// The cell as reports and stops name it: a hidden one by the name that it is shown by, as `visible` for `visibleSet`.
pub fn shown_cell(alloc: Global, shapes: &Shapes, c: CellNo) -> Result<Named, NoMemory>
    ensures { IfOk result (λ name. name ≡ shown shapes.now.known c) }
{
    if let Some(name) = named_cell(alloc, shapes, c)? {
        return Ok(name);
    }
    let name = hidden(alloc, shapes, c)?;
    Ok(under(shapes, c, name))
}
