//! Instances of components, one after another.

ghost use Rattle.std.specs.Prelude.{◌≡◌, List, Option as Maybe, None as none, option_copied};
ghost use Rattle.qml_base.specs.declared.numbers.ObjNo.{ObjNo};
ghost use Rattle.qml_scope.specs.Shapes.{stands_among, told_in, holds, is_rooted, instance_of, instance_at, seen_in, told_anywhere};
ghost use Rattle.qml_scope.specs.Shapes.{name_among, name_at, name_of_cell, has_delegate};

use crate::named::{name_finding, name_of};
use crate::shape::{Entry, Shape};
use qml_base::{CellNo, Found, ObjNo, UnitNo};
use qml_text::Text;

/// Whether the object stands among these.
fn stands(entries: &[Entry], o: ObjNo) -> bool
    ensures { result ≡ stands_among entries.now o }
{
    for entry in entries {
        if entry.object == o {
            return true;
        }
    }
    false
}

/// What the object has under the name in the instance.
pub fn told(shape: &Shape, o: ObjNo, name: &Text) -> Option<Found>
    ensures { result ≡ told_in shape.now o name.now }
{
    for entry in shape.members.entries() {
        if entry.object == o {
            return entry.names.find(name);
        }
    }
    None
}

fn is_of(shape: &Shape, unit: UnitNo, o: ObjNo) -> bool
    ensures { result ≡ holds unit o shape.now }
{
    shape.unit == unit && stands(shape.members.entries(), o)
}

fn has_root(shape: &Shape, unit: UnitNo, root: ObjNo) -> bool
    ensures { result ≡ is_rooted unit root shape.now }
{
    shape.unit == unit && shape.root == root
}

/// The first instance of the unit's component in which the object stands.
pub fn find_instance(shapes: &[Shape], unit: UnitNo, o: ObjNo) -> Option<&Shape>
    ensures { option_copied result ≡ instance_of shapes.now unit o }
{
    for shape in shapes {
        if is_of(shape, unit, o) {
            return Some(shape);
        }
    }
    None
}

/// The first instance of this root.
pub fn find_root(shapes: &[Shape], unit: UnitNo, root: ObjNo) -> Option<&Shape>
    ensures { option_copied result ≡ instance_at shapes.now unit root }
{
    for shape in shapes {
        if has_root(shape, unit, root) {
            return Some(shape);
        }
    }
    None
}

/// What the object has under the name, as the document sees it.
pub fn seen(shapes: &[Shape], unit: UnitNo, o: ObjNo, name: &Text) -> Option<Found>
    ensures { result ≡ seen_in shapes.now unit o name.now }
{
    match find_instance(shapes, unit, o) {
        Some(shape) => told(shape, o, name),
        None => None,
    }
}

/// What the object has under the name in the first instance that knows it.
pub fn told_first(shapes: &[Shape], o: ObjNo, name: &Text) -> Option<Found>
    ensures { result ≡ told_anywhere shapes.now o name.now }
{
    for shape in shapes {
        if let Some(found) = told(shape, o, name) {
            return Some(found);
        }
    }
    None
}

/// The first name under which the object's entry finds the cell.
fn name_among<'a>(entries: &'a [Entry], c: CellNo) -> Option<&'a [u16]>
    ensures { option_copied result ≡ name_among c entries.now }
{
    for entry in entries {
        if entry.object == c.object {
            return name_finding(&entry.names, c);
        }
    }
    None
}

fn name_at<'a>(shape: &'a Shape, c: CellNo) -> Option<&'a [u16]>
    ensures { option_copied result ≡ name_at c shape.now }
{
    match name_of(&shape.names, c) {
        Some(name) => Some(name),
        None => name_among(shape.members.entries(), c),
    }
}

/// The name under which the cell was declared, in the first instance that knows one.
pub fn cell_name<'a>(shapes: &'a [Shape], c: CellNo) -> Option<&'a [u16]>
    ensures { option_copied result ≡ name_of_cell c shapes.now }
{
    for shape in shapes {
        if let Some(name) = name_at(shape, c) {
            return Some(name);
        }
    }
    None
}

/// Whether the cell is that of a delegate name.
pub fn has_delegate(shapes: &[Shape], c: CellNo) -> bool
    ensures { result ≡ has_delegate c shapes.now }
{
    for shape in shapes {
        if name_of(&shape.names, c).is_some() {
            return true;
        }
    }
    false
}
