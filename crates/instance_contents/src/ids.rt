//! Objects by their ids, in an instance and around it.

ghost use Rattle.std.specs.Prelude.{◌≡◌, ◌+◌, length, option_copied};
ghost use Rattle.std.specs.Str.{bytes_eq};
ghost use Rattle.name_table.specs.Named.{under};
ghost use Rattle.qml_scope.specs.Shapes.{instance_at};
ghost use Rattle.qml_scope.specs.Shapes as s;
ghost use Rattle.instance_plans.specs.Contents as c;
ghost use Rattle.instance_plans.specs.Numbers.{component_at};
ghost use Rattle.instance_contents.specs.Tables.{Stands, rows_in, live_in, placed};

use crate::tables::{Tables, value_at};
use instancing::component;
use qml_base::{ObjNo, UnitNo};
use qml_scope::{Shape, Shapes};
use qml_text::Text;
use qml_value::Value;

/// A live object as a value.
pub fn live_value(shapes: &Shapes, o: ObjNo) -> Value
    ensures { result ≡ c.value_of_live shapes.now.known o }
{
    if shapes.is_component(o) {
        Value::Component(o)
    } else {
        Value::Object(o)
    }
}

/// Whether it is the instance of a root.
fn is_rooted(shape: &Shape, unit: UnitNo, root: ObjNo) -> bool
    ensures { result ≡ s.is_rooted unit root shape.now }
{
    shape.unit == unit && shape.root == root
}

/// The first instance of this root.
fn find_root(shapes: &[Shape], unit: UnitNo, root: ObjNo) -> Option<&Shape>
    ensures { option_copied result ≡ instance_at shapes.now unit root }
{
    'shapes: for shape in shapes {
        if is_rooted(shape, unit, root) {
            return Some(shape);
        }
    }
    None
}

/// The object of an id in the instance of a root and those around it; null where none has it.
fn id_around(shapes: &Shapes, unit: UnitNo, root: Option<ObjNo>, name: &Text) -> Value
    ensures { result ≡ c.id_around (length shapes.now.known.instances + 1) shapes.now.known unit root name.now }
{
    let mut root = root;
    let mut left = shapes.instances().len() + 1;
    'outwards: while left > 0 {
        let Some(at) = root else {
            return Value::Null;
        };
        let Some(shape) = find_root(shapes.instances(), unit, at) else {
            return Value::Null;
        };
        if let Some(o) = shape.ids.find(name) {
            return live_value(shapes, o);
        }
        root = shape.enclosing;
        left -= 1;
    }
    Value::Null
}

/// Whether they are the same text.
#[tactic(auto, using(crate::proofs::PlaceLemmas::same_bytes))]
fn is_same(a: &Text, b: &Text) -> bool
    ensures { result ≡ bytes_eq a.now b.now }
{
    a.same(b)
}

/// The object as written that has an id among these.
fn find_id(ids: &[(Text, u32)], name: &Text) -> Option<u32>
    ensures { result ≡ under ids.now name.now }
{
    'ids: for id in ids {
        if is_same(name, &id.0) {
            return Some(id.1);
        }
    }
    None
}

/// The object as written that has an id in a component.
fn written_id(tables: &Tables, unit: u32, root: u32, name: &Text) -> Option<u32>
    ensures { result ≡ under (component_at (rows_in tables.now) unit root).ids name.now }
{
    match component(tables.units, unit, root) {
        Some(row) => find_id(row.ids.as_slice(), name),
        None => None,
    }
}

/// The object of an id, as the instance at a place finds it.
pub fn object_of_id(tables: &Tables, place: u32, name: &Text) -> Value
    requires { Stands tables.now }
    ensures { result ≡ c.object_of_id (rows_in tables.now) (live_in tables.now) tables.now.objects.items (placed tables.now place) name.now }
{
    let Some(instance) = tables.instances.as_slice().get(place as usize) else {
        return Value::Null;
    };
    if let Some(o) = written_id(tables, instance.unit, instance.component, name) {
        if let Some(number) = tables.numbers.find((place, o)) {
            return value_at(tables, number);
        }
    }
    let root = match instance.enclosing {
        Some(number) => Some(ObjNo(number)),
        None => None,
    };
    id_around(tables.shapes, UnitNo(instance.unit), root, name)
}
