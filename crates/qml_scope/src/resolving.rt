//! What names find (Qt 5.15, "Scope and Naming Resolution").

ghost use Rattle.std.specs.Prelude.{◌≡◌, option_copied};
ghost use Rattle.std.specs.Str.{bytes_eq};
ghost use Rattle.qml_scope.specs.Shapes.{is_in, global_names, found_here, from_here, ids_from_here, around as around_of, component_of, is_component, resolved, member_of, id_here, is_id_of};

use crate::shape::Shape;
use crate::shapes::Shapes;
use qml_base::{Found, Home, ObjNo};
use qml_text::Text;

fn is_word(name: &[u16], word: &[u16]) -> bool
    ensures { result ≡ bytes_eq name.now word.now }
{
    name == word
}

/// Whether the name is a global: `undefined`, `Math`, `Qt`, `console`, `String`, or one of the enumerations `Loader`
/// and `Binding`.
fn is_global(name: &Text) -> bool
    ensures { result ≡ is_in name.now global_names }
{
    let units = name.units();
    is_word(units, &[117, 110, 100, 101, 102, 105, 110, 101, 100])
        || is_word(units, &[77, 97, 116, 104])
        || is_word(units, &[81, 116])
        || is_word(units, &[99, 111, 110, 115, 111, 108, 101])
        || is_word(units, &[83, 116, 114, 105, 110, 103])
        || is_word(units, &[76, 111, 97, 100, 101, 114])
        || is_word(units, &[66, 105, 110, 100, 105, 110, 103])
}

/// What a name finds in a component: its ids, its delegate names, what the scope object has, and its root.
fn here(shapes: &Shapes, shape: &Shape, scope: Option<Found>, name: &Text) -> Option<Found>
    ensures { result ≡ found_here shapes.now.known.instances (is_component shapes.now.known.told) shape.now scope name.now }
{
    if let Some(o) = shape.ids.find(name) {
        if shapes.is_component(o) {
            return Some(Found::Component(o));
        }
        return Some(Found::Object(o));
    }
    if let Some(c) = shape.names.find(name) {
        return Some(Found::Cell(c));
    }
    if let Some(found) = scope {
        return Some(found);
    }
    shapes.seen_in(shape.unit, shape.root, name)
}

/// The instance around one.
fn around<'a>(shapes: &'a Shapes, shape: &Shape) -> Option<&'a Shape>
    ensures { option_copied result ≡ around_of shapes.now.known.instances shape.now.unit shape.now.enclosing }
{
    match shape.enclosing {
        Some(root) => shapes.instance_at(shape.unit, root),
        None => None,
    }
}

/// What a name finds from a component outwards.
fn outwards(
    shapes: &Shapes,
    from: Option<&Shape>,
    scope: Option<Found>,
    name: &Text,
) -> Option<Found>
    ensures { result ≡ from_here shapes.now.known (option_copied from.entry) scope name.now }
{
    let mut at = from;
    let mut scope = scope;
    let mut left = shapes.instances().len();
    'outwards: while let Some(shape) = at {
        if let Some(found) = here(shapes, shape, scope, name) {
            return Some(found);
        }
        if left == 0 {
            return None;
        }
        left -= 1;
        scope = None;
        at = around(shapes, shape);
    }
    None
}

/// The component in which code stands: that of its author, else that of its scope object.
fn component<'a>(shapes: &'a Shapes, home: Home) -> Option<&'a Shape>
    ensures { option_copied result ≡ component_of shapes.now.known.instances home }
{
    match shapes.instance_of(home.unit, home.author) {
        Some(shape) => Some(shape),
        None => shapes.instance_of(home.unit, home.scope),
    }
}

/// What the name finds from a home: the ids of the component, its delegate names, the scope object, its root, the
/// components around it outwards, the names of the unit that belong to no object, and globals. `Nothing` comes exactly
/// where none of these has the name.
pub fn resolve(shapes: &Shapes, home: Home, name: &Text) -> Found
    ensures { result ≡ resolved shapes.now.known home name.now }
{
    let scope = shapes.seen_in(home.unit, home.scope, name);
    if let Some(found) = outwards(shapes, component(shapes, home), scope, name) {
        return found;
    }
    if let Some(found) = shapes.seen_in(home.unit, ObjNo(0), name) {
        return found;
    }
    if is_global(name) {
        return Found::Global;
    }
    Found::Nothing
}

/// Whether the component finds the name as an id, if it finds it.
fn by_id(shapes: &Shapes, shape: &Shape, scope: Option<Found>, name: &Text) -> Option<bool>
    ensures { result ≡ id_here shapes.now.known.instances (is_component shapes.now.known.told) shape.now scope name.now }
{
    if shape.ids.find(name).is_some() {
        return Some(true);
    }
    if here(shapes, shape, scope, name).is_some() {
        return Some(false);
    }
    None
}

/// Whether a name is found as an id from a component outwards.
fn ids(shapes: &Shapes, from: Option<&Shape>, scope: Option<Found>, name: &Text) -> bool
    ensures { result ≡ ids_from_here shapes.now.known (option_copied from.entry) scope name.now }
{
    let mut at = from;
    let mut scope = scope;
    let mut left = shapes.instances().len();
    'outwards: while let Some(shape) = at {
        if let Some(is) = by_id(shapes, shape, scope, name) {
            return is;
        }
        if left == 0 {
            return false;
        }
        left -= 1;
        scope = None;
        at = around(shapes, shape);
    }
    false
}

/// Whether the name finds what it finds from a home as an id, and not as an alias of a whole object.
pub fn is_id(shapes: &Shapes, home: Home, name: &Text) -> bool
    ensures { result ≡ is_id_of shapes.now.known home name.now }
{
    let scope = shapes.seen_in(home.unit, home.scope, name);
    ids(shapes, component(shapes, home), scope, name)
}

/// What the object itself has under the name; delegate names aren't counted. `Nothing` comes exactly where it has no
/// such name.
pub fn member(shapes: &Shapes, o: ObjNo, name: &Text) -> Found
    ensures { result ≡ member_of shapes.now.known o name.now }
{
    match shapes.told_anywhere(o, name) {
        Some(found) => found,
        None => Found::Nothing,
    }
}
