//! The properties that are assigned to.

ghost use Rattle.std.specs.Prelude.{◌≡◌, if◌then◌else◌, IfOk};
ghost use Rattle.js_meaning.specs.Operate.{is_nothing};
ghost use Rattle.js_locals.specs.Laid.{laid};
ghost use Rattle.js_frames.specs.Meant.{spot_of};
ghost use Rattle.js_acting.specs.Spots.{whole_target, id_target, named_target, own_target, member_target, element_target, spot_target};

use crate::sight::Watch;
use js_acting::Target;
use js_frames::Spot;
use js_locals::name_of;
use js_operators::is_nothing;
use qml_base::{Cause, Found, Home, ObjNo};
use qml_syntax::Tree;
use qml_text::{NoMemory, Text};
use qml_value::Value;

/// An alias of a whole object can't be assigned.
fn whole<V: Watch>(view: &V, object: ObjNo) -> Target
    ensures { result ≡ whole_target (V.sight view.now) object }
{
    if view.is_condemned(object) {
        Target::Throws(Cause::Gone)
    } else {
        Target::Throws(Cause::Readonly)
    }
}

/// Nor can an id.
fn id<V: Watch>(view: &V, home: Home, name: &Text, object: ObjNo) -> Target
    ensures { result ≡ id_target (V.sight view.now) (V.names view.now) home name.now object }
{
    if view.is_id(home, name) {
        Target::Throws(Cause::Name)
    } else {
        whole(view, object)
    }
}

/// What a name assigns to, by what it finds.
fn named<V: Watch>(view: &V, home: Home, name: &Text, found: Found) -> Target
    ensures { result ≡ named_target (V.sight view.now) (V.names view.now) home name.now found }
{
    match found {
        Found::Cell(cell) => Target::Cell(cell),
        Found::Object(object) => id(view, home, name, object),
        Found::Component(object) => id(view, home, name, object),
        Found::Body(_, _) | Found::Signal(_, _) | Found::Method(_, _) => {
            Target::Throws(Cause::Name)
        }
        Found::Script(_) | Found::Global | Found::Nothing => Target::Throws(Cause::Name),
    }
}

/// What a member of an object assigns to, by what it finds.
fn own<V: Watch>(view: &V, found: Found) -> Target
    ensures { result ≡ own_target (V.sight view.now) found }
{
    match found {
        Found::Cell(cell) => Target::Cell(cell),
        Found::Object(object) => whole(view, object),
        Found::Component(object) => whole(view, object),
        Found::Body(_, _) | Found::Signal(_, _) | Found::Method(_, _) => {
            Target::Throws(Cause::Name)
        }
        Found::Script(_) | Found::Global | Found::Nothing => Target::Throws(Cause::Name),
    }
}

/// What a member of a value assigns to.
fn member<V: Watch>(view: &V, value: &Value, name: &Text) -> Target
    ensures { result ≡ member_target (V.sight view.now) (V.names view.now) value.now name.now }
{
    match value {
        Value::Undefined | Value::Null => Target::Throws(Cause::Null),
        Value::Object(object) => own(view, view.member(*object, name)),
        Value::Component(object) => own(view, view.member(*object, name)),
        _ => Target::Throws(Cause::Kind),
    }
}

/// What an element assigns to whose place is no text.
fn no_element(value: &Value) -> Target
    ensures { result ≡ (if is_nothing value.now then Target.Throws Cause.Null else Target.Throws Cause.Kind) }
{
    if is_nothing(value) {
        Target::Throws(Cause::Null)
    } else {
        Target::Throws(Cause::Kind)
    }
}

/// What an element of a value assigns to.
fn element<V: Watch>(view: &V, value: &Value, index: &Value) -> Target
    ensures { result ≡ element_target (V.sight view.now) (V.names view.now) value.now index.now }
{
    match index {
        Value::Text(name) => member(view, value, name),
        _ => no_element(value),
    }
}

/// What a spot assigns to.
pub(crate) fn spot_target<V: Watch>(
    view: &V,
    tree: &Tree,
    home: Home,
    spot: &Spot,
) -> Result<Target, NoMemory>
    ensures { IfOk result (λ t. t ≡ spot_target (V.sight view.now) (V.names view.now) home (spot_of (laid tree.now) spot.now)) }
{
    match spot {
        Spot::Local(_) => Ok(Target::Throws(Cause::Kind)),
        Spot::Named(place, found) => {
            let name = name_of(tree, *place)?;
            Ok(named(view, home, name, *found))
        }
        Spot::Member(value, place) => {
            let name = name_of(tree, *place)?;
            Ok(member(view, value, name))
        }
        Spot::Element(value, index) => Ok(element(view, value, index)),
    }
}
