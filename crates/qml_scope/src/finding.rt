//! Look-ups over instances by the seats of objects.

ghost use Rattle.std.specs.Prelude.{◌≡◌, ◌&&◌, is_some, slice_get, option_copied, Some};
ghost use Rattle.qml_base.specs.declared.numbers.ObjNo.{ObjNo as Number};
ghost use Rattle.qml_base.specs.declared.numbers.UnitNo.{UnitNo as Document};
ghost use Rattle.qml_scope.specs.Shapes.{same_unit, told_in, is_rooted, instance_of, instance_at, seen_in, told_anywhere};
ghost use Rattle.qml_scope.specs.Seats.{Tells, TellsWhole, SeatOf, entry_place, seats};

use crate::instances;
use crate::seats::{Seats, seat};
use crate::shape::Shape;
use indexmap::IndexMap;
use qml_base::{Found, ObjNo, UnitNo};
use qml_text::Text;

/// What the object has under the name in the instance, by the place of its first entry there.
fn told_at(shape: &Shape, place: usize, name: &Text) -> Option<Found>
    ensures { (o : Number) → place ≡ entry_place shape.now.members o → result ≡ told_in shape.now o name.now }
{
    match shape.members.entries().get(place) {
        Some(entry) => entry.names.find(name),
        None => None,
    }
}

fn has_entry(shape: &Shape, place: usize) -> bool
    ensures { result ≡ is_some (slice_get shape.now.members place) }
{
    shape.members.entries().get(place).is_some()
}

fn is_of(shape: &Shape, unit: UnitNo, place: usize) -> bool
    ensures { result ≡ (same_unit shape.now.unit unit && is_some (slice_get shape.now.members place)) }
{
    shape.unit == unit && has_entry(shape, place)
}

fn has_root(shape: &Shape, unit: UnitNo, root: ObjNo) -> bool
    ensures { result ≡ is_rooted unit root shape.now }
{
    shape.unit == unit && shape.root == root
}

/// The object's seat in the first instance of the unit's component in which it has an entry.
fn seat_of_unit(
    shapes: &[Shape],
    places: &IndexMap<(ObjNo, usize), (usize, usize)>,
    unit: UnitNo,
    o: ObjNo,
) -> Option<(usize, usize)>
    requires { Tells places.now.entries (seats shapes.now) }
    ensures { SeatOf shapes.now unit o result }
{
    for k in 0..shapes.len() {
        let Some(at) = seat(places, o, k) else {
            return None;
        };
        let Some(shape) = shapes.get(at.0) else {
            return None;
        };
        if is_of(shape, unit, at.1) {
            return Some(at);
        }
    }
    None
}

/// The first instance of the unit's component in which the object has an entry.
pub fn find_instance<'a>(
    shapes: &'a [Shape],
    seats: &Seats,
    unit: UnitNo,
    o: ObjNo,
) -> Option<&'a Shape>
    requires { TellsWhole seats.now.whole seats.now.places.entries shapes.now }
    ensures { option_copied result ≡ instance_of shapes.now unit o }
{
    if !seats.whole {
        return instances::find_instance(shapes, unit, o);
    }
    match seat_of_unit(shapes, &seats.places, unit, o) {
        Some(at) => shapes.get(at.0),
        None => None,
    }
}

/// What the object of the seat has under the name there.
fn told_where(shapes: &[Shape], at: (usize, usize), name: &Text) -> Option<Found>
    ensures { (unit : Document) (o : Number) → SeatOf shapes.now unit o (Some at) → result ≡ seen_in shapes.now unit o name.now }
{
    match shapes.get(at.0) {
        Some(shape) => told_at(shape, at.1, name),
        None => None,
    }
}

/// What the object has under the name, as the document sees it.
pub fn seen(shapes: &[Shape], seats: &Seats, unit: UnitNo, o: ObjNo, name: &Text) -> Option<Found>
    requires { TellsWhole seats.now.whole seats.now.places.entries shapes.now }
    ensures { result ≡ seen_in shapes.now unit o name.now }
{
    if !seats.whole {
        return instances::seen(shapes, unit, o, name);
    }
    match seat_of_unit(shapes, &seats.places, unit, o) {
        Some(at) => told_where(shapes, at, name),
        None => None,
    }
}

fn told_by_seats(
    shapes: &[Shape],
    places: &IndexMap<(ObjNo, usize), (usize, usize)>,
    o: ObjNo,
    name: &Text,
) -> Option<Found>
    requires { Tells places.now.entries (seats shapes.now) }
    ensures { result ≡ told_anywhere shapes.now o name.now }
{
    for k in 0..shapes.len() {
        let Some(at) = seat(places, o, k) else {
            return None;
        };
        let Some(shape) = shapes.get(at.0) else {
            return None;
        };
        if let Some(found) = told_at(shape, at.1, name) {
            return Some(found);
        }
    }
    None
}

/// What the object has under the name in the first instance that knows it.
pub fn told_first(shapes: &[Shape], seats: &Seats, o: ObjNo, name: &Text) -> Option<Found>
    requires { TellsWhole seats.now.whole seats.now.places.entries shapes.now }
    ensures { result ≡ told_anywhere shapes.now o name.now }
{
    if !seats.whole {
        return instances::told_first(shapes, o, name);
    }
    told_by_seats(shapes, &seats.places, o, name)
}

fn root_by_seats<'a>(
    shapes: &'a [Shape],
    places: &IndexMap<(ObjNo, usize), (usize, usize)>,
    unit: UnitNo,
    root: ObjNo,
) -> Option<&'a Shape>
    requires { Tells places.now.entries (seats shapes.now) }
    ensures { option_copied result ≡ instance_at shapes.now unit root }
{
    for k in 0..shapes.len() {
        let Some(at) = seat(places, root, k) else {
            return None;
        };
        let Some(shape) = shapes.get(at.0) else {
            return None;
        };
        if has_root(shape, unit, root) {
            return Some(shape);
        }
    }
    None
}

/// The first instance of this root.
pub fn find_root<'a>(
    shapes: &'a [Shape],
    seats: &Seats,
    unit: UnitNo,
    root: ObjNo,
) -> Option<&'a Shape>
    requires { TellsWhole seats.now.whole seats.now.places.entries shapes.now }
    ensures { option_copied result ≡ instance_at shapes.now unit root }
{
    if !seats.whole {
        return instances::find_root(shapes, unit, root);
    }
    root_by_seats(shapes, &seats.places, unit, root)
}
