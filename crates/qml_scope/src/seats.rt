//! In which instances an object stands, found by hashing. Without memory for the table it isn't whole, and then the instances
//! are gone over instead.

ghost use Rattle.std.specs.Prelude.{◌≡◌, ◌≤◌, ◌+◌, ◌++◌, ◌∷◌, [], List, Some, true, slice_get, length};
ghost use Rattle.qml_scope.specs.declared.shape.Shape.{Shape as Instance};
ghost use Rattle.qml_scope.specs.Seats.{Seat, Lists, Tells, TellsWhole, Counts, seat_in, seats, seats_with, objects_in};

use crate::shape::Shape;
use indexmap::IndexMap;
use qml_base::ObjNo;
use std::alloc::Global;

/// How many seats an object has.
#[derive(Clone, Copy, Debug, PartialEq, Eq)]
pub enum Count {
    /// One of them is where the next would be.
    Seated,
    Next(usize),
    Uncounted,
}

/// Of each object and count from 0 on: the place of an instance in which the object stands, and of its first entry there.
#[derive(Drop)]
pub struct Seats {
    pub places: IndexMap<(ObjNo, usize), (usize, usize)>,
    /// Whether all are there.
    pub whole: bool,
}

/// The object's seat of this count.
pub fn seat(
    places: &IndexMap<(ObjNo, usize), (usize, usize)>,
    o: ObjNo,
    k: usize,
) -> Option<(usize, usize)>
    ensures { result ≡ seat_in places.now.entries o k }
{
    match places.get(&(o, k)) {
        Some(seat) => Some(*seat),
        None => None,
    }
}

/// Counts the object's seats, unless one is in instance n.
fn count_seats(places: &IndexMap<(ObjNo, usize), (usize, usize)>, o: ObjNo, n: usize) -> Count
    ensures { (seats : List Seat) → Lists places.now.entries o seats → Counts n seats result }
{
    for k in 0..usize::MAX {
        match seat(places, o, k) {
            Some(seat) => {
                if seat.0 == n {
                    return Count::Seated;
                }
            }
            None => return Count::Next(k),
        }
    }
    Count::Uncounted
}

/// The object at the place among those of the instance, of which its root is the last.
fn object_at(shape: &Shape, p: usize) -> ObjNo
    requires { p ≤ length shape.now.members }
    ensures { slice_get (objects_in shape.now) p ≡ Some result }
{
    match shape.members.entries().get(p) {
        Some(entry) => entry.object,
        None => shape.root,
    }
}

/// Puts the seat of the object at the place in instance n behind its others, unless it has one there. False is want of memory.
fn seat_object(
    places: &mut IndexMap<(ObjNo, usize), (usize, usize)>,
    n: usize,
    shape: &Shape,
    p: usize,
) -> bool
    requires { p ≤ length shape.now.members }
    ensures { result ≡ true → (shapes : List Instance) → length shapes ≡ n → Tells places.old.entries (seats_with shapes shape.now p) → Tells places.new.entries (seats_with shapes shape.now (p + 1)) }
{
    let o = object_at(shape, p);
    match count_seats(places, o, n) {
        Count::Seated => true,
        Count::Next(k) => places.insert((o, k), (n, p)).is_ok(),
        Count::Uncounted => false,
    }
}

/// Puts the seats of all objects in instance n. False is want of memory.
fn seat_objects(
    places: &mut IndexMap<(ObjNo, usize), (usize, usize)>,
    n: usize,
    shape: &Shape,
) -> bool
    ensures { result ≡ true → (shapes : List Instance) → length shapes ≡ n → Tells places.old.entries (seats shapes) → Tells places.new.entries (seats (shapes ++ shape.now ∷ [])) }
{
    for p in 0..shape.members.entries().len() + 1 {
        if !seat_object(places, n, shape, p) {
            return false;
        }
    }
    true
}

/// Puts the seats of these instances, and no others.
fn seat_all(places: &mut IndexMap<(ObjNo, usize), (usize, usize)>, shapes: &[Shape]) -> bool
    ensures { result ≡ true → Tells places.new.entries (seats shapes.now) }
{
    places.clear();
    for i in 0..shapes.len() {
        if !seat_objects(places, i, &shapes[i]) {
            return false;
        }
    }
    true
}

impl Seats {
    /// None. It takes no memory.
    pub fn new(alloc: Global) -> Seats
        ensures { TellsWhole result.whole result.places.entries [] }
    {
        Seats {
            places: IndexMap::new(alloc),
            whole: true,
        }
    }

    /// Takes in one more instance, behind n others.
    pub fn add(&mut self, n: usize, shape: &Shape)
        ensures { (shapes : List Instance) → length shapes ≡ n → TellsWhole self.old.whole self.old.places.entries shapes → TellsWhole self.new.whole self.new.places.entries (shapes ++ shape.now ∷ []) }
    {
        if self.whole {
            self.whole = seat_objects(&mut self.places, n, shape);
        }
    }

    /// Takes in these instances anew.
    pub fn renew(&mut self, shapes: &[Shape])
        ensures { TellsWhole self.new.whole self.new.places.entries shapes.now }
    {
        self.whole = seat_all(&mut self.places, shapes);
    }
}
