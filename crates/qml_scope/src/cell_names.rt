//! Where the names of cells stand, found by hashing. Without memory for the table it isn't whole, and then the instances are gone
//! over instead.

ghost use Rattle.std.specs.Prelude.{◌≡◌, ◌++◌, ◌∷◌, [], Some, None, true, if◌then◌else◌, List, length, option_copied, slice_get};
ghost use Rattle.qml_scope.specs.declared.shape.Shape.{Shape as Instance};
ghost use Rattle.qml_scope.specs.Shapes.{name_of_cell, has_delegate};
ghost use Rattle.qml_scope.specs.CellNames.{place_told, here_is, own_of, cell_of, found_here, delegate_place, own_name_place, member_place, place_in, entry_name as entry_name_of, shape_name as shape_name_of, name_there, TellsMore, TellsBoth, TellsNames};

use crate::instances;
use crate::shape::{Entry, Shape};
use indexmap::{IndexMap, IndexSet};
use name_table::NameTable;
use qml_base::{CellNo, Found, ObjNo};
use std::alloc::Global;

/// Where a name of a cell stands: the place of an instance, that of an entry there or none where it is a delegate name, and the
/// name's own among those.
#[derive(Clone, Copy, Debug, PartialEq, Eq)]
pub struct NamePlace {
    pub instance: usize,
    pub entry: Option<usize>,
    pub place: usize,
}

/// By the object and place of a cell, where its name stands, and where it is that of a delegate name.
#[derive(Drop)]
pub struct CellNames {
    pub places: IndexMap<(ObjNo, u32), NamePlace>,
    pub delegates: IndexMap<(ObjNo, u32), NamePlace>,
    /// Whether all are there.
    pub whole: bool,
}

/// Where the cell's name stands.
fn place_of(places: &IndexMap<(ObjNo, u32), NamePlace>, c: CellNo) -> Option<NamePlace>
    ensures { result ≡ place_told places.now.entries c }
{
    match places.get(&(c.object, c.place)) {
        Some(place) => Some(*place),
        None => None,
    }
}

/// Tells where the cell's name stands, if that isn't told yet. False is want of memory.
fn put(places: &mut IndexMap<(ObjNo, u32), NamePlace>, c: CellNo, p: NamePlace) -> bool
    ensures { result ≡ true → TellsMore places.old.entries places.new.entries (here_is c p) }
{
    if place_of(places, c).is_some() {
        return true;
    }
    places.insert((c.object, c.place), p).is_ok()
}

/// Tells where the delegate names of instance n stand. False is want of memory.
fn put_delegates(
    places: &mut IndexMap<(ObjNo, u32), NamePlace>,
    n: usize,
    names: &NameTable<CellNo>,
) -> bool
    ensures { result ≡ true → TellsMore places.old.entries places.new.entries (λ c. delegate_place n c names.now) }
{
    for i in 0..names.len() {
        let Some(c) = names.found_at(i) else {
            return false;
        };
        let at = NamePlace {
            instance: n,
            entry: None,
            place: i,
        };
        if !put(places, c, at) {
            return false;
        }
    }
    true
}

/// The cell that is found, if it is one of the object's.
fn own_cell(o: ObjNo, found: Found) -> Option<CellNo>
    ensures { result ≡ cell_of o found }
{
    match found {
        Found::Cell(c) => own(o, c),
        _ => None,
    }
}

fn own(o: ObjNo, c: CellNo) -> Option<CellNo>
    ensures { result ≡ own_of o c }
{
    if o == c.object { Some(c) } else { None }
}

/// Tells where a name of an object stands, if it is that of one of its cells. False is want of memory.
fn put_found(
    places: &mut IndexMap<(ObjNo, u32), NamePlace>,
    o: ObjNo,
    found: Found,
    at: NamePlace,
) -> bool
    ensures { result ≡ true → TellsMore places.old.entries places.new.entries (found_here o found at) }
{
    match own_cell(o, found) {
        Some(c) => put(places, c, at),
        None => true,
    }
}

/// Tells where the names of the cells of an object stand, in entry j of instance n. False is want of memory.
fn put_own(
    places: &mut IndexMap<(ObjNo, u32), NamePlace>,
    n: usize,
    j: usize,
    entry: &Entry,
) -> bool
    ensures { result ≡ true → TellsMore places.old.entries places.new.entries (λ c. own_name_place n j c entry.now) }
{
    for i in 0..entry.names.len() {
        let Some(found) = entry.names.found_at(i) else {
            return false;
        };
        let at = NamePlace {
            instance: n,
            entry: Some(j),
            place: i,
        };
        if !put_found(places, entry.object, found, at) {
            return false;
        }
    }
    true
}

/// The same, if the entry is the object's first.
fn put_first(
    places: &mut IndexMap<(ObjNo, u32), NamePlace>,
    n: usize,
    j: usize,
    entry: &Entry,
    first: bool,
) -> bool
    ensures { result ≡ true → TellsMore places.old.entries places.new.entries (λ c. if first then own_name_place n j c entry.now else None) }
{
    if first {
        put_own(places, n, j, entry)
    } else {
        true
    }
}

/// Tells where the names of cells stand in the entries of instance n. False is want of memory.
fn put_members(places: &mut IndexMap<(ObjNo, u32), NamePlace>, n: usize, members: &[Entry]) -> bool
    ensures { result ≡ true → TellsMore places.old.entries places.new.entries (λ c. member_place n 0 c members.now) }
{
    let mut seen: IndexSet<ObjNo> = IndexSet::new(*places.allocator());
    for j in 0..members.len() {
        let entry = &members[j];
        let Ok(first) = seen.insert(entry.object) else {
            return false;
        };
        if !put_first(places, n, j, entry, first) {
            return false;
        }
    }
    true
}

/// Tells where all names of cells stand in instance n. False is want of memory.
fn put_names(places: &mut IndexMap<(ObjNo, u32), NamePlace>, n: usize, shape: &Shape) -> bool
    ensures { result ≡ true → TellsMore places.old.entries places.new.entries (λ c. place_in n c shape.now) }
{
    put_delegates(places, n, &shape.names) && put_members(places, n, shape.members.entries())
}

/// Tells all names of cells of instance n. False is want of memory.
fn put_shape(
    places: &mut IndexMap<(ObjNo, u32), NamePlace>,
    delegates: &mut IndexMap<(ObjNo, u32), NamePlace>,
    n: usize,
    shape: &Shape,
) -> bool
    ensures { result ≡ true → (shapes : List Instance) → length shapes ≡ n → TellsBoth places.old.entries delegates.old.entries shapes → TellsBoth places.new.entries delegates.new.entries (shapes ++ shape.now ∷ []) }
{
    put_names(places, n, shape) && put_delegates(delegates, n, &shape.names)
}

/// Tells all names of cells of these instances, and no others. False is want of memory.
fn put_all(
    places: &mut IndexMap<(ObjNo, u32), NamePlace>,
    delegates: &mut IndexMap<(ObjNo, u32), NamePlace>,
    shapes: &[Shape],
) -> bool
    ensures { result ≡ true → TellsBoth places.new.entries delegates.new.entries shapes.now }
{
    places.clear();
    delegates.clear();
    for i in 0..shapes.len() {
        if !put_shape(places, delegates, i, &shapes[i]) {
            return false;
        }
    }
    true
}

impl CellNames {
    /// None. It takes no memory.
    pub fn new(alloc: Global) -> CellNames
        ensures { TellsNames result.whole result.places.entries result.delegates.entries [] }
    {
        CellNames {
            places: IndexMap::new(alloc),
            delegates: IndexMap::new(alloc),
            whole: true,
        }
    }

    /// Takes in one more instance, behind n others.
    pub fn add(&mut self, n: usize, shape: &Shape)
        ensures { (shapes : List Instance) → length shapes ≡ n → TellsNames self.old.whole self.old.places.entries self.old.delegates.entries shapes → TellsNames self.new.whole self.new.places.entries self.new.delegates.entries (shapes ++ shape.now ∷ []) }
    {
        if self.whole {
            self.whole = put_shape(&mut self.places, &mut self.delegates, n, shape);
        }
    }

    /// Takes in these instances anew.
    pub fn renew(&mut self, shapes: &[Shape])
        ensures { TellsNames self.new.whole self.new.places.entries self.new.delegates.entries shapes.now }
    {
        self.whole = put_all(&mut self.places, &mut self.delegates, shapes);
    }
}

fn entry_name(entries: &[Entry], j: usize, i: usize) -> Option<&[u16]>
    ensures { option_copied result ≡ entry_name_of (slice_get entries.now j) i }
{
    match entries.get(j) {
        Some(entry) => entry.names.name_at(i),
        None => None,
    }
}

fn shape_name(shape: &Shape, entry: Option<usize>, i: usize) -> Option<&[u16]>
    ensures { option_copied result ≡ shape_name_of shape.now entry i }
{
    match entry {
        Some(j) => entry_name(shape.members.entries(), j, i),
        None => shape.names.name_at(i),
    }
}

/// The name at the place.
fn name_at(shapes: &[Shape], p: NamePlace) -> Option<&[u16]>
    ensures { option_copied result ≡ name_there shapes.now (Some p) }
{
    match shapes.get(p.instance) {
        Some(shape) => shape_name(shape, p.entry, p.place),
        None => None,
    }
}

/// The name under which the cell was declared, in the first instance that knows one.
pub fn cell_name<'a>(shapes: &'a [Shape], names: &CellNames, c: CellNo) -> Option<&'a [u16]>
    requires { TellsNames names.now.whole names.now.places.entries names.now.delegates.entries shapes.now }
    ensures { option_copied result ≡ name_of_cell c shapes.now }
{
    if !names.whole {
        return instances::cell_name(shapes, c);
    }
    match place_of(&names.places, c) {
        Some(p) => name_at(shapes, p),
        None => None,
    }
}

/// Whether the cell is that of a delegate name.
pub fn is_delegate(shapes: &[Shape], names: &CellNames, c: CellNo) -> bool
    requires { TellsNames names.now.whole names.now.places.entries names.now.delegates.entries shapes.now }
    ensures { result ≡ has_delegate c shapes.now }
{
    if !names.whole {
        return instances::has_delegate(shapes, c);
    }
    place_of(&names.delegates, c).is_some()
}
