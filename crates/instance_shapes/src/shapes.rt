//! The names of instances.

ghost use Rattle.std.specs.Prelude.{◌≡◌, ◌<◌, ◌^◌, ◌++◌, [], IfOk, OnOk, map, length};
ghost use Rattle.instance_plans.specs.Numbers.{component_at};
ghost use Rattle.instance_plans.specs.Shaped.{each_put, named_once};
ghost use Rattle.instance_contents.specs.Tables.{Stands, rows_in, live_in, plan_in, placed};
ghost use Rattle.instance_shapes.specs.Shapes as s;

use crate::counts::count_of_object;
use crate::objects::names_of;
use instance_contents::Tables;
use instance_plans::PlannedInstance;
use instancing::component;
use name_table::NameTable;
use qml_base::{CellNo, NoMemory, ObjNo, UnitNo};
use qml_scope::{Entry, Members, Shape};
use qml_text::Text;
use qml_value::Value;
use std::alloc::Global;

/// How many delegate names an object has: the first has all.
fn delegates_at(tables: &Tables, number: u32, delegates: usize) -> usize
    ensures { result ≡ s.delegates_of tables.now number delegates }
{
    if number == tables.first { delegates } else { 0 }
}

/// The entry of an object of the instance at a place.
fn entry(
    alloc: Global,
    tables: &Tables,
    place: u32,
    instance: &PlannedInstance,
    at: (u32, u32),
    delegates: usize,
) -> Result<Entry, NoMemory>
    requires { Stands tables.now }
    ensures { IfOk result (λ e. e ≡ s.entry_told tables.now place instance.now delegates at) }
{
    let own = delegates_at(tables, at.1, delegates);
    let names = names_of(alloc, tables, place, instance, at, own)?;
    Ok(Entry {
        object: ObjNo(at.1),
        names,
    })
}

/// The entries of all objects of the instance at a place.
fn members(
    alloc: Global,
    tables: &Tables,
    place: u32,
    instance: &PlannedInstance,
    delegates: usize,
) -> Result<Members, NoMemory>
    requires { Stands tables.now }
    ensures { IfOk result (λ entries. entries ≡ map (s.entry_told tables.now place instance.now delegates) instance.now.objects) }
{
    let mut members = Members::new(alloc);
    'objects: for at in instance.objects.as_slice() {
        let entry = entry(alloc, tables, place, instance, *at, delegates)?;
        members.push(entry)?;
    }
    Ok(members)
}

/// Puts an id of the instance at a place.
fn put_id(
    alloc: Global,
    tables: &Tables,
    ids: &mut NameTable<ObjNo>,
    place: u32,
    id: &(Text, u32),
) -> Result<(), NoMemory>
    requires { Stands tables.now }
    ensures { OnOk result (ids.new ≡ each_put ids.old (s.id_told tables.now place id.now)) }
{
    match tables.numbers.find((place, id.1)) {
        Some(number) => ids.put(alloc, &id.0, ObjNo(number)),
        None => Ok(()),
    }
}

/// Puts ids of the instance at a place.
#[tactic(auto, using(instance_names::proofs::TypeLemmas::each_append))]
fn put_ids(
    alloc: Global,
    tables: &Tables,
    ids: &mut NameTable<ObjNo>,
    place: u32,
    written: &[(Text, u32)],
) -> Result<(), NoMemory>
    requires { Stands tables.now }
    ensures { OnOk result (ids.new ≡ each_put ids.old (s.ids_told tables.now place written.now)) }
{
    'ids: for id in written {
        put_id(alloc, tables, ids, place, id)?;
    }
    Ok(())
}

/// The ids of the instance at a place.
fn ids(
    alloc: Global,
    tables: &Tables,
    place: u32,
    instance: &PlannedInstance,
) -> Result<NameTable<ObjNo>, NoMemory>
    requires { Stands tables.now }
    ensures { IfOk result (λ ids. ids ≡ each_put [] (s.ids_told tables.now place (component_at (rows_in tables.now) instance.now.unit instance.now.component).ids)) }
{
    let mut ids = NameTable::new(alloc);
    if let Some(row) = component(tables.units, instance.unit, instance.component) {
        put_ids(alloc, tables, &mut ids, place, row.ids.as_slice())?;
    }
    Ok(ids)
}

/// The root of an instance around, as an object.
fn around(enclosing: Option<u32>) -> Option<ObjNo>
    ensures { result ≡ s.around enclosing }
{
    match enclosing {
        Some(number) => Some(ObjNo(number)),
        None => None,
    }
}

/// The names of the instance at a place, with these as delegate names.
fn shape(
    alloc: Global,
    tables: &Tables,
    place: u32,
    instance: &PlannedInstance,
    delegates: usize,
    names: NameTable<CellNo>,
) -> Result<Shape, NoMemory>
    requires { Stands tables.now }
    ensures { IfOk result (λ shape. shape ≡ s.shape_told tables.now place instance.now delegates names) }
{
    Ok(Shape {
        unit: UnitNo(instance.unit),
        root: ObjNo(instance.root),
        enclosing: around(instance.enclosing),
        ids: ids(alloc, tables, place, instance)?,
        names,
        members: members(alloc, tables, place, instance, delegates)?,
    })
}

/// Puts delegate names, whose cells stand from a place on.
fn put_delegates(
    alloc: Global,
    names: &mut NameTable<CellNo>,
    number: u32,
    from: u32,
    delegates: &[(Text, Value)],
) -> Result<(), NoMemory>
    ensures { OnOk result (names.new ≡ each_put names.old (s.cells_told number from delegates.now)) }
{
    let mut place = from;
    'names: for delegate in delegates {
        let cell = CellNo {
            object: ObjNo(number),
            place,
        };
        names.put(alloc, &delegate.0, cell)?;
        let Some(next) = place.checked_add(1) else {
            return Err(NoMemory);
        };
        place = next;
    }
    Ok(())
}

/// The delegate names of the first object, of object `r` of a document.
fn delegate_names(
    alloc: Global,
    tables: &Tables,
    u: u32,
    r: u32,
    delegates: &[(Text, Value)],
) -> Result<NameTable<CellNo>, NoMemory>
    ensures { IfOk result (λ names. names ≡ named_once (s.delegate_names tables.now u r delegates.now)) }
{
    let from = count_of_object(alloc, tables, u, r, 0)?;
    let mut names = NameTable::new(alloc);
    put_delegates(alloc, &mut names, tables.first, from, delegates)?;
    Ok(names)
}

/// Puts the names of instances from the first place on, the first of them with these as delegate names.
fn put_shapes(
    alloc: Global,
    tables: &Tables,
    shapes: &mut Vec<Shape>,
    instances: &[PlannedInstance],
    delegates: usize,
    first: NameTable<CellNo>,
) -> Result<(), NoMemory>
    requires stands { Stands tables.now }
    requires few { length instances.now < 2 ^ 32 }
    ensures { OnOk result (shapes.new.items ≡ shapes.old.items ++ s.shapes_told tables.now delegates 0 first instances.now) }
{
    let mut names = first;
    'instances: for (place, instance) in instances.iter().enumerate() {
        let shape = shape(alloc, tables, place as u32, instance, delegates, names)?;
        shapes.push(shape)?;
        names = NameTable::new(alloc);
    }
    Ok(())
}

/// The names of all instances of a plan of object `r` of a document, those of outer documents first. The first instance has the
/// delegate names.
#[tactic(auto, using(crate::proofs::ShapeLemmas::are_shapes))]
pub fn plan_shapes(
    alloc: Global,
    tables: &Tables,
    u: u32,
    r: u32,
    delegates: &[(Text, Value)],
) -> Result<Vec<Shape>, NoMemory>
    requires { Stands tables.now }
    ensures { IfOk result (λ shapes. shapes.items ≡ s.shapes_of_plan tables.now u r delegates.now) }
{
    let names = delegate_names(alloc, tables, u, r, delegates)?;
    let mut shapes = Vec::new(alloc);
    let instances = tables.instances.as_slice();
    put_shapes(
        alloc,
        tables,
        &mut shapes,
        instances,
        delegates.len(),
        names,
    )?;
    Ok(shapes)
}
