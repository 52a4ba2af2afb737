//! A plan with its tables: what stands under which number.

ghost use Rattle.std.specs.Prelude.{◌≡◌, ◌<◌, ◌^◌, [], IfOk, OnOk, length, slice_get};
ghost use Rattle.std.specs.Option.{option_map};
ghost use Rattle.instance_plans.specs.Numbers as n;
ghost use Rattle.instancing.specs.Numbered.{AreNumbered};
ghost use Rattle.unit_rows.specs.Seen.{all_seen};
ghost use Rattle.instancing.specs.Stack.{plan_of};
ghost use Rattle.pair_table.specs.Pairs.{each_put};
ghost use Rattle.instance_contents.specs.Tables.{Stands, rows_in, plan_in, live_in, placed};
ghost use Rattle.instance_contents.specs.Filling.{roots_from, numbers_of, numbers_from};

use crate::types::{builtin_planned, is_component};
use instance_plans::{Planned, PlannedInstance};
use instancing::Numbers;
use pair_table::PairTable;
use qml_base::{NoMemory, ObjNo};
use qml_scope::Shapes;
use qml_types::TypeNo;
use qml_value::Value;
use std::alloc::Global;
use unit_rows::{Unit, Way};

/// A planned instance with its tables.
#[derive(Drop)]
pub struct Tables<'a> {
    pub units: &'a [Unit],
    /// What is live around the instance.
    pub shapes: &'a Shapes,
    /// The first number.
    pub first: u32,
    /// The objects in document order.
    pub objects: Vec<Planned>,
    /// The instances of components, those of types behind the one whose object is of that type.
    pub instances: Vec<PlannedInstance>,
    /// The places of instances by document and number of the root.
    pub roots: PairTable<u32>,
    /// Numbers by place of the instance and object as written.
    pub numbers: PairTable<u32>,
}

/// Puts the roots of instances with their places.
fn put_roots(roots: &mut PairTable<u32>, instances: &[PlannedInstance]) -> Result<(), NoMemory>
    requires { length instances.now < 2 ^ 32 }
    ensures { OnOk result (roots.new ≡ each_put roots.old (roots_from 0 instances.now)) }
{
    'instances: for (k, instance) in instances.iter().enumerate() {
        roots.put((instance.unit, instance.root), k as u32)?;
    }
    Ok(())
}

/// Puts the numbers of the objects of an instance.
fn put_numbers(
    numbers: &mut PairTable<u32>,
    place: u32,
    objects: &[(u32, u32)],
) -> Result<(), NoMemory>
    ensures { OnOk result (numbers.new ≡ each_put numbers.old (numbers_of place objects.now)) }
{
    'objects: for at in objects {
        numbers.put((place, at.0), at.1)?;
    }
    Ok(())
}

/// Puts the numbers of the objects of instances.
fn put_all_numbers(
    numbers: &mut PairTable<u32>,
    instances: &[PlannedInstance],
) -> Result<(), NoMemory>
    requires { length instances.now < 2 ^ 32 }
    ensures { OnOk result (numbers.new ≡ each_put numbers.old (numbers_from 0 instances.now)) }
{
    'instances: for (k, instance) in instances.iter().enumerate() {
        put_numbers(numbers, k as u32, instance.objects.as_slice())?;
    }
    Ok(())
}

/// The table of the roots of instances.
fn roots_of(alloc: Global, instances: &[PlannedInstance]) -> Result<PairTable<u32>, NoMemory>
    requires { length instances.now < 2 ^ 32 }
    ensures { IfOk result (λ roots. roots ≡ each_put [] (roots_from 0 instances.now)) }
{
    let mut roots = PairTable::new(alloc);
    put_roots(&mut roots, instances)?;
    Ok(roots)
}

/// The table of numbers.
fn table_of_numbers(
    alloc: Global,
    instances: &[PlannedInstance],
) -> Result<PairTable<u32>, NoMemory>
    requires { length instances.now < 2 ^ 32 }
    ensures { IfOk result (λ numbers. numbers ≡ each_put [] (numbers_from 0 instances.now)) }
{
    let mut numbers = PairTable::new(alloc);
    put_all_numbers(&mut numbers, instances)?;
    Ok(numbers)
}

/// The tables of planned objects and instances. It takes time that goes by how many these are.
pub fn tables_of<'a>(
    alloc: Global,
    units: &'a [Unit],
    shapes: &'a Shapes,
    first: u32,
    planned: Numbers,
) -> Result<Tables<'a>, NoMemory>
    requires { AreNumbered first planned.objects.items }
    ensures stands { IfOk result (λ t. Stands t) }
    ensures rows { IfOk result (λ t. rows_in t ≡ all_seen units.now) }
    ensures live { IfOk result (λ t. live_in t ≡ shapes.now.known) }
    ensures plan { IfOk result (λ t. plan_in t ≡ plan_of first planned.objects.items planned.instances.items) }
{
    let Numbers { objects, instances } = planned;
    let mut instances = instances;
    instances.reverse();
    if instances.len() > u32::MAX as usize {
        return Err(NoMemory);
    }
    let roots = roots_of(alloc, instances.as_slice())?;
    let numbers = table_of_numbers(alloc, instances.as_slice())?;
    Ok(Tables {
        units,
        shapes,
        first,
        objects,
        instances,
        roots,
        numbers,
    })
}

/// The object at a place.
fn object_at(objects: &[Planned], place: usize) -> Option<Planned>
    ensures { result ≡ slice_get objects.now place }
{
    match objects.get(place) {
        Some(x) => Some(*x),
        None => None,
    }
}

/// The object of a number.
pub fn planned_at(tables: &Tables, number: u32) -> Option<Planned>
    requires { Stands tables.now }
    ensures { result ≡ n.planned_at tables.now.objects.items number }
{
    if number < tables.first {
        return None;
    }
    object_at(tables.objects.as_slice(), (number - tables.first) as usize)
}

/// The built-in type of the object of a number.
pub fn builtin_at(tables: &Tables, number: u32) -> TypeNo
    requires { Stands tables.now }
    ensures { result ≡ n.builtin_at (rows_in tables.now) tables.now.objects.items number }
{
    match planned_at(tables, number) {
        Some(x) => builtin_planned(tables.units, x),
        None => TypeNo::QtObject,
    }
}

/// The object of a number as a value.
pub fn value_at(tables: &Tables, number: u32) -> Value
    requires { Stands tables.now }
    ensures { result ≡ n.value_at (rows_in tables.now) tables.now.objects.items number }
{
    if is_component(builtin_at(tables, number)) {
        Value::Component(ObjNo(number))
    } else {
        Value::Object(ObjNo(number))
    }
}

/// The object that a hop leads to from the object of a number.
fn behind_hop(tables: &Tables, number: u32, hop: (u32, u32)) -> Option<u32>
    requires { Stands tables.now }
    ensures { result ≡ n.behind_hop tables.now.instances.items number hop }
{
    match tables.roots.find((hop.0, number)) {
        Some(place) => tables.numbers.find((place, hop.1)),
        None => None,
    }
}

/// The object that hops lead to from the object of a number.
fn through(tables: &Tables, number: u32, hops: &[(u32, u32)]) -> Option<u32>
    requires { Stands tables.now }
    ensures { result ≡ n.through tables.now.instances.items number hops.now }
{
    let mut at = number;
    'hops: for hop in hops {
        match behind_hop(tables, at, *hop) {
            Some(next) => at = next,
            None => return None,
        }
    }
    Some(at)
}

/// The number of the object at the end of a way from the instance at a place.
pub fn number_at(tables: &Tables, place: u32, way: &Way) -> Option<u32>
    requires { Stands tables.now }
    ensures { result ≡ n.number_of tables.now.instances.items (placed tables.now place) way.now }
{
    match tables.numbers.find((place, way.base())) {
        Some(number) => through(tables, number, way.hops()),
        None => None,
    }
}
