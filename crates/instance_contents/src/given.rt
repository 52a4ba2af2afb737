//! Which row gives what a cell contains.

ghost use Rattle.std.specs.Prelude.{◌≡◌, ◌<◌, ◌^◌, OnOk, IfOk, length, slice_get, option_copied};
ghost use Rattle.std.specs.Option.{option_map};
ghost use Rattle.instance_plans.specs.Contents as c;
ghost use Rattle.instance_plans.specs.Numbers.{row_at};
ghost use Rattle.pair_table.specs.Pairs.{each_put};
ghost use Rattle.instance_contents.specs.Tables.{Stands, rows_in, live_in, plan_in, placed};
ghost use Rattle.instance_contents.specs.Sources.{sources_of_row, sources_of_rows, sources_of_object, sources_of_instance, sources_from, value_given as given_by};
ghost use Rattle.instance_contents.specs.Sources.{is_unnamed_state, number_or_none, namings_from, namings_of, entry_namings, namings, Tells};
ghost use Rattle.instance_plans.specs.Numbers.{number_in};
ghost use Rattle.unit_rows.specs.Seen.{all_seen};
ghost use Rattle.unit_rows.specs.declared.given.ValueRow.{ValueRow as AValueRow};

use crate::tables::{Tables, builtin_at, number_at};
use crate::types::is_state;
use instance_plans::PlannedInstance;
use instancing::{is_held, object};
use pair_table::PairTable;
use qml_base::NoMemory;
use std::alloc::Global;
use unit_rows::{GivenValue, Unit, ValueRow};

/// A row that gives a value: the place of the instance in which it is written, the object that it stands in, by number and as
/// written, and its place among the rows of that object.
#[derive(Clone, Copy, Debug, PartialEq, Eq)]
pub struct Source {
    pub place: u32,
    pub author: u32,
    pub object: u32,
    pub row: usize,
}

/// Whether an object of an instance has its row there: where a Component is made around it, its row is that of another instance.
pub fn has_row(tables: &Tables, instance: &PlannedInstance, o: u32) -> bool
    ensures { result ≡ c.has_row (rows_in tables.now) (live_in tables.now) (plan_in tables.now) instance.now o }
{
    o == instance.component || !is_held(tables.units, instance.unit, o)
}

/// Puts a row for the cell that it goes to.
fn give_row(
    tables: &Tables,
    table: &mut PairTable<Source>,
    source: Source,
    value: &ValueRow,
) -> Result<(), NoMemory>
    requires { Stands tables.now }
    ensures { OnOk result (table.new ≡ each_put table.old (sources_of_row tables.now source value.now)) }
{
    match number_at(tables, source.place, &value.to) {
        Some(number) => table.put((number, value.place), source),
        None => Ok(()),
    }
}

/// Puts the rows of an object of the instance at a place.
#[tactic(auto, using(pair_table::proofs::EachLemmas::each_append))]
fn give_rows(
    tables: &Tables,
    table: &mut PairTable<Source>,
    place: u32,
    at: (u32, u32),
    values: &[ValueRow],
) -> Result<(), NoMemory>
    requires { Stands tables.now }
    ensures { OnOk result (table.new ≡ each_put table.old (sources_of_rows tables.now place at 0 values.now)) }
{
    'rows: for (row, value) in values.iter().enumerate() {
        let source = Source {
            place,
            author: at.1,
            object: at.0,
            row,
        };
        give_row(tables, table, source, value)?;
    }
    Ok(())
}

/// Puts the rows of an object, if it has its row in the instance.
fn give_object(
    tables: &Tables,
    table: &mut PairTable<Source>,
    place: u32,
    instance: &PlannedInstance,
    at: (u32, u32),
) -> Result<(), NoMemory>
    requires { Stands tables.now }
    ensures { OnOk result (table.new ≡ each_put table.old (sources_of_object tables.now place instance.now at)) }
{
    if !has_row(tables, instance, at.0) {
        return Ok(());
    }
    match object(tables.units, instance.unit, at.0) {
        Some(row) => give_rows(tables, table, place, at, row.values.as_slice()),
        None => Ok(()),
    }
}

/// Puts the rows of objects of an instance.
fn give_objects(
    tables: &Tables,
    table: &mut PairTable<Source>,
    place: u32,
    instance: &PlannedInstance,
    objects: &[(u32, u32)],
) -> Result<(), NoMemory>
    requires { Stands tables.now }
    ensures { OnOk result (table.new ≡ each_put table.old (sources_of_instance tables.now place instance.now objects.now)) }
{
    'objects: for at in objects {
        give_object(tables, table, place, instance, *at)?;
    }
    Ok(())
}

/// Puts the rows of instances, those of outer documents first.
fn give_instances(
    tables: &Tables,
    table: &mut PairTable<Source>,
    instances: &[PlannedInstance],
) -> Result<(), NoMemory>
    requires stands { Stands tables.now }
    requires few { length instances.now < 2 ^ 32 }
    ensures { OnOk result (table.new ≡ each_put table.old (sources_from tables.now 0 instances.now)) }
{
    'instances: for k in 0..instances.len() {
        let instance = &instances[k];
        give_objects(
            tables,
            table,
            k as u32,
            instance,
            instance.objects.as_slice(),
        )?;
    }
    Ok(())
}

/// What is given for the cells of a planned instance: the row that counts for each, and which States have no name, with their
/// places among those of their list.
#[derive(Drop)]
pub struct Given {
    pub sources: PairTable<Source>,
    pub names: PairTable<u32>,
}

/// The value that a row gives.
pub fn value_given<'a>(tables: &'a Tables, source: Source) -> Option<&'a GivenValue>
    ensures { option_copied result ≡ option_map (λ (v : AValueRow). v.value) (slice_get (row_at (rows_in tables.now) (placed tables.now source.place).unit source.object).values source.row) }
{
    let Some(instance) = tables.instances.as_slice().get(source.place as usize) else {
        return value_in(tables.units, 0, source);
    };
    value_in(tables.units, instance.unit, source)
}

/// The value that a row of an object as written gives.
fn value_in(units: &[Unit], unit: u32, source: Source) -> Option<&GivenValue>
    ensures { option_copied result ≡ option_map (λ (v : AValueRow). v.value) (slice_get (row_at (all_seen units.now) unit source.object).values source.row) }
{
    match object(units, unit, source.object) {
        Some(row) => match row.values.as_slice().get(source.row) {
            Some(value) => Some(&value.value),
            None => None,
        },
        None => None,
    }
}

/// Whether the object of a number is a State for which no name is given.
fn is_unnamed(tables: &Tables, sources: &PairTable<Source>, number: u32) -> bool
    requires { Stands tables.now }
    ensures { result ≡ is_unnamed_state tables.now sources.now number }
{
    is_state(builtin_at(tables, number)) && sources.find((number, 1)).is_none()
}

/// The number of an object as written in the instance at a place, if it is a State for which no name is given.
fn unnamed(tables: &Tables, sources: &PairTable<Source>, place: u32, o: u32) -> Option<u32>
    requires { Stands tables.now }
    ensures { result ≡ number_or_none tables.now sources.now (number_in (placed tables.now place).objects o) }
{
    let Some(number) = tables.numbers.find((place, o)) else {
        return None;
    };
    if is_unnamed(tables, sources, number) {
        Some(number)
    } else {
        None
    }
}

/// Puts the States without a name among objects as written in the instance at a place.
fn name_states(
    tables: &Tables,
    sources: &PairTable<Source>,
    names: &mut PairTable<u32>,
    place: u32,
    objects: &[u32],
) -> Result<(), NoMemory>
    requires { Stands tables.now }
    ensures { OnOk result (names.new ≡ each_put names.old (namings_from tables.now sources.now place 1 objects.now)) }
{
    let mut next: u32 = 1;
    'objects: for o in objects {
        if let Some(number) = unnamed(tables, sources, place, *o) {
            names.put((number, 1), next)?;
            let Some(after) = next.checked_add(1) else {
                return Err(NoMemory);
            };
            next = after;
        }
    }
    Ok(())
}

/// Puts the States without a name that a row lists.
fn name_listed(
    tables: &Tables,
    sources: &PairTable<Source>,
    names: &mut PairTable<u32>,
    source: Source,
) -> Result<(), NoMemory>
    requires { Stands tables.now }
    ensures { OnOk result (names.new ≡ each_put names.old (namings_of tables.now sources.now source.place (given_by tables.now source))) }
{
    match value_given(tables, source) {
        Some(GivenValue::Objects(objects)) => {
            name_states(tables, sources, names, source.place, objects.as_slice())
        }
        _ => Ok(()),
    }
}

/// Puts the States without a name of all lists that count.
#[tactic(auto, using(pair_table::proofs::EachLemmas::each_append))]
fn name_all(
    tables: &Tables,
    sources: &PairTable<Source>,
    names: &mut PairTable<u32>,
) -> Result<(), NoMemory>
    requires { Stands tables.now }
    ensures { OnOk result (names.new ≡ each_put names.old (namings tables.now sources.now sources.now)) }
{
    'sources: for i in 0..sources.len() {
        name_entry(tables, sources, names, i)?;
    }
    Ok(())
}

/// Puts the States without a name that the row at a place lists.
fn name_entry(
    tables: &Tables,
    sources: &PairTable<Source>,
    names: &mut PairTable<u32>,
    place: usize,
) -> Result<(), NoMemory>
    requires { Stands tables.now }
    ensures { OnOk result (names.new ≡ each_put names.old (entry_namings tables.now sources.now (slice_get sources.now place))) }
{
    match sources.at(place) {
        Some(entry) => name_listed(tables, sources, names, entry.1),
        None => Ok(()),
    }
}

/// What is given for the cells of a planned instance. It takes time that goes by the rows of its objects.
pub fn gather(alloc: Global, tables: &Tables) -> Result<Given, NoMemory>
    requires { Stands tables.now }
    ensures { IfOk result (λ g. Tells tables.now g) }
{
    let mut sources = PairTable::new(alloc);
    give_instances(tables, &mut sources, tables.instances.as_slice())?;
    let mut names = PairTable::new(alloc);
    name_all(tables, &sources, &mut names)?;
    Ok(Given { sources, names })
}
