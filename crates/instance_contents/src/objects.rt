//! The objects that are made.

ghost use Rattle.std.specs.Prelude.{◌≡◌, ◌++◌, ℕ, List as AList, IfOk, OnOk, map, nat_eq, if◌then◌else◌, []};
ghost use Rattle.std.specs.Result.{result_ok};
ghost use Rattle.qml_value.specs.declared.value.Value.{Value as AValue};
ghost use Rattle.qml_types.specs.declared.kind.TypeRef.TheVariants.{Builtin as builtin};
ghost use Rattle.qml_types.specs.Table.{lineage};
ghost use Rattle.instance_plans.specs.Numbers as n;
ghost use Rattle.unit_rows.specs.Seen.{all_seen};
ghost use Rattle.instance_contents.specs.Tables.{Stands};
ghost use Rattle.instance_contents.specs.Sources.{Tells, value_given as given_by};
ghost use Rattle.instance_contents.specs.Objects as o;
ghost use Rattle.instance_contents.specs.Making as m;

use crate::cells::object_cells;
use crate::given::{Given, Source, value_given};
use crate::tables::Tables;
use crate::types::{builtin_planned, documents_from, is_item};
use instance_plans::Planned;
use instancing::{object, type_at};
use qml_base::{NoMemory, UnitNo};
use qml_text::{NoMemory as TextMemory, Text};
use qml_types::{TypeNo, TypeRef};
use qml_value::Value;
use std::alloc::Global;
use tree_model::NewCell;
use unit_rows::{GivenValue, Unit};

/// An object that is made.
#[derive(Drop)]
pub struct MadeObject {
    /// The number of the object that owns it.
    pub owner: Option<u32>,
    /// Its type as written, or `Component` for a Component that is made around an object.
    pub shown: Text,
    /// Its types, from its own on.
    pub types: Vec<TypeRef>,
    pub cells: Vec<NewCell>,
    /// Whether it has a start.
    pub starts: bool,
}

/// A text, if there was memory for it.
fn kept(text: Result<Text, TextMemory>) -> Result<Text, NoMemory>
    ensures { result_ok result ≡ result_ok text }
{
    match text {
        Ok(text) => Ok(text),
        Err(_) => Err(NoMemory),
    }
}

/// The type of an object as it is shown.
fn shown_of(alloc: Global, units: &[Unit], x: Planned) -> Result<Text, NoMemory>
    ensures { IfOk result (λ shown. shown ≡ o.shown_at (all_seen units.now) x) }
{
    if x.is_around {
        return kept(Text::from_latin1(alloc, b"Component"));
    }
    match object(units, x.unit, x.object) {
        Some(row) => kept(row.shown.copy(alloc)),
        None => Ok(Text::new()),
    }
}

/// Puts the documents of a type.
fn put_documents(documents: &[u32], types: &mut Vec<TypeRef>) -> Result<(), NoMemory>
    ensures { OnOk result (types.new.items ≡ types.old.items ++ map n.document_ref documents.now) }
{
    'documents: for document in documents {
        types.push(TypeRef::Document(UnitNo(*document)))?;
    }
    Ok(())
}

/// Puts the built-in types that one stands on, from the lowest on.
fn put_builtin(of_type: TypeNo, types: &mut Vec<TypeRef>) -> Result<(), NoMemory>
    ensures { OnOk result (types.new.items ≡ types.old.items ++ map builtin (lineage of_type)) }
{
    let bases = of_type.lineage();
    'types: for base in bases {
        types.push(TypeRef::Builtin(*base))?;
    }
    Ok(())
}

/// Puts the documents that the type of an object stands on, from the lowest on; none for a Component that is made around one.
fn put_all_documents(
    alloc: Global,
    units: &[Unit],
    x: Planned,
    types: &mut Vec<TypeRef>,
) -> Result<(), NoMemory>
    ensures { OnOk result (types.new.items ≡ types.old.items ++ map n.document_ref (o.documents_at (all_seen units.now) x)) }
{
    if x.is_around {
        return Ok(());
    }
    let mut documents = documents_from(alloc, units, type_at(units, x.unit, x.object))?;
    documents.reverse();
    put_documents(documents.as_slice(), types)
}

/// The types of an object, from its own on.
#[tactic(auto, using(crate::proofs::ObjectLemmas::types_are))]
fn types_of(alloc: Global, units: &[Unit], x: Planned) -> Result<Vec<TypeRef>, NoMemory>
    ensures { IfOk result (λ types. types.items ≡ o.types_at (all_seen units.now) x) }
{
    let mut types = Vec::new(alloc);
    put_builtin(builtin_planned(units, x), &mut types)?;
    put_all_documents(alloc, units, x, &mut types)?;
    types.reverse();
    Ok(types)
}

/// Whether a row gives some object of a list.
fn lists_some(tables: &Tables, place: u32, value: &GivenValue) -> bool
    requires { Stands tables.now }
    ensures { result ≡ o.lists_some tables.now place value.now }
{
    match value {
        GivenValue::Objects(objects) => stands_some(tables, place, objects.as_slice()),
        _ => false,
    }
}

/// Whether some object as written has a number in the instance at a place.
fn stands_some(tables: &Tables, place: u32, objects: &[u32]) -> bool
    requires { Stands tables.now }
    ensures { result ≡ o.some_number tables.now place objects.now }
{
    'objects: for o in objects {
        if tables.numbers.find((place, *o)).is_some() {
            return true;
        }
    }
    false
}

/// Whether the value that a row gives has some object of a list.
fn gives_some(tables: &Tables, source: Source) -> bool
    requires { Stands tables.now }
    ensures { result ≡ o.lists_some tables.now source.place (given_by tables.now source) }
{
    match value_given(tables, source) {
        Some(value) => lists_some(tables, source.place, value),
        None => false,
    }
}

/// Whether an Item has states.
fn has_states(tables: &Tables, given: &Given, number: u32) -> bool
    requires stands { Stands tables.now }
    requires given { Tells tables.now given.now }
    ensures { result ≡ o.states_given tables.now number }
{
    match given.sources.find((number, STATES_PLACE)) {
        Some(source) => gives_some(tables, source),
        None => false,
    }
}

/// The place of `states` in an Item.
const STATES_PLACE: u32 = 11;

/// Whether each object of a type has a start.
fn always_starts(of_type: TypeNo) -> bool
    ensures { result ≡ o.starts_always of_type }
{
    match of_type {
        TypeNo::Binding
        | TypeNo::Connections
        | TypeNo::Timer
        | TypeNo::Repeater
        | TypeNo::Loader
        | TypeNo::Host => true,
        _ => false,
    }
}

/// Whether a planned object has a start.
fn starts(tables: &Tables, given: &Given, x: Planned) -> bool
    requires stands { Stands tables.now }
    requires given { Tells tables.now given.now }
    ensures { result ≡ o.starts_at tables.now x }
{
    let of_type = builtin_planned(tables.units, x);
    if always_starts(of_type) {
        return true;
    }
    is_item(of_type) && has_states(tables, given, x.number)
}

/// The delegate names of a planned object: those of the first.
fn own_delegates<'a>(
    tables: &Tables,
    x: Planned,
    delegates: &'a [(Text, Value)],
) -> &'a [(Text, Value)]
    ensures { result.now ≡ (if nat_eq x.number tables.now.first then delegates.now else []) }
{
    if x.number == tables.first {
        delegates
    } else {
        &[]
    }
}

/// A planned object as it is made. The delegate names are those of the first.
pub fn made_object(
    alloc: Global,
    tables: &Tables,
    given: &Given,
    x: Planned,
    delegates: &[(Text, Value)],
) -> Result<MadeObject, NoMemory>
    requires stands { Stands tables.now }
    requires given { Tells tables.now given.now }
    ensures { IfOk result (λ made. o.looks made ≡ m.object_of tables.now (map (λ (d : AList ℕ × AValue). d.1) delegates.now) x) }
{
    let own = own_delegates(tables, x, delegates);
    let shown = shown_of(alloc, tables.units, x)?;
    let types = types_of(alloc, tables.units, x)?;
    let cells = object_cells(alloc, tables, given, x, own)?;
    Ok(MadeObject {
        owner: x.owner,
        shown,
        types,
        cells,
        starts: starts(tables, given, x),
    })
}

/// All planned objects as they are made, in document order.
pub fn made_objects(
    alloc: Global,
    tables: &Tables,
    given: &Given,
    delegates: &[(Text, Value)],
) -> Result<Vec<MadeObject>, NoMemory>
    requires stands { Stands tables.now }
    requires given { Tells tables.now given.now }
    ensures { IfOk result (λ made. map o.looks made.items ≡ map (m.object_of tables.now (map (λ (d : AList ℕ × AValue). d.1) delegates.now)) tables.now.objects.items) }
{
    let mut made = Vec::new(alloc);
    'objects: for x in tables.objects.as_slice() {
        let object = made_object(alloc, tables, given, *x, delegates)?;
        made.push(object)?;
    }
    Ok(made)
}
