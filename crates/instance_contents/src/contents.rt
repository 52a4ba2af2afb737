//! Contents of cells by what is written.

ghost use Rattle.std.specs.Prelude.{◌≡◌, IfOk};
ghost use Rattle.std.specs.List.{filter_map};
ghost use Rattle.std.specs.Option.{unwrap_or};
ghost use Rattle.js_meaning.specs.Rows.{list_value};
ghost use Rattle.tree_model.specs.declared.cells.Content.TheVariants.{Plain as plain};
ghost use Rattle.qml_value.specs.declared.value.Value.{Null as null};
ghost use Rattle.instance_plans.specs.Contents as c;
ghost use Rattle.instance_plans.specs.Treed.{content_made};
ghost use Rattle.instance_contents.specs.Tables.{Stands, rows_in, live_in, plan_in, placed};

use crate::ids::object_of_id;
use crate::tables::{Tables, value_at};
use qml_base::{ExprNo, Home, NoMemory, ObjNo, UnitNo};
use qml_value::{List, Value};
use std::alloc::Global;
use tree_model::{Binding, Content, Rule};
use unit_rows::GivenValue;

/// The document of the instance at a place.
fn unit_of(tables: &Tables, place: u32) -> u32
    ensures { result ≡ (placed tables.now place).unit }
{
    match tables.instances.as_slice().get(place as usize) {
        Some(instance) => instance.unit,
        None => 0,
    }
}

/// The object that an object as written is in the instance at a place.
fn numbered_value(tables: &Tables, place: u32, o: u32) -> Option<Value>
    requires { Stands tables.now }
    ensures { result ≡ c.numbered_value (rows_in tables.now) (live_in tables.now) (plan_in tables.now) (placed tables.now place) o }
{
    match tables.numbers.find((place, o)) {
        Some(number) => Some(value_at(tables, number)),
        None => None,
    }
}

/// The same, or null.
fn object_value(tables: &Tables, place: u32, o: u32) -> Value
    requires { Stands tables.now }
    ensures { result ≡ unwrap_or (c.numbered_value (rows_in tables.now) (live_in tables.now) (plan_in tables.now) (placed tables.now place) o) null }
{
    match numbered_value(tables, place, o) {
        Some(value) => value,
        None => Value::Null,
    }
}

/// The objects that objects as written are in the instance at a place.
fn object_values(
    alloc: Global,
    tables: &Tables,
    place: u32,
    objects: &[u32],
) -> Result<Vec<Value>, NoMemory>
    requires { Stands tables.now }
    ensures { IfOk result (λ values. values.items ≡ filter_map (c.numbered_value (rows_in tables.now) (live_in tables.now) (plan_in tables.now) (placed tables.now place)) objects.now) }
{
    let mut values = Vec::new(alloc);
    'objects: for o in objects {
        if let Some(value) = numbered_value(tables, place, *o) {
            values.push(value)?;
        }
    }
    Ok(values)
}

/// The list of these objects.
#[tactic(auto, using(crate::proofs::ListLemmas::list_kept))]
pub fn list_content(values: Vec<Value>) -> Result<Content, NoMemory>
    ensures { IfOk result (λ x. x ≡ plain (list_value values.items)) }
{
    match List::from_vec(values) {
        Ok(list) => Ok(Content::Plain(Value::List(list))),
        Err(_) => Err(NoMemory),
    }
}

/// A literal.
fn literal(alloc: Global, value: &Value) -> Result<Content, NoMemory>
    ensures { IfOk result (λ x. x ≡ plain value.now) }
{
    match value.copy(alloc) {
        Ok(copy) => Ok(Content::Plain(copy)),
        Err(_) => Err(NoMemory),
    }
}

/// The binding of a body of a document, for the object of a number, by the text of another.
fn bound(unit: u32, body: u32, author: u32, to: u32) -> Content
    ensures { result ≡ content_made (c.bound (c.text_at unit body author to) (record { 0 = to })) }
{
    let text = ExprNo {
        unit: UnitNo(unit),
        at: body,
    };
    let home = Home {
        unit: UnitNo(unit),
        scope: ObjNo(author),
        author: ObjNo(to),
    };
    Content::Bound(Binding {
        rule: Rule::Text(text, home),
        author: ObjNo(to),
    })
}

/// What the object of a number, written in the instance at a place, gives to the object of another.
pub fn content(
    alloc: Global,
    tables: &Tables,
    place: u32,
    author: u32,
    to: u32,
    given: &GivenValue,
) -> Result<Content, NoMemory>
    requires { Stands tables.now }
    ensures { IfOk result (λ x. x ≡ content_made (c.content_of (rows_in tables.now) (live_in tables.now) (plan_in tables.now) (placed tables.now place) author to given.now)) }
{
    match given {
        GivenValue::Literal(value) => literal(alloc, value),
        GivenValue::Body(body) => Ok(bound(unit_of(tables, place), *body, author, to)),
        GivenValue::Object(o) => Ok(Content::Plain(object_value(tables, place, *o))),
        GivenValue::Objects(objects) => {
            let values = object_values(alloc, tables, place, objects.as_slice())?;
            list_content(values)
        }
        GivenValue::Id(name) => Ok(Content::Plain(object_of_id(tables, place, name))),
    }
}
