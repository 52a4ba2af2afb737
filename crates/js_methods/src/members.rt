//! Members and elements of values that are no objects.

ghost use Rattle.std.specs.Prelude.{◌≡◌, pos, IfOk};
ghost use Rattle.js_meaning.specs.Operate.{same_units};
ghost use Rattle.js_meaning.specs.Rows.{at_place, under_in};
ghost use Rattle.js_meaning.specs.Methods.{unit_at as unit_of};
ghost use Rattle.js_meaning.specs.Looking.{plain_member, at_number, or_undefined, unit_or_undefined};

use crate::arguments::{place_in, value_in};
use crate::naming::named;
use qml_text::{NoMemory, Text};
use qml_value::{Field, Num, Value};
use std::alloc::Global;

/// A copy of a value.
pub(crate) fn copied(alloc: Global, value: &Value) -> Result<Value, NoMemory>
    ensures { IfOk result (λ v. v ≡ value.now) }
{
    match value.copy(alloc) {
        Ok(copy) => Ok(copy),
        Err(_) => Err(NoMemory),
    }
}

/// A size as a value.
fn size_value(size: usize) -> Result<Value, NoMemory>
    ensures { IfOk result (λ v. v ≡ Value.Num (pos size)) }
{
    match u32::try_from(size) {
        Ok(n) => Ok(Value::Num(Num::small(n))),
        Err(_) => Err(NoMemory),
    }
}

/// A size where it is asked for, else Undefined.
fn size_if(asked: bool, size: usize) -> Result<Value, NoMemory>
    ensures { IfOk result (λ v. v ≡ or_undefined asked size) }
{
    if asked {
        size_value(size)
    } else {
        Ok(Value::Undefined)
    }
}

/// Whether two names are the same.
fn same_name(a: &Text, b: &Text) -> bool
    ensures { result ≡ same_units a.now b.now }
{
    a.same(b)
}

/// What stands under a name, or Undefined.
fn field_of(alloc: Global, fields: &[Field], name: &Text) -> Result<Value, NoMemory>
    ensures { IfOk result (λ v. v ≡ under_in fields.now name.now) }
{
    let mut rest = fields;
    'fields: while let Some((field, behind)) = rest.split_first() {
        if same_name(name, &field.name) {
            return copied(alloc, &field.value);
        }
        rest = behind;
    }
    Ok(Value::Undefined)
}

/// A member of a value that is neither an object nor Undefined or Null: its length, a field, or Undefined.
#[tactic(auto, using(crate::proofs::MemberLemmas::list_member, crate::proofs::MemberLemmas::fields_member))]
pub fn member_of_plain(alloc: Global, value: &Value, name: &Text) -> Result<Value, NoMemory>
    ensures { IfOk result (λ v. v ≡ plain_member value.now name.now) }
{
    match value {
        Value::Text(text) => size_if(named(name, b"length"), text.len()),
        Value::List(values) => {
            let size = size_if(named(name, b"length"), values.len())?;
            Ok(size)
        }
        Value::Fields(fields) => {
            let field = field_of(alloc, fields.parts(), name)?;
            Ok(field)
        }
        Value::Undefined
        | Value::Null
        | Value::Bool(_)
        | Value::Num(_)
        | Value::Object(_)
        | Value::Component(_) => Ok(Value::Undefined),
    }
}

/// The value at a place, or Undefined.
fn value_at(alloc: Global, values: &[Value], at: u64) -> Result<Value, NoMemory>
    ensures { IfOk result (λ v. v ≡ at_place values.now at) }
{
    match value_in(values, at) {
        Some(value) => copied(alloc, value),
        None => Ok(Value::Undefined),
    }
}

/// The unit at a place as a text, or Undefined.
#[tactic(auto, using(crate::proofs::MemberLemmas::unit_outside, crate::proofs::MemberLemmas::unit_inside))]
fn unit_at(alloc: Global, text: &Text, at: u64) -> Result<Value, NoMemory>
    ensures { IfOk result (λ v. v ≡ unit_or_undefined (unit_of text.now at)) }
{
    if at >= text.len() as u64 {
        return Ok(Value::Undefined);
    }
    let place = at as usize;
    let unit = text.sub(alloc, place, place + 1)?;
    Ok(Value::Text(unit))
}

/// An element by a number: the unit or value at the place, or what stands under its text.
#[tactic(auto, using(crate::proofs::MemberLemmas::text_element, crate::proofs::MemberLemmas::text_below, crate::proofs::MemberLemmas::list_element, crate::proofs::MemberLemmas::list_below, crate::proofs::MemberLemmas::fields_element))]
pub fn element_at(alloc: Global, value: &Value, z: i64) -> Result<Value, NoMemory>
    ensures { IfOk result (λ v. v ≡ at_number value.now z) }
{
    match value {
        Value::Text(text) => match place_in(z) {
            Some(at) => {
                let unit = unit_at(alloc, text, at)?;
                Ok(unit)
            }
            None => Ok(Value::Undefined),
        },
        Value::List(values) => match place_in(z) {
            Some(at) => {
                let element = value_at(alloc, values.parts(), at)?;
                Ok(element)
            }
            None => Ok(Value::Undefined),
        },
        Value::Fields(fields) => {
            let name = Text::of_number(alloc, z)?;
            let field = field_of(alloc, fields.parts(), &name)?;
            Ok(field)
        }
        Value::Undefined
        | Value::Null
        | Value::Bool(_)
        | Value::Num(_)
        | Value::Object(_)
        | Value::Component(_) => Ok(Value::Undefined),
    }
}
