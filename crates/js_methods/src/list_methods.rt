//! Reading methods of lists (ECMA-262, 23.1.3), and of what hidden cells hold.

ghost use Rattle.std.specs.Prelude.{◌≡◌, ◌≤◌, [], ◌∷◌, ◌++◌, pos, length, IfOk, MatchOption};
ghost use Rattle.js_meaning.specs.Operate.{truth, weighed};
ghost use Rattle.js_meaning.specs.Rows.{list_value, at_place};
ghost use Rattle.js_meaning.specs.Methods.{with_number_or, from_end, part, value_from, place_or, is_found, flattened, list_whole, list_method, item_at, row_at, fields_of_row};

use crate::arguments::{from_end, number_or, place_in, place_or, size_number, value_in};
use crate::joining::join;
use crate::members::copied;
use crate::naming::named;
use crate::searching::value_from;
use evaluation::Ended;
use js_operators::weighed_list;
use qml_base::Cause;
use qml_text::{NoMemory, Text};
use qml_value::{List, Value};
use std::alloc::Global;

/// `indexOf` (ECMA-262, 23.1.3.17).
fn index_of(values: &[Value], sought: &Value, from: &Value) -> Result<Ended, NoMemory>
    ensures { IfOk result (λ e. e ≡ with_number_or
        (pos 0) from.now (λ z. place_or (value_from sought.now values.now (from_end (length values.now) z)))) }
{
    let Some(z) = number_or(from, 0) else {
        return Ok(Ended::Threw(Cause::Kind));
    };
    let from = from_end(values.len(), z);
    place_or(value_from(sought, values, from))
}

/// `includes` (ECMA-262, 23.1.3.16).
fn includes(values: &[Value], sought: &Value, from: &Value) -> Ended
    ensures { result ≡ with_number_or
        (pos 0) from.now (λ z. truth (is_found (value_from sought.now values.now (from_end (length values.now) z)))) }
{
    let Some(z) = number_or(from, 0) else {
        return Ended::Threw(Cause::Kind);
    };
    let from = from_end(values.len(), z);
    match value_from(sought, values, from) {
        Some(_) => Ended::Value(Value::Bool(true)),
        None => Ended::Value(Value::Bool(false)),
    }
}

/// Adds copies of values.
fn append(alloc: Global, copies: &mut Vec<Value>, values: &[Value]) -> Result<(), NoMemory>
    ensures { IfOk result (λ _. copies.new.items ≡ copies.old.items ++ values.now) }
{
    let mut rest = values;
    'values: while let Some((value, behind)) = rest.split_first() {
        let copy = copied(alloc, value)?;
        copies.push(copy)?;
        rest = behind;
    }
    Ok(())
}

/// Copies of the values between two places, of which the second may come first.
#[tactic(auto, using(crate::proofs::MethodLemmas::no_values))]
fn between(alloc: Global, values: &[Value], from: usize, to: usize) -> Result<Vec<Value>, NoMemory>
    requires { to ≤ length values.now }
    ensures { IfOk result (λ copies. copies.items ≡ part from to values.now) }
{
    let mut copies = Vec::new(alloc);
    if from < to {
        append(alloc, &mut copies, &values[from..to])?;
    }
    Ok(copies)
}

/// The list of these values, which stood in a list.
#[tactic(auto, using(crate::proofs::MethodLemmas::list_kept))]
fn list_of(values: Vec<Value>) -> Result<Ended, NoMemory>
    ensures { IfOk result (λ e. e ≡ Ended.Value (list_value values.items)) }
{
    match List::from_vec(values) {
        Ok(list) => Ok(Ended::Value(Value::List(list))),
        Err(_) => Err(NoMemory),
    }
}

/// `slice` (ECMA-262, 23.1.3.28).
fn slice(alloc: Global, values: &[Value], from: &Value, to: &Value) -> Result<Ended, NoMemory>
    ensures { IfOk result (λ e.
        e ≡ with_number_or (pos 0) from.now (λ a. with_number_or (pos (length values.now)) to.now (λ b. Ended.Value
        (list_value (part (from_end (length values.now) a) (from_end (length values.now) b) values.now))))) }
{
    let size = size_number(values.len())?;
    let Some(a) = number_or(from, 0) else {
        return Ok(Ended::Threw(Cause::Kind));
    };
    let Some(b) = number_or(to, size) else {
        return Ok(Ended::Threw(Cause::Kind));
    };
    let copies = between(
        alloc,
        values,
        from_end(values.len(), a),
        from_end(values.len(), b),
    )?;
    list_of(copies)
}

/// The values of a list.
#[tactic(auto, using(crate::proofs::MethodLemmas::flat_list))]
fn values_in(value: &Value) -> Option<&[Value]>
    ensures { MatchOption result
        (flattened (value.now ∷ []) ≡ value.now ∷ []) (λ values. flattened (value.now ∷ []) ≡ values.now) }
{
    match value {
        Value::List(list) => Some(list.parts()),
        Value::Undefined
        | Value::Null
        | Value::Bool(_)
        | Value::Num(_)
        | Value::Text(_)
        | Value::Fields(_)
        | Value::Object(_)
        | Value::Component(_) => None,
    }
}

/// Adds a value, or the values of a list.
fn append_flat(alloc: Global, copies: &mut Vec<Value>, value: &Value) -> Result<(), NoMemory>
    ensures { IfOk result (λ _. copies.new.items ≡ copies.old.items ++ flattened (value.now ∷ [])) }
{
    match values_in(value) {
        Some(values) => append(alloc, copies, values),
        None => {
            let copy = copied(alloc, value)?;
            copies.push(copy)?;
            Ok(())
        }
    }
}

/// Adds values, and the values of lists.
#[tactic(auto, using(crate::proofs::MethodLemmas::flat_on))]
fn append_all(alloc: Global, copies: &mut Vec<Value>, values: &[Value]) -> Result<(), NoMemory>
    ensures { IfOk result (λ _. copies.new.items ≡ copies.old.items ++ flattened values.now) }
{
    let mut rest = values;
    'values: while let Some((value, behind)) = rest.split_first() {
        append_flat(alloc, copies, value)?;
        rest = behind;
    }
    Ok(())
}

/// `concat` (ECMA-262, 23.1.3.2).
fn concat(alloc: Global, values: &[Value], others: &[Value]) -> Result<Ended, NoMemory>
    ensures { IfOk result (λ e. e ≡ weighed (list_value (values.now ++ flattened others.now))) }
{
    let mut copies = Vec::new(alloc);
    append(alloc, &mut copies, values)?;
    append_all(alloc, &mut copies, others)?;
    Ok(weighed_list(copies))
}

/// The methods that go over the whole list, with its arguments, of which this is the first.
fn whole_method(
    alloc: Global,
    values: &[Value],
    name: &Text,
    arguments: &[Value],
    first: &Value,
) -> Result<Ended, NoMemory>
    requires { first.now ≡ at_place arguments.now 0 }
    ensures { IfOk result (λ e. e ≡ list_whole values.now name.now arguments.now) }
{
    if named(name, b"concat") {
        concat(alloc, values, arguments)
    } else if named(name, b"join") {
        join(alloc, values, first)
    } else {
        Ok(Ended::Threw(Cause::Call))
    }
}

/// A reading method of a list, with its arguments, of which these are the first two.
pub(crate) fn list_method(
    alloc: Global,
    values: &[Value],
    name: &Text,
    arguments: &[Value],
    first: &Value,
    second: &Value,
) -> Result<Ended, NoMemory>
    requires first { first.now ≡ at_place arguments.now 0 }
    requires second { second.now ≡ at_place arguments.now 1 }
    ensures { IfOk result (λ e. e ≡ list_method values.now name.now arguments.now) }
{
    if named(name, b"indexOf") {
        index_of(values, first, second)
    } else if named(name, b"includes") {
        Ok(includes(values, first, second))
    } else if named(name, b"slice") {
        slice(alloc, values, first, second)
    } else {
        whole_method(alloc, values, name, arguments, first)
    }
}

/// `itemAt` of what a Repeater's hidden cell holds: its delegate there, or Null.
#[tactic(auto, using(crate::proofs::MethodLemmas::item_of_list, crate::proofs::MethodLemmas::item_below))]
pub(crate) fn item_at(alloc: Global, held: &Value, z: i64) -> Result<Value, NoMemory>
    ensures { IfOk result (λ v. v ≡ item_at held.now z) }
{
    let Value::List(list) = held else {
        return Ok(Value::Null);
    };
    let Some(at) = place_in(z) else {
        return Ok(Value::Null);
    };
    match value_in(list.parts(), at) {
        Some(value) => copied(alloc, value),
        None => Ok(Value::Null),
    }
}

/// The fields of a row.
#[tactic(auto, using(crate::proofs::MethodLemmas::fields_in_row))]
fn fields_of(alloc: Global, row: &Value) -> Result<Value, NoMemory>
    ensures { IfOk result (λ v. v ≡ fields_of_row row.now) }
{
    let Value::List(list) = row else {
        return Ok(Value::Undefined);
    };
    match value_in(list.parts(), 1) {
        Some(value) => copied(alloc, value),
        None => Ok(Value::Undefined),
    }
}

/// `get` of what a model's hidden cell holds: the fields of the row there, or Undefined.
#[tactic(auto, using(crate::proofs::MethodLemmas::row_of_list, crate::proofs::MethodLemmas::row_below, crate::proofs::MethodLemmas::row_missing))]
pub(crate) fn row_at(alloc: Global, held: &Value, z: i64) -> Result<Value, NoMemory>
    ensures { IfOk result (λ v. v ≡ row_at held.now z) }
{
    let Value::List(list) = held else {
        return Ok(Value::Undefined);
    };
    let Some(at) = place_in(z) else {
        return Ok(Value::Undefined);
    };
    match value_in(list.parts(), at) {
        Some(row) => fields_of(alloc, row),
        None => Ok(Value::Undefined),
    }
}
