//! Reading methods, by their names.

ghost use Rattle.std.specs.Prelude.{◌≡◌, IfOk, codes, if◌then◌else◌};
ghost use Rattle.qml_value.specs.Texts.{text_of};
ghost use Rattle.js_meaning.specs.Operate.{same_units, weighed};
ghost use Rattle.js_meaning.specs.Methods.{method_of, text_from, part_of_cell};

use crate::arguments::{first_of, second_of};
use crate::list_methods::{item_at, list_method, row_at};
use crate::naming::named;
use crate::text_methods::text_method;
use evaluation::Ended;
use js_operators::text_value;
use qml_base::Cause;
use qml_text::{NoMemory, Text};
use qml_value::Value;
use std::alloc::Global;

/// A number's `toString`, without a radix (ECMA-262, 21.1.3.6).
fn number_method(alloc: Global, value: &Value, name: &Text) -> Result<Ended, NoMemory>
    ensures { IfOk result (λ e. e ≡ (if same_units name.now
        (codes "toString") then weighed (Value.Text (text_of value.now)) else Ended.Threw Cause.Call)) }
{
    if named(name, b"toString") {
        text_value(alloc, value)
    } else {
        Ok(Ended::Threw(Cause::Call))
    }
}

/// A reading method of a value that is no object, with its arguments; one that the value doesn't have throws `call`.
#[tactic(auto, using(crate::proofs::MethodLemmas::method_of_list))]
pub fn method(
    alloc: Global,
    value: &Value,
    name: &Text,
    values: &[Value],
) -> Result<Ended, NoMemory>
    ensures { IfOk result (λ e. e ≡ method_of value.now name.now values.now) }
{
    let absent = Value::Undefined;
    let first = first_of(values, &absent);
    let second = second_of(values, &absent);
    match value {
        Value::Text(text) => text_method(alloc, text, name, first, second),
        Value::List(list) => {
            let ended = list_method(alloc, list.parts(), name, values, first, second)?;
            Ok(ended)
        }
        Value::Num(_) => number_method(alloc, value, name),
        Value::Undefined
        | Value::Null
        | Value::Bool(_)
        | Value::Fields(_)
        | Value::Object(_)
        | Value::Component(_) => Ok(Ended::Threw(Cause::Call)),
    }
}

/// `String` (ECMA-262, 22.1.1.1).
pub fn text_from(alloc: Global, values: &[Value]) -> Result<Ended, NoMemory>
    ensures { IfOk result (λ e. e ≡ text_from values.now) }
{
    match values.split_first() {
        None => Ok(Ended::Value(Value::Text(Text::new()))),
        Some((value, _)) => text_value(alloc, value),
    }
}

/// What `itemAt` gives at a place, or else `get`, of what the hidden cell holds.
pub fn part_of(alloc: Global, name: &Text, held: &Value, z: i64) -> Result<Value, NoMemory>
    ensures { IfOk result (λ v. v ≡ part_of_cell name.now held.now z) }
{
    if named(name, b"itemAt") {
        item_at(alloc, held, z)
    } else {
        row_at(alloc, held, z)
    }
}
