//! Converting a value to a property's kind.

ghost use Rattle.std.specs.Prelude.{◌≡◌, []};
ghost use Rattle.qml_value.specs.Kinds.{kind_of};
ghost use Rattle.qml_types.specs.Conversion.{IsConverted, default_of as default_value};
ghost use Rattle.qml_types.specs.declared.conversion.ConvertFault.TheVariants as fault;
ghost use Rattle.qml_types.specs.declared.kind.PropKind.TheVariants as kinds;

use crate::kind::{PropKind, TypeRef};
use qml_text::{NoMemory, Text};
use qml_value::{Kind, List, Num, Value};
use std::alloc::Global;
use thiserror::Error;

/// Why a value isn't converted.
#[derive(Clone, Copy, Debug, PartialEq, Eq, Error)]
pub enum ConvertFault {
    /// The kind of property takes no value of the given kind, or not this object.
    #[error("the property doesn't take this value, which is of kind {given}")]
    BadKind { given: Kind },
    /// There was no memory.
    #[error("there was no memory")]
    NoMemory,
}

impl From<NoMemory> for ConvertFault {
    ghost from_gives = { λ _ e. e ≡ fault.NoMemory };

    fn from(_error: NoMemory) -> ConvertFault {
        ConvertFault::NoMemory
    }
}

/// The value as a property of the kind holds it. `types` are the types of the object that the value names, from its own to
/// the lowest that it stands on; they aren't looked at for another value.
///
/// A number stays what it is for `int`, `real` and `double`; a text, a number and a bool become their text for `string`,
/// `url` and `color`; all values but undefined become true or false for `bool`; `var` and `variant` take all values as they
/// are; an object type takes null, and objects of it or of a type that stands on it; `Component` takes null and Components;
/// a list is filled by a document alone. The answer is `BadKind` exactly where the kind doesn't take the value.
pub fn convert(
    alloc: Global,
    kind: &PropKind,
    types: &[TypeRef],
    value: Value,
) -> Result<Value, ConvertFault>
    ensures { IsConverted kind.now types.now value result }
{
    match kind {
        PropKind::Int | PropKind::Real | PropKind::Double => to_number(value),
        PropKind::String | PropKind::Url | PropKind::Color => to_text(alloc, value),
        PropKind::Bool => to_truth(value),
        PropKind::Var | PropKind::Variant => Ok(value),
        PropKind::Object(wanted) => to_object(*wanted, types, value),
        PropKind::Component => to_component(value),
        PropKind::List(_) => Err(refusal(&value)),
    }
}

/// What a property of the kind holds where nothing else is said: 0, the empty text, false, undefined, null, or no objects.
pub fn default_of(alloc: Global, kind: &PropKind) -> Value
    ensures { result ≡ default_value kind.now }
{
    match kind {
        PropKind::Int | PropKind::Real | PropKind::Double => Value::Num(Num::small(0)),
        PropKind::String | PropKind::Url | PropKind::Color => Value::Text(Text::new()),
        PropKind::Bool => Value::Bool(false),
        PropKind::Var | PropKind::Variant => Value::Undefined,
        PropKind::Object(_) | PropKind::Component => Value::Null,
        PropKind::List(_) => Value::List(List::new(alloc)),
    }
}

/// The fault that names the value's kind.
fn refusal(value: &Value) -> ConvertFault
    ensures { result ≡ fault.BadKind (kind_of value.now) }
{
    ConvertFault::BadKind {
        given: value.kind(),
    }
}

fn to_number(value: Value) -> Result<Value, ConvertFault>
    ensures { IsConverted kinds.Int [] value result }
{
    match value {
        Value::Num(_) => Ok(value),
        _ => Err(refusal(&value)),
    }
}

fn to_text(alloc: Global, value: Value) -> Result<Value, ConvertFault>
    ensures { IsConverted kinds.String [] value result }
{
    match &value {
        Value::Text(_) => Ok(value),
        Value::Num(number) => Ok(Value::Text(Text::of_number(alloc, number.get())?)),
        Value::Bool(true) => Ok(Value::Text(Text::from_latin1(alloc, b"true")?)),
        Value::Bool(false) => Ok(Value::Text(Text::from_latin1(alloc, b"false")?)),
        _ => Err(refusal(&value)),
    }
}

fn to_truth(value: Value) -> Result<Value, ConvertFault>
    ensures { IsConverted kinds.Bool [] value result }
{
    match value {
        Value::Undefined => Err(refusal(&value)),
        _ => Ok(Value::Bool(value.counts_as_true())),
    }
}

fn to_object(wanted: TypeRef, types: &[TypeRef], value: Value) -> Result<Value, ConvertFault>
    ensures { IsConverted (kinds.Object wanted) types.now value result }
{
    match value {
        Value::Null => Ok(value),
        Value::Object(_) | Value::Component(_) => {
            if types.contains(&wanted) {
                Ok(value)
            } else {
                Err(refusal(&value))
            }
        }
        _ => Err(refusal(&value)),
    }
}

fn to_component(value: Value) -> Result<Value, ConvertFault>
    ensures { IsConverted kinds.Component [] value result }
{
    match value {
        Value::Null | Value::Component(_) => Ok(value),
        _ => Err(refusal(&value)),
    }
}
