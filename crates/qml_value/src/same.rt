//! Which values are the same, and copies.

ghost use Rattle.std.specs.Prelude.{◌≡◌, ◌↔◌, IfOk, IsTrue};
ghost use Rattle.qml_value.specs.Sameness.{Same};

use crate::row::Row;
use crate::value::{Field, Fields, List, Value};
use qml_base::NoMemory;
use std::alloc::Global;

impl Value {
    /// Whether two values are of one kind and have the same contents, part by part; fields with their order.
    #[cycle(comparing)]
    pub fn same(&self, other: &Value) -> bool
        ensures { IsTrue result ↔ Same self.now other.now }
    {
        match (self, other) {
            (Value::Undefined, Value::Undefined) => true,
            (Value::Null, Value::Null) => true,
            (Value::Bool(a), Value::Bool(b)) => *a == *b,
            (Value::Num(a), Value::Num(b)) => *a == *b,
            (Value::Text(a), Value::Text(b)) => a.same(b),
            (Value::List(a), Value::List(b)) => same_values(a.parts(), b.parts()),
            (Value::Fields(a), Value::Fields(b)) => same_fields(a.parts(), b.parts()),
            (Value::Object(a), Value::Object(b)) => *a == *b,
            (Value::Component(a), Value::Component(b)) => *a == *b,
            _ => false,
        }
    }

    /// A value that is the same.
    pub fn copy(&self, alloc: Global) -> Result<Value, NoMemory>
        ensures { IfOk result (λ copy. Same copy self.now) }
    {
        match self.copied(alloc) {
            Ok(copy) => Ok(copy),
            Err(_) => Err(NoMemory),
        }
    }

    /// A value that is the same.
    #[cycle(copying)]
    fn copied(&self, alloc: Global) -> Result<Value, qml_text::NoMemory>
        ensures { IfOk result (λ copy. copy ≡ self.now) }
    {
        match self {
            Value::Undefined => Ok(Value::Undefined),
            Value::Null => Ok(Value::Null),
            Value::Bool(b) => Ok(Value::Bool(*b)),
            Value::Num(n) => Ok(Value::Num(*n)),
            Value::Text(text) => Ok(Value::Text(text.copy(alloc)?)),
            Value::List(values) => Ok(Value::List(copy_values(alloc, values.parts())?)),
            Value::Fields(fields) => Ok(Value::Fields(copy_fields(alloc, fields.parts())?)),
            Value::Object(number) => Ok(Value::Object(*number)),
            Value::Component(number) => Ok(Value::Component(*number)),
        }
    }
}

/// Whether the values of two lists are the same, one by one.
#[cycle(comparing)]
fn same_values(a: &[Value], b: &[Value]) -> bool
    ensures { IsTrue result ↔ (a.now ≡ b.now) }
{
    if a.len() != b.len() {
        return false;
    }
    'values: for (i, value) in a.iter().enumerate() {
        if !value.same(&b[i]) {
            return false;
        }
    }
    true
}

/// Whether two rows of fields have the same names and values, one by one.
#[cycle(comparing)]
fn same_fields(a: &[Field], b: &[Field]) -> bool
    ensures { IsTrue result ↔ (a.now ≡ b.now) }
{
    if a.len() != b.len() {
        return false;
    }
    'fields: for (i, field) in a.iter().enumerate() {
        if !field.name.same(&b[i].name) || !field.value.same(&b[i].value) {
            return false;
        }
    }
    true
}

/// A list of copies.
#[cycle(copying)]
fn copy_values(alloc: Global, values: &[Value]) -> Result<List, qml_text::NoMemory>
    ensures { IfOk result (λ copy. copy ≡ values.now) }
{
    let mut copy = Vec::with_capacity(alloc, values.len())?;
    'values: for value in values {
        copy.push(value.copied(alloc)?)?;
    }
    Ok(Row::of_vec(copy))
}

/// Fields with copies of the names and values.
#[cycle(copying)]
fn copy_fields(alloc: Global, fields: &[Field]) -> Result<Fields, qml_text::NoMemory>
    ensures { IfOk result (λ copy. copy ≡ fields.now) }
{
    let mut copy = Vec::with_capacity(alloc, fields.len())?;
    'fields: for field in fields {
        let name = field.name.copy(alloc)?;
        let value = field.value.copied(alloc)?;
        copy.push(Field { name, value })?;
    }
    Ok(Row::of_vec(copy))
}
