//! References to objects that are gone.

ghost use Rattle.std.specs.Prelude.{◌≡◌};
ghost use Rattle.qml_value.specs.Scrubbing.{scrubbed, names_one, scrubbed_values, scrubbed_fields, values_name, fields_name};
ghost use Rattle.qml_value.specs.declared.value.Value.{Object as object, Component as component};

use crate::gone::GoneObjects;
use crate::row::Row;
use crate::value::{Field, Value};
use qml_base::ObjNo;
use std::mem;

impl Value {
    /// Puts null in the place of each reference to an object that is gone, and says whether there was one. It takes no
    /// memory, and only reads a value without such a reference. Who scrubs many values calls `scrub_by`.
    pub fn scrub(&mut self, gone: &[ObjNo]) -> bool
        ensures value { self.new ≡ scrubbed gone.now self.old }
        ensures named { result ≡ names_one gone.now self.old }
    {
        self.scrub_by(&GoneObjects::new(gone))
    }

    /// Does what `scrub` does, for numbers that were looked through before.
    pub fn scrub_by(&mut self, gone: &GoneObjects) -> bool
        ensures value { self.new ≡ scrubbed gone.now self.old }
        ensures named { result ≡ names_one gone.now self.old }
    {
        if !self.names(gone) {
            return false;
        }
        let value = mem::replace(self, Value::Undefined);
        *self = value.without(gone);
        true
    }

    /// Whether a reference to one of these objects stands in it.
    #[cycle(naming)]
    pub fn names(&self, gone: &GoneObjects) -> bool
        ensures { result ≡ names_one gone.now self.now }
    {
        match self {
            Value::List(values) => values_name_one(values.parts(), gone),
            Value::Fields(fields) => fields_name_one(fields.parts(), gone),
            Value::Object(number) | Value::Component(number) => gone.has(*number),
            _ => false,
        }
    }

    /// The value with null in the place of each reference to an object that is gone.
    #[cycle(scrubbing)]
    fn without(self, gone: &GoneObjects) -> Value
        ensures { result ≡ scrubbed gone.now self }
    {
        match self {
            Value::List(values) => {
                let mut parts = values.into_vec();
                scrub_values(parts.as_mut_slice(), gone);
                Value::List(Row::of_vec(parts))
            }
            Value::Fields(fields) => {
                let mut parts = fields.into_vec();
                scrub_fields(parts.as_mut_slice(), gone);
                Value::Fields(Row::of_vec(parts))
            }
            Value::Object(number) => object_or_null(gone, number),
            Value::Component(number) => component_or_null(gone, number),
            other => other,
        }
    }
}

fn object_or_null(gone: &GoneObjects, o: ObjNo) -> Value
    ensures { result ≡ scrubbed gone.now (object o) }
{
    if gone.has(o) {
        Value::Null
    } else {
        Value::Object(o)
    }
}

fn component_or_null(gone: &GoneObjects, o: ObjNo) -> Value
    ensures { result ≡ scrubbed gone.now (component o) }
{
    if gone.has(o) {
        Value::Null
    } else {
        Value::Component(o)
    }
}

#[cycle(naming)]
fn values_name_one(values: &[Value], gone: &GoneObjects) -> bool
    ensures { result ≡ values_name gone.now values.now }
{
    'values: for value in values {
        if value.names(gone) {
            return true;
        }
    }
    false
}

#[cycle(naming)]
fn fields_name_one(fields: &[Field], gone: &GoneObjects) -> bool
    ensures { result ≡ fields_name gone.now fields.now }
{
    'fields: for field in fields {
        if field.value.names(gone) {
            return true;
        }
    }
    false
}

/// Scrubs each of the values.
#[cycle(scrubbing)]
fn scrub_values(values: &mut [Value], gone: &GoneObjects)
    ensures { values.new ≡ scrubbed_values gone.now values.old }
{
    'values: for i in 0..values.len() {
        let value = mem::replace(&mut values[i], Value::Undefined);
        values[i] = value.without(gone);
    }
}

/// Scrubs the value of each of the fields.
#[cycle(scrubbing)]
fn scrub_fields(fields: &mut [Field], gone: &GoneObjects)
    ensures { fields.new ≡ scrubbed_fields gone.now fields.old }
{
    'fields: for i in 0..fields.len() {
        let value = mem::replace(&mut fields[i].value, Value::Undefined);
        fields[i].value = value.without(gone);
    }
}
