//! How heavy and how deeply nested a value is.

ghost use Rattle.std.specs.Prelude.{◌≡◌, ◌+◌, ◌-◌, ◌^◌, ◌↔◌, min, sum_by, IsTrue};
ghost use Rattle.qml_value.specs.Weights.{weight_of, nesting_of, deepest, deepest_field, IsTooHeavy};

use crate::value::{Field, Value};
use qml_base::{DEPTH_LIMIT, WEIGHT_LIMIT};

impl Value {
    /// Its weight, or `usize::MAX` where the weight passes that: 1 for each value, in it too, and for each unit of a text.
    #[cycle(weighing)]
    pub fn weight(&self) -> usize
        ensures { result ≡ min (weight_of self.now) (2 ^ 64 - 1) }
    {
        match self {
            Value::Text(text) => text.len().saturating_add(1),
            Value::List(values) => weight_inside(values.parts()).saturating_add(1),
            Value::Fields(fields) => weight_under_names(fields.parts()).saturating_add(1),
            _ => 1,
        }
    }

    /// How many lists and fields stand in one another in it, or `usize::MAX` where that passes it: 0 for a value that is
    /// neither.
    #[cycle(nesting)]
    pub fn nesting(&self) -> usize
        ensures { result ≡ min (nesting_of self.now) (2 ^ 64 - 1) }
    {
        match self {
            Value::List(values) => nesting_inside(values.parts()).saturating_add(1),
            Value::Fields(fields) => nesting_under_names(fields.parts()).saturating_add(1),
            _ => 0,
        }
    }

    /// Whether its weight passes 1,048,576 or its nesting 100.
    pub fn is_too_heavy(&self) -> bool
        ensures { IsTrue result ↔ IsTooHeavy self.now }
    {
        self.weight() > WEIGHT_LIMIT || self.nesting() > DEPTH_LIMIT as usize
    }
}

/// The weight of all values together, or `usize::MAX`.
#[cycle(weighing)]
fn weight_inside(values: &[Value]) -> usize
    ensures { result ≡ min (sum_by weight_of values.now) (2 ^ 64 - 1) }
{
    let mut total: usize = 0;
    'inside: for value in values {
        total = total.saturating_add(value.weight());
    }
    total
}

/// The weight of the values of all fields together, or `usize::MAX`.
#[cycle(weighing)]
fn weight_under_names(fields: &[Field]) -> usize
    ensures { result ≡ min (sum_by (λ field. weight_of field.value) fields.now) (2 ^ 64 - 1) }
{
    let mut total: usize = 0;
    'inside: for field in fields {
        total = total.saturating_add(field.value.weight());
    }
    total
}

/// The greatest nesting among the values, or `usize::MAX`.
#[cycle(nesting)]
pub(crate) fn nesting_inside(values: &[Value]) -> usize
    ensures { result ≡ min (deepest values.now) (2 ^ 64 - 1) }
{
    let mut most: usize = 0;
    'inside: for value in values {
        most = most.max(value.nesting());
    }
    most
}

/// The greatest nesting among the values of the fields, or `usize::MAX`.
#[cycle(nesting)]
fn nesting_under_names(fields: &[Field]) -> usize
    ensures { result ≡ min (deepest_field fields.now) (2 ^ 64 - 1) }
{
    let mut most: usize = 0;
    'inside: for field in fields {
        most = most.max(field.value.nesting());
    }
    most
}
