//! What a body does outside.

ghost use Rattle.std.specs.Prelude.{◌≡◌};

use qml_base::{CellNo, ExprNo, Home, ObjNo};
use qml_text::Text;
use qml_value::Value;
use std::marker::Model;

/// What a body does outside.
#[derive(Drop)]
pub enum Effect {
    /// An assignment to a property.
    Write(CellNo, Value),
    /// The assignment of a `Qt.binding`: the function, and where it stands.
    Rebind(CellNo, ExprNo, Home),
    /// The emission of an object's signal, by its number there, with its arguments.
    Emit(ObjNo, u32, Args),
    /// A method of an object, by its name, with its arguments; of Undefined the logging of the arguments.
    Call(Value, Text, Args),
}

/// The arguments of a call. Contracts see them as the list of values.
#[derive(Drop)]
pub struct Args {
    values: Vec<Value>,
}

impl Model for Args {
    ghost use Rattle.std.specs.Prelude.{List};
    ghost use Rattle.qml_value.specs.declared.value.Value as value;
    ghost use Rattle.qml_value.specs.contracts.value.Value as v;
    ghost use Rattle.std.specs.Coded.{codes};

    ghost Value = { List value.Value };

    ghost coded = { Prim.hlevel (codes, v.the_row.coded) };

    ghost view = { λ a. a.values.items };
}

impl Args {
    /// The arguments with these values.
    pub fn of_vec(values: Vec<Value>) -> Args
        ensures { result ≡ values.items }
    {
        Args { values }
    }

    /// Their values, in order.
    pub fn values(&self) -> &[Value]
        ensures { result.now ≡ self.now }
    {
        self.values.as_slice()
    }

    /// Their values, in order, as a vector of its own.
    pub fn into_values(self) -> Vec<Value>
        ensures { result.items ≡ self }
    {
        self.values
    }
}
