//! What counts as true.

ghost use Rattle.std.specs.Prelude.{◌↔◌, IsTrue};
ghost use Rattle.qml_value.specs.Truth.{CountsAsTrue};

use crate::value::Value;

impl Value {
    /// Whether it counts as true (ECMA-262, 7.1.2 ToBoolean): all values do but undefined, null, false, 0 and the empty
    /// text.
    pub fn counts_as_true(&self) -> bool
        ensures { IsTrue result ↔ CountsAsTrue self.now }
    {
        match self {
            Value::Undefined | Value::Null => false,
            Value::Bool(b) => *b,
            Value::Num(number) => number.get() != 0,
            Value::Text(text) => !text.is_empty(),
            _ => true,
        }
    }
}
