//! The type of values.

ghost use Rattle.std.specs.Prelude.{◌≡◌};
ghost use Rattle.qml_value.specs.Kinds.{kind_of};

use crate::number::Num;
use crate::row::Row;
use qml_base::ObjNo;
use qml_text::Text;
use std::fmt;

/// A value of the language (ECMA-262, 6.1, as far as whole numbers, lists and fields go), or a reference to an object.
#[cycle(value)]
#[derive(Debug, Drop)]
pub enum Value {
    /// The value undefined.
    Undefined,
    /// The value null.
    Null,
    /// True or false.
    Bool(bool),
    /// A whole number.
    Num(Num),
    /// A text.
    Text(Text),
    /// Values in order.
    List(List),
    /// Values under distinct names, in the order of the first writing of each name.
    Fields(Fields),
    /// The object of this number, which is no Component.
    Object(ObjNo),
    /// The Component of this number.
    Component(ObjNo),
}

/// A list of values. Contracts see it as that list.
pub type List = Row<Value>;

/// Names with their values. Contracts see them as the list of the pairs.
pub type Fields = Row<Field>;

/// A name with its value.
#[cycle(value)]
#[derive(Debug, Drop)]
pub struct Field {
    pub name: Text,
    pub value: Value,
}

/// What kind of value one is: a variant for each variant of `Value`.
#[derive(Clone, Copy, Debug, PartialEq, Eq)]
pub enum Kind {
    Undefined,
    Null,
    Bool,
    Num,
    Text,
    List,
    Fields,
    Object,
    Component,
}

impl fmt::Display for Kind {
    fn fmt<W: fmt::Write>(&self, f: &mut fmt::Formatter<W>) -> fmt::Result {
        let word = match self {
            Kind::Undefined => "undefined",
            Kind::Null => "null",
            Kind::Bool => "bool",
            Kind::Num => "number",
            Kind::Text => "text",
            Kind::List => "list",
            Kind::Fields => "fields",
            Kind::Object => "object",
            Kind::Component => "Component",
        };
        write!(f, "{word}")
    }
}

impl Value {
    /// Its kind.
    pub fn kind(&self) -> Kind
        ensures { result ≡ kind_of self.now }
    {
        match self {
            Value::Undefined => Kind::Undefined,
            Value::Null => Kind::Null,
            Value::Bool(_) => Kind::Bool,
            Value::Num(_) => Kind::Num,
            Value::Text(_) => Kind::Text,
            Value::List(_) => Kind::List,
            Value::Fields(_) => Kind::Fields,
            Value::Object(_) => Kind::Object,
            Value::Component(_) => Kind::Component,
        }
    }
}
