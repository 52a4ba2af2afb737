//! Signals, and what they bring.

use qml_base::{ExprNo, ObjNo};
use qml_text::Text;
use qml_value::Value;

/// A signal of an object.
#[derive(Clone, Copy, Debug, PartialEq, Eq)]
pub enum Signal {
    /// By its number among the signals of the object: the change of the cell of a place has twice the place.
    Numbered(u32),
    /// `Component.completed`.
    Completed,
    /// `Component.destruction`.
    Destruction,
}

/// What a delivery does.
#[derive(Drop)]
pub enum Deed {
    /// The object starts.
    Starts,
    /// It reacts to one of its properties.
    Reacts(Text),
    /// A body runs as the handler of this name, with the names of the signal's parameters and its arguments.
    Runs {
        handler: Text,
        body: ExprNo,
        names: Vec<Text>,
        args: Vec<Value>,
    },
}

/// A delivery to an object.
#[derive(Drop)]
pub struct Delivery {
    pub object: ObjNo,
    pub deed: Deed,
    /// Whether a handler of a Connections runs.
    pub is_aimed: bool,
}
