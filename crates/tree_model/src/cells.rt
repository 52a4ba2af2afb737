//! Objects and cells.

use qml_base::{Cause, CellNo, ExprNo, Home, ObjNo};
use qml_types::PropKind;
use qml_value::Value;

/// What a binding is computed by: a text of a document, or a rule that is built in.
#[derive(Clone, Copy, Debug, PartialEq, Eq)]
pub enum Rule {
    /// A text, evaluated from its home.
    Text(ExprNo, Home),
    /// Whether an Item is shown: its own switch, and then its parent's `visible` (Qt 5.15, Item).
    Visible,
    /// Whether an Item takes input: its own switch, and then its parent's `enabled` (Qt 5.15, Item).
    Enabled,
    /// How many rows a ListModel has, or a Repeater's model (Qt 5.15, ListModel and Repeater).
    Count,
    /// The value of a Binding element (Qt 5.15, Binding).
    Follow(ObjNo),
}

/// A rule, and the object in whose text it stands.
#[derive(Clone, Copy, Debug, PartialEq, Eq)]
pub struct Binding {
    pub rule: Rule,
    pub author: ObjNo,
}

/// What a cell contains.
#[derive(Debug, Drop)]
pub enum Content {
    Plain(Value),
    Bound(Binding),
}

/// How the last settling ended for a cell. Of a value only that there is one: the cell holds it.
#[derive(Clone, Copy, Debug, PartialEq, Eq)]
pub enum Outcome {
    Value,
    Threw(Cause),
    Loop,
    Past,
}

/// A cell of the tree.
#[derive(Debug, Drop)]
pub struct Cell {
    pub no: CellNo,
    pub kind: PropKind,
    pub content: Content,
    pub held: Value,
    /// A second copy of what it holds, where a text of another object binds it: it becomes the content, without memory, when
    /// that object goes.
    pub spare: Option<Value>,
    pub outcome: Outcome,
    /// Whether the removal of objects changed what it holds since the last settling.
    pub noted: bool,
}

/// What an object is given for a cell: the kind, the content, and what it holds until its content gives a value.
#[derive(Debug, Drop)]
pub struct NewCell {
    pub kind: PropKind,
    pub content: Content,
    pub held: Value,
}

/// An object of the tree. Its types and names are kept elsewhere.
#[derive(Clone, Copy, Debug, PartialEq, Eq)]
pub struct Object {
    pub number: ObjNo,
    pub owner: Option<ObjNo>,
    /// The Component that it was made from.
    pub origin: Option<ObjNo>,
    pub condemned: bool,
}

/// That a cell became a loop, or threw, with the cause.
#[derive(Clone, Copy, Debug, PartialEq, Eq)]
pub struct Report {
    pub cell: CellNo,
    /// The cause of a throw; none for a loop.
    pub cause: Option<Cause>,
}
