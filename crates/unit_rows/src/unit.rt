//! The tables of a unit.

use crate::bodies::UnitBodies;
use crate::given::{ChangeRow, ValueRow};
use crate::names::{CellRow, HandlerRow, NameRow};
use crate::row_list::Rows;
use qml_text::Text;
use qml_types::TypeRef;
use qml_value::Value;

/// An object as written.
#[derive(Drop)]
pub struct ObjectRow {
    /// Its type as written.
    pub shown: Text,
    pub of_type: TypeRef,
    pub owner: Option<u32>,
    /// Whether it is written as an Item's child, and an Item.
    pub is_child: bool,
    /// Whether a Component is made around it.
    pub is_held: bool,
    /// What a Component holds.
    pub holds: Option<u32>,
    pub cells: Rows<CellRow>,
    pub values: Rows<ValueRow>,
    pub changes: Rows<ChangeRow>,
    pub handlers: Rows<HandlerRow>,
    /// The names that it declares.
    pub names: Rows<NameRow>,
    /// The rows of a ListModel.
    pub elements: Rows<Rows<(Text, Value)>>,
}

/// A component.
#[derive(Drop)]
pub struct ComponentRow {
    /// Its root.
    pub root: u32,
    /// The root of the component around it.
    pub enclosing: Option<u32>,
    /// Its objects in document order, with those around which a Component is made in it.
    pub standing: Rows<u32>,
    pub ids: Rows<(Text, u32)>,
}

/// What is kept of a loaded document or script.
#[derive(Drop)]
pub struct Unit {
    pub objects: Rows<ObjectRow>,
    pub components: Rows<ComponentRow>,
    /// Its tree, with its bodies.
    pub bodies: UnitBodies,
    /// The qualifiers of its scripts; the first that is found counts.
    pub scripts: Rows<(Text, u32)>,
    /// A script's functions with their bodies; likewise.
    pub functions: Rows<(Text, u32)>,
}
