//! Names of objects, and handlers.

use crate::row_list::Rows;
use crate::way::Way;
use qml_text::Text;
use qml_types::{Access, PropKind};

/// A signal.
#[derive(Drop)]
pub enum SignalRef {
    /// The change of the cell of a place.
    Change(u32),
    /// Another one of the object, by its number among these.
    Own(u32),
    /// One of the target of a Connections, by the handler's name.
    OfTarget(Text),
    /// `Component.onCompleted`.
    Completed,
    /// `Component.onDestruction`.
    Destruction,
}

/// A handler with its body.
#[derive(Drop)]
pub struct HandlerRow {
    pub signal: SignalRef,
    pub body: u32,
}

/// What a name of an object finds in a document's instance.
#[derive(Drop)]
pub enum NameFinds {
    /// The object's cell of a place.
    Cell(u32, Access),
    /// A signal, with the names of its parameters.
    Signal(SignalRef, Rows<Text>),
    /// A function, by its body.
    Function(u32),
    Method,
    /// An object, by an alias of a whole object.
    Object(Way),
    /// The cell of a place of an object, by an alias of a property.
    CellOf(Way, u32, Access),
}

/// A name of an object with what it finds.
#[derive(Drop)]
pub struct NameRow {
    pub name: Text,
    pub finds: NameFinds,
}

/// A declared property.
#[derive(Drop)]
pub struct CellRow {
    pub name: Text,
    pub kind: PropKind,
    pub access: Access,
}
