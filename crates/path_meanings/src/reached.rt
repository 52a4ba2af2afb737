//! What names lead to.

use qml_types::{Access, PropKind};

/// What a path of names leads to.
#[derive(Clone, Copy, Debug)]
pub enum Reached {
    /// A property, with a cell.
    Cell { kind: PropKind, access: Access },
    /// The object of a number in the document of a number.
    Object { document: usize, object: usize },
    /// A name that is none of a property, an object or an alias, or aliases that lead back to themselves.
    Nothing,
}
