//! Uses of documents.

use qml_base::Place;

/// A use of a document as a type, by its number, with the place of the type's name.
#[derive(Clone, Copy, Debug, PartialEq, Eq)]
pub struct DocumentUse {
    pub at: Place,
    pub document: usize,
}
