//! Ways to objects, and where paths end.

use qml_types::{Access, PropKind};

/// A document and the number of an object in it.
pub type Hop = (usize, usize);

/// The way to an object that an instance of a document makes: one that the document writes, and from there inner objects of
/// the documents of types.
#[derive(Debug, Drop)]
pub struct Way {
    pub base: usize,
    pub hops: Vec<Hop>,
}

/// An object as a document writes it: of the document that looks, or of another one, with the way to the object that has
/// this one as a type.
#[derive(Debug, Drop)]
pub struct SeenObject {
    pub holder: Option<Way>,
    pub document: usize,
    pub object: usize,
}

/// Where a path of names ends.
#[derive(Debug, Drop)]
pub enum PathEnd {
    /// At a cell of an object, by its place among all that the object has.
    Cell {
        way: Way,
        place: usize,
        kind: PropKind,
        access: Access,
    },
    Object(SeenObject),
    /// At a name that is none of a cell or of an alias.
    Nothing,
    /// Aliases lead back to themselves.
    Circle,
}
