//! Rows of objects and of members.

/// An object as it is written. Its number is its place among the rows of objects.
#[derive(Clone, Copy, Debug, PartialEq, Eq)]
pub struct ObjectRow {
    /// The place of its node in the tree.
    pub node: usize,
    /// The row of the member as which, or in the value of which, it is written; none for the root.
    pub row: Option<usize>,
}

/// A member of an object or of a group.
#[derive(Clone, Copy, Debug, PartialEq, Eq)]
pub struct MemberRow {
    /// The place of its node in the tree.
    pub node: usize,
    /// The number of its object.
    pub object: usize,
    /// The row of the group that it stands in, if it stands in one.
    pub group: Option<usize>,
    /// The number that the first object in it has, if there is one in it.
    pub first: usize,
}

/// The objects and the members of a document, in the order of writing, each before those that are written in it.
#[derive(Debug, Drop)]
pub struct DocumentRows {
    pub objects: Vec<ObjectRow>,
    pub members: Vec<MemberRow>,
}
