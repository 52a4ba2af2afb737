//! The objects and instances of a plan.

use unit_rows::Rows;

/// An object that is made, or the Component that is made around it.
#[derive(Clone, Copy, Debug, PartialEq, Eq)]
pub struct Planned {
    pub number: u32,
    /// The document in which it is written, and its number among the objects there.
    pub unit: u32,
    pub object: u32,
    pub is_around: bool,
    pub owner: Option<u32>,
}

/// An instance of a component of a document.
#[derive(Drop)]
pub struct PlannedInstance {
    pub unit: u32,
    /// The number of the component's root among the objects of the document.
    pub component: u32,
    /// The number that the root has got.
    pub root: u32,
    /// The number of the root of the instance around it.
    pub enclosing: Option<u32>,
    /// Its objects as written, with their numbers.
    pub objects: Rows<(u32, u32)>,
}
