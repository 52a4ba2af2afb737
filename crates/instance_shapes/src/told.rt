//! From where names are seen.

/// An object as a document sees it: the place of the instance in which the names are declared, if there is one, its document, the
/// object's number, and how many cells it has.
#[derive(Clone, Copy, Debug, PartialEq, Eq)]
pub struct Viewer {
    pub place: Option<u32>,
    pub unit: u32,
    pub number: u32,
    pub cells: u32,
}
